//! What an end of a goal stack knows. No value of it is made.
use ap_board::Ticket;
use std::collections::LinkedList;

/// Whether it is the owner's, what the owner had pushed when this end last took part, and what this end took.
pub struct Hand {
    pub owner: bool,
    pub pushed: LinkedList<Ticket>,
    pub took: LinkedList<Ticket>,
}
