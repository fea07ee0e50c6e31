//! Notes of the goals that a seat has out.
use ap_board::Ticket;

/// Names a goal of the seat's own that is out: the offer, and the frame and the place that the goal is of. It is gone once another
/// seat is known to have taken it, and asked once that seat was asked to stop.
#[derive(Clone, Copy, PartialEq, Eq, Debug)]
pub struct Note {
    pub ticket: Ticket,
    pub frame: u64,
    pub place: usize,
    pub gone: bool,
    pub asked: bool,
}
