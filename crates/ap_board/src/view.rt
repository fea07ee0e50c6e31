//! What a seat knows. Of the types but `Content` no value is made.
use std::collections::LinkedList;

/// What a pad's slot may hold.
#[derive(Drop)]
pub enum Content<P, O> {
    Parcel(P),
    Outcome(O),
}

/// What a call did at its step. A look, and an exchange that failed, note the word found.
pub enum Kind<P, O> {
    Open,
    Offer(P),
    Take(P),
    Reclaim,
    Stop,
    Finish(O),
    Look(u64),
    Collect(O),
}

pub struct Call<P, O> {
    pub pad: u64,
    pub round: u64,
    pub kind: Kind<P, O>,
}

/// A seat's number and its calls, in their order.
pub struct Log<P, O> {
    pub seat: u64,
    pub calls: LinkedList<Call<P, O>>,
}

/// The number of the seat and of the pads of each seat, how many seats the first one has made, the seat's own calls, in their
/// order, and those of the seats that it took in. A view has ended where another seat took it in.
pub struct View<P, O> {
    pub number: u64,
    pub pads: u64,
    pub made: u64,
    pub calls: LinkedList<Call<P, O>>,
    pub others: LinkedList<Log<P, O>>,
    pub ended: bool,
}

/// What a taker's view has to show for an outcome.
pub enum Cause {
    Free,
    Asked,
    Elsewhere,
}
