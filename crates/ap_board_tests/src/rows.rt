//! Sequences of calls by two and three seats with one pad each, and what each call answers.
// The answers follow from what a pad's history may be: in each round an offer, then a reclaim or one take by another seat; after a
// take any number of stops, one finish, one collect. A call that finds another word than it looks for changes nothing.

/// Who makes a call.
#[derive(Clone, Copy, Debug)]
pub(crate) enum Seat {
    A,
    B,
    C,
}

/// A call, and its answer. A number after the seat names an offer of the row, by its place among those that were Ok.
#[derive(Clone, Copy, Debug)]
pub(crate) enum Move {
    /// Offers a parcel: the round of the ticket, or None where it comes back.
    Offer(Seat, u32, Option<u64>),
    Take(Seat, usize, Option<u32>),
    Reclaim(Seat, usize, Option<u32>),
    Stop(Seat, usize, bool),
    Asked(Seat, usize, bool),
    Finish(Seat, usize, u32),
    Done(Seat, usize, bool),
    Collect(Seat, usize, Option<u32>),
}

pub(crate) struct Row {
    pub(crate) name: &'static str,
    pub(crate) moves: &'static [Move],
}

use Move::{Asked, Collect, Done, Finish, Offer, Reclaim, Stop, Take};
use Seat::{A, B, C};

pub(crate) static ROWS: [Row; 40] = [
    Row {
        name: "the calls of a stopped round, and the round after it",
        moves: &[
            Offer(A, 1, Some(0)),
            Offer(A, 2, None),
            Take(B, 0, Some(1)),
            Take(B, 0, None),
            Reclaim(A, 0, None),
            Stop(A, 0, true),
            Asked(B, 0, true),
            Finish(B, 0, 11),
            Stop(A, 0, false),
            Done(A, 0, true),
            Collect(A, 0, Some(11)),
            Collect(A, 0, None),
            Offer(A, 2, Some(1)),
            Take(B, 0, None),
            Reclaim(A, 1, Some(2)),
        ],
    },
    Row {
        name: "an offer taken back",
        moves: &[Offer(A, 1, Some(0)), Reclaim(A, 0, Some(1))],
    },
    Row {
        name: "an offer taken back isn't there to take",
        moves: &[
            Offer(A, 1, Some(0)),
            Reclaim(A, 0, Some(1)),
            Take(B, 0, None),
        ],
    },
    Row {
        name: "each end of an offer frees the pad for the next round",
        moves: &[
            Offer(A, 1, Some(0)),
            Reclaim(A, 0, Some(1)),
            Offer(A, 2, Some(1)),
            Reclaim(A, 1, Some(2)),
            Offer(A, 3, Some(2)),
        ],
    },
    Row {
        name: "a pad that is offered isn't free",
        moves: &[
            Offer(A, 1, Some(0)),
            Offer(A, 2, None),
            Offer(A, 3, None),
            Reclaim(A, 0, Some(1)),
            Offer(A, 4, Some(1)),
        ],
    },
    Row {
        name: "a pad that is taken isn't free",
        moves: &[Offer(A, 1, Some(0)), Take(B, 0, Some(1)), Offer(A, 2, None)],
    },
    Row {
        name: "a pad that is finished isn't free before its outcome is collected",
        moves: &[
            Offer(A, 1, Some(0)),
            Take(B, 0, Some(1)),
            Finish(B, 0, 5),
            Offer(A, 2, None),
            Collect(A, 0, Some(5)),
            Offer(A, 2, Some(1)),
        ],
    },
    Row {
        name: "of two seats the first gets the parcel",
        moves: &[Offer(A, 7, Some(0)), Take(B, 0, Some(7)), Take(C, 0, None)],
    },
    Row {
        name: "of two seats the first gets the parcel, the other way round",
        moves: &[Offer(A, 7, Some(0)), Take(C, 0, Some(7)), Take(B, 0, None)],
    },
    Row {
        name: "a seat that came late gets the next round's",
        moves: &[
            Offer(A, 7, Some(0)),
            Take(B, 0, Some(7)),
            Take(C, 0, None),
            Finish(B, 0, 70),
            Collect(A, 0, Some(70)),
            Offer(A, 8, Some(1)),
            Take(C, 1, Some(8)),
        ],
    },
    Row {
        name: "a finished goal can't be taken",
        moves: &[
            Offer(A, 1, Some(0)),
            Take(B, 0, Some(1)),
            Finish(B, 0, 2),
            Take(C, 0, None),
            Take(B, 0, None),
        ],
    },
    Row {
        name: "an old ticket takes nothing of the next round",
        moves: &[
            Offer(A, 1, Some(0)),
            Take(B, 0, Some(1)),
            Finish(B, 0, 2),
            Collect(A, 0, Some(2)),
            Offer(A, 3, Some(1)),
            Take(C, 0, None),
            Take(C, 1, Some(3)),
        ],
    },
    Row {
        name: "an old ticket takes nothing where the next round was taken back",
        moves: &[
            Offer(A, 1, Some(0)),
            Reclaim(A, 0, Some(1)),
            Offer(A, 2, Some(1)),
            Take(B, 0, None),
            Reclaim(A, 1, Some(2)),
            Take(B, 1, None),
        ],
    },
    Row {
        name: "nothing to collect before it is taken",
        moves: &[
            Offer(A, 1, Some(0)),
            Collect(A, 0, None),
            Take(B, 0, Some(1)),
        ],
    },
    Row {
        name: "nothing to collect while it runs",
        moves: &[
            Offer(A, 1, Some(0)),
            Take(B, 0, Some(1)),
            Collect(A, 0, None),
            Finish(B, 0, 9),
            Collect(A, 0, Some(9)),
        ],
    },
    Row {
        name: "nothing to collect while it is asked to stop",
        moves: &[
            Offer(A, 1, Some(0)),
            Take(B, 0, Some(1)),
            Reclaim(A, 0, None),
            Stop(A, 0, true),
            Collect(A, 0, None),
            Finish(B, 0, 9),
            Collect(A, 0, Some(9)),
        ],
    },
    Row {
        name: "an outcome is collected once",
        moves: &[
            Offer(A, 1, Some(0)),
            Take(B, 0, Some(1)),
            Finish(B, 0, 9),
            Collect(A, 0, Some(9)),
            Collect(A, 0, None),
        ],
    },
    Row {
        name: "an old ticket collects nothing of the next round",
        moves: &[
            Offer(A, 1, Some(0)),
            Take(B, 0, Some(1)),
            Finish(B, 0, 9),
            Collect(A, 0, Some(9)),
            Offer(A, 2, Some(1)),
            Take(C, 1, Some(2)),
            Finish(C, 1, 8),
            Collect(A, 0, None),
            Collect(A, 1, Some(8)),
        ],
    },
    Row {
        name: "a stopped goal's outcome isn't the next offer's",
        moves: &[
            Offer(A, 1, Some(0)),
            Take(B, 0, Some(1)),
            Reclaim(A, 0, None),
            Stop(A, 0, true),
            Finish(B, 0, 4),
            Collect(A, 0, Some(4)),
            Offer(A, 2, Some(1)),
            Collect(A, 1, None),
            Done(A, 1, false),
        ],
    },
    Row {
        name: "done is false until it is finished",
        moves: &[
            Offer(A, 1, Some(0)),
            Done(A, 0, false),
            Take(B, 0, Some(1)),
            Done(A, 0, false),
            Finish(B, 0, 3),
            Done(A, 0, true),
            Done(A, 0, true),
        ],
    },
    Row {
        name: "done is false while it is asked to stop",
        moves: &[
            Offer(A, 1, Some(0)),
            Take(B, 0, Some(1)),
            Reclaim(A, 0, None),
            Stop(A, 0, true),
            Done(A, 0, false),
            Finish(B, 0, 3),
            Done(A, 0, true),
        ],
    },
    Row {
        name: "done is false of a round that ended",
        moves: &[
            Offer(A, 1, Some(0)),
            Take(B, 0, Some(1)),
            Finish(B, 0, 3),
            Collect(A, 0, Some(3)),
            Done(A, 0, false),
        ],
    },
    Row {
        name: "done is false of an offer taken back",
        moves: &[
            Offer(A, 1, Some(0)),
            Reclaim(A, 0, Some(1)),
            Done(A, 0, false),
        ],
    },
    Row {
        name: "nobody is asked to stop unasked",
        moves: &[
            Offer(A, 1, Some(0)),
            Asked(B, 0, false),
            Take(B, 0, Some(1)),
            Asked(B, 0, false),
        ],
    },
    Row {
        name: "a stop is seen from then on, until the finish",
        moves: &[
            Offer(A, 1, Some(0)),
            Take(B, 0, Some(1)),
            Reclaim(A, 0, None),
            Asked(B, 0, false),
            Stop(A, 0, true),
            Asked(B, 0, true),
            Asked(B, 0, true),
            Finish(B, 0, 1),
            Asked(B, 0, false),
        ],
    },
    Row {
        name: "a stop of one round isn't one of the next",
        moves: &[
            Offer(A, 1, Some(0)),
            Take(B, 0, Some(1)),
            Reclaim(A, 0, None),
            Stop(A, 0, true),
            Finish(B, 0, 1),
            Collect(A, 0, Some(1)),
            Offer(A, 2, Some(1)),
            Take(B, 1, Some(2)),
            Asked(B, 1, false),
            Asked(B, 0, false),
        ],
    },
    Row {
        name: "stops may come again and again",
        moves: &[
            Offer(A, 1, Some(0)),
            Take(B, 0, Some(1)),
            Reclaim(A, 0, None),
            Stop(A, 0, true),
            Stop(A, 0, true),
            Stop(A, 0, true),
            Asked(B, 0, true),
            Finish(B, 0, 2),
            Stop(A, 0, false),
            Stop(A, 0, false),
        ],
    },
    Row {
        name: "a stop after the finish comes too late",
        moves: &[
            Offer(A, 1, Some(0)),
            Take(B, 0, Some(1)),
            Reclaim(A, 0, None),
            Finish(B, 0, 2),
            Stop(A, 0, false),
            Collect(A, 0, Some(2)),
        ],
    },
    Row {
        name: "what is taken can't be taken back, in any state",
        moves: &[
            Offer(A, 1, Some(0)),
            Take(B, 0, Some(1)),
            Reclaim(A, 0, None),
            Reclaim(A, 0, None),
            Stop(A, 0, true),
            Reclaim(A, 0, None),
            Finish(B, 0, 2),
            Reclaim(A, 0, None),
            Collect(A, 0, Some(2)),
        ],
    },
    Row {
        name: "a goal that nobody asked to stop finishes as one that was",
        moves: &[
            Offer(A, 1, Some(0)),
            Take(B, 0, Some(1)),
            Finish(B, 0, 2),
            Done(A, 0, true),
            Collect(A, 0, Some(2)),
        ],
    },
    Row {
        name: "pads of two seats go their own ways",
        moves: &[
            Offer(A, 1, Some(0)),
            Offer(B, 2, Some(0)),
            Take(B, 0, Some(1)),
            Take(A, 1, Some(2)),
            Finish(A, 1, 20),
            Collect(B, 1, Some(20)),
            Finish(B, 0, 10),
            Collect(A, 0, Some(10)),
        ],
    },
    Row {
        name: "each of three seats takes from the next",
        moves: &[
            Offer(A, 1, Some(0)),
            Offer(B, 2, Some(0)),
            Offer(C, 3, Some(0)),
            Take(A, 1, Some(2)),
            Take(B, 2, Some(3)),
            Take(C, 0, Some(1)),
            Finish(C, 0, 10),
            Finish(B, 2, 30),
            Finish(A, 1, 20),
            Collect(A, 0, Some(10)),
            Collect(B, 1, Some(20)),
            Collect(C, 2, Some(30)),
        ],
    },
    Row {
        name: "one seat holds two parcels, and finishes the older first",
        moves: &[
            Offer(A, 1, Some(0)),
            Offer(B, 2, Some(0)),
            Take(C, 0, Some(1)),
            Take(C, 1, Some(2)),
            Finish(C, 0, 10),
            Finish(C, 1, 20),
            Collect(A, 0, Some(10)),
            Collect(B, 1, Some(20)),
        ],
    },
    Row {
        name: "one seat holds two parcels, and finishes the newer first",
        moves: &[
            Offer(A, 1, Some(0)),
            Offer(B, 2, Some(0)),
            Take(C, 0, Some(1)),
            Take(C, 1, Some(2)),
            Finish(C, 1, 20),
            Finish(C, 0, 10),
            Collect(B, 1, Some(20)),
            Collect(A, 0, Some(10)),
        ],
    },
    Row {
        name: "of two parcels that a seat holds the owner of one asks it to stop",
        moves: &[
            Offer(A, 1, Some(0)),
            Offer(B, 2, Some(0)),
            Take(C, 0, Some(1)),
            Take(C, 1, Some(2)),
            Reclaim(B, 1, None),
            Stop(B, 1, true),
            Asked(C, 0, false),
            Asked(C, 1, true),
            Finish(C, 1, 0),
            Finish(C, 0, 10),
            Collect(A, 0, Some(10)),
            Collect(B, 1, Some(0)),
        ],
    },
    Row {
        name: "a seat that holds a parcel offers",
        moves: &[
            Offer(A, 1, Some(0)),
            Take(B, 0, Some(1)),
            Offer(B, 2, Some(0)),
            Take(C, 1, Some(2)),
            Finish(C, 1, 20),
            Collect(B, 1, Some(20)),
            Finish(B, 0, 10),
            Collect(A, 0, Some(10)),
        ],
    },
    Row {
        name: "a seat that holds a parcel takes back its own",
        moves: &[
            Offer(A, 1, Some(0)),
            Take(B, 0, Some(1)),
            Offer(B, 2, Some(0)),
            Reclaim(B, 1, Some(2)),
            Offer(B, 3, Some(1)),
            Finish(B, 0, 10),
            Take(A, 2, Some(3)),
        ],
    },
    Row {
        name: "the owner of a taken goal helps its taker",
        moves: &[
            Offer(A, 1, Some(0)),
            Take(B, 0, Some(1)),
            Offer(B, 2, Some(0)),
            Take(A, 1, Some(2)),
            Finish(A, 1, 20),
            Collect(B, 1, Some(20)),
            Finish(B, 0, 10),
            Collect(A, 0, Some(10)),
        ],
    },
    Row {
        name: "an outcome may wait while its owner ends other things",
        moves: &[
            Offer(A, 1, Some(0)),
            Offer(B, 2, Some(0)),
            Take(C, 0, Some(1)),
            Finish(C, 0, 10),
            Take(A, 1, Some(2)),
            Finish(A, 1, 20),
            Collect(B, 1, Some(20)),
            Offer(B, 3, Some(1)),
            Collect(A, 0, Some(10)),
            Offer(A, 4, Some(1)),
        ],
    },
    Row {
        name: "a new taker for each of three rounds",
        moves: &[
            Offer(C, 1, Some(0)),
            Take(A, 0, Some(1)),
            Finish(A, 0, 10),
            Collect(C, 0, Some(10)),
            Offer(C, 2, Some(1)),
            Take(B, 1, Some(2)),
            Finish(B, 1, 20),
            Collect(C, 1, Some(20)),
            Offer(C, 3, Some(2)),
            Take(A, 0, None),
            Take(A, 1, None),
            Take(A, 2, Some(3)),
        ],
    },
];
