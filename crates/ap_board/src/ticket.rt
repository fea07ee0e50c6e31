//! Tickets.
ghost use Rattle.std.specs.Prelude.{◌<◌, ◌^◌};

/// The round in which a pad isn't free again: a word has no room for it.
pub const LAST_ROUND: u64 = 1 << 60;

/// Names an offer: a pad, and the round in which its owner offered there. It is plain data, and may name an offer that is over.
#[derive(Clone, Copy, PartialEq, Eq, Debug)]
pub struct Ticket {
    pub pad: usize,
    pub round: u64,
    pub ghost below: { round < 2 ^ 60 },
}
