//! What a player remembers of a pad.

/// Nothing, the round of an offer of its own, the same where it was seen taken, or the round of a parcel that it took.
#[derive(Clone, Copy)]
pub enum Spot {
    Nothing,
    Sent(u64),
    Gone(u64),
    Has(u64),
}
