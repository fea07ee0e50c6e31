//! How far the search of a query goes.

/// How many calls a query's search may make, and how many answers are put at most.
#[derive(Clone, Copy, Debug, PartialEq, Eq)]
pub(crate) struct Bounds {
    pub(crate) budget: u64,
    pub(crate) limit: u64,
}
