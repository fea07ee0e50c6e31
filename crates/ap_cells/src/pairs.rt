//! Places whose terms are looked at two by two.

/// Places from `left` on, each beside one from `right` on.
#[derive(Clone, Copy)]
pub struct Pairs {
    pub left: u32,
    pub right: u32,
    pub count: u32,
}
