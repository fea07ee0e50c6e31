//! What an index keeps: rows of choices, and links between choices.

ghost use Rattle.std.specs.Prelude.{◌≡◌, ◌<◌, vec_len};

/// Stands for no choice. Code with an index ends before this place.
pub(crate) const NONE: u32 = 0xffff_ffff;

/// What is left of some clauses for two keys.
#[derive(Clone, Copy)]
pub enum Pair {
    /// None.
    Never,
    /// The clause at a place, and no other.
    Only(u32),
    /// That isn't told.
    Open,
}

/// What is left of a predicate's clauses, by slots: each two keys, of the first argument and of another one, have one of so many.
#[derive(Drop)]
pub struct Pairs {
    pub(crate) slots: Vec<Pair>,
    pub(crate) argument: u32,
    pub(crate) count: u32,
    ghost full: { vec_len slots ≡ count },
}

/// Choices in a row, by slots: each key has one of so many, where the place of the first choice for a key of that slot stands,
/// or that of the choice behind the row, if there is one; and the place of the clause, where one alone is left. What is left for keys of two
/// arguments is told beside.
#[derive(Drop)]
pub struct Row {
    pub(crate) slots: Vec<u32>,
    pub(crate) onlys: Vec<u32>,
    pub(crate) count: u32,
    pub(crate) pairs: Pairs,
    ghost full: { vec_len slots ≡ count },
    ghost whole: { vec_len onlys ≡ count },
    ghost some: { 0 < count },
}

/// Behind a choice: the next one whose key has the same slot, of so many, or the one behind the row.
#[derive(Clone, Copy)]
pub struct Link {
    pub(crate) slot: u32,
    pub(crate) count: u32,
    pub(crate) next: Option<u32>,
}
