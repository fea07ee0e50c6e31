//! The law of the definitions, as the contract of a function that does nothing.

ghost use Rattle.ap_freeness.specs.Laws.{FreeLaw};

/// What is covered stays covered.
pub fn free_law()
    ensures { FreeLaw }
{}
