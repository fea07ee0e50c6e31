//! Laws of the definitions. Each is the contract of a function that does nothing.

ghost use Rattle.ap_mel.specs.Laws.{OneMadeLaw};

/// The passes end, whatever the program, its entries and the kind of groups, and at one program alone.
pub fn one_made_law()
    ensures { OneMadeLaw }
{}
