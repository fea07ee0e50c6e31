//! Laws of the definitions. Each is the contract of a function that does nothing.

ghost use Rattle.ap_conditions.specs.Laws.{ChecksLaw, FullListLaw};

/// A check that a state gives holds, and one that never holds doesn't.
pub fn checks_law()
    ensures { ChecksLaw }
{}

/// The list has exactly the checks of the full condition.
pub fn full_list_law()
    ensures { FullListLaw }
{}
