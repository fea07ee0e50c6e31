//! Laws of lifting. Each is the contract of a function that does nothing.

ghost use Rattle.ap_lifting.specs.LiftingLaws.{LiftedCallLaw, MeaningLaw};

/// Calling a lifted predicate leads to the bodies that were lifted, at the cost of one call.
pub fn lifted_call_law()
    ensures { LiftedCallLaw }
{}

/// Lifting keeps the meaning of a program and a query, call by call and answer by answer.
pub fn meaning_law()
    ensures { MeaningLaw }
{}
