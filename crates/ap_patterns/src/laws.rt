//! Laws of the definitions. Each is the contract of a function that does nothing.

ghost use Rattle.ap_patterns.specs.Laws.{CallPatternLaw, EnterLaw, AfterCallLaw, EntryLaw, CoveredLaw, BuiltinLaw};

/// The pattern of a call covers the instances of its arguments.
pub fn call_pattern_law()
    ensures { CallPatternLaw }
{}

/// The state in which a clause is entered covers its variables once its head was unified with the call.
pub fn enter_law()
    ensures { EnterLaw }
{}

/// After an answer that the success covers the state covers the caller's variables.
pub fn after_call_law()
    ensures { AfterCallLaw }
{}

/// The pattern of an entry covers each query that is as its marks say.
pub fn entry_law()
    ensures { EntryLaw }
{}

/// A pattern that covers another one covers what it does.
pub fn covered_law()
    ensures { CoveredLaw }
{}

/// The goals that are built in are those that have an answer by their own rules.
pub fn builtin_law()
    ensures { BuiltinLaw }
{}
