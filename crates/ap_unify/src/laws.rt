//! Laws of unification. Each is the contract of a function that does nothing.

ghost use Rattle.ap_unify.specs.Laws.{SolutionLaw};

/// What unification binds is the solution of the equation of the two terms, up to names.
pub fn solution_law()
    ensures { SolutionLaw }
{}
