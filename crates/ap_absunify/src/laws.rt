//! Laws of the definitions. Each is the contract of a function that does nothing.

ghost use Rattle.ap_absunify.specs.Laws.{AfterUnifyLaw, AfterEqualLaw, AfterBuiltinLaw, KnownGroundLaw, UniteLaw, ProjectLaw, RenamedLaw};

/// After a variable and a term were unified the state covers the instances.
pub fn after_unify_law()
    ensures { AfterUnifyLaw }
{}

/// After two terms were unified the state covers the instances.
pub fn after_equal_law()
    ensures { AfterEqualLaw }
{}

/// After a built-in goal succeeded the state covers the instances.
pub fn after_builtin_law()
    ensures { AfterBuiltinLaw }
{}

/// Where a term is known to be ground, the state that says so covers the same instances.
pub fn known_ground_law()
    ensures { KnownGroundLaw }
{}

/// A united state covers what one of both covers.
pub fn unite_law()
    ensures { UniteLaw }
{}

/// A projected state covers the instances of the variables that are kept.
pub fn project_law()
    ensures { ProjectLaw }
{}

/// What is covered doesn't turn on the names of variables.
pub fn renamed_law()
    ensures { RenamedLaw }
{}
