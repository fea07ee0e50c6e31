//! Floor: model. What a call makes of a state, told of its instances alone. A machine that keeps its terms in cells stands for a state
//! where both have the same instances; so it never has to name variables as the state does.
//!
//! Stands on `ap_term`, `ap_laws`, `ap_tracked` and `ap_graft`. Each function here has an empty body; its contract is a law.
#![tactic(auto)]

ghost use Rattle.ap_resolution.specs.Laws.{ResolutionLaw, InstanceLaw, TupleLaw, BuiltinLaw};

/// A clause's child has just the instances that come by an instance of the clause.
pub fn resolution_law()
    ensures { ResolutionLaw }
{}

/// A state is the most general one of its instances.
pub fn instance_law()
    ensures { InstanceLaw }
{}

/// States with the same instances have the same tuple, up to names.
pub fn tuple_law()
    ensures { TupleLaw }
{}

/// What a built-in goal makes of a state, by its instances.
pub fn builtin_law()
    ensures { BuiltinLaw }
{}
