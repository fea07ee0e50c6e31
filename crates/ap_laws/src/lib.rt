//! Floor: model. The laws of sequential search that running goals beside one another rests on, over the definitions of `ap_term`.
//!
//! Stands on `ap_term` alone. Each function here has an empty body; its contract is a law.
#![tactic(auto)]

ghost use Rattle.ap_laws.specs.Laws.{MguLaw, UniqueUnifierLaw, WaysLaw, ChildrenLaw, ChildByUnifierLaw, CopiedAnswerLaw, FittingLaw, SameStateLaw, RenamingLaw};
ghost use Rattle.ap_laws.specs.SearchLaws.{QueryLaw, TraceLaw, GraftLaw, GraftStateLaw, SplitLaw, IndependenceLaw, DeadConjunctLaw, QuietLaw, GivesLaw, TraceRenamingLaw};
ghost use Rattle.ap_laws.specs.Rejoining.{EventLaw, MeaningLaw, RejoinLaw, EmittedLaw};
ghost use Rattle.ap_laws.specs.Example.{ExampleLaw};

/// Unification commutes with renamings, and binds and mentions only variables of its input.
pub fn mgu_law()
    ensures { MguLaw }
{}

/// Two most general unifiers of one pair of terms are equal up to a renaming.
pub fn unique_unifier_law()
    ensures { UniqueUnifierLaw }
{}

/// The ways on from a goal commute with renamings, and bind and mention only the goal's variables and new ones.
pub fn ways_law()
    ensures { WaysLaw }
{}

/// The children of a state commute with renamings, and have only variables below their first unused one.
pub fn children_law()
    ensures { ChildrenLaw }
{}

/// A child by another most general unifier is equal up to a renaming.
pub fn child_by_unifier_law()
    ensures { ChildByUnifierLaw }
{}

/// An answer that was copied under other names serves as well in its goal's place.
pub fn copied_answer_law()
    ensures { CopiedAnswerLaw }
{}

/// Equality up to names is an equivalence of states.
pub fn same_state_law()
    ensures { SameStateLaw }
{}

/// Fitting a tuple into a goal's arguments commutes with renamings.
pub fn fitting_law()
    ensures { FittingLaw }
{}

/// A search does not depend on the names of variables.
pub fn renaming_law()
    ensures { RenamingLaw }
{}

/// A query begins in a state that meets the conditions of the other laws.
pub fn query_law()
    ensures { QueryLaw }
{}

/// The answers to a depth and what a budget finds are two views of one trace.
pub fn trace_law()
    ensures { TraceLaw }
{}

/// A trace does not depend on the names of variables.
pub fn trace_renaming_law()
    ensures { TraceRenamingLaw }
{}

/// A goal's search in the goal's place is the goal's own search, put there.
pub fn graft_law()
    ensures { GraftLaw }
{}

/// A goal's search can be put in the goal's place in states with groups, too.
pub fn graft_state_law()
    ensures { GraftStateLaw }
{}

/// Searching a conjunction is searching its first goal and going on from each answer.
pub fn split_law()
    ensures { SplitLaw }
{}

/// Beside strictly independent goals a goal has the answers and costs that it has alone.
pub fn independence_law()
    ensures { IndependenceLaw }
{}

/// Behind goals that are apart and meet no fault, a goal with neither answers nor a fault leaves the conjunction none.
pub fn dead_conjunct_law()
    ensures { DeadConjunctLaw }
{}

/// A goal that isn't loud meets no fault.
pub fn quiet_law()
    ensures { QuietLaw }
{}

/// What searches give can be put together.
pub fn gives_law()
    ensures { GivesLaw }
{}

/// The events of a parallel search, on states with groups.
pub fn event_law()
    ensures { EventLaw }
{}

/// What it means that what is left of a search rejoins it.
pub fn meaning_law()
    ensures { MeaningLaw }
{}

/// A parallel search rejoins the sequential one at each moment.
pub fn rejoin_law()
    ensures { RejoinLaw }
{}

/// What a parallel search emits begins the answers of sequential search, is all where nothing is left, and all before a
/// fault that it has met.
pub fn emitted_law()
    ensures { EmittedLaw }
{}

/// The definitions compute, and a parallel search of two goals exists.
pub fn example_law()
    ensures { ExampleLaw }
{}
