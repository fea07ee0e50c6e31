//! Floor: model. The graft of states that keep their groups: what a goal's own search comes to, put in the goal's place.
//!
//! Stands on `ap_tracked` for these states, and on `ap_laws` for grafts of plain ones. Each function here has an empty
//! body; its contract is a law. The crates above use one contract: a group's state with an answer of each of its goals put
//! in is what the search that came to the group comes to.
#![tactic(auto)]

ghost use Rattle.ap_graft.specs.Laws.{VariablesLaw, TrackedGraftLaw, JoinLaw, JoinedSetLaw, StartLaw};

/// Bounds the variables of the states that a search comes to.
pub fn variables_law()
    ensures { VariablesLaw }
{}

/// Puts what a goal's own search comes to in the goal's place: the search of the whole comes to it.
pub fn tracked_graft_law()
    ensures { TrackedGraftLaw }
{}

/// Puts in the answers of a group's goals: the search that came to the group comes to that.
pub fn join_law()
    ensures { JoinLaw }
{}

/// Tells a joined state's instances: those in which each goal's arguments are an instance of its answer.
pub fn joined_set_law()
    ensures { JoinedSetLaw }
{}

/// Begins a query in a state that is the query's, kept, and safe where the call of the query is.
pub fn start_law()
    ensures { StartLaw }
{}
