//! Floor: engine. Which states of the model a sequential machine stands for, and what its moves make of them.
//!
//! Stands on `ap_steps`, `ap_resolution`, `ap_tracked` and `ap_instr`. Each function here has an empty body; its contract is a law. What is
//! used above: `Holds`, by which a machine stands for the model's own list of states.
#![tactic(auto)]

ghost use Rattle.ap_standing.specs.Laws.{MoveLaw, ClauseLaw, AnswerLaw, GoalLaw};

/// Moves that are no calls keep what a machine stands for.
pub fn move_law()
    ensures { MoveLaw }
{}

/// A call is a turn of the model, and the clauses that are taken one after another are its children.
pub fn clause_law()
    ensures { ClauseLaw }
{}

/// A machine that has nothing left to do stands at an answer.
pub fn answer_law()
    ensures { AnswerLaw }
{}

/// A built-in goal is a turn of the model.
pub fn goal_law()
    ensures { GoalLaw }
{}
