//! Floor: engine. What a goal of arithmetic that is solved straight from registers makes of what a machine stands for.
//!
//! Stands on `ap_direct` and `ap_standing`. The one function has an empty body; its contract is the law.
#![tactic(auto)]

ghost use Rattle.ap_direct_turns.specs.Laws.{DirectLaw};

/// A goal of arithmetic that is solved straight from registers is a turn of the model.
pub fn direct_law()
    ensures { DirectLaw }
{}
