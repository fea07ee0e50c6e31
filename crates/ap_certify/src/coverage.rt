//! Whether a table covers what the goals of a clause give to it.

ghost use Rattle.std.specs.Prelude.{◌≡◌, IfOk, IfErr, IsTrue};
ghost use Rattle.ap_term.specs.TermView.{tree_of, trees_of};
ghost use Rattle.ap_term.specs.WellFormed.{callable, all_callable, numbered, numbered_all};
ghost use Rattle.ap_patterns.specs.Given.{patterns};
ghost use Rattle.ap_certify.specs.Sights.{after_all};
ghost use Rattle.ap_certify.specs.Held.{IsGoalHeld, AreHeldAtFork, AreHeldInTurn};
ghost use Rattle.ap_certify.specs.Refused.{IsFault, NoCheck, GoalGives, EachGives, TurnGives};

use crate::faults::{CertErr, Place, hold, past};
use crate::sights::Sight;
use ap_patterns::{Given, Predicate, Slot, Table, is_builtin};
use ap_term::Term;
use std::alloc::Global;

/// Whether the goal, unless it is built in, is called as the table has it.
pub fn hold_goal(
    alloc: Global,
    at: Place,
    table: &Table,
    s: &Sight,
    goal: &Term,
) -> Result<(), CertErr>
    requires can_be_called { IsTrue (callable (tree_of goal.now)) }
    requires variables { IsTrue (numbered 255 (tree_of goal.now)) }
    ensures held { IfOk result (λ _. IsGoalHeld (patterns table.now) s.now (tree_of goal.now)) }
    ensures fault { IfErr result (IsFault at.clause (patterns table.now) (GoalGives s.now at.goal (tree_of goal.now)) NoCheck) }
{
    if is_builtin(goal) {
        return Ok(());
    }
    let Some(predicate) = Predicate::of(goal) else {
        return Ok(());
    };
    let pattern = s.pattern(alloc, goal)?;
    let slot = Slot::Call(predicate);
    hold(at, table, &Given { slot, pattern })?;
    Ok(())
}

/// The same of each goal of a group, called at the fork.
pub fn hold_fork(
    alloc: Global,
    at: Place,
    table: &Table,
    s: &Sight,
    goals: &[Term],
) -> Result<(), CertErr>
    requires can_be_called { IsTrue (all_callable (trees_of goals.now)) }
    requires variables { IsTrue (numbered_all 255 (trees_of goals.now)) }
    ensures held { IfOk result (λ _. AreHeldAtFork (patterns table.now) s.now (trees_of goals.now)) }
    ensures fault { IfErr result (IsFault at.clause (patterns table.now) (EachGives s.now at.goal (trees_of goals.now)) NoCheck) }
{
    let clause = at.clause;
    let mut number = at.goal;
    for goal in goals {
        hold_goal(
            alloc,
            Place {
                clause,
                goal: number,
            },
            table,
            s,
            goal,
        )?;
        number = past(number, 1)?;
    }
    Ok(())
}

/// The same of goals that are called one after another, and what is known after them.
pub fn hold_in_turn(
    alloc: Global,
    at: Place,
    table: &Table,
    s: Sight,
    goals: &[Term],
) -> Result<Sight, CertErr>
    requires can_be_called { IsTrue (all_callable (trees_of goals.now)) }
    requires variables { IsTrue (numbered_all 255 (trees_of goals.now)) }
    ensures held { IfOk result (λ _. AreHeldInTurn (patterns table.now) s (trees_of goals.now)) }
    ensures after { IfOk result (λ r. r ≡ after_all (patterns table.now) s (trees_of goals.now)) }
    ensures fault { IfErr result (IsFault at.clause (patterns table.now) (TurnGives (patterns table.now) s at.goal (trees_of goals.now)) NoCheck) }
{
    let clause = at.clause;
    let mut sight = s;
    let mut number = at.goal;
    for goal in goals {
        hold_goal(
            alloc,
            Place {
                clause,
                goal: number,
            },
            table,
            &sight,
            goal,
        )?;
        sight = sight.after(alloc, table, goal)?;
        number = past(number, 1)?;
    }
    Ok(sight)
}
