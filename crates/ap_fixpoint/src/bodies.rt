//! What the goals of a body give to the patterns of a table, as far as these don't cover it.

ghost use Rattle.std.specs.Prelude.{◌≡◌, ◌++◌, map, IfOk, OnOk, IsTrue};
ghost use Rattle.std.specs.List.{list_all};
ghost use Rattle.ap_term.specs.TermView.{tree_of, trees_of};
ghost use Rattle.ap_term.specs.GoalView.{part_of};
ghost use Rattle.ap_term.specs.WellFormed.{callable, all_callable, numbered, numbered_all};
ghost use Rattle.ap_fixpoint.specs.Formed.{goals_formed};
ghost use Rattle.ap_fixpoint.specs.Uncovered.{uncovered};
ghost use Rattle.ap_patterns.specs.Given.{patterns, given_by_goal, given_at_fork, given_in_turn, given_by_part, given_by_body, after_goals, after_part, after_body};

use crate::open::is_called_anyhow;
use crate::slots::add_uncovered;
use ap_absunify::State;
use ap_patterns::{Given, Predicate, Slot, Table, after_goal, call_pattern, is_builtin};
use ap_term::{NoMemory, Part, Term};
use std::alloc::Global;

/// Puts in what a goal gives that is called in the state.
fn add_goal(
    alloc: Global,
    table: &Table,
    s: &State,
    goal: &Term,
    given: &mut Vec<Given>,
) -> Result<(), NoMemory>
    requires can_be_called { IsTrue (callable (tree_of goal.now)) }
    requires variables { IsTrue (numbered 255 (tree_of goal.now)) }
    ensures { OnOk result (given.new.items ≡ given.old.items ++ uncovered (patterns table.now) (given_by_goal s.now (tree_of goal.now))) }
{
    if is_builtin(goal) {
        return Ok(());
    }
    if is_called_anyhow(alloc, table, goal) {
        return Ok(());
    }
    let Some(predicate) = Predicate::of(goal) else {
        return Ok(());
    };
    let pattern = call_pattern(alloc, s, goal)?;
    let slot = Slot::Call(predicate);
    add_uncovered(table, Given { slot, pattern }, given)
}

/// Puts in what the goals of a group give that are called in the state.
fn add_at_fork(
    alloc: Global,
    table: &Table,
    s: &State,
    goals: &[Term],
    given: &mut Vec<Given>,
) -> Result<(), NoMemory>
    requires can_be_called { IsTrue (all_callable (trees_of goals.now)) }
    requires variables { IsTrue (numbered_all 255 (trees_of goals.now)) }
    ensures { OnOk result (given.new.items ≡ given.old.items ++ uncovered (patterns table.now) (given_at_fork s.now (trees_of goals.now))) }
{
    for goal in goals {
        add_goal(alloc, table, s, goal, given)?;
    }
    Ok(())
}

/// Puts in what goals give that are called one after another, and answers the state after them.
fn add_in_turn(
    alloc: Global,
    table: &Table,
    s: State,
    goals: &[Term],
    given: &mut Vec<Given>,
) -> Result<State, NoMemory>
    requires can_be_called { IsTrue (all_callable (trees_of goals.now)) }
    requires variables { IsTrue (numbered_all 255 (trees_of goals.now)) }
    ensures given { OnOk result (given.new.items ≡ given.old.items ++ uncovered (patterns table.now) (given_in_turn (patterns table.now) s (trees_of goals.now))) }
    ensures after { IfOk result (λ r. r ≡ after_goals (patterns table.now) s (trees_of goals.now)) }
{
    let mut state = s;
    for goal in goals {
        add_goal(alloc, table, &state, goal, given)?;
        state = after_goal(alloc, table, state, goal)?;
    }
    Ok(state)
}

/// Puts in what a part of a body gives, and answers the state after it.
fn add_part(
    alloc: Global,
    table: &Table,
    s: State,
    part: &Part,
    given: &mut Vec<Given>,
) -> Result<State, NoMemory>
    requires { IsTrue (goals_formed (part_of part.now)) }
    ensures given { OnOk result (given.new.items ≡ given.old.items ++ uncovered (patterns table.now) (given_by_part (patterns table.now) s (part_of part.now))) }
    ensures after { IfOk result (λ r. r ≡ after_part (patterns table.now) s (part_of part.now)) }
{
    match part {
        Part::Call(goal) => {
            add_goal(alloc, table, &s, goal, given)?;
            after_goal(alloc, table, s, goal)
        }
        Part::Group { calls, .. } => {
            add_at_fork(alloc, table, &s, calls.as_slice(), given)?;
            add_in_turn(alloc, table, s, calls.as_slice(), given)
        }
    }
}

/// Puts in what the parts of a body give, and answers the state after them.
pub fn add_body(
    alloc: Global,
    table: &Table,
    s: State,
    parts: &[Part],
    given: &mut Vec<Given>,
) -> Result<State, NoMemory>
    requires { IsTrue (list_all goals_formed (map part_of parts.now)) }
    ensures given { OnOk result (given.new.items ≡ given.old.items ++ uncovered (patterns table.now) (given_by_body (patterns table.now) s (map part_of parts.now))) }
    ensures after { IfOk result (λ r. r ≡ after_body (patterns table.now) s (map part_of parts.now)) }
{
    let mut state = s;
    for part in parts {
        state = add_part(alloc, table, state, part, given)?;
    }
    Ok(state)
}
