//! The states of a clause, from its beginning on.

ghost use Rattle.std.specs.Prelude.{◌≡◌, IfOk, IsTrue};
ghost use Rattle.ap_absunify.specs.declared.states.State.TheVariants.{Unreachable};
ghost use Rattle.ap_term.specs.GoalView.{part_of};
ghost use Rattle.ap_term.specs.TermView.{tree_of, trees_of};
ghost use Rattle.ap_term.specs.WellFormed.{all_callable, numbered_all};
ghost use Rattle.ap_patterns.specs.Table.{predicate_of};
ghost use Rattle.ap_patterns.specs.Given.{patterns, call_at, after_goals, after_part};
ghost use Rattle.ap_fixpoint.specs.Formed.{goals_formed};
ghost use Rattle.ap_udg.specs.Completed.{unknown, start, behind};

use ap_absunify::State;
use ap_patterns::{Pattern, Table, after_goal, any_pattern, call_at, enter, is_analysed};
use ap_term::{Clause, NoMemory, Part, Term};
use std::alloc::Global;

fn unknown(alloc: Global, called: &Pattern) -> State
    ensures { result ≡ unknown called.now }
{
    match called {
        State::Unreachable => State::Unreachable,
        State::Reachable { .. } => any_pattern(alloc, 255),
    }
}

/// The pattern of the calls of a head's predicate.
fn called<'a>(table: &'a Table, head: &Term, unreachable: &'a Pattern) -> &'a Pattern
    requires { unreachable.now ≡ Unreachable }
    ensures { result.now ≡ call_at (patterns table.now) (predicate_of (tree_of head.now)) }
{
    match call_at(table, head) {
        Some(pattern) => pattern,
        None => unreachable,
    }
}

/// The state in which a clause begins.
#[tactic(auto, using(ap_fixpoint::proofs::Formed::rules_of_clauses))]
pub fn start(alloc: Global, table: &Table, clause: &Clause) -> Result<State, NoMemory>
    ensures { IfOk result (λ r. r ≡ start (patterns table.now) clause.now) }
{
    let head = clause.head();
    let unreachable = State::Unreachable;
    let called = called(table, head, &unreachable);
    if is_analysed(clause) {
        enter(alloc, clause.vars(), head, called)
    } else {
        Ok(unknown(alloc, called))
    }
}

/// The state after goals that are called one after another.
fn after_goals(alloc: Global, table: &Table, s: State, goals: &[Term]) -> Result<State, NoMemory>
    requires can_be_called { IsTrue (all_callable (trees_of goals.now)) }
    requires variables { IsTrue (numbered_all 255 (trees_of goals.now)) }
    ensures { IfOk result (λ r. r ≡ after_goals (patterns table.now) s (trees_of goals.now)) }
{
    let mut state = s;
    for goal in goals {
        state = after_goal(alloc, table, state, goal)?;
    }
    Ok(state)
}

/// The state after a part of a body.
pub fn after_part(alloc: Global, table: &Table, s: State, part: &Part) -> Result<State, NoMemory>
    requires { IsTrue (goals_formed (part_of part.now)) }
    ensures { IfOk result (λ r. r ≡ after_part (patterns table.now) s (part_of part.now)) }
{
    match part {
        Part::Call(goal) => after_goal(alloc, table, s, goal),
        Part::Group { calls, .. } => after_goals(alloc, table, s, calls.as_slice()),
    }
}

/// The state behind a part; of a clause that isn't analysed nothing more comes to be known.
pub fn behind(
    alloc: Global,
    analysed: bool,
    table: &Table,
    s: State,
    part: &Part,
) -> Result<State, NoMemory>
    requires { IsTrue (goals_formed (part_of part.now)) }
    ensures { IfOk result (λ r. r ≡ behind analysed (patterns table.now) s (part_of part.now)) }
{
    if analysed {
        after_part(alloc, table, s, part)
    } else {
        Ok(s)
    }
}
