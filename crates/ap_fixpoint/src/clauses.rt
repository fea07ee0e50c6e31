//! What a clause gives to the patterns of a table, as far as these don't cover it.

ghost use Rattle.std.specs.Prelude.{◌≡◌, ◌++◌, true, map, OnOk, IsTrue};
ghost use Rattle.std.specs.List.{flat_map, list_all};
ghost use Rattle.ap_term.specs.Tree.{count_trees};
ghost use Rattle.ap_term.specs.TermView.{tree_of, trees_of};
ghost use Rattle.ap_term.specs.GoalView.{part_of};
ghost use Rattle.ap_term.specs.WellFormed.{callable, all_callable};
ghost use Rattle.ap_patterns.specs.Places.{arguments};
ghost use Rattle.ap_fixpoint.specs.Formed.{goals_formed};
ghost use Rattle.ap_fixpoint.specs.Uncovered.{uncovered};
ghost use Rattle.ap_patterns.specs.Given.{patterns, any_pattern, anything, given_anyhow, given_by_all, given_by_any_part, given_unanalysed, given_from, given_by_clause, is_analysed, to_success, call_at};
ghost use Rattle.ap_patterns.specs.Entering.{enter};
ghost use Rattle.ap_absunify.specs.declared.states.State.TheVariants.{Unreachable};
ghost use Rattle.ap_patterns.specs.Table.{predicate_of};

use crate::bodies::add_body;
use crate::open::is_idle;
use crate::slots::add_uncovered;
use ap_absunify::State;
use ap_patterns::{
    Given, Pattern, Predicate, Slot, Table, anything, call_at, call_pattern, enter, is_analysed,
    is_builtin,
};
use ap_term::{Clause, NoMemory, Part, Term};
use std::alloc::Global;

/// Puts in that a goal is called with anything.
fn add_anyhow(
    alloc: Global,
    table: &Table,
    called: &Pattern,
    goal: &Term,
    given: &mut Vec<Given>,
) -> Result<(), NoMemory>
    requires { IsTrue (callable (tree_of goal.now)) }
    ensures { OnOk result (given.new.items ≡ given.old.items ++ uncovered (patterns table.now) (given_anyhow called.now (tree_of goal.now))) }
{
    if is_builtin(goal) {
        return Ok(());
    }
    let Some(predicate) = Predicate::of(goal) else {
        return Ok(());
    };
    let pattern = anything(alloc, called, goal);
    let slot = Slot::Call(predicate);
    add_uncovered(table, Given { slot, pattern }, given)
}

/// Puts in that each of the goals is called with anything.
fn add_all_anyhow(
    alloc: Global,
    table: &Table,
    called: &Pattern,
    goals: &[Term],
    given: &mut Vec<Given>,
) -> Result<(), NoMemory>
    requires { IsTrue (all_callable (trees_of goals.now)) }
    ensures { OnOk result (given.new.items ≡ given.old.items ++ uncovered (patterns table.now) (given_by_all called.now (trees_of goals.now))) }
{
    for goal in goals {
        add_anyhow(alloc, table, called, goal, given)?;
    }
    Ok(())
}

fn add_any_part(
    alloc: Global,
    table: &Table,
    called: &Pattern,
    part: &Part,
    given: &mut Vec<Given>,
) -> Result<(), NoMemory>
    requires { IsTrue (goals_formed (part_of part.now)) }
    ensures { OnOk result (given.new.items ≡ given.old.items ++ uncovered (patterns table.now) (given_by_any_part called.now (part_of part.now))) }
{
    match part {
        Part::Call(goal) => add_anyhow(alloc, table, called, goal, given),
        Part::Group { calls, .. } => add_all_anyhow(alloc, table, called, calls.as_slice(), given),
    }
}

fn add_any_parts(
    alloc: Global,
    table: &Table,
    called: &Pattern,
    parts: &[Part],
    given: &mut Vec<Given>,
) -> Result<(), NoMemory>
    requires { IsTrue (list_all goals_formed (map part_of parts.now)) }
    ensures { OnOk result (given.new.items ≡ given.old.items ++ uncovered (patterns table.now) (flat_map (given_by_any_part called.now) (map part_of parts.now))) }
{
    for part in parts {
        add_any_part(alloc, table, called, part, given)?;
    }
    Ok(())
}

/// Puts in a success of the head's predicate.
fn add_success(
    table: &Table,
    head: &Term,
    pattern: Pattern,
    given: &mut Vec<Given>,
) -> Result<(), NoMemory>
    ensures { OnOk result (given.new.items ≡ given.old.items ++ uncovered (patterns table.now) (to_success (predicate_of (tree_of head.now)) pattern)) }
{
    let Some(predicate) = Predicate::of(head) else {
        return Ok(());
    };
    let slot = Slot::Success(predicate);
    add_uncovered(table, Given { slot, pattern }, given)
}

/// Puts in what a clause gives that is called so and is too large for a state.
#[tactic(auto, using(crate::proofs::Formed::rules_of_clauses))]
fn add_unanalysed(
    alloc: Global,
    table: &Table,
    called: &Pattern,
    clause: &Clause,
    given: &mut Vec<Given>,
) -> Result<(), NoMemory>
    ensures { OnOk result (given.new.items ≡ given.old.items ++ uncovered (patterns table.now) (given_unanalysed called.now clause.now)) }
{
    add_any_parts(alloc, table, called, clause.body().as_slice(), given)?;
    let success = anything(alloc, called, clause.head());
    add_success(table, clause.head(), success, given)
}

/// Puts in what a clause gives that is called so.
#[tactic(auto, using(crate::proofs::Formed::rules_of_clauses))]
fn add_analysed(
    alloc: Global,
    table: &Table,
    called: &Pattern,
    clause: &Clause,
    given: &mut Vec<Given>,
) -> Result<(), NoMemory>
    requires { IsTrue (is_analysed clause.now) }
    ensures { OnOk result (given.new.items ≡ given.old.items ++ uncovered (patterns table.now) (given_from (patterns table.now) (enter clause.now.vars clause.now.head called.now) clause.now)) }
{
    let head = clause.head();
    let parts = clause.body().as_slice();
    if is_idle(alloc, table, head, parts) {
        return Ok(());
    }
    let entered = enter(alloc, clause.vars(), head, called)?;
    let state = add_body(alloc, table, entered, parts, given)?;
    let success = call_pattern(alloc, &state, head)?;
    add_success(table, head, success, given)
}

/// The pattern of the calls of a head's predicate.
fn called<'a>(table: &'a Table, head: &Term, unreachable: &'a Pattern) -> &'a Pattern
    requires { unreachable.now ≡ Unreachable }
    ensures { result.now ≡ call_at (patterns table.now) (predicate_of (tree_of head.now)) }
{
    match call_at(table, head) {
        Some(pattern) => pattern,
        None => unreachable,
    }
}

fn is_unreachable(called: &Pattern) -> bool
    ensures { result ≡ true → called.now ≡ Unreachable }
{
    matches!(called, State::Unreachable)
}

/// Puts in what a clause gives to the patterns of a table. A clause that is never called gives nothing.
#[tactic(auto, using(crate::proofs::Formed::rules_of_clauses))]
pub fn add_clause(
    alloc: Global,
    table: &Table,
    clause: &Clause,
    given: &mut Vec<Given>,
) -> Result<(), NoMemory>
    ensures { OnOk result (given.new.items ≡ given.old.items ++ uncovered (patterns table.now) (given_by_clause (patterns table.now) clause.now)) }
{
    let head = clause.head();
    let unreachable = State::Unreachable;
    let called = called(table, head, &unreachable);
    if is_unreachable(called) {
        return Ok(());
    }
    if is_analysed(clause) {
        add_analysed(alloc, table, called, clause, given)
    } else {
        add_unanalysed(alloc, table, called, clause, given)
    }
}
