//! Goals that give nothing new in any state, and bodies of such goals.

ghost use Rattle.std.specs.Prelude.{◌≡◌, true, map, IsTrue, []};
ghost use Rattle.std.specs.List.{list_all};
ghost use Rattle.ap_term.specs.Tree.{count_trees};
ghost use Rattle.ap_term.specs.TermView.{tree_of, trees_of};
ghost use Rattle.ap_term.specs.GoalView.{part_of};
ghost use Rattle.ap_term.specs.WellFormed.{callable, all_callable};
ghost use Rattle.ap_absunify.specs.declared.states.State.{State};
ghost use Rattle.ap_absunify.specs.declared.states.State.TheVariants.{Unreachable};
ghost use Rattle.ap_patterns.specs.Places.{arguments, call_pattern};
ghost use Rattle.ap_patterns.specs.Table.{predicate_of};
ghost use Rattle.ap_patterns.specs.Covered.{is_covered};
ghost use Rattle.ap_patterns.specs.Given.{patterns, any_pattern, to_success, given_by_goal, given_at_fork, given_in_turn, given_by_part, after_goal, after_goals, after_part};
ghost use Rattle.ap_fixpoint.specs.Formed.{goals_formed};
ghost use Rattle.ap_fixpoint.specs.Uncovered.{uncovered, given_on};

use ap_absunify::State;
use ap_patterns::{
    Pattern, Table, any_pattern, arity, call_at, is_builtin, is_covered, success_at,
};
use ap_term::{Part, Term};
use std::alloc::Global;

/// Whether the pattern covers whatever may be said of the arguments of a goal.
fn covers_any(alloc: Global, pattern: &Pattern, goal: &Term) -> bool
    requires { IsTrue (callable (tree_of goal.now)) }
    ensures { result ≡ is_covered (any_pattern (count_trees (arguments (tree_of goal.now)))) pattern.now }
{
    is_covered(&any_pattern(alloc, arity(goal)), pattern)
}

/// Whether a goal's predicate is called with anything already.
pub fn is_called_anyhow(alloc: Global, table: &Table, goal: &Term) -> bool
    requires { IsTrue (callable (tree_of goal.now)) }
    ensures { result ≡ true → (s : State) → uncovered (patterns table.now) (given_by_goal s (tree_of goal.now)) ≡ [] }
{
    match call_at(table, goal) {
        Some(called) => covers_any(alloc, called, goal),
        None => false,
    }
}

/// Whether a goal gives nothing new in any state.
fn is_open(alloc: Global, table: &Table, goal: &Term) -> bool
    requires { IsTrue (callable (tree_of goal.now)) }
    ensures { result ≡ true → (s : State) → uncovered (patterns table.now) (given_by_goal s (tree_of goal.now)) ≡ [] }
{
    if is_builtin(goal) {
        return true;
    }
    is_called_anyhow(alloc, table, goal)
}

fn are_open(alloc: Global, table: &Table, goals: &[Term]) -> bool
    requires { IsTrue (all_callable (trees_of goals.now)) }
    ensures at_fork { result ≡ true → (s : State) → uncovered (patterns table.now) (given_at_fork s (trees_of goals.now)) ≡ [] }
    ensures in_turn { result ≡ true → (s : State) → uncovered (patterns table.now) (given_in_turn (patterns table.now) s (trees_of goals.now)) ≡ [] }
{
    for goal in goals {
        if !is_open(alloc, table, goal) {
            return false;
        }
    }
    true
}

/// Whether the goals of a part give nothing new in any state.
fn is_part_open(alloc: Global, table: &Table, part: &Part) -> bool
    requires { IsTrue (goals_formed (part_of part.now)) }
    ensures { result ≡ true → (s : State) → uncovered (patterns table.now) (given_by_part (patterns table.now) s (part_of part.now)) ≡ [] }
{
    match part {
        Part::Call(goal) => is_open(alloc, table, goal),
        Part::Group { calls, .. } => are_open(alloc, table, calls.as_slice()),
    }
}

/// Whether a goal has no answer as far as the table tells.
fn is_stuck(table: &Table, goal: &Term) -> bool
    ensures { result ≡ true → (s : State) → after_goal (patterns table.now) s (tree_of goal.now) ≡ Unreachable }
{
    if is_builtin(goal) {
        return false;
    }
    match success_at(table, goal) {
        Some(success) => matches!(success, State::Unreachable),
        None => true,
    }
}

fn any_stuck(table: &Table, goals: &[Term]) -> bool
    ensures { result ≡ true → (s : State) → after_goals (patterns table.now) s (trees_of goals.now) ≡ Unreachable }
{
    for goal in goals {
        if is_stuck(table, goal) {
            return true;
        }
    }
    false
}

/// Whether a goal of a part has no answer as far as the table tells.
fn is_part_stuck(table: &Table, part: &Part) -> bool
    ensures { result ≡ true → (s : State) → after_part (patterns table.now) s (part_of part.now) ≡ Unreachable }
{
    match part {
        Part::Call(goal) => is_stuck(table, goal),
        Part::Group { calls, .. } => any_stuck(table, calls.as_slice()),
    }
}

/// Whether the head's predicate is known to answer with anything.
fn is_success_open(alloc: Global, table: &Table, head: &Term) -> bool
    requires { IsTrue (callable (tree_of head.now)) }
    ensures { result ≡ true → (s : State) → uncovered (patterns table.now) (to_success (predicate_of (tree_of head.now)) (call_pattern s (tree_of head.now))) ≡ [] }
{
    match success_at(table, head) {
        Some(success) => covers_any(alloc, success, head),
        None => false,
    }
}

/// Whether a body and the success behind it give nothing new from any state on: no goal does up to one that has no answer yet, or up to
/// the end, where the predicate answers with anything already. So the state in which the clause is entered isn't asked for.
pub fn is_idle(alloc: Global, table: &Table, head: &Term, parts: &[Part]) -> bool
    requires head { IsTrue (callable (tree_of head.now)) }
    requires formed { IsTrue (list_all goals_formed (map part_of parts.now)) }
    ensures { result ≡ true → (s : State) → uncovered (patterns table.now) (given_on (patterns table.now) (tree_of head.now) s (map part_of parts.now)) ≡ [] }
{
    for part in parts {
        if !is_part_open(alloc, table, part) {
            return false;
        }
        if is_part_stuck(table, part) {
            return true;
        }
    }
    is_success_open(alloc, table, head)
}
