//! The patterns of a table one by one, and what is given to them.

ghost use Rattle.std.specs.Prelude.{◌≡◌, IfOk, IsTrue, MatchOption};
ghost use Rattle.ap_term.specs.TermView.{tree_of};
ghost use Rattle.ap_term.specs.WellFormed.{callable, numbered};
ghost use Rattle.ap_absunify.specs.declared.states.State.TheVariants.{Unreachable};
ghost use Rattle.ap_patterns.specs.Table.{predicate_of};
ghost use Rattle.ap_patterns.specs.Given.{patterns, call_at, success_at, is_builtin, after_goal};
ghost use Rattle.ap_patterns.specs.Covered.{is_share_covered, is_covered};

use crate::calls::Pattern;
use crate::returns::after_call;
use crate::tables::{Predicate, Table};
use ap_absunify::{State, after_builtin};
use ap_sharing::Share;
use ap_term::{NoMemory, Relation, Term, fixed};
use std::alloc::Global;

/// A pattern of a table: that of a predicate's calls, or that of its answers.
#[derive(Debug, Clone, Copy, PartialEq, Eq)]
pub enum Slot {
    Call(Predicate),
    Success(Predicate),
}

/// A pattern that an entry, a call or an answer has, and the slot of a table that is to cover it.
#[derive(Drop)]
pub struct Given {
    pub slot: Slot,
    pub pattern: Pattern,
}

/// The pattern of a slot; unreachable where the table has none.
pub fn pattern_at<'a>(table: &'a Table, slot: Slot, unreachable: &'a Pattern) -> &'a Pattern
    requires { unreachable.now ≡ Unreachable }
    ensures { result.now ≡ patterns table.now slot }
{
    match slot {
        Slot::Call(predicate) => match table.row(predicate) {
            Some(row) => &row.call,
            None => unreachable,
        },
        Slot::Success(predicate) => match table.row(predicate) {
            Some(row) => &row.success,
            None => unreachable,
        },
    }
}

/// Whether a goal is built in.
pub fn is_builtin(goal: &Term) -> bool
    ensures { result ≡ is_builtin (tree_of goal.now) }
{
    match goal {
        Term::Atom(a) => a.number() == fixed::TRUE || a.number() == fixed::FAIL,
        Term::Node(name, args) => args.len() == 2 && Relation::named(*name).is_some(),
        _ => false,
    }
}

/// The pattern of the answers of a goal's predicate, where the table has one.
pub fn success_at<'a>(table: &'a Table, goal: &Term) -> Option<&'a Pattern>
    ensures { MatchOption result (success_at (patterns table.now) (predicate_of (tree_of goal.now)) ≡ Unreachable) (λ r. success_at (patterns table.now) (predicate_of (tree_of goal.now)) ≡ r.now) }
{
    let predicate = Predicate::of(goal)?;
    let row = table.row(predicate)?;
    Some(&row.success)
}

/// The pattern of the calls of a head's predicate, where the table has one.
pub fn call_at<'a>(table: &'a Table, head: &Term) -> Option<&'a Pattern>
    ensures { MatchOption result (call_at (patterns table.now) (predicate_of (tree_of head.now)) ≡ Unreachable) (λ r. call_at (patterns table.now) (predicate_of (tree_of head.now)) ≡ r.now) }
{
    let predicate = Predicate::of(head)?;
    let row = table.row(predicate)?;
    Some(&row.call)
}

/// The state after a goal succeeded, by its own rules or by its predicate's success pattern.
pub fn after_goal(alloc: Global, table: &Table, s: State, goal: &Term) -> Result<State, NoMemory>
    requires can_be_called { IsTrue (callable (tree_of goal.now)) }
    requires variables { IsTrue (numbered 255 (tree_of goal.now)) }
    ensures { IfOk result (λ r. r ≡ after_goal (patterns table.now) s (tree_of goal.now)) }
{
    if is_builtin(goal) {
        return after_builtin(alloc, s, goal);
    }
    match success_at(table, goal) {
        Some(success) => after_call(alloc, s, goal, success),
        None => Ok(State::Unreachable),
    }
}

/// Whether each member of a Share is one of the other, as far as its sets and its `any` tell.
fn is_share_covered(share: &Share, by: &Share) -> bool
    ensures { result ≡ is_share_covered share.now by.now }
{
    if !share.any().is_subset(by.any()) {
        return false;
    }
    for s in share.sets().as_slice() {
        if !by.is_member(*s) {
            return false;
        }
    }
    true
}

/// Whether the other pattern allows all that this one does.
pub fn is_covered(pattern: &Pattern, by: &Pattern) -> bool
    ensures { result ≡ is_covered pattern.now by.now }
{
    match (pattern, by) {
        (State::Unreachable, _) => true,
        (State::Reachable { .. }, State::Unreachable) => false,
        (
            State::Reachable { share, free },
            State::Reachable {
                share: by_share,
                free: by_free,
            },
        ) => is_share_covered(share, by_share) && by_free.vars().is_subset(free.vars()),
    }
}
