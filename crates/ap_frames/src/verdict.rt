//! Verdicts.

ghost use Rattle.std.specs.Prelude.{◌≡◌, ◌-◌, position};
ghost use Rattle.ap_frames.specs.declared.verdict.Verdict.TheVariants.{Joined as JoinedBy, Broken as BrokenBy, Raised as RaisedBy, Drain as DrainBy};
ghost use Rattle.ap_frames.specs.Slots.{has_failed};
ghost use Rattle.ap_frames.specs.Verdicts.{charge, charged, unless_failed, are_harmless, in_first, judged};

use crate::frame::Round;
use crate::rounds::place_to_drain;
use crate::row::{
    all_answered, all_quiet, all_safe, charge, leftmost_ending, leftmost_failed, some_failed,
};
use crate::slots::{Ending, Slot};
use ap_term::Fault;

/// What stands of a frame whose round is open.
#[derive(Debug, Clone, Copy, PartialEq, Eq)]
pub enum Verdict {
    /// A goal may still come to an answer.
    Wait,
    /// Each goal has an answer: what is charged.
    Joined(u64),
    /// A goal has failed, and nothing to its left may meet a fault any more: what is charged.
    Broken(u64),
    /// A goal has failed: which slot to its left is to run on before, and with what rest.
    Drain(usize, u64),
    /// The leftmost goal without an answer met a fault: what is charged.
    Raised(u64, Fault),
    /// The budget is spent.
    Spent,
}

fn joined<S, T>(rest: u64, round: Round, slots: &[Slot<S, T>]) -> Verdict
    ensures { result ≡ charged rest (charge round slots.now) (JoinedBy (charge round slots.now)) }
{
    match charge(rest, round, slots) {
        Some(cost) => Verdict::Joined(cost),
        None => Verdict::Spent,
    }
}

fn broken<S, T>(rest: u64, round: Round, slots: &[Slot<S, T>]) -> Verdict
    ensures { result ≡ charged rest (charge round slots.now) (BrokenBy (charge round slots.now)) }
{
    match charge(rest, round, slots) {
        Some(cost) => Verdict::Broken(cost),
        None => Verdict::Spent,
    }
}

fn raised<S, T>(rest: u64, round: Round, slots: &[Slot<S, T>], fault: Fault) -> Verdict
    ensures { result ≡ charged rest (charge round slots.now) (RaisedBy (charge round slots.now) fault) }
{
    match charge(rest, round, slots) {
        Some(cost) => Verdict::Raised(cost, fault),
        None => Verdict::Spent,
    }
}

fn drained<S, T>(rest: u64, round: Round, slots: &[Slot<S, T>], i: usize) -> Verdict
    ensures { result ≡ charged rest (charge round slots.now) (DrainBy i (rest - charge round slots.now)) }
{
    match charge(rest, round, slots) {
        Some(cost) => Verdict::Drain(i, rest - cost),
        None => Verdict::Spent,
    }
}

/// Whether none of these slots may still meet a fault before a failure behind them counts.
fn are_harmless<S, T>(slots: &[Slot<S, T>]) -> bool
    ensures { result ≡ are_harmless slots.now }
{
    all_quiet(slots) || all_safe(slots)
}

/// By the leftmost slot without an answer.
fn unless_failed<S, T>(rest: u64, round: Round, slots: &[Slot<S, T>]) -> Verdict
    ensures { result ≡ unless_failed rest (charge round slots.now) slots.now }
{
    if all_answered(slots) {
        return joined(rest, round, slots);
    }
    match leftmost_ending(slots) {
        Some(Ending::Raised(fault)) => raised(rest, round, slots, fault),
        Some(Ending::Spent) => Verdict::Spent,
        _ => Verdict::Wait,
    }
}

/// In the first round.
fn judge_first<S, T>(rest: u64, round: Round, slots: &[Slot<S, T>]) -> Verdict
    ensures { result ≡ in_first rest (charge round slots.now) slots.now (position has_failed slots.now) }
{
    let Some(j) = leftmost_failed(slots) else {
        return unless_failed(rest, round, slots);
    };
    let left = &slots[..j];
    if are_harmless(left) {
        return broken(rest, round, slots);
    }
    if !all_answered(left) {
        return unless_failed(rest, round, slots);
    }
    match place_to_drain(left) {
        Some(i) => drained(rest, round, slots, i),
        None => unless_failed(rest, round, slots),
    }
}

/// How slots stand, of a round that was begun with that rest.
pub fn judge<S, T>(rest: u64, round: Round, slots: &[Slot<S, T>]) -> Verdict
    ensures { result ≡ judged rest round slots.now }
{
    match round {
        Round::Closed => Verdict::Wait,
        Round::Later(_) => {
            if some_failed(slots) {
                return broken(rest, round, slots);
            }
            unless_failed(rest, round, slots)
        }
        _ => judge_first(rest, round, slots),
    }
}
