//! What is asked of slots in a row, and what they have cost.

ghost use Rattle.std.specs.Prelude.{◌≡◌, ◌+◌, ◌≤◌, ◌<◌, MatchOption, position};
ghost use Rattle.std.specs.List.{list_all, list_any};
ghost use Rattle.ap_frames.specs.Slots.{has_answer, has_failed, is_quiet, is_safe, cost_of, ending_of};
ghost use Rattle.ap_frames.specs.Verdicts.{left_edge, ended_cost, leftmost_ending, charge};

use crate::frame::Round;
use crate::one_slot::{cost_of, has_answer, has_failed, is_quiet, is_safe};
use crate::slots::{Ending, Slot, Stand};

/// Whether each slot stands at an answer.
pub fn all_answered<S, T>(slots: &[Slot<S, T>]) -> bool
    ensures { result ≡ list_all has_answer slots.now }
{
    slots.iter().all(|x| has_answer(x))
}

/// Whether a goal has no answer left.
pub fn some_failed<S, T>(slots: &[Slot<S, T>]) -> bool
    ensures { result ≡ list_any has_failed slots.now }
{
    slots.iter().any(|x| has_failed(x))
}

/// Whether no goal can meet a fault.
pub fn all_quiet<S, T>(slots: &[Slot<S, T>]) -> bool
    ensures { result ≡ list_all is_quiet slots.now }
{
    slots.iter().all(|x| is_quiet(x))
}

/// Whether each slot stands at an answer, and none has an alternative left that may meet a fault.
pub fn all_safe<S, T>(slots: &[Slot<S, T>]) -> bool
    ensures { result ≡ list_all is_safe slots.now }
{
    slots.iter().all(|x| is_safe(x))
}

/// The number of slots before the leftmost one that has failed; None where none has.
pub fn leftmost_failed<S, T>(slots: &[Slot<S, T>]) -> Option<usize>
    ensures { result ≡ position has_failed slots.now }
{
    slots.iter().position(|x| has_failed(x))
}

/// The cost of the longest prefix of slots with an answer, and what the next one had spent when it ended; None where that is
/// above the rest.
#[tactic(auto, using(crate::proofs::Walks::walk_rules))]
fn left_edge<S, T>(rest: u64, slots: &[Slot<S, T>]) -> Option<u64>
    ensures { MatchOption result (rest < left_edge slots.now) (λ e. (e ≡ left_edge slots.now) × (e ≤ rest)) }
{
    let mut total = 0;
    for x in slots {
        let cost = cost_of(x);
        if cost > rest - total {
            return None;
        }
        total += cost;
        if !has_answer(x) {
            return Some(total);
        }
    }
    Some(total)
}

/// What the leftmost slot without an answer had spent when it ended.
#[tactic(auto, using(crate::proofs::Walks::walk_rules))]
fn ended_cost<S, T>(slots: &[Slot<S, T>]) -> u64
    ensures { result ≡ ended_cost slots.now }
{
    for x in slots {
        if !has_answer(x) {
            return cost_of(x);
        }
    }
    0
}

fn ending_of<S, T>(x: &Slot<S, T>) -> Option<Ending>
    ensures { result ≡ ending_of x.now }
{
    match &x.stand {
        Stand::Ended(ending, _) => Some(*ending),
        _ => None,
    }
}

/// How the leftmost slot without an answer ended.
#[tactic(auto, using(crate::proofs::Walks::walk_rules))]
pub fn leftmost_ending<S, T>(slots: &[Slot<S, T>]) -> Option<Ending>
    ensures { result ≡ leftmost_ending slots.now }
{
    for x in slots {
        if !has_answer(x) {
            return ending_of(x);
        }
    }
    None
}

/// What is charged; None where that is above the rest.
pub fn charge<S, T>(rest: u64, round: Round, slots: &[Slot<S, T>]) -> Option<u64>
    ensures { MatchOption result (rest < charge round slots.now) (λ e. (e ≡ charge round slots.now) × (e ≤ rest)) }
{
    let Round::Draining(before) = round else {
        return left_edge(rest, slots);
    };
    let cost = ended_cost(slots);
    if before > rest || cost > rest - before {
        return None;
    }
    Some(before + cost)
}
