//! The slots of a frame when a round begins, and which one is redone or drained.

ghost use Rattle.std.specs.Prelude.{◌≡◌, ◌+◌, ◌<◌, if◌then◌else◌, Some, nat_lt};
ghost use Rattle.std.specs.Ordering.{nat_cmp};
ghost use Rattle.ap_frames.specs.Slots.{has_more, is_loud_with_more};
ghost use Rattle.ap_frames.specs.Verdicts.{rightmost, next_redo};
ghost use Rattle.ap_frames.specs.Rounds.{numbered, without_cost, whole, reset, reset_by, readied, replayed, behind};

use crate::one_slot::{count_of, has_more, is_loud_with_more};
use crate::slots::{Recording, Slot, Stand};
use std::cmp::Ordering;

fn chosen(is_later: bool, later: usize, found: Option<usize>) -> Option<usize>
    ensures { result ≡ (if is_later then Some later else found) }
{
    if is_later { Some(later) } else { found }
}

/// The rightmost slot that has more, from 1.
#[tactic(auto, using(crate::proofs::Rightmost::rightmost_rules))]
pub fn next_redo<S, T>(slots: &[Slot<S, T>]) -> Option<usize>
    ensures { result ≡ next_redo slots.now }
{
    let mut found = None;
    let mut i = 0;
    for x in slots {
        i += 1;
        found = chosen(has_more(x), i, found);
    }
    found
}

/// The rightmost slot, from 1, that may meet a fault in an alternative that is left.
#[tactic(auto, using(crate::proofs::Rightmost::rightmost_rules))]
pub fn place_to_drain<S, T>(slots: &[Slot<S, T>]) -> Option<usize>
    ensures { result ≡ rightmost is_loud_with_more slots.now }
{
    let mut found = None;
    let mut i = 0;
    for x in slots {
        i += 1;
        found = chosen(is_loud_with_more(x), i, found);
    }
    found
}

/// In a new round an answer that stays has cost nothing.
fn forget_cost<S, T>(x: &mut Slot<S, T>)
    ensures { x.new ≡ record x.old { stand = without_cost x.old.stand } }
{
    if let Stand::Answered(answer) = &mut x.stand {
        answer.cost = 0;
    }
}

fn whole(recording: Recording) -> Recording
    ensures { result ≡ whole recording }
{
    match recording {
        Recording::Growing => Recording::Whole,
        other => other,
    }
}

/// A slot in a new round, by where it stands to the redone one.
fn reset<S: Drop, T>(x: &mut Slot<S, T>, side: Ordering)
    ensures { x.new ≡ reset side x.old }
{
    match side {
        Ordering::Less => forget_cost(x),
        Ordering::Equal => {}
        Ordering::Greater => {
            x.stand = Stand::Waiting;
            x.recording = whole(x.recording);
        }
    }
}

fn side_of(j: usize, i: usize) -> Ordering
    ensures { result ≡ nat_cmp j i }
{
    j.cmp(&i)
}

fn reset_by<S: Drop, T>(x: &mut Slot<S, T>, j: usize, i: usize)
    ensures { x.new ≡ reset_by i j x.old }
{
    reset(x, side_of(j, i));
}

/// All slots in a new round in which slot i, from 1, is redone.
#[tactic(auto, using(crate::proofs::Numbered::numbered_rules))]
pub fn reset_all<S: Drop, T: Drop>(i: usize, slots: &mut Vec<Slot<S, T>>)
    ensures { slots.new.items ≡ numbered (reset_by i) 1 slots.old.items }
{
    for j in 0..slots.len() {
        reset_by(&mut slots[j], j + 1, i);
    }
}

fn ready<S: Drop, T>(x: &mut Slot<S, T>, j: usize, i: usize)
    ensures { x.new ≡ behind readied i j x.old }
{
    if i < j && matches!(x.stand, Stand::Waiting) {
        x.stand = Stand::Ready;
    }
}

/// The slots behind slot i, from 1, that wait are ready.
#[tactic(auto, using(crate::proofs::Numbered::numbered_rules))]
pub fn ready_behind<S: Drop, T: Drop>(i: usize, slots: &mut Vec<Slot<S, T>>)
    ensures { slots.new.items ≡ numbered (behind readied i) 1 slots.old.items }
{
    for j in 0..slots.len() {
        ready(&mut slots[j], j + 1, i);
    }
}

fn replay<S: Drop, T>(x: &mut Slot<S, T>, j: usize, i: usize)
    ensures { x.new ≡ behind replayed i j x.old }
{
    if i < j && matches!(x.stand, Stand::Waiting) {
        x.stand = if count_of(x) > 0 {
            Stand::Replayed(0)
        } else {
            Stand::Ready
        };
    }
}

/// The slots behind slot i, from 1, that wait stand at the first answer of their record, or are ready where they have none.
#[tactic(auto, using(crate::proofs::Numbered::numbered_rules))]
pub fn replay_behind<S: Drop, T: Drop>(i: usize, slots: &mut Vec<Slot<S, T>>)
    ensures { slots.new.items ≡ numbered (behind replayed i) 1 slots.old.items }
{
    for j in 0..slots.len() {
        replay(&mut slots[j], j + 1, i);
    }
}
