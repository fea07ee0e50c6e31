//! A slot left of a failed one that runs on, since it may meet a fault.

ghost use Rattle.std.specs.Prelude.{◌≡◌, ◌+◌, ◌-◌, ◌<◌, ◌≤◌, [], ◌∷◌, ◌++◌, map, OnOk, OnErr, MatchResult, if◌then◌else◌};
ghost use Rattle.ap_core.specs.TaskView.{answer_of, task_view, progress_view, slot_view, slots_view};
ghost use Rattle.ap_core.specs.Conditions.{spent_by};
ghost use Rattle.ap_core.specs.Relation.{given, drained_with, drained_at, cost_of};
ghost use Rattle.ap_core.specs.Rounds.{changed_place, cost_from};

use crate::rounds::{given, spent_by};
use crate::tasks::{Busy, Idle, Progress, Slot};
use ap_term::NoMemory;
use std::mem;

/// What the slots left of a place, from 0, leave of a sum.
#[tactic(auto, using(crate::proofs::DrainedSlots::cost_rows))]
fn cost_from(place: usize, total: u64, slots: &[Slot]) -> u64
    ensures { result ≡ cost_from place total (slots_view slots.now) }
{
    let mut left = total;
    let mut j = 0;
    for x in slots {
        if j >= place {
            return left;
        }
        left = left.saturating_sub(cost_of(x));
        j += 1;
    }
    left
}

fn cost_of(x: &Slot) -> u64
    ensures { result ≡ cost_of (slot_view x.now).2 }
{
    match &x.progress {
        Progress::Answered { cost, .. } | Progress::Again { cost, .. } => *cost,
        _ => 0,
    }
}

/// A goal with an answer runs on with that rest, and its answers are thrown away; for want of memory it stays as it was.
fn drained(rest: u64, total: u64, x: Progress) -> Result<Progress, Progress>
    ensures { MatchResult result (λ y. progress_view y ≡ drained_with rest total (progress_view x)) (λ y. progress_view y ≡ progress_view x) }
{
    match x {
        Progress::Answered {
            mut earlier,
            answer,
            task,
            cost,
        } => match earlier.push(answer) {
            Ok(()) => {
                let before = spent_by(&task);
                Ok(Progress::Drained {
                    earlier,
                    standing: Busy::Running,
                    task: given(rest, task),
                    before,
                    cost: total,
                })
            }
            Err(refused) => Err(Progress::Answered {
                earlier,
                answer: refused.value,
                task,
                cost,
            }),
        },
        other => Ok(other),
    }
}

fn drain_slot(rest: u64, total: u64, x: &mut Slot) -> Result<(), NoMemory>
    ensures made { OnOk result (slot_view x.new ≡ changed_place (drained_with rest total) (slot_view x.old)) }
    ensures kept { OnErr result (slot_view x.new ≡ slot_view x.old) }
{
    let progress = mem::replace(&mut x.progress, Progress::Unbegun(Idle::Ready));
    match drained(rest, total, progress) {
        Ok(progress) => {
            x.progress = progress;
            Ok(())
        }
        Err(progress) => {
            x.progress = progress;
            Err(NoMemory)
        }
    }
}

/// The slot in that place, from 1, is drained with that rest, where the slots have cost so much in all.
#[tactic(auto, using(crate::proofs::DrainedSlots::drain_rows))]
pub fn drain_at(place: usize, rest: u64, total: u64, slots: &mut Vec<Slot>) -> Result<(), NoMemory>
    ensures made { OnOk result (slots_view slots.new.items ≡ drained_at rest total place (slots_view slots.old.items)) }
    ensures kept { OnErr result (slots_view slots.new.items ≡ slots_view slots.old.items) }
{
    if place == 0 || place > slots.len() {
        return Ok(());
    }
    let cost = cost_from(place - 1, total, slots);
    drain_slot(rest, cost, &mut slots[place - 1])
}
