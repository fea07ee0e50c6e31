//! Events along a path. Each step of it goes through the first frame of a task, so it bounds the recursion.

ghost use Rattle.std.specs.Prelude.{◌≡◌, ◌+◌, ◌-◌, Some, None, MatchResult, if◌then◌else◌};
ghost use Rattle.ap_core.specs.Conditions.{is_running};
ghost use Rattle.ap_term.specs.TermView.{tree_of};
ghost use Rattle.ap_core.specs.TaskView.{task_view, progress_view, slot_view, slots_view};
ghost use Rattle.ap_core.specs.Relation.{in_task, in_slots};
ghost use Rattle.ap_core.specs.Outcome.{IsRefusal, in_place, below_slot};
ghost use Rattle.ap_core.specs.CoreView.{rules_of};

use crate::conditions::{is_open, is_running};
use crate::events::{Kind, StepErr};
use crate::loud::Rules;
use crate::slots::at_slot;
use crate::tasks::{Alternative, Busy, Idle, Progress, Slot, Task};
use std::alloc::Global;
use std::mem;

/// An event at or below the slot in that place, from 1, of a task's first frame.
#[cycle(along)]
pub fn in_task(
    alloc: Global,
    rules: &Rules,
    kind: Kind,
    place: usize,
    path: &[usize],
    t: &mut Task,
) -> Result<(), StepErr>
    ensures { MatchResult result (λ _. in_task (rules_of rules.now) kind place path.now (task_view t.old) ≡ Some (task_view t.new)) (λ e. IsRefusal e (in_task (rules_of rules.now) kind place path.now (task_view t.old)) (task_view t.old) (task_view t.new)) }
{
    let Some(first) = &mut t.first else {
        return Err(StepErr::Illegal);
    };
    let Alternative::Frame {
        forked,
        round,
        slots,
    } = first
    else {
        return Err(StepErr::Illegal);
    };
    if !is_open(*round) {
        return Err(StepErr::Illegal);
    }
    in_slots(alloc, rules, kind, place, path, t.rest, forked.next, slots)
}

#[cycle(along)]
#[tactic(auto, using(crate::proofs::SlotLoops::along_rows))]
fn in_slots(
    alloc: Global,
    rules: &Rules,
    kind: Kind,
    place: usize,
    path: &[usize],
    rest: u64,
    b: u64,
    slots: &mut Vec<Slot>,
) -> Result<(), StepErr>
    ensures { MatchResult result (λ _. in_slots (rules_of rules.now) kind place path.now rest b (slots_view slots.old.items) ≡ Some (slots_view slots.new.items)) (λ e. IsRefusal e (in_slots (rules_of rules.now) kind place path.now rest b (slots_view slots.old.items)) (slots_view slots.old.items) (slots_view slots.new.items)) }
{
    if place == 0 || place > slots.len() {
        return Err(StepErr::Illegal);
    }
    in_slot(alloc, rules, kind, path, rest, b, &mut slots[place - 1])
}

#[cycle(along)]
#[tactic(auto, using(crate::proofs::SlotLoops::below_rows))]
fn in_slot(
    alloc: Global,
    rules: &Rules,
    kind: Kind,
    path: &[usize],
    rest: u64,
    b: u64,
    x: &mut Slot,
) -> Result<(), StepErr>
    ensures { MatchResult result (λ _. in_place (rules_of rules.now) kind path.now rest b (slot_view x.old) ≡ Some (slot_view x.new)) (λ e. IsRefusal e (in_place (rules_of rules.now) kind path.now rest b (slot_view x.old)) (slot_view x.old) (slot_view x.new)) }
{
    match path {
        [] => at_slot(alloc, rules, kind, rest, b, x),
        [place, others @ ..] => below_progress(alloc, rules, kind, *place, others, &mut x.progress),
    }
}

#[cycle(along)]
fn below_progress(
    alloc: Global,
    rules: &Rules,
    kind: Kind,
    place: usize,
    path: &[usize],
    x: &mut Progress,
) -> Result<(), StepErr>
    ensures { MatchResult result (λ _. below_slot (rules_of rules.now) kind place path.now (progress_view x.old) ≡ Some (progress_view x.new)) (λ e. IsRefusal e (below_slot (rules_of rules.now) kind place path.now (progress_view x.old)) (progress_view x.old) (progress_view x.new)) }
{
    let progress = mem::replace(x, Progress::Unbegun(Idle::Ready));
    let (slot, made) = below_slot(alloc, rules, kind, place, path, progress);
    *x = slot;
    made
}

#[cycle(along)]
fn below_slot(
    alloc: Global,
    rules: &Rules,
    kind: Kind,
    place: usize,
    path: &[usize],
    x: Progress,
) -> (Progress, Result<(), StepErr>)
    ensures { MatchResult result.1 (λ _. below_slot (rules_of rules.now) kind place path.now (progress_view x) ≡ Some (progress_view result.0)) (λ e. IsRefusal e (below_slot (rules_of rules.now) kind place path.now (progress_view x)) (progress_view x) (progress_view result.0)) }
{
    match x {
        Progress::Begun(standing, task) => {
            let (task, made) = below_goal(alloc, rules, kind, place, path, standing, task);
            (Progress::Begun(standing, task), made)
        }
        Progress::Redone {
            earlier,
            standing,
            task,
            before,
        } => {
            let (task, made) = below_goal(alloc, rules, kind, place, path, standing, task);
            let slot = Progress::Redone {
                earlier,
                standing,
                task,
                before,
            };
            (slot, made)
        }
        Progress::Drained {
            earlier,
            standing,
            task,
            before,
            cost,
        } => {
            let (task, made) = below_goal(alloc, rules, kind, place, path, standing, task);
            let slot = Progress::Drained {
                earlier,
                standing,
                task,
                before,
                cost,
            };
            (slot, made)
        }
        other => (other, Err(StepErr::Illegal)),
    }
}

#[cycle(along)]
fn below_goal(
    alloc: Global,
    rules: &Rules,
    kind: Kind,
    place: usize,
    path: &[usize],
    standing: Busy,
    mut task: Box<Task>,
) -> (Box<Task>, Result<(), StepErr>)
    ensures { MatchResult result.1 (λ _. (if is_running standing then in_task (rules_of rules.now) kind place path.now (task_view task.value) else None) ≡ Some (task_view result.0.value)) (λ e. IsRefusal e (if is_running standing then in_task (rules_of rules.now) kind place path.now (task_view task.value) else None) (task_view task.value) (task_view result.0.value)) }
{
    if !is_running(standing) {
        return (task, Err(StepErr::Illegal));
    }
    let made = in_task(alloc, rules, kind, place, path, &mut task);
    (task, made)
}
