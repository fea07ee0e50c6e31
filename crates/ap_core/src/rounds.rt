//! The slots of a frame when a round begins.

ghost use Rattle.std.specs.Prelude.{◌≡◌, ◌+◌, ◌<◌, ◌≤◌, ◌++◌, map, OnOk, OnErr, MatchResult, if◌then◌else◌};
ghost use Rattle.std.specs.Ordering.{nat_cmp};
ghost use Rattle.ap_core.specs.TaskView.{answer_of, last_of, task_view, progress_view, slot_view, slots_view};
ghost use Rattle.ap_core.specs.Conditions.{some_has_more, spent_by};
ghost use Rattle.ap_core.specs.Relation.{given, if_kept, restarted_with, redo_from, readied, kept, put_away, each_slot};
ghost use Rattle.ap_core.specs.Rounds.{changed_place, settled_place, place_to_redo, settled_at, answered_by};

use crate::conditions::has_more;
use crate::tasks::{Answer, Busy, Idle, Progress, Slot, Task};
use ap_term::NoMemory;
use std::cmp::Ordering;
use std::mem;

fn ready(x: &mut Slot)
    ensures { slot_view x.new ≡ changed_place readied (slot_view x.old) }
{
    if matches!(&x.progress, Progress::Unbegun(Idle::Waiting)) {
        x.progress = Progress::Unbegun(Idle::Ready);
    }
}

/// Those that wait are ready.
#[tactic(auto, using(crate::proofs::SlotLoops::readied_rows))]
pub fn ready_all(slots: &mut Vec<Slot>)
    ensures { slots_view slots.new.items ≡ each_slot readied (slots_view slots.old.items) }
{
    for j in 0..slots.len() {
        ready(&mut slots[j]);
    }
}

fn chosen(is_later: bool, later: usize, earlier: usize) -> usize
    ensures { result ≡ (if is_later then later else earlier) }
{
    if is_later { later } else { earlier }
}

/// The place of the rightmost slot that has more, from 0.
#[tactic(auto, using(crate::proofs::SlotLoops::place_rows))]
fn place_to_redo(slots: &[Slot]) -> usize
    ensures { result ≡ place_to_redo (slots_view slots.now) }
{
    let mut place = 0;
    let mut i = 0;
    for x in slots {
        place = chosen(has_more(x), i, place);
        i += 1;
    }
    place
}

fn with_answer(
    again: bool,
    earlier: Vec<Answer>,
    answer: Answer,
    task: Box<Task>,
    cost: u64,
) -> Progress
    ensures { progress_view result ≡ answered_by again (map answer_of earlier.items) (answer_of answer) (task_view task.value) cost }
{
    if again {
        return Progress::Again {
            earlier,
            answer,
            task,
            cost,
        };
    }
    Progress::Answered {
        earlier,
        answer,
        task,
        cost,
    }
}

pub fn given(rest: u64, mut task: Box<Task>) -> Box<Task>
    ensures { task_view result.value ≡ given rest (task_view task.value) }
{
    task.rest = rest;
    task
}

pub fn spent_by(t: &Task) -> u64
    ensures { result ≡ spent_by (task_view t.now) }
{
    t.spent
}

/// A goal with an answer runs on with that rest; for want of memory it stays as it was.
#[tactic(auto, using(crate::proofs::SlotLoops::restart_rows))]
fn redone(
    rest: u64,
    again: bool,
    mut earlier: Vec<Answer>,
    answer: Answer,
    task: Box<Task>,
    cost: u64,
) -> Result<Progress, Progress>
    ensures { MatchResult result (λ x. progress_view x ≡ restarted_with rest (answered_by again (map answer_of earlier.items) (answer_of answer) (task_view task.value) cost)) (λ x. progress_view x ≡ answered_by again (map answer_of earlier.items) (answer_of answer) (task_view task.value) cost) }
{
    match earlier.push(answer) {
        Ok(()) => {
            let before = spent_by(&task);
            Ok(Progress::Redone {
                earlier,
                standing: Busy::Running,
                task: given(rest, task),
                before,
            })
        }
        Err(refused) => Err(with_answer(again, earlier, refused.value, task, cost)),
    }
}

fn run_on(rest: u64, x: Progress) -> Result<Progress, Progress>
    ensures { MatchResult result (λ y. progress_view y ≡ restarted_with rest (progress_view x)) (λ y. progress_view y ≡ progress_view x) }
{
    match x {
        Progress::Answered {
            earlier,
            answer,
            task,
            cost,
        } => redone(rest, false, earlier, answer, task, cost),
        Progress::Again {
            earlier,
            answer,
            task,
            cost,
        } => redone(rest, true, earlier, answer, task, cost),
        other => Ok(other),
    }
}

/// The slot runs on with that rest.
fn restart_slot(rest: u64, x: &mut Slot) -> Result<(), NoMemory>
    ensures made { OnOk result (slot_view x.new ≡ changed_place (restarted_with rest) (slot_view x.old)) }
    ensures kept { OnErr result (slot_view x.new ≡ slot_view x.old) }
{
    match run_on(
        rest,
        mem::replace(&mut x.progress, Progress::Unbegun(Idle::Ready)),
    ) {
        Ok(progress) => {
            x.progress = progress;
            Ok(())
        }
        Err(progress) => {
            x.progress = progress;
            Err(NoMemory)
        }
    }
}

/// A slot left of the redone one: in the new round it has cost nothing.
fn keep(x: &mut Slot)
    ensures { slot_view x.new ≡ changed_place kept (slot_view x.old) }
{
    x.progress = match mem::replace(&mut x.progress, Progress::Unbegun(Idle::Ready)) {
        Progress::Answered {
            earlier,
            answer,
            task,
            ..
        }
        | Progress::Again {
            earlier,
            answer,
            task,
            ..
        } => Progress::Answered {
            earlier,
            answer,
            task,
            cost: 0,
        },
        other => other,
    };
}

/// The progress of a goal all of whose answers are known, where they are kept.
fn stored(is_kept: bool, answers: Vec<Answer>, last: Option<Answer>) -> Progress
    ensures { progress_view result ≡ if_kept is_kept (map answer_of answers.items ++ last_of last) }
{
    if is_kept {
        Progress::Stored { answers, last }
    } else {
        Progress::Unbegun(Idle::Waiting)
    }
}

/// A slot's progress right of the redone one: it waits, with the answers of its goal if they are kept.
fn waiting(is_kept: bool, x: Progress) -> Progress
    ensures { progress_view result ≡ put_away is_kept (progress_view x) }
{
    match x {
        Progress::Stored { answers, last } => stored(is_kept, answers, last),
        Progress::Answered {
            earlier,
            answer,
            task: _task,
            cost: _cost,
        }
        | Progress::Again {
            earlier,
            answer,
            task: _task,
            cost: _cost,
        } => stored(is_kept, earlier, Some(answer)),
        Progress::Redone {
            earlier,
            standing: _standing,
            task: _task,
            before: _before,
        } => stored(is_kept, earlier, None),
        Progress::Unbegun(_) | Progress::Begun(..) | Progress::Drained { .. } => {
            Progress::Unbegun(Idle::Waiting)
        }
    }
}

fn put_away(x: &mut Slot)
    ensures { slot_view x.new ≡ changed_place (put_away (slot_view x.old).1) (slot_view x.old) }
{
    let progress = mem::replace(&mut x.progress, Progress::Unbegun(Idle::Waiting));
    x.progress = waiting(x.is_kept, progress);
}

/// A slot left of the redone one has cost nothing in the new round, one right of it is put away.
fn settle(x: &mut Slot, side: Ordering)
    ensures { slot_view x.new ≡ settled_place side (slot_view x.old) }
{
    match side {
        Ordering::Less => keep(x),
        Ordering::Equal => {}
        Ordering::Greater => put_away(x),
    }
}

/// Where a place stands to another one.
fn side_of(j: usize, i: usize) -> Ordering
    ensures { result ≡ nat_cmp j i }
{
    j.cmp(&i)
}

#[tactic(auto, using(crate::proofs::SlotLoops::settled_rows))]
fn settle_all(i: usize, slots: &mut Vec<Slot>)
    ensures { slots_view slots.new.items ≡ settled_at i (slots_view slots.old.items) }
{
    for j in 0..slots.len() {
        settle(&mut slots[j], side_of(j, i));
    }
}

/// The rightmost slot that has more runs on with that rest, and those right of it wait.
#[tactic(auto, using(crate::proofs::SlotLoops::redo_rows))]
pub fn redo_slots(rest: u64, slots: &mut Vec<Slot>) -> Result<(), NoMemory>
    ensures made { OnOk result (slots_view slots.new.items ≡ redo_from rest (slots_view slots.old.items)) }
    ensures kept { OnErr result (slots_view slots.new.items ≡ slots_view slots.old.items) }
{
    let i = place_to_redo(slots);
    if i >= slots.len() {
        return Ok(());
    }
    restart_slot(rest, &mut slots[i])?;
    settle_all(i, slots);
    Ok(())
}
