//! Stored answers that come again.

ghost use Rattle.std.specs.Prelude.{◌≡◌, [], ◌∷◌, ◌++◌, map, Some, None, Option, IfOk, OnOk, OnErr, length, ◌<◌};
ghost use Rattle.ap_laws.specs.Plain.{as_state};
ghost use Rattle.ap_spec.specs.States.{state_of};
ghost use Rattle.ap_core.specs.Tasks.{Alternatives};
ghost use Rattle.ap_core.specs.TaskView.{answer_of, last_of, alternative_view, progress_view, slot_view, slots_view, stacked};
ghost use Rattle.ap_core.specs.Relation.{plain_answer, states, as_states, replay_of, replayed, each_slot};
ghost use Rattle.ap_core.specs.Rounds.{replay_choice, choice_of, put_choice, put_choices, choices_of};

use crate::grafts::copy_terms;
use crate::own::next_choice;
use crate::tasks::{Alternative, Answer, Idle, Progress, Slot, Task};
use ap_spec::State;
use ap_term::{Body, NoMemory};
use std::alloc::Global;

fn answer_state(alloc: Global, a: &Answer) -> Result<State, NoMemory>
    ensures { IfOk result (λ s. state_of s ≡ as_state (plain_answer (answer_of a.now))) }
{
    Ok(State {
        goals: Body::new(alloc),
        tuple: copy_terms(alloc, a.tuple.as_slice())?,
        next: a.next,
        steps: a.steps,
        fault: None,
    })
}

fn copy_answer(alloc: Global, a: &Answer) -> Result<Answer, NoMemory>
    ensures { IfOk result (λ b. answer_of b ≡ answer_of a.now) }
{
    Ok(Answer {
        tuple: copy_terms(alloc, a.tuple.as_slice())?,
        next: a.next,
        steps: a.steps,
    })
}

/// The states of some answers, and of the last one, as a stack with the first one on top.
#[tactic(auto, using(crate::proofs::ReplayedSlots::stack_rows))]
fn stack_of_answers(
    alloc: Global,
    answers: &[Answer],
    last: &Option<Answer>,
) -> Result<Vec<Alternative>, NoMemory>
    ensures { IfOk result (λ v. (l : Alternatives) → stacked (map alternative_view v.items) l ≡ states (as_states (map answer_of answers.now ++ last_of last.now)) l) }
{
    let mut stack = Vec::new(alloc);
    if let Some(a) = last {
        stack.push(Alternative::State(answer_state(alloc, a)?))?;
    }
    let mut left = answers.len();
    while left > 0 {
        left -= 1;
        stack.push(Alternative::State(answer_state(alloc, &answers[left])?))?;
    }
    Ok(stack)
}

/// The first answer, with the others as alternatives, at no cost.
fn replayed(
    alloc: Global,
    first: &Answer,
    others: &[Answer],
    last: &Option<Answer>,
) -> Result<Progress, NoMemory>
    ensures { IfOk result (λ x. progress_view x ≡ replay_of (answer_of first.now ∷ (map answer_of others.now ++ last_of last.now))) }
{
    let mut behind = stack_of_answers(alloc, others, last)?;
    let next = next_choice(&mut behind);
    let task = Box::new(
        alloc,
        Task {
            rest: 0,
            spent: 0,
            first: next,
            behind,
        },
    )?;
    Ok(Progress::Answered {
        earlier: Vec::new(alloc),
        answer: copy_answer(alloc, first)?,
        task,
        cost: 0,
    })
}

/// What a slot that waits becomes; none for the others.
fn choice(alloc: Global, x: &Slot) -> Result<Option<Progress>, NoMemory>
    ensures { IfOk result (λ o. choice_of o ≡ replay_choice (slot_view x.now).2) }
{
    match &x.progress {
        Progress::Unbegun(Idle::Waiting) => Ok(Some(Progress::Unbegun(Idle::Ready))),
        Progress::Stored { answers, last } => match answers.as_slice() {
            [first, others @ ..] => Ok(Some(replayed(alloc, first, others, last)?)),
            [] => match last {
                Some(first) => Ok(Some(replayed(alloc, first, &[], &None)?)),
                None => Ok(None),
            },
        },
        _ => Ok(None),
    }
}

#[tactic(auto, using(crate::proofs::ReplayedSlots::choice_rows))]
fn choices(alloc: Global, slots: &[Slot]) -> Result<Vec<Option<Progress>>, NoMemory>
    ensures { IfOk result (λ v. map choice_of v.items ≡ choices_of slots.now) }
{
    let mut made = Vec::new(alloc);
    for x in slots {
        made.push(choice(alloc, x)?)?;
    }
    Ok(made)
}

fn put(x: &mut Slot, choice: Option<Progress>)
    ensures { slot_view x.new ≡ put_choice (choice_of choice) (slot_view x.old) }
{
    if let Some(progress) = choice {
        x.progress = progress;
    }
}

/// Puts each choice in its slot's place.
#[tactic(auto, using(crate::proofs::ReplayedSlots::put_rows))]
fn put_all(slots: &mut Vec<Slot>, mut made: Vec<Option<Progress>>)
    requires { length made.items ≡ length slots.old.items }
    ensures { map slot_view slots.new.items ≡ put_choices (map choice_of made.items) (map slot_view slots.old.items) }
{
    while let Some(choice) = made.pop() {
        let j = made.len();
        put(&mut slots[j], choice);
    }
}

/// Those that wait are ready, and stored answers come again.
#[tactic(auto, using(crate::proofs::ReplayedSlots::replay_rows))]
pub fn replay_all(alloc: Global, slots: &mut Vec<Slot>) -> Result<(), NoMemory>
    ensures made { OnOk result (slots_view slots.new.items ≡ each_slot replayed (slots_view slots.old.items)) }
    ensures kept { OnErr result (slots_view slots.new.items ≡ slots_view slots.old.items) }
{
    let made = choices(alloc, slots)?;
    put_all(slots, made);
    Ok(())
}
