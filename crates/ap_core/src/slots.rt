//! The events of a slot.

ghost use Rattle.std.specs.Prelude.{◌≡◌, ◌+◌, ◌-◌, ◌<◌, [], ◌∷◌, ◌++◌, map, Some, None, Option, IfOk, MatchOption, MatchResult, vec_len, vec_capacity, true, false, if◌then◌else◌};
ghost use Rattle.ap_term.specs.TermView.{tree_of};
ghost use Rattle.ap_laws.specs.Graft.{alone};
ghost use Rattle.ap_laws.specs.Plain.{as_state};
ghost use Rattle.ap_spec.specs.States.{state_of};
ghost use Rattle.ap_core.specs.TaskView.{task_view, progress_view, slot_view, alternatives_view, answer_of};
ghost use Rattle.ap_core.specs.Relation.{answer, started, start_slot, answer_slot, stand, asked, stopping, stopped_slot, own, own_slot, forgotten};
ghost use Rattle.ap_core.specs.CoreView.{rules_of};
ghost use Rattle.ap_core.specs.Telling.{told};
ghost use Rattle.ap_core.specs.Outcome.{IsRefusal, IsChanged, Thrown, with_answer, noted_answer, thrown_answer, changed, at_progress, at_place};
ghost use Rattle.ap_core.specs.declared.events.StepErr.TheVariants.{Illegal};
ghost use Rattle.ap_core.specs.Tasks.{Task as Reading};
ghost use Rattle.ap_core.specs.Conditions.{is_running};

use crate::conditions::{has_spent, is_done, is_exhausted, is_running, met};
use crate::events::{Kind, StepErr};
use crate::grafts::{arguments, copy_terms};
use crate::loud::{Loud, Rules};
use crate::own::{next_choice, own};
use crate::tasks::{Alternative, Answer, Busy, Idle, Progress, Slot, Task};
use ap_spec::State;
use ap_term::{Body, NoMemory, Part, Term, copy_term};
use std::alloc::Global;
use std::mem;

/// A goal alone, whose new variables begin at b.
fn goal_alone(alloc: Global, b: u64, goal: &Term) -> Result<State, NoMemory>
    ensures { IfOk result (λ s. state_of s ≡ as_state (alone (tree_of goal.now) b)) }
{
    let mut goals = Body::new(alloc);
    goals.push(Part::Call(copy_term(alloc, goal)?))?;
    Ok(State {
        goals,
        tuple: copy_terms(alloc, arguments(goal))?,
        next: b,
        steps: 0,
        fault: None,
    })
}

/// A goal that is ready or was given back runs anew, with that rest.
fn start_slot(
    alloc: Global,
    rest: u64,
    b: u64,
    goal: &Term,
    x: &mut Progress,
) -> Result<(), StepErr>
    ensures { MatchResult result (λ _. start_slot rest b (tree_of goal.now) (progress_view x.old) ≡ Some (progress_view x.new)) (λ e. IsRefusal e (start_slot rest b (tree_of goal.now) (progress_view x.old)) (progress_view x.old) (progress_view x.new)) }
{
    let Progress::Unbegun(Idle::Ready | Idle::GivenBack) = x else {
        return Err(StepErr::Illegal);
    };
    let first = Alternative::State(goal_alone(alloc, b, goal)?);
    let task = Box::new(
        alloc,
        Task {
            rest,
            spent: 0,
            first: Some(first),
            behind: Vec::new(alloc),
        },
    )?;
    *x = Progress::Begun(Busy::Running, task);
    Ok(())
}

/// Takes the answer that comes first off a task.
pub fn take_answer(t: &mut Task) -> Option<Answer>
    ensures { MatchOption result ((answer (task_view t.old) ≡ None) × (task_view t.new ≡ task_view t.old)) (λ a. answer (task_view t.old) ≡ Some (answer_of a, task_view t.new)) }
{
    match &t.first {
        Some(Alternative::State(s)) if is_done(s) => {}
        _ => return None,
    }
    match t.first.take() {
        Some(Alternative::State(s)) => {
            t.first = next_choice(&mut t.behind);
            Some(Answer {
                tuple: s.tuple,
                next: s.next,
                steps: s.steps,
            })
        }
        other => {
            t.first = other;
            None
        }
    }
}

/// The answer of a goal that may go on, and the task behind it.
fn answer_goal(standing: Busy, mut task: Box<Task>) -> (Box<Task>, Option<Answer>)
    ensures { MatchOption result.1 (((if is_running standing then answer (task_view task.value) else None) ≡ None) × (task_view result.0.value ≡ task_view task.value)) (λ a. (if is_running standing then answer (task_view task.value) else None) ≡ Some (answer_of a, task_view result.0.value)) }
{
    if !is_running(standing) {
        return (task, None);
    }
    let answer = take_answer(&mut task);
    (task, answer)
}

/// The answer of a slot's goal, which the slot hasn't noted yet; of a drained slot none.
fn slot_answer(x: Progress) -> (Progress, Option<Answer>)
    ensures { MatchOption result.1 ((noted_answer (progress_view x) ≡ None) × (progress_view result.0 ≡ progress_view x)) (λ a. noted_answer (progress_view x) ≡ Some (with_answer (answer_of a) (progress_view result.0))) }
{
    match x {
        Progress::Begun(standing, task) => {
            let (task, answer) = answer_goal(standing, task);
            (Progress::Begun(standing, task), answer)
        }
        Progress::Redone {
            earlier,
            standing,
            task,
            before,
        } => {
            let (task, answer) = answer_goal(standing, task);
            let slot = Progress::Redone {
                earlier,
                standing,
                task,
                before,
            };
            (slot, answer)
        }
        other => (other, None),
    }
}

/// Puts an answer behind others, which have room for it.
fn put_answer(earlier: &mut Vec<Answer>, answer: Answer)
    requires { vec_len earlier.old < vec_capacity earlier.old }
    ensures { map answer_of earlier.new.items ≡ map answer_of earlier.old.items ++ answer_of answer ∷ [] }
{
    match earlier.push(answer) {
        Ok(()) => {}
        Err(_) => unreachable!(),
    }
}

/// Throws an answer of a drained goal away; whether there was one.
fn throw_answer(
    standing: Busy,
    earlier: &mut Vec<Answer>,
    task: &mut Task,
) -> Result<bool, NoMemory>
    ensures { MatchResult result (λ b. Thrown b standing (map answer_of earlier.old.items) (task_view task.old) (map answer_of earlier.new.items) (task_view task.new)) (λ _. (map answer_of earlier.new.items ≡ map answer_of earlier.old.items) × (task_view task.new ≡ task_view task.old)) }
{
    earlier.reserve(1)?;
    if !is_running(standing) {
        return Ok(false);
    }
    let Some(answer) = take_answer(task) else {
        return Ok(false);
    };
    put_answer(earlier, answer);
    Ok(true)
}

/// An answer of a goal that is drained, which is thrown away.
fn answer_drained(x: Progress) -> (Progress, Result<(), StepErr>)
    ensures { MatchResult result.1 (λ _. thrown_answer (progress_view x) ≡ Some (progress_view result.0)) (λ e. IsRefusal e (thrown_answer (progress_view x)) (progress_view x) (progress_view result.0)) }
{
    match x {
        Progress::Drained {
            mut earlier,
            standing,
            mut task,
            before,
            cost,
        } => {
            let thrown = throw_answer(standing, &mut earlier, &mut task);
            let slot = Progress::Drained {
                earlier,
                standing,
                task,
                before,
                cost,
            };
            match thrown {
                Ok(true) => (slot, Ok(())),
                Ok(false) => (slot, Err(StepErr::Illegal)),
                Err(_) => (slot, Err(StepErr::NoMemory)),
            }
        }
        other => (other, Err(StepErr::Illegal)),
    }
}

/// The slot's goal has answered.
fn answer_slot(alloc: Global, x: &mut Progress) -> Result<(), StepErr>
    ensures { MatchResult result (λ _. answer_slot (progress_view x.old) ≡ Some (progress_view x.new)) (λ e. IsRefusal e (answer_slot (progress_view x.old)) (progress_view x.old) (progress_view x.new)) }
{
    if matches!(x, Progress::Drained { .. }) {
        let (slot, made) = answer_drained(mem::replace(x, Progress::Unbegun(Idle::Ready)));
        *x = slot;
        return made;
    }
    match slot_answer(mem::replace(x, Progress::Unbegun(Idle::Ready))) {
        (slot, Some(answer)) => {
            *x = answered(alloc, answer, slot);
            Ok(())
        }
        (slot, None) => {
            *x = slot;
            Err(StepErr::Illegal)
        }
    }
}

fn answered(alloc: Global, answer: Answer, x: Progress) -> Progress
    ensures { progress_view result ≡ with_answer (answer_of answer) (progress_view x) }
{
    match x {
        Progress::Begun(_, task) => {
            let cost = task.spent;
            Progress::Answered {
                earlier: Vec::new(alloc),
                answer,
                task,
                cost,
            }
        }
        Progress::Redone {
            earlier,
            task,
            before,
            ..
        } => {
            let cost = task.spent.saturating_sub(before);
            Progress::Again {
                earlier,
                answer,
                task,
                cost,
            }
        }
        other => other,
    }
}

fn made(is_legal: bool) -> Result<(), StepErr>
    ensures { MatchResult result (λ _. is_legal ≡ true) (λ e. (e ≡ Illegal) × (is_legal ≡ false)) }
{
    if is_legal {
        Ok(())
    } else {
        Err(StepErr::Illegal)
    }
}

fn asked(standing: Busy) -> Option<Busy>
    ensures { (t : Reading) → result ≡ asked standing t }
{
    match standing {
        Busy::Running => Some(Busy::Stopping),
        _ => None,
    }
}

fn stopping(standing: Busy) -> Option<Busy>
    ensures { (t : Reading) → result ≡ stopping standing t }
{
    match standing {
        Busy::Stopping => Some(Busy::Stopped),
        _ => None,
    }
}

/// How a goal without an answer stands after an event by which it only stands otherwise.
fn changed(kind: Kind, loud: &Loud, standing: Busy, task: &Task) -> Option<Busy>
    ensures { result ≡ changed kind (told loud.now) standing (task_view task.now) }
{
    match kind {
        Kind::Fail if is_running(standing) && is_exhausted(task) => Some(Busy::Failed),
        Kind::Spend if is_running(standing) && has_spent(loud, task) => Some(Busy::Spent),
        Kind::Raise if is_running(standing) => met(loud, task).map(Busy::Raised),
        Kind::Stop => asked(standing),
        Kind::Stopped => stopping(standing),
        _ => None,
    }
}

fn change(kind: Kind, loud: &Loud, standing: &mut Busy, task: &Task) -> bool
    ensures { IsChanged result (changed kind (told loud.now) standing.old (task_view task.now)) standing.old standing.new }
{
    match changed(kind, loud, *standing, task) {
        Some(next) => {
            *standing = next;
            true
        }
        None => false,
    }
}

/// The goal stands otherwise.
fn restand(kind: Kind, loud: &Loud, x: &mut Progress) -> Result<(), StepErr>
    ensures { MatchResult result (λ _. stand (changed kind (told loud.now)) (progress_view x.old) ≡ Some (progress_view x.new)) (λ e. IsRefusal e (stand (changed kind (told loud.now)) (progress_view x.old)) (progress_view x.old) (progress_view x.new)) }
{
    match x {
        Progress::Begun(standing, task) => made(change(kind, loud, standing, task)),
        Progress::Redone { standing, task, .. } => made(change(kind, loud, standing, task)),
        Progress::Drained { standing, task, .. } => made(change(kind, loud, standing, task)),
        _ => Err(StepErr::Illegal),
    }
}

/// The goal has stopped. One that nobody asked to is given back and its work lost, but a redone or drained one stays.
fn stopped_slot(loud: &Loud, x: &mut Progress) -> Result<(), StepErr>
    ensures { MatchResult result (λ _. stopped_slot (progress_view x.old) ≡ Some (progress_view x.new)) (λ e. IsRefusal e (stopped_slot (progress_view x.old)) (progress_view x.old) (progress_view x.new)) }
{
    if let Progress::Begun(Busy::Running, _) = x {
        *x = Progress::Unbegun(Idle::GivenBack);
        return Ok(());
    }
    restand(Kind::Stopped, loud, x)
}

fn own_goal(
    alloc: Global,
    rules: &Rules,
    kind: Kind,
    standing: Busy,
    mut task: Box<Task>,
) -> (Box<Task>, Result<(), StepErr>)
    ensures { MatchResult result.1 (λ _. (if is_running standing then own (rules_of rules.now) kind (task_view task.value) else None) ≡ Some (task_view result.0.value)) (λ e. IsRefusal e (if is_running standing then own (rules_of rules.now) kind (task_view task.value) else None) (task_view task.value) (task_view result.0.value)) }
{
    if !is_running(standing) {
        return (task, Err(StepErr::Illegal));
    }
    let made = own(alloc, rules, kind, &mut task);
    (task, made)
}

/// An event of the slot's task.
fn own_slot(
    alloc: Global,
    rules: &Rules,
    kind: Kind,
    x: Progress,
) -> (Progress, Result<(), StepErr>)
    ensures { MatchResult result.1 (λ _. own_slot (rules_of rules.now) kind (progress_view x) ≡ Some (progress_view result.0)) (λ e. IsRefusal e (own_slot (rules_of rules.now) kind (progress_view x)) (progress_view x) (progress_view result.0)) }
{
    match x {
        Progress::Begun(standing, task) => {
            let (task, made) = own_goal(alloc, rules, kind, standing, task);
            (Progress::Begun(standing, task), made)
        }
        Progress::Redone {
            earlier,
            standing,
            task,
            before,
        } => {
            let (task, made) = own_goal(alloc, rules, kind, standing, task);
            let slot = Progress::Redone {
                earlier,
                standing,
                task,
                before,
            };
            (slot, made)
        }
        Progress::Drained {
            earlier,
            standing,
            task,
            before,
            cost,
        } => {
            let (task, made) = own_goal(alloc, rules, kind, standing, task);
            let slot = Progress::Drained {
                earlier,
                standing,
                task,
                before,
                cost,
            };
            (slot, made)
        }
        other => (other, Err(StepErr::Illegal)),
    }
}

/// An event at a slot whose record stays, of a frame whose task has that rest and whose goals' new variables begin at b.
fn at_progress(
    alloc: Global,
    rules: &Rules,
    kind: Kind,
    rest: u64,
    b: u64,
    goal: &Term,
    x: &mut Progress,
) -> Result<(), StepErr>
    ensures { MatchResult result (λ _. at_progress (rules_of rules.now) kind rest b (tree_of goal.now) (progress_view x.old) ≡ Some (progress_view x.new)) (λ e. IsRefusal e (at_progress (rules_of rules.now) kind rest b (tree_of goal.now) (progress_view x.old)) (progress_view x.old) (progress_view x.new)) }
{
    match kind {
        Kind::Start => start_slot(alloc, rest, b, goal, x),
        Kind::Answer => answer_slot(alloc, x),
        Kind::Stopped => stopped_slot(&rules.loud, x),
        Kind::Fail | Kind::Spend | Kind::Stop | Kind::Raise => restand(kind, &rules.loud, x),
        Kind::Forget => Err(StepErr::Illegal),
        _ => {
            let progress = mem::replace(x, Progress::Unbegun(Idle::Ready));
            let (slot, made) = own_slot(alloc, rules, kind, progress);
            *x = slot;
            made
        }
    }
}

/// The record of a slot's answers is given up.
fn forget(x: &mut Slot)
    ensures { slot_view x.new ≡ ((slot_view x.old).0, false, forgotten (slot_view x.old).2) }
{
    x.is_kept = false;
    if matches!(&x.progress, Progress::Stored { .. }) {
        x.progress = Progress::Unbegun(Idle::Waiting);
    }
}

/// An event at a slot.
#[tactic(auto, using(crate::proofs::SlotLoops::at_rows))]
pub fn at_slot(
    alloc: Global,
    rules: &Rules,
    kind: Kind,
    rest: u64,
    b: u64,
    x: &mut Slot,
) -> Result<(), StepErr>
    ensures { MatchResult result (λ _. at_place (rules_of rules.now) kind rest b (slot_view x.old) ≡ Some (slot_view x.new)) (λ e. IsRefusal e (at_place (rules_of rules.now) kind rest b (slot_view x.old)) (slot_view x.old) (slot_view x.new)) }
{
    if matches!(kind, Kind::Forget) {
        forget(x);
        return Ok(());
    }
    at_progress(alloc, rules, kind, rest, b, &x.goal, &mut x.progress)
}
