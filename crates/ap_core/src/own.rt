//! The events of a task. Each is refused where its case doesn't stand; what it needs is made before anything changes.

ghost use Rattle.std.specs.Prelude.{◌≡◌, ◌+◌, ◌-◌, ◌<◌, ◌≤◌, [], ◌∷◌, ◌++◌, map, Some, None, Option, IfOk, OnOk, OnErr, MatchResult, MatchOption, vec_len, vec_capacity};
ghost use Rattle.ap_term.specs.TermView.{tree_of, trees_of};
ghost use Rattle.ap_term.specs.GoalView.{part_of};
ghost use Rattle.ap_term.specs.Search.{State as Reached, children};
ghost use Rattle.ap_spec.specs.States.{state_of};
ghost use Rattle.ap_core.specs.declared.tasks.Round.TheVariants.{Closed};
ghost use Rattle.ap_core.specs.Tasks.{Alternatives, exhausted, alternative, frame};
ghost use Rattle.ap_core.specs.TaskView.{task_view, alternative_view, alternatives_view, slot_view, slots_view, stacked};
ghost use Rattle.ap_core.specs.Relation.{states, inferred, ready, fork_goals, forked, joined, broken, drain, redo, readied, replayed, begun_anew, own, mapped};
ghost use Rattle.ap_core.specs.CoreView.{rules_of};
ghost use Rattle.ap_core.specs.Telling.{told};
ghost use Rattle.ap_core.specs.Outcome.{IsRefusal, IsMissing, put_before, ready_place};

use crate::conditions::{
    Verdict, all_hold, are_apart, has_goals, is_open, judge, left_edge, some_has_more,
    some_is_again, some_runs,
};
use crate::drains::drain_at;
use crate::events::{Kind, StepErr};
use crate::grafts::{sum, with_answers};
use crate::loud::{Loud, Rules};
use crate::replays::replay_all;
use crate::rounds::{ready_all, redo_slots};
use crate::tasks::{Alternative, Idle, Progress, Round, Slot, Task};
use ap_spec::{State, children};
use ap_term::{NoMemory, Part, Program, Term, copy_term};
use std::alloc::Global;

/// Takes the first alternative off those behind.
#[tactic(auto, using(crate::proofs::Alternatives::stack_rows))]
pub fn next_choice(behind: &mut Vec<Alternative>) -> Option<Alternative>
    ensures { alternatives_view result behind.new.items ≡ stacked (map alternative_view behind.old.items) exhausted }
{
    match behind.pop() {
        Some(next) => Some(next),
        None => None,
    }
}

/// The children of a state as a stack, the first one on top.
#[tactic(auto, using(crate::proofs::Alternatives::stack_rows))]
fn stack_of_children(
    alloc: Global,
    program: &Program,
    s: &State,
) -> Result<Vec<Alternative>, NoMemory>
    ensures { IfOk result (λ v. (l : Alternatives) → stacked (map alternative_view v.items) l ≡ states (children program.now (state_of s.now)) l) }
{
    if s.next >= 1 << 63 || s.steps >= 1 << 63 {
        return Err(NoMemory);
    }
    let mut left = children(alloc, program, s)?;
    let mut stack = Vec::new(alloc);
    while let Some(child) = left.pop_back() {
        stack.push(Alternative::State(child))?;
    }
    Ok(stack)
}

/// Puts the children of a state before the alternatives behind it, and takes the first one.
fn expand(
    alloc: Global,
    program: &Program,
    s: &State,
    behind: &mut Vec<Alternative>,
) -> Result<Option<Alternative>, NoMemory>
    ensures { MatchResult result (λ next. alternatives_view next behind.new.items ≡ states (children program.now (state_of s.now)) (stacked (map alternative_view behind.old.items) exhausted)) (λ _. behind.new.items ≡ behind.old.items) }
{
    let mut stack = stack_of_children(alloc, program, s)?;
    behind.append(&mut stack)?;
    Ok(next_choice(behind))
}

/// The first state is replaced by its children, at the cost of one call.
#[tactic(auto, using(crate::proofs::Alternatives::stack_rows))]
pub fn infer(alloc: Global, program: &Program, t: &mut Task) -> Result<(), StepErr>
    ensures { MatchResult result (λ _. inferred program.now (task_view t.old) ≡ Some (task_view t.new)) (λ e. IsRefusal e (inferred program.now (task_view t.old)) (task_view t.old) (task_view t.new)) }
{
    let Some(Alternative::State(s)) = &t.first else {
        return Err(StepErr::Illegal);
    };
    if !has_goals(s) || t.rest == 0 {
        return Err(StepErr::Illegal);
    }
    let spent = sum(t.spent, 1)?;
    t.first = expand(alloc, program, s, &mut t.behind)?;
    t.rest -= 1;
    t.spent = spent;
    Ok(())
}

fn ready_slot(alloc: Global, goal: &Term) -> Result<Slot, NoMemory>
    ensures { IfOk result (λ x. slot_view x ≡ ready_place (tree_of goal.now)) }
{
    Ok(Slot {
        goal: copy_term(alloc, goal)?,
        is_kept: true,
        progress: Progress::Unbegun(Idle::Ready),
    })
}

#[tactic(auto, using(crate::proofs::Alternatives::ready_rows))]
fn ready_slots(alloc: Global, goals: &[Term]) -> Result<Vec<Slot>, NoMemory>
    ensures { IfOk result (λ w. slots_view w.items ≡ ready (trees_of goals.now)) }
{
    let mut slots = Vec::new(alloc);
    for goal in goals {
        slots.push(ready_slot(alloc, goal)?)?;
    }
    Ok(slots)
}

/// The slots of a group that comes first, where it may be forked.
fn forked_slots(alloc: Global, s: &State) -> Result<Vec<Slot>, StepErr>
    ensures { MatchResult result (λ w. mapped ready (fork_goals (state_of s.now).goals) ≡ Some (slots_view w.items)) (λ e. IsMissing e (fork_goals (state_of s.now).goals)) }
{
    let Some(Part::Group { checks, calls }) = s.goals.as_slice().first() else {
        return Err(StepErr::Illegal);
    };
    if !all_hold(checks.as_slice()) || !are_apart(alloc, calls.as_slice())? {
        return Err(StepErr::Illegal);
    }
    let slots = ready_slots(alloc, calls.as_slice())?;
    Ok(slots)
}

/// The first state becomes a frame of ready slots.
#[tactic(auto, using(crate::proofs::Alternatives::stack_rows))]
pub fn fork(alloc: Global, t: &mut Task) -> Result<(), StepErr>
    ensures { MatchResult result (λ _. forked (task_view t.old) ≡ Some (task_view t.new)) (λ e. IsRefusal e (forked (task_view t.old)) (task_view t.old) (task_view t.new)) }
{
    let Some(Alternative::State(s)) = &t.first else {
        return Err(StepErr::Illegal);
    };
    let slots = forked_slots(alloc, s)?;
    if let Some(Alternative::State(forked)) = t.first.take() {
        t.first = Some(Alternative::Frame {
            forked,
            round: Round::First,
            slots,
        });
    }
    Ok(())
}

/// Puts a closed frame on a stack that has room.
#[tactic(auto, using(crate::proofs::Alternatives::stack_rows))]
fn push_closed(forked: State, slots: Vec<Slot>, behind: &mut Vec<Alternative>)
    requires { vec_len behind.old < vec_capacity behind.old }
    ensures { stacked (map alternative_view behind.new.items) exhausted ≡ alternative (frame (state_of forked) Closed (slots_view slots.items)) (stacked (map alternative_view behind.old.items) exhausted) }
{
    match behind.push(Alternative::Frame {
        forked,
        round: Round::Closed,
        slots,
    }) {
        Ok(()) => {}
        Err(_) => unreachable!(),
    }
}

/// Puts a state before the frame that comes first, and closes its round.
fn put_before_frame(s: State, first: &mut Option<Alternative>, behind: &mut Vec<Alternative>)
    requires { vec_len behind.old < vec_capacity behind.old }
    ensures { alternatives_view first.new behind.new.items ≡ put_before (state_of s) (alternatives_view first.old behind.old.items) }
{
    match first.take() {
        Some(Alternative::Frame { forked, slots, .. }) => {
            push_closed(forked, slots, behind);
            *first = Some(Alternative::State(s));
        }
        other => *first = other,
    }
}

/// The state of all answers is put before the frame, whose round is closed.
#[tactic(auto, using(crate::proofs::Alternatives::stack_rows))]
pub fn join(alloc: Global, loud: &Loud, t: &mut Task) -> Result<(), StepErr>
    ensures { MatchResult result (λ _. joined (told loud.now) (task_view t.old) ≡ Some (task_view t.new)) (λ e. IsRefusal e (joined (told loud.now) (task_view t.old)) (task_view t.old) (task_view t.new)) }
{
    let Some(
        Alternative::Frame {
            forked,
            round,
            slots,
        },
    ) = &t.first
    else {
        return Err(StepErr::Illegal);
    };
    let Verdict::Joined(charge) = judge(loud, *round, t.rest, slots) else {
        return Err(StepErr::Illegal);
    };
    let joined = with_answers(alloc, slots, forked.next, forked)?;
    let spent = sum(t.spent, charge)?;
    t.behind.reserve(1)?;
    put_before_frame(joined, &mut t.first, &mut t.behind);
    t.rest = t.rest.saturating_sub(charge);
    t.spent = spent;
    Ok(())
}

/// A round that has failed is closed, and the frame dropped after the first one or where no slot has more; so is a
/// closed frame without more.
#[tactic(auto, using(crate::proofs::Alternatives::stack_rows))]
pub fn break_frame(loud: &Loud, t: &mut Task) -> Result<(), StepErr>
    ensures { MatchResult result (λ _. broken (told loud.now) (task_view t.old) ≡ Some (task_view t.new)) (λ e. IsRefusal e (broken (told loud.now) (task_view t.old)) (task_view t.old) (task_view t.new)) }
{
    let Some(first) = &mut t.first else {
        return Err(StepErr::Illegal);
    };
    let Alternative::Frame { round, slots, .. } = first else {
        return Err(StepErr::Illegal);
    };
    let has_more = some_has_more(slots);
    if !is_open(*round) {
        if has_more {
            return Err(StepErr::Illegal);
        }
        t.first = next_choice(&mut t.behind);
        return Ok(());
    }
    let Verdict::Broken(charge) = judge(loud, *round, t.rest, slots) else {
        return Err(StepErr::Illegal);
    };
    if some_runs(slots) {
        return Err(StepErr::Illegal);
    }
    let spent = sum(t.spent, charge)?;
    if has_more && matches!(round, Round::Later) {
        *round = Round::Closed;
    } else {
        t.first = next_choice(&mut t.behind);
    }
    t.rest = t.rest.saturating_sub(charge);
    t.spent = spent;
    Ok(())
}

/// A slot left of a failed one runs on to its end, since it may meet a fault.
pub fn drain(loud: &Loud, t: &mut Task) -> Result<(), StepErr>
    ensures { MatchResult result (λ _. drain (told loud.now) (task_view t.old) ≡ Some (task_view t.new)) (λ e. IsRefusal e (drain (told loud.now) (task_view t.old)) (task_view t.old) (task_view t.new)) }
{
    let Some(first) = &mut t.first else {
        return Err(StepErr::Illegal);
    };
    let Alternative::Frame { round, slots, .. } = first else {
        return Err(StepErr::Illegal);
    };
    let Verdict::Drain(place, rest) = judge(loud, *round, t.rest, slots) else {
        return Err(StepErr::Illegal);
    };
    if some_runs(slots) {
        return Err(StepErr::Illegal);
    }
    let Some(total) = left_edge(t.rest, slots) else {
        return Err(StepErr::Illegal);
    };
    drain_at(place, rest, total, slots)?;
    Ok(())
}

/// The rightmost slot of a closed frame that has more runs on, and those right of it wait.
#[tactic(auto, using(crate::proofs::Alternatives::stack_rows))]
pub fn redo(t: &mut Task) -> Result<(), StepErr>
    ensures { MatchResult result (λ _. redo (task_view t.old) ≡ Some (task_view t.new)) (λ e. IsRefusal e (redo (task_view t.old)) (task_view t.old) (task_view t.new)) }
{
    let Some(first) = &mut t.first else {
        return Err(StepErr::Illegal);
    };
    let Alternative::Frame { round, slots, .. } = first else {
        return Err(StepErr::Illegal);
    };
    if is_open(*round) || !some_has_more(slots) {
        return Err(StepErr::Illegal);
    }
    redo_slots(t.rest, slots)?;
    *round = Round::Later;
    Ok(())
}

/// The redone slot has answered: the waiting ones are ready.
pub fn restart(t: &mut Task) -> Result<(), StepErr>
    ensures { MatchResult result (λ _. begun_anew readied (task_view t.old) ≡ Some (task_view t.new)) (λ e. IsRefusal e (begun_anew readied (task_view t.old)) (task_view t.old) (task_view t.new)) }
{
    let Some(first) = &mut t.first else {
        return Err(StepErr::Illegal);
    };
    let Alternative::Frame { round, slots, .. } = first else {
        return Err(StepErr::Illegal);
    };
    if !is_open(*round) || !some_is_again(slots) {
        return Err(StepErr::Illegal);
    }
    ready_all(slots);
    Ok(())
}

/// The redone slot has answered: stored answers come again, and the other waiting slots are ready.
pub fn replay(alloc: Global, t: &mut Task) -> Result<(), StepErr>
    ensures { MatchResult result (λ _. begun_anew replayed (task_view t.old) ≡ Some (task_view t.new)) (λ e. IsRefusal e (begun_anew replayed (task_view t.old)) (task_view t.old) (task_view t.new)) }
{
    let Some(first) = &mut t.first else {
        return Err(StepErr::Illegal);
    };
    let Alternative::Frame { round, slots, .. } = first else {
        return Err(StepErr::Illegal);
    };
    if !is_open(*round) || !some_is_again(slots) {
        return Err(StepErr::Illegal);
    }
    replay_all(alloc, slots)?;
    Ok(())
}

/// An event of a task.
pub fn own(alloc: Global, rules: &Rules, kind: Kind, t: &mut Task) -> Result<(), StepErr>
    ensures { MatchResult result (λ _. own (rules_of rules.now) kind (task_view t.old) ≡ Some (task_view t.new)) (λ e. IsRefusal e (own (rules_of rules.now) kind (task_view t.old)) (task_view t.old) (task_view t.new)) }
{
    match kind {
        Kind::Infer => infer(alloc, &rules.program, t),
        Kind::Fork => fork(alloc, t),
        Kind::Join => join(alloc, &rules.loud, t),
        Kind::Break => break_frame(&rules.loud, t),
        Kind::Drain => drain(&rules.loud, t),
        Kind::Redo => redo(t),
        Kind::Restart => restart(t),
        Kind::Replay => replay(alloc, t),
        _ => Err(StepErr::Illegal),
    }
}
