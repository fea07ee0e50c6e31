//! The conditions of the core's events, on the tasks of the code.

ghost use Rattle.std.specs.Prelude.{◌≡◌, ℕ, ◌+◌, ◌-◌, ◌<◌, ◌≤◌, [], ◌∷◌, map, IfOk, MatchOption, not, ◌&&◌, Some, if◌then◌else◌};
ghost use Rattle.ap_term.specs.TermView.{tree_of, trees_of};
ghost use Rattle.ap_spec.specs.States.{state_of};
ghost use Rattle.ap_core.specs.Tasks.{Slots, slot};
ghost use Rattle.ap_core.specs.TaskView.{task_view, progress_view, slots_view, slot_view};
ghost use Rattle.ap_core.specs.Conditions.{has_goals, is_done, fault_at, check_holds, is_running, is_open, is_failed, is_exhausted, spent_by, stopped_cost, has_failed, some_failed, has_answer, all_answered, may_go_on, some_runs, has_more, some_has_more, is_again, some_is_again, left_edge, leftmost, before_failed, place_to_drain, unfailed, first_verdict, later_verdict, verdict, charged, breaks, drains, are_apart};
ghost use Rattle.ap_core.specs.Relation.{has_spent, met};
ghost use Rattle.ap_core.specs.Telling.{told};
ghost use Rattle.ap_core.specs.VerdictView.{verdict_of, left_test, PrefixCost};
ghost use Rattle.ap_term.specs.Vars.{has};
ghost use Rattle.std.specs.List.{list_all};

use crate::loud::Loud;
use crate::tasks::{Alternative, Busy, Progress, Round, Slot, Task};
use ap_spec::State;
use ap_term::{Check, Fault, NoMemory, Term, add_vars, vars};
use std::alloc::Global;

/// A goal is left.
pub fn has_goals(s: &State) -> bool
    ensures { result ≡ has_goals (state_of s.now) }
{
    !s.goals.as_slice().is_empty()
}

/// No goal is left, and no fault was met.
pub fn is_done(s: &State) -> bool
    ensures { result ≡ is_done (state_of s.now) }
{
    s.goals.as_slice().is_empty() && s.fault.is_none()
}

fn fault_at(s: &State) -> Option<Fault>
    ensures { result ≡ fault_at (state_of s.now) }
{
    if s.goals.as_slice().is_empty() {
        return s.fault;
    }
    None
}

/// Whether a check holds that stands on variables of a state.
pub fn check_holds(check: &Check) -> bool
    ensures { result ≡ check_holds check.now }
{
    match check {
        Check::Ground(_) => false,
        Check::Indep(x, y) => *x != *y,
    }
}

pub fn is_open(round: Round) -> bool
    ensures { result ≡ is_open round }
{
    matches!(round, Round::First | Round::Later)
}

pub fn is_running(standing: Busy) -> bool
    ensures { result ≡ is_running standing }
{
    matches!(standing, Busy::Running | Busy::Stopping)
}

pub fn is_exhausted(t: &Task) -> bool
    ensures { result ≡ is_exhausted (task_view t.now) }
{
    t.first.is_none()
}

fn has_failed(x: &Slot) -> bool
    ensures { result ≡ has_failed (slot_view x.now).2 }
{
    match &x.progress {
        Progress::Begun(standing, _)
        | Progress::Redone { standing, .. }
        | Progress::Drained { standing, .. } => matches!(standing, Busy::Failed),
        _ => false,
    }
}

#[tactic(auto, using(crate::proofs::Views::slot_rows))]
pub fn some_failed(slots: &[Slot]) -> bool
    ensures { result ≡ some_failed (slots_view slots.now) }
{
    for x in slots {
        if has_failed(x) {
            return true;
        }
    }
    false
}

fn has_answer(x: &Slot) -> bool
    ensures { result ≡ has_answer (slot_view x.now).2 }
{
    matches!(
        &x.progress,
        Progress::Answered { .. } | Progress::Again { .. }
    )
}

#[tactic(auto, using(crate::proofs::Views::slot_rows))]
pub fn all_answered(slots: &[Slot]) -> bool
    ensures { result ≡ all_answered (slots_view slots.now) }
{
    for x in slots {
        if !has_answer(x) {
            return false;
        }
    }
    true
}

fn may_go_on(x: &Slot) -> bool
    ensures { result ≡ may_go_on (slot_view x.now).2 }
{
    match &x.progress {
        Progress::Begun(standing, _)
        | Progress::Redone { standing, .. }
        | Progress::Drained { standing, .. } => is_running(*standing),
        _ => false,
    }
}

#[tactic(auto, using(crate::proofs::Views::slot_rows))]
pub fn some_runs(slots: &[Slot]) -> bool
    ensures { result ≡ some_runs (slots_view slots.now) }
{
    for x in slots {
        if may_go_on(x) {
            return true;
        }
    }
    false
}

pub fn has_more(x: &Slot) -> bool
    ensures { result ≡ has_more (slot_view x.now).2 }
{
    match &x.progress {
        Progress::Answered { task, .. } | Progress::Again { task, .. } => !is_exhausted(task),
        _ => false,
    }
}

#[tactic(auto, using(crate::proofs::Views::slot_rows))]
pub fn some_has_more(slots: &[Slot]) -> bool
    ensures { result ≡ some_has_more (slots_view slots.now) }
{
    for x in slots {
        if has_more(x) {
            return true;
        }
    }
    false
}

fn is_again(x: &Slot) -> bool
    ensures { result ≡ is_again (slot_view x.now).2 }
{
    matches!(&x.progress, Progress::Again { .. })
}

#[tactic(auto, using(crate::proofs::Views::slot_rows))]
pub fn some_is_again(slots: &[Slot]) -> bool
    ensures { result ≡ some_is_again (slots_view slots.now) }
{
    for x in slots {
        if is_again(x) {
            return true;
        }
    }
    false
}

/// What a goal without an answer has spent since the round's beginning.
fn stopped_cost(rest: u64, before: u64, standing: Busy, t: &Task) -> u64
    ensures { result ≡ stopped_cost rest before standing (task_view t.now) }
{
    match standing {
        Busy::Running | Busy::Stopping => 0,
        Busy::Failed | Busy::Stopped | Busy::Raised(_) => t.spent.saturating_sub(before),
        Busy::Spent => rest,
    }
}

/// What a slot adds to the left edge where that is at most `room`, and whether the slots right of it do, too.
fn prefix_cost(room: u64, rest: u64, x: &Slot) -> (Option<u64>, bool)
    ensures { PrefixCost room rest (slot_view x.now) result }
{
    match &x.progress {
        Progress::Unbegun(_) | Progress::Stored { .. } => (Some(0), false),
        Progress::Begun(standing, task) => (Some(stopped_cost(rest, 0, *standing, task)), false),
        Progress::Redone {
            standing,
            task,
            before,
            ..
        } => (Some(stopped_cost(rest, *before, *standing, task)), false),
        Progress::Answered { cost, .. } | Progress::Again { cost, .. } => (Some(*cost), true),
        Progress::Drained {
            standing,
            task,
            before,
            cost,
            ..
        } => {
            if *cost > room {
                return (None, false);
            }
            let spent = stopped_cost(room - *cost, *before, *standing, task);
            (cost.checked_add(spent), false)
        }
    }
}

/// The left edge; none where that is above the rest.
#[tactic(auto, using(crate::proofs::Edges::edge_rows))]
pub fn left_edge(rest: u64, slots: &[Slot]) -> Option<u64>
    ensures { MatchOption result (rest < left_edge rest 0 (slots_view slots.now)) (λ e. (e ≡ left_edge rest 0 (slots_view slots.now)) × (e ≤ rest)) }
{
    let mut total = 0;
    for x in slots {
        let (cost, goes_on) = prefix_cost(rest - total, rest, x);
        let Some(cost) = cost else {
            return None;
        };
        if cost > rest - total {
            return None;
        }
        total += cost;
        if !goes_on {
            return Some(total);
        }
    }
    Some(total)
}

/// How the leftmost slot without an answer stands, where it has a task.
#[tactic(auto, using(crate::proofs::Views::slot_rows))]
fn leftmost(slots: &[Slot]) -> Option<Busy>
    ensures { result ≡ leftmost (slots_view slots.now) }
{
    for x in slots {
        match &x.progress {
            Progress::Answered { .. } | Progress::Again { .. } => {}
            Progress::Begun(standing, _)
            | Progress::Redone { standing, .. }
            | Progress::Drained { standing, .. } => return Some(*standing),
            Progress::Unbegun(_) | Progress::Stored { .. } => return None,
        }
    }
    None
}

/// What may hold of each slot left of a failed one.
#[derive(Debug, Clone, Copy, PartialEq, Eq)]
pub enum Left {
    /// It can meet no fault.
    Quiet,
    /// It has an answer, and no alternative in which it may meet a fault.
    Settled,
    Answered,
}

fn passes(test: Left, loud: &Loud, x: &Slot) -> bool
    ensures { result ≡ left_test test (told loud.now) (slot_view x.now).0 (slot_view x.now).2 }
{
    match test {
        Left::Quiet => !loud.tells(&x.goal),
        Left::Settled => has_answer(x) && !(loud.tells(&x.goal) && has_more(x)),
        Left::Answered => has_answer(x),
    }
}

/// Some slot has failed, and the test holds of each one left of the leftmost such.
#[tactic(auto, using(crate::proofs::Views::slot_rows))]
fn before_failed(test: Left, loud: &Loud, slots: &[Slot]) -> bool
    ensures { result ≡ before_failed (left_test test (told loud.now)) (slots_view slots.now) }
{
    for x in slots {
        if has_failed(x) {
            return true;
        }
        if !passes(test, loud, x) {
            return false;
        }
    }
    false
}

/// The slot may meet a fault, and has an alternative.
fn is_drainable(loud: &Loud, x: &Slot) -> bool
    ensures { result ≡ (told loud.now (slot_view x.now).0 && has_more (slot_view x.now).2) }
{
    loud.tells(&x.goal) && has_more(x)
}

fn later_place(is_later: bool, later: usize, place: Option<usize>) -> Option<usize>
    ensures { result ≡ (if is_later then Some later else place) }
{
    if is_later { Some(later) } else { place }
}

/// The place, from 1, of the rightmost slot left of the failed one that may meet a fault and has an alternative.
#[tactic(auto, using(crate::proofs::Edges::drain_rows))]
fn place_to_drain(loud: &Loud, slots: &[Slot]) -> Option<usize>
    ensures { result ≡ place_to_drain (told loud.now) (slots_view slots.now) }
{
    let mut place = None;
    let mut i = 0;
    for x in slots {
        if has_failed(x) {
            return place;
        }
        i += 1;
        place = later_place(is_drainable(loud, x), i, place);
    }
    place
}

/// How an open frame stands.
#[derive(Debug, Clone, Copy, PartialEq, Eq)]
pub enum Verdict {
    Wait,
    /// Each goal has an answer: what is charged.
    Joined(u64),
    /// A goal has failed: what is charged.
    Broken(u64),
    /// The goal in that place, from 1, runs on with so much, since it may meet a fault.
    Drain(usize, u64),
    /// A goal has met a fault: what is charged.
    Raised(u64, Fault),
    Spent,
}

fn judge_unfailed(rest: u64, slots: &[Slot]) -> Verdict
    ensures { verdict_of result ≡ unfailed rest (left_edge rest 0 (slots_view slots.now)) (slots_view slots.now) }
{
    if all_answered(slots) {
        return match left_edge(rest, slots) {
            Some(charge) => Verdict::Joined(charge),
            None => Verdict::Spent,
        };
    }
    match leftmost(slots) {
        Some(Busy::Raised(fault)) => match left_edge(rest, slots) {
            Some(charge) => Verdict::Raised(charge, fault),
            None => Verdict::Spent,
        },
        Some(Busy::Spent) => Verdict::Spent,
        _ => Verdict::Wait,
    }
}

fn judge_broken(rest: u64, slots: &[Slot]) -> Verdict
    ensures { verdict_of result ≡ charged rest (left_edge rest 0 (slots_view slots.now)) (breaks (left_edge rest 0 (slots_view slots.now))) }
{
    match left_edge(rest, slots) {
        Some(charge) => Verdict::Broken(charge),
        None => Verdict::Spent,
    }
}

fn judge_drained(place: usize, rest: u64, slots: &[Slot]) -> Verdict
    ensures { verdict_of result ≡ charged rest (left_edge rest 0 (slots_view slots.now)) (drains place (rest - left_edge rest 0 (slots_view slots.now))) }
{
    match left_edge(rest, slots) {
        Some(charge) => Verdict::Drain(place, rest - charge),
        None => Verdict::Spent,
    }
}

fn judge_first(loud: &Loud, rest: u64, slots: &[Slot]) -> Verdict
    ensures { verdict_of result ≡ first_verdict (told loud.now) rest (left_edge rest 0 (slots_view slots.now)) (slots_view slots.now) }
{
    if before_failed(Left::Quiet, loud, slots) || before_failed(Left::Settled, loud, slots) {
        return judge_broken(rest, slots);
    }
    if before_failed(Left::Answered, loud, slots) {
        if let Some(place) = place_to_drain(loud, slots) {
            return judge_drained(place, rest, slots);
        }
    }
    judge_unfailed(rest, slots)
}

fn judge_later(rest: u64, slots: &[Slot]) -> Verdict
    ensures { verdict_of result ≡ later_verdict rest (left_edge rest 0 (slots_view slots.now)) (slots_view slots.now) }
{
    if some_failed(slots) {
        return judge_broken(rest, slots);
    }
    judge_unfailed(rest, slots)
}

/// How an open frame stands, of a task with that rest.
pub fn judge(loud: &Loud, round: Round, rest: u64, slots: &[Slot]) -> Verdict
    ensures { verdict_of result ≡ verdict (told loud.now) round rest (slots_view slots.now) }
{
    match round {
        Round::First => judge_first(loud, rest, slots),
        Round::Later => judge_later(rest, slots),
        Round::Closed => Verdict::Wait,
    }
}

/// Whether the terms share no variable, two by two.
#[tactic(auto, using(ap_term::proofs::TermLists::arguments))]
pub fn are_apart(alloc: Global, terms: &[Term]) -> Result<bool, NoMemory>
    ensures { IfOk result (λ b. b ≡ are_apart (trees_of terms.now)) }
{
    let mut seen = Vec::new(alloc);
    for t in terms {
        if !has_none_of(&seen, &vars(alloc, t)?) {
            return Ok(false);
        }
        add_vars(t, &mut seen)?;
    }
    Ok(true)
}

fn has_none_of(seen: &[u64], xs: &[u64]) -> bool
    ensures { result ≡ list_all (λ x. not (has seen.now x)) xs.now }
{
    xs.iter().all(|x| !seen.contains(x))
}

/// Whether each check holds that stands on variables of a state.
pub fn all_hold(checks: &[Check]) -> bool
    ensures { result ≡ list_all check_holds checks.now }
{
    checks.iter().all(|check| check_holds(check))
}

/// The budget of a task is spent: nothing is left and a call is due, or its open frame's verdict says so.
pub fn has_spent(loud: &Loud, t: &Task) -> bool
    ensures { result ≡ has_spent (told loud.now) (task_view t.now) }
{
    match &t.first {
        None => false,
        Some(Alternative::State(s)) => has_goals(s) && t.rest == 0,
        Some(Alternative::Frame { round, slots, .. }) => {
            matches!(judge(loud, *round, t.rest, slots), Verdict::Spent)
        }
    }
}

/// The fault that a task has met, if it has.
pub fn met(loud: &Loud, t: &Task) -> Option<Fault>
    ensures { result ≡ met (told loud.now) (task_view t.now) }
{
    match &t.first {
        None => None,
        Some(Alternative::State(s)) => fault_at(s),
        Some(Alternative::Frame { round, slots, .. }) => match judge(loud, *round, t.rest, slots) {
            Verdict::Raised(_, fault) => Some(fault),
            _ => None,
        },
    }
}
