//! Schedules of small programs against sequential search.

use crate::programs::searched;
use crate::reading::{new_atoms, program_of, query_of};
use Kind::{
    Answer, Break, Drain, Fail as Fails, Forget, Fork, Infer, Join, Raise, Redo, Replay, Restart,
    Spend, Start, Stop, Stopped,
};
use ap_core::{Core, Event, Kind, Path, StepErr};
use ap_term::{Args, Term};
use std::alloc::Global;
use std::test::Fail;

/// What is searched: a program and its query.
pub(crate) type Problem = (&'static str, &'static str);

pub(crate) const TWO_BY_TWO: Problem = (
    "q(X,Y) :- a(X) & b(Y). a(1). a(2). b(1). b(2).",
    "?- q(X,Y).",
);

pub(crate) const TWO_BY_NONE: Problem = ("q(X,Y) :- a(X) & b(Y). a(1). a(2).", "?- q(X,Y).");

const ONE_BY_ONE: Problem = ("q(X,Y) :- a(X) & b(Y). a(1). b(1).", "?- q(X,Y).");

pub(crate) const THREE: Problem = (
    "s(X,Y,Z) :- b(X) & q(Y,Z). q(Y,Z) :- b(Y) & b(Z). b(0). b(1).",
    "?- s(X,Y,Z).",
);

/// Its left goal calls arithmetic, by a predicate whose clause stands last.
pub(crate) const LOUD_BY_NONE: Problem = (
    "q(X,Y) :- a(X) & b(Y). a(1). a(X) :- c(X). c(X) :- X is 1 + 1.",
    "?- q(X,Y).",
);

/// A core before any event.
pub(crate) fn core_of(alloc: Global, problem: Problem, budget: u64) -> Result<Core, Fail> {
    let mut atoms = new_atoms(alloc)?;
    let program = program_of(alloc, problem.0, &mut atoms)?;
    let query = query_of(alloc, problem.1, &program, &mut atoms)?;
    Ok(Core::new(alloc, program, query, budget)?)
}

// The functions that a schedule calls say nothing of the core, so that their callers' proofs are short.

fn step(core: &mut Core, kind: Kind, path: Path) -> Result<(), StepErr> {
    core.step(Event { kind, path })
}

/// Whether an event is legal.
pub(crate) fn make(
    alloc: Global,
    core: &mut Core,
    kind: Kind,
    places: &[usize],
) -> Result<bool, Fail> {
    let path = Path::from_vec(Vec::from_slice(alloc, places)?);
    match step(core, kind, path) {
        Ok(()) => Ok(true),
        Err(StepErr::Illegal) => Ok(false),
        Err(StepErr::NoMemory) => Err(Fail::new("no memory")),
    }
}

fn is_tuple(tuple: &Args, wanted: &[i64]) -> bool {
    if tuple.len() != wanted.len() {
        return false;
    }
    for (t, n) in tuple.as_slice().iter().zip(wanted) {
        match t {
            Term::Int(m) if m == n => {}
            _ => return false,
        }
    }
    true
}

/// Whether tuples are the first ones of some answers.
fn is_front(tuples: &[Args], answers: &[&[i64]]) -> bool {
    for (tuple, want) in tuples.iter().zip(answers) {
        if !is_tuple(tuple, want) {
            return false;
        }
    }
    tuples.len() <= answers.len()
}

/// Whether a core has emitted so many answers, the first ones of these.
fn has_emitted(core: &Core, count: usize, answers: &[&[i64]]) -> bool {
    core.emitted().len() == count && is_front(core.emitted(), answers)
}

/// Events of two goals, each legal or not as its row says.
const ROUNDS: [(Kind, &[usize], bool); 27] = [
    (Infer, &[], true),
    (Fork, &[], true),
    (Forget, &[2], true),
    (Start, &[2], true),
    (Start, &[2], false),
    (Start, &[1], true),
    (Infer, &[2], true),
    (Answer, &[2], true),
    (Join, &[], false),
    (Infer, &[1], true),
    (Answer, &[1], true),
    (Join, &[], true),
    (Answer, &[], true),
    (Redo, &[], true),
    (Answer, &[2], true),
    (Join, &[], true),
    (Answer, &[], true),
    (Redo, &[], true),
    (Answer, &[1], true),
    (Join, &[], false),
    (Start, &[2], false),
    (Restart, &[], true),
    (Start, &[2], true),
    (Infer, &[2], true),
    (Answer, &[2], true),
    (Join, &[], true),
    (Answer, &[], true),
];

/// The answers of two goals with the facts 1 and 2.
const PAIRS: &[&[i64]] = &[&[1, 1], &[1, 2], &[2, 1], &[2, 2]];

/// Whether each event is legal or not as its row says.
fn are_as_told(
    alloc: Global,
    core: &mut Core,
    rows: &[(Kind, &[usize], bool)],
) -> Result<bool, Fail> {
    for (kind, path, legal) in rows {
        if make(alloc, core, *kind, path)? != *legal {
            return Ok(false);
        }
    }
    Ok(true)
}

fn are_rounds(alloc: Global) -> Result<bool, Fail> {
    let mut core = core_of(alloc, TWO_BY_TWO, 100)?;
    Ok(are_as_told(alloc, &mut core, &ROUNDS)? && has_emitted(&core, 3, PAIRS))
}

#[test]
fn two_goals_answer_and_are_redone(rt: HostRuntime) -> Result<(), Fail> {
    assert!(rt; are_rounds(rt.alloc())?);
    Ok(())
}

/// The failed goal doesn't end its frame while the left one may still meet a fault.
const DRAINED: [(Kind, &[usize], bool); 16] = [
    (Infer, &[], true),
    (Fork, &[], true),
    (Start, &[1], true),
    (Start, &[2], true),
    (Infer, &[2], true),
    (Fails, &[2], true),
    (Infer, &[1], true),
    (Answer, &[1], true),
    (Break, &[], false),
    (Drain, &[], true),
    (Infer, &[1], true),
    (Infer, &[1], true),
    (Answer, &[1], true),
    (Fails, &[1], true),
    (Break, &[], true),
    (Fails, &[], true),
];

fn is_drained(alloc: Global) -> Result<bool, Fail> {
    let mut core = core_of(alloc, LOUD_BY_NONE, 100)?;
    Ok(are_as_told(alloc, &mut core, &DRAINED)? && has_emitted(&core, 0, &[]))
}

#[test]
fn a_goal_that_calls_arithmetic_is_drained(rt: HostRuntime) -> Result<(), Fail> {
    assert!(rt; is_drained(rt.alloc())?);
    Ok(())
}

type Row = (Kind, &'static [usize]);

/// Legal events of a search with a budget, how many answers they emit, and the sequential answers.
struct Schedule {
    problem: Problem,
    budget: u64,
    rows: &'static [Row],
    emitted: usize,
    wanted: &'static [&'static [i64]],
}

const KINDS: [Kind; 16] = [
    Infer, Fork, Start, Answer, Fails, Spend, Stop, Stopped, Join, Break, Redo, Restart, Raise,
    Drain, Forget, Replay,
];

const PATHS: [&[usize]; 10] = [
    &[],
    &[0],
    &[1],
    &[2],
    &[3],
    &[1, 1],
    &[2, 1],
    &[2, 2],
    &[2, 3],
    &[2, 1, 1],
];

fn are_legal(alloc: Global, core: &mut Core, rows: &[Row]) -> Result<bool, Fail> {
    for (kind, path) in rows {
        if !make(alloc, core, *kind, path)? {
            return Ok(false);
        }
    }
    Ok(true)
}

/// Tries an event behind the first ones of a schedule. A legal one leaves what was emitted the front of the sequential
/// answers; an illegal one leaves the core as it was, so that the schedule goes on from it.
fn is_kept(alloc: Global, schedule: &Schedule, at: usize, event: Row) -> Result<bool, Fail> {
    let mut core = core_of(alloc, schedule.problem, schedule.budget)?;
    let before = schedule.rows.get(..at).unwrap_or(&[]);
    if !are_legal(alloc, &mut core, before)? {
        return Ok(false);
    }
    if make(alloc, &mut core, event.0, event.1)? {
        return Ok(is_front(core.emitted(), schedule.wanted));
    }
    let behind = schedule.rows.get(at..).unwrap_or(&[]);
    let goes_on = are_legal(alloc, &mut core, behind)?;
    Ok(goes_on && has_emitted(&core, schedule.emitted, schedule.wanted))
}

/// Tries a kind of event on every path behind the first events of a schedule.
fn are_kept(alloc: Global, schedule: &Schedule, at: usize, kind: Kind) -> Result<bool, Fail> {
    for path in &PATHS {
        if !is_kept(alloc, schedule, at, (kind, *path))? {
            return Ok(false);
        }
    }
    Ok(true)
}

/// Tries every event behind the first ones of a schedule.
fn is_place_kept(alloc: Global, schedule: &Schedule, at: usize) -> Result<bool, Fail> {
    for kind in &KINDS {
        if !are_kept(alloc, schedule, at, *kind)? {
            return Ok(false);
        }
    }
    Ok(true)
}

/// Whether the sequential answers are those of sequential search.
fn is_found(alloc: Global, schedule: &Schedule) -> Result<bool, Fail> {
    let mut atoms = new_atoms(alloc)?;
    let program = program_of(alloc, schedule.problem.0, &mut atoms)?;
    let query = query_of(alloc, schedule.problem.1, &program, &mut atoms)?;
    let (_, found) = searched(alloc, &program, &query, 100)?;
    let answers = found.as_slice();
    Ok(answers.len() == schedule.wanted.len() && is_front(answers, schedule.wanted))
}

/// Whether a schedule is legal, and every event at each place of it keeps the order of the sequential answers.
fn is_well(alloc: Global, schedule: &Schedule) -> Result<bool, Fail> {
    for at in 0..schedule.rows.len().saturating_add(1) {
        if !is_place_kept(alloc, schedule, at)? {
            return Ok(false);
        }
    }
    is_found(alloc, schedule)
}

const ANY_ORDER: Schedule = Schedule {
    problem: TWO_BY_TWO,
    budget: 100,
    rows: &[
        (Infer, &[]),
        (Fork, &[]),
        (Forget, &[2]),
        (Start, &[2]),
        (Infer, &[2]),
        (Stopped, &[2]),
        (Start, &[1]),
        (Start, &[2]),
        (Infer, &[1]),
        (Stop, &[2]),
        (Infer, &[2]),
        (Answer, &[2]),
        (Answer, &[1]),
        (Join, &[]),
        (Answer, &[]),
        (Redo, &[]),
        (Answer, &[2]),
        (Join, &[]),
        (Answer, &[]),
        (Redo, &[]),
        (Answer, &[1]),
        (Restart, &[]),
        (Start, &[2]),
    ],
    emitted: 2,
    wanted: PAIRS,
};

#[test]
fn goals_in_any_order_keep_the_order(rt: HostRuntime) -> Result<(), Fail> {
    assert!(rt; is_well(rt.alloc(), &ANY_ORDER)?);
    Ok(())
}

const FAILED: Schedule = Schedule {
    problem: TWO_BY_NONE,
    budget: 100,
    rows: &[
        (Infer, &[]),
        (Fork, &[]),
        (Start, &[1]),
        (Start, &[2]),
        (Infer, &[2]),
        (Fails, &[2]),
        (Infer, &[1]),
        (Stop, &[1]),
        (Stopped, &[1]),
        (Break, &[]),
        (Fails, &[]),
    ],
    emitted: 0,
    wanted: &[],
};

#[test]
fn a_failed_goal_ends_its_frame(rt: HostRuntime) -> Result<(), Fail> {
    assert!(rt; is_well(rt.alloc(), &FAILED)?);
    Ok(())
}

const NO_CALLS: Schedule = Schedule {
    problem: ONE_BY_ONE,
    budget: 1,
    rows: &[
        (Infer, &[]),
        (Fork, &[]),
        (Start, &[1]),
        (Spend, &[1]),
        (Spend, &[]),
    ],
    emitted: 0,
    wanted: &[&[1, 1]],
};

#[test]
fn a_goal_without_calls_spends_the_budget(rt: HostRuntime) -> Result<(), Fail> {
    assert!(rt; is_well(rt.alloc(), &NO_CALLS)?);
    Ok(())
}

const ABOVE_THE_REST: Schedule = Schedule {
    problem: ONE_BY_ONE,
    budget: 2,
    rows: &[
        (Infer, &[]),
        (Fork, &[]),
        (Start, &[1]),
        (Start, &[2]),
        (Infer, &[1]),
        (Infer, &[2]),
        (Answer, &[1]),
        (Answer, &[2]),
        (Spend, &[]),
    ],
    emitted: 0,
    wanted: &[&[1, 1]],
};

#[test]
fn a_charge_above_the_rest_spends_the_budget(rt: HostRuntime) -> Result<(), Fail> {
    assert!(rt; is_well(rt.alloc(), &ABOVE_THE_REST)?);
    Ok(())
}

/// The answers of three goals with the facts 0 and 1.
const EIGHT: &[&[i64]] = &[
    &[0, 0, 0],
    &[0, 0, 1],
    &[0, 1, 0],
    &[0, 1, 1],
    &[1, 0, 0],
    &[1, 0, 1],
    &[1, 1, 0],
    &[1, 1, 1],
];

/// The inner group is given back once, answers four times and fails, and then the outer one's left goal is redone.
const NESTED: Schedule = Schedule {
    problem: THREE,
    budget: 100,
    rows: &[
        (Infer, &[]),
        (Fork, &[]),
        (Forget, &[2]),
        (Start, &[2]),
        (Infer, &[2]),
        (Fork, &[2]),
        (Start, &[2, 1]),
        (Stopped, &[2]),
        (Start, &[2]),
        (Infer, &[2]),
        (Fork, &[2]),
        (Forget, &[2, 2]),
        (Start, &[2, 2]),
        (Infer, &[2, 2]),
        (Answer, &[2, 2]),
        (Start, &[2, 1]),
        (Stopped, &[2, 1]),
        (Start, &[2, 1]),
        (Infer, &[2, 1]),
        (Answer, &[2, 1]),
        (Join, &[2]),
        (Answer, &[2]),
        (Start, &[1]),
        (Infer, &[1]),
        (Answer, &[1]),
        (Join, &[]),
        (Answer, &[]),
        (Redo, &[]),
        (Redo, &[2]),
        (Answer, &[2, 2]),
        (Join, &[2]),
        (Answer, &[2]),
        (Join, &[]),
        (Answer, &[]),
        (Redo, &[]),
        (Redo, &[2]),
        (Answer, &[2, 1]),
        (Restart, &[2]),
        (Start, &[2, 2]),
        (Infer, &[2, 2]),
        (Answer, &[2, 2]),
        (Join, &[2]),
        (Answer, &[2]),
        (Join, &[]),
        (Answer, &[]),
        (Redo, &[]),
        (Redo, &[2]),
        (Answer, &[2, 2]),
        (Join, &[2]),
        (Answer, &[2]),
        (Join, &[]),
        (Answer, &[]),
        (Redo, &[]),
        (Break, &[2]),
        (Fails, &[2]),
        (Break, &[]),
        (Redo, &[]),
        (Answer, &[1]),
        (Restart, &[]),
        (Start, &[2]),
        (Infer, &[2]),
        (Fork, &[2]),
        (Start, &[2, 1]),
        (Infer, &[2, 1]),
        (Answer, &[2, 1]),
        (Start, &[2, 2]),
        (Infer, &[2, 2]),
        (Answer, &[2, 2]),
        (Join, &[2]),
        (Answer, &[2]),
        (Join, &[]),
        (Answer, &[]),
    ],
    emitted: 5,
    wanted: EIGHT,
};

#[test]
fn a_group_inside_a_group_keeps_the_order(rt: HostRuntime) -> Result<(), Fail> {
    assert!(rt; is_well(rt.alloc(), &NESTED)?);
    Ok(())
}

/// Whether a schedule is legal and emits what it says.
fn is_made(alloc: Global, schedule: &Schedule) -> Result<bool, Fail> {
    let mut core = core_of(alloc, schedule.problem, schedule.budget)?;
    let legal = are_legal(alloc, &mut core, schedule.rows)?;
    Ok(legal && has_emitted(&core, schedule.emitted, schedule.wanted) && is_found(alloc, schedule)?)
}

/// The answers of the right goals come once by calls and then from what is stored.
const REPLAYED: Schedule = Schedule {
    problem: THREE,
    budget: 5,
    rows: &[
        (Infer, &[]),
        (Fork, &[]),
        (Start, &[1]),
        (Start, &[2]),
        (Infer, &[1]),
        (Answer, &[1]),
        (Infer, &[2]),
        (Fork, &[2]),
        (Start, &[2, 1]),
        (Start, &[2, 2]),
        (Infer, &[2, 1]),
        (Answer, &[2, 1]),
        (Infer, &[2, 2]),
        (Answer, &[2, 2]),
        (Join, &[2]),
        (Answer, &[2]),
        (Join, &[]),
        (Answer, &[]),
        (Redo, &[]),
        (Redo, &[2]),
        (Answer, &[2, 2]),
        (Join, &[2]),
        (Answer, &[2]),
        (Join, &[]),
        (Answer, &[]),
        (Redo, &[]),
        (Redo, &[2]),
        (Answer, &[2, 1]),
        (Replay, &[2]),
        (Join, &[2]),
        (Answer, &[2]),
        (Join, &[]),
        (Answer, &[]),
        (Redo, &[]),
        (Redo, &[2]),
        (Answer, &[2, 2]),
        (Join, &[2]),
        (Answer, &[2]),
        (Join, &[]),
        (Answer, &[]),
        (Redo, &[]),
        (Break, &[2]),
        (Fails, &[2]),
        (Break, &[]),
        (Redo, &[]),
        (Answer, &[1]),
        (Replay, &[]),
        (Join, &[]),
        (Answer, &[]),
        (Redo, &[]),
        (Answer, &[2]),
        (Join, &[]),
        (Answer, &[]),
        (Redo, &[]),
        (Answer, &[2]),
        (Join, &[]),
        (Answer, &[]),
        (Redo, &[]),
        (Answer, &[2]),
        (Join, &[]),
        (Answer, &[]),
        (Break, &[]),
        (Fails, &[]),
    ],
    emitted: 8,
    wanted: EIGHT,
};

/// With a call less the first answers of both goals are more than the budget.
const A_CALL_LESS: Schedule = Schedule {
    problem: THREE,
    budget: 4,
    rows: &[
        (Infer, &[]),
        (Fork, &[]),
        (Start, &[1]),
        (Start, &[2]),
        (Infer, &[1]),
        (Answer, &[1]),
        (Infer, &[2]),
        (Fork, &[2]),
        (Start, &[2, 1]),
        (Start, &[2, 2]),
        (Infer, &[2, 1]),
        (Answer, &[2, 1]),
        (Infer, &[2, 2]),
        (Answer, &[2, 2]),
        (Join, &[2]),
        (Answer, &[2]),
        (Spend, &[]),
    ],
    emitted: 0,
    wanted: EIGHT,
};

#[test]
fn stored_answers_come_again_at_no_cost(rt: HostRuntime) -> Result<(), Fail> {
    assert!(rt; is_made(rt.alloc(), &REPLAYED)?);
    assert!(rt; is_made(rt.alloc(), &A_CALL_LESS)?);
    Ok(())
}
