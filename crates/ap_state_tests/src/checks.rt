//! Conditions that were found by hand from the rules.

ghost use Rattle.std.specs.Prelude.{IsTrue};
ghost use Rattle.ap_term.specs.TermView.{tree_of, trees_of};
ghost use Rattle.ap_term.specs.WellFormed.{numbered_all};

use crate::building::{Told, state_of};
use ap_absunify::State;
use ap_conditions::{Simplified, full, simplify};
use ap_term::{Args, Atom, Body, Check, Checks, Term, is_clause};
use std::alloc::Global;
use std::test::Fail;

fn goal(alloc: Global, variables: &[u64]) -> Result<Term, Fail> {
    let mut args = Args::new(alloc);
    for x in variables {
        args.push(Term::Var(*x))?;
    }
    Ok(Term::Node(Atom::at(1), args))
}

/// A term over goals that have these variables.
fn group(alloc: Global, goals: &[&[u64]]) -> Result<Term, Fail> {
    let mut args = Args::new(alloc);
    for variables in goals {
        args.push(goal(alloc, variables)?)?;
    }
    Ok(Term::Node(Atom::at(2), args))
}

/// The full condition of goals that have these variables.
fn condition(alloc: Global, goals: &[&[u64]]) -> Result<Checks, Fail> {
    let group = group(alloc, goals)?;
    if !is_clause(&group, &Body::new(alloc), 255, 1) {
        return Err(Fail::new("no goals"));
    }
    match &group {
        Term::Node(_, goals) => Ok(full(alloc, goals.as_slice())?),
        _ => Err(Fail::new("no goals")),
    }
}

fn is_kept(found: &Simplified, wanted: &[Check]) -> bool {
    match found {
        Simplified::Keep(checks) => checks.as_slice() == wanted,
        Simplified::NeverTrue => false,
    }
}

/// cp(t(L,R),t(A,B)) :- cp(L,A) & cp(R,B); then a shared variable; then three goals; then two shared ones and 255.
const CONDITIONS: [(&[&[u64]], &[Check]); 5] = [
    (
        &[&[1, 3], &[2, 4]],
        &[
            Check::Indep(1, 2),
            Check::Indep(1, 4),
            Check::Indep(2, 3),
            Check::Indep(3, 4),
        ],
    ),
    (&[&[3, 2], &[2, 1]], &[Check::Ground(2), Check::Indep(1, 3)]),
    (
        &[&[3], &[1], &[2]],
        &[Check::Indep(1, 2), Check::Indep(1, 3), Check::Indep(2, 3)],
    ),
    (
        &[&[255, 1], &[1, 255, 7]],
        &[Check::Ground(1), Check::Ground(255)],
    ),
    (&[&[1, 2]], &[]),
];

fn is_condition(alloc: Global, goals: &[&[u64]], wanted: &[Check]) -> Result<bool, Fail> {
    Ok(condition(alloc, goals)?.as_slice() == wanted)
}

#[test]
fn conditions_in_order(rt: HostRuntime) -> Result<(), Fail> {
    for (goals, wanted) in &CONDITIONS {
        assert!(rt; is_condition(rt.alloc(), goals, wanted)?);
    }
    Ok(())
}

/// The checks of the first group above.
const ALL: &[Check] = &[
    Check::Indep(1, 2),
    Check::Indep(1, 4),
    Check::Indep(2, 3),
    Check::Indep(3, 4),
];

/// States that share nothing, something and all, and which of these checks they leave.
const LEFT: [(Told, &[Check]); 3] = [
    (Told(&[1, 2, 3, 4], 0, 0), &[]),
    (
        Told(&[12, 3, 4], 23, 0),
        &[Check::Indep(1, 2), Check::Indep(2, 3)],
    ),
    (Told(&[], 1234, 0), ALL),
];

/// Whether a state leaves these checks of some.
fn is_left(alloc: Global, checks: &[Check], told: Told, wanted: &[Check]) -> Result<bool, Fail> {
    let found = simplify(alloc, checks, &state_of(alloc, told)?)?;
    Ok(is_kept(&found, wanted))
}

#[test]
fn states_drop_checks(rt: HostRuntime) -> Result<(), Fail> {
    for (told, wanted) in &LEFT {
        assert!(rt; is_left(rt.alloc(), ALL, *told, wanted)?);
    }
    let never = simplify(rt.alloc(), ALL, &State::Unreachable)?;
    assert!(rt; is_kept(&never, &[]));
    Ok(())
}

const BOTH: &[Check] = &[Check::Indep(1, 2), Check::Ground(1)];

fn is_never_true(alloc: Global, told: Told) -> Result<bool, Fail> {
    let found = simplify(alloc, BOTH, &state_of(alloc, told)?)?;
    Ok(matches!(found, Simplified::NeverTrue))
}

/// `ground` of a free variable never holds, of a bound one it may, and of a ground one it does.
#[test]
fn ground_of_a_free_variable(rt: HostRuntime) -> Result<(), Fail> {
    let alloc = rt.alloc();
    assert!(rt; is_never_true(alloc, Told(&[1], 0, 1))?);
    assert!(rt; is_left(alloc, BOTH, Told(&[1], 0, 0), &[Check::Ground(1)])?);
    assert!(rt; is_left(alloc, BOTH, Told(&[2], 0, 2), &[])?);
    Ok(())
}
