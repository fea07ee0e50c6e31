//! Worked states, whose results were found by hand from the rules of the analysis.

ghost use Rattle.std.specs.Prelude.{IsTrue};
ghost use Rattle.ap_term.specs.TermView.{tree_of};
ghost use Rattle.ap_term.specs.WellFormed.{numbered};

use crate::building::{Arg, Told, digits, goal_of, is_told, state_of};
use Arg::{F, I, V};
use ap_absunify::{State, after_builtin, ground};
use ap_term::{Atom, Body, Term, fixed, is_clause};
use std::alloc::Global;
use std::test::Fail;

fn after(alloc: Global, told: Told, relation: u32, left: Arg, right: Arg) -> Result<State, Fail> {
    let goal = goal_of(alloc, relation, &[left, right])?;
    if !is_clause(&goal, &Body::new(alloc), 255, 1) {
        return Err(Fail::new("no goal"));
    }
    Ok(after_builtin(alloc, state_of(alloc, told)?, &goal)?)
}

/// A state, a goal, and the state after it.
type Row = (Told, u32, Arg, Arg, Told);

const ROWS: [Row; 9] = [
    // three free variables, one of which becomes a structure of the others
    (
        Told(&[1, 2, 3], 0, 123),
        fixed::UNIFY,
        V(1),
        F(2, 3),
        Told(&[12, 13], 0, 23),
    ),
    // then these become one
    (
        Told(&[12, 13], 0, 23),
        fixed::UNIFY,
        V(2),
        V(3),
        Told(&[123], 0, 23),
    ),
    // no side is free: all unions
    (
        Told(&[1, 2, 3], 0, 0),
        fixed::UNIFY,
        V(1),
        F(2, 3),
        Told(&[12, 13, 123], 0, 0),
    ),
    // a term without variables grounds the other side, which is free no more
    (
        Told(&[1, 2], 0, 12),
        fixed::UNIFY,
        I(7),
        V(1),
        Told(&[2], 0, 2),
    ),
    // what meets `any` comes to it
    (
        Told(&[3, 4], 12, 34),
        fixed::UNIFY,
        V(1),
        V(3),
        Told(&[4], 123, 4),
    ),
    // compounds come apart
    (
        Told(&[1, 2, 3, 4], 0, 1234),
        fixed::UNIFY,
        F(1, 2),
        F(3, 4),
        Told(&[13, 24], 0, 1234),
    ),
    // both sides of `is` are ground, and so are those of a comparison
    (
        Told(&[1, 2, 12, 13, 4], 0, 34),
        fixed::IS,
        V(1),
        V(2),
        Told(&[4], 0, 4),
    ),
    (
        Told(&[1, 2, 3], 0, 123),
        fixed::LESS,
        V(1),
        V(2),
        Told(&[3], 0, 3),
    ),
    // a goal that binds nothing changes nothing
    (
        Told(&[1, 12], 0, 2),
        fixed::SAME,
        V(1),
        V(2),
        Told(&[1, 12], 0, 2),
    ),
];

fn is_changed(alloc: Global, row: &Row) -> Result<bool, Fail> {
    let (told, relation, left, right, wanted) = row;
    let found = after(alloc, *told, *relation, *left, *right)?;
    Ok(is_told(&found, *wanted))
}

#[test]
fn goals_change_states(rt: HostRuntime) -> Result<(), Fail> {
    for row in &ROWS {
        assert!(rt; is_changed(rt.alloc(), row)?, "at {}", row.1);
    }
    Ok(())
}

/// `f(X, Y) = 3`.
fn clashes(alloc: Global) -> Result<bool, Fail> {
    let s = after(alloc, Told(&[1, 2], 0, 12), fixed::UNIFY, F(1, 2), I(3))?;
    Ok(matches!(s, State::Unreachable))
}

fn fails(alloc: Global) -> Result<bool, Fail> {
    let s = state_of(alloc, Told(&[1], 0, 1))?;
    let s = after_builtin(alloc, s, &Term::Atom(Atom::at(fixed::FAIL)))?;
    Ok(matches!(s, State::Unreachable))
}

#[test]
fn clashes_are_not_reached(rt: HostRuntime) -> Result<(), Fail> {
    assert!(rt; clashes(rt.alloc())?);
    assert!(rt; fails(rt.alloc())?);
    Ok(())
}

/// Whether a state with the variables of some digits ground is what is wanted.
fn is_grounded(alloc: Global, told: Told, v: u64, wanted: Told) -> Result<bool, Fail> {
    let s = ground(state_of(alloc, told)?, &digits(v))?;
    Ok(is_told(&s, wanted))
}

#[test]
fn a_ground_variable_grounds_its_sharers(rt: HostRuntime) -> Result<(), Fail> {
    let alloc = rt.alloc();
    assert!(rt; is_grounded(alloc, Told(&[123], 0, 23), 2, Told(&[], 0, 0))?);
    assert!(rt; is_grounded(alloc, Told(&[1, 2, 12], 0, 12), 1, Told(&[2], 0, 0))?);
    Ok(())
}
