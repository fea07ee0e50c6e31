//! Worked patterns, whose results were found by hand: the comment above each row says by which rule.

ghost use Rattle.std.specs.Prelude.{◌≡◌, ◌+◌, ◌≤◌, IsTrue, length};
ghost use Rattle.ap_term.specs.Tree.{count_trees};
ghost use Rattle.ap_term.specs.TermView.{tree_of};
ghost use Rattle.ap_term.specs.WellFormed.{callable, numbered};
ghost use Rattle.ap_patterns.specs.Places.{arguments};

use crate::building::{Arg, Told, goal_of, is_told, state_of};
use Arg::{F, I, V};
use ap_absunify::State;
use ap_patterns::{Entry, Mark, Pattern, Predicate, after_call, call_pattern, enter};
use ap_term::{Body, Term, is_clause};
use std::alloc::Global;
use std::test::Fail;

const NAME: u32 = 1001;

fn called(alloc: Global, told: Told, args: &[Arg]) -> Result<State, Fail> {
    let goal = goal_of(alloc, NAME, args)?;
    if !is_clause(&goal, &Body::new(alloc), 255, 1) {
        return Err(Fail::new("no goal"));
    }
    Ok(call_pattern(alloc, &state_of(alloc, told)?, &goal)?)
}

/// How many arguments a head has.
fn arity(head: &Term) -> u64
    ensures { result ≡ count_trees (arguments (tree_of head.now)) }
{
    match head {
        Term::Node(_, args) => args.len() as u64,
        _ => 0,
    }
}

fn entered(alloc: Global, n: u64, told: Told, args: &[Arg]) -> Result<State, Fail> {
    let head = goal_of(alloc, NAME, args)?;
    let pattern = state_of(alloc, told)?;
    if n > 255 || arity(&head) > 255 - n || !is_clause(&head, &Body::new(alloc), n, 1) {
        return Err(Fail::new("no head"));
    }
    Ok(enter(alloc, n, &head, &pattern)?)
}

/// The state after an answer of a goal, where the pattern of its answers is that.
fn behind(alloc: Global, s: State, args: &[Arg], success: &Pattern) -> Result<State, Fail> {
    let goal = goal_of(alloc, NAME, args)?;
    if !is_clause(&goal, &Body::new(alloc), 255, 1) {
        return Err(Fail::new("no goal"));
    }
    Ok(after_call(alloc, s, &goal, success)?)
}

fn returned(alloc: Global, told: Told, args: &[Arg], success: Told) -> Result<State, Fail> {
    let success = state_of(alloc, success)?;
    behind(alloc, state_of(alloc, told)?, args, &success)
}

/// A state, a call, and the pattern of its places.
type Called = (Told, &'static [Arg], Told);

const CALLED: [Called; 4] = [
    // 1 is at place 1, 2 and 3 at place 2, which is a structure and so not free, and 4 at place 3
    (
        Told(&[1, 12, 3], 4, 13),
        &[V(1), F(2, 3), V(4)],
        Told(&[1, 12, 2], 3, 1),
    ),
    // 1 stands in no argument, and 4 has no variable
    (Told(&[1, 23], 0, 1), &[V(2), V(4)], Told(&[1], 0, 0)),
    // one free variable at two places
    (Told(&[1], 0, 1), &[V(1), V(1)], Told(&[12], 0, 12)),
    // a set of places within `any` is dropped
    (Told(&[12], 3, 0), &[F(1, 3)], Told(&[], 1, 0)),
];

#[test]
fn calls_are_told_by_places(rt: HostRuntime) -> Result<(), Fail> {
    for (told, args, wanted) in &CALLED {
        let found = called(rt.alloc(), *told, args)?;
        assert!(rt; is_told(&found, *wanted), "sets {:?}", told.0);
    }
    Ok(())
}

/// The number of variables of a clause, a pattern, its head, and the state in which it is entered.
type Entered = (u64, Told, &'static [Arg], Told);

const ENTERED: [Entered; 6] = [
    // a free place and a free variable become one
    (2, Told(&[1, 2], 0, 12), &[V(1), V(2)], Told(&[1, 2], 0, 12)),
    // first the sets {2} and {1} become {1,2}, and that and {3} become {1,2,3}
    (1, Told(&[1, 2], 0, 12), &[V(1), V(1)], Told(&[1], 0, 1)),
    // the place is free: {3} with {1} and with {2}, and these stay free
    (2, Told(&[1], 0, 1), &[F(1, 2)], Told(&[1, 2], 0, 12)),
    // the place isn't: {3} with all unions of {1} and {2}, and nothing stays free
    (2, Told(&[1], 0, 0), &[F(1, 2)], Told(&[1, 2, 12], 0, 0)),
    // an integer grounds its place; the variable of the body is free
    (1, Told(&[1], 0, 1), &[I(7)], Told(&[1], 0, 1)),
    // `any` takes in what is unified with its places
    (2, Told(&[], 12, 0), &[V(1), V(2)], Told(&[], 12, 0)),
];

#[test]
fn clauses_are_entered(rt: HostRuntime) -> Result<(), Fail> {
    for (n, told, head, wanted) in &ENTERED {
        let found = entered(rt.alloc(), *n, *told, head)?;
        assert!(rt; is_told(&found, *wanted), "places {:?}", told.0);
    }
    Ok(())
}

/// A state, a goal, the pattern of its answers, and the state after one.
type Returned = (Told, &'static [Arg], Told, Told);

const RETURNED: [Returned; 6] = [
    // 1 is ground after it, so 2, which shared the set {1,2} with it before, may be too
    (
        Told(&[1, 2, 12], 0, 12),
        &[V(1)],
        Told(&[], 0, 0),
        Told(&[2], 0, 0),
    ),
    // of the unions {1}, {2} and {1,2} the success has the places of the last one alone
    (
        Told(&[1, 2, 3], 0, 123),
        &[V(1), V(2)],
        Told(&[12], 0, 12),
        Told(&[12, 3], 0, 123),
    ),
    // `any` meets the goal: {2,3} comes to it, and 3, which shared that with 2, is free no more
    (
        Told(&[1, 23], 4, 13),
        &[V(4), V(2)],
        Told(&[1, 2], 0, 0),
        Told(&[1], 234, 1),
    ),
    // each subset of the success's `any` is a member of it
    (
        Told(&[1, 2], 0, 0),
        &[V(1), V(2)],
        Told(&[], 12, 0),
        Told(&[1, 2, 12], 0, 0),
    ),
    // the place isn't free in the success, so neither 1 nor 3, which shares with it, is
    (
        Told(&[1, 13, 2], 0, 123),
        &[V(1)],
        Told(&[1], 0, 0),
        Told(&[1, 13, 2], 0, 2),
    ),
    // what stands in a structure isn't told to be free; all unions of {1} and {2} have the place 1
    (
        Told(&[1, 2, 3], 0, 123),
        &[F(1, 2)],
        Told(&[1], 0, 0),
        Told(&[1, 2, 12, 3], 0, 3),
    ),
];

#[test]
fn answers_change_states(rt: HostRuntime) -> Result<(), Fail> {
    for (told, args, success, wanted) in &RETURNED {
        let found = returned(rt.alloc(), *told, args, *success)?;
        assert!(rt; is_told(&found, *wanted), "sets {:?}", told.0);
    }
    Ok(())
}

#[test]
fn what_does_not_succeed_has_no_answer(rt: HostRuntime) -> Result<(), Fail> {
    let s = state_of(rt.alloc(), Told(&[1], 0, 1))?;
    let s = behind(rt.alloc(), s, &[V(1)], &State::Unreachable)?;
    assert!(rt; matches!(s, State::Unreachable));
    Ok(())
}

/// The pattern of an entry with a ground argument, a free one, any one and a free one.
fn entry_pattern(alloc: Global) -> Result<Pattern, Fail> {
    let goal = goal_of(alloc, NAME, &[V(1), V(2), V(3), V(4)])?;
    let entry = Entry {
        predicate: Predicate::of(&goal).ok_or("a predicate")?,
        marks: vec![in alloc; Mark::Ground, Mark::Free, Mark::Any, Mark::Free]?,
    };
    if entry.marks.len() > 255 {
        return Err(Fail::new("too many marks"));
    }
    Ok(entry.pattern(alloc)?)
}

#[test]
fn entries_tell_patterns(rt: HostRuntime) -> Result<(), Fail> {
    // free places are alone, a ground one is in no set
    assert!(rt; is_told(&entry_pattern(rt.alloc())?, Told(&[2, 4], 3, 24)));
    Ok(())
}
