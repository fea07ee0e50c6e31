//! States and goals, as tests write them.

use ap_absunify::{State, made};
use ap_freeness::Free;
use ap_sharing::{Sets, Share, VarSet};
use ap_term::{Args, Atom, Term};
use std::alloc::Global;
use std::test::Fail;

/// A state: its sets, its `any` and its free variables, each set as the number of its digits.
#[derive(Clone, Copy)]
pub(crate) struct Told(pub(crate) &'static [u64], pub(crate) u64, pub(crate) u64);

/// A variable, an integer, or a compound of two variables.
#[derive(Clone, Copy)]
pub(crate) enum Arg {
    V(u64),
    I(i64),
    F(u64, u64),
}

pub(crate) fn set_of(numbers: &[u64]) -> VarSet {
    let mut set = VarSet::new();
    for x in numbers {
        if *x < 256 {
            set.insert(*x);
        }
    }
    set
}

/// The set of a number's digits.
pub(crate) fn digits(n: u64) -> VarSet {
    let mut set = VarSet::new();
    let mut left = n;
    for _i in 0..20 {
        if left > 0 {
            set.insert(left % 10);
            left /= 10;
        }
    }
    set
}

fn sets_of(alloc: Global, numbers: &[u64]) -> Result<Sets, Fail> {
    let mut sets = Sets::new(alloc);
    for s in numbers {
        sets.insert(digits(*s))?;
    }
    Ok(sets)
}

pub(crate) fn state_of(alloc: Global, told: Told) -> Result<State, Fail> {
    let share = Share::new(sets_of(alloc, told.0)?, digits(told.1));
    Ok(made(share, Free::new(digits(told.2))))
}

fn has_sets(sets: &Sets, numbers: &[u64]) -> bool {
    for s in numbers {
        if !sets.contains(digits(*s)) {
            return false;
        }
    }
    sets.len() == numbers.len()
}

pub(crate) fn is_told(s: &State, told: Told) -> bool {
    match s {
        State::Unreachable => false,
        State::Reachable { share, free } => {
            has_sets(share.sets(), told.0)
                && share.any() == digits(told.1)
                && free.vars() == digits(told.2)
        }
    }
}

fn term_of(alloc: Global, arg: Arg) -> Result<Term, Fail> {
    match arg {
        Arg::V(x) => Ok(Term::Var(x)),
        Arg::I(n) => Ok(Term::Int(n)),
        Arg::F(x, y) => {
            let mut args = Args::new(alloc);
            args.push(Term::Var(x))?;
            args.push(Term::Var(y))?;
            Ok(Term::Node(Atom::at(1000), args))
        }
    }
}

pub(crate) fn goal_of(alloc: Global, name: u32, args: &[Arg]) -> Result<Term, Fail> {
    let mut terms = Args::new(alloc);
    for arg in args {
        terms.push(term_of(alloc, *arg)?)?;
    }
    Ok(Term::Node(Atom::at(name), terms))
}
