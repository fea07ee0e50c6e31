//! Worked programs, with the answers that the language's rules give.

ghost use Rattle.std.specs.Prelude.{◌≤◌, ◌^◌};

use crate::reading::{lines, new_atoms, program_of, query_of};
use ap_spec::{Tuples, answers_to_depth, identical, search, unify};
use ap_term::{Args, Atom, Atoms, Program, Query, Term, fixed, instance};
use std::alloc::Global;
use std::test::Fail;

// Both searches with what a test needs of them alone, so that the tests' own proofs are short.

pub(crate) fn searched(
    alloc: Global,
    p: &Program,
    q: &Query,
    budget: u64,
) -> Result<(bool, Tuples), Fail> {
    let found = search(alloc, p, q, budget.min(1000))?;
    Ok((found.ended, found.answers))
}

fn to_depth(alloc: Global, p: &Program, q: &Query, depth: u64) -> Result<Tuples, Fail> {
    Ok(answers_to_depth(alloc, p, q, depth.min(1000))?.tuples)
}

/// A program, a query, a budget, whether the search ends within it, and its answers.
type Worked = (&'static str, &'static str, u64, bool, &'static str);

const WORKED: [Worked; 13] = [
    ("p(1). p(2).", "?- p(X).", 100, true, "X = 1;X = 2;"),
    ("p(1). p(1).", "?- p(X).", 100, true, "X = 1;X = 1;"),
    ("", "?- X = f(X).", 100, true, ""),
    (
        "n(z). n(s(X)) :- n(X).",
        "?- n(X).",
        3,
        false,
        "X = z;X = s(z);X = s(s(z));",
    ),
    (
        "e(X, Y) :- X = f(Y).",
        "?- e(A, B).",
        100,
        true,
        "A = f(_1), B = _1;",
    ),
    ("t :- f & l. l :- l. f :- fail.", "?- t.", 3, true, ""),
    ("t :- f & l. l :- l. f :- fail.", "?- t.", 2, false, ""),
    ("p(X, f(X)).", "?- p(A, A).", 100, true, ""),
    ("", "?- X is 1 // 0.", 100, true, ""),
    (
        "",
        "?- X is 9223372036854775807 + 0.",
        100,
        true,
        "X = 9223372036854775807;",
    ),
    ("", "?- X is 9223372036854775807 + 1.", 100, true, ""),
    (
        "",
        "?- X = -9223372036854775808.",
        100,
        true,
        "X = -9223372036854775808;",
    ),
    (
        "",
        "?- X is -7 // 2, Y is -7 mod 2, Z is -7 rem 2.",
        100,
        true,
        "X = -3, Y = 1, Z = -1;",
    ),
];

/// Whether a search finds these answers, and ends or not, and, where it ends, a search to that depth finds them, too.
fn finds(
    alloc: Global,
    program: &Program,
    query: &Query,
    atoms: &Atoms,
    row: &Worked,
) -> Result<bool, Fail> {
    let (_, _, budget, ends, wanted) = row;
    let (ended, found) = searched(alloc, program, query, *budget)?;
    let is_found = lines(alloc, query, found.as_slice(), atoms)?.as_str() == *wanted;
    if !ends || !is_found {
        return Ok(is_found && ended == *ends);
    }
    let deep = to_depth(alloc, program, query, *budget)?;
    Ok(ended && lines(alloc, query, deep.as_slice(), atoms)?.as_str() == *wanted)
}

fn is_worked(alloc: Global, row: &Worked) -> Result<bool, Fail> {
    let mut atoms = new_atoms(alloc)?;
    let program = program_of(alloc, row.0, &mut atoms)?;
    let query = query_of(alloc, row.1, &program, &mut atoms)?;
    finds(alloc, &program, &query, &atoms, row)
}

#[test]
fn worked_programs_have_their_answers(rt: HostRuntime) -> Result<(), Fail> {
    for row in &WORKED {
        assert!(rt; is_worked(rt.alloc(), row)?, "{}", row.1);
    }
    Ok(())
}

/// A term that is n deep over a leaf.
fn nested(alloc: Global, leaf: Term, n: u64) -> Result<Term, Fail> {
    let mut t = leaf;
    for _i in 0..n {
        let mut args = Args::new(alloc);
        args.push(t)?;
        t = Term::Node(Atom::at(fixed::PLUS), args);
    }
    Ok(t)
}

/// Whether a term is identical with itself, and with what its unifier makes of another one.
fn is_unified(alloc: Global, t: &Term, u: &Term) -> Result<bool, Fail> {
    match unify(alloc, t, u)? {
        Some(s) => Ok(identical(t, t) && identical(t, &instance(alloc, &s, u)?)),
        None => Ok(false),
    }
}

#[test]
fn a_long_list_is_compared_and_unified(rt: HostRuntime) -> Result<(), Fail> {
    let list = nested(rt.alloc(), Term::Atom(Atom::at(fixed::TRUE)), 1_000_000)?;
    let other = nested(rt.alloc(), Term::Var(1), 1_000_000)?;
    assert!(rt; is_unified(rt.alloc(), &list, &other)?);
    Ok(())
}
