//! Lines written from cells, beside texts known by hand, and those that the terms have by themselves.

use crate::building::{Step, deep, term};
use Step::{A, I, N, V};
use ap_cells::{Cell, Cells};
use ap_lines::answer_line;
use ap_term::{Atom, Atoms, Body, Clause, Name, Program, Query, Term, fixed, is_clause};
use std::alloc::Global;
use std::test::Fail;

/// A query for variables of these names.
fn query(alloc: Global, names: &[&str]) -> Result<Query, Fail> {
    let mut list = Vec::new(alloc);
    for name in names {
        list.push(Name::new(alloc, name)?)?;
    }
    let head = Term::Atom(Atom::at(fixed::QUERY));
    let body = Body::new(alloc);
    let vars = list.len() as u64;
    if !is_clause(&head, &body, vars, 1) {
        return Err(Fail::new("no clause"));
    }
    let question = Clause::new(head, body, vars, 1);
    Ok(Query::new(question, Program::new(alloc), list))
}

/// The line of one place for one name.
fn line_of_one(
    alloc: Global,
    cells: &Cells,
    name: &str,
    place: usize,
    atoms: &Atoms,
) -> Result<Vec<u8>, Fail> {
    let query = query(alloc, &[name])?;
    let roots = [place];
    if query.names().len() != 1 || place >= cells.len() {
        return Err(Fail::new("no tuple"));
    }
    Ok(answer_line(alloc, &query, cells, &roots, atoms)?)
}

/// Whether three terms, for three names, are written as wanted.
fn is_line(
    alloc: Global,
    names: [&str; 3],
    terms: [&[Step]; 3],
    wanted: &str,
) -> Result<bool, Fail> {
    let atoms = list_atoms(alloc)?;
    let mut cells = Cells::new(alloc);
    let mut variables = Vec::new(alloc);
    let [first, second, third] = terms;
    let a = term(alloc, &mut cells, &mut variables, first)?;
    let b = term(alloc, &mut cells, &mut variables, second)?;
    let c = term(alloc, &mut cells, &mut variables, third)?;
    let query = query(alloc, &names)?;
    let roots = [a, b, c];
    let len = cells.len();
    if query.names().len() != 3 || a >= len || b >= len || c >= len {
        return Err(Fail::new("no tuple"));
    }
    let line = answer_line(alloc, &query, &cells, &roots, &atoms)?;
    Ok(line.as_slice() == wanted.as_bytes())
}

/// The fixed names, and behind them `.`, `[]` and `h`.
fn list_atoms(alloc: Global) -> Result<Atoms, Fail> {
    let mut atoms = Atoms::new(alloc)?;
    for name in [".", "[]", "h"] {
        atoms.intern(alloc, name)?;
    }
    Ok(atoms)
}

const DOT: u32 = fixed::COUNT as u32;

const NIL: u32 = DOT + 1;

const H: u32 = DOT + 2;

/// Names, terms, and their line.
static LINES: [([&str; 3], [&[Step]; 3], &str); 6] = [
    (
        ["X", "Y", "Z"],
        [&[I(-7)], &[A(NIL)], &[V(0)]],
        "X = -7, Y = [], Z = _1",
    ),
    (
        ["X", "_Y", "Z"],
        [&[V(1)], &[V(0)], &[V(0), V(1), N(H, 2)]],
        "X = _1, Z = h(_2,_1)",
    ),
    (["_X", "_Y", "_"], [&[V(0)], &[I(1)], &[I(2)]], "true"),
    (
        ["X", "Y", "Z"],
        [
            &[I(1), I(2), A(NIL), N(DOT, 2), N(DOT, 2)],
            &[I(1), V(0), N(DOT, 2)],
            &[A(NIL), A(NIL), N(DOT, 2)],
        ],
        "X = [1,2], Y = [1|_1], Z = [[]]",
    ),
    (
        ["X", "Y", "Z"],
        [
            &[I(1), N(DOT, 1)],
            &[I(1), I(2), I(3), N(DOT, 3)],
            &[N(H, 0)],
        ],
        "X = '.'(1), Y = '.'(1,2,3), Z = h()",
    ),
    (
        ["X", "Y", "Z"],
        [
            &[I(1), I(2), N(H, 2), I(3), N(H, 2)],
            &[I(1), I(2), I(3), N(H, 2), N(H, 2)],
            &[A(fixed::PLUS), N(fixed::PLUS, 1)],
        ],
        "X = h(h(1,2),3), Y = h(1,h(2,3)), Z = +(+)",
    ),
];

#[test]
fn lines_are_those_known_by_hand(rt: HostRuntime) -> Result<(), Fail> {
    for (names, terms, wanted) in &LINES {
        assert!(rt; is_line(rt.alloc(), *names, *terms, wanted)?, "{wanted}");
    }
    Ok(())
}

const DEPTH: usize = 1_000_000;

/// How long the line of a term is that is this deep in its first argument, or in its last one.
fn deep_length(alloc: Global, is_first: bool) -> Result<usize, Fail> {
    let atoms = list_atoms(alloc)?;
    let mut cells = Cells::new(alloc);
    let place = deep(&mut cells, H, DEPTH, is_first, Cell::Int(1))?;
    Ok(line_of_one(alloc, &cells, "X", place, &atoms)?.len())
}

#[test]
fn deep_terms_are_written_without_a_deep_stack(rt: HostRuntime) -> Result<(), Fail> {
    // `X = `, and for each level `h(`, `,1` and `)`, round a leaf.
    let wanted = 4 + 5 * DEPTH + 1;
    assert!(rt; deep_length(rt.alloc(), true)? == wanted);
    assert!(rt; deep_length(rt.alloc(), false)? == wanted);
    Ok(())
}
