//! The rules of printing from the outside, and that calls succeed where memory is ample.

use crate::reading::new_atoms;
use Step::{Int, Node, Unheld, Var};
use ap_term::{Args, Atom, Atoms, Body, Clause, Name, Program, Query, Term, fixed, is_clause};
use ap_writer::{answer_line, term_text};
use std::alloc::Global;
use std::test::Fail;

/// A term in postfix: a constant, or a compound over the terms before it.
#[derive(Clone, Copy)]
enum Step<'a> {
    Var(u64),
    Int(i64),
    Unheld,
    Atom(&'a str),
    Node(&'a str, usize),
}

fn push_step(
    alloc: Global,
    atoms: &mut Atoms,
    terms: &mut Vec<Term>,
    step: Step,
) -> Result<(), Fail> {
    let t = match step {
        Step::Var(x) => Term::Var(x),
        Step::Int(n) => Term::Int(n),
        Step::Unheld => Term::Atom(Atom::at(u32::MAX)),
        Step::Atom(name) => Term::Atom(atoms.intern(alloc, name)?),
        Step::Node(name, arity) => {
            let front = terms.len().saturating_sub(arity);
            let args = Args::take_from(alloc, terms, front)?;
            Term::Node(atoms.intern(alloc, name)?, args)
        }
    };
    terms.push(t)?;
    Ok(())
}

fn terms_of(alloc: Global, atoms: &mut Atoms, steps: &[Step]) -> Result<Vec<Term>, Fail> {
    let mut terms = Vec::new(alloc);
    for step in steps {
        push_step(alloc, atoms, &mut terms, *step)?;
    }
    Ok(terms)
}

fn first_text(alloc: Global, terms: &[Term], atoms: &Atoms) -> Result<Vec<u8>, Fail> {
    let t = terms.first().ok_or("no term")?;
    Ok(term_text(alloc, t, atoms)?)
}

fn is_text(alloc: Global, steps: &[Step], wanted: &str) -> Result<bool, Fail> {
    let mut atoms = new_atoms(alloc)?;
    let terms = terms_of(alloc, &mut atoms, steps)?;
    let text = first_text(alloc, &terms, &atoms)?;
    Ok(text.as_slice() == wanted.as_bytes())
}

fn query(alloc: Global, names: &[&str]) -> Result<Query, Fail> {
    let mut list = Vec::new(alloc);
    for name in names {
        list.push(Name::new(alloc, name)?)?;
    }
    let head = Term::Atom(Atom::at(fixed::QUERY));
    let body = Body::new(alloc);
    let vars = list.len() as u64;
    if !is_clause(&head, &body, vars, 1) {
        return Err(Fail::new("no clause"));
    }
    let question = Clause::new(head, body, vars, 1);
    Ok(Query::new(question, Program::new(alloc), list))
}

/// The line of an answer whose tuple is that of a query.
fn line_of(alloc: Global, query: &Query, tuple: &[Term], atoms: &Atoms) -> Result<Vec<u8>, Fail> {
    if query.names().len() != tuple.len() {
        return Err(Fail::new("no tuple"));
    }
    Ok(answer_line(alloc, query, tuple, atoms)?)
}

fn answer(alloc: Global, names: &[&str], tuple: &[Term], atoms: &Atoms) -> Result<Vec<u8>, Fail> {
    let query = query(alloc, names)?;
    line_of(alloc, &query, tuple, atoms)
}

fn is_answer(alloc: Global, names: &[&str], steps: &[Step], wanted: &str) -> Result<bool, Fail> {
    let mut atoms = new_atoms(alloc)?;
    let tuple = terms_of(alloc, &mut atoms, steps)?;
    let line = answer(alloc, names, &tuple, &atoms)?;
    Ok(line.as_slice() == wanted.as_bytes())
}

/// Names, and how they are printed.
static NAMES: [(&str, &str); 27] = [
    ("fooBar_9", "fooBar_9"),
    ("", "''"),
    ("Foo", "'Foo'"),
    ("_x", "'_x'"),
    ("9a", "'9a'"),
    ("a b", "'a b'"),
    ("été", "'été'"),
    ("+", "+"),
    ("=..", "=.."),
    ("@<#&$", "@<#&$"),
    (".", "'.'"),
    ("..", ".."),
    ("/*", "'/*'"),
    ("/*+", "'/*+'"),
    ("*/", "*/"),
    ("//*", "//*"),
    ("a+", "'a+'"),
    ("+a", "'+a'"),
    ("[]", "[]"),
    (";", ";"),
    ("!", "!"),
    (",", "','"),
    ("|", "'|'"),
    ("{}", "'{}'"),
    ("it's", "'it\\'s'"),
    ("a\\b", "'a\\\\b'"),
    ("\n\t\r", "'\\n\\t\r'"),
];

#[test]
fn a_name_is_bare_only_where_it_is_a_token(rt: HostRuntime) -> Result<(), Fail> {
    for (name, want) in &NAMES {
        assert!(rt; is_text(rt.alloc(), &[Step::Atom(*name)], want)?, "{name}");
    }
    Ok(())
}

/// Terms, and how they are printed.
static TERMS: [(&[Step<'static>], &str); 10] = [
    (&[Int(i64::MIN)], "-9223372036854775808"),
    (&[Int(0)], "0"),
    (&[Var(u64::MAX)], "_1"),
    (&[Unheld], "''"),
    (&[Int(1), Int(2), Node("+", 2)], "+(1,2)"),
    (&[Int(-1), Node("-", 1)], "-(-1)"),
    (&[Int(1), Node(".", 1)], "'.'(1)"),
    (
        &[Int(1), Int(2), Var(9), Node(".", 2), Node(".", 2)],
        "[1,2|_1]",
    ),
    (
        &[Var(8), Var(9), Step::Atom("[]"), Node(".", 2), Node(".", 2)],
        "[_1,_2]",
    ),
    (
        &[
            Var(8),
            Step::Atom("a"),
            Node(".", 2),
            Var(7),
            Var(8),
            Node("g h", 3),
        ],
        "'g h'([_1|a],_2,_1)",
    ),
];

#[test]
fn terms_are_printed_without_operators(rt: HostRuntime) -> Result<(), Fail> {
    for (steps, want) in &TERMS {
        assert!(rt; is_text(rt.alloc(), steps, want)?, "{want}");
    }
    Ok(())
}

/// The names of a query's variables, a tuple for them, and the answer's line.
static ANSWERS: [(&[&str], &[Step<'static>], &str); 8] = [
    (&[], &[], "true"),
    (&["_", "_A"], &[Int(1), Var(1)], "true"),
    (
        &["A", "B"],
        &[Var(5), Node("f", 1), Var(5)],
        "A = f(_1), B = _1",
    ),
    (&["_A", "B"], &[Var(4), Var(5)], "B = _1"),
    (&["X"], &[Int(i64::MAX)], "X = 9223372036854775807"),
    (
        &["X"],
        &[
            Step::Atom("a"),
            Step::Atom("b"),
            Step::Atom("c"),
            Node("&", 2),
            Step::Atom("d"),
            Node(",", 2),
            Node(",", 2),
        ],
        "X = ','(a,','(&(b,c),d))",
    ),
    (
        &["X", "Y", "Z"],
        &[Int(-1), Int(1), Node("-", 1), Int(7), Int(-2), Node("-", 2)],
        "X = -1, Y = -(1), Z = -(7,-2)",
    ),
    (
        &["X", "Y", "Z"],
        &[Int(-3), Int(1), Int(-1)],
        "X = -3, Y = 1, Z = -1",
    ),
];

#[test]
fn a_line_has_the_variables_that_are_asked_for(rt: HostRuntime) -> Result<(), Fail> {
    for (names, steps, want) in &ANSWERS {
        assert!(rt; is_answer(rt.alloc(), names, steps, want)?, "{want}");
    }
    Ok(())
}

fn list_of(alloc: Global, atoms: &mut Atoms, len: u64) -> Result<Term, Fail> {
    let nil = Term::Atom(atoms.intern(alloc, "[]")?);
    let dot = atoms.intern(alloc, ".")?;
    let mut list = nil;
    for x in 0..len {
        list = Term::Node(dot, Args::two(alloc, Term::Var(x), list)?);
    }
    Ok(list)
}

/// Whether the text of a list of that length has so many bytes, and begins so.
fn is_long_text(alloc: Global, len: u64, bytes: usize, front: &str) -> Result<bool, Fail> {
    let mut atoms = new_atoms(alloc)?;
    let list = list_of(alloc, &mut atoms, len)?;
    let text = term_text(alloc, &list, &atoms)?;
    Ok(text.len() == bytes && text.as_slice().starts_with(front.as_bytes()))
}

#[test]
fn a_long_list_is_printed_in_one_pass(rt: HostRuntime) -> Result<(), Fail> {
    assert!(rt; is_long_text(rt.alloc(), 100_000, 688_896, "[_1,_2,_3,")?);
    Ok(())
}
