//! The lines of clauses, and what printing puts where the sink fails.

use crate::outside::has_pieces;
use crate::reading::{new_atoms, read};
use ap_cge::{Annotated, PrintErr, print, strip};
use ap_outside::{MemSink, Refusal, SteadySink};
use ap_term::{
    Args, Atoms, Body, Check, Checks, Clause, Part, Program, Term, copy_term, is_clause,
};
use std::alloc::Global;
use std::test::Fail;

/// The elements of a list, at most 100.
fn elements<'a>(alloc: Global, t: &'a Term) -> Result<Vec<&'a Term>, Fail> {
    let mut found = Vec::new(alloc);
    let mut rest = t;
    for _ in 0..100 {
        match rest {
            Term::Node(_, args) => match args.as_slice() {
                [first, tail] => {
                    found.push(first)?;
                    rest = tail;
                }
                _ => return Ok(found),
            },
            _ => return Ok(found),
        }
    }
    Ok(found)
}

fn check_of(t: &Term) -> Result<Check, Fail> {
    match t {
        Term::Node(_, args) => match args.as_slice() {
            [Term::Var(x)] => Ok(Check::Ground(*x)),
            [Term::Var(x), Term::Var(y)] => Ok(Check::Indep(*x, *y)),
            _ => Err(Fail::new("no check")),
        },
        _ => Err(Fail::new("no check")),
    }
}

fn checks_of(alloc: Global, list: &Term) -> Result<Checks, Fail> {
    let mut checks = Checks::new(alloc);
    for check in &elements(alloc, list)? {
        checks.push(check_of(check)?)?;
    }
    Ok(checks)
}

fn calls_of(alloc: Global, list: &Term) -> Result<Args, Fail> {
    let mut calls = Args::new(alloc);
    for goal in &elements(alloc, list)? {
        calls.push(copy_term(alloc, goal)?)?;
    }
    Ok(calls)
}

fn group_of(alloc: Global, checks: &Term, goals: &Term) -> Result<Part, Fail> {
    let checks = checks_of(alloc, checks)?;
    let calls = calls_of(alloc, goals)?;
    Ok(Part::Group { checks, calls })
}

fn part_of(alloc: Global, atoms: &Atoms, t: &Term) -> Result<Part, Fail> {
    match t {
        Term::Node(name, args) if atoms.get(*name) == Some("group") => match args.as_slice() {
            [checks, goals] => group_of(alloc, checks, goals),
            _ => Err(Fail::new("no group")),
        },
        _ => Ok(Part::Call(copy_term(alloc, t)?)),
    }
}

fn body_of(alloc: Global, atoms: &Atoms, parts: &[&Term]) -> Result<Body, Fail> {
    let mut body = Body::new(alloc);
    for part in parts {
        body.push(part_of(alloc, atoms, part)?)?;
    }
    Ok(body)
}

fn checked(head: Term, body: Body, vars: u64) -> Result<Clause, Fail> {
    if is_clause(&head, &body, vars, 1) {
        return Ok(Clause::new(head, body, vars, 1));
    }
    Err(Fail::new("no clause"))
}

/// The clause that a list tells: its head, then its parts, `group(Checks, Goals)` for a group.
fn clause_of(alloc: Global, text: &str, atoms: &mut Atoms) -> Result<Clause, Fail> {
    let read = read(alloc, text.as_bytes(), atoms)?.ok().ok_or("no term")?;
    let parts = elements(alloc, &read.term)?;
    let (head, rest) = parts.as_slice().split_first().ok_or("no head")?;
    let body = body_of(alloc, atoms, rest)?;
    checked(copy_term(alloc, head)?, body, read.names.len() as u64)
}

fn program_of(alloc: Global, texts: &[&str], atoms: &mut Atoms) -> Result<Program, Fail> {
    let mut program = Program::new(alloc);
    for text in texts {
        program.push(clause_of(alloc, text, atoms)?)?;
    }
    Ok(program)
}

static LINES: [(&str, &str); 30] = [
    ("[p].", "p.\n"),
    ("[p(X,Y,X)].", "p(_1,_2,_1).\n"),
    ("[p(Y,X),q(X)].", "p(_1,_2) :- q(_2).\n"),
    ("[p,q,r(1),s].", "p :- q, r(1), s.\n"),
    ("[p,group([],[a,b])].", "p :- a & b.\n"),
    ("[p,group([],[a,b,c(X)])].", "p :- a & b & c(_1).\n"),
    ("[p,group([],[a])].", "p :- a.\n"),
    (
        "[p(X),group([ground(X)],[a,b])].",
        "p(_1) :- ground(_1) => a & b.\n",
    ),
    (
        "[p(X,Y),group([indep(X,Y)],[a(X),b(Y)])].",
        "p(_1,_2) :- indep(_1,_2) => a(_1) & b(_2).\n",
    ),
    (
        "[p(X,Y),group([ground(X),indep(X,Y)],[a,b])].",
        "p(_1,_2) :- (ground(_1), indep(_1,_2)) => a & b.\n",
    ),
    (
        "[p(X,Y,Z),group([ground(Z),ground(Y),ground(X)],[a,b])].",
        "p(_1,_2,_3) :- (ground(_3), ground(_2), ground(_1)) => a & b.\n",
    ),
    (
        "[p,group([ground(X)],[a(Y),b(X)])].",
        "p :- ground(_1) => a(_2) & b(_1).\n",
    ),
    ("[p,q,group([],[a,b]),r].", "p :- q, a & b, r.\n"),
    (
        "[p,group([],[a,b]),group([],[c,d])].",
        "p :- a & b, c & d.\n",
    ),
    ("[p,X = Y].", "p :- =(_1,_2).\n"),
    ("[p,X is 1 + - 2].", "p :- is(_1,+(1,-(2))).\n"),
    ("[p,X is -2].", "p :- is(_1,-2).\n"),
    ("[p,q([a,b|T])].", "p :- q([a,b|_1]).\n"),
    ("[(is)].", "(is).\n"),
    ("[(mod),(rem)].", "(mod) :- (rem).\n"),
    ("[p,-,'+'].", "p :- (-), (+).\n"),
    ("[p,(;)].", "p :- (;).\n"),
    ("[p,','].", "p :- (',').\n"),
    ("[p,++,'\\\\'].", "p :- (++), (\\).\n"),
    ("[p,group([],[-,a,(:-)])].", "p :- (-) & a & (:-).\n"),
    ("[p,!,[]].", "p :- !, [].\n"),
    ("[p,'.','','A b'].", "p :- '.', '', 'A b'.\n"),
    ("[p,- 1,a + b].", "p :- -(1), +(a,b).\n"),
    ("['it''s'('\\n')].", "'it\\'s'('\\n').\n"),
    ("['/*'].", "'/*'.\n"),
];

/// Whether a program is put so, each line as one piece, into a sink that refuses what is told; a refusal ends it.
fn is_put(
    alloc: Global,
    program: Program,
    atoms: &Atoms,
    refusals: &[Refusal],
    wanted: &[&str],
) -> Result<bool, Fail> {
    let mut sink = MemSink::new(alloc, refusals)?;
    let is_as_told = match print(alloc, &Annotated::new(program), atoms, &mut sink) {
        Ok(()) => refusals.is_empty(),
        Err(PrintErr::Sunk) => !refusals.is_empty(),
        Err(PrintErr::NoMemory) => false,
    };
    Ok(is_as_told && has_pieces(sink.pieces(), wanted))
}

fn is_line(alloc: Global, text: &str, line: &str) -> Result<bool, Fail> {
    let mut atoms = new_atoms(alloc)?;
    let program = program_of(alloc, &[text], &mut atoms)?;
    is_put(alloc, program, &atoms, &[], &[line])
}

#[test]
fn a_clause_is_a_line(rt: HostRuntime) -> Result<(), Fail> {
    for (text, line) in &LINES {
        assert!(rt; is_line(rt.alloc(), text, line)?, "{text}");
    }
    Ok(())
}

const CLAUSES: [&str; 3] = [
    "[p(X),group([ground(X)],[a,b(X)]),c].",
    "[a].",
    "[b(X),group([],[a,a]),group([indep(X,Y)],[c(Y)])].",
];

/// The lines of these clauses, their goals one after another.
const SEQUENCES: [&str; 3] = ["p(_1) :- a, b(_1), c.\n", "a.\n", "b(_1) :- a, a, c(_2).\n"];

/// The lines that are printed of a program.
pub(crate) fn printed(alloc: Global, annotated: &Annotated, atoms: &Atoms) -> Result<String, Fail> {
    let mut sink = SteadySink::new(alloc);
    print(alloc, annotated, atoms, &mut sink)
        .ok()
        .ok_or("no lines")?;
    let mut text = Vec::new(alloc);
    for line in sink.pieces() {
        text.extend_from_slice(line.as_slice())?;
    }
    Ok(String::from_utf8(text)?)
}

fn is_sequence(alloc: Global) -> Result<bool, Fail> {
    let mut atoms = new_atoms(alloc)?;
    let program = program_of(alloc, &CLAUSES, &mut atoms)?;
    let stripped = strip(alloc, &Annotated::new(program))?;
    is_put(alloc, stripped, &atoms, &[], &SEQUENCES)
}

#[test]
fn goals_of_groups_are_called_one_after_another(rt: HostRuntime) -> Result<(), Fail> {
    assert!(rt; is_sequence(rt.alloc())?);
    Ok(())
}

/// Whether a sink whose second call takes one byte has the first line and that byte.
fn is_cut_short(alloc: Global) -> Result<bool, Fail> {
    let mut atoms = new_atoms(alloc)?;
    let program = program_of(alloc, &CLAUSES, &mut atoms)?;
    let front = ["p(_1) :- ground(_1) => a & b(_1), c.\n", "a"];
    is_put(
        alloc,
        program,
        &atoms,
        &[Refusal { call: 2, takes: 1 }],
        &front,
    )
}

#[test]
fn a_sink_that_fails_has_the_first_lines(rt: HostRuntime) -> Result<(), Fail> {
    assert!(rt; is_cut_short(rt.alloc())?);
    Ok(())
}
