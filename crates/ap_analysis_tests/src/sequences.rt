//! The program without groups, on a clause by hand.

use ap_certify::{Scope, plain};
use ap_term::{Args, Atom, Body, Check, Checks, Clause, Part, Program, Term, is_clause};
use std::process::Abort;
use std::test::Fail;

fn is_atom(part: &Part, name: u32) -> bool {
    match part {
        Part::Call(Term::Atom(a)) => a.number() == name,
        _ => false,
    }
}

/// p :- a, (ground(X) => b & c), d: the goals one after another, for every query.
#[test]
fn groups_become_sequences(rt: HostRuntime) -> Result<(), Fail> {
    let alloc = rt.alloc();
    let mut checks = Checks::new(alloc);
    checks.push(Check::Ground(1))?;
    let mut calls = Args::new(alloc);
    calls.push(Term::Atom(Atom::at(12)))?;
    calls.push(Term::Atom(Atom::at(13)))?;
    let mut body = Body::new(alloc);
    body.push(Part::Call(Term::Atom(Atom::at(11))))?;
    body.push(Part::Group { checks, calls })?;
    body.push(Part::Call(Term::Atom(Atom::at(14))))?;
    let head = Term::Atom(Atom::at(10));
    assert!(rt; is_clause(&head, &body, 1, 7));
    let mut program = Program::new(alloc);
    program.push(Clause::new(head, body, 1, 7))?;
    let certified = plain(alloc, &program)?;
    assert!(rt; matches!(certified.scope(), Scope::Every));
    assert!(rt; certified.clauses().len() == 1);
    for clause in certified.clauses() {
        assert!(rt; clause.line() == 7 && clause.vars() == 1);
        assert!(rt; clause.body().as_slice().len() == 4);
        for (part, name) in clause.body().as_slice().iter().zip([11, 12, 13, 14]) {
            assert!(rt; is_atom(part, name));
        }
    }
    assert!(rt; certified.annotated().program().as_slice().len() == 1);
    Ok(())
}
