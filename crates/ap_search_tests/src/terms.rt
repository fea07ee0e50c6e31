//! What no clause says of terms and names: that calls succeed where memory is ample, and that long lists need no deep
//! recursion.

use crate::reading::{new_atoms, program_of, query_of};
use ap_term::{Args, Atom, InternErr, MAX_ATOMS, Term, copy_term, fixed, join, vars};
use std::alloc::Global;
use std::test::Fail;

/// The list of the integers below n, as `f(n - 1, .. f(0, a))`.
fn long_list(alloc: Global, n: i64) -> Result<Term, Fail> {
    let mut list = Term::Atom(Atom::at(fixed::ANY_MARK));
    for i in 0..n {
        let mut args = Args::new(alloc);
        args.push(Term::Int(i))?;
        args.push(list)?;
        list = Term::Node(Atom::at(fixed::PLUS), args);
    }
    Ok(list)
}

/// Names in the order in which they are put in, and their numbers.
const NUMBERS: [(&str, u32); 6] = [
    ("true", fixed::TRUE),
    ("a", fixed::ANY_MARK),
    ("été", fixed::COUNT as u32),
    ("été", fixed::COUNT as u32),
    ("[]", fixed::COUNT as u32 + 1),
    ("b", fixed::COUNT as u32 + 2),
];

#[test]
fn names_are_numbered_in_order(rt: HostRuntime) -> Result<(), Fail> {
    let mut atoms = new_atoms(rt.alloc())?;
    for (name, number) in &NUMBERS {
        let atom = atoms.intern(rt.alloc(), name)?;
        assert!(rt; atom.number() == *number, "{name}");
    }
    Ok(())
}

/// Whether a name that is put in behind a mark makes room for the next one when the table is cut to the mark.
fn is_cut(alloc: Global) -> Result<bool, Fail> {
    let mut atoms = new_atoms(alloc)?;
    let mark = atoms.mark();
    let first = atoms.intern(alloc, "été")?;
    atoms.cut_to(mark);
    let second = atoms.intern(alloc, "b")?;
    let refused = atoms.intern(alloc, "=..")?;
    Ok(first == second && refused.number() >= fixed::FIRST_REFUSED)
}

#[test]
fn a_table_is_cut_to_its_mark(rt: HostRuntime) -> Result<(), Fail> {
    assert!(rt; is_cut(rt.alloc())?);
    Ok(())
}

/// Whether a table takes so many new names and no more, and then still has the first one.
fn is_full(alloc: Global) -> Result<bool, Fail> {
    let mut atoms = new_atoms(alloc)?;
    for i in 0..MAX_ATOMS {
        let name = format!(in alloc; "n{i}")?;
        atoms.intern(alloc, name.as_str())?;
    }
    let is_refused = matches!(atoms.intern(alloc, "one more"), Err(InternErr::Full));
    Ok(is_refused && atoms.intern(alloc, "n0")?.number() as usize == fixed::COUNT)
}

#[test]
fn a_table_is_full_at_its_limit(rt: HostRuntime) -> Result<(), Fail> {
    assert!(rt; is_full(rt.alloc())?);
    Ok(())
}

#[test]
fn a_long_list_is_copied_and_let_go(rt: HostRuntime) -> Result<(), Fail> {
    let list = long_list(rt.alloc(), 1_000_000)?;
    let copy = copy_term(rt.alloc(), &list)?;
    assert!(rt; vars(rt.alloc(), &copy)?.is_empty());
    Ok(())
}

/// Whether the variables of `p(X, Y, X)` come by first occurrence, the name of X being 2 and of Y 1.
fn are_in_order(alloc: Global) -> Result<bool, Fail> {
    let mut args = Args::new(alloc);
    args.push(Term::Var(2))?;
    args.push(Term::Var(1))?;
    args.push(Term::Var(2))?;
    let goal = Term::Node(Atom::at(fixed::ANY_MARK), args);
    Ok(vars(alloc, &goal)?.as_slice() == [2, 1].as_slice())
}

#[test]
fn variables_come_by_first_occurrence(rt: HostRuntime) -> Result<(), Fail> {
    assert!(rt; are_in_order(rt.alloc())?);
    Ok(())
}

/// How many clauses a program has that is joined with a query.
fn joined(alloc: Global, text: &str, question: &str) -> Result<usize, Fail> {
    let mut atoms = new_atoms(alloc)?;
    let program = program_of(alloc, text, &mut atoms)?;
    let query = query_of(alloc, question, &program, &mut atoms)?;
    Ok(join(alloc, &program, &query)?.as_slice().len())
}

#[test]
fn a_query_is_joined_behind_a_program(rt: HostRuntime) -> Result<(), Fail> {
    assert!(rt; joined(rt.alloc(), "", "?- a(X, Y, X).")? == 1);
    assert!(rt; joined(rt.alloc(), "p. q.", "?- (a ; b).")? == 5);
    Ok(())
}
