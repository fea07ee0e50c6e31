//! Programs, entries and patterns for tests.

ghost use Rattle.std.specs.Prelude.{IfOk};
ghost use Rattle.ap_patterns.specs.Entry.{IsMarked};

use ap_absunify::State;
use ap_certify::{CertErr, certify};
use ap_cge::{Annotated, hand_written};
use ap_clause::program;
use ap_fixpoint::analyse;
use ap_freeness::Free;
use ap_patterns::{Entries, Entry, Mark, Pattern, Predicate, Table};
use ap_sharing::{Share, VarSet};
use ap_term::Atoms;
use std::alloc::Global;
use std::test::Fail;

/// The program of a text with its groups.
pub(crate) fn read(alloc: Global, text: &str, atoms: &mut Atoms) -> Result<Annotated, Fail> {
    let program = program(alloc, text.as_bytes(), atoms)
        .ok()
        .ok_or("refused")?;
    let annotated = hand_written(alloc, &program)?;
    Ok(annotated)
}

pub(crate) fn predicate(
    alloc: Global,
    atoms: &mut Atoms,
    name: &str,
    arity: u64,
) -> Result<Predicate, Fail> {
    let name = atoms.intern(alloc, name).ok().ok_or("no atom")?;
    Ok(Predicate { name, arity })
}

/// Calls of a predicate with a ground argument and a free one.
pub(crate) fn ground_and_free(alloc: Global, atoms: &mut Atoms, name: &str) -> Result<Entries, Fail>
    ensures { IfOk result IsMarked }
{
    let predicate = predicate(alloc, atoms, name, 2)?;
    let mut marks = Vec::new(alloc);
    marks.push(Mark::Ground)?;
    marks.push(Mark::Free)?;
    let predicate = Predicate {
        name: predicate.name,
        arity: 2,
    };
    Ok(Entries::One(Entry { predicate, marks }))
}

/// The table that the analysis gives.
pub(crate) fn table(alloc: Global, annotated: &Annotated, entries: &Entries) -> Result<Table, Fail>
    requires { IsMarked entries.now }
{
    let table = analyse(alloc, annotated, entries)?;
    Ok(table)
}

/// Why the program isn't certified, if it isn't.
pub(crate) fn refusal(
    alloc: Global,
    annotated: Annotated,
    table: &Table,
    entries: &Entries,
) -> Option<CertErr>
    requires { IsMarked entries.now }
{
    certify(alloc, annotated, table, entries).err()
}

/// A pattern as it is written in a test: its sets, what is in `any`, and what is free.
#[derive(Clone, Copy)]
pub(crate) enum Shown {
    Unreachable,
    Reachable(&'static [&'static [u64]], &'static [u64], &'static [u64]),
}

fn set_of(numbers: &[u64]) -> VarSet {
    let mut set = VarSet::new();
    for x in numbers {
        if *x < 256 {
            set.insert(*x);
        }
    }
    set
}

fn has_sets(share: &Share, sets: &[&[u64]]) -> bool {
    for set in sets {
        if !share.sets().contains(set_of(set)) {
            return false;
        }
    }
    share.sets().len() == sets.len()
}

fn is_reachable(share: &Share, free: &Free, sets: &[&[u64]], any: &[u64], vars: &[u64]) -> bool {
    has_sets(share, sets) && share.any() == set_of(any) && free.vars() == set_of(vars)
}

/// Whether a pattern is the one that is shown.
pub(crate) fn is_shown(pattern: &Pattern, shown: Shown) -> bool {
    match (pattern, shown) {
        (State::Unreachable, Shown::Unreachable) => true,
        (State::Reachable { share, free }, Shown::Reachable(sets, any, vars)) => {
            is_reachable(share, free, sets, any, vars)
        }
        _ => false,
    }
}
