//! Tables and refusals that were worked out by hand.

use crate::programs::Shown::{self, Reachable, Unreachable};
use crate::programs::{ground_and_free, is_shown, predicate, read, refusal, table};
use ap_absunify::State;
use ap_certify::CertErr;
use ap_patterns::{Entries, Table};
use ap_term::{Atoms, Check};
use std::alloc::Global;
use std::test::Fail;

const TOTAL: &str =
    "total([],0). total([E|L],S) :- deal(L,A,B), total(A,SA), total(B,SB), S is SA + SB + E.
    deal([],[],[]). deal([E|L],[E|A],B) :- deal(L,B,A).";

const COPY: &str = "cp(t(L,R),t(A,B)) :- cp(L,A) & cp(R,B).";

const CHECKED: &str =
    "cp(t(L,R),t(A,B)) :- (indep(L,R), indep(L,B), indep(R,A), indep(A,B)) => cp(L,A) & cp(R,B).";

const GROUND: Shown = Reachable(&[], &[], &[]);
/// The second argument is a variable of its own.
const GROUND_AND_FREE: Shown = Reachable(&[&[2]], &[], &[2]);
/// The second and third arguments are variables of their own.
const DEALT: Shown = Reachable(&[&[2], &[3]], &[], &[2, 3]);

/// A predicate's name and number of arguments, the pattern of its calls and that of its answers.
type Row = (&'static str, u64, Shown, Shown);

/// The entry calls total with a ground list and a free sum. In its second clause E and L are then ground, and A and B are
/// new variables of their own, so deal is called so; deal calls itself so, since [E|A] is built on the free second
/// argument, which leaves A alone. Its first clause answers ground lists, and then so does its second. So A and B are
/// ground, total calls itself with a ground and a free argument, and answers a ground sum.
const TOTALS: [Row; 2] = [
    ("total", 2, GROUND_AND_FREE, GROUND),
    ("deal", 3, DEALT, GROUND),
];

/// Any arguments: L, R, A and B then may have anything in common, so each of the group's goals is called with any
/// arguments at the fork. There is no fact, so there is no answer, and no goal is called behind another one.
const COPIES: [Row; 1] = [("cp", 2, Reachable(&[], &[1, 2], &[]), Unreachable)];

fn is_row(alloc: Global, table: &Table, atoms: &mut Atoms, row: &Row) -> Result<bool, Fail> {
    let (name, arity, call, success) = row;
    let predicate = predicate(alloc, atoms, name, *arity)?;
    let found = table.row(predicate).ok_or("no row")?;
    Ok(is_shown(&found.call, *call) && is_shown(&found.success, *success))
}

fn are_rows(alloc: Global, table: &Table, atoms: &mut Atoms, rows: &[Row]) -> Result<bool, Fail> {
    for row in rows {
        if !is_row(alloc, table, atoms, row)? {
            return Ok(false);
        }
    }
    Ok(table.rows().len() == rows.len())
}

fn are_totals(alloc: Global) -> Result<bool, Fail> {
    let mut atoms = Atoms::new(alloc)?;
    let totals = read(alloc, TOTAL, &mut atoms)?;
    let entry = ground_and_free(alloc, &mut atoms, "total")?;
    let table = table(alloc, &totals, &entry)?;
    are_rows(alloc, &table, &mut atoms, &TOTALS)
}

fn are_copies(alloc: Global) -> Result<bool, Fail> {
    let mut atoms = Atoms::new(alloc)?;
    let copies = read(alloc, COPY, &mut atoms)?;
    let table = table(alloc, &copies, &Entries::All)?;
    are_rows(alloc, &table, &mut atoms, &COPIES)
}

#[test]
fn tables_by_hand(rt: HostRuntime) -> Result<(), Fail> {
    assert!(rt; are_totals(rt.alloc())?);
    assert!(rt; are_copies(rt.alloc())?);
    Ok(())
}

/// Why a program that is entered anyhow isn't certified, with the table that the analysis gives.
fn refused(alloc: Global, text: &str) -> Result<Option<CertErr>, Fail> {
    let mut atoms = Atoms::new(alloc)?;
    let annotated = read(alloc, text, &mut atoms)?;
    let table = table(alloc, &annotated, &Entries::All)?;
    Ok(refusal(alloc, annotated, &table, &Entries::All))
}

fn is_first_check(error: &CertErr) -> bool {
    matches!(
        error,
        CertErr::MissingCheck {
            clause: 1,
            place: 1,
            check: Check::Indep(1, 2)
        }
    )
}

#[test]
fn checks_are_asked_for(rt: HostRuntime) -> Result<(), Fail> {
    let error = refused(rt.alloc(), COPY)?.ok_or("certified")?;
    assert!(rt; is_first_check(&error));
    assert!(rt; refused(rt.alloc(), CHECKED)?.is_none());
    Ok(())
}

/// A pattern that is taken away from the table of totals, and where the table is then open: clause, place, and what is
/// given there.
struct Taken {
    name: &'static str,
    arity: u64,
    is_success: bool,
    clause: u64,
    place: u64,
    now: Shown,
}

const TAKEN: [Taken; 4] = [
    Taken {
        name: "total",
        arity: 2,
        is_success: false,
        clause: 0,
        place: 1,
        now: GROUND_AND_FREE,
    },
    Taken {
        name: "deal",
        arity: 3,
        is_success: false,
        clause: 2,
        place: 1,
        now: DEALT,
    },
    Taken {
        name: "total",
        arity: 2,
        is_success: true,
        clause: 1,
        place: 0,
        now: GROUND,
    },
    Taken {
        name: "deal",
        arity: 3,
        is_success: true,
        clause: 3,
        place: 0,
        now: GROUND,
    },
];

fn take_away(
    alloc: Global,
    table: &mut Table,
    atoms: &mut Atoms,
    taken: &Taken,
) -> Result<(), Fail> {
    let predicate = predicate(alloc, atoms, taken.name, taken.arity)?;
    if taken.is_success {
        table.set_success(predicate, State::Unreachable)?;
    } else {
        table.set_call(predicate, State::Unreachable)?;
    }
    Ok(())
}

fn is_refused(error: &CertErr, taken: &Taken) -> bool {
    match error {
        CertErr::NotClosed {
            clause,
            place,
            was,
            now,
        } => {
            *clause == taken.clause
                && *place == taken.place
                && is_shown(was, Unreachable)
                && is_shown(now, taken.now)
        }
        _ => false,
    }
}

fn is_open(alloc: Global, taken: &Taken) -> Result<bool, Fail> {
    let mut atoms = Atoms::new(alloc)?;
    let annotated = read(alloc, TOTAL, &mut atoms)?;
    let entry = ground_and_free(alloc, &mut atoms, "total")?;
    let mut table = table(alloc, &annotated, &entry)?;
    take_away(alloc, &mut table, &mut atoms, taken)?;
    let error = refusal(alloc, annotated, &table, &entry).ok_or("certified")?;
    Ok(is_refused(&error, taken))
}

#[test]
fn open_tables_are_refused(rt: HostRuntime) -> Result<(), Fail> {
    for taken in &TAKEN {
        assert!(rt; is_open(rt.alloc(), taken)?, "{}", taken.name);
    }
    Ok(())
}
