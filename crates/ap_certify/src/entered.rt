//! Whether a table covers the calls with which a program is entered.

ghost use Rattle.std.specs.Prelude.{◌≡◌, ◌≤◌, map, IfOk, IfErr, OnOk, [], ℕ};
ghost use Rattle.std.specs.List.{All, list_any};
ghost use Rattle.ap_patterns.specs.Given.{patterns};
ghost use Rattle.ap_patterns.specs.Covered.{IsHeld};
ghost use Rattle.ap_patterns.specs.Table.{same_predicate};
ghost use Rattle.ap_patterns.specs.Entry.{IsMarked};
ghost use Rattle.ap_patterns.specs.declared.tables.Predicate.{Predicate};
ghost use Rattle.ap_certify.specs.Refused.{IsFault, NoCheck, IsNumber, with_new, predicates_behind, call_of_any, entry_calls};
ghost use Rattle.ap_certify.specs.Scopes.{AreSameEntries};

use crate::faults::{CertErr, Place, hold};
use ap_patterns::{Entries, Entry, Given, Predicate, Slot, Table, any_pattern, query_call};
use ap_term::{Clause, NoMemory, Program};
use std::alloc::Global;

fn is_among(predicate: &Predicate, predicates: &[Predicate]) -> bool
    ensures { result ≡ list_any (λ p. same_predicate p predicate.now) predicates.now }
{
    predicates.iter().any(|p| *p == *predicate)
}

/// Puts in a predicate that isn't there yet.
fn insert(predicate: Predicate, predicates: &mut Vec<Predicate>) -> Result<(), NoMemory>
    ensures { OnOk result (predicates.new.items ≡ with_new (Some predicate) predicates.old.items) }
{
    if !is_among(&predicate, predicates.as_slice()) {
        predicates.push(predicate)?;
    }
    Ok(())
}

/// The predicates that have a clause, in order of their first clause.
fn predicates(alloc: Global, clauses: &[Clause]) -> Result<Vec<Predicate>, NoMemory>
    ensures { IfOk result (λ r. r.items ≡ predicates_behind [] clauses.now) }
{
    let mut found = Vec::new(alloc);
    for clause in clauses {
        if let Some(predicate) = Predicate::of(clause.head()) {
            insert(predicate, &mut found)?;
        }
    }
    Ok(found)
}

/// A call of each of the predicates with anything.
fn calls_of_any(alloc: Global, predicates: &[Predicate]) -> Result<Vec<Given>, NoMemory>
    requires { All (λ p. p.arity ≤ 255) predicates.now }
    ensures { IfOk result (λ r. r.items ≡ map call_of_any predicates.now) }
{
    let mut calls = Vec::new(alloc);
    for predicate in predicates {
        let slot = Slot::Call(*predicate);
        let pattern = any_pattern(alloc, predicate.arity);
        calls.push(Given { slot, pattern })?;
    }
    Ok(calls)
}

/// The calls with which a program is entered, in order.
fn entry_calls(alloc: Global, entries: &Entries, program: &Program) -> Result<Vec<Given>, NoMemory>
    requires { IsMarked entries.now }
    ensures { IfOk result (λ r. r.items ≡ entry_calls entries.now program.now) }
{
    match entries {
        Entries::All => {
            let predicates = predicates(alloc, program.as_slice())?;
            calls_of_any(alloc, predicates.as_slice())
        }
        Entries::One(entry) => {
            let mut calls = Vec::new(alloc);
            calls.push(entry.call(alloc)?)?;
            Ok(calls)
        }
        Entries::Query => {
            let mut calls = Vec::new(alloc);
            calls.push(query_call(alloc))?;
            Ok(calls)
        }
    }
}

/// Whether the table covers each of the calls, which are numbered from 1.
fn hold_calls(table: &Table, calls: &[Given]) -> Result<(), CertErr>
    ensures held { IfOk result (λ _. All (IsHeld (patterns table.now)) calls.now) }
    ensures fault { IfErr result (IsFault 0 (patterns table.now) (λ k g. IsNumber k g calls.now) NoCheck) }
{
    for i in 0..calls.len() {
        let at = Place {
            clause: 0,
            goal: i as u64 + 1,
        };
        hold(at, table, &calls[i])?;
    }
    Ok(())
}

/// Whether the table covers the calls with which a program is entered.
pub fn hold_entries(
    alloc: Global,
    table: &Table,
    entries: &Entries,
    program: &Program,
) -> Result<(), CertErr>
    requires { IsMarked entries.now }
    ensures held { IfOk result (λ _. All (IsHeld (patterns table.now)) (entry_calls entries.now program.now)) }
    ensures fault { IfErr result (IsFault 0 (patterns table.now) (λ k g. IsNumber k g (entry_calls entries.now program.now)) NoCheck) }
{
    let calls = entry_calls(alloc, entries, program)?;
    hold_calls(table, calls.as_slice())?;
    Ok(())
}

/// The same entries again.
pub fn copy(entries: &Entries) -> Result<Entries, NoMemory>
    ensures { IfOk result (AreSameEntries entries.now) }
{
    match entries {
        Entries::All => Ok(Entries::All),
        Entries::One(entry) => {
            let marks = entry.marks.clone()?;
            Ok(Entries::One(Entry {
                predicate: entry.predicate,
                marks,
            }))
        }
        Entries::Query => Ok(Entries::Query),
    }
}
