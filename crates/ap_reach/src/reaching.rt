//! The clauses that the search of a query can come to, found from goal to goal.

ghost use Rattle.std.specs.Prelude.{◌≡◌, true, ◌++◌, if◌then◌else◌, [], IfOk, OnOk};
ghost use Rattle.std.specs.List.{IsDistinct};
ghost use Rattle.ap_reach.specs.Reached.{Extends, is_called, CallsAmong, clauses_for, all_called, contribution, gathered, is_beside, is_near, ArePlaced, Reaches, IsReached};
ghost use Rattle.ap_term.specs.Goals.{Query as Asked};

use crate::called::{Called, Calls};
use crate::calls::{add_bodies, add_body};
use crate::predicates::Predicates;
use ap_term::{NoMemory, Program, Query};
use std::alloc::Global;

/// Adds what the clauses that are called call, and so on.
fn find(program: &Predicates<'_>, calls: &mut Calls) -> Result<(), NoMemory>
    ensures extends { OnOk result (Extends calls.old calls.new) }
    ensures among { OnOk result (CallsAmong program.now calls.new (all_called calls.new program.now)) }
{
    for number in 0..4294967295usize {
        let Some(call) = calls.at(number) else {
            return Ok(());
        };
        program.add_calls(call, calls)?;
    }
    Err(NoMemory)
}

/// Puts the clauses that are called behind a part, unless all of their predicate are called beside them.
fn add_called(
    alloc: Global,
    program: &Predicates<'_>,
    calls: &Calls,
    call: Called,
    part: &mut Program,
) -> Result<(), NoMemory>
    requires near { is_near call ≡ true }
    ensures { OnOk result (part.new ≡ part.old ++ contribution calls.now program.now call) }
{
    if calls.is_beside(call) {
        return Ok(());
    }
    program.add_clauses(alloc, call, part)
}

/// The clauses that are called, each once.
fn gather(alloc: Global, program: &Predicates<'_>, calls: &Calls) -> Result<Program, NoMemory>
    ensures clauses { IfOk result (λ part. part ≡ gathered calls.now calls.now program.now) }
    ensures once { IsDistinct is_called calls.now }
    ensures placed { ArePlaced calls.now }
{
    let mut part = Program::new(alloc);
    for call in calls.as_slice() {
        add_called(alloc, program, calls, *call, &mut part)?;
    }
    Ok(part)
}

/// What a query can call in a program: what its goals call, those of what is lifted from it, and those of all that is called.
pub fn calls_of(alloc: Global, program: &Predicates<'_>, query: &Query) -> Result<Calls, NoMemory>
    ensures { IfOk result (λ calls. Reaches program.now query.now calls) }
{
    let mut calls = Calls::new(alloc);
    add_body(program, &mut calls, query.question())?;
    add_bodies(program, &mut calls, query.lifted())?;
    find(program, &mut calls)?;
    Ok(calls)
}

/// The part of a program that is called: the clauses of each predicate that a goal of a query, of what is lifted from it, or of the
/// part has; of a predicate whose clauses all have another first argument than a variable, those alone for the constants that goals
/// have there, where each goal has one. It is the same for equal calls. Fails only for want of memory.
pub fn part_of(alloc: Global, program: &Predicates<'_>, calls: &Calls) -> Result<Program, NoMemory>
    ensures clauses { IfOk result (λ part. part ≡ gathered calls.now calls.now program.now) }
    ensures reached { IfOk result (λ part. (q : Asked) → Reaches program.now q calls.now → IsReached program.now q part) }
{
    gather(alloc, program, calls)
}
