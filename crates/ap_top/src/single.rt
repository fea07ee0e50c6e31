//! One query of a text, with what its search was charged and which calls were made for it.

ghost use Rattle.std.specs.Prelude.{◌≡◌, ◌<◌, ◌≤◌, IfOk, IfSome};
ghost use Rattle.ap_outside.specs.Halting.{Finishes, SinkCount};
ghost use Rattle.ap_outside.specs.Pieces.{Puts};
ghost use Rattle.ap_worker.specs.Sought.{MayBeAsked};
ghost use Rattle.ap_worker.specs.Totals.{NoneTaken};
ghost use Rattle.ap_top.specs.Output.{AreAnswers, IsCounted};
ghost use Rattle.ap_top.specs.Single.{FirstEnds, IsFirstCounted, IsSingleCounted, SingleEnds};
ghost use Rattle.ap_top.specs.Unasked.{LeavesQuery};

use crate::answers::{Bounds, put_answers};
use ap_clause::{Refusal, program, query};
use ap_lexer::pieces;
use ap_outside::{Gate, Halt, Sink};
use ap_reach::Predicates;
use ap_term::{Atoms, Program, Query};
use ap_worker::{Crew, Ended};
use std::alloc::Global;
use std::sync::Wait;
use std::thread::Threads;

/// Puts the lines of a query's answers, of which nothing is kept for another one.
fn put_once<R: Threads + Wait + Sync, G: Gate, K: Sink>(
    alloc: Global,
    crew: &Crew<R, G>,
    program: &Predicates<'_>,
    query: &Query,
    bounds: Bounds,
    atoms: &Atoms,
    out: &mut K,
    pads: u32,
) -> Result<Ended, Halt>
    requires asked { MayBeAsked program.now query.now }
    requires pads { (0 < pads) × (pads ≤ 1024) }
    ensures lines { Finishes (K.pieces out.old) (K.pieces out.new) (AreAnswers bounds.budget bounds.answers program.now atoms.now query.now) result }
    ensures counted { IfOk result (λ e. Puts (K.pieces out.old) (K.pieces out.new) (IsCounted bounds.kind bounds.budget bounds.answers program.now atoms.now query.now e)) }
    ensures total { IfOk result (λ e. e.charged ≤ e.total.sum) }
    ensures one { crew.now.workers ≡ 1 → IfOk result NoneTaken }
    ensures count { SinkCount (K.faults out.old) (K.faults out.new) result }
{
    let mut kept = None;
    put_answers(
        alloc, crew, program, &mut kept, query, bounds, atoms, out, pads,
    )
}

// Answers the first query of a text beside a program.
fn answer_first<R: Threads + Wait + Sync, G: Gate, K: Sink>(
    alloc: Global,
    crew: &Crew<R, G>,
    text: &[u8],
    program: &Program,
    bounds: Bounds,
    atoms: &mut Atoms,
    out: &mut K,
    pads: u32,
) -> Result<Option<Ended>, Halt>
    requires pads { (0 < pads) × (pads ≤ 1024) }
    requires query { LeavesQuery program.now atoms.old }
    ensures lines { Finishes (K.pieces out.old) (K.pieces out.new) (FirstEnds bounds.budget bounds.answers program.now atoms.old text.now) result }
    ensures counted { IfOk result (λ r. IfSome r (λ e. Puts (K.pieces out.old) (K.pieces out.new) (IsFirstCounted bounds.kind bounds.budget bounds.answers program.now atoms.old text.now e))) }
    ensures total { IfOk result (λ r. IfSome r (λ e. e.charged ≤ e.total.sum)) }
    ensures one { crew.now.workers ≡ 1 → IfOk result (λ r. IfSome r NoneTaken) }
    ensures count { SinkCount (K.faults out.old) (K.faults out.new) result }
{
    let Ok(pieces) = pieces(alloc, text) else {
        return Err(Halt::NoMemory);
    };
    let Some(piece) = pieces.first() else {
        return Ok(None);
    };
    let Ok(predicates) = Predicates::of(alloc, program) else {
        return Err(Halt::NoMemory);
    };
    let whole = predicates.program();
    match query(alloc, text, piece, whole, atoms) {
        Ok(query) => {
            let ended = put_once(alloc, crew, &predicates, &query, bounds, atoms, out, pads)?;
            Ok(Some(ended))
        }
        Err(Refusal::NoMemory) => Err(Halt::NoMemory),
        Err(_refusal) => Ok(None),
    }
}

/// Reads a program and the first query of another text, and puts the lines of the query's answers as `run` puts them, by workers
/// that have so many pads each. Gives how they end, what was charged for them, and which calls were made. None, and nothing put, where the program or the query is refused
/// or there is no query.
pub fn answer<R: Threads + Wait + Sync, G: Gate, K: Sink>(
    alloc: Global,
    crew: &Crew<R, G>,
    text: &[u8],
    queries: &[u8],
    bounds: Bounds,
    out: &mut K,
    pads: u32,
) -> Result<Option<Ended>, Halt>
    requires pads { (0 < pads) × (pads ≤ 1024) }
    ensures lines { Finishes (K.pieces out.old) (K.pieces out.new) (SingleEnds bounds.budget bounds.answers text.now queries.now) result }
    ensures counted { IfOk result (λ r. IfSome r (λ e. Puts (K.pieces out.old) (K.pieces out.new) (IsSingleCounted bounds.kind bounds.budget bounds.answers text.now queries.now e))) }
    ensures total { IfOk result (λ r. IfSome r (λ e. e.charged ≤ e.total.sum)) }
    ensures one { crew.now.workers ≡ 1 → IfOk result (λ r. IfSome r NoneTaken) }
    ensures count { SinkCount (K.faults out.old) (K.faults out.new) result }
{
    let Ok(mut atoms) = Atoms::new(alloc) else {
        return Err(Halt::NoMemory);
    };
    match program(alloc, text, &mut atoms) {
        Ok(program) => answer_first(
            alloc, crew, queries, &program, bounds, &mut atoms, out, pads,
        ),
        Err(Refusal::NoMemory) => Err(Halt::NoMemory),
        Err(_refusal) => Ok(None),
    }
}
