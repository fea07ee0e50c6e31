//! The queries of a text.

ghost use Rattle.std.specs.Prelude.{◌≡◌, ◌≤◌, ◌^◌, IfOk, OnOk};
ghost use Rattle.ap_outside.specs.Halting.{Finishes, SinkCount};
ghost use Rattle.ap_outside.specs.Pieces.{Puts};
ghost use Rattle.ap_top.specs.Counted.{IsCountedOutput};
ghost use Rattle.ap_top.specs.Output.{IsOutput, judged};
ghost use Rattle.ap_top.specs.Unasked.{LeavesQuery};

use crate::answers::Bounds;
use crate::queries::print_pieces;
use crate::status::Tally;
use ap_lexer::{NoMemory, Piece, pieces};
use ap_outside::{Gate, Halt, Sink};
use ap_reach::Predicates;
use ap_term::{Atoms, Program};
use ap_worker::Crew;
use std::alloc::Global;
use std::sync::Wait;
use std::thread::Threads;

// The pieces of a text that are judged: all of a whole one, and of one that broke off those that had ended.
fn judged(alloc: Global, text: &[u8], whole: bool) -> Result<Vec<Piece>, NoMemory>
    ensures { IfOk result (λ v. v.items ≡ judged whole text.now) }
{
    let mut pieces = pieces(alloc, text)?;
    if whole {
        return Ok(pieces);
    }
    pieces.retain(|piece| piece.ended);
    Ok(pieces)
}

/// Prints what the pieces of a text come to that are judged.
pub fn print_text<R: Threads + Wait + Sync, G: Gate, K: Sink>(
    alloc: Global,
    crew: &Crew<R, G>,
    text: &[u8],
    whole: bool,
    program: &Program,
    bounds: Bounds,
    atoms: &mut Atoms,
    out: &mut K,
) -> Result<Tally, Halt>
    requires budget { bounds.budget ≤ 2 ^ 54 }
    requires query { LeavesQuery program.now atoms.old }
    ensures lines { Finishes (K.pieces out.old) (K.pieces out.new) (IsOutput bounds.budget bounds.answers program.now atoms.old text.now (judged whole text.now)) result }
    ensures counted { IfOk result (λ _. Puts (K.pieces out.old) (K.pieces out.new) (IsCountedOutput bounds crew.now.workers program.now atoms.old text.now (judged whole text.now))) }
    ensures count { SinkCount (K.faults out.old) (K.faults out.new) result }
    ensures table { OnOk result (atoms.new ≡ atoms.old) }
{
    let Ok(pieces) = judged(alloc, text, whole) else {
        return Err(Halt::NoMemory);
    };
    let Ok(program) = Predicates::of(alloc, program) else {
        return Err(Halt::NoMemory);
    };
    print_pieces(alloc, crew, text, &pieces, &program, bounds, atoms, out)
}
