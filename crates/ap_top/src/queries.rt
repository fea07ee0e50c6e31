//! The pieces of a source, each judged alone beside the program.

ghost use Rattle.std.specs.Prelude.{◌≡◌, ◌≤◌, ◌^◌, [], ◌∷◌, IfOk, OnOk, IfSome, All, Contains};
ghost use Rattle.ap_lexer.specs.Piece as lexer;
ghost use Rattle.ap_outside.specs.Halting.{Finishes, Prints, SinkCount};
ghost use Rattle.ap_outside.specs.Pieces.{Puts};
ghost use Rattle.ap_top.specs.Counted.{IsCountedOutput, IsCountedPiece};
ghost use Rattle.ap_top.specs.Last.{IsLast};
ghost use Rattle.ap_top.specs.Output.{PieceEnds, IsOutput};
ghost use Rattle.ap_top.specs.Refusals.{refusal_line};
ghost use Rattle.ap_top.specs.Unasked.{LeavesQuery};

use crate::answers::{Bounds, print_query};
use crate::last::Last;
use crate::refusals::refusal_line;
use crate::status::Tally;
use ap_clause::{Refusal, query};
use ap_lexer::Piece;
use ap_outside::{Gate, Halt, Sink, put_line};
use ap_reach::Predicates;
use ap_term::Atoms;
use ap_worker::Crew;
use std::alloc::Global;
use std::sync::Wait;
use std::thread::Threads;

/// Prints the line of a refusal.
pub fn print_refusal<K: Sink>(
    alloc: Global,
    refusal: &Refusal,
    atoms: &Atoms,
    out: &mut K,
) -> Result<(), Halt>
    ensures lines { Prints (K.pieces out.old) (K.pieces out.new) (λ put. put ≡ refusal_line atoms.now refusal.now ∷ []) result }
    ensures count { SinkCount (K.faults out.old) (K.faults out.new) result }
{
    let Ok(line) = refusal_line(alloc, refusal, atoms) else {
        return Err(Halt::NoMemory);
    };
    put_line(&line, out)
}

// Prints what a piece comes to. The table is cut back after it.
fn print_piece<R: Threads + Wait + Sync, G: Gate, K: Sink>(
    alloc: Global,
    crew: &Crew<R, G>,
    text: &[u8],
    piece: &Piece,
    program: &Predicates<'_>,
    kept: &mut Option<Last>,
    bounds: Bounds,
    atoms: &mut Atoms,
    out: &mut K,
) -> Result<Tally, Halt>
    requires budget { bounds.budget ≤ 2 ^ 54 }
    requires query { LeavesQuery program.now atoms.old }
    requires kept { IfSome kept.old (IsLast program.now bounds.kind) }
    requires piece { Contains (lexer.pieces text.now) piece.now }
    ensures lines { Finishes (K.pieces out.old) (K.pieces out.new) (PieceEnds bounds.budget bounds.answers program.now atoms.old text.now piece.now) result }
    ensures counted { IfOk result (λ _. Puts (K.pieces out.old) (K.pieces out.new) (IsCountedPiece bounds crew.now.workers program.now atoms.old text.now piece.now)) }
    ensures count { SinkCount (K.faults out.old) (K.faults out.new) result }
    ensures table { OnOk result (atoms.new ≡ atoms.old) }
    ensures kept { IfSome kept.new (IsLast program.now bounds.kind) }
{
    let mark = atoms.mark();
    let whole = program.program();
    match query(alloc, text, piece, whole, atoms) {
        Ok(query) => {
            let spent = print_query(alloc, crew, program, kept, &query, bounds, atoms, out)?;
            atoms.cut_to(mark);
            Ok(Tally {
                spent,
                refused: false,
            })
        }
        Err(Refusal::NoMemory) => Err(Halt::NoMemory),
        Err(refusal) => {
            print_refusal(alloc, &refusal, atoms, out)?;
            Ok(Tally {
                spent: false,
                refused: true,
            })
        }
    }
}

/// Prints what each piece of a text comes to, in order.
pub fn print_pieces<R: Threads + Wait + Sync, G: Gate, K: Sink>(
    alloc: Global,
    crew: &Crew<R, G>,
    text: &[u8],
    pieces: &[Piece],
    program: &Predicates<'_>,
    bounds: Bounds,
    atoms: &mut Atoms,
    out: &mut K,
) -> Result<Tally, Halt>
    requires budget { bounds.budget ≤ 2 ^ 54 }
    requires query { LeavesQuery program.now atoms.old }
    requires pieces { All (Contains (lexer.pieces text.now)) pieces.now }
    ensures lines { Finishes (K.pieces out.old) (K.pieces out.new) (IsOutput bounds.budget bounds.answers program.now atoms.old text.now pieces.now) result }
    ensures counted { IfOk result (λ _. Puts (K.pieces out.old) (K.pieces out.new) (IsCountedOutput bounds crew.now.workers program.now atoms.old text.now pieces.now)) }
    ensures count { SinkCount (K.faults out.old) (K.faults out.new) result }
    ensures table { OnOk result (atoms.new ≡ atoms.old) }
{
    let mut tally = Tally {
        spent: false,
        refused: false,
    };
    let mut kept = None;
    for piece in pieces {
        let here = print_piece(
            alloc, crew, text, piece, program, &mut kept, bounds, atoms, out,
        )?;
        tally = tally.and(here);
    }
    Ok(tally)
}
