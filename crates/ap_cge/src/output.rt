//! Printing an annotated program, a line for each clause.

ghost use Rattle.std.specs.Prelude.{◌≡◌, ◌++◌, ◌∷◌, [], ℕ, List, map, OnOk, IfOk};
ghost use Rattle.ap_outside.specs.Halting.{Prints, SinkCount};
ghost use Rattle.ap_term.specs.Blocks.{IsPrefix};
ghost use Rattle.ap_cge.specs.Printed.{add_piece_vars, add_pieces_vars, piece_text, pieces_text, line_of, lines_of};
ghost use Rattle.ap_cge.specs.PieceView.{piece_of};
ghost use Rattle.ap_cge.specs.Printing.{PutsLines, CountsFaults};

use crate::annotated::Annotated;
use crate::pieces::{Piece, clause_pieces};
use ap_outside::{Halt, Sink, put_line};
use ap_term::{Atoms, Clause, NoMemory, Term};
use ap_writer::{Numbers, write_term};
use std::alloc::Global;

/// Why printing stops.
#[derive(Clone, Copy, Debug, PartialEq, Eq)]
pub enum PrintErr {
    /// The sink failed, perhaps inside a line.
    Sunk,
    /// Memory was wanting, behind a whole line.
    NoMemory,
}

fn write_piece(
    alloc: Global,
    out: &mut Vec<u8>,
    numbers: &mut Numbers,
    atoms: &Atoms,
    piece: Piece,
) -> Result<(), NoMemory>
    ensures text { OnOk result ((found : List ℕ) → IsPrefix numbers.new found → out.new.items ≡ out.old.items ++ piece_text atoms.now found (piece_of piece.entry)) }
    ensures variables { OnOk result (numbers.new ≡ add_piece_vars (piece_of piece.entry) numbers.old) }
{
    match piece {
        Piece::Sign(bytes) => Ok(out.extend_from_slice(bytes)?),
        Piece::Term(t) => write_term(alloc, out, numbers, atoms, t),
        Piece::Variable(x) => write_term(alloc, out, numbers, atoms, &Term::Var(x)),
    }
}

fn write_pieces(
    alloc: Global,
    out: &mut Vec<u8>,
    numbers: &mut Numbers,
    atoms: &Atoms,
    pieces: &[Piece],
) -> Result<(), NoMemory>
    ensures text { OnOk result ((found : List ℕ) → IsPrefix numbers.new found → out.new.items ≡ out.old.items ++ pieces_text atoms.now found (map piece_of pieces.now)) }
    ensures variables { OnOk result (numbers.new ≡ add_pieces_vars (map piece_of pieces.now) numbers.old) }
{
    for piece in pieces {
        write_piece(alloc, out, numbers, atoms, *piece)?;
    }
    Ok(())
}

/// The line of a clause, with its line feed.
fn line_of(alloc: Global, atoms: &Atoms, clause: &Clause) -> Result<Vec<u8>, NoMemory>
    ensures { IfOk result (λ line. line.items ≡ line_of atoms.now clause.now) }
{
    let pieces = clause_pieces(alloc, atoms, clause)?;
    let mut line = Vec::new(alloc);
    let mut numbers = Numbers::new(alloc);
    write_pieces(alloc, &mut line, &mut numbers, atoms, &pieces)?;
    Ok(line)
}

fn put_clauses<K: Sink>(
    alloc: Global,
    clauses: &[Clause],
    atoms: &Atoms,
    out: &mut K,
) -> Result<(), Halt>
    ensures lines { Prints (K.pieces out.old) (K.pieces out.new) (λ put. put ≡ lines_of atoms.now clauses.now) result }
    ensures count { SinkCount (K.faults out.old) (K.faults out.new) result }
{
    for clause in clauses {
        let Ok(line) = line_of(alloc, atoms, clause) else {
            return Err(Halt::NoMemory);
        };
        put_line(&line, out)?;
    }
    Ok(())
}

/// Puts a line for each clause, each as one piece: the head, the parts of the body behind ` :- `, parted by `, `, and a full
/// stop. A group's goals are parted by ` & `, behind its checks and ` => ` where it has any.
pub fn print<K: Sink>(
    alloc: Global,
    annotated: &Annotated,
    atoms: &Atoms,
    out: &mut K,
) -> Result<(), PrintErr>
    ensures lines { PutsLines (K.pieces out.old) (K.pieces out.new) (lines_of atoms.now annotated.now) result }
    ensures count { CountsFaults (K.faults out.old) (K.faults out.new) result }
{
    match put_clauses(alloc, annotated.program().as_slice(), atoms, out) {
        Ok(()) => Ok(()),
        Err(Halt::Sink) => Err(PrintErr::Sunk),
        Err(Halt::NoMemory) => Err(PrintErr::NoMemory),
    }
}
