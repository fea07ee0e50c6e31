//! The verdict on a piece of a text.

ghost use Rattle.std.specs.Prelude.{◌≡◌, ◌⊎◌, List, None, Ok, IfOk, IfErr, Contains, map};
ghost use Rattle.ap_lexer.specs.Token.{Placed, view};
ghost use Rattle.ap_lexer.specs.Piece.{pieces as pieces_of};
ghost use Rattle.ap_term.specs.AtomTable.{capacity};
ghost use Rattle.ap_term.specs.TermView.{tree_of};
ghost use Rattle.ap_reader.specs.Grammar.{Tree};
ghost use Rattle.ap_reader.specs.Step.{postfix};
ghost use Rattle.ap_reader.specs.Written.{Written, leaf_of, meaning};
ghost use Rattle.ap_reader.specs.Reading.{StandsFor, Parsed};
ghost use Rattle.ap_reader.specs.Build.{Extends};
ghost use Rattle.ap_clause.specs.Shape.{form_of};
ghost use Rattle.ap_clause.specs.Reads as spec;
ghost use Rattle.ap_clause.specs.Reads.{Position};
ghost use Rattle.ap_clause.specs.declared.refusal.Refusal.TheVariants as refusal;
ghost use Rattle.ap_clause.specs.Verdict.{Gives, position, IsCounted};

use crate::form::{Form, form_by};
use crate::judge::{Counts, Read, judge};
use crate::refusal::Refusal;
use crate::source::Source;
use ap_lexer::{LexErr, Piece, Token, tokens};
use ap_reader::{ReadErr, Room, WrittenTerm, parse_in};
use ap_term::{Atoms, NoMemory};
use std::alloc::Global;

/// How many tokens room is kept for from one clause to the next.
const COMMON_ROOM: usize = 1024;

pub(crate) fn fits(source: Source, form: Form) -> bool
    ensures { (x : Written) → form ≡ form_of x → result ≡ spec.fits source x }
{
    match source {
        Source::Program => form.clause,
        Source::Query => form.query,
    }
}

fn form_of_written(alloc: Global, written: &WrittenTerm) -> Result<Form, NoMemory>
    ensures { IfOk result (λ f. (t : Tree) → written.now.steps.items ≡ postfix t → f ≡ form_of (meaning (map leaf_of written.now.leaves.items) t)) }
{
    form_by(alloc, &written.leaves, &written.steps)
}

/// The verdict on the term that a piece's tokens spell.
fn take<'a>(
    alloc: Global,
    source: Source,
    room: &mut Room<'a>,
    written: WrittenTerm<'a>,
    before: Counts,
    atoms: &mut Atoms,
) -> Result<Read<'a>, Refusal>
    requires { (front : List Placed) × ((t : Tree) × StandsFor front t written) }
    ensures verdict { (front : List Placed) (t : Tree) → StandsFor front t written.entry → Gives (λ v. v ≡ spec.judged_sentence source (position atoms.old before) written.entry.line (record { front = front; tree = t })) atoms.new result }
    ensures counted { IfOk result (λ r. IsCounted before r atoms.new) }
    ensures grows { Extends atoms.old atoms.new }
{
    let line = written.line;
    let Ok(form) = form_of_written(alloc, &written) else {
        return Err(Refusal::NoMemory);
    };
    if !fits(source, form) {
        return Err(Refusal::NotAClause { line });
    }
    match written.term_in(alloc, room, atoms) {
        Ok(term) => {
            let _kept = atoms.mark();
            let names = room.take_back(written);
            judge(alloc, source, term, names, line, before, atoms)
        }
        Err(ReadErr::NotAClause { line }) => Err(Refusal::NotAClause { line }),
        Err(ReadErr::TooDeep { line }) => Err(Refusal::TooDeep { line }),
        Err(ReadErr::TooManyAtoms { line }) => Err(Refusal::TooManyAtoms { line }),
        Err(ReadErr::NoMemory) => Err(Refusal::NoMemory),
    }
}

/// Lets tokens go, but for the room of those of a common clause.
fn let_go(tokens: &mut Vec<Token>) {
    tokens.clear();
    tokens.shrink_to(COMMON_ROOM);
}

/// What stands for the term that tokens spell, none of which is bad.
fn written_in<'a>(
    alloc: Global,
    room: &mut Room<'a>,
    tokens: &[Token<'a>],
) -> Result<WrittenTerm<'a>, Refusal>
    ensures ok { IfOk result (λ w. Parsed (map view tokens.now) (Ok w)) }
    ensures err { IfErr result (λ r. (r ≡ refusal.NoMemory) ⊎ ((source : Source) (p : Position) → spec.JudgesBy None source p (map view tokens.now) (spec.Refused r))) }
{
    match parse_in(alloc, room, tokens) {
        Ok(written) => Ok(written),
        Err(ReadErr::NotAClause { line }) => Err(Refusal::NotAClause { line }),
        Err(ReadErr::TooDeep { line }) => Err(Refusal::TooDeep { line }),
        Err(ReadErr::TooManyAtoms { line }) => Err(Refusal::TooManyAtoms { line }),
        Err(ReadErr::NoMemory) => Err(Refusal::NoMemory),
    }
}

/// The verdict on a piece by its tokens, behind so many lifted predicates and clauses. The tokens are let go before
/// their term is built; the table may have some of its names after an error.
pub(crate) fn take_tokens<'a>(
    alloc: Global,
    source: Source,
    piece: &Piece,
    room: &mut Room<'a>,
    tokens: &mut Vec<Token<'a>>,
    before: Counts,
    atoms: &mut Atoms,
) -> Result<Read<'a>, Refusal>
    ensures verdict { Gives (λ v. spec.JudgesBy piece.now.bad source (position atoms.old before) (map view tokens.old.items) v) atoms.new result }
    ensures counted { IfOk result (λ r. IsCounted before r atoms.new) }
    ensures grows { Extends atoms.old atoms.new }
{
    if let Some(line) = piece.bad {
        return Err(Refusal::BadToken { line });
    }
    match written_in(alloc, room, tokens.as_slice()) {
        Ok(written) => {
            let_go(tokens);
            take(alloc, source, room, written, before, atoms)
        }
        Err(refusal) => Err(refusal),
    }
}

/// The verdict on a piece of a text, behind so many lifted predicates and clauses. The table may have some of its names
/// after an error.
pub(crate) fn take_piece<'a>(
    alloc: Global,
    source: Source,
    text: &'a [u8],
    piece: &Piece,
    before: Counts,
    atoms: &mut Atoms,
) -> Result<Read<'a>, Refusal>
    requires { Contains (pieces_of text.now) piece.now }
    ensures verdict { Gives (λ v. spec.Judges source text.now (position atoms.old before) piece.now v) atoms.new result }
    ensures counted { IfOk result (λ r. IsCounted before r atoms.new) }
    ensures grows { Extends atoms.old atoms.new }
{
    let mut tokens = match tokens(alloc, text, piece) {
        Ok(tokens) => tokens,
        Err(LexErr::BadToken { line }) => return Err(Refusal::BadToken { line }),
        Err(LexErr::NoMemory) => return Err(Refusal::NoMemory),
    };
    let mut room = Room::new(alloc);
    take_tokens(alloc, source, piece, &mut room, &mut tokens, before, atoms)
}
