//! The verdict on a long piece, whose tokens are cut again for each question.

ghost use Rattle.std.specs.Prelude.{◌≡◌, ◌⊎◌, List, None, IfOk, OnOk, IfErr};
ghost use Rattle.ap_lexer.specs.Token.{Placed};
ghost use Rattle.ap_lexer.specs.Stream as stream;
ghost use Rattle.ap_reader.specs.Build.{Extends};
ghost use Rattle.ap_reader.specs.Long.{Answers};
ghost use Rattle.ap_reader.specs.Reading.{first_line, term_of};
ghost use Rattle.ap_clause.specs.declared.refusal.Refusal.TheVariants as refusal;
ghost use Rattle.ap_clause.specs.Reads as spec;
ghost use Rattle.ap_clause.specs.Reads.{Position};
ghost use Rattle.ap_clause.specs.Shape.{form_of};
ghost use Rattle.ap_clause.specs.Verdict.{Gives, IsSound, position, IsCounted};

use crate::form::{Form, pop_term, shape_after};
use crate::judge::{Counts, Read, judge};
use crate::refusal::Refusal;
use crate::source::Source;
use crate::take::fits;
use ap_lexer::{Piece, Tokens, push};
use ap_reader::{ParseErr, Room, Steps, are_too_deep, are_too_open, first_line_of, long_term};
use ap_term::{Atoms, InternErr};
use std::alloc::Global;

/// The form of the term that tokens spell.
fn form_of_tokens(alloc: Global, tokens: Tokens) -> Result<Form, ParseErr>
    requires { stream.Stands tokens }
    ensures { (ts : List Placed) → stream.Gives tokens.entry ts → Answers ts (λ front t f. f ≡ form_of (term_of front t)) result }
{
    let mut steps = Steps::new(alloc, tokens);
    let mut stack = Vec::new(alloc);
    for _step in 0..u64::MAX {
        match steps.next(alloc) {
            Ok(Some(step)) => {
                let shape = shape_after(&mut stack, steps.leaves(), step);
                let Ok(()) = push(&mut stack, shape) else {
                    return Err(ParseErr::NoMemory);
                };
            }
            Ok(None) => return Ok(pop_term(&mut stack)),
            Err(fault) => return Err(fault),
        }
    }
    Err(ParseErr::NoMemory)
}

/// Judges the tokens of a piece before their term is built.
fn judge_tokens(alloc: Global, source: Source, tokens: Tokens, line: u64) -> Result<(), Refusal>
    requires { stream.Stands tokens }
    ensures sound { OnOk result ((ts : List Placed) → stream.Gives tokens.entry ts → IsSound source ts) }
    ensures refused { IfErr result (λ r. (r ≡ refusal.NoMemory) ⊎ ((ts : List Placed) (p : Position) → stream.Gives tokens.entry ts → line ≡ first_line ts → spec.JudgesBy None source p ts (spec.Refused r))) }
{
    if are_too_open(tokens) {
        return Err(Refusal::TooDeep { line });
    }
    match form_of_tokens(alloc, tokens) {
        Ok(form) => {
            if !fits(source, form) {
                return Err(Refusal::NotAClause { line });
            }
        }
        Err(ParseErr::NotATerm) => return Err(Refusal::NotAClause { line }),
        Err(ParseErr::NoMemory) => return Err(Refusal::NoMemory),
    }
    match are_too_deep(alloc, tokens) {
        Ok(false) => Ok(()),
        Ok(true) => Err(Refusal::TooDeep { line }),
        Err(ParseErr::NotATerm) => Err(Refusal::NotAClause { line }),
        Err(ParseErr::NoMemory) => Err(Refusal::NoMemory),
    }
}

/// The verdict on a piece by its tokens, behind so many lifted predicates and clauses. The table may have some of its
/// names after an error.
pub(crate) fn take_long<'a>(
    alloc: Global,
    source: Source,
    piece: &Piece,
    tokens: Tokens<'a>,
    room: &mut Room,
    before: Counts,
    atoms: &mut Atoms,
) -> Result<Read<'a>, Refusal>
    requires { stream.Stands tokens }
    ensures verdict { (ts : List Placed) → stream.Gives tokens.entry ts → Gives (λ v. spec.JudgesBy piece.now.bad source (position atoms.old before) ts v) atoms.new result }
    ensures counted { IfOk result (λ r. IsCounted before r atoms.new) }
    ensures grows { Extends atoms.old atoms.new }
{
    if let Some(line) = piece.bad {
        return Err(Refusal::BadToken { line });
    }
    let line = first_line_of(tokens);
    if let Err(refusal) = judge_tokens(alloc, source, tokens, line) {
        return Err(refusal);
    }
    let mark = atoms.mark();
    match long_term(alloc, tokens, room, atoms) {
        Ok((term, names)) => {
            let _kept = atoms.mark();
            judge(alloc, source, term, names, line, before, atoms)
        }
        Err(InternErr::Full) => {
            atoms.cut_to(mark);
            Err(Refusal::TooManyAtoms { line })
        }
        Err(InternErr::NoMemory) => {
            atoms.cut_to(mark);
            Err(Refusal::NoMemory)
        }
    }
}
