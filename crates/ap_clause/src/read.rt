//! Reads a program, and a query beside one.

ghost use Rattle.std.specs.Prelude.{◌≡◌, ◌+◌, ◌<◌, ◌≤◌, ◌^◌, ◌⊎◌, List, [], length, drop, slice_index, Ok, None, IfOk, IfErr, IfSome, OnOk, OnErr, Contains};
ghost use Rattle.ap_term.specs.declared.fixed.TheConstants.{QUERY};
ghost use Rattle.ap_term.specs.Tree.{atom};
ghost use Rattle.ap_lifting.specs.Sizes.{predicates_if};
ghost use Rattle.ap_lexer.specs.Lexeme.{Text};
ghost use Rattle.ap_lexer.specs.Piece.{line_at, pieces_behind, pieces as pieces_of};
ghost use Rattle.ap_lexer.specs.Cutter.{Stands, Cuts, text_of, left};
ghost use Rattle.ap_reader.specs.Build.{Extends};
ghost use Rattle.ap_clause.specs.declared.refusal.Refusal.TheVariants as refusal;
ghost use Rattle.ap_clause.specs.Reads as spec;
ghost use Rattle.ap_clause.specs.Reads.{AcceptsProgram, RefusesProgram, AcceptsQuery, RefusesQuery};
ghost use Rattle.ap_clause.specs.Verdict.{ReadsOn, GivesAll, IsCounted, AreCounted, position};
ghost use Rattle.ap_clause.specs.Parts.{ReadsFurther, IsFurther};

use crate::fresh::fresh_names;
use crate::judge::{Counts, Read, variables_of};
use crate::long::take_long;
use crate::refusal::Refusal;
use crate::source::Source;
use crate::take::{take_piece, take_tokens};
use ap_lexer::{Cutter, MAX_KEPT, Piece, Token};
use ap_lifting::{Lifted, Rule, lift_program, lift_question};
use ap_reader::Room;
use ap_term::{Atom, Atoms, Name, NoMemory, Program, Query};
use std::alloc::Global;

/// A place between two pieces of a text, and its line.
#[derive(Clone, Copy)]
struct Spot {
    at: usize,
    line: u64,
}

/// Reads the next clause of a text, if there is one.
fn take_next<'a>(
    alloc: Global,
    cutter: &mut Cutter<'a>,
    room: &mut Room<'a>,
    tokens: &mut Vec<Token<'a>>,
    before: Counts,
    atoms: &mut Atoms,
) -> Result<Option<Read<'a>>, Refusal>
    requires { Stands cutter.old }
    ensures text { text_of cutter.new ≡ text_of cutter.old }
    ensures before { cutter.new.before ≡ cutter.old.before }
    ensures stands { OnOk result (Stands cutter.new) }
    ensures cuts { OnOk result ((whole : Text) → Cuts whole cutter.old → Cuts whole cutter.new) }
    ensures next { (whole : Text) → Cuts whole cutter.old → ReadsOn whole (left whole cutter.old) (left whole cutter.new) before atoms.old atoms.new result }
    ensures counted { IfOk result (λ r. IfSome r (λ read. IsCounted before read atoms.new)) }
    ensures kept { result ≡ Ok None → atoms.new ≡ atoms.old }
    ensures grows { Extends atoms.old atoms.new }
{
    let piece = match cutter.next(tokens) {
        Ok(Some(piece)) => piece,
        Ok(None) => return Ok(None),
        Err(_) => return Err(Refusal::NoMemory),
    };
    if tokens.len() > MAX_KEPT {
        let all = cutter.tokens_of(&piece);
        return match take_long(alloc, Source::Program, &piece, all, room, before, atoms) {
            Ok(read) => Ok(Some(read)),
            Err(refusal) => Err(refusal),
        };
    }
    match take_tokens(alloc, Source::Program, &piece, room, tokens, before, atoms) {
        Ok(read) => Ok(Some(read)),
        Err(refusal) => Err(refusal),
    }
}

/// Reads the clauses of what is left of a text at a place, behind others, until more than so many of its bytes are gone: the place
/// behind the last one, where the text isn't at its end.
fn take_until<'a>(
    alloc: Global,
    text: &'a [u8],
    spot: Spot,
    until: usize,
    room: &mut Room<'a>,
    rules: &mut Vec<Rule>,
    counts: &mut Counts,
    atoms: &mut Atoms,
) -> Result<Option<Spot>, Refusal>
    requires fits { spot.at + length text.now < 2 ^ 63 }
    requires line { spot.line ≤ spot.at + 1 }
    requires counted { AreCounted rules.old.items counts.old atoms.old }
    ensures reads { (whole : Text) → text.now ≡ drop spot.at whole → spot.line ≡ line_at whole spot.at → ReadsFurther whole (pieces_behind whole spot.at) (position atoms.old counts.old) rules.old.items (position atoms.new counts.new) rules.new.items result }
    ensures there { IfOk result (λ s. IfSome s (IsFurther spot (length text.now) until)) }
    ensures counted { OnOk result (AreCounted rules.new.items counts.new atoms.new) }
    ensures grows { Extends atoms.old atoms.new }
{
    let mut cutter = Cutter::behind(text, spot.at, spot.line);
    let mut tokens = Vec::new(alloc);
    // (a clause takes a byte at least, so no text has as many: the bound is only that the loop is seen to end)
    for _turn in 0..u64::MAX {
        let gone = cutter.gone();
        if until < gone {
            return Ok(Some(Spot {
                at: spot.at + gone,
                line: cutter.line(),
            }));
        }
        match take_next(alloc, &mut cutter, room, &mut tokens, *counts, atoms) {
            Ok(Some(read)) => {
                *counts = read.counts;
                let Ok(()) = rules.push(read.rule) else {
                    return Err(Refusal::NoMemory);
                };
                room.take_names(read.names);
            }
            Ok(None) => return Ok(None),
            Err(refusal) => return Err(refusal),
        }
    }
    Err(Refusal::NoMemory)
}

/// The clauses of a text, before anything is lifted.
fn take_all(alloc: Global, text: &[u8], atoms: &mut Atoms) -> Result<(Vec<Rule>, Counts), Refusal>
    ensures verdict { GivesAll (λ out. spec.Reads text.now (pieces_of text.now) (spec.start atoms.old) [] out) atoms.new result }
    ensures counted { IfOk result (λ p. AreCounted p.0.items p.1 atoms.new) }
    ensures grows { Extends atoms.old atoms.new }
{
    let _room = atoms.mark();
    let mut rules = Vec::new(alloc);
    let mut counts = Counts {
        lifted: 0,
        clauses: 0,
    };
    let start = Spot { at: 0, line: 1 };
    let mut room = Room::new(alloc);
    match take_until(
        alloc,
        text,
        start,
        text.len(),
        &mut room,
        &mut rules,
        &mut counts,
        atoms,
    ) {
        Ok(None) => Ok((rules, counts)),
        Ok(Some(_)) => unreachable!(),
        Err(refusal) => Err(refusal),
    }
}

/// How many bytes are read in one part at least.
const PART: usize = 65_536;

/// How many bytes of what is left of a text are read before they are let go: half of it, so that each byte is moved about once.
fn part_of(len: usize) -> usize {
    if len <= PART { len } else { len / 2 }
}

/// The clauses of a text that is let go part by part while it's read, so that its clauses take its room.
fn take_owned(
    alloc: Global,
    text: Vec<u8>,
    atoms: &mut Atoms,
) -> Result<(Vec<Rule>, Counts), Refusal>
    ensures verdict { GivesAll (λ out. spec.Reads text.items (pieces_of text.items) (spec.start atoms.old) [] out) atoms.new result }
    ensures counted { IfOk result (λ p. AreCounted p.0.items p.1 atoms.new) }
    ensures grows { Extends atoms.old atoms.new }
{
    let _room = atoms.mark();
    let mut rest = text;
    let mut spot = Spot { at: 0, line: 1 };
    let mut room = Room::new(alloc);
    let mut rules = Vec::new(alloc);
    let mut counts = Counts {
        lifted: 0,
        clauses: 0,
    };
    loop {
        let until = part_of(rest.len());
        let mut here = room.for_another(alloc);
        match take_until(
            alloc,
            rest.as_slice(),
            spot,
            until,
            &mut here,
            &mut rules,
            &mut counts,
            atoms,
        ) {
            Ok(Some(next)) => {
                room = here.for_another(alloc);
                let Ok(behind) = rest.split_off(next.at - spot.at) else {
                    return Err(Refusal::NoMemory);
                };
                rest = behind;
                spot = next;
            }
            Ok(None) => return Ok((rules, counts)),
            Err(refusal) => return Err(refusal),
        }
    }
}

/// The program of clauses that were read, with what is lifted from them.
fn lift_all(
    alloc: Global,
    rules: Vec<Rule>,
    counts: Counts,
    atoms: &mut Atoms,
) -> Result<Program, Refusal>
    requires counted { AreCounted rules.items counts atoms.old }
    ensures lifts { IfOk result (λ p. spec.LiftsAll (position atoms.old counts) rules.items p atoms.new) }
    ensures err { IfErr result (λ r. r ≡ refusal.NoMemory) }
    ensures grows { Extends atoms.old atoms.new }
{
    let Ok(names) = fresh_names(alloc, counts.lifted, atoms) else {
        return Err(Refusal::NoMemory);
    };
    match lift_program(alloc, rules, &names) {
        Ok(program) => Ok(program),
        Err(_) => Err(Refusal::NoMemory),
    }
}

fn read_program(alloc: Global, text: &[u8], atoms: &mut Atoms) -> Result<Program, Refusal>
    ensures accepts { IfOk result (λ p. AcceptsProgram text.now atoms.old p atoms.new) }
    ensures refuses { IfErr result (λ r. (r ≡ refusal.NoMemory) ⊎ RefusesProgram text.now atoms.old r) }
    ensures grows { Extends atoms.old atoms.new }
{
    match take_all(alloc, text, atoms) {
        Ok((rules, counts)) => lift_all(alloc, rules, counts, atoms),
        Err(refusal) => Err(refusal),
    }
}

/// The same of a text that is let go while it's read.
fn read_owned(alloc: Global, text: Vec<u8>, atoms: &mut Atoms) -> Result<Program, Refusal>
    ensures accepts { IfOk result (λ p. AcceptsProgram text.items atoms.old p atoms.new) }
    ensures refuses { IfErr result (λ r. (r ≡ refusal.NoMemory) ⊎ RefusesProgram text.items atoms.old r) }
    ensures grows { Extends atoms.old atoms.new }
{
    match take_owned(alloc, text, atoms) {
        Ok((rules, counts)) => lift_all(alloc, rules, counts, atoms),
        Err(refusal) => Err(refusal),
    }
}

/// A query of a clause, with what is lifted from it.
fn question(
    alloc: Global,
    rule: Rule,
    variables: Vec<Name>,
    names: &[Atom],
) -> Result<Query, NoMemory>
    requires named { predicates_if rule.body ≤ length names.now }
    requires head { rule.head ≡ atom QUERY }
    requires variables { length variables.items ≡ rule.vars }
    ensures { IfOk result (λ q. q ≡ spec.lifted_query (slice_index names.now) rule variables.items) }
{
    let Lifted { question, lifted } = lift_question(alloc, rule, names)?;
    Ok(Query::new(question, lifted, variables))
}

fn read_query(
    alloc: Global,
    text: &[u8],
    piece: &Piece,
    program: &Program,
    atoms: &mut Atoms,
) -> Result<Query, Refusal>
    requires { Contains (pieces_of text.now) piece.now }
    ensures accepts { IfOk result (λ q. AcceptsQuery text.now piece.now program.now atoms.old q atoms.new) }
    ensures refuses { IfErr result (λ r. (r ≡ refusal.NoMemory) ⊎ RefusesQuery text.now piece.now program.now atoms.old r) }
    ensures grows { Extends atoms.old atoms.new }
{
    let before = Counts {
        lifted: 0,
        clauses: program.as_slice().len() as u64,
    };
    let read = match take_piece(alloc, Source::Query, text, piece, before, atoms) {
        Ok(read) => read,
        Err(refusal) => return Err(refusal),
    };
    let Ok(variables) = variables_of(alloc, &read) else {
        return Err(Refusal::NoMemory);
    };
    let Read { rule, counts, .. } = read;
    let Ok(names) = fresh_names(alloc, counts.lifted, atoms) else {
        return Err(Refusal::NoMemory);
    };
    match question(alloc, rule, variables, &names) {
        Ok(query) => Ok(query),
        Err(_) => Err(Refusal::NoMemory),
    }
}

/// The program of a text. Its names go into the table of atoms, those of lifted predicates behind the others; after an
/// error the table is as it was.
///
/// # Errors
/// The clauses are judged in their order, and the first that breaks a rule decides. The rules, in theirs: no bad token;
/// at most `MAX_OPEN` brackets open at once; a clause, by the grammar and by its form; a term at most `MAX_DEPTH` deep;
/// room for its names and for those of the predicates that are lifted from it; no name from outside the language; and
/// the limits of this crate. `NoMemory` may come at any point.
pub fn program(alloc: Global, text: &[u8], atoms: &mut Atoms) -> Result<Program, Refusal>
    ensures accepts { IfOk result (λ p. AcceptsProgram text.now atoms.old p atoms.new) }
    ensures refuses { IfErr result (λ r. (r ≡ refusal.NoMemory) ⊎ RefusesProgram text.now atoms.old r) }
    ensures table { OnErr result (atoms.new ≡ atoms.old) }
{
    let mark = atoms.mark();
    match read_program(alloc, text, atoms) {
        Ok(program) => Ok(program),
        Err(refusal) => {
            atoms.cut_to(mark);
            Err(refusal)
        }
    }
}

/// The program of a text, as `program` reads it. The text is let go part by part while it's read, so that its clauses take
/// its room.
///
/// # Errors
/// As of `program`.
pub fn program_of(alloc: Global, text: Vec<u8>, atoms: &mut Atoms) -> Result<Program, Refusal>
    ensures accepts { IfOk result (λ p. AcceptsProgram text.items atoms.old p atoms.new) }
    ensures refuses { IfErr result (λ r. (r ≡ refusal.NoMemory) ⊎ RefusesProgram text.items atoms.old r) }
    ensures table { OnErr result (atoms.new ≡ atoms.old) }
{
    let mark = atoms.mark();
    match read_owned(alloc, text, atoms) {
        Ok(program) => Ok(program),
        Err(refusal) => {
            atoms.cut_to(mark);
            Err(refusal)
        }
    }
}

/// The query of a piece that `pieces` gave for this text, beside a program whose names the table of atoms has. Its
/// names go behind those; after an error the table is as it was.
///
/// # Errors
/// As of `program`, for this piece alone.
pub fn query(
    alloc: Global,
    text: &[u8],
    piece: &Piece,
    program: &Program,
    atoms: &mut Atoms,
) -> Result<Query, Refusal>
    requires { Contains (pieces_of text.now) piece.now }
    ensures accepts { IfOk result (λ q. AcceptsQuery text.now piece.now program.now atoms.old q atoms.new) }
    ensures refuses { IfErr result (λ r. (r ≡ refusal.NoMemory) ⊎ RefusesQuery text.now piece.now program.now atoms.old r) }
    ensures table { OnErr result (atoms.new ≡ atoms.old) }
{
    let before = atoms.mark();
    match read_query(alloc, text, piece, program, atoms) {
        Ok(query) => Ok(query),
        Err(refusal) => {
            atoms.cut_to(before);
            Err(refusal)
        }
    }
}
