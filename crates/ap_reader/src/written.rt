//! Tokens as a term: its steps, then the term itself.

ghost use Rattle.std.specs.Prelude.{◌≡◌, List, IfOk, MatchOption, map, nat_lt};
ghost use Rattle.ap_lexer.specs.Token.{Placed, view};
ghost use Rattle.ap_reader.specs.Reading as spec;
ghost use Rattle.ap_reader.specs.Bracket.{most_open};
ghost use Rattle.ap_reader.specs.Leaves.{texts};

use crate::bracket::most_open;
use crate::build::build;
use crate::depth::{MAX_DEPTH, is_too_deep};
use crate::error::ReadErr;
use crate::leaf::{Leaf, LeafErr, leaves};
use crate::pass::{ParseErr, Step, steps};
use crate::room::Room;
use ap_lexer::{Token, TokenKind};
use ap_term::{Atoms, InternErr, Name, NoMemory, Term};
use std::alloc::Global;

/// How many brackets may be open at once.
pub const MAX_OPEN: usize = 1000;

/// A term that isn't built yet: whether it can be is still to be judged.
#[derive(Drop)]
pub struct WrittenTerm<'a> {
    /// What makes the term, each step after those of its operands.
    pub steps: Vec<Step>,
    /// What each token is as an operand or a functor, by the place that steps name.
    pub leaves: Vec<Leaf<'a>>,
    /// The names of the variables, by number from 1.
    pub names: Vec<&'a str>,
    /// The line of the first token, counted from 1.
    pub line: u64,
}

/// A term and the names of its variables, by number from 1.
#[derive(Drop)]
pub struct ReadTerm {
    pub term: Term,
    pub names: Vec<Name>,
}

fn first_line(tokens: &[Token]) -> u64
    ensures { result ≡ spec.first_line (map view tokens.now) }
{
    match tokens {
        [token, ..] => token.line,
        [] => 1,
    }
}

/// Whether more than `MAX_OPEN` brackets are open at once. No more are than there are tokens.
fn is_too_open(tokens: &[Token]) -> bool
    ensures { result ≡ nat_lt MAX_OPEN (most_open 0 (map view tokens.now)) }
{
    if tokens.len() <= MAX_OPEN {
        return false;
    }
    most_open(tokens) > MAX_OPEN
}

/// The tokens before the end token that is the last.
fn before_end<'t, 'a>(tokens: &'t [Token<'a>]) -> Option<&'t [Token<'a>]>
    ensures { MatchOption result ((front : List Placed) → spec.EndsAs (map view tokens.now) front → ⊥) (λ front. spec.EndsAs (map view tokens.now) (map view front.now)) }
{
    match tokens.split_last() {
        Some((last, front)) => match last.kind {
            TokenKind::End => Some(front),
            _ => None,
        },
        None => None,
    }
}

/// The term that tokens spell, the last of which is an end token; it isn't built yet. Its lists take
/// the room of those that are kept.
///
/// # Errors
/// `TooDeep` where more than `MAX_OPEN` brackets are open at once; else `NotAClause` exactly where
/// the tokens spell no term (ISO 13211-1, section 6.3); and `NoMemory`. Each has the first line.
pub fn parse_in<'a>(
    alloc: Global,
    room: &mut Room<'a>,
    tokens: &[Token<'a>],
) -> Result<WrittenTerm<'a>, ReadErr>
    ensures { spec.Parsed (map view tokens.now) result }
{
    let line = first_line(tokens);
    if is_too_open(tokens) {
        return Err(ReadErr::TooDeep { line });
    }
    let Some(front) = before_end(tokens) else {
        return Err(ReadErr::NotAClause { line });
    };
    let steps = match steps(alloc, room, front) {
        Ok(steps) => steps,
        Err(ParseErr::NotATerm) => return Err(ReadErr::NotAClause { line }),
        Err(ParseErr::NoMemory) => return Err(ReadErr::NoMemory),
    };
    match leaves(alloc, room, front) {
        Ok((leaves, names)) => Ok(WrittenTerm {
            steps,
            leaves,
            names,
            line,
        }),
        Err(LeafErr::NotText) => Err(ReadErr::NotAClause { line }),
        Err(LeafErr::NoMemory) => Err(ReadErr::NoMemory),
    }
}

/// The term that tokens spell, the last of which is an end token; it isn't built yet.
///
/// # Errors
/// As of `parse_in`.
pub fn parse<'a>(alloc: Global, tokens: &[Token<'a>]) -> Result<WrittenTerm<'a>, ReadErr>
    ensures { spec.Parsed (map view tokens.now) result }
{
    let mut room = Room::new(alloc);
    parse_in(alloc, &mut room, tokens)
}

impl<'a> WrittenTerm<'a> {
    ghost use Rattle.std.specs.Prelude.{◌≡◌, nat_lt, map, IfOk};
    ghost use Rattle.ap_reader.specs.Grammar.{Tree};
    ghost use Rattle.ap_reader.specs.Step.{postfix};
    ghost use Rattle.ap_reader.specs.Written.{leaf_of, meaning};
    ghost use Rattle.ap_reader.specs.Depth.{depth};
    ghost use Rattle.ap_reader.specs.Reading as spec;

    /// Whether the term is deeper than `MAX_DEPTH`. The tails of lists add no depth.
    pub fn is_too_deep(&self, alloc: Global) -> Result<bool, NoMemory>
        ensures { IfOk result (λ b. (t : Tree) → self.now.steps.items ≡ postfix t → b ≡ nat_lt MAX_DEPTH (depth (meaning (map leaf_of self.now.leaves.items) t))) }
    {
        is_too_deep(alloc, &self.leaves, &self.steps)
    }

    /// The term itself. Its names go into the table of atoms, those of arguments before that of their
    /// functor; after an error the table is as it was.
    ///
    /// # Errors
    /// `TooDeep` where it is deeper than `MAX_DEPTH`; else `TooManyAtoms` exactly where the table
    /// has no room for its names; and `NoMemory`. Each has the first token's line.
    pub fn term_in(
        &self,
        alloc: Global,
        room: &mut Room<'a>,
        atoms: &mut Atoms,
    ) -> Result<Term, ReadErr>
        ensures { (t : Tree) → self.now.steps.items ≡ postfix t → spec.BuiltTerm (map leaf_of self.now.leaves.items) t self.now.line atoms.old atoms.new result }
    {
        match self.is_too_deep(alloc) {
            Ok(false) => {}
            Ok(true) => return Err(ReadErr::TooDeep { line: self.line }),
            Err(_) => return Err(ReadErr::NoMemory),
        }
        let mark = atoms.mark();
        match build(
            alloc,
            &self.leaves,
            &self.steps,
            &mut room.stack,
            &mut room.recent,
            atoms,
        ) {
            Ok(term) => {
                let _room = atoms.mark();
                Ok(term)
            }
            Err(InternErr::Full) => {
                atoms.cut_to(mark);
                Err(ReadErr::TooManyAtoms { line: self.line })
            }
            Err(InternErr::NoMemory) => {
                atoms.cut_to(mark);
                Err(ReadErr::NoMemory)
            }
        }
    }

    /// The term itself. Its names go into the table of atoms, those of arguments before that of their
    /// functor; after an error the table is as it was.
    ///
    /// # Errors
    /// As of `term_in`.
    pub fn term(&self, alloc: Global, atoms: &mut Atoms) -> Result<Term, ReadErr>
        ensures { (t : Tree) → self.now.steps.items ≡ postfix t → spec.BuiltTerm (map leaf_of self.now.leaves.items) t self.now.line atoms.old atoms.new result }
    {
        let mut room = Room::new(alloc);
        self.term_in(alloc, &mut room, atoms)
    }
}

/// Makes names of their own of those that stand in a text.
pub fn own_names(alloc: Global, names: &[&str]) -> Result<Vec<Name>, NoMemory>
    ensures { IfOk result (λ v. v.items ≡ texts names.now) }
{
    let mut out = Vec::with_capacity(alloc, names.len())?;
    let mut left = names;
    while let [name, rest @ ..] = left {
        out.push(Name::new(alloc, name)?)?;
        left = rest;
    }
    Ok(out)
}

/// The term that tokens spell, the last of which is an end token, with its names in the table of
/// atoms; after an error the table is as it was.
///
/// # Errors
/// In this order: `TooDeep` where more than `MAX_OPEN` brackets are open at once; `NotAClause`
/// exactly where the tokens spell no term; `TooDeep` where it is deeper than `MAX_DEPTH`;
/// `TooManyAtoms` where the table has no room for its names. `NoMemory` may come at any point.
pub fn read_term(alloc: Global, tokens: &[Token], atoms: &mut Atoms) -> Result<ReadTerm, ReadErr>
    ensures { spec.ReadAs (map view tokens.now) atoms.old atoms.new result }
{
    match parse(alloc, tokens) {
        Ok(written) => {
            let Ok(names) = own_names(alloc, &written.names) else {
                return Err(ReadErr::NoMemory);
            };
            match written.term(alloc, atoms) {
                Ok(term) => Ok(ReadTerm { term, names }),
                Err(e) => Err(e),
            }
        }
        Err(e) => Err(e),
    }
}
