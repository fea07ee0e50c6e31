//! Programs, queries and answers as texts.

ghost use Rattle.std.specs.Prelude.{◌≡◌};

use ap_clause::{program, query};
use ap_lexer::pieces;
use ap_term::{Args, Atoms, Program, Query, Term};
use ap_writer::answer_line;
use std::alloc::Global;
use std::test::Fail;

/// A table of names. Nothing is said of it, so that its callers' proofs are short.
pub(crate) fn new_atoms(alloc: Global) -> Result<Atoms, Fail> {
    Ok(Atoms::new(alloc)?)
}

pub(crate) fn program_of(alloc: Global, text: &str, atoms: &mut Atoms) -> Result<Program, Fail> {
    let program = program(alloc, text.as_bytes(), atoms).ok();
    Ok(program.ok_or("no program")?)
}

/// The query of a text beside a program.
pub(crate) fn query_of(
    alloc: Global,
    text: &str,
    program: &Program,
    atoms: &mut Atoms,
) -> Result<Query, Fail> {
    let pieces = pieces(alloc, text.as_bytes()).ok().ok_or("no memory")?;
    let piece = pieces.first().ok_or("no piece")?;
    let query = query(alloc, text.as_bytes(), piece, program, atoms).ok();
    Ok(query.ok_or("no query")?)
}

/// The line of an answer.
fn line(alloc: Global, query: &Query, tuple: &[Term], atoms: &Atoms) -> Result<Vec<u8>, Fail> {
    if query.names().len() != tuple.len() {
        return Err(Fail::new("no answer"));
    }
    Ok(answer_line(alloc, query, tuple, atoms)?)
}

/// The lines of answers, a semicolon behind each.
pub(crate) fn lines(
    alloc: Global,
    query: &Query,
    answers: &[Args],
    atoms: &Atoms,
) -> Result<String, Fail> {
    let mut text = Vec::new(alloc);
    for answer in answers {
        text.extend_from_slice(line(alloc, query, answer.as_slice(), atoms)?.as_slice())?;
        text.extend_from_slice(b";")?;
    }
    Ok(String::from_utf8(text)?)
}
