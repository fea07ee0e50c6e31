//! Programs, queries and answers as texts.

ghost use Rattle.std.specs.Prelude.{◌≡◌};

use ap_cells::Cells;
use ap_clause::{program, query};
use ap_codecheck::{Sound, check};
use ap_codegen::compile;
use ap_lexer::pieces;
use ap_machine::Tuple;
use ap_spec::search;
use ap_term::{Atoms, Program, Query, Term};
use std::alloc::Global;
use std::test::Fail;

/// A program beside a query, with the table of their names.
#[derive(Drop)]
pub(crate) struct Asked {
    pub(crate) atoms: Atoms,
    pub(crate) program: Program,
    pub(crate) query: Query,
}

fn program_of(alloc: Global, text: &str, atoms: &mut Atoms) -> Result<Program, Fail> {
    let program = program(alloc, text.as_bytes(), atoms).ok();
    Ok(program.ok_or("no program")?)
}

/// The query of a text beside a program.
fn query_of(
    alloc: Global,
    text: &str,
    program: &Program,
    atoms: &mut Atoms,
) -> Result<Query, Fail> {
    let pieces = pieces(alloc, text.as_bytes()).ok().ok_or("no memory")?;
    let piece = pieces.first().ok_or("no piece")?;
    let query = query(alloc, text.as_bytes(), piece, program, atoms).ok();
    Ok(query.ok_or("no query")?)
}

impl Asked {
    /// Reads both. Nothing is said of them, so that callers' proofs are short.
    pub(crate) fn read(alloc: Global, program: &str, query: &str) -> Result<Asked, Fail> {
        let mut atoms = Atoms::new(alloc)?;
        let program = program_of(alloc, program, &mut atoms)?;
        let query = query_of(alloc, query, &program, &mut atoms)?;
        Ok(Asked {
            atoms,
            program,
            query,
        })
    }

    /// Compiles both.
    pub(crate) fn compiled(&self, alloc: Global) -> Result<Sound, Fail> {
        let code = compile(alloc, &self.program, &self.query)?;
        Ok(check(alloc, code).ok().ok_or("no sound code")?)
    }

    /// Puts the line of an answer, and a semicolon, behind the others.
    pub(crate) fn put_line(
        &self,
        alloc: Global,
        tuple: &Tuple<'_>,
        lines: &mut Vec<u8>,
    ) -> Result<(), Fail> {
        if tuple.roots.len() != self.query.names().len() {
            return Err(Fail::new("no answer"));
        }
        let line = ap_lines::answer_line(
            alloc,
            &self.query,
            tuple.cells,
            tuple.roots,
            &self.atoms,
        )?;
        lines.extend_from_slice(line.as_slice())?;
        lines.extend_from_slice(b";")?;
        Ok(())
    }

    /// The line of an answer of the model.
    fn line_of(&self, alloc: Global, tuple: &[Term]) -> Result<Vec<u8>, Fail> {
        if self.query.names().len() != tuple.len() {
            return Err(Fail::new("no answer"));
        }
        Ok(ap_writer::answer_line(alloc, &self.query, tuple, &self.atoms)?)
    }

    /// Whether the model's search ends within so many calls, and the lines of its answers until then.
    pub(crate) fn searched(&self, alloc: Global, calls: u64) -> Result<(bool, Vec<u8>), Fail> {
        let found = search(alloc, &self.program, &self.query, calls.min(1000))?;
        let mut lines = Vec::new(alloc);
        for answer in found.answers.as_slice() {
            lines.extend_from_slice(self.line_of(alloc, answer.as_slice())?.as_slice())?;
            lines.extend_from_slice(b";")?;
        }
        Ok((found.ended, lines))
    }
}
