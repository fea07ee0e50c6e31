//! Programs whose groups carry checks.

ghost use Rattle.std.specs.Prelude.{◌≡◌, IfOk};

use ap_term::{NoMemory, Program, copy_clause};
use std::alloc::Global;
use std::marker::Model;

/// A program whose groups carry checks.
#[derive(Drop)]
pub struct Annotated {
    program: Program,
}

impl Model for Annotated {
    ghost use Rattle.ap_term.specs.Goals.{Program as Clauses};
    ghost use Rattle.ap_term.specs.GoalCode.{program_code};

    ghost Value = { Clauses };

    ghost coded = { program_code };

    ghost view = { λ a. a.program };
}

impl Annotated {
    pub fn new(program: Program) -> Annotated
        ensures { result ≡ program }
    {
        Annotated { program }
    }

    pub fn program(&self) -> &Program
        ensures { result.now ≡ self.now }
    {
        &self.program
    }

    pub fn into_program(self) -> Program
        ensures { result ≡ self }
    {
        self.program
    }
}

/// The program with the groups and checks that its text has.
pub fn hand_written(alloc: Global, program: &Program) -> Result<Annotated, NoMemory>
    ensures { IfOk result (λ a. a ≡ program.now) }
{
    let mut copy = Program::new(alloc);
    for clause in program.as_slice() {
        copy.push(copy_clause(alloc, clause)?)?;
    }
    Ok(Annotated::new(copy))
}
