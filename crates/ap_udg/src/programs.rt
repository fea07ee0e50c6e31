//! Programs of clauses that are there: none of them is copied.

ghost use Rattle.std.specs.Prelude.{◌≡◌, IfOk};

use ap_cge::Annotated;
use ap_term::{Clause, NoMemory, Program};
use std::alloc::Global;

/// The program of clauses.
pub fn program_of(alloc: Global, clauses: Vec<Clause>) -> Result<Program, NoMemory>
    ensures { IfOk result (λ p. p ≡ clauses.items) }
{
    let mut program = Program::new(alloc);
    for clause in clauses {
        program.push(clause)?;
    }
    Ok(program)
}

/// The annotated program of clauses.
pub fn annotated_of(alloc: Global, clauses: Vec<Clause>) -> Result<Annotated, NoMemory>
    ensures { IfOk result (λ a. a ≡ clauses.items) }
{
    Ok(Annotated::new(program_of(alloc, clauses)?))
}
