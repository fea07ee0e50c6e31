//! A program without its groups and checks.

ghost use Rattle.std.specs.Prelude.{◌≡◌, ◌++◌, map, IfOk, OnOk};
ghost use Rattle.ap_term.specs.TermView.{tree_of};
ghost use Rattle.ap_term.specs.GoalView.{part_of};
ghost use Rattle.ap_term.specs.Goals.{call};
ghost use Rattle.ap_cge.specs.Stripped.{stripped_part, stripped_clause, stripped};

use crate::annotated::Annotated;
use ap_term::{Body, Clause, NoMemory, Part, Program, Term, copy_term};
use std::alloc::Global;

fn add_calls(alloc: Global, goals: &[Term], out: &mut Body) -> Result<(), NoMemory>
    ensures { OnOk result (out.new ≡ out.old ++ map (λ t. call (tree_of t)) goals.now) }
{
    for goal in goals {
        out.push(Part::Call(copy_term(alloc, goal)?))?;
    }
    Ok(())
}

fn add_stripped(alloc: Global, part: &Part, out: &mut Body) -> Result<(), NoMemory>
    ensures { OnOk result (out.new ≡ out.old ++ stripped_part (part_of part.now)) }
{
    match part {
        Part::Call(goal) => out.push(Part::Call(copy_term(alloc, goal)?))?,
        Part::Group { calls, .. } => add_calls(alloc, calls.as_slice(), out)?,
    }
    Ok(())
}

fn strip_clause(alloc: Global, clause: &Clause) -> Result<Clause, NoMemory>
    ensures { IfOk result (λ c. c ≡ stripped_clause clause.now) }
{
    let mut body = Body::new(alloc);
    for part in clause.body().as_slice() {
        add_stripped(alloc, part, &mut body)?;
    }
    let head = copy_term(alloc, clause.head())?;
    Ok(Clause::new(head, body, clause.vars(), clause.line()))
}

/// The program whose clauses call the goals of each group one after another.
pub fn strip(alloc: Global, annotated: &Annotated) -> Result<Program, NoMemory>
    ensures { IfOk result (λ p. p ≡ stripped annotated.now) }
{
    let mut program = Program::new(alloc);
    for clause in annotated.program().as_slice() {
        program.push(strip_clause(alloc, clause)?)?;
    }
    Ok(program)
}
