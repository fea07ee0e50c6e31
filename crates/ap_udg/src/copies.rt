//! Parts, goals and clauses of their own.

ghost use Rattle.std.specs.Prelude.{◌≡◌, IfOk};
ghost use Rattle.ap_term.specs.GoalView.{part_of};
ghost use Rattle.ap_term.specs.TermView.{trees_of};

use ap_term::{Args, Clause, NoMemory, Part, Same, Term, copy_clause, instance_part, instances};
use std::alloc::Global;

/// A part of its own with the same trees.
#[tactic(auto, using(ap_term::proofs::Copies::part_var))]
pub fn copy_part(alloc: Global, part: &Part) -> Result<Part, NoMemory>
    ensures { IfOk result (λ p. part_of p ≡ part_of part.now) }
{
    instance_part(alloc, &Same, part)
}

/// Goals of their own with the same trees.
#[tactic(auto, using(ap_term::proofs::Copies::instance_all_var))]
pub fn copy_goals(alloc: Global, goals: &[Term]) -> Result<Args, NoMemory>
    ensures { IfOk result (λ gs. gs ≡ trees_of goals.now) }
{
    instances(alloc, &Same, goals)
}

/// Clauses of their own with the same trees.
pub fn copy_clauses(alloc: Global, clauses: &[Clause]) -> Result<Vec<Clause>, NoMemory>
    ensures { IfOk result (λ cs. cs.items ≡ clauses.now) }
{
    let mut copies = Vec::new(alloc);
    for clause in clauses {
        copies.push(copy_clause(alloc, clause)?)?;
    }
    Ok(copies)
}
