//! What goals call, and clauses that are put into a part.

ghost use Rattle.std.specs.Prelude.{◌≡◌, ◌++◌, map, OnOk};
ghost use Rattle.std.specs.List.{All};
ghost use Rattle.ap_term.specs.TermView.{tree_of};
ghost use Rattle.ap_term.specs.GoalView.{part_of};
ghost use Rattle.ap_reach.specs.Reached.{Extends, IsNamed, IsPartNamed, BodyIsAmong, CallsAmong};

use crate::called::{Called, Calls};
use crate::predicates::Predicates;
use ap_term::{Clause, NoMemory, Part, Program, Term, copy_clause};
use std::alloc::Global;

/// Adds what a goal calls.
fn add_goal(program: &Predicates<'_>, calls: &mut Calls, goal: &Term) -> Result<(), NoMemory>
    ensures extends { OnOk result (Extends calls.old calls.new) }
    ensures named { OnOk result (IsNamed program.now calls.new (tree_of goal.now)) }
{
    match goal {
        Term::Var(_) | Term::Int(_) => Ok(()),
        Term::Atom(a) => calls.add(Called::All(a.number(), 0)),
        Term::Node(a, args) => calls.add(program.called(a.number(), args.as_slice())),
    }
}

/// Adds what goals call.
fn add_goals(program: &Predicates<'_>, calls: &mut Calls, goals: &[Term]) -> Result<(), NoMemory>
    ensures extends { OnOk result (Extends calls.old calls.new) }
    ensures named { OnOk result (All (λ t. IsNamed program.now calls.new (tree_of t)) goals.now) }
{
    for goal in goals {
        add_goal(program, calls, goal)?;
    }
    Ok(())
}

/// Adds what the goals of a body's part call.
fn add_part(program: &Predicates<'_>, calls: &mut Calls, part: &Part) -> Result<(), NoMemory>
    ensures extends { OnOk result (Extends calls.old calls.new) }
    ensures named { OnOk result (IsPartNamed program.now calls.new (part_of part.now)) }
{
    match part {
        Part::Call(goal) => add_goal(program, calls, goal),
        Part::Group { calls: goals, .. } => add_goals(program, calls, goals.as_slice()),
    }
}

/// Adds what the goals of a body call.
fn add_parts(program: &Predicates<'_>, calls: &mut Calls, parts: &[Part]) -> Result<(), NoMemory>
    ensures extends { OnOk result (Extends calls.old calls.new) }
    ensures named { OnOk result (All (λ p. IsPartNamed program.now calls.new (part_of p)) parts.now) }
{
    for part in parts {
        add_part(program, calls, part)?;
    }
    Ok(())
}

/// Adds what the goals of a clause call.
pub fn add_body(
    program: &Predicates<'_>,
    calls: &mut Calls,
    clause: &Clause,
) -> Result<(), NoMemory>
    ensures extends { OnOk result (Extends calls.old calls.new) }
    ensures among { OnOk result (BodyIsAmong program.now calls.new clause.now) }
{
    add_parts(program, calls, clause.body().as_slice())
}

/// Adds what the goals of clauses call.
pub fn add_bodies(
    program: &Predicates<'_>,
    calls: &mut Calls,
    clauses: &[Clause],
) -> Result<(), NoMemory>
    ensures extends { OnOk result (Extends calls.old calls.new) }
    ensures among { OnOk result (CallsAmong program.now calls.new clauses.now) }
{
    for clause in clauses {
        add_body(program, calls, clause)?;
    }
    Ok(())
}

/// Adds what the goals of clauses call that are lent one by one.
pub fn add_all_calls(
    program: &Predicates<'_>,
    calls: &mut Calls,
    clauses: &[&Clause],
) -> Result<(), NoMemory>
    ensures extends { OnOk result (Extends calls.old calls.new) }
    ensures among { OnOk result (CallsAmong program.now calls.new (map (λ c. c.now) clauses.now)) }
{
    for clause in clauses {
        add_body(program, calls, clause)?;
    }
    Ok(())
}

/// Puts copies of clauses behind a part.
pub fn add_copies(alloc: Global, clauses: &[&Clause], part: &mut Program) -> Result<(), NoMemory>
    ensures { OnOk result (part.new ≡ part.old ++ map (λ c. c.now) clauses.now) }
{
    for clause in clauses {
        part.push(copy_clause(alloc, clause)?)?;
    }
    Ok(())
}
