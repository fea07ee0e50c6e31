//! Lifting the clauses of a program, and a query.

ghost use Rattle.std.specs.Prelude.{◌≡◌, ◌+◌, ◌≤◌, ◌++◌, length, slice_index, IfOk, OnOk, IsTrue};
ghost use Rattle.ap_lifting.specs.BodyView.{body_if};
ghost use Rattle.ap_lifting.specs.Rule.{well_formed_if};
ghost use Rattle.ap_lifting.specs.Lifted.{clause_of, lifted_if, lifted_rule, lifted_program};
ghost use Rattle.ap_lifting.specs.Lifts.{Lifts, values};
ghost use Rattle.ap_lifting.specs.Sizes.{predicates_if, predicates_in};

use crate::lifter::{Origin, Raised, add_parts};
use crate::row::RuleBody;
use crate::rules::Rule;
use ap_term::{Atom, Body as Parts, Checks, Clause, NoMemory, Program};
use std::alloc::Global;

/// A query's clause, and the clauses that were lifted from it in the order of their predicates' numbers.
#[derive(Drop)]
pub struct Lifted {
    pub question: Clause,
    pub lifted: Program,
}

/// The parts of a body. Those of a row are its goals.
fn parts_of(origin: &Origin, body: RuleBody, out: &mut Raised) -> Result<Parts, NoMemory>
    requires few { origin.now.vars ≤ 255 }
    requires body { IsTrue (well_formed_if origin.now.vars (body_if body)) }
    requires named { out.old.next + predicates_if (body_if body) ≤ length origin.now.names.now }
    ensures parts { IfOk result (λ ps. ps ≡ (lifted_if (slice_index origin.now.names.now) origin.now.vars origin.now.line (body_if body) out.old.next).parts) }
    ensures lifts { OnOk result (Lifts (lifted_if (slice_index origin.now.names.now) origin.now.vars origin.now.line (body_if body) out.old.next) out.old out.new) }
    ensures next { OnOk result (out.new.next ≡ out.old.next + predicates_if (body_if body)) }
{
    match body {
        RuleBody::Row(row) => Ok(row.into_parts()),
        RuleBody::Nested(body) => {
            let mut parts = Parts::new(origin.alloc);
            let checks = Checks::new(origin.alloc);
            add_parts(origin, Box::into_inner(body), checks, out, &mut parts)?;
            Ok(parts)
        }
    }
}

/// A clause with its body lifted.
fn lift_rule(
    alloc: Global,
    rule: Rule,
    names: &[Atom],
    out: &mut Raised,
) -> Result<Clause, NoMemory>
    requires { out.old.next + predicates_if rule.body ≤ length names.now }
    ensures clause { IfOk result (λ c. c ≡ clause_of rule (lifted_rule (slice_index names.now) rule out.old.next).parts) }
    ensures lifts { OnOk result (Lifts (lifted_rule (slice_index names.now) rule out.old.next) out.old out.new) }
    ensures next { OnOk result (out.new.next ≡ out.old.next + predicates_if rule.body) }
{
    let origin = Origin {
        alloc,
        names,
        vars: rule.vars(),
        line: rule.line(),
    };
    let (head, body) = rule.into_parts();
    let parts = parts_of(&origin, body, out)?;
    Ok(Clause::new(head, parts, origin.vars, origin.line))
}

/// Adds the clauses that stand in places.
fn add_filled(places: Vec<Option<Clause>>, out: &mut Program) -> Result<(), NoMemory>
    ensures { OnOk result (out.new ≡ out.old ++ values places.items) }
{
    for place in places {
        match place {
            Some(clause) => out.push(clause)?,
            None => {}
        }
    }
    Ok(())
}

/// A program with its bodies lifted. The n-th lifted predicate has the n-th name, from 0.
pub fn lift_program(alloc: Global, rules: Vec<Rule>, names: &[Atom]) -> Result<Program, NoMemory>
    requires { predicates_in rules.items ≤ length names.now }
    ensures { IfOk result (λ p. p ≡ lifted_program (slice_index names.now) rules.items) }
{
    let mut out = Raised::new(alloc);
    let mut program = Program::new(alloc);
    for rule in rules {
        program.push(lift_rule(alloc, rule, names, &mut out)?)?;
    }
    add_filled(out.clauses, &mut program)?;
    Ok(program)
}

/// A query's clause with its body lifted, and the clauses that were lifted from it.
pub fn lift_question(alloc: Global, rule: Rule, names: &[Atom]) -> Result<Lifted, NoMemory>
    requires { predicates_if rule.body ≤ length names.now }
    ensures question { IfOk result (λ q. q.question ≡ clause_of rule (lifted_rule (slice_index names.now) rule 0).parts) }
    ensures lifted { IfOk result (λ q. q.lifted ≡ (lifted_rule (slice_index names.now) rule 0).clauses) }
{
    let mut out = Raised::new(alloc);
    let question = lift_rule(alloc, rule, names, &mut out)?;
    let mut lifted = Program::new(alloc);
    add_filled(out.clauses, &mut lifted)?;
    Ok(Lifted { question, lifted })
}
