//! Whether a table covers what the clauses of a program give to it.

ghost use Rattle.std.specs.Prelude.{◌≡◌, ℕ, IfOk, IfErr, IsTrue};
ghost use Rattle.std.specs.List.{All, flat_map};
ghost use Rattle.ap_term.specs.TermView.{tree_of};
ghost use Rattle.ap_term.specs.WellFormed.{callable, numbered, IsProgram};
ghost use Rattle.ap_patterns.specs.Given.{patterns, given_by_clause};
ghost use Rattle.ap_patterns.specs.Covered.{IsHeld};
ghost use Rattle.ap_certify.specs.Sights.{entry};
ghost use Rattle.ap_certify.specs.GroupsGiven.{IsClauseGiven, AreGroupsGiven};
ghost use Rattle.ap_certify.specs.Refused.{IsFault, NoCheck, IsOpen, given_at_end, ClauseGives, BodyLeavesOut, IsFaultOfClause};

use crate::bodies::hold_body;
use crate::faults::{CertErr, Place, hold};
use crate::sights::Sight;
use ap_patterns::{Given, Predicate, Slot, Table};
use ap_term::{Clause, Term};
use std::alloc::Global;

/// Whether a clause's success is one that the table has.
fn hold_success(
    alloc: Global,
    clause: u64,
    table: &Table,
    end: &Sight,
    head: &Term,
) -> Result<(), CertErr>
    requires can_be_called { IsTrue (callable (tree_of head.now)) }
    requires variables { IsTrue (numbered 255 (tree_of head.now)) }
    ensures held { IfOk result (λ _. All (IsHeld (patterns table.now)) (given_at_end end.now (tree_of head.now))) }
    ensures open { IfErr result (IsOpen clause 0 (patterns table.now) (given_at_end end.now (tree_of head.now))) }
{
    let Some(predicate) = Predicate::of(head) else {
        return Ok(());
    };
    let pattern = end.pattern(alloc, head)?;
    let slot = Slot::Success(predicate);
    let at = Place { clause, goal: 0 };
    hold(at, table, &Given { slot, pattern })?;
    Ok(())
}

/// Whether the table covers the calls and the success of a clause, and gives what its groups leave out.
#[tactic(auto, using(crate::proofs::HeldClauses::rules_of_clauses))]
fn hold_clause(alloc: Global, number: u64, table: &Table, clause: &Clause) -> Result<(), CertErr>
    ensures held { IfOk result (λ _. All (IsHeld (patterns table.now)) (given_by_clause (patterns table.now) clause.now)) }
    ensures given { IfOk result (λ _. IsClauseGiven (patterns table.now) clause.now) }
    ensures fault { IfErr result (IsFault number (patterns table.now) (ClauseGives (patterns table.now) clause.now) (BodyLeavesOut (patterns table.now) (entry (patterns table.now) clause.now) 1 clause.now.body)) }
{
    let start = Sight::entry(alloc, table, clause)?;
    let end = hold_body(alloc, number, table, start, clause.body().as_slice())?;
    hold_success(alloc, number, table, &end, clause.head())?;
    Ok(())
}

/// The same of each clause of a program.
pub fn hold_clauses(alloc: Global, table: &Table, clauses: &[Clause]) -> Result<(), CertErr>
    ensures held { IfOk result (λ _. All (IsHeld (patterns table.now)) (flat_map (given_by_clause (patterns table.now)) clauses.now)) }
    ensures given { IfOk result (λ _. AreGroupsGiven (patterns table.now) clauses.now) }
    ensures fault { IfErr result (IsFaultOfClause (patterns table.now) clauses.now) }
{
    for i in 0..clauses.len() {
        hold_clause(alloc, i as u64 + 1, table, &clauses[i])?;
    }
    Ok(())
}
