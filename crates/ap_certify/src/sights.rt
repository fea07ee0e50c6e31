//! What is known at a place of a body.

ghost use Rattle.std.specs.Prelude.{◌≡◌, IfOk, IsTrue};
ghost use Rattle.ap_term.specs.TermView.{tree_of};
ghost use Rattle.ap_term.specs.WellFormed.{callable, numbered};
ghost use Rattle.ap_absunify.specs.declared.states.State.TheVariants.{Unreachable};
ghost use Rattle.ap_patterns.specs.Table.{predicate_of};
ghost use Rattle.ap_patterns.specs.Given.{patterns, call_at};
ghost use Rattle.ap_certify.specs.Sights.{pattern_in, gives, after, entry};

use ap_absunify::State;
use ap_conditions::gives;
use ap_patterns::{
    Pattern, Table, after_goal, anything, call_at, call_pattern, enter, is_analysed,
};
use ap_term::{Check, Clause, NoMemory, Term};
use std::alloc::Global;

/// A state of the clause; of a clause that is too large for a state only the pattern of its predicate's calls.
#[derive(Drop)]
pub enum Sight {
    Known(State),
    Unknown(Pattern),
}

/// The pattern of the calls of a head's predicate.
fn called<'a>(table: &'a Table, head: &Term, unreachable: &'a Pattern) -> &'a Pattern
    requires { unreachable.now ≡ Unreachable }
    ensures { result.now ≡ call_at (patterns table.now) (predicate_of (tree_of head.now)) }
{
    match call_at(table, head) {
        Some(pattern) => pattern,
        None => unreachable,
    }
}

impl Sight {
    /// What is known where a clause is entered.
    #[tactic(auto, using(crate::proofs::HeldClauses::rules_of_clauses))]
    pub fn entry(alloc: Global, table: &Table, clause: &Clause) -> Result<Sight, NoMemory>
        ensures { IfOk result (λ r. r ≡ entry (patterns table.now) clause.now) }
    {
        let unreachable = State::Unreachable;
        let head = clause.head();
        let called = called(table, head, &unreachable);
        if is_analysed(clause) {
            let state = enter(alloc, clause.vars(), head, called)?;
            Ok(Sight::Known(state))
        } else {
            let pattern = called.copy()?;
            Ok(Sight::Unknown(pattern))
        }
    }

    /// The pattern of a goal that is called there.
    pub fn pattern(&self, alloc: Global, goal: &Term) -> Result<Pattern, NoMemory>
        requires can_be_called { IsTrue (callable (tree_of goal.now)) }
        requires variables { IsTrue (numbered 255 (tree_of goal.now)) }
        ensures { IfOk result (λ r. r ≡ pattern_in self.now (tree_of goal.now)) }
    {
        match self {
            Sight::Known(state) => call_pattern(alloc, state, goal),
            Sight::Unknown(called) => Ok(anything(alloc, called, goal)),
        }
    }

    /// What is known after the goal.
    pub fn after(self, alloc: Global, table: &Table, goal: &Term) -> Result<Sight, NoMemory>
        requires can_be_called { IsTrue (callable (tree_of goal.now)) }
        requires variables { IsTrue (numbered 255 (tree_of goal.now)) }
        ensures { IfOk result (λ r. r ≡ after (patterns table.now) self (tree_of goal.now)) }
    {
        match self {
            Sight::Known(state) => {
                let state = after_goal(alloc, table, state, goal)?;
                Ok(Sight::Known(state))
            }
            Sight::Unknown(called) => Ok(Sight::Unknown(called)),
        }
    }

    /// Whether the check holds there, as far as is known.
    pub fn gives(&self, check: &Check) -> bool
        ensures { result ≡ gives self.now check.now }
    {
        match self {
            Sight::Known(state) => gives(state, check),
            Sight::Unknown(State::Unreachable) => true,
            Sight::Unknown(State::Reachable { .. }) => false,
        }
    }
}
