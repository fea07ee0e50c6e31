//! Goals of whose arguments nothing is known.

ghost use Rattle.std.specs.Prelude.{◌≡◌, ◌≤◌, IsTrue};
ghost use Rattle.ap_term.specs.Tree.{count_trees};
ghost use Rattle.ap_term.specs.TermView.{tree_of};
ghost use Rattle.ap_term.specs.WellFormed.{callable};
ghost use Rattle.ap_patterns.specs.Places.{arguments};
ghost use Rattle.ap_patterns.specs.Given.{any_pattern, anything, is_analysed};

use crate::calls::Pattern;
use ap_absunify::State;
use ap_freeness::Free;
use ap_sharing::{Sets, Share, VarSet};
use ap_term::{Clause, Term};
use std::alloc::Global;

/// How many variables and arguments of the head an analysed clause has at most.
const MOST: u64 = 64;

/// How many arguments a goal has.
pub fn arity(goal: &Term) -> u64
    ensures { result ≡ count_trees (arguments (tree_of goal.now)) }
{
    match goal {
        Term::Node(_, args) => args.len() as u64,
        _ => 0,
    }
}

/// Whether a clause is small enough for a state.
pub fn is_analysed(clause: &Clause) -> bool
    ensures { result ≡ is_analysed clause.now }
{
    clause.vars() + arity(clause.head()) <= MOST
}

/// What is known of n arguments that may be anything.
pub fn any_pattern(alloc: Global, n: u64) -> Pattern
    requires { n ≤ 255 }
    ensures { result ≡ any_pattern n }
{
    let mut any = VarSet::new();
    for x in 0..n {
        any.insert(x + 1);
    }
    let share = Share::new(Sets::new(alloc), any);
    let free = Free::new(VarSet::new());
    State::Reachable { share, free }
}

/// What is known of the arguments of a goal that is called with anything, where the clause is called at all.
pub fn anything(alloc: Global, called: &Pattern, goal: &Term) -> Pattern
    requires { IsTrue (callable (tree_of goal.now)) }
    ensures { result ≡ anything called.now (tree_of goal.now) }
{
    match called {
        State::Unreachable => State::Unreachable,
        State::Reachable { .. } => any_pattern(alloc, arity(goal)),
    }
}
