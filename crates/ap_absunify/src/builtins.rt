//! What the built-in goals make of a state.

ghost use Rattle.std.specs.Prelude.{◌≡◌, ℕ, IfOk, IsTrue, MatchOption};
ghost use Rattle.ap_term.specs.Tree.{node, none, more};
ghost use Rattle.ap_term.specs.TermView.{tree_of};
ghost use Rattle.ap_term.specs.WellFormed.{numbered};
ghost use Rattle.ap_absunify.specs.declared.states.State.{State};
ghost use Rattle.ap_absunify.specs.AfterBuiltin.{after_is, after_relation, after_builtin};

use crate::equations::after_equal;
use crate::states::{State, ground};
use crate::term_sets::var_set;
use ap_term::{Args, NoMemory, Relation, Term, fixed};
use std::alloc::Global;

/// The state after `t is u`: the expression u had a value, and t has become it.
fn after_is(s: State, t: &Term, u: &Term) -> Result<State, NoMemory>
    requires left { IsTrue (numbered 255 (tree_of t.now)) }
    requires right { IsTrue (numbered 255 (tree_of u.now)) }
    ensures { IfOk result (λ r. r ≡ after_is s (tree_of t.now) (tree_of u.now)) }
{
    let s = ground(s, &var_set(u))?;
    ground(s, &var_set(t))
}

fn after_relation(
    alloc: Global,
    s: State,
    relation: Option<Relation>,
    t: &Term,
    u: &Term,
) -> Result<State, NoMemory>
    requires left { IsTrue (numbered 255 (tree_of t.now)) }
    requires right { IsTrue (numbered 255 (tree_of u.now)) }
    ensures { IfOk result (λ r. r ≡ after_relation s relation (tree_of t.now) (tree_of u.now)) }
{
    match relation {
        Some(Relation::Unify) => after_equal(alloc, s, t, u),
        Some(Relation::Is) => after_is(s, t, u),
        Some(Relation::Compare(_)) => ground(s, &var_set(t).union(var_set(u))),
        _ => Ok(s),
    }
}

/// The arguments, where they are two.
#[tactic(auto, using(crate::proofs::Operands::not_two))]
fn operands(args: &Args) -> Option<(&Term, &Term)>
    ensures { MatchOption result ((s : State) (a : ℕ) → after_builtin s (node a args.now) ≡ s) (λ p. args.now ≡ more (tree_of p.0.now) (more (tree_of p.1.now) none)) }
{
    let terms = args.as_slice();
    if terms.len() != 2 {
        return None;
    }
    Some((&terms[0], &terms[1]))
}

/// The state after a built-in goal succeeded. A goal that isn't one, like those that bind nothing, changes nothing.
pub fn after_builtin(alloc: Global, s: State, goal: &Term) -> Result<State, NoMemory>
    requires { IsTrue (numbered 255 (tree_of goal.now)) }
    ensures { IfOk result (λ r. r ≡ after_builtin s (tree_of goal.now)) }
{
    match goal {
        Term::Atom(a) if a.number() == fixed::FAIL => Ok(State::Unreachable),
        Term::Node(name, args) => match operands(args) {
            Some((t, u)) => after_relation(alloc, s, Relation::named(*name), t, u),
            None => Ok(s),
        },
        _ => Ok(s),
    }
}
