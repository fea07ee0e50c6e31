//! The built-in goals (ISO 13211-1, sections 7.8.1, 7.8.2, 8.2, 8.4, 8.6 and 8.7).

ghost use Rattle.std.specs.Prelude.{◌≡◌, Option, Some, None, is_none, IfOk, MatchOption, ℕ};
ghost use Rattle.ap_term.specs.TermView.{tree_of};
ghost use Rattle.ap_term.specs.Builtins.{builtin, relation_answer, succeeds_if, named_answer, relation_named, unified_value};
ghost use Rattle.ap_term.specs.Tree.{atom, node, more, none};
ghost use Rattle.ap_spec.specs.Called.{answer_of};

use crate::arithmetic::{compare_values, eval};
use crate::identity::identical;
use crate::substitutions::Subst;
use crate::unification::unify;
use ap_term::{Args, Atom, NoMemory, Relation, Term, fixed};
use std::alloc::Global;

/// What the call of a goal gives.
#[derive(Drop)]
pub enum Called {
    /// The goal is no built-in: its clauses decide.
    ByClauses,
    /// The built-in's one answer; none where it fails.
    Answered(Option<Subst>),
}

fn succeeds_if(alloc: Global, holds: bool) -> Option<Subst>
    ensures { result ≡ succeeds_if holds }
{
    if holds { Some(Subst::new(alloc)) } else { None }
}

fn unify_value(alloc: Global, t: &Term, value: Option<i64>) -> Result<Option<Subst>, NoMemory>
    ensures { IfOk result (λ s. s ≡ unified_value (tree_of t.now) value) }
{
    match value {
        Some(z) => {
            let s = unify(alloc, t, &Term::Int(z))?;
            Ok(s)
        }
        None => Ok(None),
    }
}

fn relation_answer(
    alloc: Global,
    relation: Relation,
    t: &Term,
    u: &Term,
) -> Result<Option<Subst>, NoMemory>
    ensures { IfOk result (λ s. s ≡ relation_answer relation (tree_of t.now) (tree_of u.now)) }
{
    match relation {
        Relation::Unify => {
            let s = unify(alloc, t, u)?;
            Ok(s)
        }
        Relation::NotUnify => {
            let s = unify(alloc, t, u)?;
            Ok(succeeds_if(alloc, s.is_none()))
        }
        Relation::Same => Ok(succeeds_if(alloc, identical(t, u))),
        Relation::NotSame => Ok(succeeds_if(alloc, !identical(t, u))),
        Relation::Is => unify_value(alloc, t, eval(u)),
        Relation::Compare(op) => Ok(succeeds_if(alloc, compare_values(op, t, u))),
    }
}

fn constant_answer(alloc: Global, name: Atom) -> Called
    ensures { answer_of result ≡ builtin (atom name) }
{
    match name.number() {
        fixed::TRUE => Called::Answered(Some(Subst::new(alloc))),
        fixed::FAIL => Called::Answered(None),
        _ => Called::ByClauses,
    }
}

/// The two arguments, where there are two.
#[tactic(auto, using(crate::proofs::Values::rules_of_pairs))]
fn operands(args: &Args) -> Option<(&Term, &Term)>
    ensures { MatchOption result ((a : ℕ) → builtin (node a args.now) ≡ None) (λ p. args.now ≡ more (tree_of p.0.now) (more (tree_of p.1.now) none)) }
{
    let terms = args.as_slice();
    if terms.len() != 2 {
        return None;
    }
    Some((&terms[0], &terms[1]))
}

/// What the call of a goal gives, where it is a built-in.
pub fn builtin(alloc: Global, goal: &Term) -> Result<Called, NoMemory>
    ensures { IfOk result (λ c. answer_of c ≡ builtin (tree_of goal.now)) }
{
    match goal {
        Term::Atom(name) => Ok(constant_answer(alloc, *name)),
        Term::Node(name, args) => {
            let Some((t, u)) = operands(args) else {
                return Ok(Called::ByClauses);
            };
            match Relation::named(*name) {
                Some(relation) => Ok(Called::Answered(relation_answer(alloc, relation, t, u)?)),
                None => Ok(Called::ByClauses),
            }
        }
        _ => Ok(Called::ByClauses),
    }
}
