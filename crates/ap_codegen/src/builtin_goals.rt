//! Which goals an instruction runs.

ghost use Rattle.std.specs.Prelude.{◌≡◌, true, false, not, MatchOption};
ghost use Rattle.ap_term.specs.Tree.{count_trees, atom};
ghost use Rattle.ap_term.specs.TermView.{tree_of};
ghost use Rattle.ap_instr.specs.Builtin.{builtin_name, builtin_arity};
ghost use Rattle.ap_instr.specs.Runs.{arguments};
ghost use Rattle.ap_codegen.specs.Permanent.{name, is_builtin, is_builtin_key};

use ap_instr::Builtin;
use ap_term::{Atom, Relation, Term, fixed};

fn of_atom(a: Atom) -> Option<Builtin>
    ensures { MatchOption result (is_builtin (atom a) ≡ false) (λ b. (is_builtin (atom a) ≡ true) × (builtin_name b ≡ a) × (builtin_arity b ≡ 0)) }
{
    if a.number() == fixed::TRUE {
        return Some(Builtin::True);
    }
    if a.number() == fixed::FAIL {
        return Some(Builtin::Fail);
    }
    None
}

/// The built-in goal that an instruction runs, where the goal is one.
#[tactic(auto, using(crate::proofs::BuiltinGoals::relation_back))]
pub fn builtin_of(goal: &Term) -> Option<Builtin>
    ensures { MatchOption result (is_builtin (tree_of goal.now) ≡ false) (λ b. (is_builtin (tree_of goal.now) ≡ true) × (builtin_name b ≡ name (tree_of goal.now)) × (builtin_arity b ≡ count_trees (arguments (tree_of goal.now)))) }
{
    match goal {
        Term::Var(_) | Term::Int(_) => None,
        Term::Atom(a) => of_atom(*a),
        Term::Node(p, args) => {
            if args.len() != 2 {
                return None;
            }
            match Relation::named(*p) {
                Some(relation) => Some(Builtin::Relation(relation)),
                None => None,
            }
        }
    }
}

/// The built-in goal of a name and arity.
#[tactic(auto, using(crate::proofs::BuiltinGoals::relation_back))]
pub fn builtin_named(name: Atom, arity: u8) -> Option<Builtin>
    ensures { MatchOption result (is_builtin_key (name, arity) ≡ false) (λ b. (is_builtin_key (name, arity) ≡ true) × (builtin_name b ≡ name) × (builtin_arity b ≡ arity)) }
{
    match arity {
        0 => of_atom(name),
        2 => match Relation::named(name) {
            Some(relation) => Some(Builtin::Relation(relation)),
            None => None,
        },
        _ => None,
    }
}

/// Whether goals of this name and arity are no built-in ones.
pub fn is_apart(name: Atom, arity: u8) -> bool
    ensures { result ≡ not (is_builtin_key (name, arity)) }
{
    builtin_named(name, arity).is_none()
}
