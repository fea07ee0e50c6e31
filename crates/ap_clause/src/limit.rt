//! How large a clause may be with what is lifted from it.

ghost use Rattle.std.specs.Prelude.{◌≡◌, ◌+◌, ◌<◌, ◌^◌, ℕ};
ghost use Rattle.ap_term.specs.TermView.{tree_of, trees_of};
ghost use Rattle.ap_clause.specs.Limit as spec;

use crate::refusal::What;
use crate::source::Source;
use ap_lifting::Sizes;
use ap_term::Term;

/// How many variables a clause may have.
pub const MAX_VARIABLES: usize = 255;

/// How many arguments a compound term of a clause may have.
pub const MAX_ARITY: usize = 255;

/// How many goals a body may have.
pub const MAX_GOALS: u64 = 255;

/// How many goals a group may have.
pub const MAX_GROUP: u64 = 32;

/// How many clauses a program may have, lifted ones with them.
pub const MAX_CLAUSES: u64 = 65_535;

/// Whether no compound in a term has more than `MAX_ARITY` arguments.
#[tactic(auto, using(crate::proofs::Walks::widths))]
#[cycle(narrow)]
pub(crate) fn is_narrow(t: &Term) -> bool
    ensures { result ≡ spec.is_narrow (tree_of t.now) }
{
    let mut at = t;
    loop {
        match at {
            Term::Var(_) | Term::Int(_) | Term::Atom(_) => return true,
            Term::Node(_, args) => {
                if args.len() > MAX_ARITY {
                    return false;
                }
                let Some((last, front)) = args.split_last() else {
                    return true;
                };
                if !are_narrow(front) {
                    return false;
                }
                at = last;
            }
        }
    }
}

#[tactic(auto, using(crate::proofs::Walks::widths))]
#[cycle(narrow)]
fn are_narrow(terms: &[Term]) -> bool
    ensures { result ≡ spec.are_narrow (trees_of terms.now) }
{
    for t in terms {
        if let Term::Node(_, _) = t {
            if !is_narrow(t) {
                return false;
            }
        }
    }
    true
}
