//! The variables of terms as sets. Each walk goes along the last arguments by a loop.

ghost use Rattle.std.specs.Prelude.{◌≡◌, IsTrue};
ghost use Rattle.ap_term.specs.TermView.{tree_of, trees_of};
ghost use Rattle.ap_term.specs.WellFormed.{numbered, numbered_all};
ghost use Rattle.ap_sharing.specs.VarSet.{union};
ghost use Rattle.ap_absunify.specs.TermSets.{var_set, var_set_all};

use ap_sharing::VarSet;
use ap_term::Term;

pub fn var_set(t: &Term) -> VarSet
    requires { IsTrue (numbered 255 (tree_of t.now)) }
    ensures { result ≡ var_set (tree_of t.now) }
{
    let mut found = VarSet::new();
    add_var_set(t, &mut found);
    found
}

#[tactic(auto, using(crate::proofs::TermSets::walk))]
#[cycle(var_set)]
fn add_var_set(t: &Term, found: &mut VarSet)
    requires { IsTrue (numbered 255 (tree_of t.now)) }
    ensures { found.new ≡ union found.old (var_set (tree_of t.now)) }
{
    let mut at = t;
    loop {
        match at {
            Term::Var(x) => {
                found.insert(*x);
                return;
            }
            Term::Int(_) | Term::Atom(_) => return,
            Term::Node(_, args) => {
                let Some((last, front)) = args.split_last() else {
                    return;
                };
                add_var_sets(front, found);
                at = last;
            }
        }
    }
}

/// Adds the variables of each term.
#[tactic(auto, using(crate::proofs::TermSets::walk))]
#[cycle(var_set)]
pub fn add_var_sets(terms: &[Term], found: &mut VarSet)
    requires { IsTrue (numbered_all 255 (trees_of terms.now)) }
    ensures { found.new ≡ union found.old (var_set_all (trees_of terms.now)) }
{
    for t in terms {
        add_var_set(t, found);
    }
}
