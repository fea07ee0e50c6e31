//! Identical terms (ISO 13211-1, section 8.4).

ghost use Rattle.std.specs.Prelude.{◌≡◌, ◌&&◌};
ghost use Rattle.ap_term.specs.TermView.{tree_of, trees_of};
ghost use Rattle.ap_term.specs.Identical.{identical, identical_all};

use ap_term::Term;

/// Whether two terms are the same, variables by their numbers. The last arguments are walked by a loop.
#[tactic(auto, using(crate::proofs::Identities::rules_of_identical))]
#[cycle(identical)]
pub fn identical(t: &Term, u: &Term) -> bool
    ensures { result ≡ identical (tree_of t.now) (tree_of u.now) }
{
    let mut left = t;
    let mut right = u;
    loop {
        match (left, right) {
            (Term::Var(x), Term::Var(y)) => return *x == *y,
            (Term::Int(m), Term::Int(n)) => return *m == *n,
            (Term::Atom(a), Term::Atom(b)) => return *a == *b,
            (Term::Node(a, ts), Term::Node(b, us)) if *a == *b => {
                match (ts.split_last(), us.split_last()) {
                    (Some((t, front)), Some((u, back))) => {
                        if !identical_all(front, back) {
                            return false;
                        }
                        left = t;
                        right = u;
                    }
                    (None, None) => return true,
                    _ => return false,
                }
            }
            _ => return false,
        }
    }
}

#[tactic(auto, using(crate::proofs::Identities::rules_of_identical))]
#[cycle(identical)]
fn identical_all(ts: &[Term], us: &[Term]) -> bool
    ensures { result ≡ identical_all (trees_of ts.now) (trees_of us.now) }
{
    if ts.len() != us.len() {
        return false;
    }
    for i in 0..ts.len() {
        if !identical(&ts[i], &us[i]) {
            return false;
        }
    }
    true
}
