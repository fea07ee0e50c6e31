//! What `=` makes of a state.

ghost use Rattle.std.specs.Prelude.{◌≡◌, IfOk, IsTrue, Some};
ghost use Rattle.ap_term.specs.TermView.{tree_of, trees_of};
ghost use Rattle.ap_term.specs.WellFormed.{numbered, numbered_all};
ghost use Rattle.ap_absunify.specs.AfterEqual.{after_equal, after_parts, parts_all};

use crate::states::State;
use crate::unifications::after_unify;
use ap_term::{NoMemory, Term};
use std::alloc::Global;

/// The state after two terms were unified: they come apart by equal functors, left to right, into variables and
/// terms that are unified one after another. The last arguments are walked by a loop.
#[tactic(auto, using(crate::proofs::Parts::rules_of_parts))]
#[cycle(after_equal)]
pub fn after_equal(alloc: Global, s: State, t: &Term, u: &Term) -> Result<State, NoMemory>
    requires left { IsTrue (numbered 255 (tree_of t.now)) }
    requires right { IsTrue (numbered 255 (tree_of u.now)) }
    ensures { IfOk result (λ r. r ≡ after_equal s (tree_of t.now) (tree_of u.now)) }
{
    let mut state = s;
    let mut left = t;
    let mut right = u;
    loop {
        match (left, right) {
            (Term::Var(x), _) => return after_unify(alloc, state, *x, right),
            (_, Term::Var(y)) => return after_unify(alloc, state, *y, left),
            (Term::Int(m), Term::Int(n)) if *m == *n => return Ok(state),
            (Term::Atom(a), Term::Atom(b)) if *a == *b => return Ok(state),
            (Term::Node(a, ts), Term::Node(b, us)) if *a == *b => {
                match (ts.split_last(), us.split_last()) {
                    (Some((t, front)), Some((u, back))) => {
                        state = after_each_equal(alloc, state, front, back)?;
                        left = t;
                        right = u;
                    }
                    (None, None) => return Ok(state),
                    _ => return Ok(State::Unreachable),
                }
            }
            _ => return Ok(State::Unreachable),
        }
    }
}

#[tactic(auto, using(crate::proofs::Parts::rules_of_parts))]
#[cycle(after_equal)]
fn after_each_equal(alloc: Global, s: State, ts: &[Term], us: &[Term]) -> Result<State, NoMemory>
    requires left { IsTrue (numbered_all 255 (trees_of ts.now)) }
    requires right { IsTrue (numbered_all 255 (trees_of us.now)) }
    ensures { IfOk result (λ r. r ≡ after_parts s (parts_all (trees_of ts.now) (trees_of us.now))) }
{
    if ts.len() != us.len() {
        return Ok(State::Unreachable);
    }
    let mut state = s;
    for i in 0..ts.len() {
        state = after_equal(alloc, state, &ts[i], &us[i])?;
    }
    Ok(state)
}
