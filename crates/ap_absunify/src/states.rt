//! Abstract states.

ghost use Rattle.std.specs.Prelude.{◌≡◌, IfOk};
ghost use Rattle.ap_absunify.specs.State.{made, ground, unite, project};

use ap_freeness::Free;
use ap_sharing::{Share, VarSet};
use ap_term::NoMemory;
use std::alloc::Global;

/// What is known of a clause's variables at a place of its body. No run comes to an unreachable one.
#[derive(Drop)]
pub enum State {
    Unreachable,
    Reachable { share: Share, free: Free },
}

/// The state in which of the free variables those are left that aren't surely ground.
pub fn made(share: Share, free: Free) -> State
    ensures { result ≡ made share free }
{
    let free = free.project(&share.nonground());
    State::Reachable { share, free }
}

/// The state once the variables of v are ground.
pub fn ground(s: State, v: &VarSet) -> Result<State, NoMemory>
    ensures { IfOk result (λ r. r ≡ ground s v.now) }
{
    match s {
        State::Unreachable => Ok(State::Unreachable),
        State::Reachable { share, free } => {
            let lost = v.union(share.met(*v));
            let share = share.ground(v)?;
            Ok(made(share, free.remove(&lost)))
        }
    }
}

impl State {
    pub fn copy(&self) -> Result<State, NoMemory>
        ensures { IfOk result (λ r. r ≡ self.now) }
    {
        match self {
            State::Unreachable => Ok(State::Unreachable),
            State::Reachable { share, free } => {
                let share = share.copy()?;
                Ok(State::Reachable { share, free: *free })
            }
        }
    }

    /// The state of what one of both states says.
    pub fn unite(&self, other: &State) -> Result<State, NoMemory>
        ensures { IfOk result (λ r. r ≡ unite self.now other.now) }
    {
        match (self, other) {
            (State::Unreachable, _) => other.copy(),
            (_, State::Unreachable) => self.copy(),
            (
                State::Reachable { share, free },
                State::Reachable {
                    share: other_share,
                    free: other_free,
                },
            ) => {
                let united = share.unite(other_share)?;
                Ok(made(united, free.unite(other_free)))
            }
        }
    }

    /// What the state says of the variables of `keep`.
    pub fn project(&self, alloc: Global, keep: &VarSet) -> Result<State, NoMemory>
        ensures { IfOk result (λ r. r ≡ project self.now keep.now) }
    {
        match self {
            State::Unreachable => Ok(State::Unreachable),
            State::Reachable { share, free } => {
                let kept = share.project(alloc, keep)?;
                Ok(made(kept, free.project(keep)))
            }
        }
    }
}
