//! What a state leaves of a list of checks.

ghost use Rattle.std.specs.Prelude.{◌≡◌, IfOk};
ghost use Rattle.ap_sharing.specs.Share.{nonground};
ghost use Rattle.ap_absunify.specs.declared.states.State.TheVariants.{Reachable};
ghost use Rattle.ap_conditions.specs.Simplified.{share_gives, asks_of_free, gives, simplified};

use ap_absunify::State;
use ap_freeness::Free;
use ap_sharing::{Share, VarSet};
use ap_term::{Check, Checks, NoMemory};
use std::alloc::Global;

/// The checks that are left, in their order; or there is one that holds nowhere.
#[derive(Drop)]
pub enum Simplified {
    Keep(Checks),
    NeverTrue,
}

fn asks_of_free(free: &Free, check: &Check) -> bool
    ensures { result ≡ asks_of_free free.now check.now }
{
    match check {
        Check::Ground(x) => free.is_free(*x),
        Check::Indep(_, _) => false,
    }
}

fn share_gives(share: &Share, not_ground: VarSet, check: &Check) -> bool
    requires { not_ground ≡ nonground share.now }
    ensures { result ≡ share_gives share.now check.now }
{
    match check {
        Check::Ground(x) => !not_ground.contains(*x),
        Check::Indep(x, y) => !share.may_share(*x, *y),
    }
}

/// Whether the check holds wherever the state is covered.
pub fn gives(s: &State, check: &Check) -> bool
    ensures { result ≡ gives s.now check.now }
{
    match s {
        State::Unreachable => true,
        State::Reachable { share, .. } => share_gives(share, share.nonground(), check),
    }
}

fn simplify_reachable(
    alloc: Global,
    checks: &[Check],
    share: &Share,
    free: &Free,
) -> Result<Simplified, NoMemory>
    ensures { IfOk result (λ r. r ≡ simplified checks.now (Reachable share.now free.now)) }
{
    let not_ground = share.nonground();
    let mut kept = Checks::new(alloc);
    for check in checks {
        if asks_of_free(free, check) {
            return Ok(Simplified::NeverTrue);
        }
        if !share_gives(share, not_ground, check) {
            kept.push(*check)?;
        }
    }
    Ok(Simplified::Keep(kept))
}

/// Drops each check that holds wherever the state is covered: `ground` of what is surely ground, `indep` of what is
/// surely independent. `NeverTrue` comes exactly where a `ground` asks for a free variable. In an unreachable state
/// nothing is left.
pub fn simplify(alloc: Global, checks: &[Check], s: &State) -> Result<Simplified, NoMemory>
    ensures { IfOk result (λ r. r ≡ simplified checks.now s.now) }
{
    match s {
        State::Unreachable => Ok(Simplified::Keep(Checks::new(alloc))),
        State::Reachable { share, free } => simplify_reachable(alloc, checks, share, free),
    }
}
