//! The pattern of a call.

ghost use Rattle.std.specs.Prelude.{◌≡◌, ◌≤◌, IfOk, IsTrue, length};
ghost use Rattle.ap_term.specs.TermView.{tree_of};
ghost use Rattle.ap_term.specs.WellFormed.{callable, numbered};
ghost use Rattle.ap_patterns.specs.Places.{call_share, call_pattern};

use crate::places::{argument_sets, arguments, free_places, places};
use ap_absunify::{State, made};
use ap_freeness::Free;
use ap_sharing::{Sets, Share, VarSet};
use ap_term::{NoMemory, Term};
use std::alloc::Global;

/// A state over the places of arguments in the place of a clause's variables.
pub type Pattern = State;

/// What a Share says of the arguments that have these variables.
fn call_share(alloc: Global, share: &Share, args: &[VarSet]) -> Result<Share, NoMemory>
    requires { length args.now ≤ 255 }
    ensures { IfOk result (λ r. r ≡ call_share share.now args.now) }
{
    let sets = share.sets().as_slice();
    let placed = sets.iter().map(|s| places(*s, args)).collect(alloc)?;
    Ok(Share::new(Sets::of(placed)?, places(share.any(), args)))
}

/// What a state says of the arguments of a goal.
#[tactic(auto, using(crate::proofs::Arguments::rules_of_goals))]
pub fn call_pattern(alloc: Global, s: &State, goal: &Term) -> Result<Pattern, NoMemory>
    requires can_be_called { IsTrue (callable (tree_of goal.now)) }
    requires variables { IsTrue (numbered 255 (tree_of goal.now)) }
    ensures { IfOk result (λ r. r ≡ call_pattern s.now (tree_of goal.now)) }
{
    match s {
        State::Unreachable => Ok(State::Unreachable),
        State::Reachable { share, free } => {
            let args = arguments(goal);
            let sets = argument_sets(alloc, args)?;
            let called = call_share(alloc, share, sets.as_slice())?;
            Ok(made(called, Free::new(free_places(free, args))))
        }
    }
}
