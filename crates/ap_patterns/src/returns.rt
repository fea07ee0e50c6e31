//! What an answer of a call makes of the caller's state.

ghost use Rattle.std.specs.Prelude.{◌≡◌, ◌≤◌, IfOk, IsTrue, length, ◌&&◌, if◌then◌else◌, Some, None};
ghost use Rattle.ap_term.specs.TermView.{tree_of, trees_of};
ghost use Rattle.ap_term.specs.WellFormed.{callable, numbered, numbered_all};
ghost use Rattle.ap_sharing.specs.VarSet.{has, empty};
ghost use Rattle.ap_sharing.specs.Sets.{join_sets, all_of, closure, too_many};
ghost use Rattle.ap_absunify.specs.TermSets.{var_set};
ghost use Rattle.ap_absunify.specs.AfterUnify.{is_free, meeting, widened_by};
ghost use Rattle.ap_patterns.specs.AfterCall.{grounded, kept_free, returned_share, returned_free, returned_sets, widened_call, joined_call, after_return, after_call};

use crate::calls::Pattern;
use crate::places::{argument_sets, arguments, only_if, places};
use ap_absunify::{State, add_var_sets, is_free, made, var_set};
use ap_freeness::Free;
use ap_sharing::{Sets, Share, VarSet};
use ap_term::{NoMemory, Term};
use std::alloc::Global;

/// The variables of the arguments whose place is in no member of the success.
fn grounded(success: &Share, args: &[VarSet]) -> VarSet
    requires { length args.now ≤ 255 }
    ensures { result ≡ grounded 1 success.now args.now }
{
    let nonground = success.nonground();
    let mut found = VarSet::new();
    for i in 0..args.len() {
        let is_ground = !nonground.contains(i as u64 + 1);
        found = found.union(only_if(is_ground, args[i]));
    }
    found
}

/// The argument, where it was a free variable before and its place is free in the success.
fn kept_argument(free: &Free, success: &Free, place: u64, t: &Term) -> VarSet
    requires { IsTrue (numbered 255 (tree_of t.now)) }
    ensures { result ≡ (if is_free free.now (tree_of t.now) && has success.now place then var_set (tree_of t.now) else empty) }
{
    if is_free(free, t) && success.is_free(place) {
        var_set(t)
    } else {
        VarSet::new()
    }
}

/// The arguments that were free variables before and whose place is free in the success.
fn kept_free(free: &Free, success: &Free, args: &[Term]) -> VarSet
    requires few { length args.now ≤ 255 }
    requires variables { IsTrue (numbered_all 255 (trees_of args.now)) }
    ensures { result ≡ kept_free 1 free.now success.now (trees_of args.now) }
{
    let mut kept = VarSet::new();
    for i in 0..args.len() {
        kept = kept.union(kept_argument(free, success, i as u64 + 1, &args[i]));
    }
    kept
}

/// Puts in those of the sets whose places are a member of the success.
fn add_returned(
    alloc: Global,
    closed: &Sets,
    args: &[VarSet],
    success: &Share,
    sets: &mut Sets,
) -> Result<(), NoMemory>
    requires { length args.now ≤ 255 }
    ensures { IfOk result (λ _. sets.new ≡ join_sets sets.old (returned_sets args.now success.now closed.now)) }
{
    let mut returned = Vec::new(alloc);
    for s in closed.as_slice() {
        if success.is_member(places(*s, args)) {
            returned.push(*s)?;
        }
    }
    sets.extend(&returned)
}

/// The variables of the sets that meet the goal.
fn met_sets(share: &Share, goal: VarSet) -> VarSet
    ensures { result ≡ all_of (meeting share.now goal) }
{
    share.sets().union_of_meeting(goal)
}

/// The Share whose `any` has these variables too.
fn widened_by(share: &Share, met: VarSet) -> Result<Share, NoMemory>
    ensures { IfOk result (λ r. r ≡ widened_by share.now met) }
{
    let sets = share.sets().copy()?;
    Ok(Share::new(sets, share.any().union(met)))
}

/// The Share whose `any` has the variables of the sets that meet the goal too.
fn widened(share: &Share, goal: VarSet) -> Result<Share, NoMemory>
    ensures { IfOk result (λ r. r ≡ widened_call share.now goal) }
{
    let met = met_sets(share, goal);
    widened_by(share, met)
}

/// The unions of the sets that meet the goal, and None where they are too many.
fn closed_meeting(alloc: Global, share: &Share, goal: VarSet) -> Result<Option<Sets>, NoMemory>
    ensures { IfOk result (λ r. r ≡ (if too_many (closure (meeting share.now goal)) then None else Some (closure (meeting share.now goal)))) }
{
    let mut met = share.sets().copy()?;
    met.keep_meeting(goal);
    met.closure(alloc)
}

/// The Share in which of the closed sets those stand that the success has among its members.
fn with_returned(
    alloc: Global,
    share: &Share,
    args: &[VarSet],
    goal: VarSet,
    success: &Share,
    closed: &Sets,
) -> Result<Share, NoMemory>
    requires { length args.now ≤ 255 }
    ensures { IfOk result (λ r. r ≡ joined_call share.now args.now goal success.now closed.now) }
{
    let mut sets = share.sets().copy()?;
    sets.drop_meeting(goal);
    add_returned(alloc, closed, args, success, &mut sets)?;
    Ok(Share::new(sets, share.any()))
}

/// The Share after an answer, of one in which what the answer grounds is ground.
fn returned_share(
    alloc: Global,
    share: &Share,
    args: &[VarSet],
    goal: VarSet,
    success: &Share,
) -> Result<Share, NoMemory>
    requires { length args.now ≤ 255 }
    ensures { IfOk result (λ r. r ≡ returned_share share.now args.now goal success.now) }
{
    if share.any().intersects(goal) {
        return widened(share, goal);
    }
    match closed_meeting(alloc, share, goal)? {
        Some(closed) => with_returned(alloc, share, args, goal, success, &closed),
        None => widened(share, goal),
    }
}

/// What stays free: of the goal's variables those that are kept, of the others those that shared no member with one
/// of the goal's that isn't.
fn returned_free(share: &Share, free: &Free, goal: VarSet, kept: VarSet) -> Free
    ensures { result ≡ returned_free share.now free.now goal kept }
{
    let lost = share.met(goal.without(kept));
    Free::new(kept.union(free.vars().without(goal).without(lost)))
}

/// The state after an answer, where both the call and the success are reachable. What stays free turns on the members
/// from before the answer.
#[tactic(auto, using(crate::proofs::Arguments::rules_of_returns))]
fn after_return(
    alloc: Global,
    share: &Share,
    free: &Free,
    args: &[Term],
    success: &Share,
    success_free: &Free,
) -> Result<State, NoMemory>
    requires few { length args.now ≤ 255 }
    requires variables { IsTrue (numbered_all 255 (trees_of args.now)) }
    ensures { IfOk result (λ r. r ≡ after_return share.now free.now (trees_of args.now) success.now success_free.now) }
{
    let sets = argument_sets(alloc, args)?;
    let mut goal = VarSet::new();
    add_var_sets(args, &mut goal);
    let ground = share.ground(&grounded(success, sets.as_slice()))?;
    let returned = returned_share(alloc, &ground, sets.as_slice(), goal, success)?;
    let kept = kept_free(free, success_free, args);
    Ok(made(returned, returned_free(share, free, goal, kept)))
}

/// The state after a goal succeeded, by the success pattern of its predicate.
#[tactic(auto, using(crate::proofs::Arguments::rules_of_goals))]
pub fn after_call(
    alloc: Global,
    s: State,
    goal: &Term,
    success: &Pattern,
) -> Result<State, NoMemory>
    requires can_be_called { IsTrue (callable (tree_of goal.now)) }
    requires variables { IsTrue (numbered 255 (tree_of goal.now)) }
    ensures { IfOk result (λ r. r ≡ after_call s (tree_of goal.now) success.now) }
{
    match (&s, success) {
        (
            State::Reachable { share, free },
            State::Reachable {
                share: success_share,
                free: success_free,
            },
        ) => after_return(
            alloc,
            share,
            free,
            arguments(goal),
            success_share,
            success_free,
        ),
        _ => Ok(State::Unreachable),
    }
}
