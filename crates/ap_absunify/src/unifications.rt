//! What the unification of a variable and a term makes of a state.

ghost use Rattle.std.specs.Prelude.{◌≡◌, IfOk, IfSome, IsTrue, false, Some, None, if◌then◌else◌, ◌&&◌, not};
ghost use Rattle.std.specs.List.{filter};
ghost use Rattle.ap_term.specs.TermView.{tree_of};
ghost use Rattle.ap_term.specs.WellFormed.{in_range, numbered};
ghost use Rattle.ap_sharing.specs.VarSet.{union, meets};
ghost use Rattle.ap_sharing.specs.Sets.{join_sets, pairs, too_many, closure};
ghost use Rattle.ap_sharing.specs.Share.{met};
ghost use Rattle.ap_absunify.specs.AfterUnify.{meeting, side, widened_by, unify_share, is_free, free_after, unify_sides, after_unify};

use crate::states::{State, ground, made};
use crate::term_sets::var_set;
use ap_freeness::Free;
use ap_sharing::{Sets, Share, VarSet};
use ap_term::{NoMemory, Term};
use std::alloc::Global;

/// Whether a term is a free variable.
pub fn is_free(free: &Free, t: &Term) -> bool
    ensures { result ≡ is_free free.now (tree_of t.now) }
{
    match t {
        Term::Var(x) => free.is_free(*x),
        _ => false,
    }
}

/// The sets of one side, as they are where it is plain and else closed under union; None where these are too many.
fn side(alloc: Global, share: &Share, plain: bool, v: VarSet) -> Result<Option<Sets>, NoMemory>
    ensures { IfOk result (λ r. r ≡ (if not plain && too_many (closure (meeting share.now v)) then None else Some (side plain (meeting share.now v)))) }
{
    let mut sets = share.sets().copy()?;
    sets.keep_meeting(v);
    if plain {
        Ok(Some(sets))
    } else {
        sets.closure(alloc)
    }
}

/// The Share whose `any` has these variables too.
fn widened_by(share: &Share, met: VarSet) -> Result<Share, NoMemory>
    ensures { IfOk result (λ r. r ≡ widened_by share.now met) }
{
    let sets = share.sets().copy()?;
    Ok(Share::new(sets, share.any().union(met)))
}

/// The Share once the unions of one set of each side stand in the place of both sides' sets. Where they are too many,
/// all sets come to `any`.
fn joined_sides(
    alloc: Global,
    share: &Share,
    plain: bool,
    a: VarSet,
    b: VarSet,
) -> Result<Share, NoMemory>
    requires { meets (union (met share.now a) (met share.now b)) share.now.any ≡ false }
    ensures { IfOk result (λ r. r ≡ unify_share plain share.now a b) }
{
    let met = share.met(a).union(share.met(b));
    let Some(left) = side(alloc, share, plain, a)? else {
        return widened_by(share, met);
    };
    let Some(right) = side(alloc, share, plain, b)? else {
        return widened_by(share, met);
    };
    let mut rest = share.sets().copy()?;
    rest.drop_meeting(a.union(b));
    let Some(mut sets) = left.pairs(alloc, &right)? else {
        let all = met.union(rest.union_of_all());
        return Ok(Share::new(Sets::new(alloc), share.any().union(all)));
    };
    sets.join(&rest)?;
    Ok(Share::new(sets, share.any()))
}

/// The sets once the only set of one side has become part of each set of the other; None where each side has more.
fn with_only_set(
    alloc: Global,
    share: &Share,
    a: VarSet,
    b: VarSet,
) -> Result<Option<Sets>, NoMemory>
    ensures { IfOk result (λ r. IfSome r (λ ss. ss ≡ join_sets (pairs (meeting share.now a) (meeting share.now b)) (filter (λ s. not (meets s (union a b))) share.now.sets))) }
{
    let sets = share.sets();
    if let Some(one) = sets.only_meeting(b) {
        let joined = sets.with_one(alloc, a, b, one)?;
        return Ok(Some(joined));
    }
    if let Some(one) = sets.only_meeting(a) {
        let joined = sets.with_one(alloc, b, a, one)?;
        return Ok(Some(joined));
    }
    Ok(None)
}

/// The Share after the variables a of one side and b of the other were unified, whose members reach these.
fn unify_share(
    alloc: Global,
    share: &Share,
    plain: bool,
    a: VarSet,
    b: VarSet,
    reached: VarSet,
) -> Result<Share, NoMemory>
    requires { reached ≡ union (met share.now a) (met share.now b) }
    ensures { IfOk result (λ r. r ≡ unify_share plain share.now a b) }
{
    if reached.intersects(share.any()) {
        return widened_by(share, reached);
    }
    if plain {
        if let Some(sets) = with_only_set(alloc, share, a, b)? {
            return Ok(Share::new(sets, share.any()));
        }
    }
    joined_sides(alloc, share, plain, a, b)
}

/// What stays free, of two sides that are free variables or not and met these variables.
fn free_after(left_free: bool, right_free: bool, free: &Free, left: VarSet, right: VarSet) -> Free
    ensures { result ≡ free_after left_free right_free free.now left right }
{
    match (left_free, right_free) {
        (true, true) => *free,
        (true, false) => free.remove(&left),
        (false, true) => free.remove(&right),
        (false, false) => free.remove(&left.union(right)),
    }
}

/// The state after x and t were unified, where neither is surely ground.
fn unify_sides(
    alloc: Global,
    share: &Share,
    free: &Free,
    x: u64,
    t: &Term,
) -> Result<State, NoMemory>
    requires variable { IsTrue (in_range 255 x) }
    requires term { IsTrue (numbered 255 (tree_of t.now)) }
    ensures { IfOk result (λ r. r ≡ unify_sides share.now free.now x (tree_of t.now)) }
{
    let left = VarSet::just(x);
    let right = var_set(t);
    let left_free = free.is_free(x);
    let right_free = is_free(free, t);
    let plain = left_free || right_free;
    let met_left = share.met(left);
    let met_right = share.met(right);
    let reached = met_left.union(met_right);
    let united = unify_share(alloc, share, plain, left, right, reached)?;
    let free = free_after(left_free, right_free, free, met_left, met_right);
    Ok(made(united, free))
}

/// The state after the variable x and the term t were unified.
pub fn after_unify(alloc: Global, s: State, x: u64, t: &Term) -> Result<State, NoMemory>
    requires variable { IsTrue (in_range 255 x) }
    requires term { IsTrue (numbered 255 (tree_of t.now)) }
    ensures { IfOk result (λ r. r ≡ after_unify s x (tree_of t.now)) }
{
    match &s {
        State::Unreachable => Ok(s),
        State::Reachable { share, free } => {
            let nonground = share.nonground();
            let vars = var_set(t);
            if !nonground.contains(x) {
                ground(s, &vars)
            } else if !nonground.intersects(vars) {
                ground(s, &VarSet::just(x))
            } else {
                unify_sides(alloc, share, free, x, t)
            }
        }
    }
}
