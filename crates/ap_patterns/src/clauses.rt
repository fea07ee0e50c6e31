//! Entering a clause.

ghost use Rattle.std.specs.Prelude.{◌≡◌, ◌≤◌, ◌+◌, true, IfOk, IsTrue, length, map};
ghost use Rattle.ap_term.specs.Tree.{count_trees};
ghost use Rattle.ap_term.specs.TermView.{tree_of, trees_of};
ghost use Rattle.ap_term.specs.WellFormed.{numbered, numbered_all};
ghost use Rattle.ap_absunify.specs.AfterEqual.{after_all};
ghost use Rattle.ap_sharing.specs.Sets.{sets_of};
ghost use Rattle.ap_patterns.specs.Places.{arguments};
ghost use Rattle.ap_patterns.specs.Given.{any_pattern};
ghost use Rattle.ap_patterns.specs.Anyhow.{anyhow};
ghost use Rattle.ap_patterns.specs.Entering.{own, with_own, own_sets, beside, beside_own, head_equations, enter};

use crate::calls::Pattern;
use crate::places::{arguments, only_if};
use ap_absunify::{State, add_var_sets, after_unify, made};
use ap_freeness::Free;
use ap_sharing::{Sets, Share, VarSet};
use ap_term::{NoMemory, Term};
use std::alloc::Global;

/// The variables from 1 to n.
fn own(n: u64) -> VarSet
    requires { n ≤ 255 }
    ensures { result ≡ own n }
{
    let mut vars = VarSet::new();
    for x in 0..n {
        vars.insert(x + 1);
    }
    vars
}

/// Each of the variables from 1 to n alone, with room for more sets.
fn own_sets(alloc: Global, n: u64, more: usize) -> Result<Vec<VarSet>, NoMemory>
    requires { n ≤ 255 }
    ensures { IfOk result (λ r. r.items ≡ own_sets n) }
{
    let mut sets = Vec::with_capacity(alloc, more.saturating_add(n as usize))?;
    for x in 0..n {
        sets.push(VarSet::just(x + 1))?;
    }
    Ok(sets)
}

/// Of k places each place i of s as the variable n + i.
fn beside(n: u64, k: u64, s: VarSet) -> VarSet
    requires { n + k ≤ 255 }
    ensures { result ≡ beside n k s }
{
    let mut vars = VarSet::new();
    for i in 0..k {
        let variable = VarSet::just(n + i + 1);
        vars = vars.union(only_if(s.contains(i + 1), variable));
    }
    vars
}

/// A pattern of k places beside n variables that are free and share nothing.
fn beside_own(
    alloc: Global,
    n: u64,
    vars: VarSet,
    k: u64,
    pattern: &Pattern,
) -> Result<State, NoMemory>
    requires few { n + k ≤ 255 }
    requires own { vars ≡ own n }
    ensures { IfOk result (λ r. r ≡ beside_own n k pattern.now) }
{
    match pattern {
        State::Unreachable => Ok(State::Unreachable),
        State::Reachable { share, free } => {
            let sets = sets_beside(alloc, n, k, share.sets())?;
            let share = Share::new(sets, beside(n, k, share.any()));
            let free = Free::new(vars.union(beside(n, k, free.vars())));
            Ok(made(share, free))
        }
    }
}

/// The sets with each place of k as a variable beside n, and each of these n alone. Sets that ascend are made in order.
fn sets_beside(alloc: Global, n: u64, k: u64, sets: &Sets) -> Result<Sets, NoMemory>
    requires { n + k ≤ 255 }
    ensures { IfOk result (λ r. r ≡ with_own n (sets_of (map (beside n k) sets.now))) }
{
    let places = sets.as_slice();
    let mut all = own_sets(alloc, n, places.len())?;
    for s in places {
        all.push(beside(n, k, *s))?;
    }
    Sets::of(all)
}

/// The state after each place, as a variable beside n, was unified with its argument of the head.
fn after_head(alloc: Global, n: u64, head: &[Term], s: State) -> Result<State, NoMemory>
    requires few { n + length head.now ≤ 255 }
    requires variables { IsTrue (numbered_all 255 (trees_of head.now)) }
    ensures { IfOk result (λ r. r ≡ after_all s (head_equations (n + 1) (trees_of head.now))) }
{
    let mut state = s;
    for i in 0..head.len() {
        state = after_unify(alloc, state, n + i as u64 + 1, &head[i])?;
    }
    Ok(state)
}

/// Whether a pattern says nothing of n places.
fn is_anything(n: u64, pattern: &Pattern) -> bool
    requires { n ≤ 255 }
    ensures { result ≡ true → pattern.now ≡ any_pattern n }
{
    match pattern {
        State::Unreachable => false,
        State::Reachable { share, free } => {
            share.sets().is_empty() && share.any() == own(n) && free.vars().is_empty()
        }
    }
}

/// The state in which a clause of n variables is entered by a call of which nothing is known.
#[tactic(auto, using(crate::proofs::Anyhow::rules_of_anyhow))]
fn anyhow(alloc: Global, n: u64, vars: VarSet, args: &[Term]) -> Result<State, NoMemory>
    requires few { n ≤ 255 }
    requires own { vars ≡ own n }
    requires variables { IsTrue (numbered_all 255 (trees_of args.now)) }
    ensures { IfOk result (λ r. r ≡ anyhow n (trees_of args.now)) }
{
    let mut any = VarSet::new();
    add_var_sets(args, &mut any);
    let sets = Sets::of(own_sets(alloc, n, 0)?)?;
    Ok(made(Share::new(sets, any), Free::new(vars.without(any))))
}

/// The state in which a clause of n variables is entered.
#[tactic(auto, using(crate::proofs::Arguments::rules_of_goals))]
pub fn enter(alloc: Global, n: u64, head: &Term, pattern: &Pattern) -> Result<State, NoMemory>
    requires few { n + count_trees (arguments (tree_of head.now)) ≤ 255 }
    requires variables { IsTrue (numbered n (tree_of head.now)) }
    ensures { IfOk result (λ r. r ≡ enter n (tree_of head.now) pattern.now) }
{
    let args = arguments(head);
    let vars = own(n);
    if is_anything(args.len() as u64, pattern) {
        return anyhow(alloc, n, vars, args);
    }
    let beside = beside_own(alloc, n, vars, args.len() as u64, pattern)?;
    let unified = after_head(alloc, n, args, beside)?;
    unified.project(alloc, &vars)
}
