//! The arguments of a goal by their places, which count from 1.

ghost use Rattle.std.specs.Prelude.{◌≡◌, ◌≤◌, IfOk, IsTrue, length, if◌then◌else◌};
ghost use Rattle.ap_term.specs.Tree.{count_trees};
ghost use Rattle.ap_term.specs.TermView.{tree_of, trees_of};
ghost use Rattle.ap_term.specs.WellFormed.{numbered_all};
ghost use Rattle.ap_sharing.specs.VarSet.{empty};
ghost use Rattle.ap_patterns.specs.Places.{arguments, argument_sets, places, free_places};

use ap_absunify::{is_free, var_set};
use ap_freeness::Free;
use ap_sharing::VarSet;
use ap_term::{NoMemory, Term};
use std::alloc::Global;

/// The arguments of a goal; an atom has none.
#[tactic(auto, using(crate::proofs::Arguments::rules_of_goals))]
pub fn arguments(goal: &Term) -> &[Term]
    ensures arguments { trees_of result.now ≡ arguments (tree_of goal.now) }
    ensures count { length result.now ≡ count_trees (arguments (tree_of goal.now)) }
{
    match goal {
        Term::Node(_, args) => args.as_slice(),
        _ => &[],
    }
}

/// The variables of each argument.
#[tactic(auto, using(crate::proofs::Arguments::rules_of_arguments, crate::proofs::Arguments::rules_of_goals))]
pub fn argument_sets(alloc: Global, args: &[Term]) -> Result<Vec<VarSet>, NoMemory>
    requires { IsTrue (numbered_all 255 (trees_of args.now)) }
    ensures sets { IfOk result (λ r. r.items ≡ argument_sets (trees_of args.now)) }
    ensures count { IfOk result (λ r. length r.items ≡ length args.now) }
{
    let mut sets = Vec::new(alloc);
    for t in args {
        sets.push(var_set(t))?;
    }
    Ok(sets)
}

/// The set where the test holds, and else the empty one.
pub fn only_if(test: bool, v: VarSet) -> VarSet
    ensures { result ≡ (if test then v else empty) }
{
    if test { v } else { VarSet::new() }
}

/// The places of the arguments that have a variable of s.
pub fn places(s: VarSet, sets: &[VarSet]) -> VarSet
    requires { length sets.now ≤ 255 }
    ensures { result ≡ places 1 s sets.now }
{
    let mut found = VarSet::new();
    for i in 0..sets.len() {
        let place = VarSet::just(i as u64 + 1);
        found = found.union(only_if(s.intersects(sets[i]), place));
    }
    found
}

/// The places of the arguments that are free variables.
pub fn free_places(free: &Free, args: &[Term]) -> VarSet
    requires { length args.now ≤ 255 }
    ensures { result ≡ free_places 1 free.now (trees_of args.now) }
{
    let mut found = VarSet::new();
    for i in 0..args.len() {
        let place = VarSet::just(i as u64 + 1);
        found = found.union(only_if(is_free(free, &args[i]), place));
    }
    found
}
