//! A group's full condition.

ghost use Rattle.std.specs.Prelude.{◌≡◌, ◌<◌, ◌≤◌, ◌++◌, ◌∷◌, [], ℕ, false, map, not, nat_lt, ◌&&◌, if◌then◌else◌, IfOk, OnOk, IsTrue};
ghost use Rattle.std.specs.List.{filter, flat_map};
ghost use Rattle.ap_term.specs.TermView.{trees_of};
ghost use Rattle.ap_term.specs.WellFormed.{numbered_all};
ghost use Rattle.ap_term.specs.declared.clauses.Check.TheVariants.{Ground};
ghost use Rattle.ap_sharing.specs.VarSet.{has};
ghost use Rattle.ap_conditions.specs.FullCondition.{numbers, full_condition};
ghost use Rattle.ap_conditions.specs.GoalSets.{goal_sets, in_one, in_two, others, indeps_with, indeps_among};

use ap_absunify::var_set;
use ap_sharing::VarSet;
use ap_term::{Check, Checks, NoMemory, Term};
use std::alloc::Global;

/// The variables of a group: those of two goals or more, and those of one goal alone.
struct Shared {
    shared: VarSet,
    alone: VarSet,
}

#[tactic(auto, using(crate::proofs::Sets::rules_of_sets))]
fn goal_sets(alloc: Global, goals: &[Term]) -> Result<Vec<VarSet>, NoMemory>
    requires { IsTrue (numbered_all 255 (trees_of goals.now)) }
    ensures { IfOk result (λ r. r.items ≡ goal_sets (trees_of goals.now)) }
{
    let mut sets = Vec::new(alloc);
    for goal in goals {
        sets.push(var_set(goal))?;
    }
    Ok(sets)
}

fn parted(sets: &[VarSet]) -> Shared
    ensures shared { (x : ℕ) → has result.shared x ≡ in_two sets.now x }
    ensures alone { (x : ℕ) → has result.alone x ≡ (in_one sets.now x && not (in_two sets.now x)) }
{
    let mut found = VarSet::new();
    let mut shared = VarSet::new();
    for s in sets {
        shared = shared.union(found.both(*s));
        found = found.union(*s);
    }
    let alone = found.without(shared);
    Shared { shared, alone }
}

/// The union of the sets without x.
fn others(sets: &[VarSet], x: u64) -> VarSet
    ensures { result ≡ others sets.now x }
{
    let mut found = VarSet::new();
    for s in sets {
        if !s.contains(x) {
            found = found.union(*s);
        }
    }
    found
}

fn push_if(test: bool, check: Check, out: &mut Checks) -> Result<(), NoMemory>
    ensures { OnOk result (out.new ≡ out.old ++ (if test then check ∷ [] else [])) }
{
    if test {
        out.push(check)?;
    }
    Ok(())
}

/// A number above which the set has none up to 255; the least one, where it has not 0.
fn last_of(s: VarSet) -> u64
    ensures few { result ≤ 255 }
    ensures above { (x : ℕ) → result < x → x ≤ 255 → has s x ≡ false }
{
    let mut left = s;
    for x in 0..255 {
        if left.is_empty() {
            return x;
        }
        left.remove(x + 1);
    }
    255
}

fn add_grounds(shared: VarSet, out: &mut Checks) -> Result<(), NoMemory>
    ensures { OnOk result (out.new ≡ out.old ++ map Ground (filter (λ x. has shared x) (numbers 255))) }
{
    let most = last_of(shared);
    for x in 0..most {
        push_if(shared.contains(x + 1), Check::Ground(x + 1), out)?;
    }
    Ok(())
}

fn is_partner_above(partners: VarSet, x: u64, y: u64) -> bool
    ensures { result ≡ (nat_lt x y && has partners y) }
{
    x < y && partners.contains(y)
}

fn add_indeps_with(partners: VarSet, x: u64, out: &mut Checks) -> Result<(), NoMemory>
    ensures { OnOk result (out.new ≡ out.old ++ indeps_with partners x) }
{
    let most = last_of(partners);
    for y in 0..most {
        push_if(
            is_partner_above(partners, x, y + 1),
            Check::Indep(x, y + 1),
            out,
        )?;
    }
    Ok(())
}

fn add_indeps(sets: &[VarSet], alone: VarSet, out: &mut Checks) -> Result<(), NoMemory>
    ensures { OnOk result (out.new ≡ out.old ++ flat_map (indeps_among sets.now alone) (numbers 255)) }
{
    let most = last_of(alone);
    for x in 0..most {
        if alone.contains(x + 1) {
            let partners = others(sets, x + 1).both(alone);
            add_indeps_with(partners, x + 1, out)?;
        }
    }
    Ok(())
}

/// The full condition of a group: `ground` of each variable that two goals have, by number, and then `indep(x,y)`,
/// x below y, of each two others that stand in two goals, sorted.
pub fn full(alloc: Global, goals: &[Term]) -> Result<Checks, NoMemory>
    requires { IsTrue (numbered_all 255 (trees_of goals.now)) }
    ensures { IfOk result (λ cs. cs ≡ full_condition (trees_of goals.now)) }
{
    let sets = goal_sets(alloc, goals)?;
    let Shared { shared, alone } = parted(&sets);
    let mut checks = Checks::new(alloc);
    add_grounds(shared, &mut checks)?;
    add_indeps(&sets, alone, &mut checks)?;
    Ok(checks)
}
