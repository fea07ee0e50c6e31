//! Random equations of a clause of four variables, whose instances have four variables of their own.

use ap_absunify::{State, after_builtin, made};
use ap_freeness::Free;
use ap_sharing::{Sets, Share, VarSet};
use ap_spec::unify;
use ap_term::{Args, Atom, Body, Term, fixed, instance, is_clause, vars};
use std::alloc::Global;
use std::test::Fail;

/// The first variable of the clause, and that of its instances.
const OWN: u64 = 1;

const RUN: u64 = 11;

const COUNT: u64 = 4;

const PAIR: u32 = 1000;

const TUPLE: u32 = 1001;

/// The next number of a linear congruential generator (Knuth's MMIX), below a bound.
fn random(dice: &mut u64, below: u64) -> u64 {
    *dice = dice
        .wrapping_mul(6_364_136_223_846_793_005)
        .wrapping_add(1_442_695_040_888_963_407);
    if below == 0 { 0 } else { (*dice >> 33) % below }
}

fn leaf(dice: &mut u64, first: u64) -> Term {
    if random(dice, 5) == 0 {
        Term::Int(7)
    } else {
        Term::Var(first.saturating_add(random(dice, COUNT)))
    }
}

fn term(alloc: Global, dice: &mut u64, first: u64) -> Result<Term, Fail> {
    if random(dice, 3) > 0 {
        return Ok(leaf(dice, first));
    }
    let mut args = Args::new(alloc);
    args.push(leaf(dice, first))?;
    args.push(leaf(dice, first))?;
    Ok(Term::Node(Atom::at(PAIR), args))
}

fn compound(
    alloc: Global,
    dice: &mut u64,
    name: u32,
    first: u64,
    count: u64,
) -> Result<Term, Fail> {
    let mut args = Args::new(alloc);
    for _ in 0..count {
        args.push(term(alloc, dice, first)?)?;
    }
    Ok(Term::Node(Atom::at(name), args))
}

/// The tuple of the clause's variables.
fn own(alloc: Global) -> Result<Term, Fail> {
    let mut args = Args::new(alloc);
    for x in OWN..OWN + COUNT {
        args.push(Term::Var(x))?;
    }
    Ok(Term::Node(Atom::at(TUPLE), args))
}

fn arguments(t: &Term) -> &[Term] {
    match t {
        Term::Node(_, args) => args.as_slice(),
        _ => &[],
    }
}

/// The clause's variables whose instances have the variable u.
fn sharers(alloc: Global, instances: &Term, u: u64) -> Result<VarSet, Fail> {
    let mut found = VarSet::new();
    let mut x = OWN;
    for t in arguments(instances) {
        if x < 256 && vars(alloc, t)?.contains(&u) {
            found.insert(x);
        }
        x = x.saturating_add(1);
    }
    Ok(found)
}

/// The clause's variables whose instances are variables.
fn variables(instances: &Term) -> VarSet {
    let mut found = VarSet::new();
    let mut x = OWN;
    for t in arguments(instances) {
        if x < 256 && matches!(t, Term::Var(_)) {
            found.insert(x);
        }
        x = x.saturating_add(1);
    }
    found
}

/// A state that covers the instances: some sets may come to `any`, and not all that is free is told.
fn covering(alloc: Global, dice: &mut u64, instances: &Term) -> Result<State, Fail> {
    let mut sets = Sets::new(alloc);
    let mut any = VarSet::new();
    for u in RUN..RUN + COUNT {
        let set = sharers(alloc, instances, u)?;
        if random(dice, 5) == 0 {
            any = any.union(set);
        } else {
            sets.insert(set)?;
        }
    }
    let mut free = variables(instances);
    if random(dice, 3) == 0 {
        free = free.without(VarSet::just(OWN));
    }
    Ok(made(Share::new(sets, any), Free::new(free)))
}

fn covers(alloc: Global, s: &State, instances: &Term) -> Result<bool, Fail> {
    match s {
        State::Unreachable => Ok(false),
        State::Reachable { share, free } => {
            for u in RUN..RUN + COUNT {
                let set = sharers(alloc, instances, u)?;
                if set != VarSet::new() && !share.is_member(set) {
                    return Ok(false);
                }
            }
            Ok(free.vars().is_subset(variables(instances)))
        }
    }
}

/// What the unifier of an equation makes of the instances, where it has one.
fn unified(alloc: Global, equation: &Term, instances: &Term) -> Result<Option<Term>, Fail> {
    match arguments(equation) {
        [left, right] => match unify(alloc, left, right)? {
            Some(unifier) => Ok(Some(instance(alloc, &unifier, instances)?)),
            None => Ok(None),
        },
        _ => Ok(None),
    }
}

/// What an equation of the clause makes of the instances, where it has a unifier.
fn met(alloc: Global, equation: &Term, instances: &Term) -> Result<Option<Term>, Fail> {
    let at_run = unify(alloc, &own(alloc)?, instances)?.ok_or("no instances")?;
    unified(alloc, &instance(alloc, &at_run, equation)?, instances)
}

/// The state after an equation.
fn after(alloc: Global, s: State, equation: &Term) -> Result<State, Fail> {
    if !is_clause(equation, &Body::new(alloc), 255, 1) {
        return Err(Fail::new("no equation"));
    }
    Ok(after_builtin(alloc, s, equation)?)
}

/// One equation. None where it has no unifier; else whether the state before doesn't cover what comes after.
fn tried(alloc: Global, dice: &mut u64) -> Result<Option<bool>, Fail> {
    let instances = compound(alloc, dice, TUPLE, RUN, COUNT)?;
    let equation = compound(alloc, dice, fixed::UNIFY, OWN, 2)?;
    let before = covering(alloc, dice, &instances)?;
    if !covers(alloc, &before, &instances)? {
        return Err(Fail::new("not covered"));
    }
    let Some(instances) = met(alloc, &equation, &instances)? else {
        return Ok(None);
    };
    let is_new = !covers(alloc, &before, &instances)?;
    if !covers(alloc, &after(alloc, before, &equation)?, &instances)? {
        return Err(Fail::new("not covered behind"));
    }
    Ok(Some(is_new))
}

/// How many of so many equations have a unifier, and how many of these aren't covered before.
fn count_tried(alloc: Global, equations: usize) -> Result<(usize, usize), Fail> {
    let mut dice: u64 = 1;
    let mut unified: usize = 0;
    let mut changed: usize = 0;
    for _ in 0..equations {
        if let Some(is_new) = tried(alloc, &mut dice)? {
            unified = unified.saturating_add(1);
            changed = changed.saturating_add(is_new as usize);
        }
    }
    Ok((unified, changed))
}

#[test]
fn states_cover_what_unification_makes(rt: HostRuntime) -> Result<(), Fail> {
    let (unified, changed) = count_tried(rt.alloc(), 2000)?;
    assert!(rt; unified > 1000 && changed > 300, "{unified}, {changed}");
    Ok(())
}
