//! What no clause says: that calls answer where memory is ample, and that deep terms need no deep recursion. The answers
//! are compared with those that the definitions' own functions give, and with answers known by hand.

use crate::building::{Step, deep, put, shared, term};
use crate::calls::{
    are_identical, are_independent, has_value, is_ground, is_unified, may_be_unified, parcel_of,
    term_at, value,
};
use Step::{A, I, N, V};
use ap_cells::{Cell, Cells};
use ap_copy::{Roots, copy_in};
use ap_spec::{Subst, identical};
use ap_term::{Args, Atom, Term, fixed, instance, vars};
use ap_unify::Work;
use std::alloc::Global;
use std::test::Fail;

/// Names of functors and constants, behind the fixed names.
const F: u32 = 200;

const G: u32 = 201;

const C: u32 = 202;

/// The term with its variables numbered by first occurrence.
fn renumbered(alloc: Global, t: &Term) -> Result<Term, Fail> {
    let mut numbers = Subst::new(alloc);
    for (i, x) in vars(alloc, t)?.iter().enumerate() {
        numbers.bind(*x, Term::Var(i as u64))?;
    }
    Ok(instance(alloc, &numbers, t)?)
}

fn same_up_to_names(alloc: Global, t: &Term, u: &Term) -> Result<bool, Fail> {
    Ok(identical(&renumbered(alloc, t)?, &renumbered(alloc, u)?))
}

/// The terms of two places, as the arguments of one.
fn terms(alloc: Global, cells: &Cells, a: usize, b: usize) -> Result<Term, Fail> {
    let mut args = Args::new(alloc);
    args.push(term_at(alloc, cells, a)?)?;
    args.push(term_at(alloc, cells, b)?)?;
    Ok(Term::Node(Atom::at(F), args))
}

/// What may go to another thread.
fn sent<T: Send>(value: T) -> T {
    value
}

/// Whether terms share no variable.
fn are_apart(alloc: Global, t: &Term, u: &Term) -> Result<bool, Fail> {
    let xs = vars(alloc, t)?;
    for y in &vars(alloc, u)? {
        if xs.contains(y) {
            return Ok(false);
        }
    }
    Ok(true)
}

/// Whether the checks on one place, and its value, are what its term has.
fn is_alike(alloc: Global, cells: &Cells, a: usize) -> Result<bool, Fail> {
    let t = term_at(alloc, cells, a)?;
    let has_none = vars(alloc, &t)?.is_empty();
    Ok(is_ground(alloc, cells, a)? == has_none && value(alloc, cells, a)? == ap_spec::eval(&t))
}

/// Whether the checks on two places are what their terms have.
fn are_alike(alloc: Global, cells: &Cells, a: usize, b: usize) -> Result<bool, Fail> {
    let t = term_at(alloc, cells, a)?;
    let u = term_at(alloc, cells, b)?;
    let is_same = are_identical(alloc, cells, a, b)?;
    let is_apart = are_independent(alloc, cells, a, b)?;
    Ok(is_same == identical(&t, &u) && is_apart == are_apart(alloc, &t, &u)?)
}

/// Whether two places' terms are the same, up to names, when they are copied into another store.
fn are_copied(alloc: Global, cells: &Cells, a: usize, b: usize) -> Result<bool, Fail> {
    let parcel = sent(parcel_of(alloc, cells, a, b)?);
    let mut other = Cells::new(alloc);
    put(&mut other, Cell::Free)?;
    let Roots { first, count } = copy_in(&mut other, &parcel)?;
    let copied = terms(alloc, &other, first, first.saturating_add(1))?;
    let whole = terms(alloc, cells, a, b)?;
    Ok(count == 2 && same_up_to_names(alloc, &whole, &copied)?)
}

/// Whether two places' terms are those that the unifier makes of both, once they are unified.
fn is_solved(
    alloc: Global,
    cells: &mut Cells,
    a: usize,
    b: usize,
    solution: &Subst,
) -> Result<bool, Fail> {
    let wanted = instance(alloc, solution, &terms(alloc, cells, a, b)?)?;
    let found = is_unified(cells, a, b, &mut Work::new(alloc))?;
    let bound = terms(alloc, cells, a, b)?;
    Ok(found && same_up_to_names(alloc, &bound, &wanted)?)
}

/// Whether two places' terms unify, and are then as they were.
fn is_taken_back(alloc: Global, cells: &mut Cells, a: usize, b: usize) -> Result<bool, Fail> {
    let whole = terms(alloc, cells, a, b)?;
    let found = may_be_unified(cells, a, b, &mut Work::new(alloc))?;
    let after = terms(alloc, cells, a, b)?;
    if !identical(&whole, &after) {
        return Err(Fail::new("bound"));
    }
    Ok(found)
}

/// Unifies two places' terms, and takes that back; then unifies them for good. None where the calls don't agree with the
/// definitions.
fn unifies(alloc: Global, cells: &mut Cells, a: usize, b: usize) -> Result<Option<bool>, Fail> {
    let found = is_taken_back(alloc, cells, a, b)?;
    let (t, u) = (term_at(alloc, cells, a)?, term_at(alloc, cells, b)?);
    match ap_spec::unify(alloc, &t, &u)? {
        Some(solution) => {
            let is_well = found && is_solved(alloc, cells, a, b, &solution)?;
            Ok(is_well.then_some(true))
        }
        None => Ok((!found).then_some(false)),
    }
}

/// Whether two terms unify, where each call agrees with the definitions' functions.
fn compared(alloc: Global, a: &[Step], b: &[Step]) -> Result<Option<bool>, Fail> {
    let mut cells = Cells::new(alloc);
    let mut variables = Vec::new(alloc);
    let a = term(alloc, &mut cells, &mut variables, a)?;
    let b = term(alloc, &mut cells, &mut variables, b)?;
    let is_well = is_alike(alloc, &cells, a)?
        && are_alike(alloc, &cells, a, b)?
        && are_copied(alloc, &cells, a, b)?;
    if !is_well {
        return Ok(None);
    }
    unifies(alloc, &mut cells, a, b)
}

/// Two terms, and whether they unify: `X = f(X)`, `p(A, A)` with the head `p(X, f(X))`, and others.
const UNIFIED: [(&[Step], &[Step], bool); 10] = [
    (&[V(0)], &[V(0), N(F, 1)], false),
    (&[V(0)], &[V(1), N(F, 1)], true),
    (
        &[V(0), V(0), N(F, 2)],
        &[V(1), V(1), N(G, 1), N(F, 2)],
        false,
    ),
    (&[V(0), V(1), N(F, 2)], &[V(1), V(0), N(F, 2)], true),
    (&[V(0), A(C), N(F, 2)], &[I(1), V(0), N(F, 2)], false),
    (
        &[A(C), V(0), I(2), N(F, 3)],
        &[A(C), I(1), V(1), N(F, 3)],
        true,
    ),
    (
        &[A(C), I(1), I(2), N(F, 3)],
        &[A(C), I(1), I(3), N(F, 3)],
        false,
    ),
    (&[V(0), N(F, 1)], &[V(0), V(1), N(F, 2)], false),
    (&[V(0), N(F, 1)], &[I(i64::MIN), N(F, 1)], true),
    (&[I(i64::MAX), N(F, 1)], &[I(i64::MIN), N(F, 1)], false),
];

#[test]
fn terms_unify_where_they_should(rt: HostRuntime) -> Result<(), Fail> {
    for (a, b, wanted) in &UNIFIED {
        assert!(rt; compared(rt.alloc(), a, b)? == Some(*wanted));
    }
    Ok(())
}

/// The term of steps in a store of its own.
fn read(alloc: Global, steps: &[Step]) -> Result<Term, Fail> {
    let mut cells = Cells::new(alloc);
    let place = term(alloc, &mut cells, &mut Vec::new(alloc), steps)?;
    Ok(term_at(alloc, &cells, place)?)
}

/// What the first of two terms is once they are unified.
fn solved(alloc: Global, a: &[Step], b: &[Step]) -> Result<Term, Fail> {
    let mut cells = Cells::new(alloc);
    let mut variables = Vec::new(alloc);
    let a = term(alloc, &mut cells, &mut variables, a)?;
    let b = term(alloc, &mut cells, &mut variables, b)?;
    if !is_unified(&mut cells, a, b, &mut Work::new(alloc))? {
        return Err(Fail::new("no unifier"));
    }
    Ok(term_at(alloc, &cells, a)?)
}

#[test]
fn an_answer_shares_its_variable(rt: HostRuntime) -> Result<(), Fail> {
    let alloc = rt.alloc();
    let head = [V(2), N(F, 1), V(2), N(F, 2)];
    let found = solved(alloc, &[V(0), V(1), N(F, 2)], &head)?;
    let wanted = read(alloc, &[V(0), N(F, 1), V(0), N(F, 2)])?;
    assert!(rt; same_up_to_names(alloc, &found, &wanted)?);
    Ok(())
}

/// Expressions with their values.
const VALUES: [(&[Step], Option<i64>); 6] = [
    (&[I(i64::MAX), I(0), N(fixed::PLUS, 2)], Some(i64::MAX)),
    (&[I(i64::MAX), I(1), N(fixed::PLUS, 2)], None),
    (&[I(i64::MIN), N(fixed::MINUS, 1)], None),
    (&[I(-7), I(2), N(fixed::DIVIDE, 2)], Some(-3)),
    (&[I(1), V(0), N(fixed::PLUS, 2)], None),
    (&[I(1), I(2), I(3), N(fixed::PLUS, 3)], None),
];

/// Whether an expression has that value.
fn is_value(alloc: Global, steps: &[Step], wanted: Option<i64>) -> Result<bool, Fail> {
    let mut cells = Cells::new(alloc);
    let place = term(alloc, &mut cells, &mut Vec::new(alloc), steps)?;
    let is_there = has_value(alloc, &cells, place)?;
    Ok(value(alloc, &cells, place)? == wanted && is_there == wanted.is_some())
}

#[test]
fn expressions_have_values_of_64_bits(rt: HostRuntime) -> Result<(), Fail> {
    for (steps, wanted) in &VALUES {
        assert!(rt; is_value(rt.alloc(), steps, *wanted)?);
    }
    Ok(())
}

/// The next number of a linear congruential generator (Knuth's MMIX), below a bound.
fn random(state: &mut u64, below: u64) -> u64 {
    *state = state
        .wrapping_mul(6_364_136_223_846_793_005)
        .wrapping_add(1_442_695_040_888_963_407);
    if below == 0 {
        0
    } else {
        (*state >> 33) % below
    }
}

fn random_step(state: &mut u64, open: usize) -> Step {
    match random(state, 8) {
        0 => I(if random(state, 2) == 0 { 0 } else { 1 }),
        1 => A(C),
        2 | 3 | 4 => V(random(state, 4) as usize),
        5 => N(G, open.min(2)),
        _ => N(fixed::PLUS, open.min(2)),
    }
}

fn random_term(alloc: Global, state: &mut u64) -> Result<Vec<Step>, Fail> {
    let mut steps = Vec::new(alloc);
    let mut open: usize = 0;
    for _ in 0..random(state, 8).saturating_add(1) {
        let step = random_step(state, open);
        steps.push(step)?;
        open = match step {
            N(_, count) => open.saturating_sub(count).saturating_add(1),
            _ => open.saturating_add(1),
        };
    }
    steps.push(N(F, open))?;
    Ok(steps)
}

/// How many of so many random pairs unify.
fn count_unified(alloc: Global, pairs: usize) -> Result<usize, Fail> {
    let mut state: u64 = 1;
    let mut count: usize = 0;
    for _ in 0..pairs {
        let a = random_term(alloc, &mut state)?;
        let b = random_term(alloc, &mut state)?;
        let found = compared(alloc, a.as_slice(), b.as_slice())?.ok_or("calls that disagree")?;
        count = count.saturating_add(found as usize);
    }
    Ok(count)
}

#[test]
fn random_terms_agree_with_the_definitions(rt: HostRuntime) -> Result<(), Fail> {
    let unified = count_unified(rt.alloc(), 1000)?;
    assert!(rt; 50 < unified && unified < 950, "{unified}");
    Ok(())
}

const DEPTH: usize = 1_000_000;

/// A sum of a great depth, of ones or of variables.
fn put_sum(cells: &mut Cells, is_first: bool, leaf: Cell) -> Result<usize, Fail> {
    Ok(deep(cells, fixed::PLUS, DEPTH, is_first, leaf)?)
}

/// Whether a sum of ones and a sum of variables have what they should.
fn are_sums(alloc: Global, cells: &Cells, a: usize, b: usize) -> Result<bool, Fail> {
    Ok(
        value(alloc, cells, a)? == Some(DEPTH as i64 + 1)
            && is_ground(alloc, cells, a)?
            && are_independent(alloc, cells, a, b)?
            && !are_independent(alloc, cells, b, b)?
            && are_identical(alloc, cells, b, b)?
            && !are_identical(alloc, cells, a, b)?,
    )
}

/// Whether a sum of ones is copied, and a sum of variables becomes it.
fn become_ones(alloc: Global, cells: &mut Cells, a: usize, b: usize) -> Result<bool, Fail> {
    let mut work = Work::new(alloc);
    let parcel = parcel_of(alloc, cells, a, b)?;
    let roots = copy_in(cells, &parcel)?;
    let is_well = may_be_unified(cells, a, roots.first, &mut work)?
        && is_unified(cells, a, b, &mut work)?;
    Ok(is_well && value(alloc, cells, b)? == Some(DEPTH as i64 + 1))
}

/// Whether sums that are deep in their first arguments, or in their last ones, have what they should.
fn are_deep_sums(alloc: Global, is_first: bool) -> Result<bool, Fail> {
    let mut cells = Cells::new(alloc);
    let a = put_sum(&mut cells, is_first, Cell::Int(1))?;
    let b = put_sum(&mut cells, is_first, Cell::Free)?;
    Ok(are_sums(alloc, &cells, a, b)? && become_ones(alloc, &mut cells, a, b)?)
}

/// Whether a term that is deep in its last arguments has no variable, as a tree of its own.
fn is_deep_term(alloc: Global) -> Result<bool, Fail> {
    let mut cells = Cells::new(alloc);
    let place = deep(&mut cells, F, DEPTH, false, Cell::Int(1))?;
    let t = term_at(alloc, &cells, place)?;
    Ok(vars(alloc, &t)?.is_empty())
}

#[test]
fn deep_terms_need_no_deep_stack(rt: HostRuntime) -> Result<(), Fail> {
    assert!(rt; are_deep_sums(rt.alloc(), true)?);
    assert!(rt; are_deep_sums(rt.alloc(), false)?);
    assert!(rt; is_deep_term(rt.alloc())?);
    Ok(())
}

/// Levels of terms that are shared: as trees the last ones are larger than any memory.
const LEVELS: [usize; 4] = [1, 10, 18, 100];

/// Whether two shared terms of variables, apart from one another, have what they should, and are one once they are unified.
fn become_one(alloc: Global, cells: &mut Cells, levels: usize) -> Result<bool, Fail> {
    let a = shared(cells, F, levels, Cell::Free)?;
    let b = shared(cells, F, levels, Cell::Free)?;
    let mut work = Work::new(alloc);
    let is_apart = !are_identical(alloc, cells, a, b)?
        && are_independent(alloc, cells, a, b)?
        && !are_independent(alloc, cells, a, a)?
        && !is_ground(alloc, cells, a)?;
    let is_one = is_unified(cells, a, b, &mut work)?
        && are_identical(alloc, cells, a, b)?
        && !are_independent(alloc, cells, a, b)?;
    Ok(is_apart && is_one)
}

/// Whether shared terms of integers are ground, and the same or not the same by their leaves.
fn differ_by_leaves(alloc: Global, cells: &mut Cells, levels: usize) -> Result<bool, Fail> {
    let ones = shared(cells, F, levels, Cell::Int(1))?;
    let others = shared(cells, F, levels, Cell::Int(1))?;
    let twos = shared(cells, F, levels, Cell::Int(2))?;
    let mut work = Work::new(alloc);
    Ok(
        is_ground(alloc, cells, ones)?
            && are_identical(alloc, cells, ones, others)?
            && !are_identical(alloc, cells, ones, twos)?
            && may_be_unified(cells, ones, others, &mut work)?
            && !may_be_unified(cells, ones, twos, &mut work)?,
    )
}

/// Whether a variable doesn't unify with a term in which it stands behind a shared one, and another one does.
fn stands_behind(alloc: Global, cells: &mut Cells, levels: usize) -> Result<bool, Fail> {
    let x = shared(cells, F, levels, Cell::Free)?;
    let first = put(cells, Cell::Same(x))?;
    let z = put(cells, Cell::Free)?;
    let whole = put(cells, Cell::Node(Atom::at(G), first, 2))?;
    let other = put(cells, Cell::Free)?;
    let mut work = Work::new(alloc);
    Ok(
        !may_be_unified(cells, z, whole, &mut work)?
            && may_be_unified(cells, other, whole, &mut work)?,
    )
}

#[test]
fn shared_terms_are_gone_through_once(rt: HostRuntime) -> Result<(), Fail> {
    let alloc = rt.alloc();
    for levels in LEVELS {
        let mut cells = Cells::new(alloc);
        assert!(rt; become_one(alloc, &mut cells, levels)?, "{levels}");
        assert!(rt; differ_by_leaves(alloc, &mut cells, levels)?, "{levels}");
        assert!(rt; stands_behind(alloc, &mut cells, levels)?, "{levels}");
    }
    Ok(())
}
