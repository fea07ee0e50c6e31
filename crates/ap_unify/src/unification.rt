//! Unification by a list of runs of places that are to become equal.

ghost use Rattle.std.specs.Prelude.{◌≡◌, ℕ, ◌+◌, ◌-◌, ◌*◌, ◌^◌, ◌<◌, ◌≤◌, Bool, true, false, [], ◌∷◌, ◌++◌, length, IfOk, OnOk, List, Option};
ghost use Rattle.ap_term.specs.Tree.{Tree, var};
ghost use Rattle.ap_term.specs.Vars.{occurs};
ghost use Rattle.ap_term.specs.Substitution.{instance_all};
ghost use Rattle.ap_cells.specs.Trees.{span, tree_at, trees, frees, IsEnd};
ghost use Rattle.ap_cells.specs.Store.{Keeps};
ghost use Rattle.ap_cells.specs.Walks.{Each, weight, weight_all};
ghost use Rattle.ap_unify.specs.Works.{IsLeft, weight_runs, turns, Answer, IsBound, SolvesRuns, goes_on, outcome_of, with_args};
ghost use Rattle.ap_unify.specs.Sides.{Fits};
ghost use Rattle.ap_cells.specs.Assumed.{ArePairs, AreBelow, IsBelow};
ghost use Rattle.ap_unify.specs.Shared.{Turned, Going, Tells, IsLighter, IsStop};
ghost use Rattle.ap_marks.specs.Classes.{Agrees};

use crate::occurrences::stands_in;
use ap_cells::{Cells, MARKED, Pairs, Raw, UNMARKED, UNMARKED_PER_MARKED, Walk, has_step};
use ap_marks::Classes;
use ap_term::NoMemory;
use std::alloc::Global;

/// The lists of a unification, and the places that it takes to be equal, whose memory is kept for the next one.
#[derive(Drop)]
pub struct Work {
    runs: Vec<Pairs>,
    walk: Walk,
    classes: Classes,
}

impl Work {
    /// Takes no memory.
    pub fn new(alloc: Global) -> Work {
        Work {
            runs: Vec::new(alloc),
            walk: Walk::new(alloc),
            classes: Classes::new(alloc),
        }
    }
}

/// What two cells that aren't the same place ask for.
enum Sides {
    Both,
    Left,
    Right,
    Equal,
    Apart,
    Args(u32, u32, u32),
}

#[inline(always)]
fn compared(left: Raw, right: Raw) -> Sides
    requires { IsEnd left × IsEnd right }
    ensures { Fits left right result }
{
    match left {
        Raw::Free => match right {
            Raw::Free => Sides::Both,
            Raw::Same(_) => Sides::Left,
            Raw::Int(_) => Sides::Left,
            Raw::Atom(_) => Sides::Left,
            Raw::Node(_, _, _) => Sides::Left,
        },
        Raw::Same(_) => Sides::Apart,
        Raw::Int(m) => match right {
            Raw::Free => Sides::Right,
            Raw::Same(_) => Sides::Apart,
            Raw::Int(n) => { if m == n { Sides::Equal } else { Sides::Apart } }
            Raw::Atom(_) => Sides::Apart,
            Raw::Node(_, _, _) => Sides::Apart,
        },
        Raw::Atom(a) => match right {
            Raw::Free => Sides::Right,
            Raw::Same(_) => Sides::Apart,
            Raw::Int(_) => Sides::Apart,
            Raw::Atom(b) => { if a == b { Sides::Equal } else { Sides::Apart } }
            Raw::Node(_, _, _) => Sides::Apart,
        },
        Raw::Node(a, p, m) => match right {
            Raw::Free => Sides::Right,
            Raw::Same(_) => Sides::Apart,
            Raw::Int(_) => Sides::Apart,
            Raw::Atom(_) => Sides::Apart,
            Raw::Node(b, q, n) => {
                if a != b {
                    return Sides::Apart;
                }
                if m != n {
                    return Sides::Apart;
                }
                if p == q {
                    return Sides::Equal;
                }
                Sides::Args(p, q, m)
            }
        },
    }
}

/// Makes an unbound place equal to a term that is no variable; false where it stands in it.
#[inline(always)]
fn bind(cells: &mut Cells, x: usize, to: usize, walk: &mut Walk) -> Result<bool, NoMemory>
    requires inside { (x < length cells.old.cells) × (to < length cells.old.cells) }
    requires unbound { tree_at (trees cells.old.cells) x ≡ var x }
    requires term { (y : ℕ) → tree_at (trees cells.old.cells) to ≡ var y → ⊥ }
    ensures bound { IfOk result (λ b. IsBound (trees cells.old.cells) (trees cells.new.cells) x (tree_at (trees cells.old.cells) to) b) }
    ensures fewer { IfOk result (λ b. b ≡ true → frees cells.new.cells + 1 ≡ frees cells.old.cells) }
    ensures len { length cells.new.cells ≡ length cells.old.cells }
    ensures spare { cells.new.spare ≡ cells.old.spare }
    ensures keeps { Keeps cells.old cells.new }
{
    if stands_in(cells, x, to, walk)? {
        return Ok(false);
    }
    cells.bind(x, to);
    Ok(true)
}

/// What comes of a pair of places: its terms can't be made equal, they are equal, or their arguments are to become equal.
enum Outcome {
    Apart,
    Solved,
    Args(Pairs),
}

#[inline(always)]
fn outcome_of(bound: bool) -> Outcome
    ensures { result ≡ outcome_of bound }
{
    if bound {
        Outcome::Solved
    } else {
        Outcome::Apart
    }
}

/// Whether two places are taken to be equal already. Where that is kept in mind, they are taken so from then on.
#[inline(always)]
fn is_joined(
    left: usize,
    right: usize,
    joining: bool,
    steps: &mut u32,
    classes: &mut Classes,
) -> Result<bool, NoMemory>
    ensures joined { IfOk result (λ r. r ≡ true → (f : ℕ → Option Tree) → Agrees f classes.new → f left ≡ f right) }
    ensures older { OnOk result ((f : ℕ → Option Tree) → Agrees f classes.new → Agrees f classes.old) }
    ensures no_more { OnOk result ((f : ℕ → Option Tree) → Agrees f classes.old → f left ≡ f right → Agrees f classes.new) }
    ensures same { IfOk result (λ r. r ≡ true → classes.new ≡ classes.old) }
{
    if !joining {
        return Ok(false);
    }
    let joined = classes.join(left, right)?;
    if joined {
        *steps = u32::MAX;
    }
    Ok(joined)
}

/// Makes the terms of two places equal, up to their arguments. What is left of the steps is as much as can be, once a pair was
/// taken to be equal already.
#[inline(always)]
fn solve(
    cells: &mut Cells,
    left: usize,
    right: usize,
    walk: &mut Walk,
    joining: bool,
    steps: &mut u32,
    classes: &mut Classes,
) -> Result<Outcome, NoMemory>
    requires inside { (left < length cells.old.cells) × (right < length cells.old.cells) }
    ensures turned { IfOk result (λ o. (rs : List Pairs) → Each (ArePairs (length cells.old.cells)) rs → Turned (trees cells.old.cells) (trees cells.new.cells) rs (with_args o rs) classes.old classes.new left right (goes_on o)) }
    ensures less { IfOk result (λ o. (rs : List Pairs) → Each (ArePairs (length cells.old.cells)) rs → goes_on o ≡ true → turns (frees cells.new.cells) (weight_runs (trees cells.new.cells) (with_args o rs)) < turns (frees cells.old.cells) (weight_runs (trees cells.old.cells) rs + 2 * (weight (tree_at (trees cells.old.cells) left) + weight (tree_at (trees cells.old.cells) right)))) }
    ensures args { IfOk result (λ o. IsLeft (length cells.old.cells) o) }
    ensures len { length cells.new.cells ≡ length cells.old.cells }
    ensures spare { cells.new.spare ≡ cells.old.spare }
    ensures keeps { Keeps cells.old cells.new }
{
    let places = cells.len();
    prove!(left < places);
    let first = left;
    let second = right;
    let left = cells.deref(left);
    let right = cells.deref(right);
    if left == right {
        return Ok(Outcome::Solved);
    }
    match compared(cells.raw_at(left), cells.raw_at(right)) {
        Sides::Both => {
            if left < right {
                cells.bind(right, left);
                return Ok(Outcome::Solved);
            }
            cells.bind(left, right);
            Ok(Outcome::Solved)
        }
        Sides::Left => {
            let bound = bind(cells, left, right, walk)?;
            Ok(outcome_of(bound))
        }
        Sides::Right => {
            let bound = bind(cells, right, left, walk)?;
            Ok(outcome_of(bound))
        }
        Sides::Equal => Ok(Outcome::Solved),
        Sides::Apart => Ok(Outcome::Apart),
        Sides::Args(p, q, n) => {
            if is_joined(first, second, joining, steps, classes)? {
                return Ok(Outcome::Solved);
            }
            Ok(Outcome::Args(Pairs {
                left: p,
                right: q,
                count: n,
            }))
        }
    }
}

/// The pairs after the first.
#[inline(always)]
fn behind(run: Pairs) -> Pairs
    requires some { 0 < run.count }
    requires fits { (run.left + run.count ≤ 4294967295) × (run.right + run.count ≤ 4294967295) }
    ensures { result ≡ record { left = run.left + 1; right = run.right + 1; count = run.count - 1 } }
{
    Pairs {
        left: run.left + 1,
        right: run.right + 1,
        count: run.count - 1,
    }
}

/// Leaves the pairs after the first to be made equal.
#[inline(always)]
fn leave(run: Pairs, runs: &mut Vec<Pairs>) -> Result<(), NoMemory>
    requires some { 0 < run.count }
    requires fits { (run.left + run.count ≤ 4294967295) × (run.right + run.count ≤ 4294967295) }
    ensures solves { OnOk result ((ts : List Tree) (h : ℕ → Tree) → SolvesRuns h ts runs.old.items → instance_all h (span ts (run.left + 1) (run.count - 1)) ≡ instance_all h (span ts (run.right + 1) (run.count - 1)) → SolvesRuns h ts runs.new.items) }
    ensures below { OnOk result ((ts : List Tree) (w : ℕ) → AreBelow ts w runs.new.items → AreBelow ts w runs.old.items × IsBelow ts w (record { left = run.left + 1; right = run.right + 1; count = run.count - 1 })) }
    ensures less { OnOk result ((ts : List Tree) → weight_runs ts runs.new.items ≤ weight_runs ts runs.old.items + (2 * (weight_all (span ts (run.left + 1) (run.count - 1)) + weight_all (span ts (run.right + 1) (run.count - 1))) + 1)) }
    ensures runs { OnOk result ((n : ℕ) → ArePairs n run → Each (ArePairs n) runs.old.items → Each (ArePairs n) runs.new.items) }
{
    if run.count > 1 {
        runs.push(behind(run))?;
    }
    Ok(())
}

/// Makes the terms of two places equal, if they can be. After false, or want of memory, some bindings may be made;
/// `undo_to` takes them back.
pub fn unify(cells: &mut Cells, a: usize, b: usize, work: &mut Work) -> Result<bool, NoMemory>
    requires { (a < length cells.old.cells) × (b < length cells.old.cells) }
    ensures answer { IfOk result (λ r. Answer (trees cells.old.cells) (trees cells.new.cells) (tree_at (trees cells.old.cells) a) (tree_at (trees cells.old.cells) b) r) }
    ensures len { length cells.new.cells ≡ length cells.old.cells }
    ensures spare { cells.new.spare ≡ cells.old.spare }
    ensures keeps { Keeps cells.old cells.new }
{
    let places = cells.len();
    prove!(a < places);
    work.runs.clear();
    work.classes.clear();
    let start = Pairs {
        left: a as u32,
        right: b as u32,
        count: 1,
    };
    match solve_part(
        cells,
        start,
        &mut work.runs,
        &mut work.walk,
        &mut work.classes,
        false,
        UNMARKED,
    )? {
        Progress::Done => Ok(true),
        Progress::Failed => Ok(false),
        Progress::Stopped(next) => solve_on(
            cells,
            next,
            &mut work.runs,
            &mut work.walk,
            &mut work.classes,
        ),
    }
}

/// How a part of a unification ended: the pairs at which it stopped come before those on the list.
enum Progress {
    Done,
    Failed,
    Stopped(Pairs),
}

/// The pairs of one run after another; the run that is gone through isn't on the list, so a single pair, and a list of which
/// only the last argument goes on, put nothing there. It stops after some pairs of which it left others for later, or, where
/// it keeps pairs in mind, after some pairs, but not once it has come to one that it took to be equal already.
#[inline(always)]
fn solve_part(
    cells: &mut Cells,
    start: Pairs,
    runs: &mut Vec<Pairs>,
    walk: &mut Walk,
    classes: &mut Classes,
    joining: bool,
    steps: u32,
) -> Result<Progress, NoMemory>
    requires start { ArePairs (length cells.old.cells) start }
    requires runs { Each (ArePairs (length cells.old.cells)) runs.old.items }
    ensures tells { IfOk result (λ p. (ts : List Tree) (a b : ℕ) → a < length ts → b < length ts → Going ts (trees cells.old.cells) (runs.old.items ++ start ∷ []) classes.old a b → Tells ts (trees cells.new.cells) runs.new.items classes.new a b p) }
    ensures less { IfOk result (λ p. IsLighter (frees cells.new.cells) (trees cells.new.cells) runs.new.items p (turns (frees cells.old.cells) (weight_runs (trees cells.old.cells) (runs.old.items ++ start ∷ [])))) }
    ensures stop { IfOk result (λ p. IsStop (length cells.new.cells) p) }
    ensures runs { OnOk result (Each (ArePairs (length cells.new.cells)) runs.new.items) }
    ensures len { length cells.new.cells ≡ length cells.old.cells }
    ensures spare { cells.new.spare ≡ cells.old.spare }
    ensures keeps { Keeps cells.old cells.new }
{
    let places = cells.len();
    prove!(places <= 4_294_967_295);
    let mut pairs = start;
    let mut steps = steps;
    loop {
        if pairs.count == 0 {
            match runs.pop() {
                Some(next) => pairs = next,
                None => return Ok(Progress::Done),
            }
        } else {
            let (left, right) = (pairs.left as usize, pairs.right as usize);
            match solve(cells, left, right, walk, joining, &mut steps, classes)? {
                Outcome::Apart => return Ok(Progress::Failed),
                Outcome::Solved => pairs = behind(pairs),
                Outcome::Args(args) => {
                    let is_step = joining || pairs.count > 1;
                    leave(pairs, runs)?;
                    pairs = args;
                    if is_step && !has_step(&mut steps) {
                        return Ok(Progress::Stopped(pairs));
                    }
                }
            }
        }
    }
}

/// Ends a unification that has gone far, in parts that keep pairs in mind and others that don't, so that it takes time in
/// proportion to the cells, however often they are shared.
#[cold]
#[inline(never)]
fn solve_on(
    cells: &mut Cells,
    start: Pairs,
    runs: &mut Vec<Pairs>,
    walk: &mut Walk,
    classes: &mut Classes,
) -> Result<bool, NoMemory>
    requires start { ArePairs (length cells.old.cells) start }
    requires runs { Each (ArePairs (length cells.old.cells)) runs.old.items }
    ensures answer { IfOk result (λ r. (ts : List Tree) (a b : ℕ) → a < length ts → b < length ts → Going ts (trees cells.old.cells) (runs.old.items ++ start ∷ []) classes.old a b → Answer ts (trees cells.new.cells) (tree_at ts a) (tree_at ts b) r) }
    ensures len { length cells.new.cells ≡ length cells.old.cells }
    ensures spare { cells.new.spare ≡ cells.old.spare }
    ensures keeps { Keeps cells.old cells.new }
{
    let mut pairs = start;
    let mut steps = MARKED;
    loop {
        match solve_part(cells, pairs, runs, walk, classes, true, steps)? {
            Progress::Done => return Ok(true),
            Progress::Failed => return Ok(false),
            Progress::Stopped(next) => pairs = next,
        }
        let unmarked = steps.saturating_mul(UNMARKED_PER_MARKED);
        match solve_part(cells, pairs, runs, walk, classes, false, unmarked)? {
            Progress::Done => return Ok(true),
            Progress::Failed => return Ok(false),
            Progress::Stopped(next) => pairs = next,
        }
        steps = steps.saturating_mul(2);
    }
}
