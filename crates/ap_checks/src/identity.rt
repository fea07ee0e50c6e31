//! Whether two terms are the same, by a list of runs of places that are still to be compared.

ghost use Rattle.std.specs.Prelude.{◌≡◌, ◌↔◌, ℕ, ◌+◌, ◌-◌, ◌*◌, ◌<◌, ◌≤◌, List, [], ◌∷◌, ◌++◌, Bool, true, length, IfOk, OnOk, Option};
ghost use Rattle.ap_term.specs.Tree.{Tree};
ghost use Rattle.ap_cells.specs.Trees.{span, tree_at, trees};
ghost use Rattle.ap_cells.specs.Walks.{Each, weight, weight_all};
ghost use Rattle.ap_cells.specs.Assumed.{ArePairs, AreBelow, IsBelow};
ghost use Rattle.ap_checks.specs.Pairs.{AllSame, Says, weight_pairs};
ghost use Rattle.ap_checks.specs.Shared.{Looked, AreLighter, AreInside, Going, Tells, IsLighter, IsStop};
ghost use Rattle.ap_marks.specs.Classes.{Agrees};

use ap_cells::{Cells, MARKED, Pairs, Top, UNMARKED, UNMARKED_PER_MARKED, has_step};
use ap_marks::Classes;
use ap_term::NoMemory;
use std::alloc::Global;

/// The list of a comparison, and the places that it takes to be equal, whose memory is kept for the next one.
#[derive(Drop)]
pub struct Comparison {
    pairs: Vec<Pairs>,
    classes: Classes,
}

impl Comparison {
    /// Takes no memory.
    pub fn new(alloc: Global) -> Comparison {
        Comparison {
            pairs: Vec::new(alloc),
            classes: Classes::new(alloc),
        }
    }
}

/// What the outermost parts of two terms say: whether these are the same may turn on their arguments.
enum Answer {
    Same,
    Apart,
    Arguments(usize, usize, u32),
}

fn compare_tops(left: Top, right: Top) -> Answer
    ensures { Says left right result }
{
    match left {
        Top::Free(x) => match right {
            Top::Free(y) => { if x == y { Answer::Same } else { Answer::Apart } }
            _ => Answer::Apart,
        },
        Top::Int(m) => match right {
            Top::Int(n) => { if m == n { Answer::Same } else { Answer::Apart } }
            _ => Answer::Apart,
        },
        Top::Atom(a) => match right {
            Top::Atom(b) => { if a == b { Answer::Same } else { Answer::Apart } }
            _ => Answer::Apart,
        },
        Top::Node(a, p, m) => match right {
            Top::Node(b, q, n) => {
                if a != b {
                    return Answer::Apart;
                }
                if m != n {
                    return Answer::Apart;
                }
                if p == q {
                    return Answer::Same;
                }
                Answer::Arguments(p, q, m)
            }
            _ => Answer::Apart,
        },
    }
}

/// What comes of a pair of places: its terms differ, they are the same, or they are where their arguments are.
enum Outcome {
    Apart,
    Same,
    Arguments(Pairs),
}

/// Whether two places are taken to be equal already. Where that is kept in mind, they are taken so from then on.
#[inline(always)]
fn is_joined(
    left: usize,
    right: usize,
    joining: bool,
    steps: &mut u32,
    classes: &mut Classes,
) -> Result<bool, NoMemory>
    ensures joined { IfOk result (λ r. r ≡ true → (f : ℕ → Option Tree) → Agrees f classes.new → f left ≡ f right) }
    ensures older { OnOk result ((f : ℕ → Option Tree) → Agrees f classes.new → Agrees f classes.old) }
    ensures no_more { OnOk result ((f : ℕ → Option Tree) → Agrees f classes.old → f left ≡ f right → Agrees f classes.new) }
    ensures same { IfOk result (λ r. r ≡ true → classes.new ≡ classes.old) }
{
    if !joining {
        return Ok(false);
    }
    let joined = classes.join(left, right)?;
    if joined {
        *steps = u32::MAX;
    }
    Ok(joined)
}

/// Compares the terms of two places, up to their arguments. What is left of the steps is as much as can be, once a pair was
/// taken to be equal already.
#[inline(always)]
fn compare(
    cells: &Cells,
    left: usize,
    right: usize,
    joining: bool,
    steps: &mut u32,
    classes: &mut Classes,
) -> Result<Outcome, NoMemory>
    requires { (left < length cells.now.cells) × (right < length cells.now.cells) }
    ensures looked { IfOk result (λ o. Looked (trees cells.now.cells) classes.old classes.new left right o) }
    ensures less { IfOk result (λ o. AreLighter (trees cells.now.cells) o (weight (tree_at (trees cells.now.cells) left))) }
    ensures inside { IfOk result (λ o. AreInside (length cells.now.cells) o) }
{
    let places = cells.len();
    prove!(left < places);
    match compare_tops(cells.top(left), cells.top(right)) {
        Answer::Same => Ok(Outcome::Same),
        Answer::Apart => Ok(Outcome::Apart),
        Answer::Arguments(p, q, count) => {
            if is_joined(left, right, joining, steps, classes)? {
                return Ok(Outcome::Same);
            }
            Ok(Outcome::Arguments(Pairs {
                left: p as u32,
                right: q as u32,
                count,
            }))
        }
    }
}

/// The pairs after the first.
#[inline(always)]
fn behind(run: Pairs) -> Pairs
    requires some { 0 < run.count }
    requires fits { (run.left + run.count ≤ 4294967295) × (run.right + run.count ≤ 4294967295) }
    ensures { result ≡ record { left = run.left + 1; right = run.right + 1; count = run.count - 1 } }
{
    Pairs {
        left: run.left + 1,
        right: run.right + 1,
        count: run.count - 1,
    }
}

/// Leaves the pairs after the first to be compared.
#[inline(always)]
fn leave(run: Pairs, pairs: &mut Vec<Pairs>) -> Result<(), NoMemory>
    requires some { 0 < run.count }
    requires fits { (run.left + run.count ≤ 4294967295) × (run.right + run.count ≤ 4294967295) }
    ensures same { OnOk result ((ts : List Tree) → AllSame ts pairs.old.items → span ts (run.left + 1) (run.count - 1) ≡ span ts (run.right + 1) (run.count - 1) → AllSame ts pairs.new.items) }
    ensures below { OnOk result ((ts : List Tree) (w : ℕ) → AreBelow ts w pairs.new.items → AreBelow ts w pairs.old.items × IsBelow ts w (record { left = run.left + 1; right = run.right + 1; count = run.count - 1 })) }
    ensures less { OnOk result ((ts : List Tree) → weight_pairs ts pairs.new.items ≤ weight_pairs ts pairs.old.items + (2 * weight_all (span ts (run.left + 1) (run.count - 1)) + 1)) }
    ensures inside { OnOk result ((n : ℕ) → ArePairs n run → Each (ArePairs n) pairs.old.items → Each (ArePairs n) pairs.new.items) }
{
    if run.count > 1 {
        pairs.push(behind(run))?;
    }
    Ok(())
}

/// How a part of a comparison ended: the pairs at which it stopped come before those on the list.
enum Progress {
    Same,
    Apart,
    Stopped(Pairs),
}

/// Compares the pairs of one run after another; the run that is gone through isn't on the list. It stops after some pairs of
/// which it left others for later, or, where it keeps pairs in mind, after some pairs, but not once it has come to one that it
/// took to be equal already.
#[inline(always)]
fn compare_part(
    cells: &Cells,
    start: Pairs,
    pairs: &mut Vec<Pairs>,
    classes: &mut Classes,
    joining: bool,
    steps: u32,
) -> Result<Progress, NoMemory>
    requires start { ArePairs (length cells.now.cells) start }
    requires pairs { Each (ArePairs (length cells.now.cells)) pairs.old.items }
    ensures tells { IfOk result (λ p. (first : List Pairs) → Going (trees cells.now.cells) first (pairs.old.items ++ start ∷ []) classes.old → Tells (trees cells.now.cells) first pairs.new.items classes.new p) }
    ensures less { IfOk result (λ p. IsLighter (trees cells.now.cells) pairs.new.items p (weight_pairs (trees cells.now.cells) (pairs.old.items ++ start ∷ []))) }
    ensures stop { IfOk result (λ p. IsStop (length cells.now.cells) p) }
    ensures pairs { OnOk result (Each (ArePairs (length cells.now.cells)) pairs.new.items) }
{
    let places = cells.len();
    prove!(places <= 4_294_967_295);
    let mut run = start;
    let mut steps = steps;
    loop {
        if run.count == 0 {
            match pairs.pop() {
                Some(next) => run = next,
                None => return Ok(Progress::Same),
            }
        } else {
            let (left, right) = (run.left as usize, run.right as usize);
            match compare(cells, left, right, joining, &mut steps, classes)? {
                Outcome::Apart => return Ok(Progress::Apart),
                Outcome::Same => run = behind(run),
                Outcome::Arguments(arguments) => {
                    let is_step = joining || run.count > 1;
                    leave(run, pairs)?;
                    run = arguments;
                    if is_step && !has_step(&mut steps) {
                        return Ok(Progress::Stopped(run));
                    }
                }
            }
        }
    }
}

/// Ends a comparison that has gone far, in parts that keep pairs in mind and others that don't, so that it takes time in
/// proportion to the cells, however often they are shared.
#[cold]
#[inline(never)]
fn compare_on(
    cells: &Cells,
    start: Pairs,
    pairs: &mut Vec<Pairs>,
    classes: &mut Classes,
) -> Result<bool, NoMemory>
    requires start { ArePairs (length cells.now.cells) start }
    requires pairs { Each (ArePairs (length cells.now.cells)) pairs.old.items }
    ensures { IfOk result (λ r. (first : List Pairs) → Going (trees cells.now.cells) first (pairs.old.items ++ start ∷ []) classes.old → (r ≡ true) ↔ AllSame (trees cells.now.cells) first) }
{
    let mut run = start;
    let mut steps = MARKED;
    loop {
        match compare_part(cells, run, pairs, classes, true, steps)? {
            Progress::Same => return Ok(true),
            Progress::Apart => return Ok(false),
            Progress::Stopped(next) => run = next,
        }
        let unmarked = steps.saturating_mul(UNMARKED_PER_MARKED);
        match compare_part(cells, run, pairs, classes, false, unmarked)? {
            Progress::Same => return Ok(true),
            Progress::Apart => return Ok(false),
            Progress::Stopped(next) => run = next,
        }
        steps = steps.saturating_mul(2);
    }
}

/// Whether two places stand for the same term: the `==` of ISO 13211-1, 8.4.1, in which variables are the same only as one
/// variable.
pub fn identical(
    cells: &Cells,
    a: usize,
    b: usize,
    comparison: &mut Comparison,
) -> Result<bool, NoMemory>
    requires { (a < length cells.now.cells) × (b < length cells.now.cells) }
    ensures { IfOk result (λ r. (r ≡ true) ↔ (tree_at (trees cells.now.cells) a ≡ tree_at (trees cells.now.cells) b)) }
{
    let places = cells.len();
    prove!(a < places);
    comparison.pairs.clear();
    comparison.classes.clear();
    let start = Pairs {
        left: a as u32,
        right: b as u32,
        count: 1,
    };
    let (pairs, classes) = (&mut comparison.pairs, &mut comparison.classes);
    match compare_part(cells, start, pairs, classes, false, UNMARKED)? {
        Progress::Same => Ok(true),
        Progress::Apart => Ok(false),
        Progress::Stopped(next) => compare_on(cells, next, pairs, classes),
    }
}
