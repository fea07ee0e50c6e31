//! A walk over the variables of a term, by a list of places that is kept for the next walk. Terms that are shared are gone
//! through about once.

ghost use Rattle.std.specs.Prelude.{◌≡◌, ◌⊎◌, ℕ, ◌+◌, ◌-◌, ◌*◌, ◌^◌, ◌<◌, ◌≤◌, ◌||◌, true, false, nat_eq, List, [], ◌∷◌, ◌++◌, length, IfOk, IfSome, OnOk};
ghost use Rattle.std.specs.List.{list_any};
ghost use Rattle.ap_term.specs.Tree.{Tree};
ghost use Rattle.ap_term.specs.Vars.{occurs};
ghost use Rattle.ap_cells.specs.Trees.{tree_at, trees, span};
ghost use Rattle.ap_cells.specs.Walks.{AreRanges, IsRange, weight_all, weight_in, InRanges, Search, Tells, Meets, IsLighter, IsStop};

use crate::cells::Cells;
use crate::pace::{FIRST_PACE, MARKED, Pace, UNMARKED, UNMARKED_PER_MARKED, has_step};
use crate::top::Top;
use ap_marks::Marks;
use ap_term::NoMemory;
use std::alloc::Global;
use std::marker::Model;

/// Places one behind another.
#[derive(Clone, Copy)]
pub struct Range {
    pub first: usize,
    pub count: u32,
}

/// No places.
const NOTHING: Range = Range { first: 0, count: 0 };

/// What is left of a walk: the last range comes first. Some places of compound terms that it went into are marked, and not
/// gone into again.
#[derive(Drop)]
pub struct Walk {
    ranges: Vec<Range>,
    marks: Marks,
    pace: Pace,
}

impl Model for Walk {
    ghost use Rattle.ap_cells.specs.Walks.{Walked};

    ghost Value = { Walked };

    ghost view = { λ a. record { ranges = a.ranges.items; marks = a.marks } };
}

impl Walk {
    /// Takes no memory.
    pub fn new(alloc: Global) -> Walk
        ensures { result ≡ record { ranges = []; marks = [] } }
    {
        Walk {
            ranges: Vec::new(alloc),
            marks: Marks::new(alloc),
            pace: FIRST_PACE,
        }
    }

    /// Begins a walk over the term of a place.
    pub fn start(&mut self, cells: &Cells, place: usize) -> Result<(), NoMemory>
        requires { place < length cells.now.cells }
        ensures begun { OnOk result ((x : ℕ) → Search x (trees cells.now.cells) place self.new.marks self.new.ranges) }
        ensures ranges { OnOk result (AreRanges (length cells.now.cells) self.new.ranges) }
    {
        let places = cells.len();
        prove!(place < places);
        self.ranges.clear();
        self.marks.clear();
        self.pace = FIRST_PACE;
        self.ranges.push(Range {
            first: place,
            count: 1,
        })?;
        Ok(())
    }

    /// The next variable, by its place: each one that stands in the term comes at least once.
    pub fn next(&mut self, cells: &Cells) -> Result<Option<usize>, NoMemory>
        requires { AreRanges (length cells.now.cells) self.old.ranges }
        ensures next { IfOk result (λ found. (x root : ℕ) → Search x (trees cells.now.cells) root self.old.marks self.old.ranges → Meets x (trees cells.now.cells) root self.new.marks self.new.ranges found) }
        ensures less { IfOk result (λ found. IfSome found (λ v. weight_in (trees cells.now.cells) self.new.ranges < weight_in (trees cells.now.cells) self.old.ranges)) }
        ensures ranges { OnOk result (AreRanges (length cells.now.cells) self.new.ranges) }
    {
        next_of(cells, &mut self.ranges, &mut self.marks, &mut self.pace)
    }

    /// Whether the variable x stands in the term of a place. What was left of a walk is given up.
    pub fn finds(&mut self, cells: &Cells, x: usize, place: usize) -> Result<bool, NoMemory>
        requires { place < length cells.now.cells }
        ensures { IfOk result (λ b. b ≡ occurs x (tree_at (trees cells.now.cells) place)) }
    {
        self.ranges.clear();
        self.marks.clear();
        let run = Range {
            first: place,
            count: 1,
        };
        match search(
            cells,
            x,
            run,
            &mut self.ranges,
            &mut self.marks,
            false,
            UNMARKED,
        )? {
            Searched::Found => Ok(true),
            Searched::Absent => Ok(false),
            Searched::Stopped(next) => {
                search_on(cells, x, place, next, &mut self.ranges, &mut self.marks)
            }
        }
    }
}

/// How a part of a search for a variable ended: the places at which it stopped come before those on the list.
enum Searched {
    Found,
    Absent,
    Stopped(Range),
}

/// Whether the compound term of a place is to be gone into. Where places are marked, that is once.
#[inline(always)]
fn is_new(place: usize, marking: bool, marks: &mut Marks) -> Result<bool, NoMemory>
    ensures seen { IfOk result (λ b. b ≡ false → list_any (nat_eq place) marks.new ≡ true) }
    ensures marked { OnOk result ((y : ℕ) → list_any (nat_eq y) marks.old ≡ true → list_any (nat_eq y) marks.new ≡ true) }
    ensures no_more { IfOk result (λ b. (y : ℕ) → list_any (nat_eq y) marks.new ≡ true → (list_any (nat_eq y) marks.old ≡ true) ⊎ ((y ≡ place) × (b ≡ true))) }
{
    if !marking {
        return Ok(true);
    }
    if marks.contains(place) {
        return Ok(false);
    }
    marks.insert(place)?;
    Ok(true)
}

/// Goes on with a search for a variable, as `next_of` does for the next one, and passes over arguments that were settled
/// before it came. It stops after some compound terms of which it left places for later, or, where it marks places, after
/// some compound terms, but not once it has come to a marked one.
#[inline(always)]
fn search(
    cells: &Cells,
    x: usize,
    start: Range,
    ranges: &mut Vec<Range>,
    marks: &mut Marks,
    marking: bool,
    steps: u32,
) -> Result<Searched, NoMemory>
    requires start { IsRange (length cells.now.cells) start }
    requires ranges { AreRanges (length cells.now.cells) ranges.old.items }
    ensures tells { IfOk result (λ s. (root : ℕ) → Search x (trees cells.now.cells) root marks.old (start ∷ ranges.old.items) → Tells x (trees cells.now.cells) root marks.new ranges.new.items s) }
    ensures less { IfOk result (λ s. IsLighter (trees cells.now.cells) s ranges.new.items (2 * weight_all (span (trees cells.now.cells) start.first start.count) + weight_in (trees cells.now.cells) ranges.old.items)) }
    ensures stop { IfOk result (λ s. IsStop (length cells.now.cells) s) }
    ensures ranges { OnOk result (AreRanges (length cells.now.cells) ranges.new.items) }
{
    let places = cells.len();
    prove!(places <= 4_294_967_295);
    let mut run = start;
    let mut steps = steps;
    loop {
        if run.count == 0 {
            match ranges.pop() {
                Some(next) => run = next,
                None => return Ok(Searched::Absent),
            }
        } else {
            match cells.top(run.first) {
                Top::Free(variable) => {
                    if variable == x {
                        return Ok(Searched::Found);
                    }
                    run = behind(run);
                }
                Top::Node(_, first, count) => {
                    if cells.are_settled_before(x, first, count) {
                        run = behind(run);
                    } else if is_new(run.first, marking, marks)? {
                        let is_step = marking || run.count > 1;
                        leave(run, ranges)?;
                        run = Range { first, count };
                        if is_step && !has_step(&mut steps) {
                            return Ok(Searched::Stopped(run));
                        }
                    } else {
                        steps = u32::MAX;
                        run = behind(run);
                    }
                }
                Top::Int(_) => run = behind(run),
                Top::Atom(_) => run = behind(run),
            }
        }
    }
}

/// Ends a search that has gone far, in parts that mark places and others that don't, so that it takes time in proportion to
/// the cells, however often they are shared.
#[cold]
#[inline(never)]
fn search_on(
    cells: &Cells,
    x: usize,
    place: usize,
    start: Range,
    ranges: &mut Vec<Range>,
    marks: &mut Marks,
) -> Result<bool, NoMemory>
    requires start { IsRange (length cells.now.cells) start }
    requires ranges { AreRanges (length cells.now.cells) ranges.old.items }
    requires search { Search x (trees cells.now.cells) place marks.old (start ∷ ranges.old.items) }
    ensures { IfOk result (λ b. b ≡ occurs x (tree_at (trees cells.now.cells) place)) }
{
    let mut run = start;
    let mut steps = MARKED;
    loop {
        match search(cells, x, run, ranges, marks, true, steps)? {
            Searched::Found => return Ok(true),
            Searched::Absent => return Ok(false),
            Searched::Stopped(next) => run = next,
        }
        let unmarked = steps.saturating_mul(UNMARKED_PER_MARKED);
        match search(cells, x, run, ranges, marks, false, unmarked)? {
            Searched::Found => return Ok(true),
            Searched::Absent => return Ok(false),
            Searched::Stopped(next) => run = next,
        }
        steps = steps.saturating_mul(2);
    }
}

/// The places after the first.
#[inline(always)]
fn behind(range: Range) -> Range
    requires some { 0 < range.count }
    requires fits { range.first < 2 ^ 63 }
    ensures { result ≡ record { first = range.first + 1; count = range.count - 1 } }
{
    Range {
        first: range.first + 1,
        count: range.count - 1,
    }
}

/// The run of places that is gone through isn't on the list: constants are passed over there, and the last argument goes on.
fn next_of(
    cells: &Cells,
    ranges: &mut Vec<Range>,
    marks: &mut Marks,
    pace: &mut Pace,
) -> Result<Option<usize>, NoMemory>
    requires { AreRanges (length cells.now.cells) ranges.old.items }
    ensures next { IfOk result (λ found. (x root : ℕ) → Search x (trees cells.now.cells) root marks.old ranges.old.items → Meets x (trees cells.now.cells) root marks.new ranges.new.items found) }
    ensures less { IfOk result (λ found. IfSome found (λ v. weight_in (trees cells.now.cells) ranges.new.items < weight_in (trees cells.now.cells) ranges.old.items)) }
    ensures ranges { OnOk result (AreRanges (length cells.now.cells) ranges.new.items) }
{
    let places = cells.len();
    prove!(places <= 4_294_967_295);
    let mut run = NOTHING;
    loop {
        if run.count == 0 {
            match ranges.pop() {
                Some(next) => run = next,
                None => return Ok(None),
            }
        } else {
            match cells.top(run.first) {
                Top::Free(variable) => {
                    leave(run, ranges)?;
                    return Ok(Some(variable));
                }
                Top::Node(_, first, count) => {
                    if is_new(run.first, pace.marking, marks)? {
                        if pace.marking || run.count > 1 {
                            *pace = pace.next();
                        }
                        leave(run, ranges)?;
                        run = Range { first, count };
                    } else {
                        pace.steps = u32::MAX;
                        run = behind(run);
                    }
                }
                Top::Int(_) => run = behind(run),
                Top::Atom(_) => run = behind(run),
            }
        }
    }
}

/// Leaves the places after the first to be walked over.
#[inline(always)]
fn leave(range: Range, ranges: &mut Vec<Range>) -> Result<(), NoMemory>
    requires some { 0 < range.count }
    requires fits { range.first < 2 ^ 63 }
    ensures places { OnOk result ((p : ℕ) → (InRanges p ranges.old.items → InRanges p ranges.new.items) × ((range.first < p → p < range.first + range.count → InRanges p ranges.new.items) × (InRanges p ranges.new.items → InRanges p ranges.old.items ⊎ ((range.first < p) × (p < range.first + range.count))))) }
    ensures less { OnOk result ((ts : List Tree) → weight_in ts ranges.new.items ≤ weight_in ts ranges.old.items + (2 * weight_all (span ts (range.first + 1) (range.count - 1)) + 1)) }
    ensures ranges { OnOk result ((n : ℕ) → IsRange n range → AreRanges n ranges.old.items → AreRanges n ranges.new.items) }
{
    if range.count > 1 {
        ranges.push(Range {
            first: range.first + 1,
            count: range.count - 1,
        })?;
    }
    Ok(())
}
