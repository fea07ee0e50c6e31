//! Which groups are worth a fork. No clause rests on it.

use std::cell::Cell;

/// The calls for which a worker may fork once; a fork and its join take the time of some 60 calls.
const PRICE: i64 = 2_000;

/// The highest price.
const HIGHEST: i64 = 16_000;

/// A goal of fewer calls wasn't worth its fork.
const SMALL: u64 = 2_000;

/// Where a goal makes fewer calls than that, no group of the next goal of its frame is forked, as it would have small goals.
const LARGE: u64 = 4 * SMALL;

/// A worker saves for so many forks, and begins with as much: the first groups of a goal, which are the largest, are forked.
const SAVED: i64 = 8;

/// How many times the price a group costs that is inside of one that wasn't forked, as most of these are small.
const INSIDE: i64 = 8;

/// Groups are forked within so many frames more than it takes for each worker to have a goal: then there are some for those that
/// come to an end early. An answer is copied once for each open frame, so that a fork is dearer with each frame that is deeper.
const DEEPER: usize = 1;

/// The calls as which the copy of a cell counts: a copy takes the time of about one, but what is copied only to be forked again
/// deeper down is copied once more there.
const COPY: i64 = 8;

/// How often one doubles to come to more than that.
fn doublings(count: usize) -> usize {
    if count == 0 {
        0
    } else if count == 1 {
        1
    } else if count <= 3 {
        2
    } else if count <= 7 {
        3
    } else if count <= 15 {
        4
    } else {
        5
    }
}

/// What a worker has saved for forks, in calls, and what one costs: more where goals turn out small. Copies of terms are paid as
/// well, so that all that is done for forks stays a small part of what is done anyway.
#[derive(Drop)]
pub struct Bar {
    /// Groups within so many open frames aren't forked unless another worker looks for a goal.
    deepest: usize,
    saved: Cell<i64>,
    price: Cell<i64>,
    /// Whether the section that goes on has passed a group that wasn't forked.
    is_inside: Cell<bool>,
    /// Whether the goal before, in the same frame, had no room for a fork.
    was_narrow: Cell<bool>,
}

impl Bar {
    /// A bar that lets the first groups pass.
    pub(crate) fn new(others: usize) -> Bar {
        Bar {
            deepest: DEEPER.saturating_add(doublings(others)),
            saved: Cell::new(PRICE * SAVED),
            price: Cell::new(PRICE),
            is_inside: Cell::new(false),
            was_narrow: Cell::new(false),
        }
    }

    fn cost(&self) -> i64 {
        if self.is_inside.get() {
            self.price.get().saturating_mul(INSIDE)
        } else {
            self.price.get()
        }
    }

    fn pay(&self, calls: i64) {
        self.saved.set(self.saved.get().saturating_sub(calls));
    }

    /// How many times its price a group costs within so many open frames.
    fn times_within(&self, depth: usize) -> i64 {
        let deeper = depth.saturating_sub(self.deepest).saturating_add(1);
        i64::try_from(deeper).unwrap_or(i64::MAX)
    }

    /// Tells whether the next group, within so many open frames, is worth a fork. Within many it is where another worker looks for
    /// a goal.
    pub(crate) fn allows(&self, depth: usize, looks: bool) -> bool {
        let cost = self.cost().saturating_mul(self.times_within(depth));
        (depth < self.deepest || looks) && self.saved.get() >= cost
    }

    /// Notes that so many calls were made, and whether a group was passed that wasn't forked.
    pub fn went(&self, calls: u64, passed: bool) {
        let most = self.price.get().saturating_mul(SAVED);
        let earned = i64::try_from(calls).unwrap_or(i64::MAX);
        self.saved
            .set(self.saved.get().saturating_add(earned).min(most));
        if passed {
            self.is_inside.set(true);
        }
    }

    /// Notes that a group was forked.
    pub fn forked(&self) {
        self.pay(self.cost());
        self.was_narrow.set(false);
    }

    fn pay_copy(&self, cells: usize) {
        let calls = i64::try_from(cells)
            .unwrap_or(i64::MAX)
            .saturating_mul(COPY);
        self.pay(calls.saturating_mul(self.price.get() / PRICE));
    }

    /// Notes that a section begins a goal, whose terms are so many cells. It is taken to be
    /// about as large as the one before it.
    pub fn began(&self, cells: usize) {
        self.pay_copy(cells);
        self.is_inside.set(self.was_narrow.get());
    }

    /// Notes that a section begins a goal of another worker, whose terms are so many cells.
    pub fn took(&self, cells: usize) {
        self.pay_copy(cells);
        self.is_inside.set(false);
    }

    /// Notes that a section goes on behind a group that was forked, and that so many cells of answers were copied.
    pub fn joined(&self, cells: usize) {
        self.pay_copy(cells);
        self.is_inside.set(false);
    }

    /// Notes what a goal has cost: a small one makes forks dearer.
    pub fn ended(&self, calls: u64) {
        let price = self.price.get();
        self.was_narrow.set(calls < LARGE);
        if calls < SMALL {
            self.price.set(price.saturating_mul(2).min(HIGHEST));
        } else {
            self.price.set((price / 2).max(PRICE));
        }
    }
}
