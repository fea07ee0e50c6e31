//! A worker's post.

ghost use Rattle.std.specs.Prelude.{◌≡◌, ◌+◌, ◌-◌, ◌^◌, ◌<◌, ◌≤◌, ℕ, [], length, IfOk, OnErr};
ghost use Rattle.ap_post.specs.Posted.{posted};

use crate::bar::Bar;
use crate::common::Common;
use crate::job::Job;
use crate::outcome::Outcome;
use ap_board::Board;
use ap_desk::Desk;
use ap_goalstack::{GoalStack, Thief, Unruled};
use ap_term::NoMemory;
use crossbeam_utils::atomic::AtomicCell;

/// The board on which workers offer one another goals.
pub type JobBoard<'a> = Board<Job<'a>, Outcome>;

/// The number of all frames that were left. No other one has it.
pub(crate) const LEFT: u64 = u64::MAX;

/// A worker's desk, the stack of its offers' tickets, the ends of the others' stacks, and the number of its next frame.
#[derive(Drop)]
pub struct Post<'a, 'b> {
    pub(crate) board: &'b JobBoard<'a>,
    pub(crate) common: &'b Common,
    pub(crate) desk: Desk<Job<'a>, Outcome>,
    pub(crate) goals: GoalStack<Unruled>,
    pub(crate) thieves: Vec<Thief<Unruled>>,
    pub(crate) next: u64,
    /// Whether it looks for a goal of another worker, as the others know.
    pub(crate) looks: AtomicCell<bool>,
    /// What it has saved for forks.
    pub(crate) bar: Bar,
    ghost table: { desk.0 ≡ board.now.table.shared.table_id },
    pub ghost fresh: { (f : ℕ) → next ≤ f → f < 2 ^ 64 - 1 → length (posted desk.1 desk.4 f) ≡ 0 },
}

impl<'a, 'b> Post<'a, 'b> {
    ghost use Rattle.ap_post.specs.Posts.{posted_in, SamePosted, SameJobs};

    /// Tells which number the next frame has.
    pub fn next(&self) -> u64
        ensures { result ≡ self.now.next }
    {
        self.next
    }

    /// Gives a number that no frame had.
    pub fn number(&mut self) -> Result<u64, NoMemory>
        ensures posted { SamePosted self.old self.new }
        ensures jobs { SameJobs self.old self.new }
        ensures number { IfOk result (λ n. (n ≡ self.old.next) × (self.new.next ≡ self.old.next + 1)) }
        ensures none { IfOk result (λ n. posted_in self.new n ≡ []) }
        ensures err { OnErr result (self.new.next ≡ self.old.next) }
    {
        let number = self.next;
        match number.checked_add(1) {
            Some(next) => {
                self.next = next;
                Ok(number)
            }
            None => Err(NoMemory),
        }
    }

    /// Tells whether another worker looks for a goal.
    pub fn wants(&self) -> bool {
        self.common.wants()
    }

    /// Notes that the worker looks for a goal of another one.
    pub(crate) fn look(&self) {
        if !self.looks.swap(true) {
            self.common.rise();
        }
    }

    /// Notes that the worker goes on with what it has.
    pub fn look_away(&self) {
        if self.looks.load() {
            self.looks.store(false);
            self.common.fall();
        }
    }

    /// Tells whether a group within so many open frames may be forked: there are other workers, and it is worth it.
    pub fn may_fork(&self, depth: usize) -> bool {
        !self.thieves.is_empty() && self.bar.allows(depth, self.wants())
    }

    /// Gives what tells which groups are worth a fork.
    pub fn bar(&self) -> &Bar {
        &self.bar
    }

    /// Claims a worker that had no goal yet, or finds one that looks for one, and tells whether there was one: then a goal is to be
    /// offered.
    pub fn claim_taker(&self) -> bool {
        self.common.claim_fresh() || self.common.wants()
    }

    /// Tells whether the query's search has ended.
    pub fn is_done(&self) -> bool {
        self.common.is_done()
    }

    /// Gives what all workers share.
    pub fn common(&self) -> &'b Common {
        self.common
    }

    /// Notes that the query's search has ended.
    pub fn end(&self) {
        self.common.end();
    }
}
