//! What all workers share beside the board. No clause rests on it.

use crossbeam_utils::atomic::AtomicCell;
use crossbeam_utils::sync::{EventCount, Key};

/// How many goals are wanted, and whether the query's search has ended.
#[derive(Drop)]
pub struct Common {
    /// Workers that look for a goal, less the offers that nobody has taken.
    demand: AtomicCell<i64>,
    /// Workers for which nothing was offered yet.
    fresh: AtomicCell<i64>,
    done: AtomicCell<bool>,
    /// Tickets that were stolen from another worker's stack.
    stolen: AtomicCell<u64>,
    /// Goals that were taken by them.
    taken: AtomicCell<u64>,
    /// Wakes those that sleep: what they look for changes first, and then they are told.
    news: EventCount,
}

impl Common {
    /// No worker looks for a goal yet.
    pub fn new(workers: u32) -> Common {
        Common {
            demand: AtomicCell::new(0),
            fresh: AtomicCell::new(i64::from(workers.saturating_sub(1))),
            done: AtomicCell::new(false),
            stolen: AtomicCell::new(0),
            taken: AtomicCell::new(0),
            news: EventCount::new(),
        }
    }

    /// Tells whether the query's search has ended.
    pub fn is_done(&self) -> bool {
        self.done.load()
    }

    /// Notes that the query's search has ended.
    pub fn end(&self) {
        self.done.store(true);
        self.news.notify_all();
    }

    /// Announces that a worker is about to sleep. It looks once more for what it may do before it does.
    pub fn prepare_wait(&self) -> Key<'_> {
        self.news.prepare_wait()
    }

    /// Wakes one worker that sleeps, as a goal was offered.
    pub(crate) fn tell_one(&self) {
        self.news.notify_one();
    }

    /// Wakes all that sleep, as a goal has ended or was asked to stop.
    pub(crate) fn tell_all(&self) {
        self.news.notify_all();
    }

    /// Tells whether someone looks for a goal.
    pub fn wants(&self) -> bool {
        self.demand.load() > 0
    }

    /// Claims one of the others for which nothing was offered yet, and tells whether there was one.
    pub fn claim_fresh(&self) -> bool {
        self.fresh.load() > 0 && self.fresh.fetch_sub(1) > 0
    }

    /// Notes that a ticket was stolen.
    pub(crate) fn stole(&self) {
        self.stolen.fetch_add(1);
    }

    /// Notes that a goal was taken by a ticket that was stolen.
    pub(crate) fn took(&self) {
        self.taken.fetch_add(1);
    }

    /// Counts the tickets that were stolen: with those of goals that were offered no longer.
    pub fn stolen(&self) -> u64 {
        self.stolen.load()
    }

    /// Counts the goals that were taken from another worker.
    pub fn taken(&self) -> u64 {
        self.taken.load()
    }

    /// Notes that a worker begins to look for a goal, or that an offer was taken back.
    pub fn rise(&self) {
        self.demand.fetch_add(1);
    }

    /// Notes that a worker looks no more, or that a goal was offered.
    pub fn fall(&self) {
        self.demand.fetch_sub(1);
    }
}
