//! A gate at which goals wait for each other.

use ap_outside::{Gate, Spot};
use crossbeam_utils::Backoff;
use crossbeam_utils::atomic::AtomicCell;

/// At most so many looks, each a snooze.
const TURNS: u64 = 10_000_000;

/// Each goal that begins waits until so many have begun. The first one of one place may pass without waiting.
#[derive(Drop)]
pub(crate) struct Meeting {
    wanted: u64,
    passes: u64,
    begun: AtomicCell<u64>,
    passed: AtomicCell<bool>,
    failed: AtomicCell<bool>,
}

impl Meeting {
    /// `passes` is the place whose first goal doesn't wait; 0 where each does.
    pub(crate) fn new(wanted: u64, passes: u64) -> Meeting {
        Meeting {
            wanted,
            passes,
            begun: AtomicCell::new(0),
            passed: AtomicCell::new(false),
            failed: AtomicCell::new(false),
        }
    }

    /// Tells whether just so many goals began, and none waited in vain.
    pub(crate) fn is_met(&self) -> bool {
        !self.failed.load() && self.begun.load() == self.wanted
    }

    fn wait(&self) {
        let backoff = Backoff::new();
        for _ in 0..TURNS {
            if self.begun.load() >= self.wanted {
                return;
            }
            backoff.snooze();
        }
        self.failed.store(true);
    }
}

impl Gate for Meeting {
    fn pass(&self, spot: Spot) {
        let Spot::Began { place } = spot else {
            return;
        };
        if self.begun.fetch_add(1) >= self.wanted {
            self.failed.store(true);
        }
        if place == self.passes && !self.passed.swap(true) {
            return;
        }
        self.wait();
    }
}

/// The second goal of the first place that begins waits until a goal of the third place has ended.
#[derive(Drop)]
pub(crate) struct Behind {
    begun: AtomicCell<u64>,
    ended: AtomicCell<bool>,
}

impl Behind {
    pub(crate) fn new() -> Behind {
        Behind {
            begun: AtomicCell::new(0),
            ended: AtomicCell::new(false),
        }
    }

    /// Tells whether such a goal has ended.
    pub(crate) fn is_over(&self) -> bool {
        self.ended.load()
    }

    fn wait(&self) {
        let backoff = Backoff::new();
        for _ in 0..TURNS {
            if self.is_over() {
                return;
            }
            backoff.snooze();
        }
    }
}

impl Gate for Behind {
    fn pass(&self, spot: Spot) {
        match spot {
            Spot::Began { place: 1 } => {
                if self.begun.fetch_add(1) == 1 {
                    self.wait();
                }
            }
            Spot::Finished { place: 3 } => self.ended.store(true),
            _ => {}
        }
    }
}
