//! How long a worker looks for something to do before it sleeps.

ghost use Rattle.std.specs.Prelude.{◌≡◌, ◌+◌, ◌-◌, ◌^◌, min, nat_le};

use crossbeam_utils::Backoff;

/// How often a worker looks for something to do, and yields, before it sleeps.
const LOOKS: u32 = 400;

/// How often a worker has looked in vain.
#[derive(Drop)]
pub(crate) struct Patience {
    backoff: Backoff,
    looks: u32,
}

impl Patience {
    /// A worker that has something to do.
    pub(crate) fn new() -> Patience
        ensures { result.looks ≡ 0 }
    {
        Patience {
            backoff: Backoff::new(),
            looks: 0,
        }
    }

    /// Tells whether it has looked in vain so often that it is to sleep.
    pub(crate) fn is_over(&self) -> bool
        ensures { result ≡ nat_le LOOKS self.now.looks }
    {
        self.looks >= LOOKS
    }

    /// Notes that there was something to do.
    pub(crate) fn renew(&mut self)
        ensures { self.new.looks ≡ 0 }
    {
        self.backoff.reset();
        self.looks = 0;
    }

    /// Notes that there was nothing to do, and backs off.
    pub(crate) fn wait(&mut self)
        ensures { self.new.looks ≡ min (self.old.looks + 1) (2 ^ 32 - 1) }
    {
        self.backoff.snooze();
        self.looks = self.looks.saturating_add(1);
    }
}
