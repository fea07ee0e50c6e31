//! What a section is told while it goes on.

ghost use Rattle.std.specs.Prelude.{◌≡◌};

use ap_machine::Hook;
use std::cell::Cell;

/// A hook that never asks to stop, since a search looks up after some calls anyway.
#[derive(Drop)]
pub(crate) struct Wish {
    /// Whether a group is to be forked.
    wanted: bool,
    /// Whether there was one that wasn't to be.
    passed: Cell<bool>,
}

impl Wish {
    pub(crate) fn new(wanted: bool) -> Wish
        ensures { result.wanted ≡ wanted }
    {
        Wish {
            wanted,
            passed: Cell::new(false),
        }
    }

    pub(crate) fn has_passed(&self) -> bool {
        self.passed.get()
    }
}

impl Hook for Wish {
    ghost asked = { λ a. ⊥ };

    ghost is_wanted = { λ a. a.wanted };

    fn poll(&mut self) -> bool {
        false
    }

    fn wants(&self) -> bool {
        if !self.wanted {
            self.passed.set(true);
        }
        self.wanted
    }
}
