// Why a call that prints stops at once.
ghost use Rattle.std.specs.Prelude.{◌≡◌};
ghost use Rattle.ap_outside.specs.declared.halting.Halt.TheVariants.{NoMemory};

use std::alloc::{AllocError, AllocFailed};

/// Why a call that prints stops at once.
#[derive(Clone, Copy, Debug, PartialEq, Eq)]
pub enum Halt {
    /// The sink failed, perhaps inside a line.
    Sink,
    /// Memory was wanting, behind a whole line.
    NoMemory,
}

impl From<AllocError> for Halt {
    ghost from_gives = { λ _ e. e ≡ NoMemory };

    fn from(_: AllocError) -> Halt {
        Halt::NoMemory
    }
}

impl<T: Drop> From<AllocFailed<T>> for Halt {
    ghost from_gives = { λ _ e. e ≡ NoMemory };

    fn from(_: AllocFailed<T>) -> Halt {
        Halt::NoMemory
    }
}
