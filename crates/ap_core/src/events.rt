//! Events, and why one is refused.

use ap_term::NoMemory;
use std::alloc::{AllocError, AllocFailed};
use std::marker::Model;
use thiserror::Error;

/// What happens in an event.
#[derive(Debug, Clone, Copy, PartialEq, Eq)]
pub enum Kind {
    Infer,
    Fork,
    Start,
    Answer,
    Fail,
    Spend,
    Stop,
    Stopped,
    Join,
    Break,
    Redo,
    Restart,
    Raise,
    Drain,
    Forget,
    Replay,
}

/// Where it happens: slot places from 1, each step going through the first frame of the task that it has come to. The
/// empty path names the root.
#[derive(Drop)]
pub struct Path {
    places: Vec<usize>,
}

impl Model for Path {
    ghost use Rattle.std.specs.Prelude.{List, ℕ};

    ghost Value = { List ℕ };

    ghost view = { λ a. a.places.items };
}

impl Path {
    ghost use Rattle.std.specs.Prelude.{◌≡◌};

    /// Takes the places over; no memory is taken.
    pub fn from_vec(places: Vec<usize>) -> Path
        ensures { result ≡ places.items }
    {
        Path { places }
    }

    pub fn as_slice(&self) -> &[usize]
        ensures { result.now ≡ self.now }
    {
        self.places.as_slice()
    }
}

/// An event of a task or a slot.
#[derive(Drop)]
pub struct Event {
    pub kind: Kind,
    pub path: Path,
}

/// Why an event isn't made.
#[derive(Debug, Drop, Error)]
pub enum StepErr {
    #[error("no case of the relation stands for the event")]
    Illegal,
    #[error("memory ran out")]
    NoMemory,
}

impl From<NoMemory> for StepErr {
    ghost use Rattle.std.specs.Prelude.{◌≡◌};
    ghost use Rattle.ap_core.specs.declared.events.StepErr.TheVariants.{NoMemory};

    ghost from_gives = { λ _ e. e ≡ NoMemory };

    fn from(_error: NoMemory) -> StepErr {
        StepErr::NoMemory
    }
}

impl From<AllocError> for StepErr {
    ghost use Rattle.std.specs.Prelude.{◌≡◌};
    ghost use Rattle.ap_core.specs.declared.events.StepErr.TheVariants.{NoMemory};

    ghost from_gives = { λ _ e. e ≡ NoMemory };

    fn from(_error: AllocError) -> StepErr {
        StepErr::NoMemory
    }
}

impl<T: Drop> From<AllocFailed<T>> for StepErr {
    ghost use Rattle.std.specs.Prelude.{◌≡◌};
    ghost use Rattle.ap_core.specs.declared.events.StepErr.TheVariants.{NoMemory};

    ghost from_gives = { λ _ e. e ≡ NoMemory };

    fn from(_error: AllocFailed<T>) -> StepErr {
        StepErr::NoMemory
    }
}
