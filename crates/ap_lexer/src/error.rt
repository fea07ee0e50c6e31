use std::alloc::{AllocError, AllocFailed};

/// There was no memory for the result.
#[derive(Clone, Copy, Debug, PartialEq, Eq)]
pub struct NoMemory;

impl From<AllocError> for NoMemory {
    fn from(_refused: AllocError) -> NoMemory {
        NoMemory
    }
}

impl<T: Drop> From<AllocFailed<T>> for NoMemory {
    fn from(_refused: AllocFailed<T>) -> NoMemory {
        NoMemory
    }
}

/// Why a piece has no tokens.
#[derive(Clone, Copy, Debug, PartialEq, Eq)]
pub enum LexErr {
    /// The piece has a bad token, which begins on this line, counted from 1.
    BadToken { line: u64 },
    /// There was no memory for the tokens.
    NoMemory,
}

impl From<NoMemory> for LexErr {
    ghost use Rattle.std.specs.Prelude.{◌≡◌};
    ghost use Rattle.ap_lexer.specs.declared.error.LexErr.TheVariants.{NoMemory};

    ghost from_gives = { λ _ e. e ≡ NoMemory };

    fn from(_none: NoMemory) -> LexErr {
        LexErr::NoMemory
    }
}
