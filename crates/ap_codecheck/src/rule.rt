//! The rules, and which of them code breaks.

use ap_term::NoMemory;
use std::alloc::AllocError;
use thiserror::Error;

/// A rule that code has to keep at a place.
#[derive(Debug, Clone, Copy, PartialEq, Eq)]
pub enum Rule {
    /// Operands are in range.
    Operand,
    /// A jump, choice or check goes to an instruction of the same predicate.
    Target,
    /// No register or permanent variable is read before it is written, on every path.
    Unset,
    /// Permanent variables lie inside `allocate` and `deallocate`, which match.
    Environment,
    /// Argument instructions follow a structure and are as many as its arity.
    Argument,
    /// A group has its goals, in order, and its end; between them arguments alone are put.
    Group,
    /// Every path ends in `proceed`, `execute` or `fail`.
    End,
    /// A predicate that is called, or is of a goal of a group, is in the table.
    Called,
}

/// Why code isn't taken.
#[derive(Debug, Drop, Error)]
pub enum CodeErr {
    #[error("the code breaks a rule at place {at}: {rule:?}")]
    Bad { at: usize, rule: Rule },
    #[error("memory ran out")]
    NoMemory,
}

impl From<NoMemory> for CodeErr {
    ghost use Rattle.std.specs.Prelude.{◌≡◌};
    ghost use Rattle.ap_codecheck.specs.declared.rule.CodeErr.TheVariants.{NoMemory};

    ghost from_gives = { λ _ e. e ≡ NoMemory };

    fn from(_error: NoMemory) -> CodeErr {
        CodeErr::NoMemory
    }
}

impl From<AllocError> for CodeErr {
    ghost use Rattle.std.specs.Prelude.{◌≡◌};
    ghost use Rattle.ap_codecheck.specs.declared.rule.CodeErr.TheVariants.{NoMemory};

    ghost from_gives = { λ _ e. e ≡ NoMemory };

    fn from(_error: AllocError) -> CodeErr {
        CodeErr::NoMemory
    }
}
