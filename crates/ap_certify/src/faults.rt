//! Why a program isn't certified, and where.

ghost use Rattle.std.specs.Prelude.{◌≡◌, ◌+◌, ◌∷◌, [], IfOk, IfErr};
ghost use Rattle.ap_patterns.specs.Covered.{IsHeld};
ghost use Rattle.ap_patterns.specs.Given.{patterns};
ghost use Rattle.ap_certify.specs.Refused.{IsOpen};

use ap_absunify::State;
use ap_patterns::{Given, Pattern, Table, is_covered, pattern_at};
use ap_term::{Check, NoMemory};

/// Why a program isn't certified. Clauses, and the goals of a clause, count from 1; the goals of a group are goals of the
/// clause. Place 0 is the clause's success; clause 0 is an entry, and place then its number.
#[derive(Drop)]
pub enum CertErr {
    /// The table's pattern doesn't cover what is called or answered there.
    NotClosed {
        clause: u64,
        place: u64,
        was: Pattern,
        now: Pattern,
    },
    /// A check of a group's full condition is neither written nor given by the table. The place is the group's first goal.
    MissingCheck {
        clause: u64,
        place: u64,
        check: Check,
    },
    NoMemory,
}

impl From<NoMemory> for CertErr {
    ghost use Rattle.ap_certify.specs.declared.faults.CertErr.TheVariants.{NoMemory as OutOfMemory};

    ghost from_gives = { λ _ e. e ≡ OutOfMemory };

    fn from(_error: NoMemory) -> CertErr {
        CertErr::NoMemory
    }
}

/// A goal's number in a clause, and the clause's.
#[derive(Clone, Copy)]
pub struct Place {
    pub clause: u64,
    pub goal: u64,
}

/// The number of the goal behind as many goals. No memory holds more of them than a number counts.
pub fn past(number: u64, goals: usize) -> Result<u64, NoMemory>
    ensures { IfOk result (λ n. n ≡ number + goals) }
{
    number.checked_add(goals as u64).ok_or(NoMemory)
}

/// Whether the table covers what is given to it.
pub fn hold(at: Place, table: &Table, given: &Given) -> Result<(), CertErr>
    ensures held { IfOk result (λ _. IsHeld (patterns table.now) given.now) }
    ensures open { IfErr result (IsOpen at.clause at.goal (patterns table.now) (given.now ∷ [])) }
{
    let unreachable = State::Unreachable;
    let was = pattern_at(table, given.slot, &unreachable);
    if is_covered(&given.pattern, was) {
        return Ok(());
    }
    let was = was.copy()?;
    let now = given.pattern.copy()?;
    Err(CertErr::NotClosed {
        clause: at.clause,
        place: at.goal,
        was,
        now,
    })
}
