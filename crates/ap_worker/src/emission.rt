//! How answers end, what was charged for them, and which calls were made.

ghost use Rattle.std.specs.Prelude.{◌≡◌, ◌^◌, ◌<◌, IfOk};
ghost use Rattle.ap_worker.specs.Totals.{ended_with};

use ap_ledger::Total;
use ap_outside::Halt;
use ap_term::Fault;

/// How a query's answers end.
#[derive(Clone, Copy, Debug, PartialEq, Eq)]
pub enum End {
    /// These are all.
    NoMore,
    /// The budget was spent before the search had ended.
    Spent,
    /// These are as many as were asked for.
    Stopped,
    /// These are all before a fault.
    Error(Fault),
}

/// How a query's answers end, and what its search was charged.
#[derive(Clone, Copy, Debug, PartialEq, Eq)]
pub(crate) struct Answered {
    pub(crate) end: End,
    /// With fewer calls sequential search doesn't end, and finds no more.
    pub(crate) charged: u64,
}

/// How a query's answers end, what its search was charged, the calls that all workers made for it, and what they took from one another.
#[derive(Clone, Copy, Debug, PartialEq, Eq)]
pub struct Ended {
    pub end: End,
    /// With fewer calls sequential search doesn't end, and finds no more.
    pub charged: u64,
    /// What is charged is a part of them.
    pub total: Total,
    /// How many goals workers took from one another.
    pub taken: u64,
    /// How many tickets they stole for it: also those of goals that were offered no longer.
    pub stolen: u64,
}

/// The same with the total, the goals that were taken, and the tickets that were stolen.
pub(crate) fn with_total(
    found: Result<Answered, Halt>,
    total: Total,
    taken: u64,
    stolen: u64,
) -> Result<Ended, Halt>
    ensures with { result ≡ ended_with total taken stolen found }
    ensures small { IfOk found (λ e. e.charged < 2 ^ 64) }
{
    let found = found?;
    Ok(Ended {
        end: found.end,
        charged: found.charged,
        total,
        taken,
        stolen,
    })
}
