//! Whether a table certifies an annotated program.

ghost use Rattle.std.specs.Prelude.{◌≡◌, IfOk, IfErr};
ghost use Rattle.ap_patterns.specs.Given.{patterns};
ghost use Rattle.ap_patterns.specs.Covered.{IsClosed};
ghost use Rattle.ap_patterns.specs.Entry.{IsMarked};
ghost use Rattle.ap_certify.specs.GroupsGiven.{AreGroupsGiven};
ghost use Rattle.ap_certify.specs.Refused.{IsRefusedBy};
ghost use Rattle.ap_certify.specs.Scopes.{IsScopeOf};

use crate::certified::{Certified, Scope};
use crate::clauses::hold_clauses;
use crate::entered::{copy, hold_entries};
use crate::faults::CertErr;
use ap_cge::Annotated;
use ap_patterns::{Entries, Table};
use std::alloc::Global;

/// Certifies a program for its entries: the table covers each entry, call and success, and each check of a group's full
/// condition is written or given by the table. `NotClosed` has the table's pattern and what is given there and isn't
/// covered by it, `MissingCheck` a check that is neither written nor given, at the group's first goal.
pub fn certify(
    alloc: Global,
    annotated: Annotated,
    table: &Table,
    entries: &Entries,
) -> Result<Certified, CertErr>
    requires { IsMarked entries.now }
    ensures program { IfOk result (λ c. c.program ≡ annotated) }
    ensures scope { IfOk result (λ c. IsScopeOf entries.now c.scope) }
    ensures closed { IfOk result (λ _. IsClosed entries.now annotated (patterns table.now)) }
    ensures given { IfOk result (λ _. AreGroupsGiven (patterns table.now) annotated) }
    ensures refused { IfErr result (IsRefusedBy entries.now annotated (patterns table.now)) }
{
    hold_entries(alloc, table, entries, annotated.program())?;
    hold_clauses(alloc, table, annotated.program().as_slice())?;
    let kept = copy(entries)?;
    Ok(Certified::new(annotated, Scope::Of(kept)))
}
