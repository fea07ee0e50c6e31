//! The table of a program, round by round.

ghost use Rattle.std.specs.Prelude.{IfOk};
ghost use Rattle.ap_patterns.specs.Given.{patterns};
ghost use Rattle.ap_patterns.specs.Entry.{IsMarked};
ghost use Rattle.ap_fixpoint.specs.Fix.{IsFix};

use crate::programs::given_by_entries;
use crate::readers::{given_by_readers, readers_of};
use crate::tables::unite_all;
use ap_cge::Annotated;
use ap_patterns::{Entries, Table};
use ap_term::{NoMemory, Program};
use std::alloc::Global;

/// The table of a program that is entered so. Past the first round only those clauses are gone through again that read
/// a pattern which has changed: what the others give is covered already. The rounds end, since each but the last makes a
/// pattern cover more, and sets of places are finitely many.
pub fn analyse_program(
    alloc: Global,
    program: &Program,
    entries: &Entries,
) -> Result<Table, NoMemory>
    requires { IsMarked entries.now }
    ensures { IfOk result (λ t. IsFix entries.now program.now (patterns t)) }
{
    let readers = readers_of(alloc, program)?;
    let mut table = Table::new(alloc);
    let mut given = given_by_entries(alloc, entries, program)?;
    loop {
        let changed = unite_all(alloc, &mut table, given.as_slice())?;
        let slots = changed.as_slice();
        if slots.is_empty() {
            return Ok(table);
        }
        given = given_by_readers(alloc, program, &readers, &table, slots)?;
    }
}

/// The table of an annotated program that is entered so.
pub fn analyse(alloc: Global, annotated: &Annotated, entries: &Entries) -> Result<Table, NoMemory>
    requires { IsMarked entries.now }
    ensures { IfOk result (λ t. IsFix entries.now annotated.now (patterns t)) }
{
    analyse_program(alloc, annotated.program(), entries)
}
