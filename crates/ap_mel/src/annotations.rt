//! Annotated programs, certified for their entries.

ghost use Rattle.std.specs.Prelude.{◌≡◌, true, length, IfOk};
ghost use Rattle.ap_patterns.specs.Given.{Patterns, patterns};
ghost use Rattle.ap_patterns.specs.Entry.{IsMarked};
ghost use Rattle.ap_certify.specs.declared.certified.Scope.TheVariants.{Of};
ghost use Rattle.ap_certify.specs.Certificate.{IsSoundAnnotation};
ghost use Rattle.ap_udg.specs.declared.runs.Rule.TheVariants.{Conditional};
ghost use Rattle.ap_udg.specs.Annotated.{IsAnnotated};
ghost use Rattle.ap_cge.specs.Stripped.{stripped};
ghost use Rattle.ap_fixpoint.specs.Fix.{IsFix};
ghost use Rattle.ap_mel.specs.Lone.{is_plain};
ghost use Rattle.ap_mel.specs.Made.{IsFirst, IsMade};
ghost use Rattle.ap_certify.specs.Scopes.{IsScopeOf};

use crate::entries::certified;
use crate::lone::{as_written, is_lone};
use crate::passes::{Pass, pass_over};
use ap_certify::Certified;
use ap_cge::Annotated;
use ap_fixpoint::{analyse, analyse_program, is_table_with_groups};
use ap_patterns::{Entries, Table};
use ap_term::{Clause, NoMemory, Program};
use ap_udg::{Rule, annotate_by, annotated_of, copy_clauses, has_groups};
use std::alloc::Global;

/// Which groups are made beside those that were written by hand.
#[derive(Clone, Copy, Debug, PartialEq, Eq)]
pub enum Kind {
    /// Those whose condition may come true.
    Mel,
    /// Those that need no check.
    Udg,
    /// None.
    None,
}

/// The program with those groups whose condition may come true (Muthukumar and Hermenegildo, the annotator MEL).
pub fn annotate(alloc: Global, program: &Program, table: &Table) -> Result<Annotated, NoMemory>
    ensures { IfOk result (λ a. IsAnnotated Conditional (patterns table.now) program.now a) }
{
    let clauses = annotate_by(alloc, Rule::Conditional, program, table)?;
    annotated_of(alloc, clauses)
}

/// The program's clauses with their first groups.
fn first(
    alloc: Global,
    kind: Kind,
    program: &Program,
    table: &Table,
) -> Result<Vec<Clause>, NoMemory>
    ensures { IfOk result (λ a. IsFirst kind (patterns table.now) program.now a.items) }
{
    match kind {
        Kind::Mel => annotate_by(alloc, Rule::Conditional, program, table),
        Kind::Udg => annotate_by(alloc, Rule::Unconditional, program, table),
        Kind::None => copy_clauses(alloc, program.as_slice()),
    }
}

/// Whether no clause has a group.
fn is_plain(clauses: &[Clause]) -> bool
    ensures { result ≡ is_plain clauses.now }
{
    clauses.iter().all(|clause| !has_groups(clause))
}

/// Whether the table of a program is surely that of the program with these groups too.
fn is_own_table(table: &Table, entries: &Entries, grouped: &[Clause]) -> bool
    ensures { result ≡ true → IsFix entries.now (stripped grouped.now) (patterns table.now) → IsFix entries.now grouped.now (patterns table.now) }
{
    if is_plain(grouped) {
        return true;
    }
    is_table_with_groups(table, entries, grouped)
}

/// The program with its first groups, passed over until a pass leaves it as it is; the first pass goes by the table that is
/// there.
fn pass_on(
    alloc: Global,
    program: &Program,
    entries: &Entries,
    kind: Kind,
    grouped: Annotated,
    table: Table,
) -> Result<Vec<Clause>, NoMemory>
    requires marked { IsMarked entries.now }
    requires length { length program.now ≡ length grouped }
    requires table { IsFix entries.now grouped (patterns table) }
    ensures made { IfOk result (λ a. (t : Patterns) → IsFix entries.now program.now t → IsFirst kind t program.now grouped → IsMade kind entries.now program.now a.items) }
    ensures sound { IfOk result (λ a. (t : Patterns) → IsFirst kind t program.now grouped → IsSoundAnnotation program.now a.items (Of entries.now)) }
{
    let mut current = grouped;
    let mut table = table;
    loop {
        let Pass { mended, settled } = pass_over(alloc, kind, &table, program, &current)?;
        if settled {
            return Ok(mended);
        }
        current = annotated_of(alloc, mended)?;
        table = analyse(alloc, &current, entries)?;
    }
}

/// The clauses of a program with the groups that `annotate_sound` finds, by the table of the program as it is written. Where nothing was
/// grouped by hand and that is the table of the program with its first groups, no pass changes these.
fn clauses_by(
    alloc: Global,
    program: &Program,
    entries: &Entries,
    kind: Kind,
    table: Table,
) -> Result<Vec<Clause>, NoMemory>
    requires marked { IsMarked entries.now }
    requires table { IsFix entries.now program.now (patterns table) }
    ensures made { IfOk result (λ a. IsMade kind entries.now program.now a.items) }
    ensures sound { IfOk result (λ a. IsSoundAnnotation program.now a.items (Of entries.now)) }
{
    let clauses = program.as_slice();
    let grouped = first(alloc, kind, program, &table)?;
    let plain = is_plain(clauses);
    if plain && is_own_table(&table, entries, &grouped) {
        return Ok(grouped);
    }
    let current = annotated_of(alloc, grouped)?;
    let own = analyse(alloc, &current, entries)?;
    pass_on(alloc, program, entries, kind, current, own)
}

/// The clauses of a program as it is written, with the groups that `annotate_sound` finds.
pub fn sound_clauses(
    alloc: Global,
    written: &Annotated,
    entries: &Entries,
    kind: Kind,
) -> Result<Vec<Clause>, NoMemory>
    requires { IsMarked entries.now }
    ensures made { IfOk result (λ a. IsMade kind entries.now written.now a.items) }
    ensures sound { IfOk result (λ a. IsSoundAnnotation written.now a.items (Of entries.now)) }
{
    let program = written.program();
    let table = analyse_program(alloc, program, entries)?;
    clauses_by(alloc, program, entries, kind, table)
}

/// The program with groups that may run side by side in every search of a query that is as the entries say. The groups are
/// made by the table of the program as it is written. Then passes follow, each by the table of the program before it, until
/// one leaves the program as it is: a group gets the checks that its state no longer gives; one whose condition holds
/// nowhere becomes a sequence, and so does one that was made without checks and would need some. The passes end, since
/// each but the last adds checks of a group's full condition or takes groups away. Where no clause has two goals in a row
/// that aren't built in there is nothing to group, and no table is made.
pub fn annotate_sound(
    alloc: Global,
    program: &Program,
    entries: &Entries,
    kind: Kind,
) -> Result<Certified, NoMemory>
    requires { IsMarked entries.now }
    ensures made { IfOk result (λ c. IsMade kind entries.now program.now c.program) }
    ensures scope { IfOk result (λ c. IsScopeOf entries.now c.scope) }
    ensures sound { IfOk result (λ c. IsSoundAnnotation program.now c.program (Of entries.now)) }
{
    if is_lone(program.as_slice()) {
        return as_written(alloc, program, entries);
    }
    let table = analyse_program(alloc, program, entries)?;
    let clauses = clauses_by(alloc, program, entries, kind, table)?;
    certified(annotated_of(alloc, clauses)?, entries)
}
