//! The part of a program that the last query could call, with its groups and its code, for the next query that can call the same and is alike.

ghost use Rattle.std.specs.Prelude.{◌≡◌, true, IfOk, IfSome};
ghost use Rattle.ap_term.specs.Goals.{Program as Clauses};
ghost use Rattle.ap_instr.specs.StandsFor.{StandsForQuery};
ghost use Rattle.ap_codecheck.specs.Tables.{GoesOnBehind};
ghost use Rattle.ap_codegen.specs.KeptCode.{code_of};
ghost use Rattle.ap_reach.specs.Reached.{Reaches};
ghost use Rattle.ap_mel.specs.declared.annotations.Kind.{Kind as KindOf};
ghost use Rattle.ap_top.specs.Last.{IsLast, IsLastOf};

use ap_grouping::{Grouped, group_query, has_no_groups, regroup_query};
use ap_mel::Kind;
use ap_reach::{Calls, Predicates, calls_of, part_of};
use ap_term::{NoMemory, Query};
use ap_worker::{Beside, KeptCode};
use std::alloc::Global;

/// What a query can call, and the part of a program that this is.
#[derive(Drop)]
pub struct Last {
    pub calls: Calls,
    /// The part and the query, with their groups.
    pub grouped: Grouped,
    /// The code of the part with its groups.
    pub code: KeptCode,
    /// Whether the query was written without groups, and nothing was lifted from it.
    pub is_plain: bool,
}

/// The part of a program for what a query calls, with the groups that both get, and its code.
fn group_part(
    alloc: Global,
    program: &Predicates<'_>,
    calls: Calls,
    query: &Query,
    kind: Kind,
) -> Result<Last, NoMemory>
    requires { Reaches program.now query.now calls }
    ensures { IfOk result (IsLastOf program.now kind query.now) }
{
    let part = part_of(alloc, program, &calls)?;
    let _good = part.as_slice();
    let grouped = group_query(alloc, part, query, kind)?;
    let code = KeptCode::of(alloc, &grouped.program)?;
    let is_plain = has_no_groups(query);
    Ok(Last {
        calls,
        grouped,
        code,
        is_plain,
    })
}

/// The same part with the same groups and code, for a query that calls this. None where it calls something else, or isn't alike.
fn take_again(
    alloc: Global,
    last: Last,
    calls: &Calls,
    query: &Query,
) -> Result<Option<Last>, NoMemory>
    ensures { IfOk result (λ found. IfSome found (λ again. (p : Clauses) (kind : KindOf) → IsLast p kind last → Reaches p query.now calls.now → IsLastOf p kind query.now again)) }
{
    if !last.is_plain || !last.calls.is_same(calls) {
        return Ok(None);
    }
    let Some(asked) = regroup_query(alloc, &last.grouped.query, query)? else {
        return Ok(None);
    };
    let is_plain = has_no_groups(query);
    let Last {
        calls,
        grouped,
        code,
        ..
    } = last;
    let Grouped { program, .. } = grouped;
    let _good = program.as_slice();
    let grouped = Grouped {
        program,
        query: asked,
    };
    Ok(Some(Last {
        calls,
        grouped,
        code,
        is_plain,
    }))
}

/// The part of a program that a query can call, with the groups that both get: that of the last query, where this one calls the same and is
/// alike, so that neither is analysed and the part isn't compiled again.
fn reach(
    alloc: Global,
    program: &Predicates<'_>,
    query: &Query,
    kind: Kind,
    kept: Option<Last>,
) -> Result<Last, NoMemory>
    requires { IfSome kept (IsLast program.now kind) }
    ensures { IfOk result (IsLastOf program.now kind query.now) }
{
    let calls = calls_of(alloc, program, query)?;
    if let Some(last) = kept {
        if let Some(again) = take_again(alloc, last, &calls, query)? {
            return Ok(again);
        }
    }
    group_part(alloc, program, calls, query, kind)
}

/// The part of a program that a query can call, with the groups that both get, and sound code for them.
pub fn prepare(
    alloc: Global,
    program: &Predicates<'_>,
    query: &Query,
    kind: Kind,
    kept: Option<Last>,
) -> Result<(Last, Beside), NoMemory>
    requires { IfSome kept (IsLast program.now kind) }
    ensures last { IfOk result (λ found. IsLastOf program.now kind query.now found.0) }
    ensures stands { IfOk result (λ found. StandsForQuery found.1.sound found.0.grouped.program found.0.grouped.query) }
    ensures behind { IfOk result (λ found. found.1.is_behind ≡ true → GoesOnBehind found.1.sound (code_of found.0.code)) }
{
    let mut last = reach(alloc, program, query, kind, kept)?;
    let beside = last
        .code
        .beside(alloc, &last.grouped.program, &last.grouped.query)?;
    Ok((last, beside))
}
