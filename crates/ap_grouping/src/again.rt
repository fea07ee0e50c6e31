//! A query that gets the groups of another one, whose goals are alike.

ghost use Rattle.std.specs.Prelude.{◌≡◌, true, IfOk, IfSome};
ghost use Rattle.ap_grouping.specs.Again.{HasNoGroups, GetsGroups};

use crate::grouping::copy_names;
use ap_alike::fit_clause;
use ap_alike::laws::alike_law;
use ap_term::{NoMemory, Program, Query};
use ap_udg::has_groups;
use std::alloc::Global;

/// Whether a query was written without groups, and nothing was lifted from it.
pub fn has_no_groups(query: &Query) -> bool
    ensures { result ≡ true → HasNoGroups query.now }
{
    !has_groups(query.question()) && query.lifted().is_empty()
}

/// A query with the groups that one without written groups got beside a program, whose goals are alike: the groups that would be made for it
/// there. None where they aren't alike, or something was lifted from one of the two.
pub fn regroup_query(
    alloc: Global,
    grouped: &Query,
    query: &Query,
) -> Result<Option<Query>, NoMemory>
    ensures { IfOk result (λ found. IfSome found (λ again. GetsGroups grouped.now query.now again)) }
{
    alike_law();
    if !grouped.lifted().is_empty() || !query.lifted().is_empty() {
        return Ok(None);
    }
    let Some(question) = fit_clause(alloc, grouped.question(), query.question())? else {
        return Ok(None);
    };
    let names = copy_names(alloc, query.names())?;
    let _asked = query.question();
    let again = Query::new(question, Program::new(alloc), names);
    let _formed = again.question();
    Ok(Some(again))
}
