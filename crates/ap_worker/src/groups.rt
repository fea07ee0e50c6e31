//! Whether a query has groups.

ghost use Rattle.std.specs.Prelude.{◌≡◌, map};
ghost use Rattle.std.specs.List.{list_any};
ghost use Rattle.ap_term.specs.Goals.{joined};
ghost use Rattle.ap_term.specs.GoalView.{part_of};
ghost use Rattle.ap_worker.specs.Grouped.{is_group, is_grouped};

use ap_term::{Clause, Part, Program, Query};

fn is_group(part: &Part) -> bool
    ensures { result ≡ is_group (part_of part.now) }
{
    matches!(part, Part::Group { .. })
}

#[tactic(auto, using(crate::proofs::Grouping::rules_of_parts))]
fn any_group(parts: &[Part]) -> bool
    ensures { result ≡ list_any is_group (map part_of parts.now) }
{
    for part in parts {
        if is_group(part) {
            return true;
        }
    }
    false
}

fn is_grouped(clause: &Clause) -> bool
    ensures { result ≡ is_grouped clause.now }
{
    any_group(clause.body().as_slice())
}

#[tactic(auto, using(crate::proofs::Grouping::rules_of_clauses))]
fn any_grouped(clauses: &[Clause]) -> bool
    ensures { result ≡ list_any is_grouped clauses.now }
{
    for clause in clauses {
        if is_grouped(clause) {
            return true;
        }
    }
    false
}

/// Tells whether a program or a query beside it has a group.
#[tactic(auto, using(crate::proofs::Grouping::rules_of_programs))]
pub(crate) fn has_groups(program: &Program, query: &Query) -> bool
    ensures { result ≡ list_any is_grouped (joined program.now query.now) }
{
    any_grouped(program.as_slice()) || is_grouped(query.question()) || any_grouped(query.lifted())
}
