//! Programs with the groups that an annotator makes.

ghost use Rattle.std.specs.Prelude.{◌≡◌, map, IfOk};
ghost use Rattle.std.specs.List.{list_any};
ghost use Rattle.ap_term.specs.GoalView.{part_of};
ghost use Rattle.ap_patterns.specs.Given.{patterns, is_analysed};
ghost use Rattle.ap_udg.specs.declared.runs.Rule.TheVariants.{Unconditional};
ghost use Rattle.ap_udg.specs.Annotated.{is_group, has_groups, IsBody, IsAnnotatedClause, IsAnnotated};

use crate::completions::completed;
use crate::groups::grouped;
use crate::lone::is_lone_body;
use crate::programs::annotated_of;
use crate::runs::Rule;
use crate::states::start;
use ap_cge::Annotated;
use ap_patterns::{Table, is_analysed};
use ap_term::{Body, Clause, NoMemory, Part, Program, add_copies, copy_clause, copy_term};
use std::alloc::Global;

fn is_group(part: &Part) -> bool
    ensures { result ≡ is_group (part_of part.now) }
{
    matches!(part, Part::Group { .. })
}

#[tactic(auto, using(crate::proofs::Bodies::rules_of_groups))]
fn any_group(parts: &[Part]) -> bool
    ensures { result ≡ list_any is_group (map part_of parts.now) }
{
    for part in parts {
        if is_group(part) {
            return true;
        }
    }
    false
}

/// Whether a clause has groups that were written by hand.
pub fn has_groups(clause: &Clause) -> bool
    ensures { result ≡ has_groups clause.now }
{
    any_group(clause.body().as_slice())
}

/// The body of a clause with its groups.
#[tactic(auto, using(ap_fixpoint::proofs::Formed::rules_of_clauses))]
fn annotated_body(
    alloc: Global,
    rule: Rule,
    table: &Table,
    clause: &Clause,
) -> Result<Body, NoMemory>
    ensures { IfOk result (λ body. IsBody (has_groups clause.now) (is_analysed clause.now) rule (patterns table.now) clause.now body) }
{
    let parts = clause.body().as_slice();
    let analysed = is_analysed(clause);
    let start = start(alloc, table, clause)?;
    if has_groups(clause) {
        return completed(alloc, analysed, table, start, parts);
    }
    if analysed {
        return grouped(alloc, rule, table, start, parts);
    }
    let mut body = Body::new(alloc);
    add_copies(alloc, parts, &mut body)?;
    Ok(body)
}

/// A clause with its groups. One with nothing to group is copied, whatever its state.
fn annotated_clause(
    alloc: Global,
    rule: Rule,
    table: &Table,
    clause: &Clause,
) -> Result<Clause, NoMemory>
    ensures { IfOk result (λ c. IsAnnotatedClause rule (patterns table.now) clause.now c) }
{
    if is_lone_body(clause.body().as_slice()) {
        return copy_clause(alloc, clause);
    }
    let body = annotated_body(alloc, rule, table, clause)?;
    let head = copy_term(alloc, clause.head())?;
    Ok(Clause::new(head, body, clause.vars(), clause.line()))
}

/// A program's clauses with the groups that the rule takes by a table. In a clause without groups that were written by hand, from
/// each user goal on, the longest run of user goals that may stand together becomes a group, where it has two goals or
/// more, with the checks that its state doesn't give.
pub fn annotate_by(
    alloc: Global,
    rule: Rule,
    program: &Program,
    table: &Table,
) -> Result<Vec<Clause>, NoMemory>
    ensures { IfOk result (λ a. IsAnnotated rule (patterns table.now) program.now a.items) }
{
    let mut annotated = Vec::new(alloc);
    for clause in program.as_slice() {
        annotated.push(annotated_clause(alloc, rule, table, clause)?)?;
    }
    Ok(annotated)
}

/// The program with those groups that need no check (Muthukumar and Hermenegildo, the annotator UDG).
pub fn annotate(alloc: Global, program: &Program, table: &Table) -> Result<Annotated, NoMemory>
    ensures { IfOk result (λ a. IsAnnotated Unconditional (patterns table.now) program.now a) }
{
    let clauses = annotate_by(alloc, Rule::Unconditional, program, table)?;
    annotated_of(alloc, clauses)
}
