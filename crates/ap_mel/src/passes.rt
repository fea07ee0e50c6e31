//! A pass over an annotated program.

ghost use Rattle.std.specs.Prelude.{◌≡◌, ◌++◌, ◌∷◌, [], length, IfOk, OnOk, IsTrue, map};
ghost use Rattle.ap_term.specs.GoalView.{part_of};
ghost use Rattle.std.specs.List.{list_all};
ghost use Rattle.ap_term.specs.Goals.{group, calls};
ghost use Rattle.ap_term.specs.TermView.{trees_of};
ghost use Rattle.ap_term.specs.WellFormed.{numbered_all, IsProgram};
ghost use Rattle.ap_conditions.specs.FullCondition.{full_condition};
ghost use Rattle.ap_conditions.specs.Simplified.{simplified};
ghost use Rattle.ap_fixpoint.specs.Formed.{goals_formed};
ghost use Rattle.ap_patterns.specs.Given.{patterns, is_analysed};
ghost use Rattle.ap_udg.specs.Completed.{missing, start};
ghost use Rattle.ap_mel.specs.Mended.{is_never_true, is_given_up, is_none, mended, mended_body, is_bare, mended_clause, mended_program, is_settled, is_body_settled, is_clause_settled, is_program_settled};

use crate::annotations::Kind;
use ap_absunify::State;
use ap_cge::Annotated;
use ap_conditions::{Simplified, full, simplify};
use ap_patterns::{Table, is_analysed};
use ap_term::{Body, Checks, Clause, NoMemory, Part, Program, Term, copy_clause, copy_term};
use ap_udg::{behind, copy_part, has_groups, missing, start, with_checks};
use std::alloc::Global;

/// Whether the full condition of goals holds nowhere.
fn is_never_true(alloc: Global, s: &State, goals: &[Term]) -> Result<bool, NoMemory>
    requires { IsTrue (numbered_all 255 (trees_of goals.now)) }
    ensures { IfOk result (λ b. b ≡ is_never_true (simplified (full_condition (trees_of goals.now)) s.now)) }
{
    let condition = full(alloc, goals)?;
    let left = simplify(alloc, condition.as_slice(), s)?;
    Ok(matches!(left, Simplified::NeverTrue))
}

fn is_none(checks: &Checks) -> bool
    ensures { result ≡ is_none checks.now }
{
    checks.as_slice().is_empty()
}

fn add_calls(alloc: Global, goals: &[Term], out: &mut Body) -> Result<(), NoMemory>
    ensures { OnOk result (out.new ≡ out.old ++ calls (trees_of goals.now)) }
{
    for goal in goals {
        out.push(Part::Call(copy_term(alloc, goal)?))?;
    }
    Ok(())
}

/// Puts in what becomes of a group. Whether it stays as it is.
fn mend_group(
    alloc: Global,
    bare: bool,
    s: &State,
    checks: &Checks,
    goals: &[Term],
    out: &mut Body,
) -> Result<bool, NoMemory>
    requires { IsTrue (numbered_all 255 (trees_of goals.now)) }
    ensures out { OnOk result (out.new ≡ out.old ++ mended bare s.now (group checks.now (trees_of goals.now))) }
    ensures settled { IfOk result (λ b. b ≡ is_settled bare s.now (group checks.now (trees_of goals.now))) }
{
    let missing = missing(alloc, s, checks, goals)?;
    let wants_none = is_none(&missing);
    let is_given_up = is_never_true(alloc, s, goals)? || (bare && !wants_none);
    if is_given_up {
        add_calls(alloc, goals, out)?;
        return Ok(false);
    }
    out.push(with_checks(alloc, checks, &missing, goals)?)?;
    Ok(wants_none)
}

/// Puts in what becomes of a part. Whether it stays as it is.
fn mend_part(
    alloc: Global,
    bare: bool,
    s: &State,
    part: &Part,
    out: &mut Body,
) -> Result<bool, NoMemory>
    requires { IsTrue (goals_formed (part_of part.now)) }
    ensures out { OnOk result (out.new ≡ out.old ++ mended bare s.now (part_of part.now)) }
    ensures settled { IfOk result (λ b. b ≡ is_settled bare s.now (part_of part.now)) }
{
    match part {
        Part::Call(_) => {
            out.push(copy_part(alloc, part)?)?;
            Ok(true)
        }
        Part::Group { checks, calls } => mend_group(alloc, bare, s, checks, calls.as_slice(), out),
    }
}

/// Puts in what becomes of a body. Whether it stays as it is.
fn mend_body(
    alloc: Global,
    bare: bool,
    analysed: bool,
    table: &Table,
    s: State,
    parts: &[Part],
    out: &mut Body,
) -> Result<bool, NoMemory>
    requires { IsTrue (list_all goals_formed (map part_of parts.now)) }
    ensures out { OnOk result (out.new ≡ out.old ++ mended_body bare analysed (patterns table.now) s (map part_of parts.now)) }
    ensures settled { IfOk result (λ b. b ≡ is_body_settled bare analysed (patterns table.now) s (map part_of parts.now)) }
{
    let mut settled = true;
    let mut state = s;
    for part in parts {
        let stays = mend_part(alloc, bare, &state, part, out)?;
        settled = settled & stays;
        state = behind(alloc, analysed, table, state, part)?;
    }
    Ok(settled)
}

fn is_bare(kind: Kind, clause: &Clause) -> bool
    ensures { result ≡ is_bare kind clause.now }
{
    match kind {
        Kind::Udg => !has_groups(clause),
        Kind::Mel | Kind::None => false,
    }
}

/// Puts in what becomes of a clause of an annotated program; `written` is the clause that was read. Whether it stays as it
/// is.
#[tactic(auto, using(ap_fixpoint::proofs::Formed::rules_of_clauses, crate::proofs::Plain::rules_of_plain))]
fn mend_clause(
    alloc: Global,
    kind: Kind,
    table: &Table,
    written: &Clause,
    clause: &Clause,
    out: &mut Vec<Clause>,
) -> Result<bool, NoMemory>
    ensures out { OnOk result (out.new.items ≡ out.old.items ++ mended_clause kind (patterns table.now) written.now clause.now ∷ []) }
    ensures settled { IfOk result (λ b. b ≡ is_clause_settled kind (patterns table.now) written.now clause.now) }
{
    if !has_groups(clause) {
        out.push(copy_clause(alloc, clause)?)?;
        return Ok(true);
    }
    let mut body = Body::new(alloc);
    let start = start(alloc, table, clause)?;
    let parts = clause.body().as_slice();
    let bare = is_bare(kind, written);
    let settled = mend_body(
        alloc,
        bare,
        is_analysed(clause),
        table,
        start,
        parts,
        &mut body,
    )?;
    let head = copy_term(alloc, clause.head())?;
    out.push(Clause::new(head, body, clause.vars(), clause.line()))?;
    Ok(settled)
}

/// The clauses that a pass makes of an annotated program, and whether that stays as it is.
#[derive(Drop)]
pub struct Pass {
    pub mended: Vec<Clause>,
    pub settled: bool,
}

/// A pass over an annotated program, by its table; `written` is the program that was read.
pub fn pass_over(
    alloc: Global,
    kind: Kind,
    table: &Table,
    written: &Program,
    annotated: &Annotated,
) -> Result<Pass, NoMemory>
    requires { length written.now ≡ length annotated.now }
    ensures mended { IfOk result (λ p. p.mended.items ≡ mended_program kind (patterns table.now) written.now annotated.now) }
    ensures settled { IfOk result (λ p. p.settled ≡ is_program_settled kind (patterns table.now) written.now annotated.now) }
    ensures formed { IfOk result (λ _. IsProgram annotated.now) }
{
    let mut mended = Vec::new(alloc);
    let mut settled = true;
    let written = written.as_slice();
    let clauses = annotated.program().as_slice();
    for i in 0..clauses.len() {
        let stays = mend_clause(alloc, kind, table, &written[i], &clauses[i], &mut mended)?;
        settled = settled & stays;
    }
    Ok(Pass { mended, settled })
}
