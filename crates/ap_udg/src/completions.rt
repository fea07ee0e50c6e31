//! Groups with the checks that they want.

ghost use Rattle.std.specs.Prelude.{◌≡◌, ◌++◌, map, IfOk, OnOk, IsTrue};
ghost use Rattle.std.specs.List.{list_all};
ghost use Rattle.ap_term.specs.GoalView.{part_of};
ghost use Rattle.ap_term.specs.Goals.{group};
ghost use Rattle.ap_term.specs.TermView.{trees_of};
ghost use Rattle.ap_term.specs.WellFormed.{numbered_all};
ghost use Rattle.ap_conditions.specs.FullCondition.{full_condition};
ghost use Rattle.ap_conditions.specs.Simplified.{left};
ghost use Rattle.ap_patterns.specs.Given.{patterns};
ghost use Rattle.ap_fixpoint.specs.Formed.{goals_formed};
ghost use Rattle.ap_udg.specs.Completed.{missing, completed, completed_body};

use crate::copies::{copy_goals, copy_part};
use crate::states::behind;
use ap_absunify::State;
use ap_certify::is_written;
use ap_conditions::{full, gives};
use ap_patterns::Table;
use ap_term::{Body, Check, Checks, NoMemory, Part, Term};
use std::alloc::Global;

/// The checks of the goals' full condition that the state doesn't give.
pub fn left(alloc: Global, s: &State, goals: &[Term]) -> Result<Checks, NoMemory>
    requires { IsTrue (numbered_all 255 (trees_of goals.now)) }
    ensures { IfOk result (λ cs. cs ≡ left s.now (full_condition (trees_of goals.now))) }
{
    let mut left = Checks::new(alloc);
    let condition = full(alloc, goals)?;
    for check in condition.as_slice() {
        if !gives(s, check) {
            left.push(*check)?;
        }
    }
    Ok(left)
}

/// The checks of the goals' full condition that are neither written nor given by the state.
pub fn missing(
    alloc: Global,
    s: &State,
    written: &Checks,
    goals: &[Term],
) -> Result<Checks, NoMemory>
    requires { IsTrue (numbered_all 255 (trees_of goals.now)) }
    ensures { IfOk result (λ cs. cs ≡ missing s.now written.now (trees_of goals.now)) }
{
    let mut missing = Checks::new(alloc);
    let left = left(alloc, s, goals)?;
    for check in left.as_slice() {
        if !is_written(check, written.as_slice()) {
            missing.push(*check)?;
        }
    }
    Ok(missing)
}

fn add_checks(checks: &Checks, out: &mut Checks) -> Result<(), NoMemory>
    ensures { OnOk result (out.new ≡ out.old ++ checks.now) }
{
    for check in checks.as_slice() {
        out.push(*check)?;
    }
    Ok(())
}

/// A group with more checks behind those that are written.
pub fn with_checks(
    alloc: Global,
    written: &Checks,
    more: &Checks,
    goals: &[Term],
) -> Result<Part, NoMemory>
    ensures { IfOk result (λ p. part_of p ≡ group (written.now ++ more.now) (trees_of goals.now)) }
{
    let mut checks = Checks::new(alloc);
    add_checks(written, &mut checks)?;
    add_checks(more, &mut checks)?;
    let calls = copy_goals(alloc, goals)?;
    Ok(Part::Group { checks, calls })
}

/// A group with the checks that are missing behind those that are written.
fn complete(alloc: Global, s: &State, part: &Part) -> Result<Part, NoMemory>
    requires { IsTrue (goals_formed (part_of part.now)) }
    ensures { IfOk result (λ p. part_of p ≡ completed s.now (part_of part.now)) }
{
    match part {
        Part::Call(_) => copy_part(alloc, part),
        Part::Group { checks, calls } => {
            let missing = missing(alloc, s, checks, calls.as_slice())?;
            with_checks(alloc, checks, &missing, calls.as_slice())
        }
    }
}

/// A body whose groups have the checks that they want.
#[tactic(auto, using(crate::proofs::Bodies::rules_of_completed))]
pub fn completed(
    alloc: Global,
    analysed: bool,
    table: &Table,
    s: State,
    parts: &[Part],
) -> Result<Body, NoMemory>
    requires { IsTrue (list_all goals_formed (map part_of parts.now)) }
    ensures { IfOk result (λ body. body ≡ completed_body analysed (patterns table.now) s (map part_of parts.now)) }
{
    let mut body = Body::new(alloc);
    let mut state = s;
    for part in parts {
        body.push(complete(alloc, &state, part)?)?;
        state = behind(alloc, analysed, table, state, part)?;
    }
    Ok(body)
}
