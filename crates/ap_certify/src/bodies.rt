//! Whether a table covers what the parts of a body give to it, and gives what their groups leave out.

ghost use Rattle.std.specs.Prelude.{◌≡◌, map, IfOk, IfErr, IsTrue};
ghost use Rattle.std.specs.List.{list_all};
ghost use Rattle.ap_term.specs.GoalView.{part_of};
ghost use Rattle.ap_term.specs.WellFormed.{well_formed_part};
ghost use Rattle.ap_patterns.specs.Given.{patterns};
ghost use Rattle.ap_certify.specs.Sights.{after_part, after_parts};
ghost use Rattle.ap_certify.specs.Held.{IsPartHeld, IsBodyHeld};
ghost use Rattle.ap_certify.specs.Refused.{IsFault, goals_of, PartGives, PartLeavesOut, BodyGives, BodyLeavesOut};

use crate::coverage::{hold_fork, hold_goal, hold_in_turn};
use crate::faults::{CertErr, Place, past};
use crate::groups::give_group;
use crate::sights::Sight;
use ap_patterns::Table;
use ap_term::Part;
use std::alloc::Global;

/// What is known after a part that is called as the table has it and, where it is a group, leaves out what is given.
fn hold_part(
    alloc: Global,
    at: Place,
    table: &Table,
    s: Sight,
    part: &Part,
) -> Result<Sight, CertErr>
    requires { IsTrue (well_formed_part 255 (part_of part.now)) }
    ensures held { IfOk result (λ _. IsPartHeld (patterns table.now) s (part_of part.now)) }
    ensures after { IfOk result (λ r. r ≡ after_part (patterns table.now) s (part_of part.now)) }
    ensures fault { IfErr result (IsFault at.clause (patterns table.now) (PartGives (patterns table.now) s at.goal (part_of part.now)) (PartLeavesOut s at.goal (part_of part.now))) }
{
    match part {
        Part::Call(goal) => {
            hold_goal(alloc, at, table, &s, goal)?;
            let after = s.after(alloc, table, goal)?;
            Ok(after)
        }
        Part::Group { checks, calls } => {
            give_group(alloc, at, &s, checks, calls)?;
            hold_fork(alloc, at, table, &s, calls.as_slice())?;
            let after = hold_in_turn(alloc, at, table, s, calls.as_slice())?;
            Ok(after)
        }
    }
}

/// How many goals a part has.
fn goals_of(part: &Part) -> usize
    ensures { result ≡ goals_of (part_of part.now) }
{
    match part {
        Part::Call(_) => 1,
        Part::Group { calls, .. } => calls.len(),
    }
}

/// What is known after the parts of a body.
pub fn hold_body(
    alloc: Global,
    clause: u64,
    table: &Table,
    s: Sight,
    parts: &[Part],
) -> Result<Sight, CertErr>
    requires { IsTrue (list_all (well_formed_part 255) (map part_of parts.now)) }
    ensures held { IfOk result (λ _. IsBodyHeld (patterns table.now) s (map part_of parts.now)) }
    ensures after { IfOk result (λ r. r ≡ after_parts (patterns table.now) s (map part_of parts.now)) }
    ensures fault { IfErr result (IsFault clause (patterns table.now) (BodyGives (patterns table.now) s 1 (map part_of parts.now)) (BodyLeavesOut (patterns table.now) s 1 (map part_of parts.now))) }
{
    let mut sight = s;
    let mut number = 1;
    for part in parts {
        let at = Place {
            clause,
            goal: number,
        };
        sight = hold_part(alloc, at, table, sight, part)?;
        number = past(number, goals_of(part))?;
    }
    Ok(sight)
}
