//! A body with its groups.

ghost use Rattle.std.specs.Prelude.{◌≡◌, ◌<◌, ◌≤◌, map, drop, length, IfOk, IsTrue};
ghost use Rattle.std.specs.List.{list_all};
ghost use Rattle.ap_term.specs.GoalView.{part_of};
ghost use Rattle.ap_patterns.specs.Given.{patterns};
ghost use Rattle.ap_fixpoint.specs.Formed.{goals_formed};
ghost use Rattle.ap_udg.specs.Grouped.{IsNext, Grouped};

use crate::completions::left;
use crate::copies::copy_part;
use crate::runs::{Rule, goals_of, longest_run};
use crate::states::after_part;
use ap_absunify::State;
use ap_patterns::Table;
use ap_term::{Body, NoMemory, Part};
use std::alloc::Global;

/// A part of a body, and how many parts it stands for.
#[derive(Drop)]
struct Next {
    count: usize,
    part: Part,
}

/// What comes first in the place of the first parts.
fn next_part(alloc: Global, rule: Rule, s: &State, parts: &[Part]) -> Result<Next, NoMemory>
    requires formed { IsTrue (list_all goals_formed (map part_of parts.now)) }
    requires some { 0 < length parts.now }
    ensures { IfOk result (λ r. IsNext rule s.now (map part_of parts.now) r.count (part_of r.part)) }
{
    let count = longest_run(alloc, rule, s, parts)?;
    if count < 2 {
        let part = copy_part(alloc, &parts[0])?;
        return Ok(Next { count: 1, part });
    }
    let calls = goals_of(alloc, &parts[..count])?;
    let checks = left(alloc, s, calls.as_slice())?;
    let part = Part::Group { checks, calls };
    Ok(Next { count, part })
}

/// The body with its groups.
pub fn grouped(
    alloc: Global,
    rule: Rule,
    table: &Table,
    s: State,
    parts: &[Part],
) -> Result<Body, NoMemory>
    requires { IsTrue (list_all goals_formed (map part_of parts.now)) }
    ensures { IfOk result (λ body. Grouped rule (patterns table.now) s (map part_of parts.now) body) }
{
    let mut body = Body::new(alloc);
    let mut state = s;
    let mut from = 0;
    while from < parts.len() {
        let Next { count, part } = next_part(alloc, rule, &state, &parts[from..])?;
        state = after_part(alloc, table, state, &part)?;
        body.push(part)?;
        from += count;
    }
    Ok(body)
}
