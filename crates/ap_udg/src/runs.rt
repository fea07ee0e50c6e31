//! Runs of goals that may stand as one group.

ghost use Rattle.std.specs.Prelude.{◌≡◌, ◌≤◌, ℕ, map, take, length, IfOk, OnOk, IsTrue, true};
ghost use Rattle.std.specs.List.{list_all};
ghost use Rattle.ap_term.specs.GoalView.{part_of};
ghost use Rattle.ap_term.specs.TermView.{trees_of};
ghost use Rattle.ap_term.specs.WellFormed.{numbered_all};
ghost use Rattle.ap_fixpoint.specs.Formed.{goals_formed};
ghost use Rattle.ap_udg.specs.Runs.{takes, may_stand, is_user_call, goals_of, with_goal, IsLongestRun};

use ap_absunify::State;
use ap_conditions::{Simplified, full, simplify};
use ap_patterns::is_builtin;
use ap_term::{Args, NoMemory, Part, Term, copy_term};
use std::alloc::Global;

/// How many goals a group has at most.
const MOST: usize = 32;

/// Which runs of goals become groups.
#[derive(Clone, Copy, Debug, PartialEq, Eq)]
pub enum Rule {
    /// Those whose condition may come true.
    Conditional,
    /// Those that need no check.
    Unconditional,
}

impl Rule {
    fn takes(self, left: &Simplified) -> bool
        ensures { result ≡ takes self left.now }
    {
        match (self, left) {
            (_, Simplified::NeverTrue) => false,
            (Rule::Conditional, Simplified::Keep(_)) => true,
            (Rule::Unconditional, Simplified::Keep(checks)) => checks.as_slice().is_empty(),
        }
    }
}

fn may_stand(alloc: Global, rule: Rule, s: &State, goals: &[Term]) -> Result<bool, NoMemory>
    requires { IsTrue (numbered_all 255 (trees_of goals.now)) }
    ensures { IfOk result (λ r. r ≡ may_stand rule s.now (trees_of goals.now)) }
{
    let condition = full(alloc, goals)?;
    let left = simplify(alloc, condition.as_slice(), s)?;
    Ok(rule.takes(&left))
}

pub fn is_user_call(part: &Part) -> bool
    ensures { result ≡ is_user_call (part_of part.now) }
{
    match part {
        Part::Call(goal) => !is_builtin(goal),
        Part::Group { .. } => false,
    }
}

/// How many of the first parts are user goals, at most as many as a group has.
#[tactic(auto, using(crate::proofs::LongestRuns::rules_of_parts))]
fn user_calls(parts: &[Part]) -> usize
    ensures few { result ≤ 32 }
    ensures there { result ≤ length parts.now }
    ensures user { list_all is_user_call (take result (map part_of parts.now)) ≡ true }
    ensures most { (m : ℕ) → m ≤ 32 → m ≤ length parts.now → list_all is_user_call (take m (map part_of parts.now)) ≡ true → m ≤ result }
{
    let most = parts.len().min(MOST);
    for i in 0..most {
        if !is_user_call(&parts[i]) {
            return i;
        }
    }
    most
}

/// Puts in the goal of a part that is one.
fn add_goal(alloc: Global, part: &Part, goals: &mut Args) -> Result<(), NoMemory>
    ensures { OnOk result (goals.new ≡ with_goal goals.old (part_of part.now)) }
{
    match part {
        Part::Call(goal) => goals.push(copy_term(alloc, goal)?),
        Part::Group { .. } => Ok(()),
    }
}

/// The goals of the parts that are one goal each.
#[tactic(auto, using(crate::proofs::LongestRuns::rules_of_parts))]
pub fn goals_of(alloc: Global, parts: &[Part]) -> Result<Args, NoMemory>
    ensures { IfOk result (λ gs. gs ≡ goals_of (map part_of parts.now)) }
{
    let mut goals = Args::new(alloc);
    for part in parts {
        add_goal(alloc, part, &mut goals)?;
    }
    Ok(goals)
}

/// How many of the first parts may stand as one group, at most.
pub fn longest_run(alloc: Global, rule: Rule, s: &State, parts: &[Part]) -> Result<usize, NoMemory>
    requires { IsTrue (list_all goals_formed (map part_of parts.now)) }
    ensures { IfOk result (λ n. IsLongestRun rule s.now (map part_of parts.now) n) }
{
    let most = user_calls(parts);
    let goals = goals_of(alloc, &parts[..most])?;
    let mut n = most;
    while n > 1 {
        if may_stand(alloc, rule, s, &goals.as_slice()[..n])? {
            return Ok(n);
        }
        n -= 1;
    }
    Ok(n)
}
