//! A clause with the groups of another one whose goals are alike.

ghost use Rattle.std.specs.Prelude.{◌≡◌, true, map, IfOk, IfSome};
ghost use Rattle.ap_term.specs.Goals.{calls};
ghost use Rattle.ap_term.specs.Tree.{none};
ghost use Rattle.ap_term.specs.Goals.{call, group};
ghost use Rattle.ap_term.specs.GoalView.{part_of};
ghost use Rattle.ap_term.specs.TermView.{tree_of, trees_of};
ghost use Rattle.ap_alike.specs.Alike.{AreAlikeBodies, IsAlikePart};
ghost use Rattle.ap_alike.specs.Fitted.{IsFitted, IsFittedClause};
ghost use Rattle.std.specs.List.{flat_map};
ghost use Rattle.ap_cge.specs.Stripped.{stripped_part};

use crate::likeness::{are_alike_goals, is_alike_goal};
use ap_term::{
    Args, Body, Checks, Clause, NoMemory, Part, Same, Term, copy_term, instances, is_clause,
};
use std::alloc::Global;

fn copy_checks(alloc: Global, checks: &Checks) -> Result<Checks, NoMemory>
    ensures { IfOk result (λ copy. copy ≡ checks.now) }
{
    let mut copy = Checks::new(alloc);
    for check in checks.as_slice() {
        copy.push(*check)?;
    }
    Ok(copy)
}

/// The goals of a body; None where it has a group.
fn goals_of(alloc: Global, parts: &[Part]) -> Result<Option<Args>, NoMemory>
    ensures { IfOk result (λ found. IfSome found (λ goals. calls goals ≡ map part_of parts.now)) }
{
    let mut goals = Args::new(alloc);
    for part in parts {
        match part {
            Part::Call(goal) => goals.push(copy_term(alloc, goal)?)?,
            Part::Group { .. } => return Ok(None),
        }
    }
    Ok(Some(goals))
}

/// Puts the first of some goals in the place of one that is alike, and gives how many are put: one. None where it isn't alike.
fn fit_goal(
    alloc: Global,
    goal: &Term,
    goals: &[Term],
    out: &mut Body,
) -> Result<Option<usize>, NoMemory>
    ensures { IfOk result (λ found. IfSome found (λ n. IsFitted (call (tree_of goal.now)) goals.now n out.old out.new)) }
{
    if goals.is_empty() {
        return Ok(None);
    }
    if !is_alike_goal(alloc, goal, &goals[0])? {
        return Ok(None);
    }
    out.push(Part::Call(copy_term(alloc, &goals[0])?))?;
    Ok(Some(1))
}

/// Puts the first of some goals in the places of those of a group, where they are alike, and gives how many are put.
fn fit_group(
    alloc: Global,
    checks: &Checks,
    own: &[Term],
    goals: &[Term],
    out: &mut Body,
) -> Result<Option<usize>, NoMemory>
    ensures { IfOk result (λ found. IfSome found (λ n. IsFitted (group checks.now (trees_of own.now)) goals.now n out.old out.new)) }
{
    let n = own.len();
    if n > goals.len() {
        return Ok(None);
    }
    let first = &goals[..n];
    if !are_alike_goals(alloc, own, first)? {
        return Ok(None);
    }
    let checks = copy_checks(alloc, checks)?;
    let calls = instances(alloc, &Same, first)?;
    out.push(Part::Group { checks, calls })?;
    Ok(Some(n))
}

/// Puts the first of some goals in the places of those of a part, where they are alike, and gives how many are put.
fn fit_part(
    alloc: Global,
    part: &Part,
    goals: &[Term],
    out: &mut Body,
) -> Result<Option<usize>, NoMemory>
    ensures { IfOk result (λ found. IfSome found (λ n. IsFitted (part_of part.now) goals.now n out.old out.new)) }
{
    match part {
        Part::Call(goal) => fit_goal(alloc, goal, goals, out),
        Part::Group { checks, calls } => fit_group(alloc, checks, calls.as_slice(), goals, out),
    }
}

/// A body of these goals with the groups of parts to whose goals they are alike; None where they aren't.
fn fit_body(alloc: Global, parts: &[Part], goals: &[Term]) -> Result<Option<Body>, NoMemory>
    ensures alike { IfOk result (λ found. IfSome found (λ body. AreAlikeBodies (map part_of parts.now) body)) }
    ensures same { IfOk result (λ found. IfSome found (λ body. flat_map stripped_part body ≡ calls (trees_of goals.now))) }
{
    let mut body = Body::new(alloc);
    let mut at = 0;
    for part in parts {
        let Some(n) = fit_part(alloc, part, &goals[at..], &mut body)? else {
            return Ok(None);
        };
        at += n;
    }
    if at != goals.len() {
        return Ok(None);
    }
    Ok(Some(body))
}

/// Whether two heads are the same atom.
fn is_same_atom(left: &Term, right: &Term) -> bool
    ensures { result ≡ true → tree_of right.now ≡ tree_of left.now }
{
    match (left, right) {
        (Term::Atom(own), Term::Atom(other)) => own.number() == other.number(),
        _ => false,
    }
}

/// A clause without groups, with those of another one to whose goals its own are alike. None where they aren't, or it has a group. Both heads
/// are atoms.
pub fn fit_clause(
    alloc: Global,
    grouped: &Clause,
    asked: &Clause,
) -> Result<Option<Clause>, NoMemory>
    ensures { IfOk result (λ found. IfSome found (λ c. IsFittedClause grouped.now asked.now c)) }
{
    if grouped.vars() != asked.vars() || !is_same_atom(grouped.head(), asked.head()) {
        return Ok(None);
    }
    let Some(goals) = goals_of(alloc, asked.body().as_slice())? else {
        return Ok(None);
    };
    let Some(body) = fit_body(alloc, grouped.body().as_slice(), goals.as_slice())? else {
        return Ok(None);
    };
    let head = copy_term(alloc, asked.head())?;
    if !is_clause(&head, &body, asked.vars(), asked.line()) {
        return Ok(None);
    }
    Ok(Some(Clause::new(head, body, asked.vars(), asked.line())))
}
