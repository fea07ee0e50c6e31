//! The code of a group: its checks, its goals side by side, and its goals one after another.
#![tactic(auto, using(ap_term::proofs::TermLists::arguments, ap_term::proofs::TermLists::item_less_deep))]

ghost use Rattle.std.specs.Prelude.{◌≡◌, ℕ, ◌+◌, [], ◌∷◌, ◌++◌, IfOk, OnOk};
ghost use Rattle.ap_term.specs.Tree.{count_trees, var};
ghost use Rattle.ap_term.specs.TermView.{tree_of};
ghost use Rattle.ap_term.specs.Vars.{add_vars, add_all_vars};
ghost use Rattle.ap_instr.specs.Step.{push};
ghost use Rattle.ap_instr.specs.Runs.{arguments};
ghost use Rattle.ap_codegen.specs.Emitted.{lead_of, leads_of, steps_of};
ghost use Rattle.ap_codegen.specs.Permanent.{name, goal_code, asking};
ghost use Rattle.ap_codegen.specs.Grouped.{straight, see_check, see_checks, make, make_check, make_checks, check_step, check_leads, in_turn, sides, side_leads, ways, group_leads, Numbers, IsWritten};
ghost use Rattle.ap_codegen.specs.Said.{AreNumbered};

use crate::builtin_goals::builtin_of;
use crate::permanent::{above, count, goal, home};
use crate::steps::{Step, add};
use ap_term::{Args, Check, NoMemory, Term};
use std::alloc::Global;

/// The instruction of a check, which passes over so many others where it doesn't hold.
fn check_step(check: Check, n: u32) -> Result<Step, NoMemory>
    ensures { IfOk result (λ step. lead_of step ≡ (check_step check, n)) }
{
    match check {
        Check::Ground(x) => Ok(Step::CheckGround(home(x)?, n)),
        Check::Indep(x, y) => Ok(Step::CheckIndep(home(x)?, home(y)?, n)),
    }
}

/// Makes a variable that wasn't seen.
fn make(code: &mut Vec<Step>, v: u64, seen: &mut Vec<u64>) -> Result<(), NoMemory>
    ensures code { OnOk result (steps_of code.new.items ≡ steps_of code.old.items ++ make v seen.old.items) }
    ensures seen { OnOk result (seen.new.items ≡ add_vars (var v) seen.old.items) }
{
    let slot = home(v)?;
    if seen.contains(&v) {
        return Ok(());
    }
    seen.push(v)?;
    add(code, Step::PutVariable(slot, 1, v))
}

/// Makes the variables that a check names and that weren't seen.
fn make_check(code: &mut Vec<Step>, check: Check, seen: &mut Vec<u64>) -> Result<(), NoMemory>
    ensures code { OnOk result (steps_of code.new.items ≡ steps_of code.old.items ++ make_check check seen.old.items) }
    ensures seen { OnOk result (seen.new.items ≡ see_check check seen.old.items) }
{
    match check {
        Check::Ground(x) => make(code, x, seen),
        Check::Indep(x, y) => {
            make(code, x, seen)?;
            make(code, y, seen)
        }
    }
}

fn make_checks(alloc: Global, tests: &[Check], seen: &mut Vec<u64>) -> Result<Vec<Step>, NoMemory>
    ensures code { IfOk result (λ code. steps_of code.items ≡ make_checks tests.now seen.old.items) }
    ensures seen { IfOk result (λ _. seen.new.items ≡ see_checks tests.now seen.old.items) }
{
    let mut code = Vec::new(alloc);
    for check in tests {
        make_check(&mut code, *check, seen)?;
    }
    Ok(code)
}

/// The instructions of checks, each of which leads past the others, so many more and a jump.
fn checks(alloc: Global, tests: &[Check], n: u32) -> Result<Vec<Step>, NoMemory>
    ensures { IfOk result (λ code. leads_of code.items ≡ check_leads tests.now n) }
{
    let mut code = Vec::new(alloc);
    let mut left = tests.len();
    for check in tests {
        left -= 1;
        code.push(check_step(*check, above(n, left + 1)?)?)?;
    }
    Ok(code)
}

/// A goal with others behind it, or a built-in one.
pub fn ask(
    alloc: Global,
    code: &mut Vec<Step>,
    t: &Term,
    seen: &mut Vec<u64>,
) -> Result<(), NoMemory>
    ensures code { OnOk result (steps_of code.new.items ≡ steps_of code.old.items ++ (goal_code (tree_of t.now) seen.old.items ++ asking (tree_of t.now) ∷ [])) }
    ensures seen { OnOk result (seen.new.items ≡ add_vars (tree_of t.now) seen.old.items) }
{
    let (p, n) = goal(alloc, code, t, seen)?;
    match builtin_of(t) {
        Some(builtin) => add(code, Step::Builtin(builtin)),
        None => add(code, Step::Call(p, n)),
    }
}

/// The goals one after another.
fn in_turn(alloc: Global, calls: &Args, seen: &mut Vec<u64>) -> Result<Vec<Step>, NoMemory>
    ensures { IfOk result (λ code. steps_of code.items ≡ in_turn calls.now seen.old.items) }
{
    let mut code = Vec::new(alloc);
    for t in calls.as_slice() {
        ask(alloc, &mut code, t, seen)?;
    }
    Ok(code)
}

/// The goals one after another, where the variables that are seen aren't told.
fn turns(alloc: Global, calls: &Args, seen: &Vec<u64>) -> Result<Vec<Step>, NoMemory>
    ensures { IfOk result (λ code. steps_of code.items ≡ in_turn calls.now seen.now.items) }
{
    let mut known = seen.clone()?;
    in_turn(alloc, calls, &mut known)
}

/// A group's goal, which is pushed as its i-th.
fn pushed(alloc: Global, t: &Term, i: u8, seen: &mut Vec<u64>) -> Result<Vec<Step>, NoMemory>
    ensures leads { IfOk result (λ code. leads_of code.items ≡ straight (goal_code (tree_of t.now) seen.old.items ++ push (name (tree_of t.now)) (count_trees (arguments (tree_of t.now))) ∷ [])) }
    ensures numbered { IfOk result (λ code. (k : ℕ) → i ≡ k + 1 → Numbers k i code.items) }
    ensures seen { IfOk result (λ _. seen.new.items ≡ add_vars (tree_of t.now) seen.old.items) }
{
    let mut code = Vec::new(alloc);
    let (p, n) = goal(alloc, &mut code, t, seen)?;
    code.push(Step::PushGoal(i, p, n))?;
    Ok(code)
}

/// The number behind another, where there is one.
fn next(i: u8) -> Result<u8, NoMemory>
    ensures { IfOk result (λ k. k ≡ i + 1) }
{
    match i.checked_add(1) {
        Some(k) => Ok(k),
        None => Err(NoMemory),
    }
}

/// The goals side by side, behind the step that begins them.
fn sides(alloc: Global, calls: &Args, seen: &mut Vec<u64>) -> Result<Vec<Step>, NoMemory>
    ensures leads { IfOk result (λ code. leads_of code.items ≡ sides calls.now seen.old.items) }
    ensures numbered { IfOk result (λ code. AreNumbered 0 code.items) }
    ensures seen { IfOk result (λ _. seen.new.items ≡ add_all_vars calls.now seen.old.items) }
{
    let mut code = Vec::new(alloc);
    let mut i = 0u8;
    for t in calls.as_slice() {
        i = next(i)?;
        let mut part = pushed(alloc, t, i, seen)?;
        code.append(&mut part)?;
    }
    code.push(Step::WaitAll)?;
    Ok(code)
}

/// The goals side by side, which the first step leads past, and past a jump.
fn side_by_side(alloc: Global, calls: &Args, seen: &mut Vec<u64>) -> Result<Vec<Step>, NoMemory>
    ensures written { IfOk result (λ code. IsWritten code.items (side_leads calls.now seen.old.items)) }
    ensures seen { IfOk result (λ _. seen.new.items ≡ add_all_vars calls.now seen.old.items) }
{
    let mut goals = sides(alloc, calls, seen)?;
    let mut code = Vec::new(alloc);
    code.push(Step::AllocParcall(count(calls)?, above(1, goals.len())?))?;
    code.append(&mut goals)?;
    Ok(code)
}

/// The goals side by side, and one after another for where a check doesn't hold or no goals are wanted.
fn ways(
    alloc: Global,
    tests: &[Check],
    calls: &Args,
    seen: &mut Vec<u64>,
) -> Result<Vec<Step>, NoMemory>
    ensures written { IfOk result (λ code. IsWritten code.items (ways tests.now calls.now seen.old.items)) }
    ensures seen { IfOk result (λ _. seen.new.items ≡ add_all_vars calls.now seen.old.items) }
{
    let mut turns = turns(alloc, calls, seen)?;
    let mut sides = side_by_side(alloc, calls, seen)?;
    let mut code = checks(alloc, tests, above(0, sides.len())?)?;
    code.append(&mut sides)?;
    code.push(Step::Jump(above(0, turns.len())?))?;
    code.append(&mut turns)?;
    Ok(code)
}

/// The code of a group.
pub fn group(
    alloc: Global,
    tests: &[Check],
    calls: &Args,
    seen: &mut Vec<u64>,
) -> Result<Vec<Step>, NoMemory>
    ensures written { IfOk result (λ code. IsWritten code.items (group_leads tests.now calls.now seen.old.items)) }
    ensures seen { IfOk result (λ _. seen.new.items ≡ add_all_vars calls.now (see_checks tests.now seen.old.items)) }
{
    let mut code = make_checks(alloc, tests, seen)?;
    let mut goals = ways(alloc, tests, calls, seen)?;
    code.append(&mut goals)?;
    Ok(code)
}
