//! The code of a clause whose variables stand in its environment.

ghost use Rattle.std.specs.Prelude.{◌≡◌, ◌+◌, ◌==◌, ◌&&◌, not, true, false, [], ◌∷◌, ◌++◌, IfOk, OnOk, MatchOption};
ghost use Rattle.ap_term.specs.Tree.{count_trees};
ghost use Rattle.ap_term.specs.TermView.{tree_of};
ghost use Rattle.ap_term.specs.Vars.{add_vars, add_all_vars};
ghost use Rattle.ap_term.specs.GoalView.{part_of};
ghost use Rattle.ap_term.specs.Goals.{call};
ghost use Rattle.ap_term.specs.WellFormed.{IsClause};
ghost use Rattle.ap_instr.specs.Step.{execute};
ghost use Rattle.ap_instr.specs.Runs.{arguments};
ghost use Rattle.ap_codegen.specs.Emitted.{steps_of, leads_of};
ghost use Rattle.ap_codegen.specs.Said.{AreNumbered};
ghost use Rattle.ap_codegen.specs.Grouped.{IsGroupedCode, IsWritten, part_leads, see_part, ends_body, body_leads, clause_leads};
ghost use Rattle.ap_codegen.specs.Permanent.{name, is_builtin, goal_code, gets};

use crate::builtin_goals::builtin_of;
use crate::groups::{ask, group};
use crate::permanent::{above, gets, goal};
use crate::steps::{Step, add};
use ap_term::{Body, Clause, NoMemory, Part, Term};
use std::alloc::Global;

/// The last goal, a call.
fn ask_last(
    alloc: Global,
    code: &mut Vec<Step>,
    t: &Term,
    seen: &mut Vec<u64>,
) -> Result<(), NoMemory>
    ensures { OnOk result (steps_of code.new.items ≡ steps_of code.old.items ++ (goal_code (tree_of t.now) seen.old.items ++ execute (name (tree_of t.now)) (count_trees (arguments (tree_of t.now))) ∷ [])) }
{
    let (p, n) = goal(alloc, code, t, seen)?;
    add(code, Step::Execute(p, n))
}

fn is_last_call(t: &Term, left: usize) -> bool
    ensures { result ≡ ((left == 0) && not (is_builtin (tree_of t.now))) }
{
    left == 0 && builtin_of(t).is_none()
}

/// The call that a body ends in, where a part with so many behind it is one.
fn last_call(part: &Part, left: usize) -> Option<&Term>
    ensures { MatchOption result (ends_body (part_of part.now) left ≡ false) (λ t. (ends_body (part_of part.now) left ≡ true) × (part_of part.now ≡ call (tree_of t.now))) }
{
    match part {
        Part::Call(t) => {
            if is_last_call(t, left) {
                return Some(t);
            }
            None
        }
        Part::Group {
            checks: _,
            calls: _,
        } => None,
    }
}

/// A part with others behind it, or one that is no call.
fn part_steps(alloc: Global, part: &Part, seen: &mut Vec<u64>) -> Result<Vec<Step>, NoMemory>
    ensures written { IfOk result (λ code. IsWritten code.items (part_leads (part_of part.now) seen.old.items)) }
    ensures seen { IfOk result (λ _. seen.new.items ≡ see_part (part_of part.now) seen.old.items) }
{
    match part {
        Part::Call(t) => {
            let mut code = Vec::new(alloc);
            ask(alloc, &mut code, t, seen)?;
            Ok(code)
        }
        Part::Group { checks, calls } => group(alloc, checks.as_slice(), calls, seen),
    }
}

/// The parts of a body, one after another.
fn parts(alloc: Global, body: &Body, seen: &mut Vec<u64>) -> Result<Vec<Step>, NoMemory>
    ensures { IfOk result (λ code. IsWritten code.items (body_leads body.now seen.old.items)) }
{
    let mut code = Vec::new(alloc);
    let parts = body.as_slice();
    let mut left = parts.len();
    for part in parts {
        left -= 1;
        if let Some(t) = last_call(part, left) {
            let mut last = Vec::new(alloc);
            ask_last(alloc, &mut last, t, seen)?;
            code.append(&mut last)?;
            return Ok(code);
        }
        let mut more = part_steps(alloc, part, seen)?;
        code.append(&mut more)?;
    }
    code.push(Step::Proceed)?;
    Ok(code)
}

fn head(alloc: Global, code: &mut Vec<Step>, t: &Term, seen: &mut Vec<u64>) -> Result<(), NoMemory>
    ensures code { OnOk result (steps_of code.new.items ≡ steps_of code.old.items ++ gets (arguments (tree_of t.now)) 1 seen.old.items (count_trees (arguments (tree_of t.now)) + 1)) }
    ensures seen { OnOk result (seen.new.items ≡ add_all_vars (arguments (tree_of t.now)) seen.old.items) }
{
    match t {
        Term::Node(_, args) => {
            let m = above(1, args.len())?;
            gets(alloc, code, args, seen, m)
        }
        Term::Var(_) | Term::Int(_) | Term::Atom(_) => Ok(()),
    }
}

/// The code of a clause with its groups, but for its environment.
pub fn grouped_code(alloc: Global, clause: &Clause) -> Result<Vec<Step>, NoMemory>
    ensures leads { IfOk result (λ code. leads_of code.items ≡ clause_leads clause.now) }
    ensures code { IfOk result (λ code. IsGroupedCode clause.now (leads_of code.items)) }
    ensures numbered { IfOk result (λ code. AreNumbered 0 code.items) }
    ensures kept { IfOk result (λ _. IsClause clause.now) }
{
    let mut code = Vec::new(alloc);
    let mut seen = Vec::new(alloc);
    head(alloc, &mut code, clause.head(), &mut seen)?;
    let mut rest = parts(alloc, clause.body(), &mut seen)?;
    code.append(&mut rest)?;
    Ok(code)
}
