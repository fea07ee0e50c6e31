//! The code of a clause, inside of an environment or outside.

ghost use Rattle.std.specs.Prelude.{◌≡◌, ℕ, [], ◌∷◌, ◌++◌, ◌⊎◌, IfOk, IfSome, OnOk, MatchOption};
ghost use Rattle.ap_term.specs.Tree.{count_trees};
ghost use Rattle.ap_instr.specs.Builtin.{builtin_arity};
ghost use Rattle.ap_instr.specs.Runs.{arguments};
ghost use Rattle.ap_codegen.specs.Emitted.{step_of, steps_of, leads_of};
ghost use Rattle.ap_codegen.specs.Temporary.{ends};
ghost use Rattle.ap_codegen.specs.Framed.{leaving};
ghost use Rattle.ap_codegen.specs.Grouped.{IsEnded, IsGroupedCode};
ghost use Rattle.ap_codegen.specs.Said.{AreNumbered};
ghost use Rattle.ap_codegen.specs.Paces.{PacesLeads, ArePacedLeads, inside};
ghost use Rattle.ap_codegen.specs.Relocated.{register};

use crate::bodies::grouped_code;
use crate::choosing::choose;
use crate::relocating::tested;
use crate::steps::Step;
use ap_instr::{Builtin, Slot};
use ap_term::{Clause, NoMemory};
use std::alloc::Global;

/// The number of an X register, or 0.
pub fn number(v: Slot) -> u32
    ensures { result ≡ register v }
{
    match v {
        Slot::X(n) => n,
        Slot::Y(_) => 0,
    }
}

pub fn arity(builtin: Builtin) -> u8
    ensures { result ≡ builtin_arity builtin }
{
    match builtin {
        Builtin::True | Builtin::Fail => 0,
        Builtin::Relation(_) => 2,
    }
}

/// The greatest number of an X register that a step uses.
fn greatest(step: Step) -> u32 {
    match step {
        Step::GetVariable(v, a) => number(v).max(a),
        Step::GetValue(v, a) => number(v).max(a),
        Step::PutVariable(v, a, _) => number(v).max(a),
        Step::PutValue(v, a) => number(v).max(a),
        Step::UnifyVariable(v) => number(v),
        Step::UnifyValue(v) => number(v),
        Step::GetConstant(_, a) => a,
        Step::GetInteger(_, a) => a,
        Step::GetStructure(_, _, a) => a,
        Step::PutConstant(_, a) => a,
        Step::PutInteger(_, a) => a,
        Step::PutStructure(_, _, a) => a,
        Step::Execute(_, n) => u32::from(n),
        Step::Builtin(builtin) => u32::from(arity(builtin)),
        _ => 0,
    }
}

/// Whether nothing behind a step runs.
pub fn ends(step: Step) -> bool
    ensures { result ≡ ends (step_of step) }
{
    match step {
        Step::Execute(_, _) => true,
        Step::Proceed => true,
        _ => false,
    }
}

/// A step, before which the environment is given back where nothing behind it runs.
fn add_leaving(out: &mut Vec<Step>, step: &Step) -> Result<(), NoMemory>
    ensures { OnOk result (out.new.items ≡ out.old.items ++ leaving (step.now ∷ [])) }
{
    if ends(*step) {
        out.push(Step::Deallocate)?;
    }
    out.push(*step)?;
    Ok(())
}

/// The steps inside an environment for so many variables.
fn framed(alloc: Global, steps: &[Step], vars: u8) -> Result<Vec<Step>, NoMemory>
    ensures { IfOk result (λ out. out.items ≡ Step.Allocate vars ∷ leaving steps.now) }
{
    let mut out = Vec::new(alloc);
    out.push(Step::Allocate(vars))?;
    for step in steps {
        add_leaving(&mut out, step)?;
    }
    Ok(out)
}

pub fn greatest_of(steps: &[Step]) -> u32 {
    let mut k = 0;
    for step in steps {
        k = greatest(*step).max(k);
    }
    k
}

/// The steps inside an environment for so many variables, or outside of one.
fn entered(alloc: Global, steps: Vec<Step>, room: Option<u8>) -> Result<Vec<Step>, NoMemory>
    ensures { IfOk result (λ out. MatchOption room (out.items ≡ steps.items) (λ vars. out.items ≡ Step.Allocate vars ∷ leaving steps.items)) }
{
    match room {
        None => Ok(steps),
        Some(vars) => framed(alloc, steps.as_slice(), vars),
    }
}

/// The steps with variables in better places, if such are found.
fn relocated(alloc: Global, steps: &[Step]) -> Result<Option<Vec<Step>>, NoMemory>
    ensures grouped { IfOk result (λ r. IfSome r (λ out. (c : Clause) (vars arity : ℕ) → IsEnded (leads_of steps.now) → PacesLeads 0 (leads_of steps.now) (inside vars arity) → IsGroupedCode c (leads_of steps.now) → IsGroupedCode c (leads_of out.items))) }
    ensures led { IfOk result (λ r. IfSome r (λ out. (vars arity : ℕ) → IsEnded (leads_of steps.now) → PacesLeads 0 (leads_of steps.now) (inside vars arity) → AreNumbered 0 steps.now → ArePacedLeads arity out.items)) }
{
    let chosen = choose(alloc, steps)?;
    let count = greatest_of(steps).min(255) + 1;
    match tested(alloc, chosen.changes.as_slice(), chosen.room, count)? {
        None => Ok(None),
        Some(better) => Ok(Some(entered(alloc, better, chosen.room)?)),
    }
}

/// The steps with each variable in its place: in better ones, if such are found, or in an environment for so many.
fn located(alloc: Global, steps: &[Step], vars: u8) -> Result<Vec<Step>, NoMemory>
    ensures grouped { IfOk result (λ out. (c : Clause) (arity : ℕ) → IsEnded (leads_of steps.now) → PacesLeads 0 (leads_of steps.now) (inside vars arity) → IsGroupedCode c (leads_of steps.now) → IsGroupedCode c (leads_of out.items)) }
    ensures led { IfOk result (λ out. (arity : ℕ) → IsEnded (leads_of steps.now) → PacesLeads 0 (leads_of steps.now) (inside vars arity) → AreNumbered 0 steps.now → ArePacedLeads arity out.items ⊎ (out.items ≡ Step.Allocate vars ∷ leaving steps.now)) }
{
    if let Some(better) = relocated(alloc, steps)? {
        return Ok(better);
    }
    let framed = framed(alloc, steps, vars)?;
    Ok(framed)
}

/// The code of a clause.
pub fn clause_steps(alloc: Global, clause: &Clause) -> Result<Vec<Step>, NoMemory>
    ensures code { IfOk result (λ code. IsGroupedCode clause.now (leads_of code.items)) }
    ensures paced { IfOk result (λ code. ArePacedLeads (count_trees (arguments clause.now.head)) code.items) }
{
    let steps = grouped_code(alloc, clause)?;
    let code = located(alloc, steps.as_slice(), clause.vars() as u8)?;
    Ok(code)
}
