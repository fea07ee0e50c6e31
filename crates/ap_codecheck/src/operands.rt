//! The rules that an instruction keeps by itself: operands, places and predicates that it names.

ghost use Rattle.std.specs.Prelude.{◌≡◌, ◌≤◌, ◌<◌, ℕ, length, slice_get, Some, IsTrue, ◌↔◌, OnOk, IfErr, IfSome, IfNone};
ghost use Rattle.ap_instr.specs.declared.instruction.Instr.{Instr};
ghost use Rattle.ap_codecheck.specs.declared.rule.Rule.{Rule};
ghost use Rattle.ap_codecheck.specs.Paths.{IsPlaceOf};
ghost use Rattle.ap_codecheck.specs.Rules.{IsNumbered, InRange, GoesInside, CallsKnown, KeepsIn};
ghost use Rattle.ap_codecheck.specs.Judged.{KeepsAlone, KeepsBelow, BreaksIn};

use crate::rule::{CodeErr, Rule};
use ap_instr::{Code, Instr, Predicate, Slot};

fn is_numbered(v: Slot) -> bool
    ensures { IsTrue result ↔ IsNumbered v }
{
    match v {
        Slot::X(n) => n > 0,
        Slot::Y(n) => n > 0,
    }
}

fn in_range(code: &Code, instr: &Instr) -> bool
    ensures { IsTrue result ↔ InRange code.now instr.now }
{
    let count = code.integers().len();
    match *instr {
        Instr::GetVariable(v, a) => is_numbered(v) && a > 0,
        Instr::GetValue(v, a) => is_numbered(v) && a > 0,
        Instr::GetConstant(_, a) => a > 0,
        Instr::GetInteger(i, a) => (i as usize) < count && a > 0,
        Instr::GetStructure(_, _, a) => a > 0,
        Instr::PutVariable(v, a) => is_numbered(v) && a > 0,
        Instr::PutValue(v, a) => is_numbered(v) && a > 0,
        Instr::PutConstant(_, a) => a > 0,
        Instr::PutInteger(i, a) => (i as usize) < count && a > 0,
        Instr::PutStructure(_, _, a) => a > 0,
        Instr::UnifyVariable(v) => is_numbered(v),
        Instr::UnifyValue(v) => is_numbered(v),
        Instr::UnifyInteger(i) => (i as usize) < count,
        Instr::CheckGround(v, _) => is_numbered(v),
        Instr::CheckIndep(v, w, _) => is_numbered(v) && is_numbered(w),
        Instr::AllocParcall(n, _) => n > 0,
        Instr::PushGoal(i, _) => i > 0,
        _ => true,
    }
}

pub fn is_place_of(code: &Code, p: &Predicate, at: usize) -> bool
    ensures { IsTrue result ↔ IsPlaceOf code.now p.now at }
{
    p.start as usize <= at && at < p.end as usize && at < code.instructions().len()
}

fn goes_inside(code: &Code, p: &Predicate, instr: &Instr) -> bool
    ensures { IsTrue result ↔ GoesInside code.now p.now instr.now }
{
    match *instr {
        Instr::Jump(l) => is_place_of(code, p, l as usize),
        Instr::Try(l) => is_place_of(code, p, l as usize),
        Instr::Retry(l) => is_place_of(code, p, l as usize),
        Instr::Trust(l) => is_place_of(code, p, l as usize),
        Instr::CheckGround(_, l) => is_place_of(code, p, l as usize),
        Instr::CheckIndep(_, _, l) => is_place_of(code, p, l as usize),
        _ => true,
    }
}

fn calls_known(code: &Code, instr: &Instr) -> bool
    ensures { IsTrue result ↔ CallsKnown code.now instr.now }
{
    let count = code.predicates().len();
    match *instr {
        Instr::Call(q) => (q as usize) < count,
        Instr::Execute(q) => (q as usize) < count,
        Instr::PushGoal(_, q) => (q as usize) < count,
        _ => true,
    }
}

/// The first of these rules that an instruction breaks.
fn broken_alone(code: &Code, p: &Predicate, instr: &Instr) -> Option<Rule>
    ensures kept { IfNone result ((rule : Rule) → KeepsAlone rule code.now p.now instr.now) }
    ensures broken { IfSome result (λ rule. KeepsAlone rule code.now p.now instr.now → ⊥) }
{
    if !in_range(code, instr) {
        Some(Rule::Operand)
    } else if !goes_inside(code, p, instr) {
        Some(Rule::Target)
    } else if !calls_known(code, instr) {
        Some(Rule::Called)
    } else {
        None
    }
}

/// Whether each instruction of a predicate keeps these rules.
pub fn check_operands(code: &Code, p: &Predicate) -> Result<(), CodeErr>
    ensures ok { OnOk result (KeepsBelow code.now p.now p.now.end) }
    ensures bad { IfErr result (BreaksIn code.now p.now) }
{
    let instructions = code.instructions();
    let end = (p.end as usize).min(instructions.len());
    for at in p.start as usize..end {
        if let Some(rule) = broken_alone(code, p, &instructions[at]) {
            return Err(CodeErr::Bad { at, rule });
        }
    }
    Ok(())
}
