//! The rules on paths: each clause is gone through from its place to its ends, with its shape. A place that a jump or check
//! leads to is remembered, so that paths that join go on once.

ghost use Rattle.std.specs.Prelude.{◌≡◌, ◌+◌, ◌≤◌, ◌<◌, ◌^◌, ℕ, true, false, nat_lt, length, slice_get, Some, IsTrue, ◌↔◌, IfOk, OnOk, IfErr, IfSome, IfNone, MatchOption};
ghost use Rattle.ap_instr.specs.declared.instruction.Instr.{Instr};
ghost use Rattle.ap_instr.specs.Builtin.{builtin_arity};
ghost use Rattle.ap_codecheck.specs.declared.rule.Rule.{Rule};
ghost use Rattle.ap_codecheck.specs.Shape.{is_set, entry};
ghost use Rattle.ap_codecheck.specs.Held.{shape_of};
ghost use Rattle.ap_codecheck.specs.Paths.{IsPlaceOf, Begins};
ghost use Rattle.ap_codecheck.specs.Rules.{arity_of, ArgumentsSet, ReadsSet, IsRoomFor, HasRoom, FitsEnvironment, is_argument, IsInTurn, puts_argument, FitsGroup, GoesOn, KeepsIn};
ghost use Rattle.ap_codecheck.specs.Known.{IsPassed, IsFollowed};
ghost use Rattle.ap_codecheck.specs.Judged.{KeepsWith, KeepsBelow, IsFineFrom, FailsFrom, FailsAt, AreFine, AreAwaited, ArePathsFine, others, BreaksIn};

use crate::operands::is_place_of;
use crate::rule::{CodeErr, Rule};
use crate::shape::Shape;
use crate::walk::Walk;
use ap_instr::{Builtin, Code, Instr, Predicate, Slot};

fn arity_of(code: &Code, number: u32) -> u8
    ensures { result ≡ arity_of code.now number }
{
    match code.predicates().get(number as usize) {
        Some(p) => p.arity,
        None => 0,
    }
}

fn builtin_arity(builtin: Builtin) -> u8
    ensures { result ≡ builtin_arity builtin }
{
    match builtin {
        Builtin::True => 0,
        Builtin::Fail => 0,
        Builtin::Relation(_) => 2,
    }
}

fn arguments_set(shape: &Shape, count: u8) -> bool
    ensures { IsTrue result ↔ ArgumentsSet count (shape_of shape.now) }
{
    for a in 1..count as u32 + 1 {
        if !shape.is_set(Slot::X(a)) {
            return false;
        }
    }
    true
}

fn reads_set(code: &Code, instr: &Instr, shape: &Shape) -> bool
    ensures { IsTrue result ↔ ReadsSet code.now instr.now (shape_of shape.now) }
{
    match *instr {
        Instr::GetVariable(_, a) => shape.is_set(Slot::X(a)),
        Instr::GetValue(v, a) => shape.is_set(v) && shape.is_set(Slot::X(a)),
        Instr::GetConstant(_, a) => shape.is_set(Slot::X(a)),
        Instr::GetInteger(_, a) => shape.is_set(Slot::X(a)),
        Instr::GetStructure(_, _, a) => shape.is_set(Slot::X(a)),
        Instr::PutValue(v, _) => shape.is_set(v),
        Instr::UnifyValue(v) => shape.is_set(v),
        Instr::Call(q) => arguments_set(shape, arity_of(code, q)),
        Instr::Execute(q) => arguments_set(shape, arity_of(code, q)),
        Instr::Builtin(b) => arguments_set(shape, builtin_arity(b)),
        Instr::CheckGround(v, _) => shape.is_set(v),
        Instr::CheckIndep(v, w, _) => shape.is_set(v) && shape.is_set(w),
        Instr::PushGoal(_, q) => arguments_set(shape, arity_of(code, q)),
        _ => true,
    }
}

fn has_room(shape: &Shape, v: Slot) -> bool
    ensures { IsTrue result ↔ HasRoom v (shape_of shape.now) }
{
    match v {
        Slot::X(_) => true,
        Slot::Y(n) => match shape.room {
            Some(room) => n <= room,
            None => false,
        },
    }
}

fn fits_environment(instr: &Instr, shape: &Shape) -> bool
    ensures { IsTrue result ↔ FitsEnvironment instr.now (shape_of shape.now) }
{
    let is_inside = shape.room.is_some();
    match *instr {
        Instr::GetVariable(v, _) => has_room(shape, v),
        Instr::GetValue(v, _) => has_room(shape, v),
        Instr::PutVariable(v, _) => has_room(shape, v),
        Instr::PutValue(v, _) => has_room(shape, v),
        Instr::UnifyVariable(v) => has_room(shape, v),
        Instr::UnifyValue(v) => has_room(shape, v),
        Instr::Allocate(_) => !is_inside,
        Instr::Deallocate => is_inside,
        Instr::Call(_) => is_inside,
        Instr::Execute(_) => !is_inside,
        Instr::Proceed => !is_inside,
        Instr::CheckGround(v, _) => has_room(shape, v),
        Instr::CheckIndep(v, w, _) => has_room(shape, v) && has_room(shape, w),
        Instr::WaitAll => is_inside,
        _ => true,
    }
}

fn is_argument(instr: &Instr) -> bool
    ensures { result ≡ is_argument instr.now }
{
    matches!(
        *instr,
        Instr::UnifyVariable(_)
            | Instr::UnifyValue(_)
            | Instr::UnifyConstant(_)
            | Instr::UnifyInteger(_)
    )
}

fn puts_argument(instr: &Instr) -> bool
    ensures { result ≡ puts_argument instr.now }
{
    match *instr {
        Instr::PutVariable(_, _) => true,
        Instr::PutValue(_, _) => true,
        Instr::PutConstant(_, _) => true,
        Instr::PutInteger(_, _) => true,
        Instr::PutStructure(_, _, _) => true,
        _ => is_argument(instr),
    }
}

fn fits_group(instr: &Instr, group: Option<(u8, u8)>) -> bool
    ensures { IsTrue result ↔ FitsGroup instr.now group }
{
    let Some((goals, pushed)) = group else {
        return !matches!(*instr, Instr::PushGoal(_, _) | Instr::WaitAll);
    };
    match *instr {
        Instr::PushGoal(i, _) => i as u32 == pushed as u32 + 1 && i <= goals,
        Instr::WaitAll => pushed == goals,
        _ => puts_argument(instr),
    }
}

fn goes_on(instr: &Instr, at: usize) -> bool
    ensures { IsTrue result ↔ GoesOn instr.now at }
{
    match *instr {
        Instr::Jump(l) => at < l as usize,
        Instr::CheckGround(_, l) => at < l as usize,
        Instr::CheckIndep(_, _, l) => at < l as usize,
        Instr::Try(_) => false,
        Instr::Retry(_) => false,
        Instr::Trust(_) => false,
        _ => true,
    }
}

/// The first rule that an instruction breaks at a shape.
fn broken(code: &Code, instr: &Instr, at: usize, shape: &Shape) -> Option<Rule>
    ensures kept { IfNone result ((rule : Rule) → KeepsWith rule code.now instr.now at (shape_of shape.now)) }
    ensures broken { IfSome result (λ rule. KeepsWith rule code.now instr.now at (shape_of shape.now) → ⊥) }
{
    if is_argument(instr) != (shape.pending > 0) {
        Some(Rule::Argument)
    } else if !fits_environment(instr, shape) {
        Some(Rule::Environment)
    } else if !reads_set(code, instr, shape) {
        Some(Rule::Unset)
    } else if !fits_group(instr, shape.group) {
        Some(Rule::Group)
    } else if !goes_on(instr, at) {
        Some(Rule::End)
    } else {
        None
    }
}

fn instruction_at(code: &Code, at: usize) -> Instr
    requires { at < length code.now.instructions }
    ensures { slice_get code.now.instructions at ≡ Some result }
{
    code.instructions()[at]
}

/// Judges the instruction at a place, and remembers what it leads to elsewhere. The shape is then the one behind it. Answers
/// whether control goes on there.
fn pass(code: &Code, at: usize, walk: &mut Walk) -> Result<bool, CodeErr>
    requires held { at < length code.now.instructions }
    requires room { at + 1 < 2 ^ 64 }
    ensures passed { IfOk result (λ on. IsPassed code.now at (shape_of walk.old.shape) (shape_of walk.new.shape) walk.old.ways.items walk.new.ways.items on) }
    ensures bad { IfErr result (FailsAt code.now at (shape_of walk.old.shape)) }
{
    let instr = instruction_at(code, at);
    if let Some(rule) = broken(code, &instr, at, &walk.shape) {
        return Err(CodeErr::Bad { at, rule });
    }
    walk.shape.advance(&instr)?;
    walk.remember_elsewhere(&instr)?;
    Ok(walk.goes_on(&instr, at + 1))
}

/// Follows a clause from a place on, until what comes is remembered.
fn follow(code: &Code, p: &Predicate, from: usize, walk: &mut Walk) -> Result<(), CodeErr>
    requires { p.now.start ≤ from }
    ensures followed { OnOk result (IsFollowed code.now p.now from (shape_of walk.old.shape) walk.old.ways.items walk.new.ways.items) }
    ensures bad { IfErr result (FailsFrom code.now p.now from (shape_of walk.old.shape)) }
{
    let end = (p.end as usize).min(code.instructions().len());
    let mut at = from;
    while at < end {
        if !pass(code, at, walk)? {
            return Ok(());
        }
        at += 1;
    }
    Err(CodeErr::Bad {
        at,
        rule: Rule::End,
    })
}

/// Goes through the clause that begins at a place, on each of its paths.
fn check_clause(code: &Code, p: &Predicate, from: u32, walk: &mut Walk) -> Result<(), CodeErr>
    requires { p.now.start ≤ from }
    ensures ok { OnOk result (IsFineFrom code.now p.now from (entry p.now.arity)) }
    ensures bad { IfErr result (FailsFrom code.now p.now from (entry p.now.arity)) }
{
    walk.begin(p.arity)?;
    follow(code, p, from as usize, walk)?;
    for number in 0..4294967295usize {
        let Some(place) = walk.stand(number)? else {
            return Ok(());
        };
        follow(code, p, place, walk)?;
    }
    Err(CodeErr::NoMemory)
}

/// Goes through a clause of the predicate.
fn check_begun(code: &Code, p: &Predicate, from: u32, walk: &mut Walk) -> Result<(), CodeErr>
    requires behind { p.now.start ≤ from }
    requires begins { Begins code.now p.now from }
    ensures ok { OnOk result (IsFineFrom code.now p.now from (entry p.now.arity)) }
    ensures bad { IfErr result (BreaksIn code.now p.now) }
{
    check_clause(code, p, from, walk)
}

/// Goes through the clauses behind a predicate's `try`.
fn check_others(code: &Code, p: &Predicate, walk: &mut Walk) -> Result<(), CodeErr>
    requires start { IsPlaceOf code.now p.now p.now.start }
    requires tries { (first : ℕ) × (slice_get code.now.instructions p.now.start ≡ Some (Instr.Try first)) }
    requires operands { KeepsBelow code.now p.now p.now.end }
    ensures clauses { OnOk result (AreFine code.now p.now (others code.now p.now)) }
    ensures awaited { OnOk result (AreAwaited code.now p.now) }
    ensures bad { IfErr result (BreaksIn code.now p.now) }
{
    let end = (p.end as usize).min(code.instructions().len());
    for at in p.start as usize + 1..end {
        match instruction_at(code, at) {
            Instr::Retry(l) => check_begun(code, p, l, walk)?,
            Instr::Trust(l) => return check_begun(code, p, l, walk),
            _ => {
                return Err(CodeErr::Bad {
                    at,
                    rule: Rule::End,
                });
            }
        }
    }
    Err(CodeErr::Bad {
        at: end,
        rule: Rule::End,
    })
}

/// Goes through a predicate's clauses.
pub fn check_paths(code: &Code, p: &Predicate, walk: &mut Walk) -> Result<(), CodeErr>
    requires { KeepsBelow code.now p.now p.now.end }
    ensures ok { OnOk result (ArePathsFine code.now p.now) }
    ensures bad { IfErr result (BreaksIn code.now p.now) }
{
    let start = p.start as usize;
    if !is_place_of(code, p, start) {
        return Err(CodeErr::Bad {
            at: start,
            rule: Rule::End,
        });
    }
    match instruction_at(code, start) {
        Instr::Try(l) => {
            check_begun(code, p, l, walk)?;
            check_others(code, p, walk)
        }
        Instr::Fail => Ok(()),
        _ => check_begun(code, p, p.start, walk),
    }
}
