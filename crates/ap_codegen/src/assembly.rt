//! From a clause's instructions to those of code, which have numbers of its tables and lead to places.

ghost use Rattle.std.specs.Prelude.{◌≡◌, ◌+◌, IfOk, OnOk};
ghost use Rattle.ap_instr.specs.Code.{Compiled};
ghost use Rattle.ap_instr.specs.Step.{step_of as said_by};
ghost use Rattle.ap_codegen.specs.Assembled.{Grows, Holds};
ghost use Rattle.ap_codegen.specs.Emitted.{step_of};
ghost use Rattle.ap_codegen.specs.Said.{special_of, special_in, AreSaidAt};

use crate::permanent::above;
use crate::steps::Step;
use crate::tables::Tables;
use ap_instr::Instr;
use ap_term::NoMemory;
use std::alloc::Global;

/// The place behind the next one that so many others are passed over to.
fn past(at: u32, n: u32) -> Result<u32, NoMemory>
    ensures { IfOk result (λ l. l ≡ at + 1 + n) }
{
    let next = above(at, 1)?;
    above(next, n as usize)
}

/// The instruction at a place, with numbers for what the tables hold.
fn numbered(tables: &mut Tables, at: u32, step: Step) -> Result<Instr, NoMemory>
    ensures grows { OnOk result (Grows tables.old tables.new) }
    ensures said { IfOk result (λ instr. (code : Compiled) → Holds tables.new code → said_by code instr ≡ step_of step) }
    ensures special { IfOk result (λ instr. special_of instr ≡ special_in at step) }
{
    match step {
        Step::GetVariable(v, a) => Ok(Instr::GetVariable(v, a)),
        Step::GetValue(v, a) => Ok(Instr::GetValue(v, a)),
        Step::GetConstant(c, a) => Ok(Instr::GetConstant(c, a)),
        Step::GetInteger(z, a) => Ok(Instr::GetInteger(tables.integer(z)?, a)),
        Step::GetStructure(f, n, a) => Ok(Instr::GetStructure(f, n, a)),
        Step::PutVariable(v, a, _) => Ok(Instr::PutVariable(v, a)),
        Step::PutValue(v, a) => Ok(Instr::PutValue(v, a)),
        Step::PutConstant(c, a) => Ok(Instr::PutConstant(c, a)),
        Step::PutInteger(z, a) => Ok(Instr::PutInteger(tables.integer(z)?, a)),
        Step::PutStructure(f, n, a) => Ok(Instr::PutStructure(f, n, a)),
        Step::UnifyVariable(v) => Ok(Instr::UnifyVariable(v)),
        Step::UnifyValue(v) => Ok(Instr::UnifyValue(v)),
        Step::UnifyConstant(c) => Ok(Instr::UnifyConstant(c)),
        Step::UnifyInteger(z) => Ok(Instr::UnifyInteger(tables.integer(z)?)),
        Step::Call(p, n) => Ok(Instr::Call(tables.predicate(p, n)?)),
        Step::Execute(p, n) => Ok(Instr::Execute(tables.predicate(p, n)?)),
        Step::Builtin(b) => Ok(Instr::Builtin(b)),
        Step::Proceed => Ok(Instr::Proceed),
        Step::Allocate(n) => Ok(Instr::Allocate(n)),
        Step::Deallocate => Ok(Instr::Deallocate),
        Step::Jump(n) => Ok(Instr::Jump(past(at, n)?)),
        Step::CheckGround(v, n) => Ok(Instr::CheckGround(v, past(at, n)?)),
        Step::CheckIndep(v, w, n) => Ok(Instr::CheckIndep(v, w, past(at, n)?)),
        Step::AllocParcall(n, l) => Ok(Instr::AllocParcall(n, past(at, l)?)),
        Step::PushGoal(i, p, n) => Ok(Instr::PushGoal(i, tables.predicate(p, n)?)),
        Step::WaitAll => Ok(Instr::WaitAll),
    }
}

/// The instructions of a clause that begins at a place.
pub fn assemble(
    alloc: Global,
    tables: &mut Tables,
    steps: &[Step],
    start: u32,
) -> Result<Vec<Instr>, NoMemory>
    ensures grows { OnOk result (Grows tables.old tables.new) }
    ensures said { IfOk result (λ out. (code : Compiled) → Holds tables.new code → AreSaidAt code start steps.now out.items) }
{
    let mut out = Vec::new(alloc);
    for step in steps {
        let at = above(start, out.len())?;
        out.push(numbered(tables, at, *step)?)?;
    }
    Ok(out)
}
