//! The instructions of one clause, with integers and predicates in place of their numbers in the code's tables.

ghost use Rattle.std.specs.Prelude.{◌≡◌, [], ◌∷◌, ◌++◌, OnOk};
ghost use Rattle.ap_codegen.specs.Emitted.{step_of, steps_of};

use ap_instr::{Builtin, Slot};
use ap_term::{Atom, NoMemory};

/// An instruction of a clause. `PutVariable` has the clause's variable that it makes, too; a call, and a group's goal behind its
/// number, its predicate's name and arity; a jump, a check, and the first step of a group's goals behind their number, how many
/// instructions behind the next one it passes over.
#[derive(Clone, Copy)]
pub enum Step {
    GetVariable(Slot, u32),
    GetValue(Slot, u32),
    GetConstant(Atom, u32),
    GetInteger(i64, u32),
    GetStructure(Atom, u8, u32),
    PutVariable(Slot, u32, u64),
    PutValue(Slot, u32),
    PutConstant(Atom, u32),
    PutInteger(i64, u32),
    PutStructure(Atom, u8, u32),
    UnifyVariable(Slot),
    UnifyValue(Slot),
    UnifyConstant(Atom),
    UnifyInteger(i64),
    Call(Atom, u8),
    Execute(Atom, u8),
    Builtin(Builtin),
    Proceed,
    Allocate(u8),
    Deallocate,
    Jump(u32),
    CheckGround(Slot, u32),
    CheckIndep(Slot, Slot, u32),
    AllocParcall(u8, u32),
    PushGoal(u8, Atom, u8),
    WaitAll,
}

/// One more instruction.
pub fn add(code: &mut Vec<Step>, step: Step) -> Result<(), NoMemory>
    ensures { OnOk result (steps_of code.new.items ≡ steps_of code.old.items ++ step_of step ∷ []) }
{
    code.push(step)?;
    Ok(())
}
