//! Instructions.

use crate::builtins::Builtin;
use ap_term::Atom;

/// A register: `Xn` for arguments and temporaries, `Yn` for a permanent variable of the environment.
#[derive(Debug, Clone, Copy, PartialEq, Eq)]
pub enum Slot {
    X(u32),
    Y(u8),
}

/// An instruction (Warren, An Abstract Prolog Instruction Set, 1983). An argument register `Ai` stands as its number i,
/// which is that of `Xi`; an integer as its number in the code's table of integers; a predicate as its number in the
/// code's table of predicates; a place as the number of an instruction in the code, from 0. A list's cell is a structure
/// of the name `.` with two arguments, and is listed as `get_list` and `put_list`. The last five are a group's (DeGroot,
/// Restricted And-Parallelism, 1984; Hermenegildo, An Abstract Machine Based Execution Model, 1986): its checks, and its
/// goals, each of which is the call of a predicate on the argument registers.
#[derive(Clone, Copy)]
pub enum Instr {
    GetVariable(Slot, u32),
    GetValue(Slot, u32),
    GetConstant(Atom, u32),
    GetInteger(u32, u32),
    GetStructure(Atom, u8, u32),
    PutVariable(Slot, u32),
    PutValue(Slot, u32),
    PutConstant(Atom, u32),
    PutInteger(u32, u32),
    PutStructure(Atom, u8, u32),
    UnifyVariable(Slot),
    UnifyValue(Slot),
    UnifyConstant(Atom),
    UnifyInteger(u32),
    Allocate(u8),
    Deallocate,
    Call(u32),
    Execute(u32),
    Proceed,
    Builtin(Builtin),
    Jump(u32),
    Fail,
    Try(u32),
    Retry(u32),
    Trust(u32),
    /// Goes to the place where the register's term isn't ground.
    CheckGround(Slot, u32),
    /// Goes to the place where the registers' terms share a variable.
    CheckIndep(Slot, Slot, u32),
    /// Begins a group of so many goals, which are called one after another from the place on.
    AllocParcall(u8, u32),
    /// Adds the goal of this number, from 1.
    PushGoal(u8, u32),
    /// Runs the group's goals, side by side.
    WaitAll,
}
