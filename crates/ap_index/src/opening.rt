//! Code that asks for a goal whatever the registers hold: where instructions lead to.

ghost use Rattle.std.specs.Prelude.{◌≡◌, ℕ, ◌+◌, ◌∷◌, slice_get, List, true, false};
ghost use Rattle.ap_instr.specs.Step.{Step, step_of};
ghost use Rattle.ap_instr.specs.Steps.{steps_from};
ghost use Rattle.ap_instr.specs.Runs.{IsOpen, AsksOpenly};
ghost use Rattle.ap_needs.specs.Needs.{is_transfer};
ghost use Rattle.ap_index.specs.Opening.{IsWayByCall, IsApart, IsOpenInside, LeadsBy};

use crate::key::{instruction_at, integer_at};
use ap_instr::{Code, Instr, Slot};

/// Where an instruction leads.
#[derive(Clone, Copy)]
pub enum Way {
    /// To the next one, whatever the registers hold.
    On,
    /// To the so many arguments of a structure, which is put in an X register.
    Structure(u8, u32),
    /// To a goal, to what belongs to a group or a jump, behind which the code is open, or to the end of the clause.
    Goal,
    /// Elsewhere, or nowhere, or that isn't told by the instruction alone.
    Other,
}

/// Where a call of a predicate leads.
#[inline(always)]
fn way_by_call(code: &Code, number: u32) -> Way
    ensures { IsWayByCall (slice_get code.now.predicates number) result }
{
    match code.predicates().get(number as usize) {
        Some(_) => Way::Goal,
        None => Way::Other,
    }
}

/// Where an instruction leads.
#[inline(always)]
pub fn way_of(code: &Code, instr: Instr) -> Way
    ensures { LeadsBy code.now instr result }
{
    match instr {
        Instr::GetVariable(_, _) => Way::On,
        Instr::PutVariable(_, _) => Way::On,
        Instr::PutValue(_, _) => Way::On,
        Instr::PutConstant(_, _) => Way::On,
        Instr::PutInteger(index, _) => match integer_at(code, index) {
            Some(_) => Way::On,
            None => Way::Other,
        },
        Instr::PutStructure(_, count, a) => Way::Structure(count, a),
        Instr::Allocate(_) => Way::On,
        Instr::Deallocate => Way::On,
        Instr::Call(number) => way_by_call(code, number),
        Instr::Execute(number) => way_by_call(code, number),
        Instr::Proceed => Way::Goal,
        Instr::Builtin(_) => Way::Goal,
        Instr::CheckGround(_, _) => Way::Goal,
        Instr::CheckIndep(_, _, _) => Way::Goal,
        Instr::AllocParcall(_, _) => Way::Goal,
        Instr::PushGoal(_, number) => way_by_call(code, number),
        Instr::WaitAll => Way::Goal,
        Instr::Jump(_) => Way::Goal,
        _ => Way::Other,
    }
}

/// Whether a register isn't the X register with a number.
#[inline(always)]
fn is_apart(v: Slot, number: u32) -> bool
    ensures { result ≡ true → IsApart v number }
{
    match v {
        Slot::X(n) => n != number,
        Slot::Y(_) => true,
    }
}

/// Whether an instruction can always add an argument to a structure that an X register holds.
#[inline(always)]
fn adds_argument(code: &Code, instr: Instr, whole: u32) -> bool
    ensures goes_on { result ≡ true → is_transfer instr ≡ false }
    ensures opens { result ≡ true → (n : ℕ) (is : List Step) → IsOpenInside whole n is → IsOpenInside whole (n + 1) (step_of code.now instr ∷ is) }
{
    match instr {
        Instr::UnifyVariable(v) => is_apart(v, whole),
        Instr::UnifyValue(v) => is_apart(v, whole),
        Instr::UnifyConstant(_) => true,
        Instr::UnifyInteger(index) => match integer_at(code, index) {
            Some(_) => true,
            None => false,
        },
        _ => false,
    }
}

/// Whether instructions that can always be taken lead from a place to a goal, or to the end of the clause.
#[inline(always)]
pub fn is_open(code: &Code, at: usize) -> bool
    ensures { result ≡ true → AsksOpenly (steps_from code.now at) → IsOpen (steps_from code.now at) }
{
    let mut left: u8 = 0;
    let mut whole: u32 = 0;
    for place in at..code.instructions().len() {
        let Some(instr) = instruction_at(code, place) else {
            return false;
        };
        if left > 0 {
            if !adds_argument(code, instr, whole) {
                return false;
            }
            left -= 1;
            continue;
        }
        match way_of(code, instr) {
            Way::On => {}
            Way::Structure(count, a) => {
                left = count;
                whole = a;
            }
            Way::Goal => return true,
            Way::Other => return false,
        }
    }
    false
}
