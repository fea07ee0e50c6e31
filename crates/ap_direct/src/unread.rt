//! Registers that the code from a place on doesn't read before it writes them.

ghost use Rattle.std.specs.Prelude.{◌≡◌, ℕ, ◌==◌, Bool, slice_get, true, MatchOption};
ghost use Rattle.ap_instr.specs.Builtin.{builtin_name, builtin_arity};
ghost use Rattle.ap_instr.specs.Step.{call, execute, push, builtin, with_predicate, step_of};
ghost use Rattle.ap_instr.specs.Steps.{steps_from};
ghost use Rattle.ap_direct.specs.Unread.{is_x, read_then, is_argument, use_in, Says, IsUnread};

use ap_instr::{Builtin, Code, Instr, Slot};

/// What an instruction does with an X register.
#[derive(Clone, Copy)]
pub enum Use {
    Reads,
    /// It is written, or lost, or the clause ends.
    Ends,
    Passes,
}

/// The instruction at a place.
pub(crate) fn instruction_at(code: &Code, at: usize) -> Option<Instr>
    ensures { result ≡ slice_get code.now.instructions at }
{
    code.instructions().get(at).copied()
}

fn is_x(v: Slot, r: u32) -> bool
    ensures { result ≡ is_x v r }
{
    match v {
        Slot::X(n) => n == r,
        Slot::Y(_) => false,
    }
}

fn is_argument(r: u32, n: u8) -> bool
    ensures { result ≡ is_argument r n }
{
    r < u32::from(n) + 1
}

fn read_then(reads: bool, ends: bool) -> Use
    ensures { result ≡ read_then reads ends }
{
    if reads {
        return Use::Reads;
    }
    if ends { Use::Ends } else { Use::Passes }
}

/// A use of an integer of the code's table.
fn listed(code: &Code, i: u32, found: Use) -> Use
    ensures { MatchOption (slice_get code.now.integers i) (result ≡ Use.Reads) (λ z. result ≡ found) }
{
    match code.integers().get(i as usize) {
        Some(_) => found,
        None => Use::Reads,
    }
}

/// A call of a predicate's arguments, behind which registers are lost or not.
fn called(code: &Code, number: u32, r: u32, ends: bool) -> Use
    ensures { MatchOption (slice_get code.now.predicates number) (result ≡ Use.Reads) (λ q. result ≡ read_then (is_argument r q.arity) ends) }
{
    match code.predicates().get(number as usize) {
        Some(predicate) => read_then(is_argument(r, predicate.arity), ends),
        None => Use::Reads,
    }
}

fn arity(builtin: Builtin) -> u8
    ensures { result ≡ builtin_arity builtin }
{
    match builtin {
        Builtin::True | Builtin::Fail => 0,
        Builtin::Relation(_) => 2,
    }
}

/// What an instruction does with an X register.
fn use_of(code: &Code, instr: Instr, r: u32) -> Use
    ensures { result ≡ use_in r (step_of code.now instr) }
{
    match instr {
        Instr::GetVariable(v, a) => read_then(a == r, is_x(v, r)),
        Instr::GetValue(v, a) => read_then(is_x(v, r) || a == r, false),
        Instr::GetConstant(_, a) => read_then(a == r, false),
        Instr::GetInteger(i, a) => listed(code, i, read_then(a == r, false)),
        Instr::GetStructure(_, _, a) => read_then(a == r, false),
        Instr::PutVariable(v, a) => read_then(false, is_x(v, r) || a == r),
        Instr::PutValue(v, a) => read_then(is_x(v, r), a == r),
        Instr::PutConstant(_, a) => read_then(false, a == r),
        Instr::PutInteger(i, a) => listed(code, i, read_then(false, a == r)),
        Instr::PutStructure(_, _, a) => read_then(false, a == r),
        Instr::UnifyVariable(v) => read_then(false, is_x(v, r)),
        Instr::UnifyValue(v) => read_then(is_x(v, r), false),
        Instr::UnifyConstant(_) => Use::Passes,
        Instr::UnifyInteger(i) => listed(code, i, Use::Passes),
        Instr::Allocate(_) => Use::Passes,
        Instr::Deallocate => Use::Passes,
        Instr::Call(number) => called(code, number, r, true),
        Instr::Execute(number) => called(code, number, r, true),
        Instr::Proceed => Use::Ends,
        Instr::Builtin(builtin) => read_then(is_argument(r, arity(builtin)), false),
        Instr::CheckGround(v, _) => read_then(is_x(v, r), false),
        Instr::CheckIndep(v, w, _) => read_then(is_x(v, r) || is_x(w, r), false),
        Instr::AllocParcall(_, _) => Use::Passes,
        Instr::PushGoal(_, number) => called(code, number, r, false),
        Instr::WaitAll => Use::Ends,
        _ => Use::Reads,
    }
}

/// Whether the code from a place on doesn't read an X register before it writes it. False where that isn't known.
pub(crate) fn is_unread(code: &Code, at: usize, r: u32) -> bool
    ensures { result ≡ true → IsUnread r (steps_from code.now at) }
{
    let mut place = at;
    'places: while let Some(instr) = instruction_at(code, place) {
        prove!(place < code.instructions().len());
        match use_of(code, instr, r) {
            Use::Reads => return false,
            Use::Ends => return true,
            Use::Passes => place += 1,
        }
    }
    false
}
