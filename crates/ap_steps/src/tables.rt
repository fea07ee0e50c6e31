//! What stands at a place of code.

ghost use Rattle.std.specs.Prelude.{◌≡◌, slice_get, None, Some, IfSome};

use ap_instr::{Code, Instr};

/// The instruction at a place. It is lent, so that of its parts those alone are read that are needed.
#[inline(always)]
pub fn instruction_in(instructions: &[Instr], at: usize) -> Option<&Instr>
    ensures none { result ≡ None → slice_get instructions.now at ≡ None }
    ensures some { IfSome result (λ instr. slice_get instructions.now at ≡ Some instr.now) }
{
    instructions.get(at)
}

/// An integer of the code's table.
#[inline]
pub fn integer_at(code: &Code, i: u32) -> Option<i64>
    ensures { result ≡ slice_get code.now.integers i }
{
    code.integers().get(i as usize).copied()
}
