//! Instructions that lead elsewhere than to the next one.

ghost use Rattle.std.specs.Prelude.{◌≡◌};
ghost use Rattle.ap_needs.specs.Needs.{is_transfer};

use ap_instr::Instr;

/// Whether an instruction leads anywhere else than to the next one.
pub(crate) fn is_transfer(instr: &Instr) -> bool
    ensures { result ≡ is_transfer instr.now }
{
    match *instr {
        Instr::Call(_) => true,
        Instr::Execute(_) => true,
        Instr::Proceed => true,
        Instr::Builtin(_) => true,
        Instr::Jump(_) => true,
        Instr::Fail => true,
        Instr::Try(_) => true,
        Instr::Retry(_) => true,
        Instr::Trust(_) => true,
        Instr::CheckGround(_, _) => true,
        Instr::CheckIndep(_, _, _) => true,
        Instr::AllocParcall(_, _) => true,
        Instr::PushGoal(_, _) => true,
        Instr::WaitAll => true,
        _ => false,
    }
}
