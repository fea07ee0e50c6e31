//! Laws of machines at places in code. Each is the contract of a function that does nothing.

ghost use Rattle.ap_steps.specs.Standing.{EntryLaw, CallLaw};
ghost use Rattle.ap_steps.specs.Ways.{JumpLaw};

/// Entering the code of a clause from a call is resolution with the clause.
pub fn entry_law()
    ensures { EntryLaw }
{}

/// A call, the last call of a clause and coming back from a call keep what a machine stands for.
pub fn call_law()
    ensures { CallLaw }
{}

/// A jump keeps what the code asks for.
pub fn jump_law()
    ensures { JumpLaw }
{}
