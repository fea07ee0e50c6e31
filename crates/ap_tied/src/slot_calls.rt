//! Laws of the slots of the frame that comes first.

ghost use Rattle.ap_tied.specs.SlotCalls.{SlotCallsLaw, StopCallsLaw};

/// A slot that begins, answers, ends, or is redone is an event of the core.
pub fn slot_calls_law()
    ensures { SlotCallsLaw }
{}

/// A slot that is stopped, or given back, is that in the core.
pub fn stop_calls_law()
    ensures { StopCallsLaw }
{}
