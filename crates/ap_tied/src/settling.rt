//! Laws of frames that are settled, and of sections that come to rest.

ghost use Rattle.ap_tied.specs.Settling.{RestingLaw, SettlingLaw};

/// Joins and breaks of the frame that comes first are events of the core.
pub fn settling_law()
    ensures { SettlingLaw }
{}

/// A section at an answer, at its end, or without budget stands for a task that is so.
pub fn resting_law()
    ensures { RestingLaw }
{}
