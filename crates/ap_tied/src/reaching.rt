//! Laws of a section's own moves.

ghost use Rattle.ap_tied.specs.Reaching.{BeginningLaw, ReachingLaw};

/// Turns, forks, groups that are gone past and frames that are dropped are events of the core.
pub fn reaching_law()
    ensures { ReachingLaw }
{}

/// Ties a section that begins to the task of its goal alone.
pub fn beginning_law()
    ensures { BeginningLaw }
{}
