//! What stands of every core that a list of events leads to, and what the conditions of its events mean.

ghost use Rattle.ap_core.specs.ForkLaw.{ForkLaw};
ghost use Rattle.ap_core.specs.Heeding.{HeedLaw};
ghost use Rattle.ap_core.specs.Lifting.{LiftLaw};
ghost use Rattle.ap_core.specs.Reached.{ReachedLaw};
ghost use Rattle.ap_core.specs.Rows.{RowsLaw};

/// Whatever list of events is allowed, what was emitted begins the answers of sequential search and rejoins it.
pub fn reached_law()
    ensures { ReachedLaw }
{}

/// Goals are forked where their checks hold and they share no variable, two by two.
pub fn fork_law()
    ensures { ForkLaw }
{}

/// A test that tells the loud goals tells each one that may meet a fault.
pub fn heed_law()
    ensures { HeedLaw }
{}

/// An event of an inner task is that event, at its path, of the task outside of it.
pub fn lift_law()
    ensures { LiftLaw }
{}

/// The definitions compute: schedules of small programs.
pub fn rows_law()
    ensures { RowsLaw }
{}
