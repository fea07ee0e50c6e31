//! Laws, each as the contract of a function that does nothing.

ghost use Rattle.ap_parcall_laws.specs.Laws.{DrainLaw, EdgeLaw, RedoLaw, ReplayLaw, VerdictLaw};

/// The left edge of an open round is what the frame charges.
pub fn edge_law<S, T>()
    ensures { EdgeLaw S T }
{}

/// The verdicts are the core's, and a slot is redone just where the core has one with an alternative.
pub fn verdict_law<S, T>()
    ensures { VerdictLaw S T }
{}

/// A frame whose slot is redone stands as the core's after its redo.
pub fn redo_law<S, T>()
    ensures { RedoLaw S T }
{}

/// A frame whose slot is drained stands as the core's after that event.
pub fn drain_law<S, T>()
    ensures { DrainLaw S T }
{}

/// Replaying the slots right of a redone one that has answered is the core's event.
pub fn replay_law<S, T>()
    ensures { ReplayLaw S T }
{}
