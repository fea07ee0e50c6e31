//! Laws of the definitions, in the words of slots in a row. Each is the contract of a function that does nothing.

ghost use Rattle.ap_frames.specs.Laws.{EdgeLaw, VerdictLaw, RedoLaw};

/// The left edge is the sum of the costs up to and with the leftmost slot without an answer.
pub fn edge_law<S, T>()
    ensures { EdgeLaw S T }
{}

/// The slot that is redone has more, and none right of it has.
pub fn redo_law<S, T>()
    ensures { RedoLaw S T }
{}

/// Each verdict stands where the slots are as its case says.
pub fn verdict_law<S, T>()
    ensures { VerdictLaw S T }
{}
