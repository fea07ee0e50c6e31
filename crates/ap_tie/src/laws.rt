//! Laws, each as the contract of a function that does nothing.

ghost use Rattle.ap_tie.specs.Answered.{AlikeLaw, AnswerSlotLaw};
ghost use Rattle.ap_tie.specs.Grouping.{MarkLaw, PushLaw};
ghost use Rattle.ap_tie.specs.Judged.{VerdictLaw};
ghost use Rattle.ap_tie.specs.Laws.{ForkLaw, InferLaw};
ghost use Rattle.ap_tie.specs.Open.{LiftLaw, OpenLaw};
ghost use Rattle.ap_tie.specs.Redone.{RedoLaw};
ghost use Rattle.ap_tie.specs.Rejoined.{MeetLaw, RejoinLaw};
ghost use Rattle.ap_tie.specs.Settled.{BreakLaw, JoinLaw};
ghost use Rattle.ap_tie.specs.Slots.{SlotLaw};

/// Turns of the model are as many calls of the core.
pub fn infer_law()
    ensures { InferLaw }
{}

/// A group that comes first, and whose checks hold, is a fork of the core.
pub fn fork_law()
    ensures { ForkLaw }
{}

/// An event of a slot is that of the section that stands for its task.
pub fn slot_law()
    ensures { SlotLaw }
{}

/// An answer of a slot leaves what holds its alternatives.
pub fn answer_slot_law()
    ensures { AnswerSlotLaw }
{}

/// The slots of a section stand as the core's, so verdicts on them are the core's.
pub fn alike_law()
    ensures { AlikeLaw }
{}

/// Puts the joined state before its frame: the section then stands for what a join of the core leaves.
pub fn join_law()
    ensures { JoinLaw }
{}

/// Drops a frame whose round has failed, or closes it: the section then stands for what a break of the core leaves.
pub fn break_law()
    ensures { BreakLaw }
{}

/// Runs a slot of a closed frame on: the section then stands for what a redo of the core leaves.
pub fn redo_law()
    ensures { RedoLaw }
{}

/// Makes an event of a slot's task one of the section's task: the section stands for what it leaves as before.
pub fn lift_law()
    ensures { LiftLaw }
{}

/// Makes an event of the innermost of open sections one of the outermost one's task, at the path through the slots that run.
pub fn open_law()
    ensures { OpenLaw }
{}

/// Judges the frame that comes first by its slots: what the verdict says is an event of the core, at that cost.
pub fn verdict_law()
    ensures { VerdictLaw }
{}

/// Meets the answers of a group's goals one after another: the cells are then those of the fork with all of them met, and an
/// answer is refused only where no map meets it beside those before it.
pub fn meet_law()
    ensures { MeetLaw }
{}

/// Copies a group's answers in: they can be met together, and the machine behind the group then stands for the joined state
/// alone.
pub fn rejoin_law()
    ensures { RejoinLaw }
{}

/// Passes over a group's marks: a check of the code is the first one left, and behind the last mark is the conjunction.
pub fn mark_law()
    ensures { MarkLaw }
{}

/// Pushes a group's goals: what is stood for stays, and at the group's end it is the fork's.
pub fn push_law()
    ensures { PushLaw }
{}
