//! Tasks: what is left of a goal's search. A clause sees each as a value of `specs/Tasks.antt`, by `specs/TaskView.antt`.

use ap_spec::State;
use ap_term::{Args, Fault, Term};

/// How a frame's round stands: the first one, one after a redo, or none that is open.
#[derive(Debug, Clone, Copy, PartialEq, Eq)]
pub enum Round {
    First,
    Later,
    Closed,
}

/// How a slot without a task stands.
#[derive(Debug, Clone, Copy, PartialEq, Eq)]
pub enum Idle {
    Ready,
    /// Right of a redone slot that hasn't answered.
    Waiting,
    GivenBack,
}

/// How a slot with a task and without an answer stands.
#[derive(Debug, Clone, Copy, PartialEq, Eq)]
pub enum Busy {
    Running,
    /// Running, and asked to stop.
    Stopping,
    Failed,
    /// Its budget is spent.
    Spent,
    Stopped,
    /// It has met a fault.
    Raised(Fault),
}

/// How the root stands.
#[derive(Debug, Clone, Copy, PartialEq, Eq)]
pub enum Status {
    GoingOn,
    /// Its budget is spent.
    NoBudget,
    HasRaised(Fault),
}

/// An answer of a goal that runs alone: the instance of its arguments, the first unused variable, the calls made.
#[derive(Drop)]
pub struct Answer {
    pub tuple: Args,
    pub next: u64,
    pub steps: u64,
}

/// A search: how many calls it may still make, how many it has made, and its alternatives.
#[cycle(tasks)]
#[derive(Drop)]
pub struct Task {
    pub rest: u64,
    pub spent: u64,
    pub first: Option<Alternative>,
    /// The alternatives behind the first one, the next of them last. None where there is no first one.
    pub behind: Vec<Alternative>,
}

/// A state, or a frame of goals that run side by side.
#[cycle(tasks)]
#[derive(Drop)]
pub enum Alternative {
    State(State),
    Frame {
        forked: State,
        round: Round,
        slots: Vec<Slot>,
    },
}

/// A goal of a frame.
#[cycle(tasks)]
#[derive(Drop)]
pub struct Slot {
    pub goal: Term,
    /// Whether the goal's answers are kept, to come again after a redo of a goal left of it.
    pub is_kept: bool,
    pub progress: Progress,
}

/// How far a slot's goal has come.
#[cycle(tasks)]
#[derive(Drop)]
pub enum Progress {
    Unbegun(Idle),
    /// All answers of the goal, which may come again.
    Stored {
        answers: Vec<Answer>,
        last: Option<Answer>,
    },
    Begun(Busy, Box<Task>),
    /// An answer, those before it, and what this round's work cost.
    Answered {
        earlier: Vec<Answer>,
        answer: Answer,
        task: Box<Task>,
        cost: u64,
    },
    /// The slot that is redone in this round, with what its task had spent before.
    Redone {
        earlier: Vec<Answer>,
        standing: Busy,
        task: Box<Task>,
        before: u64,
    },
    /// The redone slot has answered.
    Again {
        earlier: Vec<Answer>,
        answer: Answer,
        task: Box<Task>,
        cost: u64,
    },
    /// A slot left of a failed one, which runs on since it may meet a fault. Its answers are thrown away. `before` is what
    /// its task had spent by then, `cost` what the slots from it on had cost.
    Drained {
        earlier: Vec<Answer>,
        standing: Busy,
        task: Box<Task>,
        before: u64,
        cost: u64,
    },
}
