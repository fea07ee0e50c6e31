//! Slots.

use ap_term::Fault;

/// How a slot runs.
#[derive(Debug, Clone, Copy, PartialEq, Eq)]
pub enum Run {
    /// From its goal on.
    First,
    /// On from an answer, in a round after the first.
    Redone,
    /// On from an answer, in the first round: its further answers are thrown away.
    Drained,
}

/// Why a slot that ran has no answer.
#[derive(Debug, Clone, Copy, PartialEq, Eq)]
pub enum Ending {
    /// The goal has none left.
    Failed,
    /// The rest that it was given is spent.
    Spent,
    /// It was asked to stop.
    Stopped,
    /// It met a fault.
    Raised(Fault),
}

/// An answer that a slot stands at.
#[derive(Drop)]
pub struct Answer<S> {
    /// None where the goal ran in its owner's own section.
    pub section: Option<S>,
    /// What it cost in this round.
    pub cost: u64,
    /// Whether a choice point is left.
    pub has_more: bool,
}

/// How the goal of a slot stands in this round.
#[derive(Drop)]
pub enum Stand<S> {
    Ready,
    /// Right of a redone slot that hasn't answered.
    Waiting,
    Running(Run),
    Answered(Answer<S>),
    /// At so many tuples behind the first one of its record, at no cost.
    Replayed(usize),
    /// Why it ended, and what it spent in this round.
    Ended(Ending, u64),
    /// Nobody asked it to stop.
    GivenBack,
}

/// Whether a slot's answers are stored.
#[derive(Debug, Clone, Copy, PartialEq, Eq)]
pub enum Recording {
    /// Its search goes on.
    Growing,
    /// A slot to its left was redone, so its search is over.
    Whole,
    /// For the life of the frame.
    GivenUp,
}

/// The place of one goal of a frame.
#[derive(Drop)]
pub struct Slot<S, T> {
    pub stand: Stand<S>,
    /// Whether the goal may meet a fault.
    pub is_loud: bool,
    pub recording: Recording,
    /// The answers stored so far; None where none is.
    pub tuples: Option<Vec<T>>,
    /// Whatever its owner noted; no call but `set_mark` changes it.
    pub mark: Option<(u64, u64)>,
}
