//! What is asked of one slot.

ghost use Rattle.std.specs.Prelude.{◌≡◌, length};
ghost use Rattle.ap_frames.specs.Slots.{has_answer, has_failed, has_more, is_loud_with_more, is_quiet, is_safe, tuples_of, cost_of, is_recording};

use crate::slots::{Ending, Recording, Slot, Stand};

/// Whether it stands at an answer.
pub fn has_answer<S, T>(x: &Slot<S, T>) -> bool
    ensures { result ≡ has_answer x.now }
{
    matches!(&x.stand, Stand::Answered(_) | Stand::Replayed(_))
}

/// Whether its goal has no answer left.
pub fn has_failed<S, T>(x: &Slot<S, T>) -> bool
    ensures { result ≡ has_failed x.now }
{
    matches!(&x.stand, Stand::Ended(Ending::Failed, _))
}

/// How many tuples its record has.
pub fn count_of<S, T>(x: &Slot<S, T>) -> usize
    ensures { result ≡ length (tuples_of x.now) }
{
    match &x.tuples {
        Some(tuples) => tuples.len(),
        None => 0,
    }
}

/// Whether it stands at an answer and an alternative is left.
pub fn has_more<S, T>(x: &Slot<S, T>) -> bool
    ensures { result ≡ has_more x.now }
{
    match &x.stand {
        Stand::Answered(answer) => answer.has_more,
        Stand::Replayed(place) => {
            let count = count_of(x);
            *place < count && 1 < count - *place
        }
        _ => false,
    }
}

/// Whether an alternative is left that may meet a fault.
pub fn is_loud_with_more<S, T>(x: &Slot<S, T>) -> bool
    ensures { result ≡ is_loud_with_more x.now }
{
    x.is_loud && has_more(x)
}

/// Whether its goal can meet no fault.
pub fn is_quiet<S, T>(x: &Slot<S, T>) -> bool
    ensures { result ≡ is_quiet x.now }
{
    !x.is_loud
}

/// Whether it stands at an answer, and no alternative is left that may meet a fault.
pub fn is_safe<S, T>(x: &Slot<S, T>) -> bool
    ensures { result ≡ is_safe x.now }
{
    has_answer(x) && !is_loud_with_more(x)
}

/// What it counts in a sum: its cost in this round, 0 where it has neither an answer nor ended.
pub fn cost_of<S, T>(x: &Slot<S, T>) -> u64
    ensures { result ≡ cost_of x.now }
{
    match &x.stand {
        Stand::Answered(answer) => answer.cost,
        Stand::Ended(_, cost) => *cost,
        _ => 0,
    }
}

/// Whether its answers are still stored as they come.
pub fn is_recording<S, T>(x: &Slot<S, T>) -> bool
    ensures { result ≡ is_recording x.now }
{
    matches!(x.recording, Recording::Growing)
}
