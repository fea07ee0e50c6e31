//! Answers that a frame stores, to give them again in place of a search.

ghost use Rattle.std.specs.Prelude.{ℕ, ◌-◌, length, None, Some, Bool, false, MatchResult, MatchOption, if◌then◌else◌, ◌≡◌, ◌<◌, ◌≤◌, ◌++◌, ◌∷◌, [], IfOk, OnOk, OnErr, not, nat_lt};
ghost use Rattle.std.specs.List.{list_any};
ghost use Rattle.ap_frames.specs.declared.records.Kept.TheVariants.{Kept as KeptIt, Dropped as DroppedIt};
ghost use Rattle.ap_frames.specs.Slots.{listed, has_more, is_recording, stands_at_stored, replayed_of};
ghost use Rattle.ap_frames.specs.Rows.{row, IsPlace, IsAt, slot_at, of_slot, with_slot};
ghost use Rattle.ap_frames.specs.Records.{stored, stored_at, storing, is_new, is_to_keep, is_news, IsAfter, given_up, HasOneMore, without_record};

use crate::frame::{Frame, Round};
use crate::one_slot::{count_of, has_more, is_recording};
use crate::slots::{Recording, Slot, Stand};
use ap_term::NoMemory;
use std::alloc::Global;

/// The most answers that the slots of one frame store together.
pub const MOST_TUPLES: usize = 65536;

/// What became of an answer that was to be stored.
#[derive(Debug, Clone, Copy, PartialEq, Eq)]
pub enum Kept {
    Kept,
    /// The frame is full, and the slot's record is given up.
    Dropped,
}

/// Whether the slots store as many answers as a frame may.
#[tactic(auto, using(crate::proofs::Walks::walk_rules))]
fn is_full<S, T>(slots: &[Slot<S, T>]) -> bool
    ensures { result ≡ not (nat_lt (stored slots.now) 65536) }
{
    let mut total = 0;
    for x in slots {
        let count = count_of(x);
        if count >= MOST_TUPLES - total {
            return true;
        }
        total += count;
    }
    false
}

/// The tuples with one more behind them.
fn one_more<T: Drop>(alloc: Global, tuples: Option<Vec<T>>, tuple: T) -> Result<Vec<T>, NoMemory>
    ensures { IfOk result (λ v. v.items ≡ listed tuples ++ tuple ∷ []) }
{
    let mut tuples = match tuples {
        Some(tuples) => tuples,
        None => Vec::new(alloc),
    };
    tuples.push(tuple)?;
    Ok(tuples)
}

/// Stores one answer more; where memory ran out the record is given up.
fn add<S, T: Drop>(alloc: Global, x: &mut Slot<S, T>, tuple: T) -> Result<(), NoMemory>
    ensures stored { OnOk result (HasOneMore tuple x.old x.new) }
    ensures given_up { OnErr result (x.new ≡ without_record x.old) }
{
    match one_more(alloc, x.tuples.take(), tuple) {
        Ok(tuples) => {
            x.tuples = Some(tuples);
            Ok(())
        }
        Err(error) => {
            x.recording = Recording::GivenUp;
            Err(error)
        }
    }
}

/// Whether the answer of slot i came in this round.
fn is_new(i: usize, round: Round) -> bool
    ensures { result ≡ is_new i round }
{
    match round {
        Round::First | Round::Draining(_) => true,
        Round::Later(redone) => i == redone,
        Round::Closed => false,
    }
}

/// Whether a slot has an answer of its own, and its answers are stored.
fn is_news<S, T>(x: &Slot<S, T>) -> bool
    ensures { result ≡ is_news x.now }
{
    matches!(x.stand, Stand::Answered(_)) && is_recording(x)
}

fn some_has_more<S, T>(slots: &[Slot<S, T>]) -> bool
    ensures { result ≡ list_any has_more slots.now }
{
    slots.iter().any(|x| has_more(x))
}

impl<S: Drop, T: Drop> Frame<S, T> {
    /// Whether the answer of slot i is to be stored: it is new, the slot's record isn't given up, and a slot to the left has
    /// an alternative, since without one no answer is asked for again.
    pub fn is_to_keep(&self, i: usize) -> bool
        requires place { IsPlace i (row self.now) }
        ensures { result ≡ is_to_keep i (row self.now) }
    {
        is_new(i, self.round) && is_news(&self.slots[i - 1]) && some_has_more(&self.slots[..i - 1])
    }

    #[tactic(auto, using(crate::proofs::Places::place_rules))]
    fn give_up(&mut self, i: usize)
        requires place { IsPlace i (row self.old) }
        ensures { row self.new ≡ given_up i (row self.old) }
    {
        let slot = &mut self.slots[i - 1];
        slot.recording = Recording::GivenUp;
        slot.tuples = None;
    }

    /// Stores a slot's answer behind those that it has stored. `Dropped`: the frame is full. After that, and where memory ran
    /// out, the slot's record is given up for the life of the frame.
    #[tactic(auto, using(crate::proofs::Places::place_rules))]
    pub fn keep(&mut self, alloc: Global, i: usize, tuple: T) -> Result<Kept, NoMemory>
        requires place { IsPlace i (row self.old) }
        requires records { IsAt is_recording i (row self.old) }
        ensures full { IfOk result (λ k. k ≡ (if nat_lt (stored self.old.slots.items) 65536 then KeptIt else DroppedIt)) }
        ensures after { MatchResult result (λ k. IsAfter k i tuple (row self.old) (row self.new)) (λ _. row self.new ≡ given_up i (row self.old)) }
    {
        if is_full(&self.slots) {
            self.give_up(i);
            return Ok(Kept::Dropped);
        }
        add(alloc, &mut self.slots[i - 1], tuple)?;
        Ok(Kept::Kept)
    }

    /// The stored answer that slot i stands at.
    pub fn replayed(&self, i: usize) -> &T
        requires place { IsPlace i (row self.now) }
        requires stored { IsAt stands_at_stored i (row self.now) }
        ensures { of_slot replayed_of None (slot_at i (row self.now)) ≡ Some result.now }
    {
        let slot = &self.slots[i - 1];
        let Stand::Replayed(place) = slot.stand else {
            unreachable!()
        };
        match &slot.tuples {
            Some(tuples) => &tuples[place],
            None => unreachable!(),
        }
    }
}
