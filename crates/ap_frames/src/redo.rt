//! How a slot of a frame is redone, drained or replayed, and how the slots behind it are readied.

ghost use Rattle.std.specs.Prelude.{◌≡◌, ℕ, ◌+◌, ◌-◌, ◌<◌, ◌≤◌, true, Some, None, length};
ghost use Rattle.ap_frames.specs.declared.slots.Stand.TheVariants.{Replayed as ReplayedStand};
ghost use Rattle.ap_frames.specs.Slots.{section_of, section_at, hands_over, holds_more, is_local_with_more, is_replayed_with_more};
ghost use Rattle.ap_frames.specs.Rows.{row, IsPlace, IsAt, slot_at, of_slot, stood};
ghost use Rattle.ap_frames.specs.Rounds.{new_round, begun_in, run_in, resumed, restarted, replayed_after, next_at, replayed_next};

use crate::frame::{Frame, Round};
use crate::one_slot::count_of;
use crate::rounds::{ready_behind, replay_behind, reset_all};
use crate::slots::{Answer, Run, Stand};

/// The section of an answer.
fn section_in<S: Drop>(stand: Stand<S>) -> S
    requires { hands_over stand ≡ true }
    ensures { section_at stand ≡ Some result }
{
    match stand {
        Stand::Answered(
            Answer {
                section: Some(s),
                ..
            },
        ) => s,
        _ => unreachable!(),
    }
}

impl<S: Drop, T: Drop> Frame<S, T> {
    /// A round with that rest begins, in which slot i is redone.
    fn begin_round(&mut self, i: usize, rest: u64)
        ensures { row self.new ≡ new_round i rest (row self.old) }
    {
        self.rest = rest;
        self.round = Round::Later(i);
        reset_all(i, &mut self.slots);
    }

    /// A closed frame begins a round, an open one drains: how slot i runs on.
    fn begin(&mut self, i: usize, rest: u64) -> Run
        ensures begun { row self.new ≡ begun_in self.old.round i rest (row self.old) }
        ensures run { result ≡ run_in self.old.round }
    {
        if self.round == Round::Closed {
            self.begin_round(i, rest);
            return Run::Redone;
        }
        self.round = Round::Draining(self.rest.saturating_sub(rest));
        Run::Drained
    }

    /// Hands over a slot's section, which runs on with that rest. In a closed frame it is redone: a round begins in which costs
    /// count anew and the slots right of it wait. In an open one it is drained: the other slots stay, and what was charged is
    /// what the rest has lost.
    #[tactic(auto, using(crate::proofs::Begun::begun_rules))]
    pub fn take_section(&mut self, i: usize, rest: u64) -> S
        requires place { IsPlace i (row self.old) }
        requires more { IsAt holds_more i (row self.old) }
        ensures section { of_slot section_of None (slot_at i (row self.old)) ≡ Some result }
        ensures runs { row self.new ≡ resumed i rest (row self.old) }
    {
        let run = self.begin(i, rest);
        section_in(self.replace(i, Stand::Running(run)))
    }

    /// Does what `take_section` does, of a slot that was answered in its owner's own section and hands none over.
    #[tactic(auto, using(crate::proofs::Begun::begun_rules))]
    pub fn redo_local(&mut self, i: usize, rest: u64)
        requires place { IsPlace i (row self.old) }
        requires more { IsAt is_local_with_more i (row self.old) }
        ensures { row self.new ≡ resumed i rest (row self.old) }
    {
        let run = self.begin(i, rest);
        let _was = self.replace(i, Stand::Running(run));
    }

    /// The place of a slot's next stored answer.
    fn next_stored(&self, i: usize) -> usize
        requires place { IsPlace i (row self.now) }
        requires more { IsAt is_replayed_with_more i (row self.now) }
        ensures { next_at (slot_at i (row self.now)) ≡ ReplayedStand result }
    {
        let slot = &self.slots[i - 1];
        let count = count_of(slot);
        match slot.stand {
            Stand::Replayed(place) if place < count => place + 1,
            _ => unreachable!(),
        }
    }

    /// A round with that rest begins, in which a slot's next stored answer is its answer.
    #[tactic(auto, using(crate::proofs::Begun::begun_rules))]
    pub fn replay_next(&mut self, i: usize, rest: u64)
        requires place { IsPlace i (row self.old) }
        requires more { IsAt is_replayed_with_more i (row self.old) }
        ensures { row self.new ≡ replayed_next i rest (row self.old) }
    {
        let next = self.next_stored(i);
        self.begin_round(i, rest);
        let _was = self.replace(i, Stand::Replayed(next));
    }

    /// The slots right of a redone one, which has answered, are ready.
    pub fn restart_after(&mut self, i: usize)
        requires place { IsPlace i (row self.old) }
        ensures { row self.new ≡ restarted i (row self.old) }
    {
        ready_behind(i, &mut self.slots);
    }

    /// The slots right of a redone one, which has answered, stand at the first of the answers that they have stored, or are
    /// ready where they have none.
    pub fn replay_after(&mut self, i: usize)
        requires place { IsPlace i (row self.old) }
        ensures { row self.new ≡ replayed_after i (row self.old) }
    {
        replay_behind(i, &mut self.slots);
    }
}
