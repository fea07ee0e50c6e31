//! Frames.

ghost use Rattle.std.specs.Prelude.{◌≡◌, ℕ, ◌+◌, ◌-◌, ◌<◌, ◌≤◌, Bool, true, false, not, nat_lt, if◌then◌else◌, IfOk, OnErr, IfSome, MatchOption, Option, Some, None, length, is_some};
ghost use Rattle.ap_frames.specs.Slots.{is_running, is_startable, may_be_given_back, is_local, is_replayed, section_of};
ghost use Rattle.ap_frames.specs.Rows.{row, fresh, IsPlace, IsAt, slot_at, of_slot, stood, opened, answered, stopped, with_round};
ghost use Rattle.ap_frames.specs.Verdicts.{verdict, next_redo};
ghost use Rattle.ap_frames.specs.declared.frame.Round.TheVariants.{Closed as ClosedRound};
ghost use Rattle.ap_frames.specs.declared.slots.Stand.TheVariants.{Running as RunningStand, Ended as EndedStand};
ghost use Rattle.ap_frames.specs.declared.slots.Run.TheVariants.{First as FirstRun};
ghost use Rattle.ap_frames.specs.declared.slots.Ending.TheVariants.{Failed as FailedEnding, Spent as SpentEnding, Raised as RaisedEnding};

use crate::rounds::next_redo;
use crate::slots::{Answer, Ending, Recording, Run, Slot, Stand};
use crate::verdict::{Verdict, judge};
use ap_term::{Fault, NoMemory};
use std::mem;

/// How a frame's round stands.
#[derive(Debug, Clone, Copy, PartialEq, Eq)]
pub enum Round {
    First,
    /// The first one, in which slots were drained: what was charged before the newest of them ran on.
    Draining(u64),
    /// One after a redo, of that slot.
    Later(usize),
    Closed,
}

/// Goals that run side by side. Its slots count from 1.
///
/// The fields are public and there is no model, since a section holds frames whose slots hold sections.
#[derive(Drop)]
pub struct Frame<S, T> {
    /// What the round was begun with.
    pub rest: u64,
    pub round: Round,
    /// Whatever its owner noted.
    pub mark: Option<(u64, u64)>,
    pub slots: Vec<Slot<S, T>>,
}

/// A ready slot.
fn fresh<S, T>(is_loud: bool) -> Slot<S, T>
    ensures { result ≡ fresh S T is_loud }
{
    Slot {
        stand: Stand::Ready,
        is_loud,
        recording: Recording::Growing,
        tuples: None,
        mark: None,
    }
}

impl<S: Drop, T: Drop> Frame<S, T> {
    /// A first round of n ready slots with that rest, in the memory of a list whose slots are dropped; the other list says of each
    /// goal whether it may meet a fault.
    #[tactic(auto, using(crate::proofs::Numbered::fresh_rules))]
    pub fn open(
        mut slots: Vec<Slot<S, T>>,
        n: usize,
        rest: u64,
        loud: &[bool],
    ) -> Result<Frame<S, T>, NoMemory>
        requires { length loud.now ≡ n }
        ensures { IfOk result (λ f. row f ≡ opened S T rest loud.now) }
    {
        slots.clear();
        for i in 0..n {
            slots.push(fresh(loud[i]))?;
        }
        Ok(Frame {
            rest,
            round: Round::First,
            mark: None,
            slots,
        })
    }

    /// How the open round stands; `Wait` in a closed one.
    pub fn verdict(&self) -> Verdict
        ensures { result ≡ verdict (row self.now) }
    {
        judge(self.rest, self.round, &self.slots)
    }

    /// The rightmost slot that still has a choice point; None where none has.
    pub fn next_redo(&self) -> Option<usize>
        ensures { result ≡ next_redo self.now.slots.items }
    {
        next_redo(&self.slots)
    }

    /// A slot stands otherwise: how it stood.
    #[tactic(auto, using(crate::proofs::Places::place_rules))]
    pub(crate) fn replace(&mut self, i: usize, y: Stand<S>) -> Stand<S>
        requires place { IsPlace i (row self.old) }
        ensures was { of_slot (λ x. Some x.stand) None (slot_at i (row self.old)) ≡ Some result }
        ensures stands { row self.new ≡ stood i y (row self.old) }
    {
        mem::replace(&mut self.slots[i - 1].stand, y)
    }

    fn stand(&mut self, i: usize, y: Stand<S>)
        requires place { IsPlace i (row self.old) }
        ensures { row self.new ≡ stood i y (row self.old) }
    {
        let _was = self.replace(i, y);
    }

    /// A slot's goal runs.
    pub fn set_running(&mut self, i: usize)
        requires place { IsPlace i (row self.old) }
        requires startable { IsAt is_startable i (row self.old) }
        ensures { row self.new ≡ stood i (RunningStand FirstRun) (row self.old) }
    {
        self.stand(i, Stand::Running(Run::First));
    }

    /// A slot has an answer, at which its section stands and which cost so much in this round.
    pub fn put_answer(&mut self, i: usize, s: S, spent: u64, more: bool)
        requires place { IsPlace i (row self.old) }
        requires runs { IsAt is_running i (row self.old) }
        ensures { row self.new ≡ stood i (answered (Some s) spent more) (row self.old) }
    {
        self.stand(
            i,
            Stand::Answered(Answer {
                section: Some(s),
                cost: spent,
                has_more: more,
            }),
        );
    }

    /// A slot that runs in its owner's own section has an answer, which cost so much in this round.
    pub fn put_local(&mut self, i: usize, spent: u64, more: bool)
        requires place { IsPlace i (row self.old) }
        requires runs { IsAt is_running i (row self.old) }
        ensures { row self.new ≡ stood i (answered None spent more) (row self.old) }
    {
        self.stand(
            i,
            Stand::Answered(Answer {
                section: None,
                cost: spent,
                has_more: more,
            }),
        );
    }

    /// A slot's goal has no answer left.
    pub fn put_failed(&mut self, i: usize, spent: u64)
        requires place { IsPlace i (row self.old) }
        requires runs { IsAt is_running i (row self.old) }
        ensures { row self.new ≡ stood i (EndedStand FailedEnding spent) (row self.old) }
    {
        self.stand(i, Stand::Ended(Ending::Failed, spent));
    }

    /// A slot's goal has spent the whole rest that it was given.
    pub fn put_spent(&mut self, i: usize, spent: u64)
        requires place { IsPlace i (row self.old) }
        requires runs { IsAt is_running i (row self.old) }
        ensures { row self.new ≡ stood i (EndedStand SpentEnding spent) (row self.old) }
    {
        self.stand(i, Stand::Ended(Ending::Spent, spent));
    }

    /// A slot's goal has met a fault.
    pub fn put_raised(&mut self, i: usize, spent: u64, fault: Fault)
        requires place { IsPlace i (row self.old) }
        requires runs { IsAt is_running i (row self.old) }
        ensures { row self.new ≡ stood i (EndedStand (RaisedEnding fault) spent) (row self.old) }
    {
        self.stand(i, Stand::Ended(Ending::Raised(fault), spent));
    }

    /// A slot has stopped, as it was asked to; one that wasn't asked, and runs from its goal on, is given back.
    pub fn put_stopped(&mut self, i: usize, spent: u64, asked: bool)
        requires place { IsPlace i (row self.old) }
        requires runs { IsAt is_running i (row self.old) }
        requires first { asked ≡ false → IsAt may_be_given_back i (row self.old) }
        ensures { row self.new ≡ stood i (stopped S asked spent) (row self.old) }
    {
        if asked {
            self.stand(i, Stand::Ended(Ending::Stopped, spent));
        } else {
            self.stand(i, Stand::GivenBack);
        }
    }

    /// The round is over: it was joined or broken.
    pub fn close(&mut self)
        ensures { row self.new ≡ with_round ClosedRound (row self.old) }
    {
        self.round = Round::Closed;
    }

    /// The section that slot i holds.
    pub fn section(&self, i: usize) -> Option<&S>
        requires place { IsPlace i (row self.now) }
        ensures { MatchOption result (of_slot section_of None (slot_at i (row self.now)) ≡ None) (λ s. of_slot section_of None (slot_at i (row self.now)) ≡ Some s.now) }
    {
        match &self.slots[i - 1].stand {
            Stand::Answered(answer) => answer.section.as_ref(),
            _ => None,
        }
    }

    /// Whether slot i was answered in its owner's own section.
    pub fn is_local(&self, i: usize) -> bool
        requires place { IsPlace i (row self.now) }
        ensures { result ≡ of_slot is_local false (slot_at i (row self.now)) }
    {
        match &self.slots[i - 1].stand {
            Stand::Answered(answer) => answer.section.is_none(),
            _ => false,
        }
    }

    /// Whether slot i stands at a stored answer.
    pub fn is_replayed(&self, i: usize) -> bool
        requires place { IsPlace i (row self.now) }
        ensures { result ≡ of_slot is_replayed false (slot_at i (row self.now)) }
    {
        matches!(&self.slots[i - 1].stand, Stand::Replayed(_))
    }
}
