//! The slots of the frame at which a section stands.

ghost use Rattle.std.specs.Prelude.{◌≡◌, ◌<◌, true, false, length, position, IfOk, IfSome, IfNone, Some};
ghost use Rattle.ap_instr.specs.Code.{Compiled};
ghost use Rattle.ap_frames.specs.declared.slots.Stand.TheVariants.{Running as RunningStand, Ended as EndedStand};
ghost use Rattle.ap_frames.specs.declared.slots.Run.TheVariants.{First as FirstRun};
ghost use Rattle.ap_frames.specs.declared.slots.Ending.TheVariants.{Failed as FailedEnding, Spent as SpentEnding};
ghost use Rattle.ap_frames.specs.Slots.{is_running, is_startable, may_be_given_back};
ghost use Rattle.ap_frames.specs.Rows.{stopped};
ghost use Rattle.ap_frames.specs.Verdicts.{rightmost};
ghost use Rattle.ap_tie.specs.Sections.{nothing, held};
ghost use Rattle.ap_tie.specs.Settled.{AreClosed};
ghost use Rattle.ap_tied.specs.Ties.{stack_in};
ghost use Rattle.ap_tied.specs.SlotCalls.{stood, answered};
ghost use Rattle.ap_section.specs.Views.{view_of};
ghost use Rattle.ap_section.specs.Ready.{IsReady};
ghost use Rattle.ap_section.specs.Slots.{IsAtFrame, IsPlaceIn, IsFirstReady, IsReadyAt, HasNoReady, IsGoalOf, IsKnownAt, IsParcelOf, is_ready, last_ready_in, told_of, verdict_in, redone_in, readied_in};

use crate::section::Section;
use ap_copy::Parcelled;
use ap_frames::{Round, Slot, Stand, Verdict};
use ap_term::NoMemory;

/// Whether a slot can be started.
fn can_start(x: &Slot<Section, Parcelled>) -> bool
    ensures { result ≡ is_startable x.now }
{
    matches!(&x.stand, Stand::Ready | Stand::GivenBack)
}

/// Counts the slots before the leftmost one that can be started; None where none can.
fn first_startable(slots: &[Slot<Section, Parcelled>]) -> Option<usize>
    ensures found { result ≡ position is_startable slots.now }
    ensures place { IfSome result (λ i. i < length slots.now) }
{
    slots.iter().position(|x| can_start(x))
}

/// Whether a slot is ready, and wasn't given back.
fn is_ready(x: &Slot<Section, Parcelled>) -> bool
    ensures { result ≡ is_ready x.now }
{
    matches!(&x.stand, Stand::Ready)
}

/// Finds the rightmost slot that is ready, from 1.
#[tactic(auto, using(crate::proofs::Found::last_rules))]
fn last_ready(slots: &[Slot<Section, Parcelled>]) -> Option<usize>
    ensures { result ≡ rightmost is_ready slots.now }
{
    let mut i = slots.len();
    while i > 0 {
        if is_ready(&slots[i - 1]) {
            return Some(i);
        }
        i -= 1;
    }
    None
}

impl Section {
    /// Tells how the frame's round stands.
    pub fn verdict(&self) -> Verdict
        requires { IsAtFrame (view_of self.now) }
        ensures { result ≡ verdict_in (view_of self.now) }
    {
        let newest = self.frames.len() - 1;
        self.frames[newest].verdict()
    }

    /// Finds the leftmost slot that can be started, from 1.
    pub fn first_ready(&self) -> Option<usize>
        requires { IsAtFrame (view_of self.now) }
        ensures found { IfSome result (λ i. IsFirstReady i (view_of self.now)) }
        ensures none { IfNone result (HasNoReady (view_of self.now)) }
    {
        let newest = self.frames.len() - 1;
        let frame = &self.frames[newest];
        match frame.round {
            Round::Closed => None,
            _ => match first_startable(&frame.slots) {
                Some(i) => Some(i + 1),
                None => None,
            },
        }
    }

    /// Finds the rightmost slot that is ready, from 1; one that was given back isn't.
    pub fn last_ready(&self) -> Option<usize>
        requires { IsAtFrame (view_of self.now) }
        ensures last { result ≡ last_ready_in (view_of self.now) }
        ensures ready { IfSome result (λ i. IsReadyAt i (view_of self.now)) }
    {
        let newest = self.frames.len() - 1;
        let frame = &self.frames[newest];
        match frame.round {
            Round::Closed => None,
            _ => last_ready(&frame.slots),
        }
    }

    /// Tells which slot is redone in this round.
    pub fn redone(&self) -> Option<usize>
        requires { IsAtFrame (view_of self.now) }
        ensures { result ≡ redone_in (view_of self.now) }
    {
        let newest = self.frames.len() - 1;
        match self.frames[newest].round {
            Round::Later(i) => Some(i),
            _ => None,
        }
    }

    /// Gives the predicate of a slot's goal.
    pub fn goal(&self, i: usize) -> u32
        requires at { IsAtFrame (view_of self.now) }
        requires place { IsPlaceIn i (view_of self.now) }
        ensures goal { IsGoalOf i (view_of self.now) result }
        ensures known { (code : Compiled) → IsReady code self.now → IsKnownAt code i (view_of self.now) result }
    {
        self.search.predicate(i - 1)
    }

    /// Copies out the arguments of a slot's goal.
    pub fn parcel(&self, i: usize) -> Result<Parcelled, NoMemory>
        requires at { IsAtFrame (view_of self.now) }
        requires place { IsPlaceIn i (view_of self.now) }
        ensures { IfOk result (λ parcel. IsParcelOf i (view_of self.now) parcel) }
    {
        self.search.parcel(i - 1)
    }

    /// Notes that a slot's goal runs.
    pub fn start_slot(&mut self, i: usize)
        requires at { IsAtFrame (view_of self.old) }
        requires place { IsPlaceIn i (view_of self.old) }
        requires startable { told_of is_startable i (view_of self.old) ≡ true }
        ensures stands { view_of self.new ≡ stood i (RunningStand FirstRun) nothing (view_of self.old) }
        ensures at_frame { IsAtFrame (view_of self.new) }
        ensures place { IsPlaceIn i (view_of self.new) }
        ensures runs { told_of is_running i (view_of self.new) ≡ true }
        ensures first { told_of may_be_given_back i (view_of self.new) ≡ true }
        ensures ready { (code : Compiled) → IsReady code self.old → IsReady code self.new }
    {
        let newest = self.frames.len() - 1;
        self.frames[newest].set_running(i);
    }

    /// Puts a section at its answer into a slot that runs; so much it cost in this round, and it may have more.
    pub fn put_answer(&mut self, i: usize, section: Section, cost: u64, more: bool)
        requires at { IsAtFrame (view_of self.old) }
        requires place { IsPlaceIn i (view_of self.old) }
        requires runs { told_of is_running i (view_of self.old) ≡ true }
        requires closed { AreClosed (stack_in (view_of section)) }
        ensures stands { view_of self.new ≡ stood i (answered cost more) (held (view_of section)) (view_of self.old) }
        ensures at_frame { IsAtFrame (view_of self.new) }
        ensures ready { (code : Compiled) → IsReady code self.old → IsReady code section → IsReady code self.new }
    {
        let newest = self.frames.len() - 1;
        self.frames[newest].put_answer(i, section, cost, more);
    }

    /// Notes that a slot's goal has no answer left.
    pub fn put_failed(&mut self, i: usize, cost: u64)
        requires at { IsAtFrame (view_of self.old) }
        requires place { IsPlaceIn i (view_of self.old) }
        requires runs { told_of is_running i (view_of self.old) ≡ true }
        ensures stands { view_of self.new ≡ stood i (EndedStand FailedEnding cost) nothing (view_of self.old) }
        ensures at_frame { IsAtFrame (view_of self.new) }
        ensures ready { (code : Compiled) → IsReady code self.old → IsReady code self.new }
    {
        let newest = self.frames.len() - 1;
        self.frames[newest].put_failed(i, cost);
    }

    /// Notes that a slot's goal has spent all that it was given.
    pub fn put_spent(&mut self, i: usize, cost: u64)
        requires at { IsAtFrame (view_of self.old) }
        requires place { IsPlaceIn i (view_of self.old) }
        requires runs { told_of is_running i (view_of self.old) ≡ true }
        ensures stands { view_of self.new ≡ stood i (EndedStand SpentEnding cost) nothing (view_of self.old) }
        ensures at_frame { IsAtFrame (view_of self.new) }
        ensures ready { (code : Compiled) → IsReady code self.old → IsReady code self.new }
    {
        let newest = self.frames.len() - 1;
        self.frames[newest].put_spent(i, cost);
    }

    /// Notes that a slot's goal has stopped, as it was asked to; one that wasn't asked, and ran from its goal on, is given back.
    pub fn put_stopped(&mut self, i: usize, cost: u64, asked: bool)
        requires at { IsAtFrame (view_of self.old) }
        requires place { IsPlaceIn i (view_of self.old) }
        requires runs { told_of is_running i (view_of self.old) ≡ true }
        requires first { asked ≡ false → told_of may_be_given_back i (view_of self.old) ≡ true }
        ensures stands { view_of self.new ≡ stood i (stopped (Unit {0}) asked cost) nothing (view_of self.old) }
        ensures at_frame { IsAtFrame (view_of self.new) }
        ensures ready { (code : Compiled) → IsReady code self.old → IsReady code self.new }
    {
        let newest = self.frames.len() - 1;
        self.frames[newest].put_stopped(i, cost, asked);
    }

    /// Readies the slots behind a redone one, which has answered.
    pub fn restart_after(&mut self, i: usize)
        requires at { IsAtFrame (view_of self.old) }
        requires redone { redone_in (view_of self.old) ≡ Some i }
        ensures stands { view_of self.new ≡ readied_in i (view_of self.old) }
        ensures at_frame { IsAtFrame (view_of self.new) }
        ensures ready { (code : Compiled) → IsReady code self.old → IsReady code self.new }
    {
        let newest = self.frames.len() - 1;
        self.frames[newest].restart_after(i);
    }
}
