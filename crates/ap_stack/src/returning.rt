//! Goals that come back from other workers.

ghost use Rattle.std.specs.Prelude.{◌≡◌, true, false, IfOk};
ghost use Rattle.ap_frames.specs.Slots.{may_be_given_back};
ghost use Rattle.ap_instr.specs.Code.{Compiled};
ghost use Rattle.ap_open.specs.Away.{returned};
ghost use Rattle.ap_section.specs.Views.{view_of};
ghost use Rattle.ap_section.specs.Ready.{IsReady};
ghost use Rattle.ap_section.specs.Slots.{IsAtFrame, IsPlaceIn, told_of};
ghost use Rattle.ap_post.specs.Jobs.{outcome_of, IsReadyEnding};
ghost use Rattle.ap_stack.specs.Outcomes.{IsClosedEnding};
ghost use Rattle.ap_stack.specs.Stacks.{IsGood, Goes};

use crate::stack::Stack;
use ap_open::sharing_law;
use ap_post::{Ending, Post};
use ap_section::Section;

/// Puts what came of a goal that was out into its slot.
pub(crate) fn put_ending(section: &mut Section, i: usize, ending: Ending)
    requires at { IsAtFrame (view_of section.old) }
    requires place { IsPlaceIn i (view_of section.old) }
    requires first { told_of may_be_given_back i (view_of section.old) ≡ true }
    requires closed { IsClosedEnding ending }
    ensures stands { view_of section.new ≡ returned i (outcome_of ending) (view_of section.old) }
    ensures at_frame { IsAtFrame (view_of section.new) }
    ensures ready { (code : Compiled) → IsReady code section.old → IsReadyEnding code ending → IsReady code section.new }
{
    match ending {
        Ending::Answer {
            section: found,
            spent,
            has_more,
        } => section.put_answer(i, found, spent, has_more),
        Ending::Failed { spent } => section.put_failed(i, spent),
        Ending::Spent => {
            let rest = section.rest();
            section.put_spent(i, rest);
        }
        Ending::Stopped { spent } => section.put_stopped(i, spent, true),
        Ending::GivenBack | Ending::NoMemory => section.put_stopped(i, 0, false),
    }
}

impl<'a> Stack<'a> {
    /// Takes back a goal of the newest frame that nobody has taken, and tells whether there was one.
    pub(crate) fn take_back(&mut self, post: &mut Post<'a, '_>) -> bool
        requires good { IsGood post.old self.old }
        requires tends { self.old.tends ≡ true }
        ensures goes { Goes post.old self.old post.new self.new }
        ensures tends { self.new.tends ≡ true }
    {
        sharing_law();
        let Some(i) = post.reclaim(self.frame) else {
            return false;
        };
        self.newest.put_stopped(i, 0, false);
        true
    }

    /// Puts the outcome of a goal of the newest frame into its slot, and tells whether there was one.
    pub(crate) fn collect(&mut self, post: &mut Post<'a, '_>) -> bool
        requires good { IsGood post.old self.old }
        requires tends { self.old.tends ≡ true }
        ensures goes { Goes post.old self.old post.new self.new }
        ensures tends { self.new.tends ≡ true }
    {
        sharing_law();
        let Some((i, outcome)) = post.collect(self.frame) else {
            return false;
        };
        self.share.merge(outcome.share);
        put_ending(&mut self.newest, i, outcome.ending);
        true
    }
}
