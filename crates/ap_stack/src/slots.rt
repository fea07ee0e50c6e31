//! Slots whose goals are run by sections of the same search.

ghost use Rattle.std.specs.Prelude.{◌≡◌, ◌+◌, ◌-◌, ◌^◌, ◌<◌, true, false, [], Some, IfOk};
ghost use Rattle.ap_frames.specs.declared.frame.Round.TheVariants.{Closed as ClosedRound};
ghost use Rattle.ap_frames.specs.Slots.{has_answer};
ghost use Rattle.ap_frames.specs.Verdicts.{next_redo};
ghost use Rattle.ap_tie.specs.Sections.{rows};
ghost use Rattle.ap_tied.specs.SlotCalls.{held_in};
ghost use Rattle.ap_open.specs.Calling.{IsAnswering, IsDone, IsSpent};
ghost use Rattle.ap_section.specs.Views.{spent_in, budget_in};
ghost use Rattle.ap_section.specs.Slots.{IsFirstReady, IsPlaceIn, told_of, round_in, slots_in, held_spent, is_held};
ghost use Rattle.ap_post.specs.Posts.{posted_in};
ghost use Rattle.ap_stack.specs.Stacks.{IsGood, Goes, IsStep, code_in, section_in};
ghost use Rattle.ap_stack.specs.declared.stack.Ending.TheVariants.{Failed, Spent};
ghost use Rattle.ap_stack.specs.declared.stack.Step.TheVariants.{Answer, Ended};

use crate::stack::{Ending, Stack, Step};
use ap_codecheck::Sound;
use ap_open::sharing_law;
use ap_post::Post;
use ap_section::Section;
use ap_term::NoMemory;
use std::alloc::Global;

/// Whether a predicate is the query's.
pub(crate) fn asks(sound: &Sound, predicate: u32) -> bool
    ensures { result ≡ false → sound.now.query ≡ Some predicate → ⊥ }
{
    match sound.code().query() {
        Some(number) => number == predicate,
        None => false,
    }
}

impl<'a> Stack<'a> {
    /// Begins the goal of a slot of the newest frame, by a section of its own.
    pub(crate) fn begin(
        &mut self,
        alloc: Global,
        post: &mut Post<'a, '_>,
        i: usize,
    ) -> Result<(), NoMemory>
        requires good { IsGood post.old self.old }
        requires tends { self.old.tends ≡ true }
        requires ready { IsFirstReady i (section_in self.old) }
        ensures goes { Goes post.old self.old post.new self.new }
    {
        sharing_law();
        let tuple = self.newest.parcel(i)?;
        let predicate = self.newest.goal(i);
        // No goal asks the query, since nothing calls `?-`.
        if asks(self.sound, predicate) {
            return Err(NoMemory);
        }
        let rest = self.newest.rest();
        let section = Section::start_pooled(
            &mut self.pool,
            alloc,
            self.sound,
            &tuple,
            predicate,
            rest,
        )?;
        self.outer.reserve(1)?;
        let frame = post.number()?;
        self.newest.start_slot(i);
        post.bar().began(section.cells());
        self.push(section, i, 0, frame);
        Ok(())
    }

    /// Goes on with the section of a slot that is redone.
    pub(crate) fn redo_slot(&mut self, post: &mut Post<'a, '_>, i: usize) -> Result<(), NoMemory>
        requires good { IsGood post.old self.old }
        requires tends { self.old.tends ≡ true }
        requires none { posted_in post.old self.old.frame ≡ [] }
        requires closed { round_in (section_in self.old) ≡ ClosedRound }
        requires next { next_redo (rows (slots_in (section_in self.old))) ≡ Some i }
        requires there { is_held (held_in i (slots_in (section_in self.old))) ≡ true }
        requires fits { held_spent (held_in i (slots_in (section_in self.old))) + (budget_in (section_in self.old) - spent_in (section_in self.old)) < 2 ^ 64 }
        ensures goes { Goes post.old self.old post.new self.new }
    {
        sharing_law();
        self.outer.reserve(1)?;
        let frame = post.number()?;
        let section = self.newest.take_section(i);
        let since = section.spent();
        self.push(section, i, since, frame);
        Ok(())
    }

    /// Puts the newest section, which stands at an answer, into the slot that it runs; behind a redone one the others begin anew.
    pub(crate) fn answered(&mut self, post: &Post<'a, '_>) -> Step
        requires good { IsGood post.now self.old }
        requires runs { self.old.tends ≡ false }
        requires answering { IsAnswering (section_in self.old) }
        ensures goes { Goes post.now self.old post.now self.new }
        ensures step { IsStep post.now self.new result }
        ensures lone { self.old.outer.items ≡ [] → (self.new ≡ self.old) × (result ≡ Answer) }
    {
        sharing_law();
        let has_more = self.newest.has_more();
        let Some(done) = self.pop() else {
            return Step::Answer;
        };
        let place = done.place;
        let cost = done.section.spent().saturating_sub(done.since);
        self.newest.put_answer(place, done.section, cost, has_more);
        post.bar().ended(cost);
        self.restart_behind(post, place);
        Step::Finished(place)
    }

    /// Lets the slots behind one that was redone, and has answered, begin anew.
    pub(crate) fn restart_behind(&mut self, post: &Post<'a, '_>, i: usize)
        requires good { IsGood post.now self.old }
        requires tends { self.old.tends ≡ true }
        requires place { IsPlaceIn i (section_in self.old) }
        requires answered { told_of has_answer i (section_in self.old) ≡ true }
        ensures goes { Goes post.now self.old post.now self.new }
    {
        sharing_law();
        let Some(redone) = self.newest.redone() else {
            return;
        };
        if redone != i {
            return;
        }
        self.newest.restart_after(i);
    }

    /// Notes in its slot that the newest section has failed.
    pub(crate) fn failed(&mut self, post: &Post<'a, '_>) -> Step
        requires good { IsGood post.now self.old }
        requires none { posted_in post.now self.old.frame ≡ [] }
        requires done { IsDone (section_in self.old) }
        ensures goes { Goes post.now self.old post.now self.new }
        ensures step { IsStep post.now self.new result }
        ensures lone { self.old.outer.items ≡ [] → (self.new ≡ self.old) × (result ≡ Ended Failed) }
    {
        sharing_law();
        let Some(done) = self.pop() else {
            return Step::Ended(Ending::Failed);
        };
        let cost = done.section.spent().saturating_sub(done.since);
        self.newest.put_failed(done.place, cost);
        done.section.give_to(&mut self.pool);
        post.bar().ended(cost);
        Step::Finished(done.place)
    }

    /// Notes in its slot that the newest section has spent its budget, which is all that was left.
    pub(crate) fn spent_all(&mut self, post: &Post<'a, '_>) -> Step
        requires good { IsGood post.now self.old }
        requires none { posted_in post.now self.old.frame ≡ [] }
        requires spent { IsSpent (code_in self.old) (section_in self.old) }
        ensures goes { Goes post.now self.old post.now self.new }
        ensures step { IsStep post.now self.new result }
        ensures lone { self.old.outer.items ≡ [] → (self.new ≡ self.old) × (result ≡ Ended Spent) }
    {
        sharing_law();
        let Some(done) = self.pop() else {
            return Step::Ended(Ending::Spent);
        };
        let rest = self.newest.rest();
        self.newest.put_spent(done.place, rest);
        done.section.give_to(&mut self.pool);
        Step::Finished(done.place)
    }
}
