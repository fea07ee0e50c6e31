//! What a search does next: a step looks for goals of outer frames that have come back, and then at the newest section.

ghost use Rattle.std.specs.Prelude.{◌≡◌, true, false, [], IfOk};
ghost use Rattle.ap_post.specs.Posts.{posted_in};
ghost use Rattle.ap_stack.specs.Counts.{IsLone, StaysLone};
ghost use Rattle.ap_stack.specs.Stacks.{IsGood, Goes, IsStep};

use crate::stack::{Stack, Step};
use crate::wish::Wish;
use ap_frames::Verdict;
use ap_open::sharing_law;
use ap_post::Post;
use ap_section::{Settled, Turn};
use ap_term::NoMemory;
use std::alloc::Global;

/// How many calls a section makes before its worker looks up.
const CALLS: u64 = 64;

impl<'a> Stack<'a> {
    /// Settles the newest frame, none of whose goals is out.
    fn settle(&mut self, post: &mut Post<'a, '_>) -> Result<Step, NoMemory>
        requires good { IsGood post.old self.old }
        requires tends { self.old.tends ≡ true }
        requires none { posted_in post.old self.old.frame ≡ [] }
        ensures goes { Goes post.old self.old post.new self.new }
        ensures step { IfOk result (λ step. IsStep post.new self.new step) }
    {
        sharing_law();
        let before = self.newest.cells();
        let settled = self.newest.settle(&mut self.pool)?;
        post.bar()
            .joined(self.newest.cells().saturating_sub(before));
        match settled {
            Settled::Open => {
                // It finds out anew where it stands.
                self.tends = false;
                Ok(Step::Went)
            }
            Settled::Joined | Settled::Broken => {
                self.newest.drop_sections(&mut self.pool);
                self.tends = false;
                Ok(Step::Went)
            }
            Settled::Spent => Ok(self.spent_all(post)),
            Settled::Redo(i) => {
                self.redo_slot(post, i)?;
                Ok(Step::Went)
            }
        }
    }

    /// Takes a goal of the newest frame back, or puts an outcome into its slot, and tells whether there was one.
    fn bring_back(&mut self, post: &mut Post<'a, '_>) -> bool
        requires good { IsGood post.old self.old }
        requires tends { self.old.tends ≡ true }
        ensures goes { Goes post.old self.old post.new self.new }
        ensures tends { self.new.tends ≡ true }
    {
        if self.take_back(post) {
            return true;
        }
        self.collect(post)
    }

    /// Goes on with the newest frame while its round is open: begins the leftmost slot that is ready, and where none is brings a
    /// goal back.
    fn go_on(&mut self, alloc: Global, post: &mut Post<'a, '_>) -> Result<Step, NoMemory>
        requires good { IsGood post.old self.old }
        requires tends { self.old.tends ≡ true }
        ensures goes { Goes post.old self.old post.new self.new }
        ensures step { IfOk result (λ step. IsStep post.new self.new step) }
    {
        if let Some(i) = self.newest.first_ready() {
            if self.offer_last(post, i)? {
                return Ok(Step::Went);
            }
            self.begin(alloc, post, i)?;
            return Ok(Step::Began(i));
        }
        if self.bring_back(post) {
            return Ok(Step::Went);
        }
        if post.is_clear(self.frame) {
            return self.settle(post);
        }
        Ok(Step::Waits)
    }

    /// Goes on with the newest frame where its round is over: once none of its goals is out it is settled.
    fn finish(&mut self, post: &mut Post<'a, '_>) -> Result<Step, NoMemory>
        requires good { IsGood post.old self.old }
        requires tends { self.old.tends ≡ true }
        ensures goes { Goes post.old self.old post.new self.new }
        ensures step { IfOk result (λ step. IsStep post.new self.new step) }
    {
        sharing_law();
        if post.is_clear(self.frame) {
            return self.settle(post);
        }
        if self.bring_back(post) {
            return Ok(Step::Went);
        }
        post.stop(self.frame);
        Ok(Step::Waits)
    }

    /// Tends the newest frame.
    fn tend(&mut self, alloc: Global, post: &mut Post<'a, '_>) -> Result<Step, NoMemory>
        requires good { IsGood post.old self.old }
        requires tends { self.old.tends ≡ true }
        ensures goes { Goes post.old self.old post.new self.new }
        ensures step { IfOk result (λ step. IsStep post.new self.new step) }
    {
        match self.newest.verdict() {
            Verdict::Wait => self.go_on(alloc, post),
            _ => self.finish(post),
        }
    }

    /// Searches on in the newest section, which has no open frame.
    fn search_on(&mut self, post: &mut Post<'a, '_>) -> Result<Step, NoMemory>
        requires good { IsGood post.old self.old }
        requires runs { self.old.tends ≡ false }
        ensures goes { Goes post.old self.old post.new self.new }
        ensures step { IfOk result (λ step. IsStep post.new self.new step) }
        ensures lone { StaysLone self.old self.new result }
    {
        sharing_law();
        let mut wish = Wish::new(post.may_fork(self.depth()));
        let before = self.newest.spent();
        let turn = self.newest.advance(
            self.sound,
            CALLS,
            &mut wish,
            &mut self.share,
            &mut self.pool,
        )?;
        let calls = self.newest.spent().saturating_sub(before);
        post.bar().went(calls, wish.has_passed());
        match turn {
            Turn::Answer => Ok(self.answered(post)),
            Turn::Failed => Ok(self.failed(post)),
            Turn::Spent => Ok(self.spent_all(post)),
            Turn::More | Turn::Stopped => Ok(Step::Went),
            Turn::Fork => {
                self.tends = true;
                post.bar().forked();
                Ok(Step::Went)
            }
        }
    }

    /// Counts a step, and offers a goal where another worker looks for one.
    fn offer_wanted(&mut self, post: &mut Post<'a, '_>) -> Result<(), NoMemory>
        requires good { IsGood post.old self.old }
        ensures goes { Goes post.old self.old post.new self.new }
        ensures lone { IsLone self.old → IsLone self.new }
    {
        sharing_law();
        self.turns = self.turns.wrapping_add(1);
        if !self.outer.is_empty() && post.wants() {
            return self.offer_old(post);
        }
        Ok(())
    }

    /// Makes a step: the newest section goes on, ends, or tends its frame. Without memory the search stands where its last move was
    /// made.
    pub fn step(&mut self, alloc: Global, post: &mut Post<'a, '_>) -> Result<Step, NoMemory>
        requires good { IsGood post.old self.old }
        ensures goes { Goes post.old self.old post.new self.new }
        ensures step { IfOk result (λ step. IsStep post.new self.new step) }
        ensures lone { StaysLone self.old self.new result }
    {
        self.offer_wanted(post)?;
        if let Some(step) = self.look_after(alloc, post) {
            return Ok(step);
        }
        if self.tends {
            self.tend(alloc, post)
        } else {
            self.search_on(post)
        }
    }
}
