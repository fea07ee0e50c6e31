//! Goals of outer frames that come back, and sections that are left as the round that they run in is over.

ghost use Rattle.std.specs.Prelude.{◌≡◌, ◌≢◌, ◌↔◌, ℕ, ◌-◌, ◌^◌, ◌<◌, IsTrue, true, [], length, slice_get, Some, None, IfSome};
ghost use Rattle.ap_section.specs.Views.{view_of};
ghost use Rattle.ap_frames.specs.declared.verdict.Verdict.TheVariants.{Wait};
ghost use Rattle.ap_section.specs.Slots.{IsAtFrame, verdict_in};
ghost use Rattle.ap_post.specs.Posts.{posted_in};
ghost use Rattle.ap_stack.specs.Counts.{IsLone};
ghost use Rattle.ap_stack.specs.Stacks.{IsGood, Goes, IsStep};
ghost use Rattle.ap_stack.specs.declared.stack.Open.{Open as Waiting};

use crate::returning::put_ending;
use crate::stack::{Stack, Step};
use ap_frames::Verdict;
use ap_open::sharing_law;
use ap_post::Post;
use std::alloc::Global;

impl<'a> Stack<'a> {
    /// Puts the outcome of a goal of the frame at which an outer section waits into its slot, and tells whether there was one.
    fn collect_outer(&mut self, post: &mut Post<'a, '_>, k: usize) -> bool
        requires good { IsGood post.old self.old }
        requires there { k < length self.old.outer.items }
        ensures goes { Goes post.old self.old post.new self.new }
        ensures count { length self.new.outer.items ≡ length self.old.outer.items }
    {
        sharing_law();
        let Some((i, outcome)) = post.collect(self.outer[k].frame) else {
            return false;
        };
        self.share.merge(outcome.share);
        put_ending(&mut self.outer[k].section, i, outcome.ending);
        true
    }

    /// Finds the outer section that waits at a frame.
    fn outer_at(&self, frame: u64) -> Option<usize>
        ensures { IfSome result (λ k. k < length self.now.outer.items) }
    {
        (0..self.outer.len()).find(|&k| self.outer[k].frame == frame)
    }

    /// Finds an outer frame one of whose goals has come back, and puts that goal's outcome into its slot.
    fn collect_any(&mut self, post: &mut Post<'a, '_>) -> Option<usize>
        requires good { IsGood post.old self.old }
        ensures goes { Goes post.old self.old post.new self.new }
        ensures there { IfSome result (λ k. k < length self.new.outer.items) }
    {
        sharing_law();
        let frame = post.finished_below(self.frame)?;
        let k = self.outer_at(frame)?;
        if self.collect_outer(post, k) {
            return Some(k);
        }
        None
    }

    /// Tells whether the round of the frame at which an outer section waits is over.
    fn is_over(&self, k: usize) -> bool
        requires at { (e : Waiting) → slice_get self.now.outer.items k ≡ Some e → IsAtFrame (view_of e.section) }
        requires there { k < length self.now.outer.items }
        ensures over { (e : Waiting) → slice_get self.now.outer.items k ≡ Some e → IsTrue result ↔ (verdict_in (view_of e.section) ≢ Wait) }
    {
        !matches!(self.outer[k].section.verdict(), Verdict::Wait)
    }

    /// Leaves the newest section, whose slot stops.
    fn leave_newest(&mut self, post: &Post<'a, '_>)
        requires good { IsGood post.now self.old }
        ensures goes { Goes post.now self.old post.now self.new }
    {
        sharing_law();
        let Some(left) = self.pop() else {
            return;
        };
        let cost = left.section.spent().saturating_sub(left.since);
        self.newest.put_stopped(left.place, cost, true);
        left.section.give_to(&mut self.pool);
    }

    /// Leaves the sections within the outer one at a place; goals of their frames that are out are taken back, or asked to stop.
    fn leave_within(&mut self, post: &mut Post<'a, '_>, k: usize)
        requires good { IsGood post.old self.old }
        ensures goes { Goes post.old self.old post.new self.new }
        ensures none { (f : ℕ) → self.new.frame < f → f < 2 ^ 64 - 1 → posted_in post.new f ≡ [] }
    {
        sharing_law();
        for _section in k..self.outer.len() {
            self.leave_newest(post);
        }
        // All numbers are below that one.
        let _next = post.next();
        post.leave(self.frame + 1);
    }

    /// Counts the calls that were made for a goal of a frame that was left, once its taker has finished it.
    fn sweep(&mut self, alloc: Global, post: &mut Post<'a, '_>)
        requires good { IsGood post.old self.old }
        ensures goes { Goes post.old self.old post.new self.new }
    {
        sharing_law();
        if let Some(share) = post.sweep(alloc) {
            self.share.merge(share);
        }
    }

    /// Tells whether it is one section, which is at no frame.
    fn is_lone(&self) -> bool
        ensures { IsLone self.now → result ≡ true }
    {
        self.outer.is_empty() && !self.tends
    }

    /// Looks whether a goal of an outer frame has come back. Where that frame's round is over then, the sections within it are left.
    pub(crate) fn look_after(&mut self, alloc: Global, post: &mut Post<'a, '_>) -> Option<Step>
        requires good { IsGood post.old self.old }
        ensures goes { Goes post.old self.old post.new self.new }
        ensures step { IfSome result (λ step. IsStep post.new self.new step) }
        ensures lone { IsLone self.old → IsLone self.new × (result ≡ None) }
    {
        sharing_law();
        if !post.has_out() {
            return None;
        }
        if self.is_lone() {
            return None;
        }
        self.sweep(alloc, post);
        let k = self.collect_any(post)?;
        if !self.is_over(k) {
            return Some(Step::Went);
        }
        let place = self.outer[k].place;
        self.leave_within(post, k);
        Some(Step::Finished(place))
    }
}
