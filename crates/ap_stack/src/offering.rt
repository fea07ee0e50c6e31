//! Goals that are offered to other workers.

ghost use Rattle.std.specs.Prelude.{◌≡◌, ◌<◌, true, false, length, slice_get, Ok, Some, IfOk, IfSome};
ghost use Rattle.std.specs.List.{AllByRecursion};
ghost use Rattle.ap_open.specs.Sharing.{IsKeyOf};
ghost use Rattle.ap_section.specs.Views.{view_of};
ghost use Rattle.ap_section.specs.Ready.{IsReady};
ghost use Rattle.ap_section.specs.Slots.{IsAtFrame, IsPlaceIn, IsReadyAt};
ghost use Rattle.ap_post.specs.Jobs.{key_of};
ghost use Rattle.ap_stack.specs.Stacks.{IsGood, Goes, section_in};
ghost use Rattle.ap_stack.specs.declared.stack.Open.{Open as Waiting};

use crate::slots::asks;
use crate::stack::Stack;
use ap_codecheck::Sound;
use ap_open::sharing_law;
use ap_post::{Job, Post};
use ap_section::Section;
use ap_term::NoMemory;

/// For how many steps a section has to wait at its frame before goals of it are offered.
const OLD: u64 = 2;

/// The goal of a slot of a section's newest frame as a job. None where it asks the query, as no goal does.
fn job_of<'a>(
    sound: &'a Sound,
    section: &Section,
    i: usize,
    depth: usize,
) -> Result<Option<Job<'a>>, NoMemory>
    requires ready { IsReady sound.now section.now }
    requires at { IsAtFrame (view_of section.now) }
    requires place { IsPlaceIn i (view_of section.now) }
    ensures { IfOk result (λ found. IfSome found (λ job. IsKeyOf sound.now i (view_of section.now) (key_of job) × (job.place ≡ i) × (job.sound.now ≡ sound.now))) }
{
    let tuple = section.parcel(i)?;
    let predicate = section.goal(i);
    if asks(sound, predicate) {
        return Ok(None);
    }
    Ok(Some(Job {
        sound,
        predicate,
        tuple,
        rest: section.rest(),
        place: i,
        depth,
    }))
}

impl<'a> Stack<'a> {
    /// Offers the goal of a slot of the newest frame, and tells whether it is out.
    fn offer_newest(&mut self, post: &mut Post<'a, '_>, i: usize) -> Result<bool, NoMemory>
        requires good { IsGood post.old self.old }
        requires tends { self.old.tends ≡ true }
        requires ready { IsReadyAt i (section_in self.old) }
        ensures goes { Goes post.old self.old post.new self.new }
        ensures none { result ≡ Ok false → (self.new.tends ≡ true) × (section_in self.new ≡ section_in self.old) }
    {
        sharing_law();
        let Some(job) = job_of(
            self.sound,
            &self.newest,
            i,
            self.around_goal(self.outer.len()),
        )?
        else {
            return Ok(false);
        };
        if !post.offer(job, self.frame) {
            return Ok(false);
        }
        self.newest.start_slot(i);
        Ok(true)
    }

    /// Offers the goal of a slot of the frame at which an outer section waits, and tells whether it is out.
    fn offer_outer(&mut self, post: &mut Post<'a, '_>, k: usize, i: usize) -> Result<bool, NoMemory>
        requires good { IsGood post.old self.old }
        requires ready { (e : Waiting) → slice_get self.old.outer.items k ≡ Some e → IsReadyAt i (view_of e.section) }
        requires there { k < length self.old.outer.items }
        ensures goes { Goes post.old self.old post.new self.new }
        ensures tends { self.new.tends ≡ self.old.tends }
    {
        sharing_law();
        let Some(job) = job_of(self.sound, &self.outer[k].section, i, self.around_goal(k))? else {
            return Ok(false);
        };
        if !post.offer(job, self.outer[k].frame) {
            return Ok(false);
        }
        self.outer[k].section.start_slot(i);
        Ok(true)
    }

    /// Offers the last goal of the newest frame that is ready and isn't the one at i, where another worker looks for one, or had none yet.
    pub(crate) fn offer_last(&mut self, post: &mut Post<'a, '_>, i: usize) -> Result<bool, NoMemory>
        requires good { IsGood post.old self.old }
        requires tends { self.old.tends ≡ true }
        ensures goes { Goes post.old self.old post.new self.new }
        ensures none { result ≡ Ok false → (self.new.tends ≡ true) × (section_in self.new ≡ section_in self.old) }
    {
        sharing_law();
        let Some(last) = self.newest.last_ready() else {
            return Ok(false);
        };
        if last == i || !post.claim_taker() {
            return Ok(false);
        }
        self.offer_newest(post, last)
    }

    /// Finds the oldest frame, of those that may have a ready goal, that has one, and that goal's slot.
    fn find_old(&self) -> Option<(usize, usize)>
        requires { AllByRecursion (λ e. IsAtFrame (view_of e.section)) self.now.outer.items }
        ensures { IfSome result (λ r. (r.0 < length self.now.outer.items) × ((e : Waiting) → slice_get self.now.outer.items r.0 ≡ Some e → IsReadyAt r.1 (view_of e.section))) }
    {
        for k in self.oldest..self.outer.len() {
            if let Some(i) = self.outer[k].section.last_ready() {
                return Some((k, i));
            }
        }
        None
    }

    /// Offers a goal of the oldest frame that has a ready one, if it has waited for some steps.
    pub(crate) fn offer_old(&mut self, post: &mut Post<'a, '_>) -> Result<(), NoMemory>
        requires good { IsGood post.old self.old }
        ensures goes { Goes post.old self.old post.new self.new }
        ensures tends { self.new.tends ≡ self.old.tends }
    {
        sharing_law();
        let Some((k, i)) = self.find_old() else {
            self.oldest = self.outer.len();
            return Ok(());
        };
        self.oldest = k;
        if self.turns.wrapping_sub(self.outer[k].turn) < OLD {
            return Ok(());
        }
        let _out = self.offer_outer(post, k, i)?;
        Ok(())
    }
}
