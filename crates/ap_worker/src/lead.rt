//! The worker that searches the query.

ghost use Rattle.std.specs.Prelude.{◌≡◌, ◌+◌, IfOk};
ghost use Rattle.ap_ledger.specs.Counts.{capped};
ghost use Rattle.ap_worker.specs.Totals.{shares_of};
ghost use Rattle.ap_worker.specs.Leads.{IsLeading, LeadGoes, LeadStays, StaysAlone, IsStepOfQuery};

use crate::patience::Patience;
use crate::worker::Worker;
use ap_ledger::Share;
use ap_open::sharing_law;
use ap_outside::Gate;
use ap_stack::{Stack, Step};
use ap_term::NoMemory;
use std::alloc::Global;
use std::sync::Wait;

/// A worker, and the query's search beside those of the goals that it took: it goes on where none of these is open.
#[derive(Drop)]
pub struct Lead<'a, 'b> {
    pub(crate) worker: Worker<'a, 'b>,
    pub(crate) query: Stack<'a>,
}

impl<'a, 'b> Lead<'a, 'b> {
    /// Looks for a goal of another worker, as its own searches wait.
    fn help<G: Gate>(&mut self, alloc: Global, gate: &G) -> Step
        requires leads { IsLeading self.old }
        ensures stays { LeadStays self.old self.new }
        ensures step { IsStepOfQuery self.new result }
    {
        if self.worker.help(alloc, gate) {
            Step::Went
        } else {
            Step::Waits
        }
    }

    /// Makes a step: the search of the goal that was taken last goes on, or the query's, or it looks for another goal.
    pub(crate) fn step<G: Gate>(&mut self, alloc: Global, gate: &G) -> Result<Step, NoMemory>
        requires leads { IsLeading self.old }
        ensures goes { LeadGoes self.old self.new }
        ensures step { IfOk result (λ step. IsStepOfQuery self.new step) }
        ensures alone { StaysAlone self.old self.new result }
    {
        sharing_law();
        if !self.worker.is_free() {
            if self.worker.work(alloc, gate) {
                return Ok(Step::Went);
            }
            return Ok(self.help(alloc, gate));
        }
        match self.query.step(alloc, &mut self.worker.post)? {
            Step::Waits => Ok(self.help(alloc, gate)),
            step => {
                let _went = self.worker.pass(gate, step);
                Ok(step)
            }
        }
    }

    /// Makes a step, and sleeps until there is news where nothing can be done. It can only where other workers run its goals, and
    /// each tells as it ends one.
    fn step_or_sleep<R: Wait, G: Gate>(
        &mut self,
        rt: &R,
        alloc: Global,
        gate: &G,
    ) -> Result<Step, NoMemory>
        requires leads { IsLeading self.old }
        ensures goes { LeadGoes self.old self.new }
        ensures step { IfOk result (λ step. IsStepOfQuery self.new step) }
        ensures alone { StaysAlone self.old self.new result }
    {
        let key = self.worker.common().prepare_wait();
        let step = self.step(alloc, gate)?;
        if step == Step::Waits {
            key.wait(rt);
        }
        Ok(step)
    }

    /// Makes a step; behind many in vain it sleeps where there is none.
    pub(crate) fn turn<R: Wait, G: Gate>(
        &mut self,
        rt: &R,
        alloc: Global,
        gate: &G,
        patience: &mut Patience,
    ) -> Result<Step, NoMemory>
        requires leads { IsLeading self.old }
        ensures goes { LeadGoes self.old self.new }
        ensures step { IfOk result (λ step. IsStepOfQuery self.new step) }
        ensures alone { StaysAlone self.old self.new result }
    {
        if patience.is_over() {
            patience.renew();
            return self.step_or_sleep(rt, alloc, gate);
        }
        let step = self.step(alloc, gate)?;
        if step == Step::Waits {
            patience.wait();
        } else {
            patience.renew();
        }
        Ok(step)
    }

    /// Drops the searches one after another, however deep frames are nested in them, and gives the calls that were made.
    pub(crate) fn release(self, alloc: Global) -> Share
        ensures { result ≡ capped (self.entry.query.share + shares_of self.entry.worker.taken.items) }
    {
        let Lead { worker, query } = self;
        let mut share = query.release(alloc);
        share.merge(worker.release(alloc));
        share
    }
}
