//! The core.

ghost use Rattle.std.specs.Prelude.{◌≡◌, Some, IfOk, MatchResult};
ghost use Rattle.ap_term.specs.Goals.{joined};
ghost use Rattle.ap_term.specs.Search.{start};
ghost use Rattle.ap_core.specs.CoreView.{core_of};
ghost use Rattle.ap_core.specs.Heeding.{TellsJust};
ghost use Rattle.ap_core.specs.declared.events.Kind.TheVariants.{Answer, Raise};
ghost use Rattle.ap_core.specs.Tasks.{task, alternative, state, exhausted};
ghost use Rattle.ap_core.specs.TaskView.{task_view};
ghost use Rattle.ap_core.specs.Relation.{after, at_root};
ghost use Rattle.ap_core.specs.Reached.{beginning, IsEmitted};
ghost use Rattle.ap_core.specs.Outcome.{IsRefusal};

use crate::conditions::{has_spent, is_done, is_exhausted, met};
use crate::events::{Event, Kind, StepErr};
use crate::grafts::copy_terms;
use crate::loud::{Loud, Rules};
use crate::own::own;
use crate::paths::in_task;
use crate::slots::take_answer;
use crate::tasks::{Alternative, Status, Task};
use ap_spec::{Tuples, start};
use ap_term::{Args, NoMemory, Program, Query, join};
use std::alloc::Global;

/// A search whose goals may run side by side, as a machine that makes one event at a time.
#[derive(Drop)]
pub struct Core {
    alloc: Global,
    rules: Rules,
    root: Task,
    status: Status,
    emitted: Tuples,
}

fn root_of(alloc: Global, query: &Query, rest: u64) -> Result<Task, NoMemory>
    ensures { IfOk result (λ t. task_view t ≡ task rest 0 (alternative (state (start query.now)) exhausted)) }
{
    let first = start(alloc, query)?;
    Ok(Task {
        rest,
        spent: 0,
        first: Some(Alternative::State(first)),
        behind: Vec::new(alloc),
    })
}

impl Core {
    /// The core before any event, with a budget of so many calls. Which goals may meet a fault it tells from the program.
    pub fn new(alloc: Global, program: Program, query: Query, rest: u64) -> Result<Core, NoMemory>
        ensures begins { IfOk result (λ c. core_of c ≡ beginning (core_of c).rules (start query) rest) }
        ensures program { IfOk result (λ c. (core_of c).rules.program ≡ joined program query) }
        ensures loud { IfOk result (λ c. TellsJust (core_of c).rules.loud (joined program query)) }
    {
        let root = root_of(alloc, &query, rest)?;
        let all = join(alloc, &program, &query)?;
        let loud = Loud::of(alloc, &all)?;
        Ok(Core {
            alloc,
            rules: Rules { program: all, loud },
            root,
            status: Status::GoingOn,
            emitted: Tuples::new(alloc),
        })
    }

    /// The answers so far, in order: they begin those of sequential search.
    pub fn emitted(&self) -> &[Args]
        ensures tuples { result.now ≡ (core_of self.now).emitted }
        ensures answers { IsEmitted result.now (core_of self.now) }
    {
        self.emitted.as_slice()
    }

    /// How the root stands.
    pub fn status(&self) -> Status
        ensures { result ≡ (core_of self.now).status }
    {
        self.status
    }

    fn answer(&mut self) -> Result<(), StepErr>
        ensures { MatchResult result (λ _. at_root Answer (core_of self.old) ≡ Some (core_of self.new)) (λ e. IsRefusal e (at_root Answer (core_of self.old)) (core_of self.old) (core_of self.new)) }
    {
        let Some(Alternative::State(s)) = &self.root.first else {
            return Err(StepErr::Illegal);
        };
        if !is_done(s) {
            return Err(StepErr::Illegal);
        }
        let tuple = copy_terms(self.alloc, s.tuple.as_slice())?;
        self.emitted.push(tuple)?;
        let _ = take_answer(&mut self.root);
        Ok(())
    }

    /// The root has met a fault.
    fn raise(&mut self) -> Result<(), StepErr>
        ensures { MatchResult result (λ _. at_root Raise (core_of self.old) ≡ Some (core_of self.new)) (λ e. IsRefusal e (at_root Raise (core_of self.old)) (core_of self.old) (core_of self.new)) }
    {
        let rules = &self.rules;
        match met(&rules.loud, &self.root) {
            Some(fault) => {
                self.status = Status::HasRaised(fault);
                Ok(())
            }
            None => Err(StepErr::Illegal),
        }
    }

    /// An event of the root.
    fn at_root(&mut self, kind: Kind) -> Result<(), StepErr>
        ensures { MatchResult result (λ _. at_root kind (core_of self.old) ≡ Some (core_of self.new)) (λ e. IsRefusal e (at_root kind (core_of self.old)) (core_of self.old) (core_of self.new)) }
    {
        let rules = &self.rules;
        match kind {
            Kind::Answer => self.answer(),
            Kind::Raise => self.raise(),
            Kind::Fail if is_exhausted(&self.root) => Ok(()),
            Kind::Spend if has_spent(&rules.loud, &self.root) => {
                self.status = Status::NoBudget;
                Ok(())
            }
            Kind::Infer
            | Kind::Fork
            | Kind::Join
            | Kind::Break
            | Kind::Drain
            | Kind::Redo
            | Kind::Restart
            | Kind::Replay => own(self.alloc, rules, kind, &mut self.root),
            _ => Err(StepErr::Illegal),
        }
    }

    /// Makes an event. It is refused as illegal exactly where the relation has no case for it, unless memory runs out
    /// first; what is refused changes nothing.
    pub fn step(&mut self, event: Event) -> Result<(), StepErr>
        ensures { MatchResult result (λ _. after event.kind event.path (core_of self.old) ≡ Some (core_of self.new)) (λ e. IsRefusal e (after event.kind event.path (core_of self.old)) (core_of self.old) (core_of self.new)) }
    {
        if !matches!(self.status, Status::GoingOn) {
            return Err(StepErr::Illegal);
        }
        match event.path.as_slice() {
            [] => self.at_root(event.kind),
            [place, others @ ..] => in_task(
                self.alloc,
                &self.rules,
                event.kind,
                *place,
                others,
                &mut self.root,
            ),
        }
    }
}
