//! Goals of others that a worker takes.

ghost use Rattle.std.specs.Prelude.{◌≡◌, ◌-◌, ◌<◌, true, List, [], ◌∷◌, ◌++◌, length, Option, Some, IfOk, IfSome, MatchOption, OnErr};
ghost use Rattle.ap_desk.specs.Held.{IsCauseAt, KeptBelow};
ghost use Rattle.ap_post.specs.Jobs.{IsOf, cause_of};
ghost use Rattle.ap_post.specs.Posts.{jobs_in, asked_in, SamePosted, SameJobs};

use crate::job::Job;
use crate::outcome::Outcome;
use crate::post::Post;
use ap_term::NoMemory;

impl<'a, 'b> Post<'a, 'b> {
    /// Looks once for a goal that another worker offers, and takes it. None where none is found.
    pub fn take(&mut self) -> Result<Option<Job<'a>>, NoMemory>
        ensures posted { SamePosted self.old self.new }
        ensures next { self.new.next ≡ self.old.next }
        ensures asked { asked_in self.new ≡ asked_in self.old }
        ensures told { IfOk result (λ found. MatchOption found (jobs_in self.new ≡ jobs_in self.old) (λ j. jobs_in self.new ≡ jobs_in self.old ++ Some j ∷ [])) }
        ensures err { OnErr result (jobs_in self.new ≡ jobs_in self.old) }
    {
        self.look();
        for k in 0..self.thieves.len() {
            if let Some(job) = self.take_from(k)? {
                // The goal that it looked for was counted off as it was offered.
                self.looks.store(false);
                self.common.took();
                return Ok(Some(job));
            }
        }
        Ok(None)
    }

    // Steals a ticket from the stack of another worker, and takes its goal.
    fn take_from(&mut self, k: usize) -> Result<Option<Job<'a>>, NoMemory>
        requires { k < length self.old.thieves.items }
        ensures posted { SamePosted self.old self.new }
        ensures next { self.new.next ≡ self.old.next }
        ensures asked { asked_in self.new ≡ asked_in self.old }
        ensures told { IfOk result (λ found. MatchOption found (jobs_in self.new ≡ jobs_in self.old) (λ j. jobs_in self.new ≡ jobs_in self.old ++ Some j ∷ [])) }
        ensures err { OnErr result (jobs_in self.new ≡ jobs_in self.old) }
        ensures thieves { length self.new.thieves.items ≡ length self.old.thieves.items }
    {
        let Some(ticket) = self.thieves[k].steal() else {
            return Ok(None);
        };
        self.common.stole();
        Ok(self.desk.take(self.board, ticket)?)
    }

    /// Finds which of the goals that were taken was asked to stop, the oldest being 0.
    pub fn poll(&mut self) -> Option<usize>
        ensures posted { SamePosted self.old self.new }
        ensures next { self.new.next ≡ self.old.next }
        ensures jobs { jobs_in self.new ≡ jobs_in self.old }
        ensures asked { result ≡ asked_in self.new }
        ensures within { IfSome result (λ i. i < length (jobs_in self.new)) }
    {
        self.desk.poll(self.board);
        self.desk.asked()
    }

    /// Counts the goals that were taken and aren't finished.
    pub fn count(&self) -> usize
        ensures { result ≡ length (jobs_in self.now) }
    {
        self.desk.count()
    }

    /// Gives the outcome of the goal that was taken last. One that was stopped was found asked to; where it is given back, one that
    /// was taken before was.
    pub fn finish(&mut self, outcome: Outcome)
        requires some { 0 < length (jobs_in self.old) }
        requires fits { (js : List (Option Job)) (j : Job) → jobs_in self.old ≡ js ++ Some j ∷ [] → IsOf j outcome }
        requires cause { IsCauseAt (cause_of outcome.ending) (asked_in self.old) (length (jobs_in self.old) - 1) }
        ensures posted { SamePosted self.old self.new }
        ensures next { self.new.next ≡ self.old.next }
        ensures jobs { (x : Option Job) × (jobs_in self.old ≡ jobs_in self.new ++ x ∷ []) }
        ensures asked { KeptBelow (asked_in self.old) (length (jobs_in self.new)) (asked_in self.new) }
    {
        self.desk.finish(self.board, outcome);
        self.common.tell_all();
    }
}
