//! The goals of a desk's own, on the pads of its seat.
ghost use Rattle.std.specs.Prelude.{◌≡◌, ℕ, ◌<◌, ◌≤◌, true, List, [], ◌∷◌, ◌++◌, length, slice_get, slice_set, Some, IsSome, IsTrue, ◌↔◌, MatchBool, MatchOption, MatchResult};
ghost use Rattle.std.specs.List.{remove};
ghost use Rattle.ap_board.specs.declared.ticket.Ticket.{Ticket};
ghost use Rattle.ap_board.specs.declared.view.Kind.TheVariants.{Offer, Reclaim, Stop, Collect};
ghost use Rattle.ap_board.specs.History.{keeps};
ghost use Rattle.ap_board.specs.Rule.{logged, role, last_seen};
ghost use Rattle.ap_board.specs.Causes.{noting};
ghost use Rattle.ap_desk.specs.declared.note.Note.{Note};
ghost use Rattle.ap_desk.specs.Offered.{AreOut, JobsStay, job_of, fresh_note, taken_word, finished_word};

use crate::desk::Desk;
use crate::note::Note;
use ap_board::{Board, Fits};

impl<P: Fits<O> + Drop, O: Drop> Desk<P, O> {
    /// Counts the notes: its own goals that are out.
    pub fn count_out(&self) -> usize
        ensures count { result ≡ length self.now.4 }
        ensures out { AreOut self.now.1 self.now.0.slots self.now.4 }
    {
        self.notes.len()
    }

    /// Gives the note at a place, the oldest at 0.
    pub fn note(&self, i: usize) -> Note
        requires { i < length self.now.4 }
        ensures note { slice_get self.now.4 i ≡ Some result }
        ensures job { IsSome (job_of self.now.1 result) }
    {
        self.notes[i]
    }

    /// Offers a goal of its own on a free pad, and notes which frame and place it is of, behind the other notes. The goal comes back,
    /// and nothing has changed, where no pad is free or memory is wanting.
    pub fn offer(&mut self, board: &Board<P, O>, job: P, frame: u64, place: usize) -> Result<(), P>
        requires { self.old.0 ≡ board.now.table.shared.table_id }
        ensures same { (self.new.0 ≡ self.old.0) × (self.new.2 ≡ self.old.2) × (self.new.3 ≡ self.old.3) }
        ensures told { MatchResult result (λ _. (t : Ticket) × (self.new.4 ≡ self.old.4 ++ fresh_note t frame place ∷ []) × (role self.old.1 t.pad ≡ keeps t.round) × (self.new.1 ≡ logged self.old.1 t.pad t.round (Offer job)) × (job_of self.new.1 (fresh_note t frame place) ≡ Some job)) (λ x. (x ≡ job) × (self.new.1 ≡ self.old.1) × (self.new.4 ≡ self.old.4)) }
        ensures jobs { JobsStay self.old.1 self.new.1 self.old.2 self.old.4 }
    {
        if self.notes.reserve(1).is_err() {
            return Err(job);
        }
        let ticket = board.offer(&mut self.seat, job)?;
        self.notes.push_reserved(Note {
            ticket,
            frame,
            place,
            gone: false,
            asked: false,
        });
        Ok(())
    }

    /// Takes back the goal of a note, which is then none of the notes. None exactly where another seat took it: the note says from
    /// then on that it is gone.
    pub fn reclaim(&mut self, board: &Board<P, O>, k: usize) -> Option<P>
        requires table { self.old.0 ≡ board.now.table.shared.table_id }
        requires place { k < length self.old.4 }
        ensures same { (self.new.0 ≡ self.old.0) × (self.new.2 ≡ self.old.2) × (self.new.3 ≡ self.old.3) }
        ensures told { (n : Note) → slice_get self.old.4 k ≡ Some n → MatchOption result ((self.new.4 ≡ slice_set self.old.4 k (record n { gone = true })) × ((w : ℕ) × (taken_word n.ticket ≤ w) × (w ≤ finished_word n.ticket) × (self.new.1 ≡ noting self.old.1 n.ticket.pad w))) (λ x. (job_of self.old.1 n ≡ Some x) × (self.new.4 ≡ remove self.old.4 k) × (self.new.1 ≡ logged self.old.1 n.ticket.pad n.ticket.round Reclaim)) }
        ensures jobs { JobsStay self.old.1 self.new.1 self.old.2 self.new.4 }
    {
        let ticket = self.notes[k].ticket;
        match board.reclaim(&mut self.seat, ticket) {
            Some(job) => {
                self.notes.remove(k);
                Some(job)
            }
            None => {
                self.notes[k].gone = true;
                None
            }
        }
    }

    /// Asks the taker of a goal that is gone to stop, and tells whether it was still at work: false only where it had finished. The
    /// note says from then on that it was asked.
    pub fn stop(&mut self, board: &Board<P, O>, k: usize) -> bool
        requires table { self.old.0 ≡ board.now.table.shared.table_id }
        requires place { k < length self.old.4 }
        requires gone { (n : Note) → slice_get self.old.4 k ≡ Some n → n.gone ≡ true }
        ensures same { (self.new.0 ≡ self.old.0) × (self.new.2 ≡ self.old.2) × (self.new.3 ≡ self.old.3) }
        ensures told { (n : Note) → slice_get self.old.4 k ≡ Some n → (self.new.4 ≡ slice_set self.old.4 k (record n { asked = true })) × MatchBool result (self.new.1 ≡ logged self.old.1 n.ticket.pad n.ticket.round Stop) (self.new.1 ≡ noting self.old.1 n.ticket.pad (finished_word n.ticket)) }
        ensures jobs { JobsStay self.old.1 self.new.1 self.old.2 self.new.4 }
    {
        let ticket = self.notes[k].ticket;
        let at_work = board.stop(&mut self.seat, ticket);
        self.notes[k].asked = true;
        at_work
    }

    /// Notes that a goal is of another frame from then on.
    pub fn assign(&mut self, k: usize, frame: u64)
        requires { k < length self.old.4 }
        ensures same { (self.new.0 ≡ self.old.0) × (self.new.1 ≡ self.old.1) × (self.new.2 ≡ self.old.2) × (self.new.3 ≡ self.old.3) }
        ensures told { (n : Note) → slice_get self.old.4 k ≡ Some n → self.new.4 ≡ slice_set self.old.4 k (record n { frame = frame }) }
    {
        self.notes[k].frame = frame;
    }

    /// Collects the outcome of a note's goal, which is then none of the notes. None only where the goal wasn't finished; all but what
    /// was seen stays.
    pub fn collect(&mut self, board: &Board<P, O>, k: usize) -> Option<O>
        requires table { self.old.0 ≡ board.now.table.shared.table_id }
        requires place { k < length self.old.4 }
        ensures same { (self.new.0 ≡ self.old.0) × (self.new.2 ≡ self.old.2) × (self.new.3 ≡ self.old.3) }
        ensures told { (n : Note) → slice_get self.old.4 k ≡ Some n → MatchOption result ((self.new.4 ≡ self.old.4) × ((w : ℕ) × (last_seen self.old.1 n.ticket.pad ≤ w) × (w < finished_word n.ticket) × (self.new.1 ≡ noting self.old.1 n.ticket.pad w))) (λ y. (x : P) × (job_of self.old.1 n ≡ Some x) × P.fits x y × (self.new.4 ≡ remove self.old.4 k) × (self.new.1 ≡ logged self.old.1 n.ticket.pad n.ticket.round (Collect y))) }
        ensures done { (n : Note) → slice_get self.old.4 k ≡ Some n → finished_word n.ticket ≤ last_seen self.old.1 n.ticket.pad → IsSome result }
        ensures jobs { JobsStay self.old.1 self.new.1 self.old.2 self.new.4 }
    {
        let ticket = self.notes[k].ticket;
        let outcome = board.collect(&mut self.seat, ticket)?;
        self.notes.remove(k);
        Some(outcome)
    }

    /// Tells, by one look, whether the outcome of a note's goal can be collected.
    pub fn done(&mut self, board: &Board<P, O>, k: usize) -> bool
        requires table { self.old.0 ≡ board.now.table.shared.table_id }
        requires place { k < length self.old.4 }
        ensures same { (self.new.0 ≡ self.old.0) × (self.new.2 ≡ self.old.2) × (self.new.3 ≡ self.old.3) × (self.new.4 ≡ self.old.4) }
        ensures told { (n : Note) → slice_get self.old.4 k ≡ Some n → (w : ℕ) × (self.new.1 ≡ noting self.old.1 n.ticket.pad w) × (last_seen self.new.1 n.ticket.pad ≡ w) × (IsTrue result ↔ (w ≡ finished_word n.ticket)) }
        ensures jobs { JobsStay self.old.1 self.new.1 self.old.2 self.new.4 }
    {
        let ticket = self.notes[k].ticket;
        board.done(&mut self.seat, ticket)
    }
}
