//! A seat with the tickets of the goals that it took and the notes of those that it has out.
ghost use Rattle.std.specs.Prelude.{◌≡◌, ℕ, ◌<◌, Bool, List, [], ◌∷◌, ◌++◌, length, Option, Some, None, IfOk, IfSome, MatchOption, MatchResult, is_some};
ghost use Rattle.atomic_table.specs.Seated.{TableId};
ghost use Rattle.ap_board.specs.declared.ticket.Ticket.{Ticket};
ghost use Rattle.ap_board.specs.declared.view.View.{View};
ghost use Rattle.ap_board.specs.declared.view.Kind.TheVariants.{Take, Finish};
ghost use Rattle.ap_board.specs.History.{nothing, has};
ghost use Rattle.ap_board.specs.Rule.{logged, role};
ghost use Rattle.ap_desk.specs.Held.{AreHeld, IsFound, IsCauseAt, KeptBelow};
ghost use Rattle.ap_desk.specs.Looks.{Looked, Missed};
ghost use Rattle.ap_desk.specs.declared.note.Note.{Note};
ghost use Rattle.ap_desk.specs.Offered.{AreOut, JobsStay};

use crate::looks::{find_asked, kept};
use crate::note::Note;
use ap_board::{Board, BoardSeat, Fits, Ticket};
use std::alloc::{AllocError, Global};
use std::marker::Model;

/// A seat, the tickets of the goals that it took and hasn't finished, the oldest first, the place of the one that was found asked
/// to stop, and the notes of its own goals that are out, the oldest first. To a contract it is the seat's table, its view, the
/// tickets, that place and the notes.
#[derive(Drop)]
pub struct Desk<P, O> {
    pub(crate) seat: BoardSeat<P, O>,
    pub(crate) tickets: Vec<Ticket>,
    pub(crate) asked: Option<usize>,
    pub(crate) notes: Vec<Note>,
}

impl<P, O> Model for Desk<P, O> {
    ghost Value = { TableId × View P O × List Ticket × Option ℕ × List Note };

    ghost view = { λ d. (d.seat.0, d.seat.1, d.tickets.items, d.asked, d.notes.items) };

    ghost invariant = { λ d. AreHeld d.seat.1 d.seat.0.slots d.tickets.items × IsFound d.seat.1 d.tickets.items d.asked × AreOut d.seat.1 d.seat.0.slots d.notes.items };
}

impl<P: Fits<O> + Drop, O: Drop> Desk<P, O> {
    /// Makes the desk of a seat that has no goal of another. No goal of its own is noted.
    pub fn new(alloc: Global, seat: BoardSeat<P, O>) -> Desk<P, O>
        requires { (p r : ℕ) (x : P) (b : Bool) → role seat.1 p ≡ has r x b → ⊥ }
        ensures { result ≡ (seat.0, seat.1, [], None, []) }
    {
        Desk {
            seat,
            tickets: Vec::new(alloc),
            asked: None,
            notes: Vec::new(alloc),
        }
    }

    /// Counts the goals that it has.
    pub fn count(&self) -> usize
        ensures { result ≡ length self.now.2 }
    {
        self.tickets.len()
    }

    /// Gives the place of the goal that was found asked to stop, the oldest being 0.
    pub fn asked(&self) -> Option<usize>
        ensures place { result ≡ self.now.3 }
        ensures within { IfSome result (λ i. i < length self.now.2) }
    {
        self.asked
    }

    /// Takes the goal that another seat offers under this ticket. None where the ticket may not be taken, or the word, at the step
    /// of the board's call, wasn't that offer. Fails only for want of memory, and then nothing is taken.
    pub fn take(&mut self, board: &Board<P, O>, ticket: Ticket) -> Result<Option<P>, AllocError>
        requires { self.old.0 ≡ board.now.table.shared.table_id }
        ensures same { (self.new.0 ≡ self.old.0) × (self.new.3 ≡ self.old.3) × (self.new.4 ≡ self.old.4) }
        ensures jobs { JobsStay self.old.1 self.new.1 self.old.2 self.old.4 }
        ensures told { MatchResult result (λ r. MatchOption r ((self.new.2 ≡ self.old.2) × Missed self.old.0.slots self.old.1 ticket self.new.1) (λ x. (self.new.2 ≡ self.old.2 ++ ticket ∷ []) × (role self.old.1 ticket.pad ≡ nothing) × (self.new.1 ≡ logged self.old.1 ticket.pad ticket.round (Take x)))) (λ _. (self.new.1 ≡ self.old.1) × (self.new.2 ≡ self.old.2)) }
    {
        if !self.seat.may_take(ticket) {
            return Ok(None);
        }
        self.tickets.reserve(1)?;
        match board.take(&mut self.seat, ticket) {
            Some(parcel) => {
                self.tickets.push_reserved(ticket);
                Ok(Some(parcel))
            }
            None => Ok(None),
        }
    }

    /// Tells whether one of its goals was asked to stop. It looks at them, the oldest first, until one was found, and keeps which.
    pub fn poll(&mut self, board: &Board<P, O>) -> bool
        requires { self.old.0 ≡ board.now.table.shared.table_id }
        ensures same { (self.new.0 ≡ self.old.0) × (self.new.2 ≡ self.old.2) × (self.new.4 ≡ self.old.4) }
        ensures jobs { JobsStay self.old.1 self.new.1 self.old.2 self.old.4 }
        ensures told { result ≡ is_some self.new.3 }
        ensures looked { MatchOption self.old.3 (Looked self.old.1 self.old.2 self.new.1 self.new.3) (λ i. (self.new.1 ≡ self.old.1) × (self.new.3 ≡ Some i)) }
    {
        let None = self.asked else {
            return true;
        };
        self.asked = find_asked(board, &mut self.seat, &self.tickets);
        self.asked.is_some()
    }

    /// Gives the outcome of the goal that was taken last. Where it was stopped, that goal was found asked to stop; where it is given
    /// back, an older one was.
    pub fn finish(&mut self, board: &Board<P, O>, outcome: O)
        requires table { self.old.0 ≡ board.now.table.shared.table_id }
        requires some { 0 < length self.old.2 }
        requires fits { (ts : List Ticket) (t : Ticket) → self.old.2 ≡ ts ++ t ∷ [] → (x : P) (b : Bool) → role self.old.1 t.pad ≡ has t.round x b → P.fits x outcome }
        requires cause { (ts : List Ticket) (t : Ticket) → self.old.2 ≡ ts ++ t ∷ [] → IsCauseAt (P.cause outcome) self.old.3 (length ts) }
        ensures same { (self.new.0 ≡ self.old.0) × (self.new.4 ≡ self.old.4) }
        ensures jobs { JobsStay self.old.1 self.new.1 self.new.2 self.old.4 }
        ensures told { (ts : List Ticket) × (t : Ticket) × (self.old.2 ≡ ts ++ t ∷ []) × (self.new.2 ≡ ts) × (self.new.1 ≡ logged self.old.1 t.pad t.round (Finish outcome)) }
        ensures asked { KeptBelow self.old.3 (length self.new.2) self.new.3 }
    {
        let Some(ticket) = self.tickets.pop() else {
            unreachable!()
        };
        board.finish(&mut self.seat, ticket, outcome);
        self.asked = kept(self.asked, self.tickets.len());
    }
}
