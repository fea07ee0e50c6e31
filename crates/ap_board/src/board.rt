//! The board and its calls.
ghost use Rattle.std.specs.Prelude.{◌≡◌, ◌≢◌, ℕ, ◌+◌, ◌*◌, ◌/◌, ◌^◌, ◌<◌, ◌≤◌, Bool, List, true, IsTrue, ◌↔◌, IsSome, IfOk, MatchOption, MatchResult, MatchBool};
ghost use Rattle.ap_board.specs.History.{nothing, keeps, out, has};
ghost use Rattle.ap_board.specs.Rule.{logged, role, last_seen, taking_in, Recorded};
ghost use Rattle.ap_board.specs.Causes.{HasCause, noting, noting_all};
ghost use Rattle.ap_board.specs.Plays.{Rises};
ghost use Rattle.ap_board.specs.declared.view.Kind.TheVariants.{Offer, Take, Reclaim, Stop, Finish, Collect};

use crate::hand::Hand;
use crate::plays::{Cut, TakeIn};
use crate::rule::{Fits, Ruled};
use crate::seat::BoardSeat;
use crate::steps;
use crate::steps::Place;
use crate::ticket::Ticket;
use crate::view::{Content, View};
use atomic_table::Table;
use crossbeam_utils::Backoff;
use std::alloc::Global;
use std::sync::Wait;

/// The words and slots that all seats share by reference.
#[derive(Drop)]
pub struct Board<P: Fits<O> + Drop, O: Drop> {
    pub(crate) table: Table<Option<Content<P, O>>, View<P, O>, u64, Ruled<P, O>, Global>,
    pub ghost words: { table.shared.table_id.words ≡ table.shared.table_id.slots },
}

impl<P: Fits<O> + Drop, O: Drop> Board<P, O> {
    /// Offers a parcel on a free pad of this seat, and gives the ticket for it. The parcel comes back exactly where no pad of the
    /// seat is free: each is offered, taken or finished, or has come to the last round.
    pub fn offer(&self, seat: &mut BoardSeat<P, O>, parcel: P) -> Result<Ticket, P>
        requires { seat.old.0 ≡ self.now.table.shared.table_id }
        ensures table { seat.new.0 ≡ seat.old.0 }
        ensures own { IfOk result (λ t. t.pad / seat.old.1.pads ≡ seat.old.1.number) }
        ensures told { MatchResult result (λ t. (role seat.old.1 t.pad ≡ keeps t.round) × (t.pad < seat.old.0.slots) × (seat.new.1 ≡ logged seat.old.1 t.pad t.round (Offer parcel))) (λ x. (x ≡ parcel) × (seat.new.1 ≡ seat.old.1) × ((p r : ℕ) → role seat.old.1 p ≡ keeps r → 2 ^ 60 ≤ r)) }
    {
        match seat.find_free() {
            Some(ticket) => {
                seat.hand.bring(ticket.pad);
                seat.hand
                    .offer(&self.table.shared, ticket.pad, ticket.round, parcel);
                Ok(ticket)
            }
            None => Err(parcel),
        }
    }

    /// Takes the parcel that another seat offers under this ticket. None only where the word, at its step, wasn't that offer.
    pub fn take(&self, seat: &mut BoardSeat<P, O>, ticket: Ticket) -> Option<P>
        requires table { seat.old.0 ≡ self.now.table.shared.table_id }
        requires pad { ticket.pad < seat.old.0.slots }
        requires other { ticket.pad / seat.old.1.pads ≢ seat.old.1.number }
        ensures table { seat.new.0 ≡ seat.old.0 }
        ensures rises { Rises seat.old.1 ticket.pad seat.new.1 }
        ensures told { MatchOption result ((n : ℕ) × (n ≢ ticket.round * 8 + 1) × (seat.new.1 ≡ noting seat.old.1 ticket.pad n)) (λ x. (role seat.old.1 ticket.pad ≡ nothing) × (seat.new.1 ≡ logged seat.old.1 ticket.pad ticket.round (Take x))) }
    {
        seat.hand.take(&self.table.shared, ticket.pad, ticket.round)
    }

    /// Gives the outcome for a parcel that this seat took, where its owner can collect it. It can't be refused.
    pub fn finish(&self, seat: &mut BoardSeat<P, O>, ticket: Ticket, outcome: O)
        requires table { seat.old.0 ≡ self.now.table.shared.table_id }
        requires pad { ticket.pad < seat.old.0.slots }
        requires holds { (x : P) × (b : Bool) × (role seat.old.1 ticket.pad ≡ has ticket.round x b) × P.fits x outcome × HasCause (P.cause outcome) seat.old.1 ticket.pad b }
        ensures table { seat.new.0 ≡ seat.old.0 }
        ensures told { seat.new.1 ≡ logged seat.old.1 ticket.pad ticket.round (Finish outcome) }
    {
        seat.hand.bring(ticket.pad);
        seat.hand
            .finish(&self.table.shared, ticket.pad, ticket.round, outcome);
    }

    /// Collects the outcome of an offer on a pad of this seat, which frees the pad. None only where the word, at its step, wasn't that
    /// offer, finished.
    pub fn collect(&self, seat: &mut BoardSeat<P, O>, ticket: Ticket) -> Option<O>
        requires table { seat.old.0 ≡ self.now.table.shared.table_id }
        requires pad { ticket.pad < seat.old.0.slots }
        requires own { ticket.pad / seat.old.1.pads ≡ seat.old.1.number }
        ensures table { seat.new.0 ≡ seat.old.0 }
        ensures told { MatchOption result ((n : ℕ) × (last_seen seat.old.1 ticket.pad ≤ n) × (n ≢ ticket.round * 8 + 4) × ((x : P) → role seat.old.1 ticket.pad ≡ out ticket.round x → n < ticket.round * 8 + 4) × (seat.new.1 ≡ noting seat.old.1 ticket.pad n)) (λ y. (x : P) × (role seat.old.1 ticket.pad ≡ out ticket.round x) × P.fits x y × (seat.new.1 ≡ logged seat.old.1 ticket.pad ticket.round (Collect y))) }
        ensures done { (x : P) → role seat.old.1 ticket.pad ≡ out ticket.round x → ticket.round * 8 + 4 ≤ last_seen seat.old.1 ticket.pad → IsSome result }
    {
        let outcome = seat
            .hand
            .collect(&self.table.shared, ticket.pad, ticket.round)?;
        seat.rounds[ticket.pad - seat.first] = ticket.round + 1;
        Some(outcome)
    }

    /// Takes back a parcel that this seat offered, which frees the pad. None only where another seat took it.
    pub fn reclaim(&self, seat: &mut BoardSeat<P, O>, ticket: Ticket) -> Option<P>
        requires table { seat.old.0 ≡ self.now.table.shared.table_id }
        requires pad { ticket.pad < seat.old.0.slots }
        requires offered { (x : P) × (role seat.old.1 ticket.pad ≡ out ticket.round x) }
        ensures table { seat.new.0 ≡ seat.old.0 }
        ensures told { MatchOption result ((n : ℕ) × (ticket.round * 8 + 2 ≤ n) × (n ≤ ticket.round * 8 + 4) × (seat.new.1 ≡ noting seat.old.1 ticket.pad n)) (λ x. (role seat.old.1 ticket.pad ≡ out ticket.round x) × (seat.new.1 ≡ logged seat.old.1 ticket.pad ticket.round Reclaim)) }
    {
        let parcel = seat
            .hand
            .reclaim(&self.table.shared, ticket.pad, ticket.round)?;
        seat.rounds[ticket.pad - seat.first] = ticket.round + 1;
        Some(parcel)
    }

    /// Asks the taker of an offer of this seat to stop, and tells whether it was still at work: false only where it had finished.
    pub fn stop(&self, seat: &mut BoardSeat<P, O>, ticket: Ticket) -> bool
        requires table { seat.old.0 ≡ self.now.table.shared.table_id }
        requires pad { ticket.pad < seat.old.0.slots }
        requires offered { (x : P) × (role seat.old.1 ticket.pad ≡ out ticket.round x) }
        requires was_taken { ticket.round * 8 + 2 ≤ last_seen seat.old.1 ticket.pad }
        ensures table { seat.new.0 ≡ seat.old.0 }
        ensures told { MatchBool result (seat.new.1 ≡ logged seat.old.1 ticket.pad ticket.round Stop) (seat.new.1 ≡ noting seat.old.1 ticket.pad (ticket.round * 8 + 4)) }
    {
        steps::stop(
            &self.table.shared,
            &mut seat.hand.place,
            ticket.pad,
            ticket.round,
        )
    }

    // Looks at a pad, and gives the word found.
    fn look(&self, seat: &mut BoardSeat<P, O>, pad: usize) -> u64
        requires table { seat.old.0 ≡ self.now.table.shared.table_id }
        requires pad { pad < seat.old.0.slots }
        ensures table { seat.new.0 ≡ seat.old.0 }
        ensures rises { Rises seat.old.1 pad seat.new.1 }
        ensures told { seat.new.1 ≡ noting seat.old.1 pad result }
    {
        steps::look(&self.table.shared, &mut seat.hand.place, pad)
    }

    /// Tells, by one look, whether the owner has asked the taker of this ticket to stop.
    pub fn stop_asked(&self, seat: &mut BoardSeat<P, O>, ticket: Ticket) -> bool
        requires table { seat.old.0 ≡ self.now.table.shared.table_id }
        requires pad { ticket.pad < seat.old.0.slots }
        ensures table { seat.new.0 ≡ seat.old.0 }
        ensures told { (n : ℕ) × (last_seen seat.old.1 ticket.pad ≤ last_seen seat.new.1 ticket.pad) × (seat.new.1 ≡ noting seat.old.1 ticket.pad n) × (IsTrue result ↔ (n ≡ ticket.round * 8 + 3)) }
    {
        self.look(seat, ticket.pad) == ticket.round * 8 + 3
    }

    /// Tells, by one look, whether this ticket's outcome can be collected.
    pub fn done(&self, seat: &mut BoardSeat<P, O>, ticket: Ticket) -> bool
        requires table { seat.old.0 ≡ self.now.table.shared.table_id }
        requires pad { ticket.pad < seat.old.0.slots }
        ensures table { seat.new.0 ≡ seat.old.0 }
        ensures told { (n : ℕ) × (last_seen seat.old.1 ticket.pad ≤ last_seen seat.new.1 ticket.pad) × (seat.new.1 ≡ noting seat.old.1 ticket.pad n) × (IsTrue result ↔ (n ≡ ticket.round * 8 + 4)) }
    {
        self.look(seat, ticket.pad) == ticket.round * 8 + 4
    }

    /// Waits until a look finds that this ticket's outcome can be collected, backing off between looks.
    pub fn await_done<R: Wait>(&self, rt: &R, seat: &mut BoardSeat<P, O>, ticket: Ticket)
        requires table { seat.old.0 ≡ self.now.table.shared.table_id }
        requires pad { ticket.pad < seat.old.0.slots }
        ensures table { seat.new.0 ≡ seat.old.0 }
        ensures done { last_seen seat.new.1 ticket.pad ≡ ticket.round * 8 + 4 }
        ensures looks { (ns : List ℕ) × (seat.new.1 ≡ noting_all seat.old.1 ticket.pad ns) }
    {
        let backoff = Backoff::new();
        for _ in rt.forever() {
            if self.done(seat, ticket) {
                return;
            }
            backoff.snooze();
        }
        unreachable!()
    }

    /// Adds all calls of a seat that makes no more, and of those that it took in, to the calls that this seat knows. It takes no
    /// memory. The seat must hold no parcel that it took, which would be lost.
    pub fn take_in(&self, into: &mut BoardSeat<P, O>, from: BoardSeat<P, O>)
        requires table { (into.old.0 ≡ self.now.table.shared.table_id) × (from.0 ≡ self.now.table.shared.table_id) }
        requires pads { 0 < into.old.0.slots }
        requires gave_all { (p r : ℕ) (x : P) (b : Bool) → role from.1 p ≢ has r x b }
        ensures table { into.new.0 ≡ into.old.0 }
        ensures taken { into.new.1 ≡ taking_in into.old.1 from.1 }
    {
        let words = &self.table.shared;
        let Hand { mut place, .. } = from.hand;
        let cut: Place<P, O> = words.split_seat::<Cut>(&mut place);
        words.join_seat::<TakeIn>(&mut into.hand.place, cut);
    }

    /// Shows, by one look of which nothing is noted, a legal history of each pad that has just the calls of the seats that this one
    /// knows.
    pub fn histories(&self, seat: &mut BoardSeat<P, O>)
        requires table { seat.old.0 ≡ self.now.table.shared.table_id }
        requires pads { 0 < seat.old.0.slots }
        ensures same { (seat.new.0 ≡ seat.old.0) × (seat.new.1 ≡ seat.old.1) }
        ensures shown { (p : ℕ) → p < seat.old.0.slots → Recorded P.fits P.cause seat.old.1 p }
    {
        steps::show(&self.table.shared, &mut seat.hand.place);
    }
}
