//! A seat, and what it tells of itself.
ghost use Rattle.std.specs.Prelude.{◌≡◌, ◌≢◌, ℕ, ◌^◌, ◌/◌, ◌<◌, ◌≤◌, MatchOption, IsTrue, ◌↔◌};
ghost use Rattle.atomic_table.specs.Seated.{TableId};
ghost use Rattle.ap_board.specs.declared.view.View.{View};
ghost use Rattle.ap_board.specs.History.{keeps};
ghost use Rattle.ap_board.specs.Rule.{role};
ghost use Rattle.ap_board.specs.Seats.{IsSeat};

use crate::hand::Hand;
use crate::ticket::{LAST_ROUND, Ticket};
use std::marker::Model;

/// What the seat knows and holds, and the rounds of its own pads, of which `first` is the first. To a contract it is its table and its view.
#[derive(Drop)]
pub struct BoardSeat<P, O> {
    pub(crate) hand: Hand<P, O>,
    pub(crate) rounds: Vec<u64>,
    pub(crate) first: usize,
}

impl<P, O> Model for BoardSeat<P, O> {
    ghost Value = { TableId × View P O };

    ghost view = { λ s. (s.hand.place.table_id, s.hand.place.me.0) };

    ghost invariant = { λ s. IsSeat s.hand.place.me.0 s.hand.order.items s.rounds.items s.first s.hand.place.table_id.slots };
}

impl<P, O> BoardSeat<P, O> {
    /// Tells whether the ticket's pad is another seat's pad of this board, so that the ticket may be taken.
    pub fn may_take(&self, ticket: Ticket) -> bool
        ensures { IsTrue result ↔ ((ticket.pad < self.now.0.slots) × (ticket.pad / self.now.1.pads ≢ self.now.1.number)) }
    {
        ticket.pad < self.hand.total
            && (ticket.pad < self.first || self.rounds.len() <= ticket.pad - self.first)
    }

    /// Tells whether the ticket's pad is one of this seat's own.
    pub fn owns(&self, ticket: Ticket) -> bool
        ensures owner { IsTrue result ↔ (ticket.pad / self.now.1.pads ≡ self.now.1.number) }
        ensures within { IsTrue result → ticket.pad < self.now.0.slots }
    {
        self.first <= ticket.pad && ticket.pad - self.first < self.rounds.len()
    }

    // A free pad, with its round.
    pub(crate) fn find_free(&self) -> Option<Ticket>
        ensures { MatchOption result ((p r : ℕ) → role self.now.1 p ≡ keeps r → 2 ^ 60 ≤ r) (λ t. (role self.now.1 t.pad ≡ keeps t.round) × (t.pad < self.now.0.slots) × (t.pad / self.now.1.pads ≡ self.now.1.number)) }
    {
        for i in 0..self.hand.order.len() {
            let pad = self.hand.order[i];
            if self.first <= pad && pad - self.first < self.rounds.len() {
                let round = self.rounds[pad - self.first];
                if round < LAST_ROUND {
                    return Some(Ticket { pad, round });
                }
            }
        }
        None
    }
}
