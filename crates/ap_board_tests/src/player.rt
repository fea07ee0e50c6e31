//! A seat that remembers what it may do: a call that its state doesn't allow is refused before it reaches the board.
ghost use Rattle.std.specs.Prelude.{◌≡◌, ◌+◌, ◌*◌, ◌≤◌, Bool, IsTrue, IfOk, length};
ghost use Rattle.atomic_table.specs.Seated.{TableId};
ghost use Rattle.ap_board.specs.declared.view.View.{View};
ghost use Rattle.ap_board.specs.History.{on, out, has};
ghost use Rattle.ap_board.specs.Rule.{role, last_seen};
ghost use Rattle.ap_board_tests.specs.declared.parcel.Parcel.{Parcel};
ghost use Rattle.ap_board_tests.specs.declared.parcel.Outcome.{Outcome};
ghost use Rattle.ap_board_tests.specs.Spots.{At, AreSpots};

use crate::parcel::{Outcome, Parcel};
use crate::spot::Spot;
use ap_board::{Board, BoardSeat, Ticket};
use std::alloc::{AllocError, Global};
use std::marker::Model;
use std::sync::Wait;

pub type Game = Board<Parcel, Outcome>;

/// The call isn't one that this seat may make now.
#[derive(Debug, Drop)]
pub struct Refused;

#[derive(Drop)]
pub struct Player {
    seat: BoardSeat<Parcel, Outcome>,
    spots: Vec<Spot>,
}

impl Model for Player {
    ghost Value = { TableId };

    ghost view = { λ p. p.seat.0 };

    ghost invariant = { λ p. AreSpots p.spots.items p.seat.1 × (length p.spots.items ≡ p.seat.0.slots) };
}

// What is remembered of a pad.
fn recall(spots: &[Spot], pad: usize) -> Spot
    ensures { (v : View Parcel Outcome) → AreSpots spots.now v → At result (on pad v.calls) }
{
    match spots.get(pad) {
        Some(spot) => *spot,
        None => Spot::Nothing,
    }
}

// Whether the ticket is for an offer of its own that hasn't ended.
fn is_sent(spots: &[Spot], ticket: Ticket) -> bool
    ensures { IsTrue result → (v : View Parcel Outcome) → AreSpots spots.now v → (x : Parcel) × (role v ticket.pad ≡ out ticket.round x) }
{
    match recall(spots, ticket.pad) {
        Spot::Sent(round) => round == ticket.round,
        Spot::Gone(round) => round == ticket.round,
        Spot::Nothing => false,
        Spot::Has(_) => false,
    }
}

// Whether the ticket is for an offer of its own that was seen taken, and hasn't ended.
fn is_gone(spots: &[Spot], ticket: Ticket) -> bool
    ensures { IsTrue result → (v : View Parcel Outcome) → AreSpots spots.now v → (ticket.round * 8 + 2 ≤ last_seen v ticket.pad) × ((x : Parcel) × (role v ticket.pad ≡ out ticket.round x)) }
{
    match recall(spots, ticket.pad) {
        Spot::Gone(round) => round == ticket.round,
        Spot::Sent(_) => false,
        Spot::Nothing => false,
        Spot::Has(_) => false,
    }
}

// Whether the ticket is for a parcel that it took and hasn't finished.
fn is_held(spots: &[Spot], ticket: Ticket) -> bool
    ensures { IsTrue result → (v : View Parcel Outcome) → AreSpots spots.now v → (x : Parcel) × (b : Bool) × (role v ticket.pad ≡ has ticket.round x b) }
{
    match recall(spots, ticket.pad) {
        Spot::Has(round) => round == ticket.round,
        Spot::Sent(_) => false,
        Spot::Gone(_) => false,
        Spot::Nothing => false,
    }
}

impl Player {
    /// A player on a seat of a board with so many pads.
    pub fn new(
        alloc: Global,
        seat: BoardSeat<Parcel, Outcome>,
        pads: usize,
    ) -> Result<Player, AllocError>
        requires { seat.0.slots ≡ pads }
        ensures { IfOk result (λ p. p ≡ seat.0) }
    {
        let spots = Vec::from_elem(alloc, Spot::Nothing, pads)?;
        Ok(Player { seat, spots })
    }

    pub fn offer(&mut self, board: &Game, number: u32) -> Option<Ticket>
        requires { self.old ≡ board.now.table.shared.table_id }
        ensures { self.new ≡ self.old }
    {
        match board.offer(&mut self.seat, Parcel { number }) {
            Ok(ticket) => {
                self.spots[ticket.pad] = Spot::Sent(ticket.round);
                Some(ticket)
            }
            Err(_) => None,
        }
    }

    pub fn take(&mut self, board: &Game, ticket: Ticket) -> Result<Option<u32>, Refused>
        requires { self.old ≡ board.now.table.shared.table_id }
        ensures { self.new ≡ self.old }
    {
        if !self.seat.may_take(ticket) {
            return Err(Refused);
        }
        match board.take(&mut self.seat, ticket) {
            Some(parcel) => {
                self.spots[ticket.pad] = Spot::Has(ticket.round);
                Ok(Some(parcel.number))
            }
            None => Ok(None),
        }
    }

    pub fn reclaim(&mut self, board: &Game, ticket: Ticket) -> Result<Option<u32>, Refused>
        requires { self.old ≡ board.now.table.shared.table_id }
        ensures { self.new ≡ self.old }
    {
        if ticket.pad >= self.spots.len() || !is_sent(&self.spots, ticket) {
            return Err(Refused);
        }
        match board.reclaim(&mut self.seat, ticket) {
            Some(parcel) => {
                self.spots[ticket.pad] = Spot::Nothing;
                Ok(Some(parcel.number))
            }
            None => {
                self.spots[ticket.pad] = Spot::Gone(ticket.round);
                Ok(None)
            }
        }
    }

    pub fn stop(&mut self, board: &Game, ticket: Ticket) -> Result<bool, Refused>
        requires { self.old ≡ board.now.table.shared.table_id }
        ensures { self.new ≡ self.old }
    {
        if ticket.pad >= self.spots.len() || !is_gone(&self.spots, ticket) {
            return Err(Refused);
        }
        let running = board.stop(&mut self.seat, ticket);
        self.spots[ticket.pad] = Spot::Gone(ticket.round);
        Ok(running)
    }

    pub fn finish(&mut self, board: &Game, ticket: Ticket, number: u32) -> Result<(), Refused>
        requires { self.old ≡ board.now.table.shared.table_id }
        ensures { self.new ≡ self.old }
    {
        if ticket.pad >= self.spots.len() || !is_held(&self.spots, ticket) {
            return Err(Refused);
        }
        board.finish(&mut self.seat, ticket, Outcome { number });
        self.spots[ticket.pad] = Spot::Nothing;
        Ok(())
    }

    pub fn stop_asked(&mut self, board: &Game, ticket: Ticket) -> Result<bool, Refused>
        requires { self.old ≡ board.now.table.shared.table_id }
        ensures { self.new ≡ self.old }
    {
        if ticket.pad >= self.spots.len() {
            return Err(Refused);
        }
        Ok(board.stop_asked(&mut self.seat, ticket))
    }

    pub fn done(&mut self, board: &Game, ticket: Ticket) -> Result<bool, Refused>
        requires { self.old ≡ board.now.table.shared.table_id }
        ensures { self.new ≡ self.old }
    {
        if ticket.pad >= self.spots.len() {
            return Err(Refused);
        }
        Ok(board.done(&mut self.seat, ticket))
    }

    pub fn await_done<R: Wait>(
        &mut self,
        rt: &R,
        board: &Game,
        ticket: Ticket,
    ) -> Result<(), Refused>
        requires { self.old ≡ board.now.table.shared.table_id }
        ensures { self.new ≡ self.old }
    {
        for _ in rt.forever() {
            if self.done(board, ticket)? {
                return Ok(());
            }
        }
        unreachable!()
    }

    pub fn collect(&mut self, board: &Game, ticket: Ticket) -> Result<Option<u32>, Refused>
        requires { self.old ≡ board.now.table.shared.table_id }
        ensures { self.new ≡ self.old }
    {
        if !self.seat.owns(ticket) {
            return Err(Refused);
        }
        match board.collect(&mut self.seat, ticket) {
            Some(outcome) => {
                self.spots[ticket.pad] = Spot::Nothing;
                Ok(Some(outcome.number))
            }
            None => Ok(None),
        }
    }
}
