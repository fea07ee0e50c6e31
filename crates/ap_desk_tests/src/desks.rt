//! A board with two desks.
ghost use Rattle.std.specs.Prelude.{◌≡◌, All, IfSome};
ghost use Rattle.ap_board.specs.Seats.{IsNewSeat};

use crate::parcel::{Outcome, Parcel};
use ap_board::{Board, BoardSeat, open_board};
use ap_desk::Desk;
use std::alloc::Global;

pub type Game = Board<Parcel, Outcome>;

pub type Player = Desk<Parcel, Outcome>;

// The desk on the last of some new seats.
fn next_desk(
    alloc: Global,
    board: &Game,
    seats: &mut Vec<BoardSeat<Parcel, Outcome>>,
) -> Option<Player>
    requires table { All (λ s. s.0 ≡ board.now.table.shared.table_id) seats.old.items }
    requires free { All (λ s. IsNewSeat 2 s.1.number s.1) seats.old.items }
    ensures table { All (λ s. s.0 ≡ board.now.table.shared.table_id) seats.new.items }
    ensures free { All (λ s. IsNewSeat 2 s.1.number s.1) seats.new.items }
    ensures desk { IfSome result (λ d. d.0 ≡ board.now.table.shared.table_id) }
{
    let seat = seats.pop()?;
    Some(Desk::new(alloc, seat))
}

/// A board for two desks, with two pads each. None only for want of memory.
pub fn two(alloc: Global) -> Option<(Game, Player, Player)>
    ensures { IfSome result (λ r. (r.1.0 ≡ r.0.table.shared.table_id) × (r.2.0 ≡ r.0.table.shared.table_id)) }
{
    let (board, mut seats) = open_board(alloc, 2, 2).ok()?;
    let second = next_desk(alloc, &board, &mut seats)?;
    let first = next_desk(alloc, &board, &mut seats)?;
    Some((board, first, second))
}
