//! Boards with players.
ghost use Rattle.std.specs.Prelude.{◌≡◌, ◌<◌, ◌≤◌, ◌*◌, All, IfSome};

use crate::parcel::{Outcome, Parcel};
use crate::player::{Game, Player};
use ap_board::{BoardSeat, open_board};
use std::alloc::Global;

// The player on the last seat.
fn next_player(
    alloc: Global,
    board: &Game,
    seats: &mut Vec<BoardSeat<Parcel, Outcome>>,
    total: usize,
) -> Option<Player>
    requires table { All (λ s. s.0 ≡ board.now.table.shared.table_id) seats.old.items }
    requires total { board.now.table.shared.table_id.slots ≡ total }
    ensures table { All (λ s. s.0 ≡ board.now.table.shared.table_id) seats.new.items }
    ensures player { IfSome result (λ p. p ≡ board.now.table.shared.table_id) }
{
    Player::new(alloc, seats.pop()?, total).ok()
}

/// A board for three players, with so many pads for each. None only for want of memory.
pub fn three(alloc: Global, pads: u32) -> Option<(Game, Player, Player, Player)>
    requires { (0 < pads) × (pads ≤ 1024) }
    ensures { IfSome result (λ r. (r.1 ≡ r.0.table.shared.table_id) × (r.2 ≡ r.0.table.shared.table_id) × (r.3 ≡ r.0.table.shared.table_id)) }
{
    let (board, mut seats) = open_board(alloc, 3, pads).ok()?;
    let total = 3 * pads as usize;
    let third = next_player(alloc, &board, &mut seats, total)?;
    let second = next_player(alloc, &board, &mut seats, total)?;
    let first = next_player(alloc, &board, &mut seats, total)?;
    Some((board, first, second, third))
}

/// Four players on a board with 64 pads for each. None only for want of memory.
pub fn four(alloc: Global) -> Option<(Game, Player, Player, Player, Player)>
    ensures { IfSome result (λ r. (r.1 ≡ r.0.table.shared.table_id) × (r.2 ≡ r.0.table.shared.table_id) × (r.3 ≡ r.0.table.shared.table_id) × (r.4 ≡ r.0.table.shared.table_id)) }
{
    let (board, mut seats) = open_board(alloc, 4, 64).ok()?;
    let fourth = next_player(alloc, &board, &mut seats, 256)?;
    let third = next_player(alloc, &board, &mut seats, 256)?;
    let second = next_player(alloc, &board, &mut seats, 256)?;
    let first = next_player(alloc, &board, &mut seats, 256)?;
    Some((board, first, second, third, fourth))
}
