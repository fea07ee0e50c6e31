//! Calls that a test may make at any time: what the desk's state doesn't allow is refused.
ghost use Rattle.std.specs.Prelude.{◌≡◌};

use crate::desks::{Game, Player};
use crate::parcel::Outcome;

/// Takes back the goal of a note, and gives its number.
pub fn reclaim(desk: &mut Player, board: &Game, k: usize) -> Option<u32>
    requires { desk.old.0 ≡ board.now.table.shared.table_id }
    ensures { desk.new.0 ≡ desk.old.0 }
{
    if k < desk.count_out() {
        Some(desk.reclaim(board, k)?.number)
    } else {
        None
    }
}

/// Asks the taker of a note's goal to stop.
pub fn stop(desk: &mut Player, board: &Game, k: usize) -> bool
    requires { desk.old.0 ≡ board.now.table.shared.table_id }
    ensures { desk.new.0 ≡ desk.old.0 }
{
    k < desk.count_out() && desk.note(k).gone && desk.stop(board, k)
}

/// Collects the outcome of a note's goal, and gives its number.
pub fn collect(desk: &mut Player, board: &Game, k: usize) -> Option<u32>
    requires { desk.old.0 ≡ board.now.table.shared.table_id }
    ensures { desk.new.0 ≡ desk.old.0 }
{
    if k < desk.count_out() {
        Some(desk.collect(board, k)?.number)
    } else {
        None
    }
}

/// Gives the outcome of the goal that was taken last.
pub fn finish(desk: &mut Player, board: &Game, number: u32) -> bool
    requires { desk.old.0 ≡ board.now.table.shared.table_id }
    ensures { desk.new.0 ≡ desk.old.0 }
{
    if desk.count() == 0 {
        return false;
    }
    desk.finish(board, Outcome { number });
    true
}
