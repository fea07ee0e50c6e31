//! Looks at the goals that a seat has.
ghost use Rattle.std.specs.Prelude.{◌≡◌};
ghost use Rattle.ap_desk.specs.Looks.{Looked};
ghost use Rattle.ap_desk.specs.Held.{AreBelow, KeptBelow};

use ap_board::{Board, BoardSeat, Fits, Ticket};

// Looks at the pads of the tickets, the oldest first, up to the first that was asked to stop, and gives its place.
pub(crate) fn find_asked<P: Fits<O> + Drop, O: Drop>(
    board: &Board<P, O>,
    seat: &mut BoardSeat<P, O>,
    tickets: &[Ticket],
) -> Option<usize>
    requires table { seat.old.0 ≡ board.now.table.shared.table_id }
    requires below { AreBelow seat.old.0.slots tickets.now }
    ensures table { seat.new.0 ≡ seat.old.0 }
    ensures looked { Looked seat.old.1 tickets.now seat.new.1 result }
{
    for i in 0..tickets.len() {
        if board.stop_asked(seat, tickets[i]) {
            return Some(i);
        }
    }
    None
}

// The place, where it is below the count.
pub(crate) fn kept(asked: Option<usize>, count: usize) -> Option<usize>
    ensures { KeptBelow asked count result }
{
    match asked {
        Some(i) if i < count => Some(i),
        _ => None,
    }
}
