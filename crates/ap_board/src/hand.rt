//! The slots that a seat holds.
ghost use Rattle.std.specs.Prelude.{◌≡◌, ◌≤◌, false};
ghost use Rattle.std.specs.VecDeque.{deque_capacity};
ghost use Rattle.ap_board.specs.Seats.{bare};

use crate::steps::Place;
use std::collections::VecDeque;

/// What a seat knows, and the pads whose slots it holds, in the order in which they lie there. The slots are empty.
#[derive(Drop)]
pub(crate) struct Hand<P, O> {
    pub(crate) place: Place<P, O>,
    pub(crate) order: VecDeque<usize>,
    pub(crate) total: usize,
    pub ghost bare_is: { place.me.1 ≡ bare order.items },
    pub ghost room: { place.table_id.slots ≤ deque_capacity order },
    pub ghost words: { place.table_id.words ≡ place.table_id.slots },
    pub ghost total_is: { place.table_id.slots ≡ total },
    pub ghost live: { place.me.0.ended ≡ false },
}
