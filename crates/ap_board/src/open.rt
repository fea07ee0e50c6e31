//! Making a board.
ghost use Rattle.std.specs.Prelude.{◌≡◌, ◌+◌, ◌*◌, ◌/◌, ◌<◌, ◌≤◌, ℕ, List, [], ◌∷◌, length, replicate, All, IfOk, false};
ghost use Rattle.ap_board.specs.History.{nothing};
ghost use Rattle.ap_board.specs.Rule.{logged, role, view_of, newcomer, one_more};
ghost use Rattle.ap_board.specs.Seats.{IsSeat, IsNewSeat, opens, seated};
ghost use Rattle.ap_board.specs.Rows.{AreNext, seats_of};
ghost use Rattle.ap_board.specs.declared.view.Kind.TheVariants.{Open};

use crate::board::Board;
use crate::hand::Hand;
use crate::plays::Another;
use crate::rule::Fits;
use crate::seat::BoardSeat;
use crate::steps;
use crate::steps::{Place, Words};
use atomic_table::Table;
use std::alloc::{AllocError, Global};
use std::collections::VecDeque;

fn empty_hand<P, O>(
    alloc: Global,
    place: Place<P, O>,
    total: usize,
) -> Result<Hand<P, O>, AllocError>
    requires slots { (place.table_id.slots ≡ total) × (place.table_id.words ≡ total) }
    requires none { place.me.1 ≡ [] }
    requires live { place.me.0.ended ≡ false }
    ensures { IfOk result (λ h. (h.place ≡ place) × (h.order.items ≡ [])) }
{
    let order = VecDeque::with_capacity(alloc, total)?;
    Ok(Hand {
        place,
        order,
        total,
    })
}

fn open_pad<P: Fits<O> + Drop, O: Drop>(hand: &mut Hand<P, O>, words: &Words<P, O>, pad: usize)
    requires table { hand.old.place.table_id ≡ words.now.table_id }
    requires pad { pad < words.now.table_id.slots }
    requires new { role hand.old.place.me.0 pad ≡ nothing }
    requires own { pad / hand.old.place.me.0.pads ≡ hand.old.place.me.0.number }
    requires space { length hand.old.order.items < words.now.table_id.slots }
    ensures table { hand.new.place.table_id ≡ hand.old.place.table_id }
    ensures view { hand.new.place.me.0 ≡ logged hand.old.place.me.0 pad 0 Open }
    ensures order { hand.new.order.items ≡ pad ∷ hand.old.order.items }
{
    steps::open(words, &mut hand.place, pad);
    hand.order.push_front_reserved(pad);
}

// Opens all pads of a seat.
fn open_pads<P: Fits<O> + Drop, O: Drop>(
    hand: &mut Hand<P, O>,
    words: &Words<P, O>,
    first: usize,
    pads: usize,
)
    requires table { hand.old.place.table_id ≡ words.now.table_id }
    requires fits { (0 < pads) × (first + pads ≤ words.now.table_id.slots) }
    requires own { (hand.old.place.me.0.pads ≡ pads) × (first ≡ hand.old.place.me.0.number * pads) }
    requires new { (hand.old.place.me.0 ≡ view_of hand.old.place.me.0.number pads hand.old.place.me.0.made [] []) × (hand.old.order.items ≡ []) }
    ensures table { hand.new.place.table_id ≡ hand.old.place.table_id }
    ensures view { hand.new.place.me.0 ≡ view_of hand.old.place.me.0.number pads hand.old.place.me.0.made (opens first pads) [] }
    ensures seat { IsSeat hand.new.place.me.0 hand.new.order.items (replicate pads 0) first words.now.table_id.slots }
{
    for i in 0..pads {
        open_pad(hand, words, first + i);
    }
}

// Seats a place whose pads aren't open yet.
fn sit<P: Fits<O> + Drop, O: Drop>(
    words: &Words<P, O>,
    alloc: Global,
    place: Place<P, O>,
    first: usize,
    pads: usize,
    total: usize,
) -> Result<BoardSeat<P, O>, AllocError>
    requires table { place.table_id ≡ words.now.table_id }
    requires slots { (words.now.table_id.slots ≡ total) × (words.now.table_id.words ≡ total) }
    requires fits { (0 < pads) × (first + pads ≤ total) }
    requires own { first ≡ place.me.0.number * pads }
    requires new { place.me ≡ (view_of place.me.0.number pads place.me.0.made [] [], []) }
    ensures { IfOk result (λ s. s ≡ (words.now.table_id, seated place.me.0.number pads place.me.0.made)) }
{
    let rounds = Vec::from_elem(alloc, 0u64, pads)?;
    let mut hand = empty_hand(alloc, place, total)?;
    open_pads(&mut hand, words, first, pads);
    Ok(BoardSeat {
        hand,
        rounds,
        first,
    })
}

// The place of the next seat.
fn next_place<P: Fits<O> + Drop, O: Drop>(
    words: &Words<P, O>,
    leader: &mut Place<P, O>,
) -> Place<P, O>
    requires table { (leader.old.table_id ≡ words.now.table_id) × (0 < words.now.table_id.words) }
    requires leads { (leader.old.me.0.number ≡ 0) × (leader.old.me.0.ended ≡ false) }
    ensures table { (leader.new.table_id ≡ leader.old.table_id) × (result.table_id ≡ leader.old.table_id) }
    ensures leader { leader.new.me ≡ (one_more leader.old.me.0, leader.old.me.1) }
    ensures place { result.me ≡ (view_of leader.old.me.0.made leader.old.me.0.pads 0 [] [], []) }
{
    let place: Place<P, O> = words.split_seat::<Another>(leader);
    place
}

// The places of all seats but the first, in their order.
fn make_places<P: Fits<O> + Drop, O: Drop>(
    alloc: Global,
    words: &Words<P, O>,
    leader: &mut Place<P, O>,
    count: usize,
) -> Result<VecDeque<Place<P, O>>, AllocError>
    requires table { (leader.old.table_id ≡ words.now.table_id) × (0 < words.now.table_id.words) }
    requires new { leader.old.me ≡ (newcomer leader.old.me.0.pads, []) }
    requires some { 0 < count }
    ensures table { leader.new.table_id ≡ leader.old.table_id }
    ensures leader { IfOk result (λ _. leader.new.me ≡ (view_of 0 leader.old.me.0.pads count [] [], [])) }
    ensures places { IfOk result (λ r. AreNext words.now.table_id leader.old.me.0.pads 1 r.items × (length r.items + 1 ≡ count)) }
{
    let mut places = VecDeque::with_capacity(alloc, count)?;
    for _ in 1..count {
        places.push_back(next_place(words, leader))?;
    }
    Ok(places)
}

/// Makes a board and its seats, 1 to 32 of them with 1 to 1,024 pads each. The pads of the seat k are those from k times `pads` on,
/// all open and free. Fails only for want of memory.
pub fn open_board<P: Fits<O> + Drop, O: Drop>(
    alloc: Global,
    workers: u32,
    pads: u32,
) -> Result<(Board<P, O>, Vec<BoardSeat<P, O>>), AllocError>
    requires workers { (0 < workers) × (workers ≤ 32) }
    requires pads { (0 < pads) × (pads ≤ 1024) }
    ensures size { IfOk result (λ r. r.0.table.shared.table_id.slots ≡ workers * pads) }
    ensures table { IfOk result (λ r. All (λ s. s.0 ≡ r.0.table.shared.table_id) r.1.items) }
    ensures seats { IfOk result (λ r. r.1.items ≡ seats_of r.0.table.shared.table_id workers pads workers) }
    ensures roles { IfOk result (λ r. All (λ s. IsNewSeat pads s.1.number s.1) r.1.items) }
{
    let count = workers as usize;
    let each = pads as usize;
    let total = count * each;
    let zeros = Vec::from_elem(alloc, 0u64, total)?;
    let (table, mut leader) = Table::vacant(alloc, zeros.as_slice(), total, &u64::from(pads))?;
    let mut places = make_places(alloc, &table.shared, &mut leader, count)?;
    let mut seats = Vec::with_capacity(alloc, count)?;
    seats.push(sit(&table.shared, alloc, leader, 0, each, total)?)?;
    for i in 1..count {
        match places.pop_front() {
            Some(place) => seats.push(sit(&table.shared, alloc, place, i * each, each, total)?)?,
            None => unreachable!(),
        }
    }
    Ok((Board { table }, seats))
}
