//! One step on one pad's word, with what goes into its slot before or comes out of it after.
ghost use Rattle.std.specs.Prelude.{◌≡◌, ◌≢◌, ℕ, ◌+◌, ◌*◌, ◌/◌, ◌^◌, ◌<◌, ◌≤◌, List, [], ◌∷◌, Bool, false, MatchOption, MatchBool, None};
ghost use Rattle.atomic_table.specs.Table.{rest};
ghost use Rattle.ap_board.specs.History.{nothing, keeps, out, has, MayCause};
ghost use Rattle.ap_board.specs.Rule.{logged, role, last_seen, Recorded};
ghost use Rattle.ap_board.specs.Causes.{noting};
ghost use Rattle.ap_board.specs.Plays.{Rises};
ghost use Rattle.ap_board.specs.declared.view.Kind.TheVariants.{Open, Offer, Take, Reclaim, Stop, Finish, Collect};

use crate::plays;
use crate::rule::{Fits, Ruled};
use crate::view::{Content, View};
use atomic_table::{Seat, Shared};

pub(crate) type Words<P, O> = Shared<Option<Content<P, O>>, View<P, O>, u64, Ruled<P, O>>;

pub(crate) type Place<P, O> = Seat<Option<Content<P, O>>, View<P, O>>;

pub(crate) fn open<P: Fits<O> + Drop, O: Drop>(
    words: &Words<P, O>,
    me: &mut Place<P, O>,
    pad: usize,
)
    requires table { me.old.table_id ≡ words.now.table_id }
    requires live { me.old.me.0.ended ≡ false }
    requires pad { (pad < words.now.table_id.slots) × (pad < words.now.table_id.words) }
    requires new { role me.old.me.0 pad ≡ nothing }
    requires own { pad / me.old.me.0.pads ≡ me.old.me.0.number }
    ensures same { (me.new.table_id ≡ me.old.table_id) × (me.new.id ≡ me.old.id) }
    ensures told { me.new.me ≡ (logged me.old.me.0 pad 0 Open, (pad, None) ∷ me.old.me.1) }
{
    words.load::<plays::Open>(me, pad);
}

pub(crate) fn offer<P: Fits<O> + Drop, O: Drop>(
    words: &Words<P, O>,
    me: &mut Place<P, O>,
    pad: usize,
    round: u64,
    parcel: P,
)
    requires table { me.old.table_id ≡ words.now.table_id }
    requires live { me.old.me.0.ended ≡ false }
    requires pad { (pad < words.now.table_id.slots) × (pad < words.now.table_id.words) }
    requires round { round < 2 ^ 60 }
    requires role { role me.old.me.0 pad ≡ keeps round }
    requires front { me.old.me.1 ≡ (pad, None) ∷ rest me.old.me.1 }
    ensures same { (me.new.table_id ≡ me.old.table_id) × (me.new.id ≡ me.old.id) }
    ensures told { me.new.me ≡ (logged me.old.me.0 pad round (Offer parcel), rest me.old.me.1) }
{
    let was = words.exchange(me, pad, Some(Content::Parcel(parcel)));
    match was {
        None => {}
        Some(_) => unreachable!(),
    }
    words.store::<plays::Offer>(me, pad, round * 8 + 1);
}

pub(crate) fn take<P: Fits<O> + Drop, O: Drop>(
    words: &Words<P, O>,
    me: &mut Place<P, O>,
    pad: usize,
    round: u64,
) -> Option<P>
    requires table { me.old.table_id ≡ words.now.table_id }
    requires live { me.old.me.0.ended ≡ false }
    requires pad { (pad < words.now.table_id.slots) × (pad < words.now.table_id.words) }
    requires round { round < 2 ^ 60 }
    requires other { pad / me.old.me.0.pads ≢ me.old.me.0.number }
    ensures same { (me.new.table_id ≡ me.old.table_id) × (me.new.id ≡ me.old.id) }
    ensures rises { Rises me.old.me.0 pad me.new.me.0 }
    ensures told { MatchOption result ((n : ℕ) × (n ≢ round * 8 + 1) × (me.new.me ≡ (noting me.old.me.0 pad n, me.old.me.1))) (λ x. (role me.old.me.0 pad ≡ nothing) × (me.new.me ≡ (logged me.old.me.0 pad round (Take x), (pad, None) ∷ me.old.me.1))) }
{
    let offered = round * 8 + 1;
    let found = words.compare_exchange::<plays::Take>(me, pad, offered, offered + 1);
    if found != offered {
        return None;
    }
    match words.exchange(me, pad, None) {
        Some(Content::Parcel(parcel)) => Some(parcel),
        _ => unreachable!(),
    }
}

pub(crate) fn reclaim<P: Fits<O> + Drop, O: Drop>(
    words: &Words<P, O>,
    me: &mut Place<P, O>,
    pad: usize,
    round: u64,
) -> Option<P>
    requires table { me.old.table_id ≡ words.now.table_id }
    requires live { me.old.me.0.ended ≡ false }
    requires pad { (pad < words.now.table_id.slots) × (pad < words.now.table_id.words) }
    requires round { round < 2 ^ 60 }
    requires role { (x : P) × (role me.old.me.0 pad ≡ out round x) }
    ensures same { (me.new.table_id ≡ me.old.table_id) × (me.new.id ≡ me.old.id) }
    ensures rises { Rises me.old.me.0 pad me.new.me.0 }
    ensures told { MatchOption result ((n : ℕ) × (round * 8 + 2 ≤ n) × (n ≤ round * 8 + 4) × (me.new.me ≡ (noting me.old.me.0 pad n, me.old.me.1))) (λ x. (role me.old.me.0 pad ≡ out round x) × (me.new.me ≡ (logged me.old.me.0 pad round Reclaim, (pad, None) ∷ me.old.me.1))) }
{
    let offered = round * 8 + 1;
    let found = words.compare_exchange::<plays::Reclaim>(me, pad, offered, (round + 1) * 8);
    if found != offered {
        return None;
    }
    match words.exchange(me, pad, None) {
        Some(Content::Parcel(parcel)) => Some(parcel),
        _ => unreachable!(),
    }
}

/// Whether the goal was still running.
pub(crate) fn stop<P: Fits<O> + Drop, O: Drop>(
    words: &Words<P, O>,
    me: &mut Place<P, O>,
    pad: usize,
    round: u64,
) -> bool
    requires table { me.old.table_id ≡ words.now.table_id }
    requires live { me.old.me.0.ended ≡ false }
    requires pad { (pad < words.now.table_id.slots) × (pad < words.now.table_id.words) }
    requires round { round < 2 ^ 60 }
    requires role { (x : P) × (role me.old.me.0 pad ≡ out round x) }
    requires was_taken { round * 8 + 2 ≤ last_seen me.old.me.0 pad }
    ensures same { (me.new.table_id ≡ me.old.table_id) × (me.new.id ≡ me.old.id) }
    ensures told { MatchBool result (me.new.me ≡ (logged me.old.me.0 pad round Stop, me.old.me.1)) (me.new.me ≡ (noting me.old.me.0 pad (round * 8 + 4), me.old.me.1)) }
{
    let taken = round * 8 + 2;
    let found = words.compare_exchange::<plays::Stop>(me, pad, taken, taken + 1);
    found == taken || found == taken + 1
}

pub(crate) fn finish<P: Fits<O> + Drop, O: Drop>(
    words: &Words<P, O>,
    me: &mut Place<P, O>,
    pad: usize,
    round: u64,
    outcome: O,
)
    requires table { me.old.table_id ≡ words.now.table_id }
    requires live { me.old.me.0.ended ≡ false }
    requires pad { (pad < words.now.table_id.slots) × (pad < words.now.table_id.words) }
    requires round { round < 2 ^ 60 }
    requires role { (x : P) × (b : Bool) × (role me.old.me.0 pad ≡ has round x b) × P.fits x outcome × MayCause (P.cause outcome) b }
    requires front { me.old.me.1 ≡ (pad, None) ∷ rest me.old.me.1 }
    ensures same { (me.new.table_id ≡ me.old.table_id) × (me.new.id ≡ me.old.id) }
    ensures told { me.new.me ≡ (logged me.old.me.0 pad round (Finish outcome), rest me.old.me.1) }
{
    let was = words.exchange(me, pad, Some(Content::Outcome(outcome)));
    match was {
        None => {}
        Some(_) => unreachable!(),
    }
    words.swap::<plays::Finish>(me, pad, round * 8 + 4);
}

/// The word found.
pub(crate) fn look<P: Fits<O> + Drop, O: Drop>(
    words: &Words<P, O>,
    me: &mut Place<P, O>,
    pad: usize,
) -> u64
    requires table { me.old.table_id ≡ words.now.table_id }
    requires live { me.old.me.0.ended ≡ false }
    requires pad { (pad < words.now.table_id.slots) × (pad < words.now.table_id.words) }
    ensures same { (me.new.table_id ≡ me.old.table_id) × (me.new.id ≡ me.old.id) }
    ensures rises { Rises me.old.me.0 pad me.new.me.0 }
    ensures told { me.new.me ≡ (noting me.old.me.0 pad result, me.old.me.1) }
{
    words.load::<plays::Look>(me, pad)
}

pub(crate) fn collect<P: Fits<O> + Drop, O: Drop>(
    words: &Words<P, O>,
    me: &mut Place<P, O>,
    pad: usize,
    round: u64,
) -> Option<O>
    requires table { me.old.table_id ≡ words.now.table_id }
    requires live { me.old.me.0.ended ≡ false }
    requires pad { (pad < words.now.table_id.slots) × (pad < words.now.table_id.words) }
    requires round { round < 2 ^ 60 }
    requires own { pad / me.old.me.0.pads ≡ me.old.me.0.number }
    ensures same { (me.new.table_id ≡ me.old.table_id) × (me.new.id ≡ me.old.id) }
    ensures told { MatchOption result ((n : ℕ) × (last_seen me.old.me.0 pad ≤ n) × (n ≢ round * 8 + 4) × ((x : P) → role me.old.me.0 pad ≡ out round x → n < round * 8 + 4) × (me.new.me ≡ (noting me.old.me.0 pad n, me.old.me.1))) (λ y. (x : P) × (role me.old.me.0 pad ≡ out round x) × P.fits x y × (me.new.me ≡ (logged me.old.me.0 pad round (Collect y), (pad, None) ∷ me.old.me.1))) }
{
    let finished = round * 8 + 4;
    let found = words.compare_exchange::<plays::Collect>(me, pad, finished, (round + 1) * 8);
    if found != finished {
        return None;
    }
    match words.exchange(me, pad, None) {
        Some(Content::Outcome(outcome)) => Some(outcome),
        _ => unreachable!(),
    }
}

// Shows the histories of all pads.
pub(crate) fn show<P: Fits<O> + Drop, O: Drop>(words: &Words<P, O>, me: &mut Place<P, O>)
    requires table { me.old.table_id ≡ words.now.table_id }
    requires live { me.old.me.0.ended ≡ false }
    requires pad { (0 < words.now.table_id.slots) × (0 < words.now.table_id.words) }
    ensures same { (me.new.table_id ≡ me.old.table_id) × (me.new.id ≡ me.old.id) × (me.new.me ≡ me.old.me) }
    ensures shown { (p : ℕ) → p < words.now.table_id.slots → Recorded P.fits P.cause me.old.me.0 p }
{
    words.load::<plays::Show>(me, 0);
}
