//! The steps, with the order of the slots kept.
ghost use Rattle.std.specs.Prelude.{◌≡◌, ◌≢◌, ℕ, ◌+◌, ◌*◌, ◌/◌, ◌^◌, ◌<◌, ◌≤◌, List, ◌∷◌, length, Bool, MatchOption};
ghost use Rattle.ap_board.specs.History.{nothing, keeps, out, has, MayCause};
ghost use Rattle.ap_board.specs.Rule.{logged, role, last_seen};
ghost use Rattle.ap_board.specs.Causes.{noting};
ghost use Rattle.ap_board.specs.Plays.{Rises};
ghost use Rattle.ap_board.specs.declared.view.Kind.TheVariants.{Offer, Take, Reclaim, Finish, Collect};

use crate::hand::Hand;
use crate::rule::Fits;
use crate::steps;
use crate::steps::Words;

impl<P: Fits<O> + Drop, O: Drop> Hand<P, O> {
    // The pad at the front is offered.
    pub(crate) fn offer(&mut self, words: &Words<P, O>, pad: usize, round: u64, parcel: P)
        requires table { self.old.place.table_id ≡ words.now.table_id }
        requires pad { pad < words.now.table_id.slots }
        requires round { round < 2 ^ 60 }
        requires role { role self.old.place.me.0 pad ≡ keeps round }
        requires front { (ps : List ℕ) × (self.old.order.items ≡ pad ∷ ps) }
        ensures table { self.new.place.table_id ≡ self.old.place.table_id }
        ensures view { self.new.place.me.0 ≡ logged self.old.place.me.0 pad round (Offer parcel) }
        ensures order { self.old.order.items ≡ pad ∷ self.new.order.items }
    {
        steps::offer(words, &mut self.place, pad, round, parcel);
        match self.order.pop_front() {
            Some(_) => {}
            None => unreachable!(),
        }
    }

    pub(crate) fn take(&mut self, words: &Words<P, O>, pad: usize, round: u64) -> Option<P>
        requires table { self.old.place.table_id ≡ words.now.table_id }
        requires pad { pad < words.now.table_id.slots }
        requires round { round < 2 ^ 60 }
        requires other { pad / self.old.place.me.0.pads ≢ self.old.place.me.0.number }
        requires space { role self.old.place.me.0 pad ≡ nothing → length self.old.order.items < words.now.table_id.slots }
        ensures table { self.new.place.table_id ≡ self.old.place.table_id }
        ensures rises { Rises self.old.place.me.0 pad self.new.place.me.0 }
        ensures told { MatchOption result ((n : ℕ) × (n ≢ round * 8 + 1) × (self.new.place.me.0 ≡ noting self.old.place.me.0 pad n) × (self.new.order.items ≡ self.old.order.items)) (λ x. (role self.old.place.me.0 pad ≡ nothing) × (self.new.place.me.0 ≡ logged self.old.place.me.0 pad round (Take x)) × (self.new.order.items ≡ pad ∷ self.old.order.items)) }
    {
        let parcel = steps::take(words, &mut self.place, pad, round)?;
        self.order.push_front_reserved(pad);
        Some(parcel)
    }

    pub(crate) fn reclaim(&mut self, words: &Words<P, O>, pad: usize, round: u64) -> Option<P>
        requires table { self.old.place.table_id ≡ words.now.table_id }
        requires pad { pad < words.now.table_id.slots }
        requires round { round < 2 ^ 60 }
        requires role { (x : P) × (role self.old.place.me.0 pad ≡ out round x) }
        requires space { length self.old.order.items < words.now.table_id.slots }
        ensures table { self.new.place.table_id ≡ self.old.place.table_id }
        ensures told { MatchOption result ((n : ℕ) × (round * 8 + 2 ≤ n) × (n ≤ round * 8 + 4) × (self.new.place.me.0 ≡ noting self.old.place.me.0 pad n) × (self.new.order.items ≡ self.old.order.items)) (λ x. (role self.old.place.me.0 pad ≡ out round x) × (self.new.place.me.0 ≡ logged self.old.place.me.0 pad round Reclaim) × (self.new.order.items ≡ pad ∷ self.old.order.items)) }
    {
        let parcel = steps::reclaim(words, &mut self.place, pad, round)?;
        self.order.push_front_reserved(pad);
        Some(parcel)
    }

    // The pad at the front is finished.
    pub(crate) fn finish(&mut self, words: &Words<P, O>, pad: usize, round: u64, outcome: O)
        requires table { self.old.place.table_id ≡ words.now.table_id }
        requires pad { pad < words.now.table_id.slots }
        requires round { round < 2 ^ 60 }
        requires role { (x : P) × (b : Bool) × (role self.old.place.me.0 pad ≡ has round x b) × P.fits x outcome × MayCause (P.cause outcome) b }
        requires front { (ps : List ℕ) × (self.old.order.items ≡ pad ∷ ps) }
        ensures table { self.new.place.table_id ≡ self.old.place.table_id }
        ensures view { self.new.place.me.0 ≡ logged self.old.place.me.0 pad round (Finish outcome) }
        ensures order { self.old.order.items ≡ pad ∷ self.new.order.items }
    {
        steps::finish(words, &mut self.place, pad, round, outcome);
        match self.order.pop_front() {
            Some(_) => {}
            None => unreachable!(),
        }
    }

    pub(crate) fn collect(&mut self, words: &Words<P, O>, pad: usize, round: u64) -> Option<O>
        requires table { self.old.place.table_id ≡ words.now.table_id }
        requires pad { pad < words.now.table_id.slots }
        requires round { round < 2 ^ 60 }
        requires own { pad / self.old.place.me.0.pads ≡ self.old.place.me.0.number }
        requires space { (x : P) → role self.old.place.me.0 pad ≡ out round x → length self.old.order.items < words.now.table_id.slots }
        ensures table { self.new.place.table_id ≡ self.old.place.table_id }
        ensures told { MatchOption result ((n : ℕ) × (last_seen self.old.place.me.0 pad ≤ n) × (n ≢ round * 8 + 4) × ((x : P) → role self.old.place.me.0 pad ≡ out round x → n < round * 8 + 4) × (self.new.place.me.0 ≡ noting self.old.place.me.0 pad n) × (self.new.order.items ≡ self.old.order.items)) (λ y. (x : P) × (role self.old.place.me.0 pad ≡ out round x) × P.fits x y × (self.new.place.me.0 ≡ logged self.old.place.me.0 pad round (Collect y)) × (self.new.order.items ≡ pad ∷ self.old.order.items)) }
    {
        let outcome = steps::collect(words, &mut self.place, pad, round)?;
        self.order.push_front_reserved(pad);
        Some(outcome)
    }
}
