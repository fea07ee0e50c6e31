//! Numbers that are marked.

ghost use Rattle.std.specs.Prelude.{◌≡◌, ◌↔◌, ℕ, ◌<◌, ◌≤◌, ◌++◌, ◌∷◌, [], ◌||◌, true, false, nat_eq, length, slice_index_or, IsTrue, IfSome, IfNone, OnOk, OnErr, if◌then◌else◌};
ghost use Rattle.std.specs.List.{list_any, position_or_len};
ghost use Rattle.ap_marks.specs.Marks.{AreDistinct, AreKept};

use ap_term::NoMemory;
use std::alloc::Global;
use std::marker::Model;

/// So many numbers are found by going through them, so that few great ones take no memory in proportion to the greatest.
const FEW: usize = 16;

/// Where there are more than a few, each of `order` has its place there in `places`; what else `places` holds means nothing. Numbers
/// of 32 bits are kept.
#[derive(Drop)]
pub struct Marks {
    order: Vec<u32>,
    places: Vec<u32>,
}

impl Model for Marks {
    ghost use Rattle.std.specs.Prelude.{List, ℕ};

    ghost Value = { List ℕ };

    ghost use Rattle.ap_marks.specs.Marks.{IsMarks};

    ghost view = { λ a. a.order.items };

    ghost invariant = { IsMarks };
}

/// Makes the list long enough for the place x.
fn make_room(places: &mut Vec<u32>, x: usize) -> Result<(), NoMemory>
    ensures room { OnOk result (x < length places.new.items) }
    ensures longer { length places.old.items ≤ length places.new.items }
    ensures same { (k : ℕ) → k < length places.old.items → slice_index_or places.new.items k 0 ≡ slice_index_or places.old.items k 0 }
{
    if x < places.len() {
        return Ok(());
    }
    match x.checked_add(1) {
        Some(count) => {
            places.resize(count, 0)?;
            Ok(())
        }
        None => Err(NoMemory),
    }
}

/// Where a number stands in a list.
fn number_among(order: &[u32], x: usize) -> Option<usize>
    ensures absent { IfNone result (list_any (nat_eq x) order.now ≡ false) }
    ensures there { IfSome result (λ n. list_any (nat_eq x) order.now ≡ true) }
    ensures number { IfSome result (λ n. n ≡ position_or_len (nat_eq x) order.now) }
    ensures below { IfSome result (λ n. n < length order.now) }
    ensures at { IfSome result (λ n. slice_index_or order.now n 0 ≡ x) }
{
    for number in 0..order.len() {
        if order[number] as usize == x {
            return Some(number);
        }
    }
    None
}

/// Notes where each number of a list stands.
fn keep_all(order: &[u32], places: &mut Vec<u32>) -> Result<(), NoMemory>
    requires distinct { AreDistinct order.now }
    requires few { length order.now ≤ 16 }
    ensures kept { OnOk result (AreKept order.now places.new.items) }
{
    for number in 0..order.len() {
        let x = order[number] as usize;
        make_room(places, x)?;
        places[x] = number as u32;
    }
    Ok(())
}

/// Notes where each number of a list stands as soon as there are more than a few; behind that it is noted.
fn keep_many(order: &[u32], places: &mut Vec<u32>) -> Result<(), NoMemory>
    requires distinct { AreDistinct order.now }
    requires many { 16 ≤ length order.now }
    requires kept { 16 < length order.now → AreKept order.now places.old.items }
    ensures kept { OnOk result (AreKept order.now places.new.items) }
    ensures still { 16 < length order.now → AreKept order.now places.new.items }
{
    if order.len() == FEW {
        return keep_all(order, places);
    }
    Ok(())
}

impl Marks {
    /// Takes no memory.
    pub fn new(alloc: Global) -> Marks
        ensures { result ≡ [] }
    {
        Marks {
            order: Vec::new(alloc),
            places: Vec::new(alloc),
        }
    }

    pub fn clear(&mut self)
        ensures { self.new ≡ [] }
    {
        self.order.clear();
    }

    pub fn len(&self) -> usize
        ensures { result ≡ length self.now }
    {
        self.order.len()
    }

    pub fn is_empty(&self) -> bool
        ensures { IsTrue result ↔ (self.now ≡ []) }
    {
        self.order.is_empty()
    }

    /// Where a number stands among those that were put in, counted from 0.
    pub fn number_of(&self, x: usize) -> Option<usize>
        ensures absent { IfNone result (list_any (nat_eq x) self.now ≡ false) }
        ensures there { IfSome result (λ n. list_any (nat_eq x) self.now ≡ true) }
        ensures number { IfSome result (λ n. n ≡ position_or_len (nat_eq x) self.now) }
        ensures below { IfSome result (λ n. n < length self.now) }
        ensures at { IfSome result (λ n. slice_index_or self.now n 0 ≡ x) }
    {
        if self.order.len() <= FEW {
            return number_among(&self.order, x);
        }
        if x < self.places.len() {
            let number = self.places[x] as usize;
            if number < self.order.len() {
                if self.order[number] as usize == x {
                    return Some(number);
                }
            }
        }
        None
    }

    pub fn contains(&self, x: usize) -> bool
        ensures { result ≡ list_any (nat_eq x) self.now }
    {
        self.number_of(x).is_some()
    }

    /// Puts a number behind the others, if it isn't there. Where there are more than a few it takes time in proportion to a number
    /// that is greater than all before, and else none that grows. A number of more than 32 bits finds no memory.
    #[tactic(auto, using(crate::proofs::Kept::one_more))]
    pub fn insert(&mut self, x: usize) -> Result<(), NoMemory>
        ensures ok { OnOk result (self.new ≡ (if list_any (nat_eq x) self.old then self.old else self.old ++ x ∷ [])) }
        ensures marked { OnOk result ((y : ℕ) → list_any (nat_eq y) self.new ≡ (list_any (nat_eq y) self.old || nat_eq y x)) }
        ensures err { OnErr result (self.new ≡ self.old) }
    {
        if self.contains(x) {
            return Ok(());
        }
        let (Ok(mark), Ok(number)) = (u32::try_from(x), u32::try_from(self.order.len())) else {
            return Err(NoMemory);
        };
        if self.order.len() < FEW {
            self.order.push(mark)?;
            return Ok(());
        }
        keep_many(&self.order, &mut self.places)?;
        make_room(&mut self.places, x)?;
        self.order.push(mark)?;
        self.places[x] = number;
        Ok(())
    }
}
