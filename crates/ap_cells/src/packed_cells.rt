//! Cells in 8 bytes each.

ghost use Rattle.std.specs.Prelude.{◌≡◌, ◌≢◌, ℕ, ◌+◌, ◌<◌, ◌≤◌, [], ◌∷◌, ◌++◌, ◌⊎◌, List, MatchOption, length, take, slice_index_or, slice_set, OnOk};
ghost use Rattle.std.specs.Vec.{vec_capacity};
ghost use Rattle.ap_cells.specs.Packing.{raw_in, raws_in};
ghost use Rattle.ap_cells.specs.Store.{freed};
ghost use Rattle.ap_cells.specs.Trees.{IsEnd, link};
ghost use Rattle.ap_cells.specs.declared.cells.Raw.{Raw};
ghost use Rattle.ap_cells.specs.declared.cells.Raw.TheVariants.{Free, Same as SameRaw, Atom as AtomRaw};

use crate::cells::Raw;
use crate::packing::{atom_word, link_in, link_word, parted_words, raw_by, whole_word};
use ap_term::{Atom, NoMemory};
use std::alloc::Global;
use std::marker::Model;

/// Cells, each in a word. What doesn't fit into one stands apart, at the same place of a second list, which is as long as the last
/// such place asks for, so that most stores never touch it.
#[derive(Drop)]
pub struct PackedCells {
    words: Vec<u64>,
    apart: Vec<u64>,
}

impl Model for PackedCells {
    ghost use Rattle.std.specs.Prelude.{min};
    ghost use Rattle.std.specs.Vec.{vec_capacity};
    ghost use Rattle.ap_cells.specs.Packing.{Packed, raws_in};
    ghost use Rattle.ap_cells.specs.Fits.{Fits};

    ghost Value = { Packed };

    ghost view = { λ a. record { items = raws_in a.words.items a.apart.items; room = min (vec_capacity a.words) (vec_capacity a.apart) } };

    ghost invariant = { Fits };
}

/// Puts what stands apart at a place.
fn put_apart(apart: &mut Vec<u64>, place: usize, part: u64)
    requires { place < vec_capacity apart.old }
    ensures part { slice_index_or apart.new.items place 0 ≡ part }
    ensures others { (i : ℕ) → i ≢ place → slice_index_or apart.new.items i 0 ≡ slice_index_or apart.old.items i 0 }
    ensures len { (n : ℕ) → place < n → length apart.old.items ≤ n → length apart.new.items ≤ n }
    ensures capacity { vec_capacity apart.new ≡ vec_capacity apart.old }
{
    while apart.len() <= place {
        apart.push_reserved(0);
    }
    apart[place] = part;
}

/// Makes places unbound.
fn free_words(words: &mut [u64], places: &[u32])
    requires { (k : ℕ) → k < length places.now → slice_index_or places.now k 0 < length words.old }
    ensures cells { (apart : List ℕ) → raws_in words.new apart ≡ freed places.now (raws_in words.old apart) }
    ensures len { length words.new ≡ length words.old }
{
    for place in places {
        words[*place as usize] = 0;
    }
}

impl PackedCells {
    /// Takes no memory.
    pub fn new(alloc: Global) -> PackedCells
        ensures { result.items ≡ [] }
    {
        PackedCells {
            words: Vec::new(alloc),
            apart: Vec::new(alloc),
        }
    }

    #[inline]
    pub fn len(&self) -> usize
        ensures { result ≡ length self.now.items }
    {
        self.words.len()
    }

    /// For how many cells there is room.
    pub fn capacity(&self) -> usize
        ensures { result ≡ self.now.room }
    {
        self.words.capacity().min(self.apart.capacity())
    }

    /// Makes room for n more cells.
    pub fn reserve(&mut self, n: usize) -> Result<(), NoMemory>
        ensures items { self.new.items ≡ self.old.items }
        ensures ok { OnOk result (length self.new.items + n ≤ self.new.room) }
        ensures no_less { self.old.room ≤ self.new.room }
    {
        self.words.reserve(n)?;
        let missing = self.words.len() - self.apart.len();
        self.apart.reserve(missing + n)?;
        Ok(())
    }

    /// Puts a cell behind the others. It takes no memory.
    #[inline(always)]
    pub fn push_reserved(&mut self, cell: Raw)
        requires { length self.old.items < self.old.room }
        ensures items { self.new.items ≡ self.old.items ++ cell ∷ [] }
        ensures room { self.new.room ≡ self.old.room }
    {
        match whole_word(&cell) {
            Some(word) => self.words.push_reserved(word),
            None => {
                let (word, part) = parted_words(&cell);
                self.push_parted(word, part);
            }
        }
    }

    /// Puts an unbound cell behind the others. It takes no memory.
    #[inline(always)]
    pub fn push_free(&mut self)
        requires { length self.old.items < self.old.room }
        ensures items { self.new.items ≡ self.old.items ++ Free ∷ [] }
        ensures room { self.new.room ≡ self.old.room }
    {
        self.words.push_reserved(0);
    }

    /// Puts an atom behind the others. It takes no memory.
    #[inline(always)]
    pub fn push_atom(&mut self, name: Atom)
        requires { length self.old.items < self.old.room }
        ensures items { self.new.items ≡ self.old.items ++ AtomRaw name ∷ [] }
        ensures room { self.new.room ≡ self.old.room }
    {
        self.words.push_reserved(atom_word(name));
    }

    /// The same for a cell of two words.
    #[cold]
    #[inline(never)]
    fn push_parted(&mut self, word: u64, part: u64)
        requires { length self.old.items < self.old.room }
        ensures items { self.new.items ≡ self.old.items ++ raw_in word part ∷ [] }
        ensures room { self.new.room ≡ self.old.room }
    {
        let place = self.words.len();
        self.words.push_reserved(word);
        put_apart(&mut self.apart, place, part);
    }

    /// Puts behind the others a cell that has the term of the place `end`. It takes no memory.
    #[inline(always)]
    pub fn push_linked(&mut self, end: usize)
        requires room { length self.old.items < self.old.room }
        requires inside { (end < length self.old.items) × (end < 4294967296) }
        ensures items { (cell : Raw) × ((self.new.items ≡ self.old.items ++ cell ∷ []) × ((d : Raw) → (cell ≡ SameRaw end) ⊎ (cell ≡ link end (slice_index_or self.old.items end d)))) }
        ensures room { self.new.room ≡ self.old.room }
    {
        let word = link_word(end as u32, self.words[end]);
        self.words.push_reserved(word);
    }

    /// The place to which a cell leads, if it leads to another.
    #[inline(always)]
    pub fn link_at(&self, place: usize) -> Option<u32>
        requires { place < length self.now.items }
        ensures { (d : Raw) → MatchOption result (IsEnd (slice_index_or self.now.items place d)) (λ next. slice_index_or self.now.items place d ≡ SameRaw next) }
    {
        link_in(self.words[place])
    }

    /// The cell at a place.
    #[inline(always)]
    pub fn at(&self, place: usize) -> Raw
        requires { place < length self.now.items }
        ensures { (d : Raw) → result ≡ slice_index_or self.now.items place d }
    {
        raw_by(self.words[place], &self.apart, place)
    }

    /// Puts a cell in the place of another. It takes no memory.
    #[inline(always)]
    pub fn set(&mut self, place: usize, cell: Raw)
        requires { place < length self.old.items }
        ensures items { self.new.items ≡ slice_set self.old.items place cell }
        ensures room { self.new.room ≡ self.old.room }
    {
        match whole_word(&cell) {
            Some(word) => self.words[place] = word,
            None => {
                let (word, part) = parted_words(&cell);
                self.set_parted(place, word, part);
            }
        }
    }

    /// The same for a cell of two words.
    #[cold]
    #[inline(never)]
    fn set_parted(&mut self, place: usize, word: u64, part: u64)
        requires { place < length self.old.items }
        ensures items { self.new.items ≡ slice_set self.old.items place (raw_in word part) }
        ensures room { self.new.room ≡ self.old.room }
    {
        self.words[place] = word;
        put_apart(&mut self.apart, place, part);
    }

    /// Makes places unbound.
    pub fn free_all(&mut self, places: &[u32])
        requires { (k : ℕ) → k < length places.now → slice_index_or places.now k 0 < length self.old.items }
        ensures items { self.new.items ≡ freed places.now self.old.items }
        ensures room { self.new.room ≡ self.old.room }
    {
        free_words(self.words.as_mut_slice(), places);
    }

    /// Leaves the first n cells.
    pub fn truncate(&mut self, n: usize)
        ensures items { self.new.items ≡ take n self.old.items }
        ensures room { self.new.room ≡ self.old.room }
    {
        self.words.truncate(n);
        self.apart.truncate(n);
    }
}
