//! The store: cells, and the trail of the places that were bound.

ghost use Rattle.std.specs.Prelude.{◌≡◌, ℕ, ◌+◌, ◌-◌, ◌<◌, ◌≤◌, [], ◌∷◌, ◌++◌, map, length, take, drop, slice_index_or, Bool, true, false, is_ok, if◌then◌else◌, IfOk, IfSome, MatchOption, OnOk, OnErr};
ghost use Rattle.ap_term.specs.Tree.{Tree, var, atom};
ghost use Rattle.ap_term.specs.Substitution.{instance, value, one};
ghost use Rattle.ap_term.specs.Vars.{occurs, occurs_all};
ghost use Rattle.ap_cells.specs.Trees.{tree_at, trees, span, step, Within, IsEnd, link, frees};
ghost use Rattle.ap_cells.specs.Raws.{raw_of};
ghost use Rattle.ap_cells.specs.declared.cells.Raw.{Raw};
ghost use Rattle.ap_cells.specs.declared.cells.Raw.TheVariants.{Free, Atom as AtomRaw};
ghost use Rattle.ap_cells.specs.Store.{freed, undone, IsMark, IsStore, Keeps};
ghost use Rattle.std.specs.Vec.{vec_capacity};

use crate::packed_cells::PackedCells;
use ap_term::{Atom, NoMemory};
use std::alloc::Global;
use std::marker::Model;

/// How many cells a store may hold.
pub const MAX_CELLS: usize = 4_294_967_295;

/// What stands at a place: an unbound variable, the term of another place, an integer, an atom, or a compound term with
/// the first place of its arguments and how many there are.
#[derive(Clone, Copy)]
pub enum Cell {
    Free,
    Same(usize),
    Int(i64),
    Atom(Atom),
    Node(Atom, usize, u32),
}

/// A cell with places of 32 bits.
#[derive(Clone, Copy)]
pub enum Raw {
    Free,
    Same(u32),
    Int(i64),
    Atom(Atom),
    Node(Atom, u32, u32),
}

/// A moment of a store: how many cells and how many bindings there were.
#[derive(Clone, Copy)]
pub struct CellMark {
    pub cells: usize,
    pub trail: usize,
}

/// Cells that stand for finite terms. Room for `limit` cells, and for as many bindings, is there already.
///
/// The first `settled` cells lead to each other only, so that no later variable stands in their terms: that spares the occurs
/// check its walks. `is_stale` tells that the number is worth raising; neither changes what the cells stand for.
#[derive(Drop)]
pub struct Cells {
    cells: PackedCells,
    trail: Vec<u32>,
    limit: usize,
    settled: usize,
    is_stale: bool,
}

impl Model for Cells {
    ghost use Rattle.std.specs.Prelude.{◌-◌, length};
    ghost use Rattle.std.specs.Coded.{codes};
    ghost use Rattle.ap_cells.specs.Store.{Store};

    ghost Value = { Store };

    ghost use Rattle.ap_cells.specs.Kept.{Kept};

    ghost view = { λ a. record { cells = a.cells.items; trail = a.trail.items; spare = a.limit - length a.cells.items } };

    ghost invariant = { Kept };
}

/// A cell as it is kept. Its places fit.
#[inline(always)]
fn packed(cell: Cell, place: usize, places: usize) -> Raw
    requires few { (place ≤ places) × (places ≤ 4294967295) }
    requires within { Within places place (raw_of cell) }
    ensures { result ≡ raw_of cell }
{
    match cell {
        Cell::Free => Raw::Free,
        Cell::Same(j) => Raw::Same(j as u32),
        Cell::Int(z) => Raw::Int(z),
        Cell::Atom(a) => Raw::Atom(a),
        Cell::Node(a, p, n) => Raw::Node(a, p as u32, n),
    }
}

/// A cell as its readers see it.
#[inline]
fn unpacked(raw: Raw) -> Cell
    ensures { raw_of result ≡ raw }
{
    match raw {
        Raw::Free => Cell::Free,
        Raw::Same(j) => Cell::Same(j as usize),
        Raw::Int(z) => Cell::Int(z),
        Raw::Atom(a) => Cell::Atom(a),
        Raw::Node(a, p, n) => Cell::Node(a, p as usize, n),
    }
}

/// The cell by which another place has the term of the place `end`, at which `raw` stands.
#[inline]
fn linked(end: usize, raw: Raw) -> Raw
    requires { end < 4294967295 }
    ensures { result ≡ link end raw }
{
    match raw {
        Raw::Free => Raw::Same(end as u32),
        bound => bound,
    }
}

/// How many cells lead to each other only once a place has this cell: as many as before, or none where it leads past them.
#[inline]
fn settled_with(settled: usize, place: usize, cell: &Raw) -> usize
    ensures same { 0 < result → result ≡ settled }
    ensures within { (n : ℕ) → Within n place cell.now → place < result → Within result place cell.now }
{
    if place >= settled {
        return settled;
    }
    match cell {
        Raw::Node(_, first, count) => {
            if *first as usize + *count as usize <= settled {
                settled
            } else {
                0
            }
        }
        Raw::Free | Raw::Same(_) | Raw::Int(_) | Raw::Atom(_) => settled,
    }
}

/// The least of three numbers.
fn least(a: usize, b: usize, c: usize) -> usize
    ensures first { result ≤ a }
    ensures second { result ≤ b }
    ensures third { result ≤ c }
    ensures most { (n : ℕ) → n ≤ a → n ≤ b → n ≤ c → n ≤ result }
{
    a.min(b).min(c)
}

/// Makes the places from `from` on in a trail unbound, and takes them off.
fn unwind(cells: &mut PackedCells, trail: &mut Vec<u32>, from: usize)
    requires from { from ≤ length trail.old.items }
    requires below { (k : ℕ) → k < length trail.old.items → slice_index_or trail.old.items k 0 < length cells.old.items }
    ensures cells { cells.new.items ≡ freed (drop from trail.old.items) cells.old.items }
    ensures trail { trail.new.items ≡ take from trail.old.items }
    ensures room { cells.new.room ≡ cells.old.room }
    ensures trail_room { vec_capacity trail.new ≡ vec_capacity trail.old }
{
    cells.free_all(&trail[from..]);
    trail.truncate(from);
}

impl Cells {
    /// Takes no memory.
    pub fn new(alloc: Global) -> Cells
        ensures { result ≡ record { cells = []; trail = []; spare = 0 } }
    {
        Cells {
            cells: PackedCells::new(alloc),
            trail: Vec::new(alloc),
            limit: 0,
            settled: 0,
            is_stale: true,
        }
    }

    /// How many cells there are; their places are the numbers below. Those that can be pushed have places of 32 bits, too.
    #[inline]
    pub fn len(&self) -> usize
        ensures place { result ≡ length self.now.cells }
        ensures few { length self.now.cells ≤ 4294967295 }
        ensures room { length self.now.cells + self.now.spare ≤ 4294967295 }
    {
        self.cells.len()
    }

    /// A law: the cells stand for finite terms, also where bindings are taken back.
    #[inline]
    pub fn is_store(&self)
        ensures { IsStore self.now.cells self.now.trail }
    {
        let _places = self.cells.len();
    }

    /// This moment, to which `undo_to` leads back.
    pub fn mark(&self) -> CellMark
        ensures is_mark { IsMark self.now.cells self.now.trail result.cells result.trail }
        ensures leads { undone self.now result.cells result.trail ≡ self.now.cells }
    {
        CellMark {
            cells: self.cells.len(),
            trail: self.trail.len(),
        }
    }

    /// Makes room for n more cells. Where there is room already that is one comparison.
    #[inline]
    pub fn reserve(&mut self, n: usize) -> Result<(), NoMemory>
        ensures cells { self.new.cells ≡ self.old.cells }
        ensures trail { self.new.trail ≡ self.old.trail }
        ensures spare { OnOk result (n ≤ self.new.spare) }
        ensures no_less { self.old.spare ≤ self.new.spare }
    {
        if n <= self.limit - self.cells.len() {
            return Ok(());
        }
        self.grow(n)
    }

    /// Makes room for n more cells, and for as many as there are: the lists' memory is doubled, and all of it is room.
    #[cold]
    #[inline(never)]
    fn grow(&mut self, n: usize) -> Result<(), NoMemory>
        ensures cells { self.new.cells ≡ self.old.cells }
        ensures trail { self.new.trail ≡ self.old.trail }
        ensures spare { OnOk result (n ≤ self.new.spare) }
        ensures no_less { self.old.spare ≤ self.new.spare }
    {
        let len = self.cells.len();
        if n > MAX_CELLS - len {
            return Err(NoMemory);
        }
        self.cells.reserve(n)?;
        self.trail
            .reserve(n + len.saturating_sub(self.trail.len()))?;
        self.limit = least(MAX_CELLS, self.cells.capacity(), self.trail.capacity());
        Ok(())
    }

    /// Puts a cell at a new place, as it is kept.
    #[inline(always)]
    fn push_raw(&mut self, cell: Raw) -> usize
        requires room { 0 < self.old.spare }
        requires within { Within (length self.old.cells) (length self.old.cells) cell }
        ensures place { result ≡ length self.old.cells }
        ensures cells { self.new.cells ≡ self.old.cells ++ cell ∷ [] }
        ensures trees { trees self.new.cells ≡ trees self.old.cells ++ step (trees self.old.cells) (length self.old.cells) cell ∷ [] }
        ensures trail { self.new.trail ≡ self.old.trail }
        ensures spare { self.new.spare + 1 ≡ self.old.spare }
        ensures keeps { Keeps self.old self.new }
    {
        let place = self.cells.len();
        self.cells.push_reserved(cell);
        place
    }

    /// Puts an unbound cell at a new place. It takes no memory.
    #[inline(always)]
    pub fn push_free(&mut self) -> usize
        requires room { 0 < self.old.spare }
        ensures place { result ≡ length self.old.cells }
        ensures cells { self.new.cells ≡ self.old.cells ++ Free ∷ [] }
        ensures trees { trees self.new.cells ≡ trees self.old.cells ++ var (length self.old.cells) ∷ [] }
        ensures trail { self.new.trail ≡ self.old.trail }
        ensures spare { self.new.spare + 1 ≡ self.old.spare }
        ensures keeps { Keeps self.old self.new }
    {
        let place = self.cells.len();
        self.cells.push_free();
        place
    }

    /// Puts an atom at a new place. It takes no memory.
    #[inline(always)]
    pub fn push_atom(&mut self, name: Atom) -> usize
        requires room { 0 < self.old.spare }
        ensures place { result ≡ length self.old.cells }
        ensures cells { self.new.cells ≡ self.old.cells ++ AtomRaw name ∷ [] }
        ensures trees { trees self.new.cells ≡ trees self.old.cells ++ atom name ∷ [] }
        ensures trail { self.new.trail ≡ self.old.trail }
        ensures spare { self.new.spare + 1 ≡ self.old.spare }
        ensures keeps { Keeps self.old self.new }
    {
        let place = self.cells.len();
        self.cells.push_atom(name);
        place
    }

    /// Puts a cell at a new place. It takes no memory.
    #[inline(always)]
    pub fn push(&mut self, cell: Cell) -> usize
        requires room { 0 < self.old.spare }
        requires within { Within (length self.old.cells) (length self.old.cells) (raw_of cell) }
        ensures place { result ≡ length self.old.cells }
        ensures cells { self.new.cells ≡ self.old.cells ++ raw_of cell ∷ [] }
        ensures trees { trees self.new.cells ≡ trees self.old.cells ++ step (trees self.old.cells) (length self.old.cells) (raw_of cell) ∷ [] }
        ensures trail { self.new.trail ≡ self.old.trail }
        ensures spare { self.new.spare + 1 ≡ self.old.spare }
        ensures keeps { Keeps self.old self.new }
    {
        let places = self.cells.len();
        self.push_raw(packed(cell, places, places))
    }

    /// Puts an unbound variable at a new place, for a goal. It takes no memory. Where walks were needed lately, all cells before
    /// it are settled: the terms that are bound to it, and to those after it, are mostly made of older ones.
    #[inline]
    pub fn push_variable(&mut self) -> usize
        requires room { 0 < self.old.spare }
        ensures place { result ≡ length self.old.cells }
        ensures cells { self.new.cells ≡ self.old.cells ++ Free ∷ [] }
        ensures trees { trees self.new.cells ≡ trees self.old.cells ++ var (length self.old.cells) ∷ [] }
        ensures trail { self.new.trail ≡ self.old.trail }
        ensures spare { self.new.spare + 1 ≡ self.old.spare }
        ensures keeps { Keeps self.old self.new }
    {
        if self.is_stale {
            self.settle();
        }
        self.push_raw(Raw::Free)
    }

    /// Settles all cells.
    fn settle(&mut self)
        ensures { self.new ≡ self.old }
    {
        self.settled = self.cells.len();
        self.is_stale = false;
    }

    /// Notes that a term had to be walked over: the next goal's variable settles all cells.
    #[inline]
    pub fn note_walk(&mut self)
        ensures { self.new ≡ self.old }
    {
        self.is_stale = true;
    }

    /// Whether these places are settled and x came later, so that it stands in none of their terms.
    #[inline]
    pub fn are_settled_before(&self, x: usize, first: usize, count: u32) -> bool
        requires { first + count ≤ length self.now.cells }
        ensures { result ≡ true → occurs_all x (span (trees self.now.cells) first count) ≡ false }
    {
        let _places = self.len();
        if self.settled < first + count as usize {
            return false;
        }
        if x < self.settled {
            return false;
        }
        true
    }

    /// Puts a cell at a new place that has the term of another. It takes no memory. What stands at the end of that one's chain
    /// is copied, so that chains don't grow.
    #[inline]
    pub fn push_same(&mut self, to: usize) -> usize
        requires room { 0 < self.old.spare }
        requires inside { to < length self.old.cells }
        ensures place { result ≡ length self.old.cells }
        ensures trees { trees self.new.cells ≡ trees self.old.cells ++ tree_at (trees self.old.cells) to ∷ [] }
        ensures len { length self.new.cells ≡ length self.old.cells + 1 }
        ensures trail { self.new.trail ≡ self.old.trail }
        ensures spare { self.new.spare + 1 ≡ self.old.spare }
        ensures keeps { Keeps self.old self.new }
    {
        self.is_store();
        let end = self.deref(to);
        let place = self.cells.len();
        self.cells.push_linked(end);
        place
    }

    /// The cell at a place, as it is kept.
    #[inline(always)]
    pub fn raw_at(&self, place: usize) -> Raw
        requires { place < length self.now.cells }
        ensures cell { (d : Raw) → result ≡ slice_index_or self.now.cells place d }
        ensures tree { tree_at (trees self.now.cells) place ≡ step (trees self.now.cells) place result }
        ensures within { Within (length self.now.cells) place result }
        ensures few { length self.now.cells ≤ 4294967295 }
    {
        self.cells.at(place)
    }

    /// The cell at a place.
    #[inline]
    pub fn at(&self, place: usize) -> Cell
        requires { place < length self.now.cells }
        ensures tree { tree_at (trees self.now.cells) place ≡ step (trees self.now.cells) place (raw_of result) }
        ensures within { Within (length self.now.cells) place (raw_of result) }
        ensures cell { (d : Raw) → raw_of result ≡ slice_index_or self.now.cells place d }
    {
        unpacked(self.raw_at(place))
    }

    /// The place to which a cell leads, if it leads to another.
    #[inline(always)]
    fn link_at(&self, place: usize) -> Option<u32>
        requires { place < length self.now.cells }
        ensures next { IfSome result (λ next. (next < place) × (tree_at (trees self.now.cells) next ≡ tree_at (trees self.now.cells) place)) }
        ensures end { MatchOption result ((d : Raw) → IsEnd (slice_index_or self.now.cells place d)) (λ next. Unit {0}) }
    {
        self.cells.link_at(place)
    }

    /// The place at the end of the chain from a place.
    #[inline]
    pub fn deref(&self, place: usize) -> usize
        requires { place < length self.now.cells }
        ensures place { result < length self.now.cells }
        ensures tree { tree_at (trees self.now.cells) result ≡ tree_at (trees self.now.cells) place }
        ensures end { (d : Raw) → IsEnd (slice_index_or self.now.cells result d) }
    {
        let mut at = place;
        while let Some(next) = self.link_at(at) {
            at = next as usize;
        }
        at
    }

    /// Makes a cell of an unbound place, in whose term the place doesn't stand.
    #[inline(always)]
    fn bind_raw(&mut self, place: usize, cell: Raw)
        requires inside { place < length self.old.cells }
        requires within { Within (length self.old.cells) place cell }
        requires bound { cell ≡ Free → ⊥ }
        requires unbound { tree_at (trees self.old.cells) place ≡ var place }
        requires absent { occurs place (step (trees self.old.cells) place cell) ≡ false }
        ensures trees { trees self.new.cells ≡ map (instance (value (one place (step (trees self.old.cells) place cell)))) (trees self.old.cells) }
        ensures len { length self.new.cells ≡ length self.old.cells }
        ensures fewer { frees self.new.cells + 1 ≡ frees self.old.cells }
        ensures spare { self.new.spare ≡ self.old.spare }
        ensures keeps { Keeps self.old self.new }
    {
        let settled = settled_with(self.settled, place, &cell);
        self.is_stale = self.is_stale || settled < self.settled;
        self.settled = settled;
        self.cells.set(place, cell);
        self.trail.push_reserved(place as u32);
    }

    /// Binds an unbound place to the term of a cell, in which it doesn't stand. It takes no new cell.
    #[inline(always)]
    pub fn bind_to(&mut self, place: usize, cell: Cell)
        requires inside { place < length self.old.cells }
        requires within { Within (length self.old.cells) place (raw_of cell) }
        requires bound { raw_of cell ≡ Free → ⊥ }
        requires unbound { tree_at (trees self.old.cells) place ≡ var place }
        requires absent { occurs place (step (trees self.old.cells) place (raw_of cell)) ≡ false }
        ensures trees { trees self.new.cells ≡ map (instance (value (one place (step (trees self.old.cells) place (raw_of cell))))) (trees self.old.cells) }
        ensures len { length self.new.cells ≡ length self.old.cells }
        ensures fewer { frees self.new.cells + 1 ≡ frees self.old.cells }
        ensures spare { self.new.spare ≡ self.old.spare }
        ensures keeps { Keeps self.old self.new }
    {
        let places = self.cells.len();
        self.bind_raw(place, packed(cell, place, places));
    }

    /// Binds an unbound place to the term of another, in which it doesn't stand. Of two variables the higher one is bound.
    #[inline]
    pub fn bind(&mut self, place: usize, to: usize)
        requires inside { (place < length self.old.cells) × (to < length self.old.cells) }
        requires unbound { tree_at (trees self.old.cells) place ≡ var place }
        requires absent { occurs place (tree_at (trees self.old.cells) to) ≡ false }
        requires down { (x : ℕ) → tree_at (trees self.old.cells) to ≡ var x → x < place }
        ensures trees { trees self.new.cells ≡ map (instance (value (one place (tree_at (trees self.old.cells) to)))) (trees self.old.cells) }
        ensures len { length self.new.cells ≡ length self.old.cells }
        ensures fewer { frees self.new.cells + 1 ≡ frees self.old.cells }
        ensures spare { self.new.spare ≡ self.old.spare }
        ensures keeps { Keeps self.old self.new }
    {
        let end = self.deref(to);
        let cell = linked(end, self.raw_at(end));
        self.bind_raw(place, cell);
    }

    /// Takes back all that came since a mark.
    pub fn undo_to(&mut self, mark: CellMark)
        requires { IsMark self.old.cells self.old.trail mark.cells mark.trail }
        ensures cells { self.new.cells ≡ undone self.old mark.cells mark.trail }
        ensures trail { self.new.trail ≡ take mark.trail self.old.trail }
        ensures spare { self.new.spare + mark.cells ≡ self.old.spare + length self.old.cells }
        ensures older { (n t : ℕ) → n ≤ mark.cells → t ≤ mark.trail → IsMark self.old.cells self.old.trail n t → IsMark self.new.cells self.new.trail n t }
        ensures older_leads { (n t : ℕ) → n ≤ mark.cells → t ≤ mark.trail → IsMark self.old.cells self.old.trail n t → undone self.new n t ≡ undone self.old n t }
    {
        unwind(&mut self.cells, &mut self.trail, mark.trail);
        self.cells.truncate(mark.cells);
        self.settled = self.settled.min(mark.cells);
    }
}
