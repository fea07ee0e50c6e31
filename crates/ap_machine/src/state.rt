//! A search, and what is read of it.

ghost use Rattle.std.specs.Prelude.{◌≡◌, ◌+◌, ◌-◌, ◌^◌, ◌<◌, ◌≤◌, List, [], ◌∷◌, length, false, true, IfOk};
ghost use Rattle.ap_term.specs.UpToNames.{SameUpToNames};
ghost use Rattle.std.specs.List.{AllByRecursion};
ghost use Rattle.ap_term.specs.Tree.{count_trees};
ghost use Rattle.ap_tracked.specs.Tracked.{Tracked};
ghost use Rattle.ap_instr.specs.Code.{Compiled};
ghost use Rattle.ap_standing.specs.Machine.{failed};
ghost use Rattle.ap_standing.specs.Holds.{Holds};
ghost use Rattle.ap_machine.specs.View.{now_of, IsFor};
ghost use Rattle.ap_machine.specs.Stands.{IsAtAnswer, tuple_of};
ghost use Rattle.ap_machine.specs.Lent.{terms_of};

use crate::tuple::{Tuple, copy_apart};
use ap_arith::Pending;
use ap_cells::{CellMark, Cells};
use ap_checks::Comparison;
use ap_copy::Parcelled;
use ap_environments::Environments;
use ap_group::Goals;
use ap_term::NoMemory;
use ap_unify::Work;
use std::alloc::Global;
use std::marker::Model;

/// What a search does next.
#[derive(Clone, Copy)]
pub enum Now {
    /// A call of a predicate of the table, on the argument registers.
    Calling(u32),
    /// The instruction at a place in a clause.
    Inside(usize),
    /// A clause has ended.
    Returning,
    /// Nothing is left to do but what choice points keep.
    Failed,
}

/// A search that is paused: cells, returns, choice points and registers, of which there are as many as the code that it was
/// started with says.
#[derive(Drop)]
pub struct Search {
    pub(crate) cells: Cells,
    pub(crate) environments: Environments,
    pub(crate) x: Vec<u32>,
    pub(crate) y: Vec<u32>,
    /// The places of the tuple.
    pub(crate) roots: Vec<usize>,
    pub(crate) next: Now,
    pub(crate) spent: u64,
    pub(crate) budget: u64,
    pub(crate) before_x: Vec<u32>,
    pub(crate) before_y: Vec<u32>,
    /// The goals of a group, while it is forked or joined.
    pub(crate) goals: Goals,
    pub(crate) work: Work,
    pub(crate) pending: Pending,
    pub(crate) comparison: Comparison,
    pub(crate) alloc: Global,
}

impl Model for Search {
    ghost use Rattle.ap_machine.specs.View.{Paused, paused_of};
    ghost use Rattle.ap_machine.specs.Sane.{Sane};

    ghost Value = { Paused };

    ghost view = { λ a. paused_of a.cells a.environments a.x.items a.y.items a.roots.items a.next a.spent a.budget };

    ghost invariant = { λ a. Sane a.cells a.environments a.x.items a.y.items a.roots.items };
}

impl Search {
    /// How many calls were made.
    pub fn spent(&self) -> u64
        ensures { result ≡ self.now.spent }
    {
        self.spent
    }

    /// Counts the cells of its store, by which it is known how much a copy has cost.
    pub fn cells(&self) -> usize
        ensures { result ≡ length self.now.machine.cells }
    {
        self.cells.len()
    }

    /// Leaves so many calls to make.
    pub fn grant(&mut self, rest: u64)
        requires { self.old.spent + rest < 2 ^ 64 }
        ensures budget { self.new ≡ record self.old { budget = self.old.spent + rest } }
        ensures is_for { (code : Compiled) → IsFor code self.old → IsFor code self.new }
    {
        self.budget = self.spent + rest;
    }

    /// What it does next.
    #[inline(always)]
    pub(crate) fn now(&self) -> Now
        ensures { self.now.machine.now ≡ now_of result }
    {
        self.next
    }

    /// Whether no call is left to make.
    #[inline(always)]
    pub(crate) fn is_spent(&self) -> bool
        ensures spent { result ≡ true → self.now.budget ≤ self.now.spent }
        ensures left { result ≡ false → self.now.spent < self.now.budget }
        ensures fits { self.now.budget < 2 ^ 64 }
    {
        self.spent >= self.budget
    }

    /// What is being done leads nowhere.
    #[inline(always)]
    pub(crate) fn fail(&mut self)
        ensures { self.new ≡ record self.old { machine = record self.old.machine { now = failed } } }
    {
        self.next = Now::Failed;
    }

    /// Counts a call.
    #[inline(always)]
    pub(crate) fn count(&mut self)
        requires { self.old.spent < 2 ^ 64 - 1 }
        ensures { self.new ≡ record self.old { spent = self.old.spent + 1 } }
    {
        self.spent += 1;
    }

    /// The places of the tuple are those of cells.
    pub(crate) fn roots_are_cells(&self)
        ensures { AllByRecursion (λ r. r < length self.now.machine.cells) self.now.machine.roots }
    {
        let _ = &self.cells;
    }

    /// Whether an alternative is left. At an answer that says whether another state is.
    pub fn has_more(&self) -> bool
        ensures none { result ≡ false → self.now.machine.points ≡ [] }
        ensures more { result ≡ true → (code : Compiled) → IsFor code self.now → IsAtAnswer self.now.machine → (s : Tracked) (ss : List Tracked) → Holds code self.now.machine (s ∷ ss) → ss ≡ [] → ⊥ }
        ensures last { result ≡ false → (code : Compiled) → IsAtAnswer self.now.machine → (s : Tracked) (ss : List Tracked) → Holds code self.now.machine (s ∷ ss) → ss ≡ [] }
    {
        match self.environments.newest() {
            Some(_) => true,
            None => false,
        }
    }

    /// Leaves the answer at which it stands; the search goes on behind it.
    pub fn redo(&mut self)
        ensures failed { self.new ≡ record self.old { machine = record self.old.machine { now = failed } } }
        ensures is_for { (code : Compiled) → IsFor code self.old → IsFor code self.new }
        ensures left { IsAtAnswer self.old.machine → (code : Compiled) (s : Tracked) (ss : List Tracked) → Holds code self.old.machine (s ∷ ss) → Holds code self.new.machine ss }
    {
        self.next = Now::Failed;
    }

    /// Lends the tuple of the answer at which it stands.
    pub fn tuple(&self) -> Tuple<'_>
        ensures cells { result.cells.now.cells ≡ self.now.machine.cells }
        ensures roots { result.roots.now ≡ self.now.machine.roots }
        ensures tuple { terms_of result ≡ tuple_of self.now.machine }
        ensures answered { IsAtAnswer self.now.machine → (code : Compiled) (s : Tracked) (ss : List Tracked) → Holds code self.now.machine (s ∷ ss) → SameUpToNames (terms_of result) s.tuple }
    {
        Tuple {
            cells: &self.cells,
            roots: &self.roots,
        }
    }

    /// The tuple of the answer at which it stands.
    pub fn answer(&self) -> Result<Parcelled, NoMemory>
        ensures tuple { IfOk result (λ parcel. SameUpToNames parcel (tuple_of self.now.machine)) }
        ensures width { IfOk result (λ parcel. count_trees parcel ≡ length self.now.machine.roots) }
        ensures answered { IfOk result (λ parcel. IsAtAnswer self.now.machine → (code : Compiled) (s : Tracked) (ss : List Tracked) → Holds code self.now.machine (s ∷ ss) → SameUpToNames parcel s.tuple) }
    {
        copy_apart(self.alloc, &self.cells, &self.roots)
    }
}
