//! A section, and what is read of it.

ghost use Rattle.std.specs.Prelude.{◌≡◌, ◌-◌, true, false, length, IfOk};
ghost use Rattle.ap_term.specs.Tree.{count_trees};
ghost use Rattle.ap_term.specs.UpToNames.{SameUpToNames};
ghost use Rattle.ap_instr.specs.Code.{Compiled};
ghost use Rattle.ap_tie.specs.Sections.{machine_in};
ghost use Rattle.ap_tie.specs.Tied.{IsAtAnswer};
ghost use Rattle.ap_machine.specs.Stands.{tuple_of};
ghost use Rattle.ap_machine.specs.Lent.{terms_of};
ghost use Rattle.ap_tied.specs.Settling.{IsAnswerIn};
ghost use Rattle.ap_section.specs.Views.{view_of, spent_in, budget_in};
ghost use Rattle.ap_section.specs.Ready.{IsReady};
ghost use Rattle.ap_section.specs.Ends.{HasNext, HasNothing, left_behind};

use crate::held::Held;
use ap_copy::Parcelled;
use ap_frames::Frame;
use ap_machine::Tuple;
use ap_term::NoMemory;
use std::alloc::Global;

/// A search, and beside it a frame for each of its forks.
#[cycle(sections)]
#[derive(Drop)]
pub struct Section {
    pub(crate) search: Held,
    /// The last one is the newest; its fork is the search's newest one.
    pub(crate) frames: Vec<Frame<Section, Parcelled>>,
    pub(crate) alloc: Global,
}

impl Section {
    /// Counts the calls that were made.
    pub fn spent(&self) -> u64
        ensures { result ≡ spent_in (view_of self.now) }
    {
        self.search.spent()
    }

    /// Counts the calls that are left to make.
    pub fn rest(&self) -> u64
        ensures { result ≡ budget_in (view_of self.now) - spent_in (view_of self.now) }
    {
        self.search.rest()
    }

    /// Counts the cells of its store, by which it is known how much a copy has cost.
    pub fn cells(&self) -> usize
        ensures { result ≡ length (machine_in (view_of self.now)).cells }
    {
        self.search.cells()
    }

    /// Lends the tuple of the answer at which it stands.
    pub fn tuple(&self) -> Tuple<'_>
        ensures tuple { terms_of result ≡ tuple_of (machine_in (view_of self.now)) }
        ensures answered { IsAnswerIn (view_of self.now) (terms_of result) }
        ensures width { length result.roots.now ≡ length (machine_in (view_of self.now)).roots }
    {
        self.search.tuple()
    }

    /// Copies out the tuple of the answer at which it stands.
    pub fn answer(&self) -> Result<Parcelled, NoMemory>
        ensures tuple { IfOk result (λ parcel. SameUpToNames parcel (tuple_of (machine_in (view_of self.now)))) }
        ensures answered { IfOk result (λ parcel. IsAnswerIn (view_of self.now) parcel) }
        ensures width { IfOk result (λ parcel. count_trees parcel ≡ length (machine_in (view_of self.now)).roots) }
    {
        self.search.answer()
    }

    /// Whether a choice point or a frame is left. At an answer that says whether there is another one.
    pub fn has_more(&self) -> bool
        ensures none { result ≡ false → HasNothing (view_of self.now) }
        ensures more { result ≡ true → (code : Compiled) → IsReady code self.now → IsAtAnswer (machine_in (view_of self.now)) → HasNext code (view_of self.now) }
    {
        !self.frames.is_empty() || self.search.has_more()
    }

    /// Leaves the answer at which it stands; it goes on behind it.
    pub fn redo(&mut self)
        ensures behind { view_of self.new ≡ left_behind (view_of self.old) }
        ensures ready { (code : Compiled) → IsReady code self.old → IsReady code self.new }
    {
        self.search.redo();
    }
}
