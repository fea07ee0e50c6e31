//! The open sections of a search, one for another.

ghost use Rattle.std.specs.Prelude.{◌≡◌, ◌<◌, true, false, [], ◌∷◌, ◌++◌, IfSome, IfNone};
ghost use Rattle.std.specs.Prelude.{vec_len, vec_capacity};
ghost use Rattle.ap_instr.specs.Code.{Compiled};
ghost use Rattle.ap_tied.specs.Settling.{IsAnswerIn};
ghost use Rattle.ap_machine.specs.Stands.{tuple_of};
ghost use Rattle.ap_machine.specs.Lent.{terms_of};
ghost use Rattle.ap_tie.specs.Sections.{machine_in};
ghost use Rattle.ap_section.specs.Ends.{left_behind};
ghost use Rattle.ap_section.specs.Ready.{IsReady};
ghost use Rattle.ap_post.specs.declared.post.Post.{Post as Posting};
ghost use Rattle.ap_post.specs.Posts.{posted_in};
ghost use Rattle.ap_stack.specs.Stacks.{IsGood, section_in, spent_outside};

use ap_codecheck::Sound;
use ap_ledger::Share;
use ap_machine::Tuple;
use ap_section::{Pool, Section};
use std::alloc::Global;
use std::mem;

/// How a search ended.
#[derive(Clone, Copy, Debug, PartialEq, Eq)]
pub enum Ending {
    /// Nothing is left to do.
    Failed,
    /// A call is due, and the budget is spent.
    Spent,
}

/// What a step came to.
#[derive(Clone, Copy, Debug, PartialEq, Eq)]
pub enum Step {
    /// The search goes on.
    Went,
    /// Nothing can be done before a goal that is out has come back.
    Waits,
    /// The goal of this place of a group was begun.
    Began(usize),
    /// The search of the goal of this place of a group has ended, or stands at an answer.
    Finished(usize),
    /// The search stands at an answer.
    Answer,
    /// The search has ended.
    Ended(Ending),
}

/// A section that waits at its newest frame: the next one runs the goal of a slot of it.
#[derive(Drop)]
pub struct Open {
    pub(crate) section: Section,
    /// The slot, from 1.
    pub(crate) place: usize,
    /// How many calls the slot's search had made before this round.
    pub(crate) since: u64,
    /// The number under which goals of its frame are out.
    pub(crate) frame: u64,
    /// The search's turn at which it began to wait.
    pub(crate) turn: u64,
}

/// The open sections of a search. Each runs for the one before it, and the first one for the search's goal; the newest one goes on.
#[derive(Drop)]
pub struct Stack<'a> {
    pub(crate) sound: &'a Sound,
    /// Without the newest one, the outermost first.
    pub(crate) outer: Vec<Open>,
    pub(crate) newest: Section,
    /// The number under which goals of the newest one's frame are out.
    pub(crate) frame: u64,
    /// Whether the newest one is at its frame, which is to be tended.
    pub(crate) tends: bool,
    /// The calls that were made for the search.
    pub(crate) share: Share,
    /// The number of the outermost frame.
    pub(crate) first: u64,
    /// How many steps were made.
    pub(crate) turns: u64,
    /// No goal of a frame before this one is ready.
    pub(crate) oldest: usize,
    /// How many frames are open around the search's goal.
    pub(crate) around: usize,
    /// What is done with, for sections and frames that begin.
    pub(crate) pool: Pool,
}

impl<'a> Stack<'a> {
    /// The search of a section that begins, under a number that no frame had; so many frames are open around its goal.
    pub fn new(
        alloc: Global,
        sound: &'a Sound,
        newest: Section,
        frame: u64,
        around: usize,
    ) -> Stack<'a>
        ensures sound { result.sound.now ≡ sound.now }
        ensures alone { result.outer.items ≡ [] }
        ensures newest { result.newest ≡ newest }
        ensures number { (result.first ≡ frame) × (result.frame ≡ frame) × (result.tends ≡ false) }
        ensures share { result.share ≡ 0 }
        ensures good { (p : Posting) → IsReady sound.now newest → posted_in p frame ≡ [] → frame < p.next → IsGood p result }
    {
        Stack {
            sound,
            outer: Vec::new(alloc),
            newest,
            frame,
            tends: false,
            share: Share::new(),
            first: frame,
            turns: 0,
            oldest: 0,
            around,
            pool: Pool::new(alloc),
        }
    }

    /// Counts the frames that are open around the newest section.
    pub(crate) fn depth(&self) -> usize {
        self.around.saturating_add(self.outer.len())
    }

    /// Counts the frames that are open around a goal of the section with so many before it.
    pub(crate) fn around_goal(&self, before: usize) -> usize {
        self.around.saturating_add(before).saturating_add(1)
    }

    /// Tells the number of its outermost frame.
    pub fn first(&self) -> u64
        ensures { result ≡ self.now.first }
    {
        self.first
    }

    /// Puts a section above the newest one, for a slot of its frame, under a number of its own.
    pub(crate) fn push(&mut self, section: Section, place: usize, since: u64, frame: u64)
        requires room { vec_len self.old.outer < vec_capacity self.old.outer }
        ensures outer { self.new.outer.items ≡ self.old.outer.items ++ record { section = self.old.newest; place = place; since = since; frame = self.old.frame; turn = self.old.turns } ∷ [] }
        ensures newest { (self.new.newest ≡ section) × (self.new.frame ≡ frame) × (self.new.tends ≡ false) }
        ensures same { (self.new.sound.now ≡ self.old.sound.now) × (self.new.first ≡ self.old.first) }
        ensures share { self.new.share ≡ self.old.share }
    {
        let below = mem::replace(&mut self.newest, section);
        self.outer.push_reserved(Open {
            section: below,
            place,
            since,
            frame: self.frame,
            turn: self.turns,
        });
        self.frame = frame;
        self.tends = false;
    }

    /// Takes the newest section off, with what the one before it says of it; that one tends its frame. None where it is the only one.
    pub(crate) fn pop(&mut self) -> Option<Open>
        ensures none { IfNone result ((self.old.outer.items ≡ []) × (self.new ≡ self.old)) }
        ensures section { IfSome result (λ e. (e.section ≡ self.old.newest) × (self.new.tends ≡ true)) }
        ensures outer { IfSome result (λ e. self.old.outer.items ≡ self.new.outer.items ++ record { section = self.new.newest; place = e.place; since = e.since; frame = self.new.frame; turn = e.turn } ∷ []) }
        ensures same { (self.new.sound.now ≡ self.old.sound.now) × (self.new.first ≡ self.old.first) }
        ensures share { self.new.share ≡ self.old.share }
    {
        if self.outer.is_empty() {
            return None;
        }
        let below = self.outer.pop()?;
        let section = mem::replace(&mut self.newest, below.section);
        self.frame = below.frame;
        self.tends = true;
        self.oldest = self.oldest.min(self.outer.len());
        Some(Open {
            section,
            place: below.place,
            since: below.since,
            frame: below.frame,
            turn: below.turn,
        })
    }

    /// Counts the calls that the outermost section has made.
    pub fn spent(&self) -> u64
        ensures { (p : Posting) → result ≡ spent_outside p self.now }
    {
        match self.outer.first() {
            Some(open) => open.section.spent(),
            None => self.newest.spent(),
        }
    }

    /// Lends the tuple of the answer at which the newest section stands.
    pub fn tuple(&self) -> Tuple<'_>
        ensures tuple { terms_of result ≡ tuple_of (machine_in (section_in self.now)) }
        ensures answered { IsAnswerIn (section_in self.now) (terms_of result) }
    {
        self.newest.tuple()
    }

    /// Leaves the answer at which the newest section stands; it goes on behind it.
    pub fn redo(&mut self)
        ensures behind { section_in self.new ≡ left_behind (section_in self.old) }
        ensures same { (self.new.sound.now ≡ self.old.sound.now) × (self.new.outer ≡ self.old.outer) × (self.new.frame ≡ self.old.frame) × (self.new.first ≡ self.old.first) × (self.new.tends ≡ self.old.tends) }
        ensures share { self.new.share ≡ self.old.share }
        ensures ready { (code : Compiled) → IsReady code self.old.newest → IsReady code self.new.newest }
    {
        self.newest.redo();
    }

    /// Drops the sections one after another, however deep frames are nested in them, and gives the calls that were made.
    pub fn release(self, alloc: Global) -> Share
        ensures { result ≡ self.entry.share }
    {
        let Stack {
            outer,
            newest,
            share,
            ..
        } = self;
        newest.release(alloc);
        for open in outer {
            let Open { section, .. } = open;
            section.release(alloc);
        }
        share
    }
}
