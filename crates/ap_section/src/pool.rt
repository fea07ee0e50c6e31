//! What sections and frames that are done with leave: their memory.

ghost use Rattle.std.specs.Prelude.{◌≡◌, []};

use crate::section::Section;
use ap_copy::Parcelled;
use ap_frames::{Frame, Slot};
use std::alloc::Global;
use std::mem;

/// A pool keeps no more sections than that.
const MOST_SECTIONS: usize = 64;

/// It keeps none of more cells than that, so that what a large search took isn't held.
const MOST_CELLS: usize = 1_024;

/// It keeps none that made more calls, either, as its lists may have been long before.
const MOST_CALLS: u64 = 1_024;

/// It keeps no more lists of slots than that.
const MOST_LISTS: usize = 64;

/// It keeps no list with room for more slots than that.
const MOST_SLOTS: usize = 16;

/// Whether a section's search has surely taken little memory.
fn is_small(section: &Section) -> bool {
    section.cells() <= MOST_CELLS && section.spent() <= MOST_CALLS
}

/// Sections and lists of slots that are done with, whose memory the next ones take, and a list for answers.
#[derive(Drop)]
pub struct Pool {
    /// Without frames.
    sections: Vec<Section>,
    /// Without slots.
    slots: Vec<Vec<Slot<Section, Parcelled>>>,
    answers: Vec<Parcelled>,
    alloc: Global,
}

impl Pool {
    /// Takes no memory.
    pub fn new(alloc: Global) -> Pool {
        Pool {
            sections: Vec::new(alloc),
            slots: Vec::new(alloc),
            answers: Vec::new(alloc),
            alloc,
        }
    }

    /// Keeps a section that is done with and has no frame, if there is room for it.
    pub(crate) fn put(&mut self, section: Section) {
        if self.sections.len() < MOST_SECTIONS && is_small(&section) {
            let _kept = self.sections.push(section);
        }
    }

    /// Hands a section over.
    pub(crate) fn take(&mut self) -> Option<Section> {
        self.sections.pop()
    }

    /// Drops slots, and keeps their list, if it takes memory and there is room for it.
    fn put_slots(&mut self, mut slots: Vec<Slot<Section, Parcelled>>) {
        slots.clear();
        let most = slots.capacity();
        if 0 < most && most <= MOST_SLOTS && self.slots.len() < MOST_LISTS {
            let _kept = self.slots.push(slots);
        }
    }

    /// Drops the slots of a frame, if there is one, and keeps their list.
    pub(crate) fn put_frame(&mut self, frame: Option<Frame<Section, Parcelled>>) {
        if let Some(Frame { slots, .. }) = frame {
            self.put_slots(slots);
        }
    }

    /// Drops slots, and keeps their list; one without memory is left in its place.
    pub(crate) fn clear_slots(&mut self, slots: &mut Vec<Slot<Section, Parcelled>>)
        ensures { slots.new.items ≡ [] }
    {
        self.put_slots(mem::replace(slots, Vec::new(self.alloc)));
    }

    /// Hands over a list for slots.
    pub(crate) fn take_slots(&mut self) -> Vec<Slot<Section, Parcelled>> {
        match self.slots.pop() {
            Some(slots) => slots,
            None => Vec::new(self.alloc),
        }
    }

    /// Hands over a list for answers, which has none.
    pub(crate) fn take_list(&mut self) -> Vec<Parcelled>
        ensures { result.items ≡ [] }
    {
        let mut answers = mem::replace(&mut self.answers, Vec::new(self.alloc));
        answers.clear();
        answers
    }

    /// Takes a list back.
    pub(crate) fn give_list(&mut self, answers: Vec<Parcelled>) {
        self.answers = answers;
    }
}
