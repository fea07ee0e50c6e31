//! Sections that are done with.

use crate::pool::Pool;
use crate::section::Section;
use ap_copy::Parcelled;
use ap_frames::{Answer, Frame, Slot, Stand};
use std::alloc::Global;

/// Lists the section that a slot holds, if it may hold others.
fn list_held(slot: Slot<Section, Parcelled>, left: &mut Vec<Section>) {
    let Slot { stand, .. } = slot;
    let Stand::Answered(answer) = stand else {
        return;
    };
    let Answer { section, .. } = answer;
    if let Some(section) = section {
        if !section.frames.is_empty() {
            let _listed = left.push(section);
        }
    }
}

/// Lists the sections that a frame's slots hold.
fn list_slots(frame: Frame<Section, Parcelled>, left: &mut Vec<Section>) {
    let Frame { slots, .. } = frame;
    for slot in slots {
        list_held(slot, left);
    }
}

/// Lists the sections that a section's slots hold, and drops it without them.
fn list_frames(section: Section, left: &mut Vec<Section>) {
    let Section { frames, .. } = section;
    for frame in frames {
        list_slots(frame, left);
    }
}

impl Section {
    /// Gives the section to the pool. One with frames is dropped, with what their slots hold.
    pub fn give_to(self, pool: &mut Pool) {
        if !self.frames.is_empty() {
            let alloc = self.alloc;
            self.release(alloc);
            return;
        }
        pool.put(self);
    }

    /// Drops the section, and those in its slots one after another: as long as memory for a list of them can be had, no depth of
    /// frames is one of the machine's stack.
    pub fn release(self, alloc: Global) {
        if self.frames.is_empty() {
            return;
        }
        let mut left = Vec::new(alloc);
        let _listed = left.push(self);
        for _ in 0..u64::MAX {
            let Some(section) = left.pop() else {
                return;
            };
            list_frames(section, &mut left);
        }
    }
}
