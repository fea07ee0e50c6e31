//! A frame whose round is over drops the sections, and the slots, that nobody looks at again.

ghost use Rattle.std.specs.Prelude.{◌≡◌, []};
ghost use Rattle.ap_instr.specs.Code.{Compiled};
ghost use Rattle.ap_frames.specs.Rounds.{numbered, behind};
ghost use Rattle.ap_frames.specs.Rows.{row, with_slots};
ghost use Rattle.ap_tied.specs.Emptied.{emptied};
ghost use Rattle.ap_tied.specs.Ties.{Goes};
ghost use Rattle.ap_section.specs.Views.{view_of};
ghost use Rattle.ap_section.specs.Ready.{IsReady};
ghost use Rattle.ap_section.specs.Owed.{OwesNoMore};
ghost use Rattle.ap_section.specs.Closes.{kept_of};

use crate::advance::is_over;
use crate::pool::Pool;
use crate::section::Section;
use ap_copy::Parcelled;
use ap_frames::{Frame, Slot, Stand};
use ap_tied::settling_law;
use std::mem;

/// Gives a section to the pool, if there is one.
fn give(section: Option<Section>, pool: &mut Pool) {
    if let Some(section) = section {
        section.give_to(pool);
    }
}

/// Gives the section that a slot holds to the pool, if its goal has no other answer.
fn empty(x: &mut Slot<Section, Parcelled>, pool: &mut Pool)
    ensures { x.new ≡ emptied x.old }
{
    if let Stand::Answered(answer) = &mut x.stand {
        if !answer.has_more {
            give(mem::replace(&mut answer.section, None), pool);
        }
    }
}

fn empty_if(x: &mut Slot<Section, Parcelled>, j: usize, i: usize, pool: &mut Pool)
    ensures { x.new ≡ behind emptied i j x.old }
{
    if i < j {
        empty(x, pool);
    }
}

/// Empties the slots behind slot i, from 1.
#[tactic(auto, using(crate::proofs::Emptied::numbered_rules))]
fn empty_behind(i: usize, slots: &mut Vec<Slot<Section, Parcelled>>, pool: &mut Pool)
    ensures { slots.new.items ≡ numbered (behind emptied i) 1 slots.old.items }
{
    for j in 0..slots.len() {
        empty_if(&mut slots[j], j + 1, i, pool);
    }
}

/// Gives slots to the pool, with what they hold.
fn clear(slots: &mut Vec<Slot<Section, Parcelled>>, pool: &mut Pool)
    ensures { slots.new.items ≡ [] }
{
    empty_behind(0, slots, pool);
    pool.clear_slots(slots);
}

/// Empties the slots behind the one that is redone next; where none is, gives all slots away.
fn empty_frame(frame: &mut Frame<Section, Parcelled>, pool: &mut Pool)
    ensures { row frame.new ≡ with_slots (kept_of (row frame.old).slots) (row frame.old) }
{
    match frame.next_redo() {
        Some(i) => empty_behind(i, &mut frame.slots, pool),
        None => clear(&mut frame.slots, pool),
    }
}

impl Section {
    /// Gives sections of the newest frame's slots to the pool, if its round is over: those that have no other answer, and stand behind the slot
    /// that is redone next. Slots there begin anew when that one has answered. Where none is redone all slots are given to the pool: the frame
    /// stands without them until the search comes back to it.
    pub fn drop_sections(&mut self, pool: &mut Pool)
        ensures goes { (code : Compiled) → Goes code (view_of self.old) (view_of self.new) }
        ensures ready { (code : Compiled) → IsReady code self.old → IsReady code self.new }
        ensures owes { OwesNoMore (view_of self.old) (view_of self.new) }
    {
        settling_law();
        if self.frames.is_empty() {
            return;
        }
        let newest = self.frames.len() - 1;
        if !is_over(self.frames[newest].round) {
            return;
        }
        empty_frame(&mut self.frames[newest], pool);
    }
}
