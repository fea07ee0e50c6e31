//! What runs of instructions need of a store.

ghost use Rattle.std.specs.Prelude.{◌≡◌, ◌≤◌, length, take, drop, IfOk, OnOk};
ghost use Rattle.ap_instr.specs.Code.{Compiled};
ghost use Rattle.ap_needs.specs.Behind.{Begins, StandsAlone};
ghost use Rattle.ap_needs.specs.Needs.{wants, IsRoomOf};

use crate::cells::{larger, most_room};
use crate::wanting::add_wanting;
use ap_instr::Code;
use ap_term::NoMemory;
use std::alloc::Global;

/// What runs of code need, from any place on to a transfer of control.
#[derive(Drop)]
pub struct Room {
    /// The most cells that one makes.
    pub cells: usize,
    /// By places, whether one may want memory, whatever was reserved.
    pub wanting: Vec<bool>,
}

impl Room {
    /// What runs of the code need.
    pub fn of(alloc: Global, code: &Code) -> Result<Room, NoMemory>
        ensures { IfOk result (λ room. IsRoomOf code.now room) }
    {
        let mut room = Room {
            cells: 0,
            wanting: Vec::new(alloc),
        };
        room.grow(code)?;
        Ok(room)
    }

    /// Puts in what runs of longer code need, which begins with that whose runs' needs are known.
    pub fn grow(&mut self, code: &Code) -> Result<(), NoMemory>
        requires { length self.old.wanting.items ≤ length code.now.instructions }
        ensures is { OnOk result ((base : Compiled) → Begins base code.now → StandsAlone base → IsRoomOf base self.old → IsRoomOf code.now self.new) }
        ensures same { OnOk result (take (length self.old.wanting.items) self.new.wanting.items ≡ self.old.wanting.items) }
    {
        let behind = most_room(code, self.wanting.len())?;
        add_wanting(code, &mut self.wanting)?;
        self.cells = larger(self.cells, behind);
        Ok(())
    }

    /// Lets go what was put in for places behind so many, before which a run made so many cells at most.
    pub fn cut_to(&mut self, places: usize, cells: usize)
        ensures cells { self.new.cells ≡ cells }
        ensures wanting { self.new.wanting.items ≡ take places self.old.wanting.items }
    {
        self.cells = cells;
        self.wanting.truncate(places);
    }

    /// Whether the run from a place on may want memory.
    #[inline]
    pub fn may_want(&self, at: usize) -> bool
        ensures { (code : Compiled) → IsRoomOf code self.now → result ≡ wants (drop at code.instructions) }
    {
        match self.wanting.get(at) {
            Some(wants) => *wants,
            None => false,
        }
    }
}
