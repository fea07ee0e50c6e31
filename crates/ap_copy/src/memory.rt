//! Which compound terms are copied already, so that what they share is copied once.

ghost use Rattle.std.specs.Prelude.{◌≡◌, [], IfSome, OnOk};
ghost use Rattle.std.specs.List.{Contains};
ghost use Rattle.ap_copy.specs.Memory.{IsWith};

use ap_marks::Marks;
use ap_term::{Atom, NoMemory};
use std::alloc::Global;

/// So many compound terms are copied before one is remembered.
const FIRST_PAUSE: usize = 256;

/// A compound term with arguments from the place `from` on, and the place in the block from which on their copies stand.
#[derive(Clone, Copy)]
pub struct Entry {
    pub name: Atom,
    pub count: u32,
    pub from: usize,
    pub first: u32,
}

/// The terms of which the copies are known, each at the number that the place of its first argument has. Any of them may be
/// left out: since most terms share nothing, a sixteenth of them is remembered, in parts that are each twice as long as the
/// one before, until one of them is met again.
#[derive(Drop)]
pub struct Memory {
    places: Marks,
    pub entries: Vec<Entry>,
    is_met: bool,
    left: usize,
    pause: usize,
    next_pause: usize,
}

impl Memory {
    /// Takes no memory.
    pub fn new(alloc: Global) -> Memory {
        Memory {
            places: Marks::new(alloc),
            entries: Vec::new(alloc),
            is_met: false,
            left: 0,
            pause: FIRST_PAUSE,
            next_pause: FIRST_PAUSE,
        }
    }

    /// Forgets all.
    pub fn clear(&mut self)
        ensures { self.new.entries.items ≡ [] }
    {
        self.places.clear();
        self.entries.clear();
        self.is_met = false;
        self.left = 0;
        self.pause = FIRST_PAUSE;
        self.next_pause = FIRST_PAUSE;
    }

    /// Whether terms are remembered at this point.
    fn is_on(&self) -> bool {
        self.is_met || self.left > 0
    }

    /// Counts a term that is begun.
    fn count(&mut self)
        ensures { self.new.entries.items ≡ self.old.entries.items }
    {
        if self.left > 0 {
            self.left -= 1;
        } else if self.pause > 0 {
            self.pause -= 1;
        } else {
            self.left = self.next_pause / 16;
            self.pause = self.next_pause;
            self.next_pause = self.next_pause.saturating_mul(2);
        }
    }

    /// The place from which on the copies of these arguments stand, where it is known.
    pub fn find(&mut self, name: Atom, from: usize, count: u32) -> Option<u32>
        ensures found { IfSome result (λ first. Contains self.old.entries.items (record { name = name; count = count; from = from; first = first })) }
        ensures same { self.new.entries.items ≡ self.old.entries.items }
    {
        self.count();
        if !self.is_on() {
            return None;
        }
        let number = self.places.number_of(from)?;
        let entry = *self.entries.get(number)?;
        if entry.name == name && entry.from == from && entry.count == count {
            self.is_met = true;
            Some(entry.first)
        } else {
            None
        }
    }

    /// Keeps a term that is copied.
    pub fn keep(&mut self, entry: Entry) -> Result<(), NoMemory>
        ensures { OnOk result (IsWith entry self.old.entries.items self.new.entries.items) }
    {
        if !self.is_on() || self.places.contains(entry.from) {
            return Ok(());
        }
        self.places.insert(entry.from)?;
        self.entries.push(entry)?;
        Ok(())
    }
}
