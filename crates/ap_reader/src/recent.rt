//! The atoms of names that were looked up lately. Each is a guess, which is compared with the table before it's used.

ghost use Rattle.std.specs.Prelude.{◌≡◌, Some, slice_get, IfSome};

use ap_term::{Atom, Atoms};
use std::alloc::Global;

/// How many places there are at first, and at most.
const FEWEST: usize = 256;

const MOST: usize = 65_536;

/// The number of an atom at each place; a name's place is told by its bytes.
#[derive(Drop)]
pub(crate) struct Recent {
    numbers: Vec<u32>,
}

/// A number that is another for most names, and costs little.
fn sum_of(name: &[u8]) -> usize {
    let mut sum: u32 = 0;
    for b in name {
        sum = sum.wrapping_mul(31).wrapping_add(u32::from(*b));
    }
    sum as usize
}

impl Recent {
    pub(crate) fn new(alloc: Global) -> Recent {
        Recent {
            numbers: Vec::new(alloc),
        }
    }

    /// The place of a name, where there are any; their number is a power of two.
    fn place_of(&self, name: &str) -> usize {
        sum_of(name.as_bytes()) & self.numbers.len().saturating_sub(1)
    }

    /// The atom of a name, where it is at its place.
    pub(crate) fn known(&self, atoms: &Atoms, name: &str) -> Option<Atom>
        ensures { IfSome result (λ a. slice_get atoms.now a ≡ Some name.now) }
    {
        let Some(number) = self.numbers.get(self.place_of(name)) else {
            return None;
        };
        let atom = Atom::at(*number);
        match atoms.get(atom) {
            Some(held) if held == name => Some(atom),
            _ => None,
        }
    }

    /// Makes more places, until there are as many as atoms. Without memory there are no more.
    fn grow(&mut self, number: u32) {
        let len = self.numbers.len();
        if len < MOST && len <= number as usize {
            let _grown = self.numbers.resize(MOST.min(FEWEST.max(len * 4)), 0);
        }
    }

    /// Puts an atom at its name's place.
    pub(crate) fn keep(&mut self, name: &str, atom: Atom) {
        self.grow(atom.number());
        let place = self.place_of(name);
        if let Some(number) = self.numbers.get_mut(place) {
            *number = atom.number();
        }
    }
}
