//! Classes of numbers, which are joined two by two, and all parted again in no time.

ghost use Rattle.std.specs.Prelude.{◌≡◌, ℕ, ◌<◌, ◌≤◌, true, false, length, slice_index_or, IfOk, OnOk, Option};
ghost use Rattle.ap_term.specs.Tree.{Tree};
ghost use Rattle.ap_marks.specs.Classes.{Agrees, no_links};

use crate::marks::Marks;
use ap_term::NoMemory;
use std::alloc::Global;
use std::marker::Model;

/// Each of `froms` is in the class of the number of `tos` that stands beside it.
#[derive(Drop)]
pub struct Classes {
    froms: Marks,
    tos: Vec<u32>,
}

impl Model for Classes {
    ghost use Rattle.ap_marks.specs.Classes.{Links};

    ghost Value = { Links };

    ghost use Rattle.ap_marks.specs.Linked.{IsLinked};

    ghost view = { λ a. record { froms = a.froms; tos = a.tos.items } };

    ghost invariant = { IsLinked };
}

/// A number by which links are directed: as good as one drawn by lot, so that chains of links stay short in the mean.
fn scattered(x: usize) -> usize {
    x.wrapping_mul(0x9E37_79B9_7F4A_7C15)
}

impl Classes {
    /// Takes no memory.
    pub fn new(alloc: Global) -> Classes
        ensures { result ≡ no_links }
    {
        Classes {
            froms: Marks::new(alloc),
            tos: Vec::new(alloc),
        }
    }

    /// Parts all.
    pub fn clear(&mut self)
        ensures { self.new ≡ no_links }
    {
        self.froms.clear();
        self.tos.clear();
    }

    /// A number of the same class, mostly the same for all of the class.
    fn find(&self, x: usize) -> usize
        ensures { (f : ℕ → Option Tree) → Agrees f self.now → f x ≡ f result }
    {
        let mut at = x;
        for _ in 0..self.tos.len() {
            match self.froms.number_of(at) {
                Some(number) => at = self.tos[number] as usize,
                None => return at,
            }
        }
        at
    }

    /// Joins the classes of two numbers; true where they are one already.
    pub fn join(&mut self, a: usize, b: usize) -> Result<bool, NoMemory>
        ensures joined { IfOk result (λ r. r ≡ true → (f : ℕ → Option Tree) → Agrees f self.new → f a ≡ f b) }
        ensures same { IfOk result (λ r. r ≡ true → self.new ≡ self.old) }
        ensures older { OnOk result ((f : ℕ → Option Tree) → Agrees f self.new → Agrees f self.old) }
        ensures no_more { OnOk result ((f : ℕ → Option Tree) → Agrees f self.old → f a ≡ f b → Agrees f self.new) }
    {
        let left = self.find(a);
        let right = self.find(b);
        if left == right {
            return Ok(true);
        }
        if scattered(left) < scattered(right) {
            self.link(left, right)?;
        } else {
            self.link(right, left)?;
        }
        Ok(false)
    }

    /// Puts a number that is in no other class yet into the class of another.
    fn link(&mut self, from: usize, to: usize) -> Result<(), NoMemory>
        ensures older { OnOk result ((f : ℕ → Option Tree) → Agrees f self.new → Agrees f self.old) }
        ensures no_more { OnOk result ((f : ℕ → Option Tree) → Agrees f self.old → f from ≡ f to → Agrees f self.new) }
    {
        if self.froms.contains(from) {
            return Ok(());
        }
        let Ok(target) = u32::try_from(to) else {
            return Err(NoMemory);
        };
        self.tos.push(target)?;
        match self.froms.insert(from) {
            Ok(()) => Ok(()),
            Err(error) => {
                self.tos.truncate(self.froms.len());
                Err(error)
            }
        }
    }
}
