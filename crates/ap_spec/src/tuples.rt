//! Lists of tuples: the answers of a search.

ghost use Rattle.std.specs.Prelude.{◌≡◌, [], ◌∷◌, ◌++◌, length, is_ok, ◌==◌, if◌then◌else◌};

use ap_term::{Args, NoMemory};
use std::alloc::Global;
use std::marker::Model;

/// A list of tuples.
#[derive(Drop)]
pub struct Tuples {
    items: Vec<Args>,
}

impl Model for Tuples {
    ghost use Rattle.std.specs.Prelude.{List};
    ghost use Rattle.std.specs.Coded.{coded_list};
    ghost use Rattle.ap_term.specs.TreeCode.{trees_code};
    ghost use Rattle.ap_term.specs.Tree.{Trees};

    ghost Value = { List Trees };

    ghost coded = { coded_list trees_code };

    ghost view = { λ a. a.items.items };
}

impl Tuples {
    pub fn new(alloc: Global) -> Tuples
        ensures { result ≡ [] }
    {
        Tuples {
            items: Vec::new(alloc),
        }
    }

    pub fn push(&mut self, tuple: Args) -> Result<(), NoMemory>
        ensures { self.new ≡ (if is_ok result then self.old ++ tuple ∷ [] else self.old) }
    {
        self.items.push(tuple)?;
        Ok(())
    }

    pub fn len(&self) -> usize
        ensures { result ≡ length self.now }
    {
        self.items.as_slice().len()
    }

    pub fn is_empty(&self) -> bool
        ensures { result ≡ (length self.now == 0) }
    {
        self.items.as_slice().is_empty()
    }

    pub fn as_slice(&self) -> &[Args]
        ensures { result.now ≡ self.now }
    {
        self.items.as_slice()
    }
}
