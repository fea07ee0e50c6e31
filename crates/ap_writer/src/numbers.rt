//! The numbers of variables.

ghost use Rattle.std.specs.Prelude.{◌≡◌, [], OnOk, IfOk};
ghost use Rattle.ap_term.specs.Tree.{var};
ghost use Rattle.ap_term.specs.Vars.{add_vars};
ghost use Rattle.ap_term.specs.UpToNames.{place};

use ap_term::NoMemory;
use indexmap::IndexSet;
use std::alloc::Global;
use std::marker::Model;

/// The variables that were written, in the order of their first occurrences. Clauses see their list.
#[derive(Drop)]
pub struct Numbers {
    found: IndexSet<u64>,
}

impl Model for Numbers {
    ghost use Rattle.std.specs.Prelude.{List, ℕ};

    ghost Value = { List ℕ };

    ghost view = { λ a. a.found.keys };
}

impl Numbers {
    pub fn new(alloc: Global) -> Numbers
        ensures { result ≡ [] }
    {
        Numbers {
            found: IndexSet::new(alloc),
        }
    }

    #[tactic(auto, using(crate::proofs::Numbering::numbers))]
    /// The variable's number from 1; a new variable gets the next one.
    pub fn number(&mut self, x: u64) -> Result<usize, NoMemory>
        ensures found { OnOk result (self.new ≡ add_vars (var x) self.old) }
        ensures number { IfOk result (λ n. n ≡ place self.new x) }
    {
        let (i, _) = self.found.insert_full(x)?;
        // The length is far below the greatest `usize`, so the number fits.
        let _length = self.found.len();
        Ok(i + 1)
    }
}
