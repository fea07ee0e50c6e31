//! How answers are written.

ghost use Rattle.std.specs.Prelude.{◌≡◌, ℕ, List, IfOk, length};
ghost use Rattle.ap_term.specs.Tree.{Trees};
ghost use Rattle.ap_term.specs.UpToNames.{SameUpToNames};
ghost use Rattle.ap_machine.specs.Lent.{terms_of};

use ap_machine::Tuple;
use ap_term::NoMemory;
use std::alloc::Global;

/// What writes the answers of a query, each as a line.
pub trait Answers {
    /// How many variables the query has.
    ghost width: { Self → ℕ };

    /// The line of a tuple.
    ghost line: { Self → Trees → List ℕ };

    /// The line of a tuple that is lent, as it is put.
    fn line(&self, alloc: Global, tuple: &Tuple<'_>) -> Result<Vec<u8>, NoMemory>
        requires { length tuple.now.roots.now ≡ width self.now }
        ensures { IfOk result (λ bytes. bytes.items ≡ line self.now (terms_of tuple.now)) };

    /// Tuples that are the same up to names have one line.
    ghost names: { (a : Self) (t u : Trees) → SameUpToNames t u → line a t ≡ line a u };
}
