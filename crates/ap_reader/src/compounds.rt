//! Compound terms of one and of two arguments.

ghost use Rattle.std.specs.Prelude.{◌≡◌, IfOk};
ghost use Rattle.ap_term.specs.Tree.{node, more, none};
ghost use Rattle.ap_term.specs.TermView.{tree_of};

use ap_term::{Args, Atom, NoMemory, Term};
use std::alloc::Global;

/// Makes a compound term of one argument.
pub(crate) fn compound1(alloc: Global, name: Atom, x: Term) -> Result<Term, NoMemory>
    ensures { IfOk result (λ t. tree_of t ≡ node name (more (tree_of x) none)) }
{
    Ok(Term::Node(name, Args::one(alloc, x)?))
}

/// Makes a compound term of two arguments.
#[inline(always)]
pub(crate) fn compound2(alloc: Global, name: Atom, x: Term, y: Term) -> Result<Term, NoMemory>
    ensures { IfOk result (λ t. tree_of t ≡ node name (more (tree_of x) (more (tree_of y) none))) }
{
    Ok(Term::Node(name, Args::two(alloc, x, y)?))
}
