//! The terms that steps have made and that no later step has taken.

ghost use Rattle.std.specs.Prelude.{◌≡◌, ◌+◌, ◌<◌, ◌≤◌, ◌∷◌, ◌++◌, [], List, length, take, drop, vec_len, Err, IfOk, OnOk, OnErr, map};
ghost use Rattle.ap_term.specs.declared.names.InternErr.TheVariants as err;
ghost use Rattle.ap_lexer.specs.Lexeme.{Text};
ghost use Rattle.ap_term.specs.TermView.{tree_of};
ghost use Rattle.ap_reader.specs.Written.{Written, Nil};
ghost use Rattle.ap_reader.specs.Evaluated.{Value, ATerm, Gathered, with_rest};
ghost use Rattle.ap_reader.specs.Build.{term_in, terms_in, tree_cells};
ghost use Rattle.ap_reader.specs.Held.{Held, row, begins};

use crate::compounds::compound2;
use ap_lexer::push;
use ap_term::{Args, Atom, InternErr, NoMemory, Term};
use std::alloc::Global;

/// How many terms room is kept for.
const COMMON_ROOM: usize = 1024;

/// Takes the last term; there is one.
#[inline(always)]
fn pop(terms: &mut Vec<Term>) -> Term
    requires { 0 < vec_len terms.old }
    ensures items { terms.old.items ≡ terms.new.items ++ result ∷ [] }
    ensures len { vec_len terms.new + 1 ≡ vec_len terms.old }
{
    terms.pop().unwrap()
}

/// Takes the terms from a place on, as a list in front of a tail.
fn list_from(
    alloc: Global,
    terms: &mut Vec<Term>,
    from: usize,
    dot: Atom,
    tail: Term,
) -> Result<Term, NoMemory>
    requires { from ≤ vec_len terms.old }
    ensures terms { OnOk result (terms.new.items ≡ take from terms.old.items) }
    ensures list { IfOk result (λ t. tree_of t ≡ tree_cells dot (map tree_of (drop from terms.old.items)) (tree_of tail)) }
{
    let mut list = tail;
    while from < terms.len() {
        let item = pop(terms);
        list = compound2(alloc, dot, item, list)?;
    }
    Ok(list)
}

/// The terms, the last on top, and how many stood below the items of each bracket that is open. An item that is done
/// stays where it is, and the items of a bracket are taken at once.
#[derive(Drop)]
pub(crate) struct Stack {
    terms: Vec<Term>,
    begun: Vec<usize>,
}

impl Stack {
    pub(crate) fn new(alloc: Global) -> Stack
        ensures { (ns : List Text) → Held ns [] result }
    {
        Stack {
            terms: Vec::new(alloc),
            begun: Vec::new(alloc),
        }
    }

    /// Lets all go, but for the room of a common term.
    pub(crate) fn clear(&mut self)
        ensures { (ns : List Text) → Held ns [] self.new }
    {
        self.terms.clear();
        self.terms.shrink_to(COMMON_ROOM);
        self.begun.clear();
    }

    /// Puts a term on top.
    #[inline(always)]
    #[tactic(auto, using(crate::proofs::Held::put_held))]
    pub(crate) fn put(&mut self, term: Term) -> Result<(), InternErr>
        ensures value { OnOk result ((ns : List Text) (vs : List Value) (x : Written) → Held ns vs self.old → tree_of term ≡ term_in ns x → Held ns (ATerm x ∷ vs) self.new) }
        ensures err { OnErr result (result ≡ Err err.NoMemory) }
    {
        match push(&mut self.terms, term) {
            Ok(()) => Ok(()),
            Err(_) => Err(InternErr::NoMemory),
        }
    }

    /// Begins items, with none.
    #[tactic(auto, using(crate::proofs::Held::begin_held))]
    pub(crate) fn begin(&mut self) -> Result<(), InternErr>
        ensures value { OnOk result ((ns : List Text) (vs : List Value) → Held ns vs self.old → Held ns (Gathered [] ∷ vs) self.new) }
        ensures err { OnErr result (result ≡ Err err.NoMemory) }
    {
        match push(&mut self.begun, self.terms.len()) {
            Ok(()) => Ok(()),
            Err(_) => Err(InternErr::NoMemory),
        }
    }

    /// Takes the term on top.
    #[tactic(auto, using(crate::proofs::Held::take_held, crate::proofs::Held::some_terms))]
    pub(crate) fn take(&mut self) -> Term
        ensures { (ns : List Text) (x : Written) (vs : List Value) → Held ns (ATerm x ∷ vs) self.old → (tree_of result ≡ term_in ns x) × Held ns vs self.new }
    {
        match self.terms.pop() {
            Some(term) => term,
            None => Term::Var(0),
        }
    }

    /// The place of the first item of those that began last, which is forgotten.
    #[tactic(auto, using(crate::proofs::Held::first_held, crate::proofs::Held::some_begun))]
    fn first_item(&mut self) -> usize
        ensures within { result ≤ vec_len self.new.terms }
        ensures terms { self.new.terms ≡ self.old.terms }
        ensures first { (ns : List Text) (ys : List Written) (vs : List Value) → Held ns (Gathered ys ∷ vs) self.old → (result ≡ length (row ns vs)) × (self.new.begun.items ≡ begins ns vs) }
    {
        match self.begun.pop() {
            Some(from) => from.min(self.terms.len()),
            None => 0,
        }
    }

    /// Takes the items that began last.
    pub(crate) fn take_items(&mut self, alloc: Global) -> Result<Args, InternErr>
        ensures value { IfOk result (λ ts. (ns : List Text) (ys : List Written) (vs : List Value) → Held ns (Gathered ys ∷ vs) self.old → (ts ≡ terms_in ns (with_rest ys Nil)) × Held ns vs self.new) }
        ensures err { OnErr result (result ≡ Err err.NoMemory) }
    {
        let from = self.first_item();
        match Args::take_from(alloc, &mut self.terms, from) {
            Ok(items) => Ok(items),
            Err(_) => Err(InternErr::NoMemory),
        }
    }

    /// Takes the items that began last as a list in front of a tail.
    pub(crate) fn take_list(
        &mut self,
        alloc: Global,
        dot: Atom,
        tail: Term,
    ) -> Result<Term, NoMemory>
        ensures { IfOk result (λ t. (ns : List Text) (ys : List Written) (vs : List Value) → Held ns (Gathered ys ∷ vs) self.old → (tree_of t ≡ tree_cells dot (map (term_in ns) ys) (tree_of tail)) × Held ns vs self.new) }
    {
        let from = self.first_item();
        match list_from(alloc, &mut self.terms, from, dot, tail) {
            Ok(list) => Ok(list),
            Err(wanting) => Err(wanting),
        }
    }
}
