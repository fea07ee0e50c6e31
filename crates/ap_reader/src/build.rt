//! The term that steps make. The names go into the table of atoms as they come.

ghost use Rattle.std.specs.Prelude.{◌≡◌, ◌<◌, List, [], ◌∷◌, IfOk, OnOk, IfSome, Some, map, codes, slice_get};
ghost use Rattle.ap_lexer.specs.Lexeme.{Text};
ghost use Rattle.ap_term.specs.declared.fixed.TheConstants.{COUNT};
ghost use Rattle.ap_term.specs.AtomTable.{fixed_names, insert_names};
ghost use Rattle.ap_term.specs.TermView.{tree_of};
ghost use Rattle.ap_reader.specs.Written.{Written, Node, Cons, Nil, cell, leaf_of, leaf_at, meaning};
ghost use Rattle.ap_reader.specs.Evaluated.{Value, ATerm, Gathered, made, left, with_rest, cells};
ghost use Rattle.ap_reader.specs.Held.{Held, Fits};
ghost use Rattle.ap_reader.specs.Build.{place_of, term_in, leaf_names, step_names, names, Interned};
ghost use Rattle.ap_reader.specs.Grammar.{Tree};
ghost use Rattle.ap_reader.specs.Step.{postfix};

use crate::compounds::{compound1, compound2};
use crate::leaf::{Leaf, name_at};
use crate::pass::Step;
use crate::recent::Recent;
use crate::terms::Stack;
use ap_term::{Atom, Atoms, InternErr, Term, fixed};
use std::alloc::Global;

/// The number of a name that stands in most bodies: each table of names holds it from the start.
fn common(name: &[u8]) -> Option<u32>
    ensures { IfSome result (λ n. (n < COUNT) × (slice_get fixed_names n ≡ Some name.now)) }
{
    match name {
        [b','] => Some(fixed::COMMA),
        [b':', b'-'] => Some(fixed::NECK),
        [b'='] => Some(fixed::UNIFY),
        [b'i', b's'] => Some(fixed::IS),
        [b'+'] => Some(fixed::PLUS),
        [b'-'] => Some(fixed::MINUS),
        [b'*'] => Some(fixed::TIMES),
        [b'<'] => Some(fixed::LESS),
        [b'>'] => Some(fixed::GREATER),
        [b'&'] => Some(fixed::PARALLEL),
        _ => None,
    }
}

/// The atom of a name, which stays its place in the table however that grows.
fn atom(
    alloc: Global,
    recent: &mut Recent,
    atoms: &mut Atoms,
    name: &str,
) -> Result<Atom, InternErr>
    ensures place { IfOk result (λ a. (more : List Text) → a ≡ place_of (insert_names atoms.new more) name.now) }
    ensures table { Interned (name.now ∷ []) atoms.old atoms.new result }
{
    if let Some(number) = common(name.as_bytes()) {
        let _held = atoms.mark();
        return Ok(Atom::at(number));
    }
    if let Some(atom) = recent.known(atoms, name) {
        let _found = atoms.mark();
        return Ok(atom);
    }
    match atoms.intern(alloc, name) {
        Ok(atom) => {
            let _kept = atoms.mark();
            recent.keep(name, atom);
            Ok(atom)
        }
        Err(InternErr::Full) => Err(InternErr::Full),
        Err(InternErr::NoMemory) => Err(InternErr::NoMemory),
    }
}

/// What a token is as an operand.
#[inline(always)]
fn leaf(
    alloc: Global,
    leaves: &[Leaf],
    recent: &mut Recent,
    atoms: &mut Atoms,
    at: usize,
) -> Result<Term, InternErr>
    ensures value { IfOk result (λ t. (more : List Text) → tree_of t ≡ term_in (insert_names atoms.new more) (leaf_at (slice_get (map leaf_of leaves.now) at))) }
    ensures table { Interned (leaf_names (leaf_at (slice_get (map leaf_of leaves.now) at))) atoms.old atoms.new result }
{
    if let Some(Leaf::Variable(number)) = leaves.get(at) {
        return Ok(Term::Var(*number));
    }
    match atom(alloc, recent, atoms, name_at(leaves, at)) {
        Ok(name) => Ok(Term::Atom(name)),
        Err(e) => Err(e),
    }
}

/// The compound of a name and the term on top.
fn prefix(
    alloc: Global,
    stack: &mut Stack,
    recent: &mut Recent,
    atoms: &mut Atoms,
    name: &str,
) -> Result<Term, InternErr>
    ensures value { IfOk result (λ t. (more : List Text) (x : Written) (vs : List Value) → let ns = insert_names atoms.new more in Held ns (ATerm x ∷ vs) stack.old → (tree_of t ≡ term_in ns (Node name.now (Cons x Nil))) × Held ns vs stack.new) }
    ensures table { Interned (name.now ∷ []) atoms.old atoms.new result }
{
    match atom(alloc, recent, atoms, name) {
        Ok(functor) => match compound1(alloc, functor, stack.take()) {
            Ok(term) => Ok(term),
            Err(_) => Err(InternErr::NoMemory),
        },
        Err(e) => Err(e),
    }
}

/// The compound of a name and the two terms on top.
fn infix(
    alloc: Global,
    stack: &mut Stack,
    recent: &mut Recent,
    atoms: &mut Atoms,
    name: &str,
) -> Result<Term, InternErr>
    ensures value { IfOk result (λ t. (more : List Text) (x y : Written) (vs : List Value) → let ns = insert_names atoms.new more in Held ns (ATerm y ∷ ATerm x ∷ vs) stack.old → (tree_of t ≡ term_in ns (Node name.now (Cons x (Cons y Nil)))) × Held ns vs stack.new) }
    ensures table { Interned (name.now ∷ []) atoms.old atoms.new result }
{
    match atom(alloc, recent, atoms, name) {
        Ok(functor) => {
            let right = stack.take();
            match compound2(alloc, functor, stack.take(), right) {
                Ok(term) => Ok(term),
                Err(_) => Err(InternErr::NoMemory),
            }
        }
        Err(e) => Err(e),
    }
}

/// The compound of a name and the items on top.
fn compound(
    alloc: Global,
    stack: &mut Stack,
    recent: &mut Recent,
    atoms: &mut Atoms,
    name: &str,
) -> Result<Term, InternErr>
    ensures value { IfOk result (λ t. (more : List Text) (ys : List Written) (x : Written) (vs : List Value) → let ns = insert_names atoms.new more in Held ns (ATerm x ∷ Gathered ys ∷ vs) stack.old → (tree_of t ≡ term_in ns (Node name.now (with_rest ys (Cons x Nil)))) × Held ns vs stack.new) }
    ensures table { Interned (name.now ∷ []) atoms.old atoms.new result }
{
    match atom(alloc, recent, atoms, name) {
        Ok(functor) => match stack.take_items(alloc) {
            Ok(items) => Ok(Term::Node(functor, items)),
            Err(_) => Err(InternErr::NoMemory),
        },
        Err(e) => Err(e),
    }
}

/// A list of the items on top, in front of a tail that was taken.
fn listed(
    alloc: Global,
    stack: &mut Stack,
    recent: &mut Recent,
    atoms: &mut Atoms,
    tail: Term,
) -> Result<Term, InternErr>
    ensures value { IfOk result (λ t. (more : List Text) (ys : List Written) (x u : Written) (vs : List Value) → let ns = insert_names atoms.new more in Held ns (ATerm x ∷ Gathered ys ∷ vs) stack.old → tree_of tail ≡ term_in ns u → (tree_of t ≡ term_in ns (cells ys (cell x u))) × Held ns vs stack.new) }
    ensures table { Interned (codes "." ∷ []) atoms.old atoms.new result }
{
    match atom(alloc, recent, atoms, ".") {
        Ok(dot) => match stack.take_list(alloc, dot, tail) {
            Ok(term) => Ok(term),
            Err(_) => Err(InternErr::NoMemory),
        },
        Err(e) => Err(e),
    }
}

/// The term that a step makes of those on top, which are taken. Parentheses leave theirs as it is, and items are taken
/// when all are there.
#[inline(never)]
fn term_after(
    alloc: Global,
    stack: &mut Stack,
    leaves: &[Leaf],
    recent: &mut Recent,
    atoms: &mut Atoms,
    step: Step,
) -> Result<Term, InternErr>
    ensures value { IfOk result (λ t. (more : List Text) (vs : List Value) (x : Written) → let ns = insert_names atoms.new more in Fits step vs → made (map leaf_of leaves.now) step vs ≡ ATerm x → Held ns vs stack.old → (tree_of t ≡ term_in ns x) × Held ns (left (map leaf_of leaves.now) step vs) stack.new) }
    ensures table { Interned (step_names (map leaf_of leaves.now) step) atoms.old atoms.new result }
{
    match step {
        Step::Operand(at) => leaf(alloc, leaves, recent, atoms, at),
        Step::Integer(value) => Ok(Term::Int(value)),
        Step::Prefix(at) => prefix(alloc, stack, recent, atoms, name_at(leaves, at)),
        Step::Infix(at) => infix(alloc, stack, recent, atoms, name_at(leaves, at)),
        Step::Compound(at) => compound(alloc, stack, recent, atoms, name_at(leaves, at)),
        Step::Empty => match stack.take_items(alloc) {
            Ok(_none) => match atom(alloc, recent, atoms, "[]") {
                Ok(name) => Ok(Term::Atom(name)),
                Err(e) => Err(e),
            },
            Err(e) => Err(e),
        },
        Step::List => match atom(alloc, recent, atoms, "[]") {
            Ok(name) => listed(alloc, stack, recent, atoms, Term::Atom(name)),
            Err(e) => Err(e),
        },
        Step::Tailed => {
            let tail = stack.take();
            listed(alloc, stack, recent, atoms, tail)
        }
        Step::Group | Step::Begin | Step::Item => Ok(stack.take()),
    }
}

/// Does a step, whose names go into the table. Most make a leaf.
#[inline(always)]
pub(crate) fn add(
    alloc: Global,
    stack: &mut Stack,
    leaves: &[Leaf],
    recent: &mut Recent,
    atoms: &mut Atoms,
    step: Step,
) -> Result<(), InternErr>
    ensures value { OnOk result ((more : List Text) (vs : List Value) → let ns = insert_names atoms.new more in Fits step vs → Held ns vs stack.old → Held ns (made (map leaf_of leaves.now) step vs ∷ left (map leaf_of leaves.now) step vs) stack.new) }
    ensures table { Interned (step_names (map leaf_of leaves.now) step) atoms.old atoms.new result }
{
    match step {
        Step::Begin => stack.begin(),
        Step::Item | Step::Group => Ok(()),
        Step::Integer(value) => stack.put(Term::Int(value)),
        Step::Operand(at) => match leaf(alloc, leaves, recent, atoms, at) {
            Ok(term) => stack.put(term),
            Err(e) => Err(e),
        },
        _ => match term_after(alloc, stack, leaves, recent, atoms, step) {
            Ok(term) => stack.put(term),
            Err(e) => Err(e),
        },
    }
}

/// The term that the steps of one make, on a stack whose terms are let go. After an error the table has some of its
/// names.
pub(crate) fn build(
    alloc: Global,
    leaves: &[Leaf],
    steps: &[Step],
    stack: &mut Stack,
    recent: &mut Recent,
    atoms: &mut Atoms,
) -> Result<Term, InternErr>
    ensures value { IfOk result (λ r. (t : Tree) → steps.now ≡ postfix t → tree_of r ≡ term_in atoms.new (meaning (map leaf_of leaves.now) t)) }
    ensures table { Interned (names (map leaf_of leaves.now) steps.now) atoms.old atoms.new result }
{
    stack.clear();
    for step in steps {
        match add(alloc, stack, leaves, recent, atoms, *step) {
            Ok(()) => {}
            Err(e) => return Err(e),
        }
    }
    Ok(stack.take())
}
