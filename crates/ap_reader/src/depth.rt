//! The depth of a term, by its steps.

ghost use Rattle.std.specs.Prelude.{◌≡◌, ℕ, ◌+◌, [], ◌∷◌, ◌++◌, List, IfOk, OnOk, map, bytes_eq, codes, nat_lt};
ghost use Rattle.ap_lexer.specs.Lexeme.{Text};
ghost use Rattle.ap_reader.specs.Written.{Written, Node, Cons, Nil, cell, leaf_of, meaning};
ghost use Rattle.ap_reader.specs.Evaluated.{Value, Gathered, top_term, top_items, below, made, left, with_rest, cells, stacked};
ghost use Rattle.ap_reader.specs.Depth.{depth, capped, highest, height_of};
ghost use Rattle.ap_reader.specs.Depth as spec;
ghost use Rattle.ap_reader.specs.Grammar.{Tree};
ghost use Rattle.ap_reader.specs.Step.{postfix};

use crate::leaf::{Leaf, name_at};
use crate::pass::Step;
use ap_term::NoMemory;
use std::alloc::Global;

/// How deep a term may be. The tails of lists add no depth.
pub const MAX_DEPTH: u64 = 1000;

/// The depth of a term, or the greatest 1 + depth of items; MAX_DEPTH + 1 where it is more.
#[derive(Clone, Copy)]
pub(crate) enum Height {
    Term(u64),
    NoItem,
    OneItem(u64),
    Items(u64),
}

fn above(depth: u64) -> u64
    ensures { (n : ℕ) → depth ≡ capped n → result ≡ capped (1 + n) }
{
    depth.saturating_add(1).min(MAX_DEPTH + 1)
}

fn most_of(items: Height) -> u64
    ensures { result ≡ spec.most_of items }
{
    match items {
        Height::Term(_) | Height::NoItem => 0,
        Height::OneItem(most) | Height::Items(most) => most,
    }
}

/// The greatest 1 + depth of items and a last one.
fn greatest(items: Height, last: u64) -> u64
    ensures { (ys : List Written) (x : Written) → items ≡ height_of (Gathered ys) → last ≡ capped (depth x) → result ≡ capped (highest (ys ++ x ∷ [])) }
{
    most_of(items).max(above(last))
}

/// The items with one more.
fn with_item(items: Height, last: u64) -> Height
    ensures { (ys : List Written) (x : Written) → items ≡ height_of (Gathered ys) → last ≡ capped (depth x) → result ≡ height_of (Gathered (ys ++ x ∷ [])) }
{
    match items {
        Height::Term(_) | Height::NoItem => Height::OneItem(greatest(items, last)),
        Height::OneItem(_) | Height::Items(_) => Height::Items(greatest(items, last)),
    }
}

/// The depth of a compound that has a cell's name.
fn cell_depth(items: Height, last: u64) -> u64
    ensures { (ys : List Written) (x : Written) → items ≡ height_of (Gathered ys) → last ≡ capped (depth x) → result ≡ capped (depth (Node (codes ".") (with_rest ys (Cons x Nil)))) }
{
    match items {
        Height::OneItem(first) => first.max(last),
        _ => greatest(items, last),
    }
}

/// The depth of a compound of items and a last one.
fn compound(items: Height, last: u64, name: &str) -> u64
    ensures { (ys : List Written) (x : Written) → items ≡ height_of (Gathered ys) → last ≡ capped (depth x) → result ≡ capped (depth (Node name.now (with_rest ys (Cons x Nil)))) }
{
    if name == "." {
        cell_depth(items, last)
    } else {
        greatest(items, last)
    }
}

/// The depth of a list of items and a last one, with a tail.
fn list(items: Height, last: u64, tail: u64) -> u64
    ensures { (ys : List Written) (x u : Written) → items ≡ height_of (Gathered ys) → last ≡ capped (depth x) → tail ≡ capped (depth u) → result ≡ capped (depth (cells ys (cell x u))) }
{
    greatest(items, last).max(tail)
}

fn term_depth(top: Height) -> u64
    ensures { result ≡ spec.term_depth top }
{
    match top {
        Height::Term(depth) => depth,
        _ => 0,
    }
}

fn items_height(top: Height) -> Height
    ensures { result ≡ spec.items_height top }
{
    match top {
        Height::Term(_) => Height::NoItem,
        _ => top,
    }
}

/// Takes a term off the stack.
fn pop_term(stack: &mut Vec<Height>) -> u64
    ensures { (vs : List Value) → stack.old.items ≡ stacked height_of vs → (result ≡ capped (depth (top_term vs))) × (stack.new.items ≡ stacked height_of (below vs)) }
{
    match stack.pop() {
        Some(top) => term_depth(top),
        None => 0,
    }
}

/// Takes items off the stack.
fn pop_items(stack: &mut Vec<Height>) -> Height
    ensures { (vs : List Value) → stack.old.items ≡ stacked height_of vs → (result ≡ height_of (Gathered (top_items vs))) × (stack.new.items ≡ stacked height_of (below vs)) }
{
    match stack.pop() {
        Some(top) => items_height(top),
        None => Height::NoItem,
    }
}

/// Takes off the stack what a step takes: the height of what it makes.
#[inline(always)]
fn height_after(stack: &mut Vec<Height>, leaves: &[Leaf], step: Step) -> Height
    ensures { (vs : List Value) → stack.old.items ≡ stacked height_of vs → (result ≡ height_of (made (map leaf_of leaves.now) step vs)) × (stack.new.items ≡ stacked height_of (left (map leaf_of leaves.now) step vs)) }
{
    match step {
        Step::Operand(_) => Height::Term(0),
        Step::Integer(_) => Height::Term(0),
        Step::Prefix(_) => Height::Term(above(pop_term(stack))),
        Step::Infix(at) => {
            let right = pop_term(stack);
            let left = Height::OneItem(above(pop_term(stack)));
            Height::Term(compound(left, right, name_at(leaves, at)))
        }
        Step::Group => Height::Term(pop_term(stack)),
        Step::Begin => Height::NoItem,
        Step::Item => {
            let last = pop_term(stack);
            with_item(pop_items(stack), last)
        }
        Step::Compound(at) => {
            let last = pop_term(stack);
            let items = pop_items(stack);
            Height::Term(compound(items, last, name_at(leaves, at)))
        }
        Step::Empty => {
            let _none = stack.pop();
            Height::Term(0)
        }
        Step::List => {
            let last = pop_term(stack);
            Height::Term(list(pop_items(stack), last, 0))
        }
        Step::Tailed => {
            let tail = pop_term(stack);
            let last = pop_term(stack);
            Height::Term(list(pop_items(stack), last, tail))
        }
    }
}

/// Whether a term is deeper than MAX_DEPTH. It has no more levels than steps.
pub(crate) fn is_too_deep(alloc: Global, leaves: &[Leaf], steps: &[Step]) -> Result<bool, NoMemory>
    ensures { IfOk result (λ b. (t : Tree) → steps.now ≡ postfix t → b ≡ nat_lt MAX_DEPTH (depth (meaning (map leaf_of leaves.now) t))) }
{
    if steps.len() as u64 <= MAX_DEPTH {
        return Ok(false);
    }
    let mut stack = Vec::new(alloc);
    let mut rest = steps;
    while let [step, after @ ..] = rest {
        let height = height_after(&mut stack, leaves, *step);
        stack.push(height)?;
        rest = after;
    }
    Ok(pop_term(&mut stack) > MAX_DEPTH)
}

/// The heights of what steps have made and that no later step has taken.
#[derive(Drop)]
pub(crate) struct Heights {
    stack: Vec<Height>,
}

impl Heights {
    pub(crate) fn new(alloc: Global) -> Heights
        ensures { result.stack.items ≡ [] }
    {
        Heights {
            stack: Vec::new(alloc),
        }
    }

    /// Does a step.
    pub(crate) fn add(&mut self, leaves: &[Leaf], step: Step) -> Result<(), NoMemory>
        ensures { OnOk result ((vs : List Value) → self.old.stack.items ≡ stacked height_of vs → self.new.stack.items ≡ stacked height_of (made (map leaf_of leaves.now) step vs ∷ left (map leaf_of leaves.now) step vs)) }
    {
        let height = height_after(&mut self.stack, leaves, step);
        self.stack.push(height)?;
        Ok(())
    }

    /// Whether the one term that is left is deeper than `MAX_DEPTH`.
    pub(crate) fn is_too_deep(self) -> bool
        ensures { (vs : List Value) → self.stack.items ≡ stacked height_of vs → result ≡ nat_lt MAX_DEPTH (depth (top_term vs)) }
    {
        let mut stack = self.stack;
        pop_term(&mut stack) > MAX_DEPTH
    }
}
