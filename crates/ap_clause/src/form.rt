//! The form of a clause: which written terms can be clauses and queries, by their steps.

ghost use Rattle.std.specs.Prelude.{◌≡◌, ℕ, pos, [], ◌∷◌, ◌++◌, List, IfOk, IfSome, IsTrue, map, slice_get};
ghost use Rattle.ap_reader.specs.Written.{Written, Writtens, Node, Cons, Nil, Paren, cell, leaf_of, leaf_at, meaning};
ghost use Rattle.ap_reader.specs.Written as written;
ghost use Rattle.ap_reader.specs.Evaluated.{Value, Gathered, top_term, top_items, below, made, left, with_rest, cells, stacked};
ghost use Rattle.ap_reader.specs.Grammar.{Tree};
ghost use Rattle.ap_reader.specs.Step.{postfix};
ghost use Rattle.ap_clause.specs.Form as spec;
ghost use Rattle.ap_clause.specs.Shape as shape;
ghost use Rattle.ap_clause.specs.Shape.{form_of, shape_of};

use ap_lexer::push;
use ap_reader::{Leaf, Step};
use ap_term::NoMemory;
use std::alloc::Global;

/// What a name of two arguments makes of them in a body.
#[derive(Clone, Copy)]
pub enum Connective {
    And,
    Or,
    Par,
    If,
    Other,
}

/// What a term can be.
#[derive(Clone, Copy)]
pub struct Form {
    pub variable: bool,
    pub checks: bool,
    pub condition: bool,
    pub conditional: bool,
    pub body: bool,
    pub head: bool,
    pub clause: bool,
    pub query: bool,
}

/// The form of a term, or of items, of which two or more are alike.
#[derive(Clone, Copy)]
pub enum Shape {
    Term(Form),
    NoItem,
    OneItem(Form),
    Items,
}

fn connective_named(name: &str) -> Connective
    ensures { result ≡ spec.connective name.now }
{
    match name.as_bytes() {
        [b','] => Connective::And,
        [b';'] => Connective::Or,
        [b'&'] => Connective::Par,
        [b'=', b'>'] => Connective::If,
        _ => Connective::Other,
    }
}

/// The form of a goal that no rule singles out.
fn plain() -> Form
    ensures { result ≡ shape.plain }
{
    Form {
        variable: false,
        checks: false,
        condition: false,
        conditional: false,
        body: true,
        head: true,
        clause: true,
        query: true,
    }
}

fn variable() -> Form
    ensures { result ≡ form_of (written.Variable 0) }
{
    Form {
        variable: true,
        head: false,
        clause: false,
        ..plain()
    }
}

fn integer() -> Form
    ensures { result ≡ form_of (written.Integer (pos 0)) }
{
    Form {
        variable: false,
        checks: false,
        condition: false,
        conditional: false,
        body: false,
        head: false,
        clause: false,
        query: false,
    }
}

fn atom(name: &str) -> Form
    ensures { result ≡ form_of (written.Atom name.now) }
{
    Form {
        condition: name == "true",
        ..plain()
    }
}

/// A compound of one argument.
fn one(name: &str, a: Form) -> Form
    ensures { (x : Written) → a ≡ form_of x → result ≡ form_of (Node name.now (Cons x Nil)) }
{
    let checks = name == "ground" && a.variable;
    Form {
        checks,
        condition: checks,
        query: name != "?-" || a.body,
        ..plain()
    }
}

fn are_checks(name: &str, connective: Connective, a: Form, b: Form) -> bool
    ensures { (x y : Written) → a ≡ form_of x → b ≡ form_of y → connective ≡ spec.connective name.now → result ≡ spec.are_checks (Node name.now (Cons x (Cons y Nil))) }
{
    match connective {
        Connective::And => a.checks && b.checks,
        _ => name == "indep" && a.variable && b.variable,
    }
}

fn is_body(connective: Connective, a: Form, b: Form) -> bool
    ensures { (f : List ℕ) (x y : Written) → a ≡ form_of x → b ≡ form_of y → connective ≡ spec.connective f → result ≡ spec.is_body (Node f (Cons x (Cons y Nil))) }
{
    match connective {
        Connective::And | Connective::Or => a.body && b.body,
        Connective::Par => !a.conditional && a.body && !b.conditional && b.body,
        Connective::If => a.condition && b.body,
        Connective::Other => true,
    }
}

/// A compound of two arguments.
fn two(name: &str, a: Form, b: Form) -> Form
    ensures { (x y : Written) → a ≡ form_of x → b ≡ form_of y → result ≡ form_of (Node name.now (Cons x (Cons y Nil))) }
{
    let connective = connective_named(name);
    let checks = are_checks(name, connective, a, b);
    let body = is_body(connective, a, b);
    let head = matches!(connective, Connective::Other);
    let clause = if name == ":-" { a.head && b.body } else { head };
    Form {
        variable: false,
        checks,
        condition: checks,
        conditional: matches!(connective, Connective::If),
        body,
        head,
        clause,
        query: body,
    }
}

/// A compound of items and a last one.
fn compound(items: Shape, last: Form, name: &str) -> Form
    ensures { (ys : List Written) (x : Written) → items ≡ shape_of (Gathered ys) → last ≡ form_of x → result ≡ form_of (Node name.now (with_rest ys (Cons x Nil))) }
{
    match items {
        Shape::Term(_) | Shape::NoItem => one(name, last),
        Shape::OneItem(first) => two(name, first, last),
        Shape::Items => plain(),
    }
}

/// A list of items and a last one, with a tail.
fn list() -> Form
    ensures { (ys : List Written) (x u : Written) → result ≡ form_of (cells ys (cell x u)) }
{
    plain()
}

fn name_at<'a>(leaves: &'a [Leaf], at: usize) -> &'a str
    ensures { result.now ≡ written.name_at (map leaf_of leaves.now) at }
{
    match leaves.get(at) {
        Some(Leaf::Name(name)) => name,
        Some(Leaf::Unquoted(name)) => name.as_str(),
        _ => "",
    }
}

fn leaf(leaves: &[Leaf], at: usize) -> Form
    ensures { result ≡ form_of (leaf_at (slice_get (map leaf_of leaves.now) at)) }
{
    match leaves.get(at) {
        Some(Leaf::Variable(_)) => variable(),
        Some(Leaf::Name(name)) => atom(name),
        Some(Leaf::Unquoted(name)) => atom(name.as_str()),
        _ => atom(""),
    }
}

fn in_parentheses(inside: Form) -> Form
    ensures { (x : Written) → inside ≡ form_of x → result ≡ form_of (Paren x) }
{
    Form {
        conditional: false,
        ..inside
    }
}

fn term_form(top: Shape) -> Form
    ensures { result ≡ shape.term_form top }
{
    match top {
        Shape::Term(form) => form,
        _ => variable(),
    }
}

fn items_shape(top: Shape) -> Shape
    ensures { result ≡ shape.items_shape top }
{
    match top {
        Shape::Term(_) => Shape::NoItem,
        _ => top,
    }
}

/// Takes a term off the stack.
pub(crate) fn pop_term(stack: &mut Vec<Shape>) -> Form
    ensures { (vs : List Value) → stack.old.items ≡ stacked shape_of vs → (result ≡ form_of (top_term vs)) × (stack.new.items ≡ stacked shape_of (below vs)) }
{
    match stack.pop() {
        Some(top) => term_form(top),
        None => variable(),
    }
}

/// Takes items off the stack.
fn pop_items(stack: &mut Vec<Shape>) -> Shape
    ensures { (vs : List Value) → stack.old.items ≡ stacked shape_of vs → (result ≡ shape_of (Gathered (top_items vs))) × (stack.new.items ≡ stacked shape_of (below vs)) }
{
    match stack.pop() {
        Some(top) => items_shape(top),
        None => Shape::NoItem,
    }
}

/// The items with one more.
fn with_item(items: Shape, last: Form) -> Shape
    ensures { (ys : List Written) (x : Written) → items ≡ shape_of (Gathered ys) → last ≡ form_of x → result ≡ shape_of (Gathered (ys ++ x ∷ [])) }
{
    match items {
        Shape::Term(_) | Shape::NoItem => Shape::OneItem(last),
        Shape::OneItem(_) | Shape::Items => Shape::Items,
    }
}

/// Takes off the stack what a step takes: the shape of what it makes.
#[inline(always)]
pub(crate) fn shape_after(stack: &mut Vec<Shape>, leaves: &[Leaf], step: Step) -> Shape
    ensures { (vs : List Value) → stack.old.items ≡ stacked shape_of vs → (result ≡ shape_of (made (map leaf_of leaves.now) step vs)) × (stack.new.items ≡ stacked shape_of (left (map leaf_of leaves.now) step vs)) }
{
    match step {
        Step::Operand(at) => Shape::Term(leaf(leaves, at)),
        Step::Integer(_) => Shape::Term(integer()),
        Step::Prefix(at) => Shape::Term(one(name_at(leaves, at), pop_term(stack))),
        Step::Infix(at) => {
            let right = pop_term(stack);
            let left = pop_term(stack);
            Shape::Term(two(name_at(leaves, at), left, right))
        }
        Step::Group => Shape::Term(in_parentheses(pop_term(stack))),
        Step::Begin => Shape::NoItem,
        Step::Item => {
            let last = pop_term(stack);
            with_item(pop_items(stack), last)
        }
        Step::Compound(at) => {
            let last = pop_term(stack);
            let items = pop_items(stack);
            Shape::Term(compound(items, last, name_at(leaves, at)))
        }
        Step::Empty => {
            let _none = stack.pop();
            Shape::Term(atom("[]"))
        }
        Step::List => {
            let _last = pop_term(stack);
            let _items = pop_items(stack);
            Shape::Term(list())
        }
        Step::Tailed => {
            let _tail = pop_term(stack);
            let _last = pop_term(stack);
            let _items = pop_items(stack);
            Shape::Term(list())
        }
    }
}

/// Whether a compound has the form of a plain goal, whatever its arguments are: no rule singles its name out.
fn is_plain_name(name: &str) -> bool
    ensures { result ≡ shape.is_plain_name name.now }
{
    if !matches!(connective_named(name), Connective::Other) {
        return false;
    }
    match name.as_bytes() {
        [b':' | b'?', b'-'] => false,
        _ => name != "ground" && name != "indep",
    }
}

/// The name of a compound that isn't written as an operator; most facts are one.
fn compound_name<'l>(leaves: &'l [Leaf], steps: &[Step]) -> Option<&'l str>
    ensures { IfSome result (λ name. (t : Tree) → steps.now ≡ postfix t → (ts : Writtens) × (meaning (map leaf_of leaves.now) t ≡ Node name.now ts)) }
{
    match steps.split_last() {
        Some((Step::Compound(at), _)) => Some(name_at(leaves, *at)),
        _ => None,
    }
}

/// Whether a term is a compound of a plain name.
fn is_plain(leaves: &[Leaf], steps: &[Step]) -> bool
    ensures { IsTrue result → (t : Tree) → steps.now ≡ postfix t → shape.plain ≡ form_of (meaning (map leaf_of leaves.now) t) }
{
    match compound_name(leaves, steps) {
        Some(name) => is_plain_name(name),
        None => false,
    }
}

/// How many shapes room is made for at once, at most.
const FIRST_ROOM: usize = 64;

/// The form of a term, by its steps.
pub(crate) fn form_by(alloc: Global, leaves: &[Leaf], steps: &[Step]) -> Result<Form, NoMemory>
    ensures { IfOk result (λ f. (t : Tree) → steps.now ≡ postfix t → f ≡ form_of (meaning (map leaf_of leaves.now) t)) }
{
    if is_plain(leaves, steps) {
        return Ok(plain());
    }
    let mut stack = Vec::with_capacity(alloc, FIRST_ROOM.min(steps.len()))?;
    let mut rest = steps;
    while let [step, after @ ..] = rest {
        let shape = shape_after(&mut stack, leaves, *step);
        push(&mut stack, shape)?;
        rest = after;
    }
    Ok(pop_term(&mut stack))
}
