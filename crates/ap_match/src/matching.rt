//! Equations, constants and new cells.

ghost use Rattle.std.specs.Prelude.{◌≡◌, ℕ, ◌+◌, ◌<◌, ◌≤◌, [], ◌∷◌, ◌++◌, length, true, false, ◌==◌, IfOk};
ghost use Rattle.std.specs.Ordering.{int_eq};
ghost use Rattle.ap_term.specs.Tree.{Tree, var, int, atom, node};
ghost use Rattle.ap_term.specs.Vars.{occurs, occurs_all};
ghost use Rattle.ap_cells.specs.Raws.{raw_of};
ghost use Rattle.ap_cells.specs.declared.cells.Raw.TheVariants.{Free};
ghost use Rattle.ap_cells.specs.Trees.{tree_at, trees, span, step, Within};
ghost use Rattle.ap_cells.specs.Store.{Keeps};
ghost use Rattle.ap_instr.specs.Runs.{spread};
ghost use Rattle.ap_match.specs.Fits.{Fits, cell_tree, Becomes, Answered};

use ap_cells::{Cell, Cells, Top};
use ap_term::{Atom, NoMemory};
use ap_unify::{Work, unify};

/// A new place with this cell. It takes no memory.
#[inline(always)]
pub fn push_new(cells: &mut Cells, cell: Cell) -> usize
    requires room { 0 < cells.old.spare }
    requires within { Within (length cells.old.cells) (length cells.old.cells) (raw_of cell) }
    ensures place { result ≡ length cells.old.cells }
    ensures becomes { Becomes cells.old.cells cells.new.cells (λ k. Unit {0}) (λ k. k result ≡ cell_tree k result (raw_of cell)) }
    ensures fits { (k : ℕ → Tree) → Fits cells.old.cells k → k result ≡ cell_tree k result (raw_of cell) → Fits cells.new.cells k }
    ensures trees { trees cells.new.cells ≡ trees cells.old.cells ++ step (trees cells.old.cells) (length cells.old.cells) (raw_of cell) ∷ [] }
    ensures len { length cells.new.cells ≡ length cells.old.cells + 1 }
    ensures spare { cells.new.spare + 1 ≡ cells.old.spare }
    ensures keeps { Keeps cells.old cells.new }
{
    cells.is_store();
    cells.push(cell)
}

/// A new unbound place. It takes no memory.
#[inline(always)]
pub fn push_free(cells: &mut Cells) -> usize
    requires room { 0 < cells.old.spare }
    ensures place { result ≡ length cells.old.cells }
    ensures becomes { Becomes cells.old.cells cells.new.cells (λ k. Unit {0}) (λ k. k result ≡ cell_tree k result Free) }
    ensures fits { (k : ℕ → Tree) → Fits cells.old.cells k → k result ≡ cell_tree k result Free → Fits cells.new.cells k }
    ensures trees { trees cells.new.cells ≡ trees cells.old.cells ++ var (length cells.old.cells) ∷ [] }
    ensures len { length cells.new.cells ≡ length cells.old.cells + 1 }
    ensures spare { cells.new.spare + 1 ≡ cells.old.spare }
    ensures keeps { Keeps cells.old cells.new }
{
    cells.is_store();
    cells.push_free()
}

/// A new place with an atom. It takes no memory.
#[inline(always)]
pub fn push_atom(cells: &mut Cells, name: Atom) -> usize
    requires room { 0 < cells.old.spare }
    ensures place { result ≡ length cells.old.cells }
    ensures becomes { Becomes cells.old.cells cells.new.cells (λ k. Unit {0}) (λ k. k result ≡ atom name) }
    ensures fits { (k : ℕ → Tree) → Fits cells.old.cells k → k result ≡ atom name → Fits cells.new.cells k }
    ensures trees { trees cells.new.cells ≡ trees cells.old.cells ++ atom name ∷ [] }
    ensures len { length cells.new.cells ≡ length cells.old.cells + 1 }
    ensures spare { cells.new.spare + 1 ≡ cells.old.spare }
    ensures keeps { Keeps cells.old cells.new }
{
    cells.is_store();
    cells.push_atom(name)
}

/// A new unbound place, for a goal's variable. It takes no memory.
#[inline]
pub fn push_variable(cells: &mut Cells) -> usize
    requires room { 0 < cells.old.spare }
    ensures place { result ≡ length cells.old.cells }
    ensures becomes { Becomes cells.old.cells cells.new.cells (λ k. Unit {0}) (λ k. k result ≡ cell_tree k result Free) }
    ensures fits { (k : ℕ → Tree) → Fits cells.old.cells k → k result ≡ cell_tree k result Free → Fits cells.new.cells k }
    ensures trees { trees cells.new.cells ≡ trees cells.old.cells ++ var (length cells.old.cells) ∷ [] }
    ensures len { length cells.new.cells ≡ length cells.old.cells + 1 }
    ensures spare { cells.new.spare + 1 ≡ cells.old.spare }
    ensures keeps { Keeps cells.old cells.new }
{
    cells.is_store();
    cells.push_variable()
}

/// A new place with the term of another. It takes no memory.
#[inline]
pub fn push_value(cells: &mut Cells, to: usize) -> usize
    requires room { 0 < cells.old.spare }
    requires inside { to < length cells.old.cells }
    ensures place { result ≡ length cells.old.cells }
    ensures becomes { Becomes cells.old.cells cells.new.cells (λ k. Unit {0}) (λ k. k result ≡ k to) }
    ensures fits { (k : ℕ → Tree) → Fits cells.old.cells k → k result ≡ k to → Fits cells.new.cells k }
    ensures trees { trees cells.new.cells ≡ trees cells.old.cells ++ tree_at (trees cells.old.cells) to ∷ [] }
    ensures len { length cells.new.cells ≡ length cells.old.cells + 1 }
    ensures spare { cells.new.spare + 1 ≡ cells.old.spare }
    ensures keeps { Keeps cells.old cells.new }
{
    cells.push_same(to)
}

/// Binds an unbound place to the term of a cell, in which it doesn't stand.
#[inline(always)]
fn bind_term(cells: &mut Cells, x: usize, cell: Cell)
    requires inside { x < length cells.old.cells }
    requires within { Within (length cells.old.cells) x (raw_of cell) }
    requires bound { raw_of cell ≡ Free → ⊥ }
    requires unbound { tree_at (trees cells.old.cells) x ≡ var x }
    requires absent { occurs x (step (trees cells.old.cells) x (raw_of cell)) ≡ false }
    ensures becomes { Becomes cells.old.cells cells.new.cells (λ k. k x ≡ cell_tree k x (raw_of cell)) (λ k. Unit {0}) }
    ensures len { length cells.new.cells ≡ length cells.old.cells }
    ensures spare { cells.new.spare ≡ cells.old.spare }
    ensures keeps { Keeps cells.old cells.new }
{
    cells.bind_to(x, cell);
}

#[inline]
fn same_atom(a: Atom, b: Atom) -> bool
    ensures { result ≡ (a == b) }
{
    a == b
}

#[inline]
fn same_integer(a: i64, b: i64) -> bool
    ensures { result ≡ int_eq a b }
{
    a == b
}

/// Makes a place's term an atom, if it can be. It takes no memory.
pub fn match_atom(cells: &mut Cells, place: usize, name: Atom) -> bool
    requires inside { place < length cells.old.cells }
    ensures answered { Answered cells.old.cells cells.new.cells (λ k. k place ≡ atom name) result }
    ensures len { length cells.new.cells ≡ length cells.old.cells }
    ensures spare { cells.new.spare ≡ cells.old.spare }
    ensures keeps { Keeps cells.old cells.new }
{
    match cells.top(place) {
        Top::Free(x) => {
            bind_term(cells, x, Cell::Atom(name));
            true
        }
        Top::Atom(found) => same_atom(found, name),
        Top::Int(_) => false,
        Top::Node(_, _, _) => false,
    }
}

/// Makes a place's term an integer, if it can be. It takes no memory.
pub fn match_integer(cells: &mut Cells, place: usize, value: i64) -> bool
    requires inside { place < length cells.old.cells }
    ensures answered { Answered cells.old.cells cells.new.cells (λ k. k place ≡ int value) result }
    ensures len { length cells.new.cells ≡ length cells.old.cells }
    ensures spare { cells.new.spare ≡ cells.old.spare }
    ensures keeps { Keeps cells.old cells.new }
{
    match cells.top(place) {
        Top::Free(x) => {
            bind_term(cells, x, Cell::Int(value));
            true
        }
        Top::Int(found) => same_integer(found, value),
        Top::Atom(_) => false,
        Top::Node(_, _, _) => false,
    }
}

/// Whether a place's term is a constant, a variable other than x, or was settled before x came.
fn is_apart(cells: &Cells, x: usize, place: usize) -> bool
    requires { place < length cells.now.cells }
    ensures { result ≡ true → occurs x (tree_at (trees cells.now.cells) place) ≡ false }
{
    match cells.top(place) {
        Top::Free(variable) => variable != x,
        Top::Int(_) => true,
        Top::Atom(_) => true,
        Top::Node(_, first, count) => cells.are_settled_before(x, first, count),
    }
}

/// Whether each of these places' terms is a constant, a variable other than x, or was settled before x came.
fn are_apart(cells: &Cells, x: usize, first: usize, count: u32) -> bool
    requires { first + count ≤ length cells.now.cells }
    ensures { result ≡ true → occurs_all x (span (trees cells.now.cells) first count) ≡ false }
{
    let _places = cells.len();
    for i in 0..count {
        if !is_apart(cells, x, first + i as usize) {
            return false;
        }
    }
    true
}

/// Binds an unbound place to the compound term of a name and the cells from `first` on, in which it doesn't stand. It takes
/// no memory.
#[inline]
pub fn bind_structure(cells: &mut Cells, x: usize, name: Atom, first: usize, count: u32)
    requires inside { x < length cells.old.cells }
    requires args { first + count ≤ length cells.old.cells }
    requires unbound { tree_at (trees cells.old.cells) x ≡ var x }
    requires absent { occurs_all x (span (trees cells.old.cells) first count) ≡ false }
    ensures becomes { Becomes cells.old.cells cells.new.cells (λ k. k x ≡ node name (spread k first count)) (λ k. Unit {0}) }
    ensures len { length cells.new.cells ≡ length cells.old.cells }
    ensures spare { cells.new.spare ≡ cells.old.spare }
    ensures keeps { Keeps cells.old cells.new }
{
    bind_term(cells, x, Cell::Node(name, first, count));
}

/// Makes two unbound places one variable: of two the higher one is bound.
#[inline]
fn join(cells: &mut Cells, x: usize, y: usize)
    requires inside { (x < length cells.old.cells) × (y < length cells.old.cells) }
    requires x_unbound { tree_at (trees cells.old.cells) x ≡ var x }
    requires y_unbound { tree_at (trees cells.old.cells) y ≡ var y }
    ensures becomes { Becomes cells.old.cells cells.new.cells (λ k. k x ≡ k y) (λ k. Unit {0}) }
    ensures len { length cells.new.cells ≡ length cells.old.cells }
    ensures spare { cells.new.spare ≡ cells.old.spare }
    ensures keeps { Keeps cells.old cells.new }
{
    if x < y {
        bind_term(cells, y, Cell::Same(x));
    } else if y < x {
        bind_term(cells, x, Cell::Same(y));
    }
}

/// Whether x stands in none of these places' terms, as far as that is told without a walk: each was settled before x came, or is a
/// constant or another variable.
#[inline]
fn are_free_of(cells: &Cells, x: usize, first: usize, count: u32) -> bool
    requires { first + count ≤ length cells.now.cells }
    ensures { result ≡ true → occurs_all x (span (trees cells.now.cells) first count) ≡ false }
{
    cells.are_settled_before(x, first, count) || are_apart(cells, x, first, count)
}

/// Makes the term of an unbound place that of `whole`, which is compound, if it can be: if it doesn't stand there.
fn equate_compound(
    cells: &mut Cells,
    x: usize,
    name: Atom,
    first: usize,
    count: u32,
    whole: usize,
    work: &mut Work,
) -> Result<bool, NoMemory>
    requires inside { (x < length cells.old.cells) × (whole < length cells.old.cells) }
    requires args { first + count ≤ length cells.old.cells }
    requires unbound { tree_at (trees cells.old.cells) x ≡ var x }
    requires compound { tree_at (trees cells.old.cells) whole ≡ node name (span (trees cells.old.cells) first count) }
    ensures answered { IfOk result (λ r. Answered cells.old.cells cells.new.cells (λ k. k x ≡ k whole) r) }
    ensures len { length cells.new.cells ≡ length cells.old.cells }
    ensures spare { cells.new.spare ≡ cells.old.spare }
    ensures keeps { Keeps cells.old cells.new }
{
    if are_free_of(cells, x, first, count) {
        bind_structure(cells, x, name, first, count);
        return Ok(true);
    }
    let answer = unify(cells, x, whole, work)?;
    Ok(answer)
}

/// Makes the term of an unbound place that of another one, if it can be.
#[inline]
fn equate_unbound(cells: &mut Cells, x: usize, to: usize, work: &mut Work) -> Result<bool, NoMemory>
    requires inside { (x < length cells.old.cells) × (to < length cells.old.cells) }
    requires unbound { tree_at (trees cells.old.cells) x ≡ var x }
    ensures answered { IfOk result (λ r. Answered cells.old.cells cells.new.cells (λ k. k x ≡ k to) r) }
    ensures len { length cells.new.cells ≡ length cells.old.cells }
    ensures spare { cells.new.spare ≡ cells.old.spare }
    ensures keeps { Keeps cells.old cells.new }
{
    match cells.top(to) {
        Top::Free(y) => {
            join(cells, x, y);
            Ok(true)
        }
        Top::Int(value) => {
            bind_term(cells, x, Cell::Int(value));
            Ok(true)
        }
        Top::Atom(constant) => {
            bind_term(cells, x, Cell::Atom(constant));
            Ok(true)
        }
        Top::Node(name, first, count) => {
            let answer = equate_compound(cells, x, name, first, count, to, work)?;
            Ok(answer)
        }
    }
}

/// Makes the terms of two places equal, if they can be, where the first one's is compound.
#[inline]
fn equate_with_compound(
    cells: &mut Cells,
    a: usize,
    b: usize,
    work: &mut Work,
) -> Result<bool, NoMemory>
    requires { (a < length cells.old.cells) × (b < length cells.old.cells) }
    ensures answered { IfOk result (λ r. Answered cells.old.cells cells.new.cells (λ k. k a ≡ k b) r) }
    ensures len { length cells.new.cells ≡ length cells.old.cells }
    ensures spare { cells.new.spare ≡ cells.old.spare }
    ensures keeps { Keeps cells.old cells.new }
{
    if let Top::Free(y) = cells.top(b) {
        let bound = equate_unbound(cells, y, a, work)?;
        return Ok(bound);
    }
    let answer = unify(cells, a, b, work)?;
    Ok(answer)
}

/// Makes the terms of two places equal, if they can be. After false, or want of memory, some bindings may be made;
/// `undo_to` takes them back.
pub fn equate(cells: &mut Cells, a: usize, b: usize, work: &mut Work) -> Result<bool, NoMemory>
    requires { (a < length cells.old.cells) × (b < length cells.old.cells) }
    ensures answered { IfOk result (λ r. Answered cells.old.cells cells.new.cells (λ k. k a ≡ k b) r) }
    ensures len { length cells.new.cells ≡ length cells.old.cells }
    ensures spare { cells.new.spare ≡ cells.old.spare }
    ensures keeps { Keeps cells.old cells.new }
{
    match cells.top(a) {
        Top::Free(x) => {
            let bound = equate_unbound(cells, x, b, work)?;
            Ok(bound)
        }
        Top::Int(value) => Ok(match_integer(cells, b, value)),
        Top::Atom(name) => Ok(match_atom(cells, b, name)),
        Top::Node(_, _, _) => {
            let answer = equate_with_compound(cells, a, b, work)?;
            Ok(answer)
        }
    }
}

/// Makes the term of an unbound place the compound term of a name and the cells from `first` on, if it can be: if it doesn't
/// stand there. After false, or want of memory, some bindings may be made; `undo_to` takes them back.
pub fn match_built(
    cells: &mut Cells,
    x: usize,
    name: Atom,
    first: usize,
    count: u32,
    work: &mut Work,
) -> Result<bool, NoMemory>
    requires room { 0 < cells.old.spare }
    requires inside { x < length cells.old.cells }
    requires args { first + count ≤ length cells.old.cells }
    requires unbound { tree_at (trees cells.old.cells) x ≡ var x }
    ensures answered { IfOk result (λ r. Answered cells.old.cells cells.new.cells (λ k. k x ≡ node name (spread k first count)) r) }
    ensures longer { length cells.old.cells ≤ length cells.new.cells }
    ensures spare { cells.old.spare ≤ cells.new.spare + 1 }
    ensures keeps { Keeps cells.old cells.new }
{
    if are_apart(cells, x, first, count) {
        bind_structure(cells, x, name, first, count);
        return Ok(true);
    }
    let whole = push_new(cells, Cell::Node(name, first, count));
    let answer = unify(cells, x, whole, work)?;
    Ok(answer)
}
