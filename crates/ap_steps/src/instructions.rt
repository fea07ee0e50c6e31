//! Instructions of a clause, each with the step that it takes.

ghost use Rattle.std.specs.Prelude.{◌≡◌, ℕ, ◌+◌, ◌^◌, ◌<◌, ◌≤◌, List, length, true, IfOk, OnOk};
ghost use Rattle.ap_term.specs.Tree.{Tree, atom, int};
ghost use Rattle.ap_cells.specs.declared.cells.Raw.{Raw};
ghost use Rattle.ap_cells.specs.Raws.{raw_of};
ghost use Rattle.ap_cells.specs.Store.{Keeps};
ghost use Rattle.ap_cells.specs.Trees.{Within};
ghost use Rattle.ap_match.specs.Fits.{cell_tree};
ghost use Rattle.ap_instr.specs.Step.{get_variable, get_value, get_constant, put_variable, put_value, put_constant};
ghost use Rattle.ap_needs.specs.Needs.{HasRegister};
ghost use Rattle.ap_steps.specs.Moves.{held, HoldPlaces, Taken, constant_of};

use crate::registers::{argument, place_in, put, read, register, write};
use ap_cells::{Cell, Cells};
use ap_instr::Slot;
use ap_match::{equate, match_atom, match_integer, push_new, push_variable};
use ap_term::{Atom, NoMemory};
use ap_unify::Work;

/// `get_variable V, A`: the register gets what the argument holds.
#[inline(always)]
pub fn get_variable(x: &mut [u32], y: &mut [u32], v: Slot, a: u32)
    requires { HasRegister v (length x.old) (length y.old) }
    ensures taken { (cs : List Raw) → Taken cs (held x.old) (held y.old) (get_variable v a) cs (held x.new) (held y.new) true }
    ensures places_x { (n : ℕ) → HoldPlaces n x.old → HoldPlaces n y.old → HoldPlaces n x.new }
    ensures places_y { (n : ℕ) → HoldPlaces n x.old → HoldPlaces n y.old → HoldPlaces n y.new }
    ensures x_len { length x.new ≡ length x.old }
    ensures y_len { length y.new ≡ length y.old }
{
    let place = argument(x, a);
    write(x, y, v, place);
}

/// `get_value V, A`: what both hold is made equal, if it can be.
#[inline(always)]
pub fn get_value(
    cells: &mut Cells,
    x: &[u32],
    y: &[u32],
    v: Slot,
    a: u32,
    work: &mut Work,
) -> Result<bool, NoMemory>
    requires x { HoldPlaces (length cells.old.cells) x.now }
    requires y { HoldPlaces (length cells.old.cells) y.now }
    ensures taken { IfOk result (λ b. Taken cells.old.cells (held x.now) (held y.now) (get_value v a) cells.new.cells (held x.now) (held y.now) b) }
    ensures len { length cells.new.cells ≡ length cells.old.cells }
    ensures spare { cells.new.spare ≡ cells.old.spare }
    ensures keeps { Keeps cells.old cells.new }
{
    let left = read(x, y, v);
    let right = place_in(x, a);
    let answer = equate(cells, left, right, work)?;
    Ok(answer)
}

/// `get_constant C, A`: the argument is made an atom, if it can be.
#[inline(always)]
pub fn get_constant(cells: &mut Cells, x: &[u32], y: &[u32], name: Atom, a: u32) -> bool
    requires x { HoldPlaces (length cells.old.cells) x.now }
    requires y { HoldPlaces (length cells.old.cells) y.now }
    ensures taken { Taken cells.old.cells (held x.now) (held y.now) (get_constant (atom name) a) cells.new.cells (held x.now) (held y.now) result }
    ensures len { length cells.new.cells ≡ length cells.old.cells }
    ensures spare { cells.new.spare ≡ cells.old.spare }
    ensures keeps { Keeps cells.old cells.new }
{
    match_atom(cells, place_in(x, a), name)
}

/// `get_integer I, A`: the argument is made an integer, if it can be.
#[inline(always)]
pub fn get_integer(cells: &mut Cells, x: &[u32], y: &[u32], value: i64, a: u32) -> bool
    requires x { HoldPlaces (length cells.old.cells) x.now }
    requires y { HoldPlaces (length cells.old.cells) y.now }
    ensures taken { Taken cells.old.cells (held x.now) (held y.now) (get_constant (int value) a) cells.new.cells (held x.now) (held y.now) result }
    ensures len { length cells.new.cells ≡ length cells.old.cells }
    ensures spare { cells.new.spare ≡ cells.old.spare }
    ensures keeps { Keeps cells.old cells.new }
{
    match_integer(cells, place_in(x, a), value)
}

/// `put_value V, A`: the argument gets what the register holds.
#[inline(always)]
pub fn put_value(x: &mut [u32], y: &[u32], v: Slot, a: u32)
    requires { a < length x.old }
    ensures taken { (cs : List Raw) → Taken cs (held x.old) (held y.now) (put_value v a) cs (held x.new) (held y.now) true }
    ensures places { (n : ℕ) → HoldPlaces n x.old → HoldPlaces n y.now → HoldPlaces n x.new }
    ensures len { length x.new ≡ length x.old }
{
    let place = register(x, y, v);
    put(x, a as usize, place);
}

/// `put_constant C, A` or `put_integer I, A`: the argument gets a new cell with the constant.
#[inline]
fn put_cell(cells: &mut Cells, x: &mut [u32], a: u32, cell: Cell)
    requires room { 0 < cells.old.spare }
    requires constant { (k : ℕ → Tree) → cell_tree k (length cells.old.cells) (raw_of cell) ≡ constant_of cell }
    requires within { Within (length cells.old.cells) (length cells.old.cells) (raw_of cell) }
    requires has { a < length x.old }
    ensures taken { (ys : List ℕ) → HoldPlaces (length cells.old.cells) x.old → HoldPlaces (length cells.old.cells) ys → Taken cells.old.cells (held x.old) (held ys) (put_constant (constant_of cell) a) cells.new.cells (held x.new) (held ys) true }
    ensures places { HoldPlaces (length cells.old.cells) x.old → HoldPlaces (length cells.new.cells) x.new }
    ensures len { length x.new ≡ length x.old }
    ensures longer { length cells.new.cells ≡ length cells.old.cells + 1 }
    ensures spare { cells.new.spare + 1 ≡ cells.old.spare }
    ensures keeps { Keeps cells.old cells.new }
{
    let places = cells.len();
    let place = push_new(cells, cell);
    prove!(place == places);
    put(x, a as usize, place as u32);
}

/// `put_constant C, A`: the argument gets a new cell with an atom.
#[inline]
pub fn put_constant(cells: &mut Cells, x: &mut [u32], name: Atom, a: u32)
    requires room { 0 < cells.old.spare }
    requires has { a < length x.old }
    ensures taken { (ys : List ℕ) → HoldPlaces (length cells.old.cells) x.old → HoldPlaces (length cells.old.cells) ys → Taken cells.old.cells (held x.old) (held ys) (put_constant (atom name) a) cells.new.cells (held x.new) (held ys) true }
    ensures places { HoldPlaces (length cells.old.cells) x.old → HoldPlaces (length cells.new.cells) x.new }
    ensures len { length x.new ≡ length x.old }
    ensures longer { length cells.new.cells ≡ length cells.old.cells + 1 }
    ensures spare { cells.new.spare + 1 ≡ cells.old.spare }
    ensures keeps { Keeps cells.old cells.new }
{
    put_cell(cells, x, a, Cell::Atom(name));
}

/// `put_integer I, A`: the argument gets a new cell with an integer.
#[inline(always)]
pub fn put_integer(cells: &mut Cells, x: &mut [u32], value: i64, a: u32)
    requires room { 0 < cells.old.spare }
    requires has { a < length x.old }
    ensures taken { (ys : List ℕ) → HoldPlaces (length cells.old.cells) x.old → HoldPlaces (length cells.old.cells) ys → Taken cells.old.cells (held x.old) (held ys) (put_constant (int value) a) cells.new.cells (held x.new) (held ys) true }
    ensures places { HoldPlaces (length cells.old.cells) x.old → HoldPlaces (length cells.new.cells) x.new }
    ensures len { length x.new ≡ length x.old }
    ensures longer { length cells.new.cells ≡ length cells.old.cells + 1 }
    ensures spare { cells.new.spare + 1 ≡ cells.old.spare }
    ensures keeps { Keeps cells.old cells.new }
{
    put_cell(cells, x, a, Cell::Int(value));
}

/// `put_variable V, A`: the register and the argument get a new unbound cell.
#[inline(always)]
pub fn put_variable(cells: &mut Cells, x: &mut [u32], y: &mut [u32], v: Slot, a: u32)
    requires room { 0 < cells.old.spare }
    requires has { HasRegister v (length x.old) (length y.old) }
    requires has_argument { a < length x.old }
    ensures taken { HoldPlaces (length cells.old.cells) x.old → HoldPlaces (length cells.old.cells) y.old → Taken cells.old.cells (held x.old) (held y.old) (put_variable v a) cells.new.cells (held x.new) (held y.new) true }
    ensures places_x { HoldPlaces (length cells.old.cells) x.old → HoldPlaces (length cells.new.cells) x.new }
    ensures places_y { HoldPlaces (length cells.old.cells) y.old → HoldPlaces (length cells.new.cells) y.new }
    ensures x_len { length x.new ≡ length x.old }
    ensures y_len { length y.new ≡ length y.old }
    ensures longer { length cells.new.cells ≡ length cells.old.cells + 1 }
    ensures spare { cells.new.spare + 1 ≡ cells.old.spare }
    ensures keeps { Keeps cells.old cells.new }
{
    let places = cells.len();
    let place = push_variable(cells);
    prove!(place == places);
    write(x, y, v, place as u32);
    put(x, a as usize, place as u32);
}
