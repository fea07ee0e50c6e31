//! Arguments of a structure that is built: each becomes the next cell.

ghost use Rattle.std.specs.Prelude.{◌≡◌, ℕ, ◌+◌, ◌<◌, ◌≤◌, List, length, drop, slice_get, slice_index_or, true, false};
ghost use Rattle.ap_term.specs.Tree.{Tree, atom, int};
ghost use Rattle.ap_term.specs.Vars.{occurs};
ghost use Rattle.ap_cells.specs.declared.cells.Raw.{Raw as Held};
ghost use Rattle.ap_cells.specs.Raws.{raw_of};
ghost use Rattle.ap_cells.specs.Store.{Keeps};
ghost use Rattle.ap_cells.specs.Trees.{Within, tree_at, trees};
ghost use Rattle.ap_instr.specs.Step.{unify_variable, unify_value, unify_constant, with_integer, step_of};
ghost use Rattle.ap_instr.specs.Runs.{read};
ghost use Rattle.ap_needs.specs.Needs.{HasRegister, HasTargets, is_control, is_value, has_value, AllHaveTargets};
ghost use Rattle.ap_match.specs.Fits.{cell_tree};
ghost use Rattle.ap_steps.specs.Moves.{held, HoldPlacesBut, constant_of};
ghost use Rattle.ap_steps.specs.Arguments.{Built, BuiltOr, BuiltOrStuck, are_built, holds_constant, KeepTrees, StandApart};
ghost use Rattle.ap_steps.specs.Ways.{NoneOfControl};

use crate::registers::{read, write};
use crate::tables::{instruction_in, integer_at};
use ap_cells::{Cell, Cells, Raw};
use ap_instr::{Code, Instr, Slot};
use ap_match::{push_atom, push_free, push_new, push_value};
use ap_term::Atom;

/// What arguments of a structure are built from.
#[derive(Clone, Copy)]
pub enum Parts {
    /// Constants and first occurrences of variables alone. No older variable stands there, so a structure of them needs no
    /// occurs check.
    Fresh,
    /// What a register holds, too, where that isn't a constant.
    Values,
    /// They can't be built, whatever comes behind them.
    Stuck,
}

/// `unify_variable V`: the register gets the argument's place, a new unbound cell.
#[inline(always)]
pub fn build_variable(cells: &mut Cells, x: &mut [u32], y: &mut [u32], v: Slot)
    requires room { 0 < cells.old.spare }
    requires has { HasRegister v (length x.old) (length y.old) }
    ensures built { Built cells.old.cells (held x.old) (held y.old) (unify_variable v) cells.new.cells (held x.new) (held y.new) }
    ensures stays { KeepTrees cells.old.cells cells.new.cells }
    ensures apart { StandApart cells.old.cells cells.new.cells }
    ensures holds_x { (whole : ℕ) → HoldPlacesBut whole (length cells.old.cells) x.old → HoldPlacesBut whole (length cells.new.cells) x.new }
    ensures holds_y { (whole : ℕ) → HoldPlacesBut whole (length cells.old.cells) y.old → HoldPlacesBut whole (length cells.new.cells) y.new }
    ensures x_len { length x.new ≡ length x.old }
    ensures y_len { length y.new ≡ length y.old }
    ensures spare { cells.new.spare + 1 ≡ cells.old.spare }
    ensures keeps { Keeps cells.old cells.new }
{
    let places = cells.len();
    let place = push_free(cells);
    prove!(place == places);
    write(x, y, v, place as u32);
}

/// Whether a place has the cell of a constant.
#[inline]
fn is_constant(cells: &Cells, place: usize) -> bool
    requires { place < length cells.now.cells }
    ensures apart { result ≡ true → (x : ℕ) → occurs x (tree_at (trees cells.now.cells) place) ≡ false }
    ensures other { result ≡ false → (d : Held) → holds_constant (slice_index_or cells.now.cells place d) ≡ false }
{
    match cells.raw_at(place) {
        Raw::Int(_) => true,
        Raw::Atom(_) => true,
        _ => false,
    }
}

/// `unify_value V`: the argument is the register's term. Stuck where the register holds `whole`, the place of the structure
/// itself, which is to come.
#[inline(always)]
pub fn build_value(cells: &mut Cells, x: &[u32], y: &[u32], v: Slot) -> Parts
    requires room { 0 < cells.old.spare }
    ensures built { (whole : ℕ) → ((read v (held x.now) (held y.now) ≡ whole → ⊥) → read v (held x.now) (held y.now) < length cells.old.cells) → BuiltOr whole cells.old.cells (held x.now) (held y.now) (unify_value v) cells.new.cells (held x.now) (held y.now) (are_built result) }
    ensures fresh { result ≡ Parts.Fresh → StandApart cells.old.cells cells.new.cells }
    ensures values { result ≡ Parts.Values → (d : Held) → holds_constant (slice_index_or cells.new.cells (length cells.old.cells) d) ≡ false }
    ensures stays { KeepTrees cells.old.cells cells.new.cells }
    ensures longer { length cells.old.cells ≤ length cells.new.cells }
    ensures spare { are_built result ≡ true → cells.new.spare + 1 ≡ cells.old.spare }
    ensures keeps { Keeps cells.old cells.new }
{
    let place = read(x, y, v);
    if place >= cells.len() {
        return Parts::Stuck;
    }
    let argument = push_value(cells, place);
    if is_constant(cells, argument) {
        Parts::Fresh
    } else {
        Parts::Values
    }
}

/// The argument is a constant.
#[inline(always)]
fn build_cell(cells: &mut Cells, cell: Cell)
    requires room { 0 < cells.old.spare }
    requires constant { (k : ℕ → Tree) → cell_tree k (length cells.old.cells) (raw_of cell) ≡ constant_of cell }
    requires within { Within (length cells.old.cells) (length cells.old.cells) (raw_of cell) }
    ensures built { (xs ys : List ℕ) → Built cells.old.cells (held xs) (held ys) (unify_constant (constant_of cell)) cells.new.cells (held xs) (held ys) }
    ensures stays { KeepTrees cells.old.cells cells.new.cells }
    ensures apart { StandApart cells.old.cells cells.new.cells }
    ensures longer { length cells.old.cells ≤ length cells.new.cells }
    ensures spare { cells.new.spare + 1 ≡ cells.old.spare }
    ensures keeps { Keeps cells.old cells.new }
{
    push_new(cells, cell);
}

/// `unify_constant C`: the argument is an atom.
#[inline(always)]
pub fn build_atom(cells: &mut Cells, name: Atom)
    requires room { 0 < cells.old.spare }
    ensures built { (xs ys : List ℕ) → Built cells.old.cells (held xs) (held ys) (unify_constant (atom name)) cells.new.cells (held xs) (held ys) }
    ensures stays { KeepTrees cells.old.cells cells.new.cells }
    ensures apart { StandApart cells.old.cells cells.new.cells }
    ensures longer { length cells.old.cells ≤ length cells.new.cells }
    ensures spare { cells.new.spare + 1 ≡ cells.old.spare }
    ensures keeps { Keeps cells.old cells.new }
{
    push_atom(cells, name);
}

/// `unify_integer I`: the argument is an integer.
#[inline(always)]
pub fn build_integer(cells: &mut Cells, value: i64)
    requires room { 0 < cells.old.spare }
    ensures built { (xs ys : List ℕ) → Built cells.old.cells (held xs) (held ys) (unify_constant (int value)) cells.new.cells (held xs) (held ys) }
    ensures stays { KeepTrees cells.old.cells cells.new.cells }
    ensures apart { StandApart cells.old.cells cells.new.cells }
    ensures longer { length cells.old.cells ≤ length cells.new.cells }
    ensures spare { cells.new.spare + 1 ≡ cells.old.spare }
    ensures keeps { Keeps cells.old cells.new }
{
    build_cell(cells, Cell::Int(value));
}

/// `unify_integer I`: the argument is an integer of the code's table. False where the table doesn't have it.
#[inline(never)]
fn build_listed(cells: &mut Cells, code: &Code, i: u32) -> bool
    requires room { 0 < cells.old.spare }
    ensures built { (whole : ℕ) (xs ys : List ℕ) → BuiltOr whole cells.old.cells (held xs) (held ys) (with_integer (slice_get code.now.integers i) unify_constant) cells.new.cells (held xs) (held ys) result }
    ensures stays { KeepTrees cells.old.cells cells.new.cells }
    ensures apart { result ≡ true → StandApart cells.old.cells cells.new.cells }
    ensures longer { length cells.old.cells ≤ length cells.new.cells }
    ensures spare { result ≡ true → cells.new.spare + 1 ≡ cells.old.spare }
    ensures keeps { Keeps cells.old cells.new }
{
    match integer_at(code, i) {
        Some(value) => {
            build_integer(cells, value);
            true
        }
        None => false,
    }
}

/// An argument, by its instruction. Stuck where the instruction is none of an argument's, or the argument would be the
/// structure itself, whose place is to be `whole`.
#[inline(always)]
pub fn build_argument(
    cells: &mut Cells,
    x: &mut [u32],
    y: &mut [u32],
    code: &Code,
    instr: &Instr,
) -> Parts
    requires room { 0 < cells.old.spare }
    requires has { HasTargets instr.now (length x.old) (length y.old) }
    ensures built { (whole : ℕ) → HoldPlacesBut whole (length cells.old.cells) x.old → HoldPlacesBut whole (length cells.old.cells) y.old → BuiltOr whole cells.old.cells (held x.old) (held y.old) (step_of code.now instr.now) cells.new.cells (held x.new) (held y.new) (are_built result) }
    ensures argument { are_built result ≡ true → is_control instr.now ≡ false }
    ensures fresh { result ≡ Parts.Fresh → StandApart cells.old.cells cells.new.cells }
    ensures value { result ≡ Parts.Values → is_value instr.now ≡ true }
    ensures stays { KeepTrees cells.old.cells cells.new.cells }
    ensures holds_x { (whole : ℕ) → HoldPlacesBut whole (length cells.old.cells) x.old → HoldPlacesBut whole (length cells.new.cells) x.new }
    ensures holds_y { (whole : ℕ) → HoldPlacesBut whole (length cells.old.cells) y.old → HoldPlacesBut whole (length cells.new.cells) y.new }
    ensures x_len { length x.new ≡ length x.old }
    ensures y_len { length y.new ≡ length y.old }
    ensures spare { are_built result ≡ true → cells.new.spare + 1 ≡ cells.old.spare }
    ensures keeps { Keeps cells.old cells.new }
{
    match *instr {
        Instr::UnifyVariable(v) => {
            build_variable(cells, x, y, v);
            Parts::Fresh
        }
        Instr::UnifyValue(v) => build_value(cells, x, y, v),
        Instr::UnifyConstant(name) => {
            build_atom(cells, name);
            Parts::Fresh
        }
        Instr::UnifyInteger(i) => {
            if build_listed(cells, code, i) {
                Parts::Fresh
            } else {
                Parts::Stuck
            }
        }
        _ => Parts::Stuck,
    }
}

/// The arguments of a structure, by the instructions from a place on, in a loop: each becomes the next cell, and the structure
/// is to have its own place behind them. It stands apart, so that what calls it stays small.
#[inline(never)]
fn build_many(
    cells: &mut Cells,
    x: &mut [u32],
    y: &mut [u32],
    code: &Code,
    at: usize,
    count: usize,
) -> Parts
    requires room { count ≤ cells.old.spare }
    requires inside { at ≤ length code.now.instructions }
    requires targets { AllHaveTargets (drop at code.now.instructions) (length x.old) (length y.old) }
    requires holds_x { HoldPlacesBut (length cells.old.cells + count) (length cells.old.cells) x.old }
    requires holds_y { HoldPlacesBut (length cells.old.cells + count) (length cells.old.cells) y.old }
    ensures built { BuiltOrStuck code.now at count cells.old.cells (held x.old) (held y.old) cells.new.cells (held x.new) (held y.new) (are_built result) }
    ensures passed { are_built result ≡ true → NoneOfControl code.now.instructions at count }
    ensures fresh { result ≡ Parts.Fresh → StandApart cells.old.cells cells.new.cells }
    ensures value { result ≡ Parts.Values → has_value code.now.instructions at count ≡ true }
    ensures stays { KeepTrees cells.old.cells cells.new.cells }
    ensures holds_x { (whole : ℕ) → HoldPlacesBut whole (length cells.old.cells) x.old → HoldPlacesBut whole (length cells.new.cells) x.new }
    ensures holds_y { (whole : ℕ) → HoldPlacesBut whole (length cells.old.cells) y.old → HoldPlacesBut whole (length cells.new.cells) y.new }
    ensures x_len { length x.new ≡ length x.old }
    ensures y_len { length y.new ≡ length y.old }
    ensures spare { are_built result ≡ true → cells.new.spare + count ≡ cells.old.spare }
    ensures keeps { Keeps cells.old cells.new }
{
    let instructions = code.instructions();
    let places = instructions.len();
    prove!(at <= places);
    let _places = cells.len();
    let end = places.min(at + count);
    let mut values = false;
    for instr in &instructions[at..end] {
        match build_argument(cells, x, y, code, instr) {
            Parts::Fresh => {}
            Parts::Values => values = true,
            Parts::Stuck => return Parts::Stuck,
        }
    }
    if end < at + count {
        return Parts::Stuck;
    }
    if values { Parts::Values } else { Parts::Fresh }
}

/// Whether arguments were built.
#[inline(always)]
fn were_built(parts: Parts) -> bool
    ensures { result ≡ are_built parts }
{
    match parts {
        Parts::Fresh => true,
        Parts::Values => true,
        Parts::Stuck => false,
    }
}

/// What two arguments are built from, the first of which was built.
#[inline(always)]
fn joined(left: Parts, right: Parts) -> Parts
    requires { are_built left ≡ true }
    ensures built { are_built result ≡ are_built right }
    ensures fresh { result ≡ Parts.Fresh → (left ≡ Parts.Fresh) × (right ≡ Parts.Fresh) }
    ensures values { result ≡ Parts.Values → left ≡ Parts.Fresh → right ≡ Parts.Values }
{
    match right {
        Parts::Fresh => left,
        Parts::Values => Parts::Values,
        Parts::Stuck => Parts::Stuck,
    }
}

/// The arguments of a structure, by the instructions from a place on: each becomes the next cell, and the structure is to
/// have its own place behind them. Two of them, as a list has, are built without a loop.
#[inline(always)]
pub fn build_arguments(
    cells: &mut Cells,
    x: &mut [u32],
    y: &mut [u32],
    code: &Code,
    at: usize,
    count: usize,
) -> Parts
    requires room { count ≤ cells.old.spare }
    requires inside { at ≤ length code.now.instructions }
    requires targets { AllHaveTargets (drop at code.now.instructions) (length x.old) (length y.old) }
    requires holds_x { HoldPlacesBut (length cells.old.cells + count) (length cells.old.cells) x.old }
    requires holds_y { HoldPlacesBut (length cells.old.cells + count) (length cells.old.cells) y.old }
    ensures built { BuiltOrStuck code.now at count cells.old.cells (held x.old) (held y.old) cells.new.cells (held x.new) (held y.new) (are_built result) }
    ensures passed { are_built result ≡ true → NoneOfControl code.now.instructions at count }
    ensures fresh { result ≡ Parts.Fresh → StandApart cells.old.cells cells.new.cells }
    ensures value { result ≡ Parts.Values → has_value code.now.instructions at count ≡ true }
    ensures stays { KeepTrees cells.old.cells cells.new.cells }
    ensures holds_x { (whole : ℕ) → HoldPlacesBut whole (length cells.old.cells) x.old → HoldPlacesBut whole (length cells.new.cells) x.new }
    ensures holds_y { (whole : ℕ) → HoldPlacesBut whole (length cells.old.cells) y.old → HoldPlacesBut whole (length cells.new.cells) y.new }
    ensures x_len { length x.new ≡ length x.old }
    ensures y_len { length y.new ≡ length y.old }
    ensures spare { are_built result ≡ true → cells.new.spare + count ≡ cells.old.spare }
    ensures keeps { Keeps cells.old cells.new }
{
    if count == 2 {
        let instructions = code.instructions();
        let _places = cells.len();
        if let Some(one) = instruction_in(instructions, at) {
            if let Some(two) = instruction_in(instructions, at + 1) {
                let left = build_argument(cells, x, y, code, one);
                if !were_built(left) {
                    return Parts::Stuck;
                }
                let right = build_argument(cells, x, y, code, two);
                return joined(left, right);
            }
        }
    }
    build_many(cells, x, y, code, at, count)
}

/// The arguments of a structure, as `build_arguments` builds them. It stands apart, so that what calls it stays small.
#[inline(never)]
pub fn build_apart(
    cells: &mut Cells,
    x: &mut [u32],
    y: &mut [u32],
    code: &Code,
    at: usize,
    count: usize,
) -> Parts
    requires room { count ≤ cells.old.spare }
    requires inside { at ≤ length code.now.instructions }
    requires targets { AllHaveTargets (drop at code.now.instructions) (length x.old) (length y.old) }
    requires holds_x { HoldPlacesBut (length cells.old.cells + count) (length cells.old.cells) x.old }
    requires holds_y { HoldPlacesBut (length cells.old.cells + count) (length cells.old.cells) y.old }
    ensures built { BuiltOrStuck code.now at count cells.old.cells (held x.old) (held y.old) cells.new.cells (held x.new) (held y.new) (are_built result) }
    ensures passed { are_built result ≡ true → NoneOfControl code.now.instructions at count }
    ensures fresh { result ≡ Parts.Fresh → StandApart cells.old.cells cells.new.cells }
    ensures value { result ≡ Parts.Values → has_value code.now.instructions at count ≡ true }
    ensures stays { KeepTrees cells.old.cells cells.new.cells }
    ensures holds_x { (whole : ℕ) → HoldPlacesBut whole (length cells.old.cells) x.old → HoldPlacesBut whole (length cells.new.cells) x.new }
    ensures holds_y { (whole : ℕ) → HoldPlacesBut whole (length cells.old.cells) y.old → HoldPlacesBut whole (length cells.new.cells) y.new }
    ensures x_len { length x.new ≡ length x.old }
    ensures y_len { length y.new ≡ length y.old }
    ensures spare { are_built result ≡ true → cells.new.spare + count ≡ cells.old.spare }
    ensures keeps { Keeps cells.old cells.new }
{
    build_arguments(cells, x, y, code, at, count)
}
