//! The instructions of a clause.

ghost use Rattle.std.specs.Prelude.{◌≡◌, ℕ, ◌+◌, ◌<◌, ◌≤◌, List, length, drop, slice_get, false, true, IfOk, OnErr};
ghost use Rattle.ap_cells.specs.Store.{Keeps};
ghost use Rattle.ap_instr.specs.Step.{get_constant, put_constant, with_integer};
ghost use Rattle.ap_needs.specs.Needs.{HasTargets, is_transfer, cells_of, wants_memory, AllHaveTargets};
ghost use Rattle.ap_steps.specs.Moves.{held, HoldPlaces, Taken};
ghost use Rattle.ap_steps.specs.Ways.{came_to, CameTo};

use crate::instructions::{
    get_constant, get_integer, get_value, get_variable, put_constant, put_integer, put_value,
    put_variable,
};
use crate::structures::{get_structure, put_structure};
use crate::tables::integer_at;
use ap_cells::Cells;
use ap_instr::{Code, Instr};
use ap_term::NoMemory;
use ap_unify::Work;

/// What an instruction came to.
#[derive(Clone, Copy)]
pub enum Outcome {
    /// It was taken, with so many arguments behind it.
    On(usize),
    /// It leads elsewhere than to the next one, and nothing was done.
    Transfer,
    /// It can't be taken, whatever comes behind it.
    Stuck,
}

/// What became of an instruction that was taken with so many arguments, or can't be.
#[inline(always)]
fn came_to(taken: bool, arguments: usize) -> Outcome
    ensures { result ≡ came_to taken arguments }
{
    if taken {
        Outcome::On(arguments)
    } else {
        Outcome::Stuck
    }
}

/// `get_integer I, A` with an integer of the code's table. False where the table doesn't have it, too.
#[inline(always)]
fn get_listed(cells: &mut Cells, x: &[u32], y: &[u32], code: &Code, i: u32, a: u32) -> bool
    requires x { HoldPlaces (length cells.old.cells) x.now }
    requires y { HoldPlaces (length cells.old.cells) y.now }
    ensures taken { Taken cells.old.cells (held x.now) (held y.now) (with_integer (slice_get code.now.integers i) (λ t. get_constant t a)) cells.new.cells (held x.now) (held y.now) result }
    ensures len { length cells.new.cells ≡ length cells.old.cells }
    ensures spare { cells.new.spare ≡ cells.old.spare }
    ensures keeps { Keeps cells.old cells.new }
{
    match integer_at(code, i) {
        Some(value) => get_integer(cells, x, y, value, a),
        None => false,
    }
}

/// `put_integer I, A` with an integer of the code's table. False where the table doesn't have it.
#[inline(never)]
fn put_listed(cells: &mut Cells, x: &mut [u32], code: &Code, i: u32, a: u32) -> bool
    requires room { 0 < cells.old.spare }
    requires has { a < length x.old }
    ensures taken { (ys : List ℕ) → HoldPlaces (length cells.old.cells) x.old → HoldPlaces (length cells.old.cells) ys → Taken cells.old.cells (held x.old) (held ys) (with_integer (slice_get code.now.integers i) (λ t. put_constant t a)) cells.new.cells (held x.new) (held ys) result }
    ensures places { HoldPlaces (length cells.old.cells) x.old → HoldPlaces (length cells.new.cells) x.new }
    ensures len { length x.new ≡ length x.old }
    ensures longer { length cells.old.cells ≤ length cells.new.cells }
    ensures spare { cells.old.spare ≤ cells.new.spare + 1 }
    ensures keeps { Keeps cells.old cells.new }
{
    match integer_at(code, i) {
        Some(value) => {
            put_integer(cells, x, value, a);
            true
        }
        None => false,
    }
}

/// Takes an instruction, whose arguments, if it has any, stand from a place on. `x` are the argument and temporary registers,
/// `y` the permanent variables of the environment; each holds a place. Where the instruction can't be taken, and after want of
/// memory, the registers hold anything, and `undo_to` leads the cells back.
#[inline(always)]
pub fn step(
    cells: &mut Cells,
    x: &mut [u32],
    y: &mut [u32],
    code: &Code,
    at: usize,
    instr: &Instr,
    work: &mut Work,
) -> Result<Outcome, NoMemory>
    requires room { is_transfer instr.now ≡ false → cells_of instr.now ≤ cells.old.spare }
    requires inside { at ≤ length code.now.instructions }
    requires has { HasTargets instr.now (length x.old) (length y.old) }
    requires targets { AllHaveTargets (drop at code.now.instructions) (length x.old) (length y.old) }
    requires holds_x { HoldPlaces (length cells.old.cells) x.old }
    requires holds_y { HoldPlaces (length cells.old.cells) y.old }
    ensures wants { OnErr result (wants_memory instr.now (drop at code.now.instructions) ≡ true) }
    ensures came { IfOk result (λ o. CameTo code.now instr.now at cells.old x.old y.old o cells.new x.new y.new) }
    ensures x_len { length x.new ≡ length x.old }
    ensures y_len { length y.new ≡ length y.old }
    ensures keeps { Keeps cells.old cells.new }
{
    match *instr {
        Instr::GetVariable(v, a) => {
            get_variable(x, y, v, a);
            Ok(Outcome::On(0))
        }
        Instr::GetValue(v, a) => {
            let same = get_value(cells, x, y, v, a, work)?;
            Ok(came_to(same, 0))
        }
        Instr::GetConstant(name, a) => Ok(came_to(get_constant(cells, x, y, name, a), 0)),
        Instr::GetInteger(i, a) => Ok(came_to(get_listed(cells, x, y, code, i, a), 0)),
        Instr::GetStructure(name, count, a) => {
            let got = get_structure(cells, x, y, code, at, name, count, a, work)?;
            Ok(came_to(got, count as usize))
        }
        Instr::PutVariable(v, a) => {
            put_variable(cells, x, y, v, a);
            Ok(Outcome::On(0))
        }
        Instr::PutValue(v, a) => {
            put_value(x, y, v, a);
            Ok(Outcome::On(0))
        }
        Instr::PutConstant(name, a) => {
            put_constant(cells, x, name, a);
            Ok(Outcome::On(0))
        }
        Instr::PutInteger(i, a) => Ok(came_to(put_listed(cells, x, code, i, a), 0)),
        Instr::PutStructure(name, count, a) => {
            let put = put_structure(cells, x, y, code, at, name, count, a);
            Ok(came_to(put, count as usize))
        }
        Instr::Allocate(_) => Ok(Outcome::On(0)),
        Instr::Deallocate => Ok(Outcome::On(0)),
        Instr::UnifyVariable(_) => Ok(Outcome::Stuck),
        Instr::UnifyValue(_) => Ok(Outcome::Stuck),
        Instr::UnifyConstant(_) => Ok(Outcome::Stuck),
        Instr::UnifyInteger(_) => Ok(Outcome::Stuck),
        _ => Ok(Outcome::Transfer),
    }
}
