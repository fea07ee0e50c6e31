//! Arguments of a structure that is there: each is matched with what stands at its place.

ghost use Rattle.std.specs.Prelude.{◌≡◌, ℕ, ◌+◌, ◌<◌, ◌≤◌, List, length, drop, slice_get, true, false, IfOk, OnOk, OnErr};
ghost use Rattle.ap_term.specs.Tree.{Tree, atom, int};
ghost use Rattle.ap_cells.specs.Store.{Keeps};
ghost use Rattle.ap_instr.specs.Step.{unify_variable, unify_value, unify_constant, with_integer, step_of};
ghost use Rattle.ap_needs.specs.Needs.{HasRegister, HasTargets, is_control, is_value, has_value, AllHaveTargets};
ghost use Rattle.ap_steps.specs.Moves.{held, HoldPlaces};
ghost use Rattle.ap_steps.specs.Found.{Matched, MatchedAll};
ghost use Rattle.ap_steps.specs.Ways.{NoneOfControl};

use crate::registers::{read, write};
use crate::tables::{instruction_in, integer_at};
use ap_cells::Cells;
use ap_instr::{Code, Instr, Slot};
use ap_match::{equate, match_atom, match_integer};
use ap_term::{Atom, NoMemory};
use ap_unify::Work;

/// `unify_variable V`: the register gets the argument's place.
#[inline(always)]
fn match_variable(cells: &Cells, x: &mut [u32], y: &mut [u32], v: Slot, place: usize)
    requires has { HasRegister v (length x.old) (length y.old) }
    requires inside { place < length cells.now.cells }
    ensures matched { Matched cells.now.cells (held x.old) (held y.old) (unify_variable v) place cells.now.cells (held x.new) (held y.new) true }
    ensures holds_x { HoldPlaces (length cells.now.cells) x.old → HoldPlaces (length cells.now.cells) x.new }
    ensures holds_y { HoldPlaces (length cells.now.cells) y.old → HoldPlaces (length cells.now.cells) y.new }
    ensures x_len { length x.new ≡ length x.old }
    ensures y_len { length y.new ≡ length y.old }
{
    let _places = cells.len();
    write(x, y, v, place as u32);
}

/// `unify_value V`: what the register holds and the argument are made equal, if they can be.
#[inline(always)]
fn match_value(
    cells: &mut Cells,
    x: &[u32],
    y: &[u32],
    v: Slot,
    place: usize,
    work: &mut Work,
) -> Result<bool, NoMemory>
    requires x { HoldPlaces (length cells.old.cells) x.now }
    requires y { HoldPlaces (length cells.old.cells) y.now }
    requires inside { place < length cells.old.cells }
    ensures matched { IfOk result (λ b. Matched cells.old.cells (held x.now) (held y.now) (unify_value v) place cells.new.cells (held x.now) (held y.now) b) }
    ensures len { length cells.new.cells ≡ length cells.old.cells }
    ensures spare { cells.new.spare ≡ cells.old.spare }
    ensures keeps { Keeps cells.old cells.new }
{
    let left = read(x, y, v);
    equate(cells, left, place, work)
}

/// `unify_constant C`: the argument is made an atom, if it can be.
#[inline(always)]
fn match_name(cells: &mut Cells, x: &[u32], y: &[u32], name: Atom, place: usize) -> bool
    requires x { HoldPlaces (length cells.old.cells) x.now }
    requires y { HoldPlaces (length cells.old.cells) y.now }
    requires inside { place < length cells.old.cells }
    ensures matched { Matched cells.old.cells (held x.now) (held y.now) (unify_constant (atom name)) place cells.new.cells (held x.now) (held y.now) result }
    ensures len { length cells.new.cells ≡ length cells.old.cells }
    ensures spare { cells.new.spare ≡ cells.old.spare }
    ensures keeps { Keeps cells.old cells.new }
{
    match_atom(cells, place, name)
}

/// `unify_integer I`: the argument is made an integer of the code's table, if it can be. False where the table doesn't have
/// it, too.
#[inline(never)]
fn match_listed(cells: &mut Cells, x: &[u32], y: &[u32], code: &Code, i: u32, place: usize) -> bool
    requires x { HoldPlaces (length cells.old.cells) x.now }
    requires y { HoldPlaces (length cells.old.cells) y.now }
    requires inside { place < length cells.old.cells }
    ensures matched { Matched cells.old.cells (held x.now) (held y.now) (with_integer (slice_get code.now.integers i) unify_constant) place cells.new.cells (held x.now) (held y.now) result }
    ensures len { length cells.new.cells ≡ length cells.old.cells }
    ensures spare { cells.new.spare ≡ cells.old.spare }
    ensures keeps { Keeps cells.old cells.new }
{
    match integer_at(code, i) {
        Some(value) => match_integer(cells, place, value),
        None => false,
    }
}

/// An argument at a place, by its instruction. False where it can't be matched, or the instruction is none of an argument's.
#[inline(always)]
fn match_argument(
    cells: &mut Cells,
    x: &mut [u32],
    y: &mut [u32],
    code: &Code,
    instr: &Instr,
    place: usize,
    work: &mut Work,
) -> Result<bool, NoMemory>
    requires has { HasTargets instr.now (length x.old) (length y.old) }
    requires holds_x { HoldPlaces (length cells.old.cells) x.old }
    requires holds_y { HoldPlaces (length cells.old.cells) y.old }
    requires inside { place < length cells.old.cells }
    ensures matched { IfOk result (λ b. Matched cells.old.cells (held x.old) (held y.old) (step_of code.now instr.now) place cells.new.cells (held x.new) (held y.new) b) }
    ensures argument { IfOk result (λ b. b ≡ true → is_control instr.now ≡ false) }
    ensures wants { OnErr result (is_value instr.now ≡ true) }
    ensures holds_x { HoldPlaces (length cells.new.cells) x.new }
    ensures holds_y { HoldPlaces (length cells.new.cells) y.new }
    ensures x_len { length x.new ≡ length x.old }
    ensures y_len { length y.new ≡ length y.old }
    ensures len { length cells.new.cells ≡ length cells.old.cells }
    ensures spare { cells.new.spare ≡ cells.old.spare }
    ensures keeps { Keeps cells.old cells.new }
{
    match *instr {
        Instr::UnifyVariable(v) => {
            match_variable(cells, x, y, v, place);
            Ok(true)
        }
        Instr::UnifyValue(v) => match_value(cells, x, y, v, place, work),
        Instr::UnifyConstant(name) => Ok(match_name(cells, x, y, name, place)),
        Instr::UnifyInteger(i) => Ok(match_listed(cells, x, y, code, i, place)),
        _ => Ok(false),
    }
}

/// The arguments of a structure that is there, at places from `first` on, by the instructions from a place of the code on, in a
/// loop. It stands apart, so that what calls it stays small.
#[inline(never)]
fn match_many(
    cells: &mut Cells,
    x: &mut [u32],
    y: &mut [u32],
    code: &Code,
    at: usize,
    first: usize,
    count: usize,
    work: &mut Work,
) -> Result<bool, NoMemory>
    requires inside { at ≤ length code.now.instructions }
    requires targets { AllHaveTargets (drop at code.now.instructions) (length x.old) (length y.old) }
    requires holds_x { HoldPlaces (length cells.old.cells) x.old }
    requires holds_y { HoldPlaces (length cells.old.cells) y.old }
    requires args { first + count ≤ length cells.old.cells }
    ensures matched { IfOk result (λ b. MatchedAll code.now at first count cells.old.cells (held x.old) (held y.old) cells.new.cells (held x.new) (held y.new) b) }
    ensures passed { IfOk result (λ b. b ≡ true → NoneOfControl code.now.instructions at count) }
    ensures wants { OnErr result (has_value code.now.instructions at count ≡ true) }
    ensures holds_x { HoldPlaces (length cells.new.cells) x.new }
    ensures holds_y { HoldPlaces (length cells.new.cells) y.new }
    ensures x_len { length x.new ≡ length x.old }
    ensures y_len { length y.new ≡ length y.old }
    ensures spare { cells.new.spare ≡ cells.old.spare }
    ensures keeps { Keeps cells.old cells.new }
{
    let instructions = code.instructions();
    let places = instructions.len();
    prove!(at <= places);
    let _places = cells.len();
    let end = places.min(at + count);
    let mut place = first;
    for instr in &instructions[at..end] {
        let matched = match_argument(cells, x, y, code, instr, place, work)?;
        if !matched {
            return Ok(false);
        }
        place += 1;
    }
    if end < at + count {
        return Ok(false);
    }
    Ok(true)
}

/// The arguments of a structure that is there, at places from `first` on, by the instructions from a place of the code on.
/// False where one can't be matched, whatever comes behind them. Two of them, as a list has, are taken without a loop.
#[inline(always)]
pub fn match_arguments(
    cells: &mut Cells,
    x: &mut [u32],
    y: &mut [u32],
    code: &Code,
    at: usize,
    first: usize,
    count: usize,
    work: &mut Work,
) -> Result<bool, NoMemory>
    requires inside { at ≤ length code.now.instructions }
    requires targets { AllHaveTargets (drop at code.now.instructions) (length x.old) (length y.old) }
    requires holds_x { HoldPlaces (length cells.old.cells) x.old }
    requires holds_y { HoldPlaces (length cells.old.cells) y.old }
    requires args { first + count ≤ length cells.old.cells }
    ensures matched { IfOk result (λ b. MatchedAll code.now at first count cells.old.cells (held x.old) (held y.old) cells.new.cells (held x.new) (held y.new) b) }
    ensures passed { IfOk result (λ b. b ≡ true → NoneOfControl code.now.instructions at count) }
    ensures wants { OnErr result (has_value code.now.instructions at count ≡ true) }
    ensures holds_x { HoldPlaces (length cells.new.cells) x.new }
    ensures holds_y { HoldPlaces (length cells.new.cells) y.new }
    ensures x_len { length x.new ≡ length x.old }
    ensures y_len { length y.new ≡ length y.old }
    ensures spare { cells.new.spare ≡ cells.old.spare }
    ensures keeps { Keeps cells.old cells.new }
{
    if count == 2 {
        let instructions = code.instructions();
        let _places = cells.len();
        if let Some(one) = instruction_in(instructions, at) {
            if let Some(two) = instruction_in(instructions, at + 1) {
                let begun = match_argument(cells, x, y, code, one, first, work)?;
                if !begun {
                    return Ok(false);
                }
                return match_argument(cells, x, y, code, two, first + 1, work);
            }
        }
    }
    match_many(cells, x, y, code, at, first, count, work)
}
