//! Structures with their arguments. The arguments' instructions stand from a place `at` of the code on.

ghost use Rattle.std.specs.Prelude.{◌≡◌, ℕ, ◌+◌, ◌<◌, ◌≤◌, ◌==◌, length, drop, true, IfOk, OnOk, OnErr};
ghost use Rattle.ap_term.specs.Tree.{var};
ghost use Rattle.ap_cells.specs.Store.{Keeps};
ghost use Rattle.ap_cells.specs.Trees.{tree_at, trees};
ghost use Rattle.ap_instr.specs.Step.{get_structure, put_structure};
ghost use Rattle.ap_needs.specs.Needs.{has_value, AllHaveTargets};
ghost use Rattle.ap_steps.specs.Moves.{held, HoldPlaces};
ghost use Rattle.ap_steps.specs.Ways.{NoneOfControl, StepTaken};

use crate::arguments::{Parts, build_apart, build_arguments};
use crate::found::match_arguments;
use crate::registers::{place_in, put};
use ap_cells::{Cell, Cells, Top};
use ap_instr::Code;
use ap_match::{bind_structure, match_built, push_new};
use ap_term::{Atom, NoMemory};
use ap_unify::Work;

/// `put_structure F, A`: the argument gets a new structure. False where one of the structure's arguments can't be built.
#[inline]
pub fn put_structure(
    cells: &mut Cells,
    x: &mut [u32],
    y: &mut [u32],
    code: &Code,
    at: usize,
    name: Atom,
    count: u8,
    a: u32,
) -> bool
    requires room { count < cells.old.spare }
    requires inside { at ≤ length code.now.instructions }
    requires has { a < length x.old }
    requires targets { AllHaveTargets (drop at code.now.instructions) (length x.old) (length y.old) }
    requires holds_x { HoldPlaces (length cells.old.cells) x.old }
    requires holds_y { HoldPlaces (length cells.old.cells) y.old }
    ensures taken { StepTaken code.now (put_structure name count a) at count cells.old.cells (held x.old) (held y.old) cells.new.cells (held x.new) (held y.new) result }
    ensures passed { result ≡ true → NoneOfControl code.now.instructions at count }
    ensures holds_x { result ≡ true → HoldPlaces (length cells.new.cells) x.new }
    ensures holds_y { result ≡ true → HoldPlaces (length cells.new.cells) y.new }
    ensures spare { result ≡ true → cells.old.spare ≤ cells.new.spare + (count + 1) }
    ensures x_len { length x.new ≡ length x.old }
    ensures y_len { length y.new ≡ length y.old }
    ensures keeps { Keeps cells.old cells.new }
{
    let first = cells.len();
    let whole = first + count as usize;
    put(x, a as usize, whole as u32);
    match build_apart(cells, x, y, code, at, count as usize) {
        Parts::Stuck => false,
        Parts::Fresh | Parts::Values => {
            push_new(cells, Cell::Node(name, first, count as u32));
            true
        }
    }
}

/// A structure that is built and bound to a variable, if it can be. Only what registers held can keep it from that.
#[inline(always)]
fn build_structure(
    cells: &mut Cells,
    x: &mut [u32],
    y: &mut [u32],
    code: &Code,
    at: usize,
    name: Atom,
    count: u8,
    variable: usize,
    work: &mut Work,
) -> Result<bool, NoMemory>
    requires room { count < cells.old.spare }
    requires inside { at ≤ length code.now.instructions }
    requires targets { AllHaveTargets (drop at code.now.instructions) (length x.old) (length y.old) }
    requires holds_x { HoldPlaces (length cells.old.cells) x.old }
    requires holds_y { HoldPlaces (length cells.old.cells) y.old }
    requires place { variable < length cells.old.cells }
    requires unbound { tree_at (trees cells.old.cells) variable ≡ var variable }
    ensures taken { IfOk result (λ b. (a : ℕ) → tree_at (trees cells.old.cells) (held x.old a) ≡ var variable → StepTaken code.now (get_structure name count a) at count cells.old.cells (held x.old) (held y.old) cells.new.cells (held x.new) (held y.new) b) }
    ensures wants { OnErr result (has_value code.now.instructions at count ≡ true) }
    ensures passed { IfOk result (λ b. b ≡ true → NoneOfControl code.now.instructions at count) }
    ensures holds_x { IfOk result (λ b. b ≡ true → HoldPlaces (length cells.new.cells) x.new) }
    ensures holds_y { IfOk result (λ b. b ≡ true → HoldPlaces (length cells.new.cells) y.new) }
    ensures spare { IfOk result (λ b. b ≡ true → cells.old.spare ≤ cells.new.spare + (count + 1)) }
    ensures x_len { length x.new ≡ length x.old }
    ensures y_len { length y.new ≡ length y.old }
    ensures keeps { Keeps cells.old cells.new }
{
    let first = cells.len();
    match build_arguments(cells, x, y, code, at, count as usize) {
        Parts::Fresh => {
            bind_structure(cells, variable, name, first, count as u32);
            Ok(true)
        }
        Parts::Values => {
            let answer = match_built(cells, variable, name, first, count as u32, work)?;
            Ok(answer)
        }
        Parts::Stuck => Ok(false),
    }
}

/// Whether a structure that is there has a name and so many arguments.
#[inline]
fn is_of(found: Atom, arity: u32, name: Atom, count: u8) -> bool
    ensures same { result ≡ true → (found ≡ name) × (arity ≡ count) }
    ensures other { found ≡ name → arity ≡ count → result ≡ true }
{
    found == name && arity == count as u32
}

/// `get_structure F, A`: the argument is made a structure, if it can be. Where it is one, its arguments are matched; where it is
/// unbound, a new one is built for it.
#[inline(always)]
pub fn get_structure(
    cells: &mut Cells,
    x: &mut [u32],
    y: &mut [u32],
    code: &Code,
    at: usize,
    name: Atom,
    count: u8,
    a: u32,
    work: &mut Work,
) -> Result<bool, NoMemory>
    requires room { count < cells.old.spare }
    requires inside { at ≤ length code.now.instructions }
    requires targets { AllHaveTargets (drop at code.now.instructions) (length x.old) (length y.old) }
    requires holds_x { HoldPlaces (length cells.old.cells) x.old }
    requires holds_y { HoldPlaces (length cells.old.cells) y.old }
    ensures taken { IfOk result (λ b. StepTaken code.now (get_structure name count a) at count cells.old.cells (held x.old) (held y.old) cells.new.cells (held x.new) (held y.new) b) }
    ensures wants { OnErr result (has_value code.now.instructions at count ≡ true) }
    ensures passed { IfOk result (λ b. b ≡ true → NoneOfControl code.now.instructions at count) }
    ensures holds_x { IfOk result (λ b. b ≡ true → HoldPlaces (length cells.new.cells) x.new) }
    ensures holds_y { IfOk result (λ b. b ≡ true → HoldPlaces (length cells.new.cells) y.new) }
    ensures spare { IfOk result (λ b. b ≡ true → cells.old.spare ≤ cells.new.spare + (count + 1)) }
    ensures x_len { length x.new ≡ length x.old }
    ensures y_len { length y.new ≡ length y.old }
    ensures keeps { Keeps cells.old cells.new }
{
    let place = place_in(x, a);
    match cells.top(place) {
        Top::Free(variable) => {
            build_structure(cells, x, y, code, at, name, count, variable, work)
        }
        Top::Node(found, first, arity) => {
            if !is_of(found, arity, name, count) {
                return Ok(false);
            }
            match_arguments(cells, x, y, code, at, first, count as usize, work)
        }
        Top::Int(_) => Ok(false),
        Top::Atom(_) => Ok(false),
    }
}
