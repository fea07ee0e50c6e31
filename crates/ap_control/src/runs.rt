//! Runs of instructions up to one of control.

ghost use Rattle.std.specs.Prelude.{◌≡◌, ℕ, ◌+◌, ◌<◌, ◌≤◌, length, drop, take, slice_get, None, Some, true, false, IfOk, IfSome, OnErr};
ghost use Rattle.ap_cells.specs.Store.{Keeps};
ghost use Rattle.ap_steps.specs.Moves.{held, HoldPlaces};
ghost use Rattle.ap_needs.specs.Needs.{AllHaveTargets, room, wants};
ghost use Rattle.ap_control.specs.Runs.{RanOrStuck, IsTransferAt, IsEndAt};

use ap_cells::Cells;
use ap_instr::Code;
use ap_steps::run::{Outcome, step};
use ap_steps::tables::instruction_in;
use ap_term::NoMemory;
use ap_unify::Work;

/// The registers up to the last one that holds another place than 0.
pub fn used(registers: &[u32]) -> &[u32]
    ensures held { (w : ℕ) → held result.now w ≡ held registers.now w }
    ensures len { length result.now ≤ length registers.now }
{
    let mut count = registers.len();
    while count > 0 && registers[count - 1] == 0 {
        count -= 1;
    }
    &registers[..count]
}

/// Takes the instructions from a place on up to the next one that leads elsewhere than to the one behind it, or to a place to
/// stop at, whichever comes first.
#[inline(always)]
pub fn run_to_stop(
    cells: &mut Cells,
    x: &mut [u32],
    y: &mut [u32],
    code: &Code,
    at: usize,
    stop: usize,
    work: &mut Work,
) -> Result<Option<usize>, NoMemory>
    requires room { room (drop at code.now.instructions) ≤ cells.old.spare }
    requires targets { (p : ℕ) → AllHaveTargets (drop p code.now.instructions) (length x.old) (length y.old) }
    requires holds_x { HoldPlaces (length cells.old.cells) x.old }
    requires holds_y { HoldPlaces (length cells.old.cells) y.old }
    ensures ran { IfOk result (λ to. RanOrStuck code.now at cells.old.cells x.old y.old to cells.new.cells x.new y.new) }
    ensures end { IfOk result (λ to. IfSome to (λ place. IsEndAt code.now stop place)) }
    ensures forward { IfOk result (λ to. IfSome to (λ place. at ≤ place)) }
    ensures wants { OnErr result (wants (drop at code.now.instructions) ≡ true) }
    ensures x_len { length x.new ≡ length x.old }
    ensures y_len { length y.new ≡ length y.old }
    ensures keeps { Keeps cells.old cells.new }
{
    let instructions = code.instructions();
    let places = instructions.len();
    let mut place = at;
    'run: while let Some(instr) = instruction_in(instructions, place) {
        prove!(place < places);
        if place == stop {
            return Ok(Some(place));
        }
        let outcome = step(cells, x, y, code, place + 1, instr, work)?;
        match outcome {
            Outcome::On(arguments) => place += 1 + arguments,
            Outcome::Transfer => return Ok(Some(place)),
            Outcome::Stuck => return Ok(None),
        }
    }
    Ok(None)
}

/// Takes the instructions from a place on up to the next one that leads elsewhere than to the one behind it.
#[inline(always)]
pub fn run_to_transfer(
    cells: &mut Cells,
    x: &mut [u32],
    y: &mut [u32],
    code: &Code,
    at: usize,
    work: &mut Work,
) -> Result<Option<usize>, NoMemory>
    requires room { room (drop at code.now.instructions) ≤ cells.old.spare }
    requires targets { (p : ℕ) → AllHaveTargets (drop p code.now.instructions) (length x.old) (length y.old) }
    requires holds_x { HoldPlaces (length cells.old.cells) x.old }
    requires holds_y { HoldPlaces (length cells.old.cells) y.old }
    ensures ran { IfOk result (λ to. RanOrStuck code.now at cells.old.cells x.old y.old to cells.new.cells x.new y.new) }
    ensures transfer { IfOk result (λ to. IfSome to (λ place. IsTransferAt code.now place)) }
    ensures forward { IfOk result (λ to. IfSome to (λ place. at ≤ place)) }
    ensures wants { OnErr result (wants (drop at code.now.instructions) ≡ true) }
    ensures x_len { length x.new ≡ length x.old }
    ensures y_len { length y.new ≡ length y.old }
    ensures keeps { Keeps cells.old cells.new }
{
    run_to_stop(cells, x, y, code, at, code.instructions().len(), work)
}
