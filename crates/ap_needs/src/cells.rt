//! The cells that runs of instructions make at most.

ghost use Rattle.std.specs.Prelude.{◌≡◌, ℕ, ◌+◌, ◌≤◌, drop, if◌then◌else◌, IfOk};
ghost use Rattle.ap_needs.specs.Needs.{is_transfer, cells_of, room};

use crate::transfers::is_transfer;
use ap_instr::{Code, Instr};
use ap_term::NoMemory;

/// The most cells that an instruction makes.
fn cells_of(instr: &Instr) -> usize
    ensures { result ≡ cells_of instr.now }
{
    match *instr {
        Instr::GetStructure(_, count, _) => count as usize + 1,
        Instr::PutVariable(_, _) => 1,
        Instr::PutConstant(_, _) => 1,
        Instr::PutInteger(_, _) => 1,
        Instr::PutStructure(_, count, _) => count as usize + 1,
        _ => 0,
    }
}

/// The most cells that an instruction and those behind it, which make `behind`, make up to a transfer of control.
fn room_from(instr: &Instr, behind: usize) -> Result<usize, NoMemory>
    ensures { IfOk result (λ n. n ≡ (if is_transfer instr.now then 0 else cells_of instr.now + behind)) }
{
    if is_transfer(instr) {
        return Ok(0);
    }
    match behind.checked_add(cells_of(instr)) {
        Some(room) => Ok(room),
        None => Err(NoMemory),
    }
}

pub(crate) fn larger(a: usize, b: usize) -> usize
    ensures left { a ≤ result }
    ensures right { b ≤ result }
{
    if a < b { b } else { a }
}

/// The most cells that a run of the code makes, from one of its places behind so many on to a transfer of control. NoMemory where no store
/// can have so many.
pub(crate) fn most_room(code: &Code, from: usize) -> Result<usize, NoMemory>
    ensures { IfOk result (λ most. (at : ℕ) → from ≤ at → room (drop at code.now.instructions) ≤ most) }
{
    let instructions = code.instructions();
    let mut most = 0;
    let mut behind = 0;
    let mut place = instructions.len();
    'places: while place > from {
        place -= 1;
        behind = room_from(&instructions[place], behind)?;
        most = larger(most, behind);
    }
    Ok(most)
}
