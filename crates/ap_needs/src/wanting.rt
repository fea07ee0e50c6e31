//! Runs of instructions that may want memory.

ghost use Rattle.std.specs.Prelude.{◌≡◌, ℕ, ◌≤◌, ◌||◌, length, take, drop, slice_index_or, false, if◌then◌else◌, OnOk};
ghost use Rattle.ap_needs.specs.Needs.{is_transfer, is_value, has_value, wants_memory, wants};

use crate::transfers::is_transfer;
use ap_instr::{Code, Instr};
use ap_term::NoMemory;

/// Whether an instruction is that of an argument which a register holds.
fn is_value(instr: &Instr) -> bool
    ensures { result ≡ is_value instr.now }
{
    match *instr {
        Instr::UnifyValue(_) => true,
        _ => false,
    }
}

/// Whether one stands among the first so many.
fn has_value(instructions: &[Instr], count: usize) -> bool
    ensures { result ≡ has_value instructions.now 0 count }
{
    instructions.iter().take(count).any(|instr| is_value(instr))
}

/// Whether an instruction may want memory, by those behind it: where it unifies what a register holds.
fn wants_memory(instr: &Instr, behind: &[Instr]) -> bool
    ensures { result ≡ wants_memory instr.now behind.now }
{
    match *instr {
        Instr::GetValue(_, _) => true,
        Instr::GetStructure(_, count, _) => has_value(behind, count as usize),
        _ => false,
    }
}

/// Whether a run that begins with an instruction may want memory, by those behind it, and if a run of those may.
fn wants_from(instr: &Instr, behind: &[Instr], they_want: bool) -> bool
    ensures { result ≡ (if is_transfer instr.now then false else wants_memory instr.now behind.now || they_want) }
{
    if is_transfer(instr) {
        return false;
    }
    wants_memory(instr, behind) || they_want
}

/// Puts behind what is known of the first places of code whether a run from a further place on to a transfer of control may want memory.
pub(crate) fn add_wanting(code: &Code, table: &mut Vec<bool>) -> Result<(), NoMemory>
    requires { length table.old.items ≤ length code.now.instructions }
    ensures len { OnOk result (length table.new.items ≡ length code.now.instructions) }
    ensures same { OnOk result (take (length table.old.items) table.new.items ≡ table.old.items) }
    ensures each { OnOk result ((at : ℕ) → length table.old.items ≤ at → slice_index_or table.new.items at false ≡ wants (drop at code.now.instructions)) }
{
    let instructions = code.instructions();
    let from = table.len();
    table.resize(instructions.len(), false)?;
    let mut wants = false;
    let mut place = table.len();
    'places: while place > from {
        place -= 1;
        wants = wants_from(&instructions[place], &instructions[place + 1..], wants);
        table[place] = wants;
    }
    Ok(())
}
