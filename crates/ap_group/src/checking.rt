//! The checks of a group, one after another.

ghost use Rattle.std.specs.Prelude.{◌≡◌, ℕ, ◌≤◌, List, length, true, false, IfOk};
ghost use Rattle.ap_cells.specs.declared.cells.Raw.{Raw};
ghost use Rattle.ap_instr.specs.declared.instruction.Instr.TheVariants.{AllocParcall};
ghost use Rattle.ap_instr.specs.Groups.{otherwise};
ghost use Rattle.ap_instr.specs.Steps.{steps_from};
ghost use Rattle.ap_steps.specs.Moves.{HoldPlaces};
ghost use Rattle.ap_group.specs.Gathers.{IsGroupAt, is_check, ComesToGroup, IsPlainWay};
ghost use Rattle.ap_group.specs.Turns.{ChecksTo, AreChecked};

use ap_cells::{Cells, Walk};
use ap_control::{are_apart, instruction_at, is_ground};
use ap_instr::{Code, Instr};
use ap_marks::Marks;
use ap_term::NoMemory;

/// What an instruction before a group's goals comes to.
#[derive(Clone, Copy)]
pub enum Check {
    /// It is a check that holds.
    Holds,
    /// It is one that doesn't, and leads to the place.
    Fails(usize),
    /// So many goals are to be pushed.
    Begins(u8),
}

/// What the checks of a group come to.
#[derive(Clone, Copy)]
pub enum Checked {
    /// All hold. So many goals are to be pushed, by the instructions from the place on.
    Group(u8, usize),
    /// One doesn't hold. The goals stand one after another from the place on.
    Plain(usize),
}

/// What a check comes to.
fn outcome(holds: bool, otherwise: u32) -> Check
    ensures holds { holds ≡ true → result ≡ Check.Holds }
    ensures fails { holds ≡ false → result ≡ Check.Fails otherwise }
{
    if holds {
        Check::Holds
    } else {
        Check::Fails(otherwise as usize)
    }
}

/// Takes an instruction before a group's goals. Another one than those of a group is want of memory.
fn ask(
    cells: &Cells,
    x: &[u32],
    y: &[u32],
    instr: Instr,
    walk: &mut Walk,
    marks: &mut Marks,
) -> Result<Check, NoMemory>
    requires holds_x { HoldPlaces (length cells.now.cells) x.now }
    requires holds_y { HoldPlaces (length cells.now.cells) y.now }
    ensures { IfOk result (λ check. ChecksTo instr cells.now.cells x.now y.now check) }
{
    match instr {
        Instr::CheckGround(v, otherwise) => {
            let holds = is_ground(cells, x, y, v, walk)?;
            Ok(outcome(holds, otherwise))
        }
        Instr::CheckIndep(v, w, otherwise) => {
            let holds = are_apart(cells, x, y, v, w, walk, marks)?;
            Ok(outcome(holds, otherwise))
        }
        Instr::AllocParcall(count, _) => Ok(Check::Begins(count)),
        // A group's checks stand one behind the other, and its goals behind them.
        _ => Err(NoMemory),
    }
}

/// Where a check leads to that doesn't hold, and where the goals of a group that begin stand one after another. None for another
/// instruction.
fn leads_to(instr: &Instr) -> Option<usize>
    ensures { result ≡ otherwise instr.now }
{
    match *instr {
        Instr::CheckGround(_, to) => Some(to as usize),
        Instr::CheckIndep(_, _, to) => Some(to as usize),
        Instr::AllocParcall(_, to) => Some(to as usize),
        _ => None,
    }
}

/// Whether an instruction is a check.
fn is_check(instr: &Instr) -> bool
    ensures { result ≡ is_check instr.now }
{
    match *instr {
        Instr::CheckGround(_, _) => true,
        Instr::CheckIndep(_, _, _) => true,
        _ => false,
    }
}

/// Whether a group's goals begin with an instruction.
fn begins_goals(instr: &Instr) -> bool
    ensures { result ≡ true → (n l : ℕ) × (instr.now ≡ AllocParcall n l) }
{
    match *instr {
        Instr::AllocParcall(_, _) => true,
        _ => false,
    }
}

/// Whether from a place on checks stand alone up to where a group's goals begin.
fn comes_to_group(code: &Code, from: usize) -> bool
    requires { from ≤ length code.now.instructions }
    ensures { result ≡ true → ComesToGroup (steps_from code.now from) }
{
    let places = code.instructions().len();
    prove!(from <= places);
    for place in from..places {
        let Some(instr) = instruction_at(code, place) else {
            return false;
        };
        if !is_check(&instr) {
            return begins_goals(&instr);
        }
    }
    false
}

/// Finds the place where the goals of the group at a place stand one after another.
pub fn plain_way(code: &Code, at: usize) -> Result<usize, NoMemory>
    ensures { IfOk result (λ to. (cs : List Raw) (x y : List ℕ) → IsPlainWay code.now at cs x y to) }
{
    let places = code.instructions().len();
    let Some(instr) = instruction_at(code, at) else {
        return Err(NoMemory);
    };
    prove!(at < places);
    match leads_to(&instr) {
        Some(to) if comes_to_group(code, at) => Ok(to),
        // A group's goals begin behind its checks.
        _ => Err(NoMemory),
    }
}

/// Asks the checks of the group at a place, up to one that doesn't hold.
pub(crate) fn check_all(
    cells: &Cells,
    x: &[u32],
    y: &[u32],
    code: &Code,
    at: usize,
    walk: &mut Walk,
    marks: &mut Marks,
) -> Result<Checked, NoMemory>
    requires here { IsGroupAt code.now at }
    requires holds_x { HoldPlaces (length cells.now.cells) x.now }
    requires holds_y { HoldPlaces (length cells.now.cells) y.now }
    ensures { IfOk result (λ checked. AreChecked code.now at cells.now.cells x.now y.now checked) }
{
    let places = code.instructions().len();
    prove!(at <= places);
    for place in at..places {
        let Some(instr) = instruction_at(code, place) else {
            return Err(NoMemory);
        };
        match ask(cells, x, y, instr, walk, marks)? {
            Check::Holds => {}
            Check::Begins(count) => return Ok(Checked::Group(count, place + 1)),
            Check::Fails(to) if comes_to_group(code, place) => return Ok(Checked::Plain(to)),
            Check::Fails(_) => return Err(NoMemory),
        }
    }
    // The goals begin before the code ends.
    Err(NoMemory)
}
