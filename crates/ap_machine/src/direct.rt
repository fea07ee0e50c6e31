//! Goals of arithmetic that are solved straight from registers.

ghost use Rattle.std.specs.Prelude.{◌≡◌, ℕ, ◌<◌, ◌≤◌, length, Some, true, IfOk, IfSome, OnOk, OnErr};
ghost use Rattle.ap_term.specs.Goals.{Program};
ghost use Rattle.ap_term.specs.WellFormed.{IsProgram};
ghost use Rattle.ap_term.specs.Tree.{int};
ghost use Rattle.ap_term.specs.Arithmetic.{eval};
ghost use Rattle.ap_cells.specs.Store.{Keeps};
ghost use Rattle.ap_cells.specs.Trees.{tree_at, trees};
ghost use Rattle.ap_needs.specs.Needs.{HasRegister};
ghost use Rattle.ap_steps.specs.Moves.{HoldPlaces};
ghost use Rattle.ap_standing.specs.Machine.{inside};
ghost use Rattle.ap_standing.specs.Laws.{IsTurn};
ghost use Rattle.ap_direct.specs.declared.goal.Goal.{Goal};
ghost use Rattle.ap_direct.specs.Goals.{operand_tree};
ghost use Rattle.ap_direct_turns.specs.Laws.{behind_direct};
ghost use Rattle.ap_direct_turns.specs.Solved.{own, own_part, Given, SolvedOn};
ghost use Rattle.ap_machine.specs.View.{now_of};
ghost use Rattle.ap_machine.specs.Choices.{Stays};
ghost use Rattle.ap_machine.specs.Direct.{HasValue, IsDirectDue, given};
ghost use Rattle.ap_machine.specs.Due.{IsDue};

use crate::due::Due;
use crate::state::{Now, Search};
use ap_cells::{Cell, Cells, Raw};
use ap_codecheck::Sound;
use ap_direct::{Goal, Operand, Part};
use ap_direct_turns::direct_law;
use ap_instr::{Code, Slot};
use ap_match::{match_integer, push_new};
use ap_spec::{applied, compares};
use ap_steps::registers::{read, write};
use ap_term::NoMemory;

/// What a goal of arithmetic comes to. Fields of two sizes never stand at one offset, since they would be packed and unpacked wherever
/// ways meet.
#[derive(Clone, Copy)]
pub(crate) enum Value {
    /// Whether it holds.
    Holds(bool),
    /// A place's term is to be this value.
    Match(usize, i64),
    /// A temporary register gets this value.
    GiveTemporary(u32, i64),
    /// A permanent variable gets it.
    GivePermanent(u8, i64),
}

/// The integer at the end of the chain from a place.
#[inline(always)]
fn integer_at(cells: &Cells, place: usize) -> Option<i64>
    requires { place < length cells.now.cells }
    ensures { IfSome result (λ z. tree_at (trees cells.now.cells) place ≡ int z) }
{
    match cells.raw_at(cells.deref(place)) {
        Raw::Int(z) => Some(z),
        Raw::Free | Raw::Same(_) | Raw::Atom(_) | Raw::Node(_, _, _) => None,
    }
}

/// The value of an operand that is an integer.
#[inline(always)]
#[tactic(auto, using(crate::proofs::Values::own_register))]
fn operand_value(cells: &Cells, x: &[u32], y: &[u32], operand: &Operand) -> Option<i64>
    requires { HoldPlaces (length cells.now.cells) x.now × HoldPlaces (length cells.now.cells) y.now }
    ensures { IfSome result (λ z. operand_tree operand.now (own cells.now.cells x.now) (own cells.now.cells y.now) ≡ int z) }
{
    match *operand {
        Operand::Integer(z) => Some(z),
        Operand::Register(v) => integer_at(cells, read(x, y, v)),
    }
}

/// The value of an expression of any depth whose operands are integers, if it meets no fault.
#[inline(never)]
#[tactic(auto, using(crate::proofs::Values::eval_one, crate::proofs::Values::eval_two))]
fn part_value(cells: &Cells, x: &[u32], y: &[u32], part: &Part) -> Option<i64>
    requires { HoldPlaces (length cells.now.cells) x.now × HoldPlaces (length cells.now.cells) y.now }
    ensures { IfSome result (λ z. eval (own_part cells.now.cells x.now y.now part.now) ≡ Some z) }
{
    match part {
        Part::Operation(operation, left, right) => {
            let a = operand_value(cells, x, y, left)?;
            let b = operand_value(cells, x, y, right)?;
            applied(*operation, a, b).ok()
        }
        Part::Nested(operation, left, right) => {
            let first = part_value(cells, x, y, left)?;
            let second = part_value(cells, x, y, right)?;
            applied(*operation, first, second).ok()
        }
        Part::Operand(operand) => operand_value(cells, x, y, operand),
    }
}

/// The value of a comparison's side, which is an operand mostly.
#[inline(always)]
#[tactic(auto, using(crate::proofs::Values::eval_one))]
fn side_value(cells: &Cells, x: &[u32], y: &[u32], part: &Part) -> Option<i64>
    requires { HoldPlaces (length cells.now.cells) x.now × HoldPlaces (length cells.now.cells) y.now }
    ensures { IfSome result (λ z. eval (own_part cells.now.cells x.now y.now part.now) ≡ Some z) }
{
    match part {
        Part::Operand(operand) => operand_value(cells, x, y, operand),
        _ => part_value(cells, x, y, part),
    }
}

/// Whether there is a register.
#[inline(always)]
fn is_register(x: &[u32], y: &[u32], v: Slot) -> bool
    ensures { result ≡ true → HasRegister v (length x.now) (length y.now) }
{
    match v {
        Slot::X(n) => (n as usize) < x.len(),
        Slot::Y(n) => (n as usize) < y.len(),
    }
}

/// The value that a register gets.
#[inline(always)]
fn given(v: Slot, z: i64) -> Value
    ensures { result ≡ given v z }
{
    match v {
        Slot::X(n) => Value::GiveTemporary(n, z),
        Slot::Y(n) => Value::GivePermanent(n, z),
    }
}

/// What a goal comes to whose operands are integers, if it meets no fault.
#[inline(always)]
fn goal_value(cells: &Cells, x: &[u32], y: &[u32], goal: &Goal) -> Option<Value>
    requires { HoldPlaces (length cells.now.cells) x.now × HoldPlaces (length cells.now.cells) y.now }
    ensures { IfSome result (λ value. HasValue cells.now.cells x.now y.now goal.now value) }
{
    match goal {
        Goal::Compare(op, left, right) => {
            let a = side_value(cells, x, y, left)?;
            let b = side_value(cells, x, y, right)?;
            Some(Value::Holds(compares(*op, a, b)))
        }
        Goal::Match(v, part) => {
            let z = part_value(cells, x, y, part)?;
            Some(Value::Match(read(x, y, *v), z))
        }
        Goal::Give(v, part) => {
            if !is_register(x, y, *v) {
                return None;
            }
            let z = part_value(cells, x, y, part)?;
            Some(given(*v, z))
        }
    }
}

/// Gives a register a new place that is an integer.
#[inline(always)]
fn give(cells: &mut Cells, x: &mut [u32], y: &mut [u32], v: Slot, z: i64) -> Result<(), NoMemory>
    requires has { HasRegister v (length x.old) (length y.old) }
    ensures given { OnOk result (Given cells.old.cells cells.new.cells x.old y.old x.new y.new v z) }
    ensures err { OnErr result ((cells.new.cells ≡ cells.old.cells) × (x.new ≡ x.old) × (y.new ≡ y.old)) }
    ensures longer { length cells.old.cells ≤ length cells.new.cells }
    ensures x_len { length x.new ≡ length x.old }
    ensures y_len { length y.new ≡ length y.old }
    ensures keeps { Keeps cells.old cells.new }
{
    cells.reserve(1)?;
    let places = cells.len();
    let place = push_new(cells, Cell::Int(z));
    prove!(place == places);
    write(x, y, v, place as u32);
    Ok(())
}

/// Makes of cells and registers what goals of this value ask. Without memory they stay as they are.
#[inline(always)]
fn solve_value(
    cells: &mut Cells,
    x: &mut [u32],
    y: &mut [u32],
    value: Value,
) -> Result<bool, NoMemory>
    requires hold { HoldPlaces (length cells.old.cells) x.old × HoldPlaces (length cells.old.cells) y.old }
    requires value { (goal : Goal) × HasValue cells.old.cells x.old y.old goal value }
    ensures solved { IfOk result (λ r. (goal : Goal) → HasValue cells.old.cells x.old y.old goal value → SolvedOn goal cells.old.cells x.old y.old cells.new.cells x.new y.new r) }
    ensures err { OnErr result ((cells.new.cells ≡ cells.old.cells) × (x.new ≡ x.old) × (y.new ≡ y.old)) }
    ensures longer { length cells.old.cells ≤ length cells.new.cells }
    ensures x_len { length x.new ≡ length x.old }
    ensures y_len { length y.new ≡ length y.old }
    ensures keeps { Keeps cells.old cells.new }
{
    match value {
        Value::Holds(holds) => Ok(holds),
        Value::Match(place, z) => Ok(match_integer(cells, place, z)),
        Value::GiveTemporary(n, z) => {
            give(cells, x, y, Slot::X(n), z)?;
            Ok(true)
        }
        Value::GivePermanent(n, z) => {
            give(cells, x, y, Slot::Y(n), z)?;
            Ok(true)
        }
    }
}

/// What is next behind a goal of arithmetic.
#[inline(always)]
fn after_direct(holds: bool, to: usize) -> Now
    ensures { now_of result ≡ behind_direct to holds }
{
    if holds { Now::Inside(to) } else { Now::Failed }
}

impl Search {
    /// The goal of arithmetic that begins at a place, if its operands are integers and it meets no fault.
    #[inline(always)]
    pub(crate) fn direct_due(&self, sound: &Sound, at: usize) -> Option<Due>
        requires { self.now.machine.now ≡ inside at }
        ensures { IfSome result (λ due. IsDue sound.now self.now.machine due) }
    {
        let direct = sound.direct(at)?;
        let value = goal_value(&self.cells, &self.x, &self.y, &direct.goal)?;
        Some(Due::Direct(direct.to, value))
    }

    /// Solves a goal of arithmetic: a turn. Without memory nothing changes.
    #[inline(always)]
    pub(crate) fn solve_direct(
        &mut self,
        code: &Code,
        value: Value,
        to: usize,
    ) -> Result<(), NoMemory>
        requires { IsDirectDue code.now self.old.machine value to }
        ensures turn { OnOk result ((p : Program) → IsProgram p → IsTurn code.now p self.old.machine self.new.machine) }
        ensures kept { OnErr result (self.new ≡ self.old) }
        ensures stays { Stays self.old self.new }
        ensures points { self.new.machine.points ≡ self.old.machine.points }
    {
        self.cells.is_store();
        direct_law();
        let holds = solve_value(&mut self.cells, &mut self.x, &mut self.y, value)?;
        self.next = after_direct(holds, to);
        Ok(())
    }
}
