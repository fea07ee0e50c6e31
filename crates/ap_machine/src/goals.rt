//! Built-in goals.

ghost use Rattle.std.specs.Prelude.{◌≡◌, ℕ, ◌+◌, ◌<◌, ◌≤◌, length, slice_get, Some, IfOk, OnOk, OnErr};
ghost use Rattle.ap_term.specs.Goals.{Program};
ghost use Rattle.ap_term.specs.WellFormed.{IsProgram};
ghost use Rattle.ap_cells.specs.Store.{Keeps};
ghost use Rattle.ap_instr.specs.declared.instruction.Instr.TheVariants.{Builtin as builtin_instr};
ghost use Rattle.ap_standing.specs.Machine.{inside};
ghost use Rattle.ap_standing.specs.Solved.{Solved};
ghost use Rattle.ap_standing.specs.Laws.{IsTurn, behind_goal};
ghost use Rattle.ap_steps.specs.Moves.{held, HoldPlaces};
ghost use Rattle.ap_machine.specs.Choices.{Stays};
ghost use Rattle.ap_machine.specs.View.{now_of};
ghost use Rattle.ap_machine.specs.Goal.{SolvedGoal};

use crate::state::{Now, Search};
use ap_arith::Pending;
use ap_cells::Cells;
use ap_checks::Comparison;
use ap_control::solve;
use ap_instr::{Builtin, Code};
use ap_steps::registers::place_in;
use ap_term::{NoMemory, Relation};
use ap_unify::Work;

/// The place behind an instruction.
#[inline(always)]
pub(crate) fn behind(code: &Code, at: usize) -> usize
    requires { at < length code.now.instructions }
    ensures { result ≡ at + 1 }
{
    prove!(at < code.instructions().len());
    at + 1
}

/// Solves a goal on two places. Without memory the cells are as before.
fn solve_or_undo(
    cells: &mut Cells,
    relation: Relation,
    a: usize,
    b: usize,
    work: &mut Work,
    pending: &mut Pending,
    comparison: &mut Comparison,
) -> Result<bool, NoMemory>
    requires { (a < length cells.old.cells) × (b < length cells.old.cells) }
    ensures solved { IfOk result (λ r. Solved relation cells.old.cells cells.new.cells a b r) }
    ensures undone { OnErr result (cells.new.cells ≡ cells.old.cells) }
    ensures keeps { Keeps cells.old cells.new }
    ensures longer { length cells.old.cells ≤ length cells.new.cells }
{
    cells.reserve(1)?;
    cells.is_store();
    let mark = cells.mark();
    match solve(cells, relation, a, b, work, pending, comparison) {
        Ok(holds) => Ok(holds),
        Err(error) => {
            cells.undo_to(mark);
            Err(error)
        }
    }
}

/// Solves a built-in goal on the argument registers. Without memory the cells are as before.
fn solve_goal(
    cells: &mut Cells,
    builtin: Builtin,
    x: &[u32],
    work: &mut Work,
    pending: &mut Pending,
    comparison: &mut Comparison,
) -> Result<bool, NoMemory>
    requires { HoldPlaces (length cells.old.cells) x.now }
    ensures solved { IfOk result (λ r. SolvedGoal builtin cells.old.cells cells.new.cells (held x.now 1) (held x.now 2) r) }
    ensures undone { OnErr result (cells.new.cells ≡ cells.old.cells) }
    ensures keeps { Keeps cells.old cells.new }
    ensures longer { length cells.old.cells ≤ length cells.new.cells }
{
    match builtin {
        Builtin::True => Ok(true),
        Builtin::Fail => Ok(false),
        Builtin::Relation(relation) => solve_or_undo(
            cells,
            relation,
            place_in(x, 1),
            place_in(x, 2),
            work,
            pending,
            comparison,
        ),
    }
}

/// What is next behind a goal.
#[inline(always)]
fn after_goal(holds: bool, to: usize) -> Now
    ensures { (at : ℕ) → to ≡ at + 1 → now_of result ≡ behind_goal at holds }
{
    if holds { Now::Inside(to) } else { Now::Failed }
}

impl Search {
    /// A built-in goal, which stands at a place: a turn. Without memory nothing changes.
    pub(crate) fn solve_builtin(
        &mut self,
        code: &Code,
        builtin: Builtin,
        at: usize,
    ) -> Result<(), NoMemory>
        requires here { self.old.machine.now ≡ inside at }
        requires stands { slice_get code.now.instructions at ≡ Some (builtin_instr builtin) }
        ensures turn { OnOk result ((p : Program) → IsProgram p → IsTurn code.now p self.old.machine self.new.machine) }
        ensures kept { OnErr result (self.new ≡ self.old) }
        ensures stays { Stays self.old self.new }
        ensures points { self.new.machine.points ≡ self.old.machine.points }
    {
        let to = behind(code, at);
        let holds = solve_goal(
            &mut self.cells,
            builtin,
            &self.x,
            &mut self.work,
            &mut self.pending,
            &mut self.comparison,
        )?;
        self.next = after_goal(holds, to);
        Ok(())
    }
}
