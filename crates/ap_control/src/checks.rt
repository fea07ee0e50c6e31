//! Checks of groups, on what registers hold.

ghost use Rattle.std.specs.Prelude.{◌≡◌, ◌↔◌, true, length, IfOk};
ghost use Rattle.ap_term.specs.Independence.{IsGround, SharesNoVariable};
ghost use Rattle.ap_cells.specs.Trees.{tree_at, trees};
ghost use Rattle.ap_instr.specs.Runs.{read};
ghost use Rattle.ap_steps.specs.Moves.{held, HoldPlaces};

use ap_cells::{Cells, Walk};
use ap_checks::{ground, indep};
use ap_instr::Slot;
use ap_marks::Marks;
use ap_steps::registers::read;
use ap_term::NoMemory;

/// `check_ground V`: whether the register's term has no variable.
pub fn is_ground(
    cells: &Cells,
    x: &[u32],
    y: &[u32],
    v: Slot,
    walk: &mut Walk,
) -> Result<bool, NoMemory>
    requires x { HoldPlaces (length cells.now.cells) x.now }
    requires y { HoldPlaces (length cells.now.cells) y.now }
    ensures { IfOk result (λ b. (b ≡ true) ↔ IsGround (tree_at (trees cells.now.cells) (read v (held x.now) (held y.now)))) }
{
    let place = read(x, y, v);
    let answer = ground(cells, place, walk)?;
    Ok(answer)
}

/// `check_indep V, W`: whether no variable stands in the terms of both registers.
pub fn are_apart(
    cells: &Cells,
    x: &[u32],
    y: &[u32],
    v: Slot,
    w: Slot,
    walk: &mut Walk,
    marks: &mut Marks,
) -> Result<bool, NoMemory>
    requires x { HoldPlaces (length cells.now.cells) x.now }
    requires y { HoldPlaces (length cells.now.cells) y.now }
    ensures { IfOk result (λ b. (b ≡ true) ↔ SharesNoVariable (tree_at (trees cells.now.cells) (read v (held x.now) (held y.now))) (tree_at (trees cells.now.cells) (read w (held x.now) (held y.now)))) }
{
    let left = read(x, y, v);
    let right = read(x, y, w);
    let answer = indep(cells, left, right, walk, marks)?;
    Ok(answer)
}
