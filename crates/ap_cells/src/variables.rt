//! The variables of a term, marked.

ghost use Rattle.std.specs.Prelude.{◌≡◌, ℕ, ◌<◌, ◌||◌, nat_eq, length, OnOk};
ghost use Rattle.std.specs.List.{list_any};
ghost use Rattle.ap_term.specs.Vars.{occurs};
ghost use Rattle.ap_cells.specs.Trees.{tree_at, trees};

use crate::cells::Cells;
use crate::walk::Walk;
use ap_marks::Marks;
use ap_term::NoMemory;

/// Marks the variables of a place's term, besides what is marked already.
pub fn mark_variables(
    cells: &Cells,
    place: usize,
    walk: &mut Walk,
    marks: &mut Marks,
) -> Result<(), NoMemory>
    requires { place < length cells.now.cells }
    ensures { OnOk result ((x : ℕ) → list_any (nat_eq x) marks.new ≡ (list_any (nat_eq x) marks.old || occurs x (tree_at (trees cells.now.cells) place))) }
{
    walk.start(cells, place)?;
    while let Some(variable) = walk.next(cells)? {
        marks.insert(variable)?;
    }
    Ok(())
}
