//! The variables of a tuple, each with a number of its own: which one it is among those that are marked.

ghost use Rattle.std.specs.Prelude.{◌<◌, ◌||◌, length, OnOk};
ghost use Rattle.ap_cells.specs.Trees.{tree_at, trees};
ghost use Rattle.ap_cells.specs.Walks.{Each};
ghost use Rattle.ap_copy.specs.Copies.{KnownAll, tuple_at};

use ap_cells::{Cells, Top, Walk};
use ap_marks::Marks;
use ap_term::NoMemory;

/// Marks the variables of the terms of some places.
pub fn mark_variables(
    cells: &Cells,
    roots: &[usize],
    walk: &mut Walk,
    marks: &mut Marks,
) -> Result<(), NoMemory>
    requires { Each (λ r. r < length cells.now.cells) roots.now }
    ensures { OnOk result (KnownAll marks.new (tuple_at (trees cells.now.cells) roots.now)) }
{
    marks.clear();
    for root in roots {
        ap_cells::mark_variables(cells, *root, walk, marks)?;
    }
    Ok(())
}

/// Marks the places that are unbound themselves.
pub fn mark_unbound(cells: &Cells, roots: &[usize], marks: &mut Marks) -> Result<(), NoMemory>
    requires { Each (λ r. r < length cells.now.cells) roots.now }
{
    marks.clear();
    for root in roots {
        if let Top::Free(variable) = cells.top(*root) {
            marks.insert(variable)?;
        }
    }
    Ok(())
}
