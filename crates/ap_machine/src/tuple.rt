//! A tuple, as it is lent.

ghost use Rattle.std.specs.Prelude.{◌<◌, length, IfOk};
ghost use Rattle.ap_term.specs.UpToNames.{SameUpToNames};
ghost use Rattle.ap_cells.specs.Trees.{trees};
ghost use Rattle.ap_cells.specs.Walks.{Each};
ghost use Rattle.ap_copy.specs.Copies.{tuple_at};
ghost use Rattle.ap_machine.specs.Lending.{inside-prop};

use ap_cells::Cells;
use ap_copy::{Packing, Parcelled, copy_out, new_variables};
use ap_term::NoMemory;
use std::alloc::Global;

/// The places of a tuple, and the cells in which its terms stand. Nothing of them is copied.
#[derive(Drop)]
pub struct Tuple<'a> {
    pub cells: &'a Cells,
    pub roots: &'a [usize],
    ghost inside: { Each (λ r. r < length cells.now.cells) roots.now } by { inside-prop (length cells.now.cells) roots.now },
}

/// Copies the terms of some places out of a store. Of no terms there is nothing to copy.
pub(crate) fn copy_apart(
    alloc: Global,
    cells: &Cells,
    roots: &[usize],
) -> Result<Parcelled, NoMemory>
    requires { Each (λ r. r < length cells.now.cells) roots.now }
    ensures { IfOk result (λ parcel. SameUpToNames parcel (tuple_at (trees cells.now.cells) roots.now)) }
{
    if roots.is_empty() {
        return new_variables(alloc, 0);
    }
    let mut packing = Packing::new(alloc);
    copy_out(alloc, cells, roots, &mut packing)
}
