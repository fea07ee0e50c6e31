//! The occurs check.

ghost use Rattle.std.specs.Prelude.{◌≡◌, ◌<◌, length, IfOk};
ghost use Rattle.ap_term.specs.Vars.{occurs};
ghost use Rattle.ap_cells.specs.Trees.{tree_at, trees};

use ap_cells::{Cells, Top, Walk};
use ap_term::NoMemory;

/// Whether the variable of a place stands in the term of another.
#[inline(never)]
pub fn occurs(cells: &Cells, x: usize, place: usize, walk: &mut Walk) -> Result<bool, NoMemory>
    requires { place < length cells.now.cells }
    ensures { IfOk result (λ b. b ≡ occurs x (tree_at (trees cells.now.cells) place)) }
{
    walk.finds(cells, x, place)
}

/// The same, without a walk where the term is a number or an atom, or its arguments were settled before the variable came. A
/// walk is noted.
pub fn stands_in(
    cells: &mut Cells,
    x: usize,
    place: usize,
    walk: &mut Walk,
) -> Result<bool, NoMemory>
    requires { place < length cells.old.cells }
    ensures answer { IfOk result (λ b. b ≡ occurs x (tree_at (trees cells.old.cells) place)) }
    ensures same { cells.new ≡ cells.old }
{
    match cells.top(place) {
        Top::Int(_) => Ok(false),
        Top::Atom(_) => Ok(false),
        Top::Free(variable) => Ok(variable == x),
        Top::Node(_, first, count) => {
            if cells.are_settled_before(x, first, count) {
                return Ok(false);
            }
            cells.note_walk();
            occurs(cells, x, place, walk)
        }
    }
}
