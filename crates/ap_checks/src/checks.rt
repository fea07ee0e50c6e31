//! Both checks walk over the variables of a term. `indep` marks those of its first term. Terms that are shared are gone through
//! about once.

ghost use Rattle.std.specs.Prelude.{◌≡◌, ◌↔◌, ℕ, ◌<◌, Bool, true, false, nat_eq, length, IfOk, OnOk};
ghost use Rattle.std.specs.List.{list_any};
ghost use Rattle.ap_term.specs.Vars.{occurs};
ghost use Rattle.ap_term.specs.Independence.{IsGround, SharesNoVariable};
ghost use Rattle.ap_cells.specs.Trees.{tree_at, trees};

use ap_cells::{Cells, Walk, mark_variables};
use ap_marks::Marks;
use ap_term::NoMemory;

/// Whether the term of a place has no variable.
pub fn ground(cells: &Cells, place: usize, walk: &mut Walk) -> Result<bool, NoMemory>
    requires { place < length cells.now.cells }
    ensures { IfOk result (λ b. (b ≡ true) ↔ IsGround (tree_at (trees cells.now.cells) place)) }
{
    walk.start(cells, place)?;
    match walk.next(cells)? {
        Some(_) => Ok(false),
        None => Ok(true),
    }
}

/// Whether no variable stands in the terms of both places. It takes time in proportion to the two terms.
pub fn indep(
    cells: &Cells,
    a: usize,
    b: usize,
    walk: &mut Walk,
    marks: &mut Marks,
) -> Result<bool, NoMemory>
    requires { (a < length cells.now.cells) × (b < length cells.now.cells) }
    ensures { IfOk result (λ r. (r ≡ true) ↔ SharesNoVariable (tree_at (trees cells.now.cells) a) (tree_at (trees cells.now.cells) b)) }
{
    marks.clear();
    mark_variables(cells, a, walk, marks)?;
    if marks.is_empty() {
        return Ok(true);
    }
    has_none_of(cells, b, marks, walk)
}

/// Whether no marked variable stands in the term of a place.
fn has_none_of(
    cells: &Cells,
    place: usize,
    marks: &Marks,
    walk: &mut Walk,
) -> Result<bool, NoMemory>
    requires { place < length cells.now.cells }
    ensures { IfOk result (λ r. (r ≡ true) ↔ ((x : ℕ) → list_any (nat_eq x) marks.now ≡ true → occurs x (tree_at (trees cells.now.cells) place) ≡ false)) }
{
    walk.start(cells, place)?;
    while let Some(variable) = walk.next(cells)? {
        if marks.contains(variable) {
            return Ok(false);
        }
    }
    Ok(true)
}
