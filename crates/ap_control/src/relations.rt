//! Built-in goals on two places.

ghost use Rattle.std.specs.Prelude.{◌≡◌, ◌<◌, length, IfOk};
ghost use Rattle.ap_cells.specs.Store.{Keeps};
ghost use Rattle.ap_term.specs.Arithmetic.{eval};
ghost use Rattle.ap_term.specs.Identical.{identical};
ghost use Rattle.ap_term.specs.declared.builtins.Relation.TheVariants.{NotUnify};
ghost use Rattle.ap_cells.specs.Trees.{tree_at, trees};
ghost use Rattle.ap_standing.specs.Solved.{GivenValue, Tested, Solved};

use ap_arith::{Pending, eval, test};
use ap_cells::Cells;
use ap_checks::{Comparison, identical};
use ap_match::{equate, match_integer};
use ap_term::{NoMemory, Relation};
use ap_unify::Work;

/// Whether the terms of two places can't be made equal.
fn differ(cells: &mut Cells, a: usize, b: usize, work: &mut Work) -> Result<bool, NoMemory>
    requires { (a < length cells.old.cells) × (b < length cells.old.cells) }
    ensures tested { IfOk result (λ r. Tested NotUnify cells.old.cells cells.new.cells a b r) }
    ensures keeps { Keeps cells.old cells.new }
{
    cells.is_store();
    let mark = cells.mark();
    let outcome = equate(cells, a, b, work);
    cells.undo_to(mark);
    let same = outcome?;
    Ok(!same)
}

/// Whether the terms of two places are the same.
fn are_same(
    cells: &Cells,
    a: usize,
    b: usize,
    comparison: &mut Comparison,
) -> Result<bool, NoMemory>
    requires { (a < length cells.now.cells) × (b < length cells.now.cells) }
    ensures { IfOk result (λ r. identical (tree_at (trees cells.now.cells) a) (tree_at (trees cells.now.cells) b) ≡ r) }
{
    let same = identical(cells, a, b, comparison)?;
    Ok(same)
}

/// Gives a place the value of another place's expression, if it has one.
fn give_value(
    cells: &mut Cells,
    a: usize,
    b: usize,
    pending: &mut Pending,
) -> Result<bool, NoMemory>
    requires inside { (a < length cells.old.cells) × (b < length cells.old.cells) }
    requires room { 0 < cells.old.spare }
    ensures given { IfOk result (λ r. GivenValue (eval (tree_at (trees cells.old.cells) b)) cells.old.cells cells.new.cells a r) }
    ensures keeps { Keeps cells.old cells.new }
{
    match eval(cells, b, pending)? {
        Some(value) => Ok(match_integer(cells, a, value)),
        None => Ok(false),
    }
}

/// Solves a goal on two places.
pub fn solve(
    cells: &mut Cells,
    relation: Relation,
    a: usize,
    b: usize,
    work: &mut Work,
    pending: &mut Pending,
    comparison: &mut Comparison,
) -> Result<bool, NoMemory>
    requires inside { (a < length cells.old.cells) × (b < length cells.old.cells) }
    requires room { 0 < cells.old.spare }
    ensures solved { IfOk result (λ r. Solved relation cells.old.cells cells.new.cells a b r) }
    ensures keeps { Keeps cells.old cells.new }
{
    match relation {
        Relation::Unify => equate(cells, a, b, work),
        Relation::NotUnify => differ(cells, a, b, work),
        Relation::Same => {
            let same = are_same(cells, a, b, comparison)?;
            Ok(same)
        }
        Relation::NotSame => {
            let same = are_same(cells, a, b, comparison)?;
            Ok(!same)
        }
        Relation::Is => give_value(cells, a, b, pending),
        Relation::Compare(op) => test(cells, op, a, b, pending),
    }
}
