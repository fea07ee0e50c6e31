//! Places and the terms of an answer.

ghost use Rattle.std.specs.Prelude.{◌≡◌, ℕ, ◌+◌, ◌<◌, ◌≤◌, length, IfOk};
ghost use Rattle.ap_term.specs.Vars.{Local};
ghost use Rattle.ap_cells.specs.Trees.{tree_at, trees};
ghost use Rattle.ap_cells.specs.Store.{Keeps};
ghost use Rattle.ap_cells.specs.Walks.{Each};
ghost use Rattle.ap_instr.specs.Runs.{spread};
ghost use Rattle.ap_match.specs.Fits.{Answered};
ghost use Rattle.ap_group.specs.Meets.{IsInstance, MeetAll, AreInside};
ghost use Rattle.ap_rejoin.specs.Meets.{AreEqual, Narrows};
ghost use Rattle.ap_term.specs.Tuples.{tuple_under};

use ap_cells::{Cells, Top};
use ap_copy::{Parcelled, copy_in};
use ap_group::Goals;
use ap_match::equate;
use ap_term::NoMemory;
use ap_unify::Work;

/// Makes the terms of some places an instance of an answer, if they can be: puts the answer behind the cells, with new
/// variables, and makes the terms equal one by one. After false, or want of memory, cells and bindings may be there that
/// `undo_to` takes back.
pub fn meet(
    cells: &mut Cells,
    places: &[u32],
    answer: &Parcelled,
    work: &mut Work,
) -> Result<bool, NoMemory>
    requires { Each (λ r. r < length cells.old.cells) places.now }
    ensures answered { IfOk result (λ r. Answered cells.old.cells cells.new.cells (IsInstance places.now answer.now) r) }
    ensures keeps { Keeps cells.old cells.new }
{
    cells.is_store();
    if places.len() != answer.len() {
        return Ok(false);
    }
    let base = cells.len();
    let roots = copy_in(cells, answer)?;
    bind_unbound(cells, places, base, roots.first);
    let met = equate_all(cells, places, roots.first, work)?;
    Ok(met)
}

/// Binds the places that are unbound to the compound terms of an answer, the first of which is at `first`. No variable before
/// `base` stands in these, so that none has to be walked over. The other terms are left to be made equal.
fn bind_unbound(cells: &mut Cells, places: &[u32], base: usize, first: usize)
    requires inside { Each (λ r. r < length cells.old.cells) places.now }
    requires behind { first + length places.now ≤ length cells.old.cells }
    requires fresh { (j : ℕ) → j < length places.now → Local (λ x. base ≤ x) (tree_at (trees cells.old.cells) (first + j)) }
    ensures narrows { Narrows cells.old.cells cells.new.cells (AreEqual places.now first (length places.now)) }
    ensures keeps { Keeps cells.old cells.new }
{
    let mut root = first;
    for place in places {
        let _few = cells.len();
        bind_new(cells, *place as usize, root, base);
        root += 1;
    }
}

/// Binds a place, if it is unbound and came before `base`, to the term of another, if that is a compound term.
fn bind_new(cells: &mut Cells, place: usize, root: usize, base: usize)
    requires inside { (place < length cells.old.cells) × (root < length cells.old.cells) }
    requires fresh { Local (λ x. base ≤ x) (tree_at (trees cells.old.cells) root) }
    ensures narrows { Narrows cells.old.cells cells.new.cells (λ k. k place ≡ k root) }
    ensures same { (i : ℕ) → i < length cells.old.cells → Local (λ x. base ≤ x) (tree_at (trees cells.old.cells) i) → tree_at (trees cells.new.cells) i ≡ tree_at (trees cells.old.cells) i }
    ensures keeps { Keeps cells.old cells.new }
{
    let Top::Free(variable) = cells.top(place) else {
        return;
    };
    if variable >= base {
        return;
    }
    let Top::Node(_, _, _) = cells.top(root) else {
        return;
    };
    cells.bind(variable, root);
}

/// Makes the terms of some places equal to those of as many places from `first` on, if they can be.
fn equate_all(
    cells: &mut Cells,
    places: &[u32],
    first: usize,
    work: &mut Work,
) -> Result<bool, NoMemory>
    requires inside { Each (λ r. r < length cells.old.cells) places.now }
    requires behind { first + length places.now ≤ length cells.old.cells }
    ensures answered { IfOk result (λ r. Answered cells.old.cells cells.new.cells (λ k. tuple_under k places.now ≡ spread k first (length places.now)) r) }
    ensures keeps { Keeps cells.old cells.new }
{
    let mut at = first;
    for place in places {
        let _few = cells.len();
        if !equate(cells, *place as usize, at, work)? {
            return Ok(false);
        }
        at += 1;
    }
    Ok(true)
}

/// Makes the arguments of each goal an instance of its answer, if all of them can be. After false, or want of memory, cells
/// and bindings may be there that `undo_to` takes back.
pub fn meet_all(
    cells: &mut Cells,
    goals: &Goals,
    answers: &[Parcelled],
    work: &mut Work,
) -> Result<bool, NoMemory>
    requires { AreInside (length cells.old.cells) goals.now }
    ensures answered { IfOk result (λ r. Answered cells.old.cells cells.new.cells (MeetAll goals.now answers.now) r) }
    ensures keeps { Keeps cells.old cells.new }
{
    if goals.len() != answers.len() {
        return Ok(false);
    }
    for i in 0..answers.len() {
        let Some((_, places)) = goals.goal(i) else {
            return Ok(true);
        };
        if !meet(cells, places, &answers[i], work)? {
            return Ok(false);
        }
    }
    Ok(true)
}
