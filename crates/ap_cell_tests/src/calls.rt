//! The calls on cells, for tests: each one looks first whether its places are there.

ghost use Rattle.std.specs.Prelude.{◌≡◌, ◌<◌, length};

use ap_arith::{Pending, eval, test};
use ap_cells::{Cells, Walk};
use ap_checks::{Comparison, ground, identical, indep};
use ap_copy::{Packing, Parcelled, copy_out};
use ap_marks::Marks;
use ap_term::{NoMemory, Op, Term};
use ap_unify::{Work, unify};
use std::alloc::Global;

pub(crate) fn term_at(alloc: Global, cells: &Cells, a: usize) -> Result<Term, NoMemory> {
    if a < cells.len() {
        return cells.term_at(alloc, a);
    }
    Err(NoMemory)
}

pub(crate) fn is_ground(alloc: Global, cells: &Cells, a: usize) -> Result<bool, NoMemory> {
    let mut walk = Walk::new(alloc);
    if a < cells.len() {
        return ground(cells, a, &mut walk);
    }
    Err(NoMemory)
}

pub(crate) fn are_independent(
    alloc: Global,
    cells: &Cells,
    a: usize,
    b: usize,
) -> Result<bool, NoMemory> {
    let mut walk = Walk::new(alloc);
    let mut marks = Marks::new(alloc);
    if a < cells.len() && b < cells.len() {
        return indep(cells, a, b, &mut walk, &mut marks);
    }
    Err(NoMemory)
}

pub(crate) fn are_identical(
    alloc: Global,
    cells: &Cells,
    a: usize,
    b: usize,
) -> Result<bool, NoMemory> {
    let mut comparison = Comparison::new(alloc);
    if a < cells.len() && b < cells.len() {
        return identical(cells, a, b, &mut comparison);
    }
    Err(NoMemory)
}

pub(crate) fn value(alloc: Global, cells: &Cells, a: usize) -> Result<Option<i64>, NoMemory> {
    let mut pending = Pending::new(alloc);
    if a < cells.len() {
        return eval(cells, a, &mut pending);
    }
    Err(NoMemory)
}

/// Whether the expression of a place has a value that is at most itself.
pub(crate) fn has_value(alloc: Global, cells: &Cells, a: usize) -> Result<bool, NoMemory> {
    let mut pending = Pending::new(alloc);
    if a < cells.len() {
        return test(cells, Op::Le, a, a, &mut pending);
    }
    Err(NoMemory)
}

/// Unifies for good.
pub(crate) fn is_unified(
    cells: &mut Cells,
    a: usize,
    b: usize,
    work: &mut Work,
) -> Result<bool, NoMemory> {
    let len = cells.len();
    if a < len && b < len {
        return unify(cells, a, b, work);
    }
    Err(NoMemory)
}

/// Whether the terms of two places unify; what was bound is taken back.
pub(crate) fn may_be_unified(
    cells: &mut Cells,
    a: usize,
    b: usize,
    work: &mut Work,
) -> Result<bool, NoMemory> {
    let mark = cells.mark();
    let len = cells.len();
    if a < len && b < len {
        let found = unify(cells, a, b, work);
        cells.undo_to(mark);
        return found;
    }
    Err(NoMemory)
}

pub(crate) fn parcel_of(
    alloc: Global,
    cells: &Cells,
    a: usize,
    b: usize,
) -> Result<Parcelled, NoMemory> {
    let mut packing = Packing::new(alloc);
    if a < cells.len() && b < cells.len() {
        return copy_out(alloc, cells, &[a, b], &mut packing);
    }
    Err(NoMemory)
}
