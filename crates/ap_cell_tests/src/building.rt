//! Terms put into cells, for tests.

ghost use Rattle.std.specs.Prelude.{◌≡◌, ◌<◌, ◌≤◌, length, IfOk};

use ap_cells::{Cell, Cells};
use ap_term::{Atom, NoMemory};
use std::alloc::Global;

/// A step of a term in postfix: a variable, an integer, an atom, or a compound term over so many terms before it.
#[derive(Clone, Copy)]
pub(crate) enum Step {
    V(usize),
    I(i64),
    A(u32),
    N(u32, usize),
}

/// Puts a cell at a new place, if it leads to places that are there.
pub(crate) fn put(cells: &mut Cells, cell: Cell) -> Result<usize, NoMemory>
    ensures { IfOk result (λ p. p < length cells.new.cells) }
{
    cells.reserve(1)?;
    let len = cells.len();
    match cell {
        Cell::Free => Ok(cells.push(Cell::Free)),
        Cell::Int(z) => Ok(cells.push(Cell::Int(z))),
        Cell::Atom(a) => Ok(cells.push(Cell::Atom(a))),
        Cell::Same(place) => {
            if place < len {
                return Ok(cells.push(Cell::Same(place)));
            }
            Err(NoMemory)
        }
        Cell::Node(a, first, count) => {
            if first <= len && count as usize <= len - first {
                return Ok(cells.push(Cell::Node(a, first, count)));
            }
            Err(NoMemory)
        }
    }
}

/// The cell of a variable, by its number in a table that grows.
fn variable(
    cells: &mut Cells,
    variables: &mut Vec<usize>,
    number: usize,
) -> Result<Cell, NoMemory> {
    for _ in variables.len()..number.saturating_add(1) {
        let place = put(cells, Cell::Free)?;
        variables.push(place)?;
    }
    match variables.as_slice().get(number) {
        Some(place) => Ok(Cell::Same(*place)),
        None => Err(NoMemory),
    }
}

/// The cell of a compound term, whose arguments get places.
fn compound(
    cells: &mut Cells,
    stack: &mut Vec<Cell>,
    name: u32,
    count: usize,
) -> Result<Cell, NoMemory> {
    let rest = stack.len().saturating_sub(count);
    let first = cells.len();
    for i in rest..stack.len() {
        put(cells, stack[i])?;
    }
    stack.truncate(rest);
    Ok(Cell::Node(Atom::at(name), first, count.min(255) as u32))
}

/// Puts a term into cells. Variables with one number are one variable, also of several terms.
pub(crate) fn term(
    alloc: Global,
    cells: &mut Cells,
    variables: &mut Vec<usize>,
    steps: &[Step],
) -> Result<usize, NoMemory>
    ensures { IfOk result (λ p. p < length cells.new.cells) }
{
    let mut stack: Vec<Cell> = Vec::new(alloc);
    for step in steps {
        let cell = match *step {
            Step::V(number) => variable(cells, variables, number)?,
            Step::I(z) => Cell::Int(z),
            Step::A(a) => Cell::Atom(Atom::at(a)),
            Step::N(name, count) => compound(cells, &mut stack, name, count)?,
        };
        stack.push(cell)?;
    }
    match stack.pop() {
        Some(cell) => put(cells, cell),
        None => Err(NoMemory),
    }
}

/// A term that is n deep in its first argument, or in its last one, with a leaf beside each level.
pub(crate) fn deep(
    cells: &mut Cells,
    name: u32,
    n: usize,
    is_first: bool,
    leaf: Cell,
) -> Result<usize, NoMemory>
    ensures { IfOk result (λ p. p < length cells.new.cells) }
{
    let mut cell = leaf;
    for _ in 0..n {
        let first = put(cells, if is_first { cell } else { leaf })?;
        put(cells, if is_first { leaf } else { cell })?;
        cell = Cell::Node(Atom::at(name), first, 2);
    }
    put(cells, cell)
}

/// A term of so many levels, each of which has the one below twice, over a leaf.
pub(crate) fn shared(
    cells: &mut Cells,
    name: u32,
    levels: usize,
    leaf: Cell,
) -> Result<usize, NoMemory> {
    let mut place = put(cells, leaf)?;
    for _ in 0..levels {
        let first = put(cells, Cell::Same(place))?;
        put(cells, Cell::Same(place))?;
        place = put(cells, Cell::Node(Atom::at(name), first, 2))?;
    }
    Ok(place)
}
