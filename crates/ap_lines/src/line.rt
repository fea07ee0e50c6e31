//! The line of an answer.

ghost use Rattle.std.specs.Prelude.{◌≡◌, ◌<◌, ◌++◌, ℕ, List, OnOk, IfOk, length};
ghost use Rattle.ap_term.specs.Vars.{add_vars};
ghost use Rattle.ap_term.specs.Tuples.{tuple_under};
ghost use Rattle.ap_term.specs.Substitution.{instance};
ghost use Rattle.ap_term.specs.Blocks.{IsPrefix};
ghost use Rattle.ap_cells.specs.Trees.{tree_at, trees};
ghost use Rattle.ap_cells.specs.Walks.{Each};
ghost use Rattle.ap_writer.specs.Text.{numbered_by};
ghost use Rattle.ap_writer.specs.Line.{is_hidden, equation, answer_line};

use crate::text::write_place;
use ap_cells::Cells;
use ap_term::{Atoms, Name, NoMemory, Query};
use ap_writer::Numbers;
use std::alloc::Global;

/// Whether a variable's name begins with `_`.
fn is_hidden(name: &Name) -> bool
    ensures { result ≡ is_hidden name.now }
{
    match name.as_str().as_bytes() {
        [b'_', ..] => true,
        _ => false,
    }
}

fn write_equation(
    alloc: Global,
    out: &mut Vec<u8>,
    numbers: &mut Numbers,
    cells: &Cells,
    atoms: &Atoms,
    name: &Name,
    place: usize,
) -> Result<(), NoMemory>
    requires { place < length cells.now.cells }
    ensures text { OnOk result ((found : List ℕ) → IsPrefix numbers.new found → out.new.items ≡ out.old.items ++ equation atoms.now name.now (instance (numbered_by found) (tree_at (trees cells.now.cells) place))) }
    ensures variables { OnOk result (numbers.new ≡ add_vars (tree_at (trees cells.now.cells) place) numbers.old) }
{
    out.extend_from_slice(name.as_str().as_bytes())?;
    out.extend_from_slice(b" = ")?;
    write_place(alloc, out, numbers, cells, atoms, place)?;
    Ok(())
}

/// Writes `Name = term` for each variable of the query whose name doesn't begin with `_`, parted by a comma and a blank, and `true`
/// where there is none; the terms are those of the places. No line feed. Variables are `_1`, `_2`, .. by first occurrence in the line.
pub fn answer_line(
    alloc: Global,
    query: &Query,
    cells: &Cells,
    roots: &[usize],
    atoms: &Atoms,
) -> Result<Vec<u8>, NoMemory>
    requires as_many { length roots.now ≡ length query.now.names }
    requires inside { Each (λ r. r < length cells.now.cells) roots.now }
    ensures { IfOk result (λ line. line.items ≡ answer_line atoms.now query.now.names (tuple_under (tree_at (trees cells.now.cells)) roots.now)) }
{
    let mut out = Vec::new(alloc);
    let mut numbers = Numbers::new(alloc);
    let mut is_first = true;
    for (i, name) in query.names().iter().enumerate() {
        if is_hidden(name) {
            continue;
        }
        if !is_first {
            out.extend_from_slice(b", ")?;
        }
        is_first = false;
        write_equation(alloc, &mut out, &mut numbers, cells, atoms, name, roots[i])?;
    }
    if is_first {
        out.extend_from_slice(b"true")?;
    }
    Ok(out)
}
