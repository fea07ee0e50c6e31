//! The line of an answer.

ghost use Rattle.std.specs.Prelude.{◌≡◌, ◌++◌, ℕ, List, OnOk, IfOk, length};
ghost use Rattle.ap_term.specs.TermView.{tree_of, trees_of};
ghost use Rattle.ap_term.specs.Vars.{add_vars};
ghost use Rattle.ap_term.specs.Substitution.{instance};
ghost use Rattle.ap_term.specs.Blocks.{IsPrefix};
ghost use Rattle.ap_writer.specs.Text.{numbered_by};
ghost use Rattle.ap_writer.specs.Line.{is_hidden, equation, answer_line};

use crate::numbers::Numbers;
use crate::text::write_term;
use ap_term::{Atoms, Name, NoMemory, Query, Term};
use std::alloc::Global;

/// Whether a variable's name begins with `_`.
fn is_hidden(name: &Name) -> bool
    ensures { result ≡ is_hidden name.now }
{
    match name.as_str().as_bytes() {
        [b'_', ..] => true,
        _ => false,
    }
}

fn write_equation(
    alloc: Global,
    out: &mut Vec<u8>,
    numbers: &mut Numbers,
    atoms: &Atoms,
    name: &Name,
    t: &Term,
) -> Result<(), NoMemory>
    ensures text { OnOk result ((found : List ℕ) → IsPrefix numbers.new found → out.new.items ≡ out.old.items ++ equation atoms.now name.now (instance (numbered_by found) (tree_of t.now))) }
    ensures variables { OnOk result (numbers.new ≡ add_vars (tree_of t.now) numbers.old) }
{
    out.extend_from_slice(name.as_str().as_bytes())?;
    out.extend_from_slice(b" = ")?;
    write_term(alloc, out, numbers, atoms, t)?;
    Ok(())
}

/// `Name = term` for each variable of the query whose name doesn't begin with `_`, parted by a comma and a blank, and
/// `true` where there is none. No line feed. Variables are `_1`, `_2`, .. by first occurrence in the line.
pub fn answer_line(
    alloc: Global,
    query: &Query,
    tuple: &[Term],
    atoms: &Atoms,
) -> Result<Vec<u8>, NoMemory>
    requires { length tuple.now ≡ length query.now.names }
    ensures { IfOk result (λ line. line.items ≡ answer_line atoms.now query.now.names (trees_of tuple.now)) }
{
    let mut out = Vec::new(alloc);
    let mut numbers = Numbers::new(alloc);
    let mut is_first = true;
    for (i, name) in query.names().iter().enumerate() {
        if is_hidden(name) {
            continue;
        }
        if !is_first {
            out.extend_from_slice(b", ")?;
        }
        is_first = false;
        write_equation(alloc, &mut out, &mut numbers, atoms, name, &tuple[i])?;
    }
    if is_first {
        out.extend_from_slice(b"true")?;
    }
    Ok(out)
}
