//! The names of lifted predicates: `lift_1`, `lift_2` and so on, but for those that a table holds.

ghost use Rattle.std.specs.Prelude.{◌≡◌, ◌+◌, ◌≤◌, ◌<◌, ◌++◌, ◌∷◌, [], ℕ, List, IfOk, length, string_bytes, slice_get, Some, false, true, map};
ghost use Rattle.ap_lexer.specs.Lexeme.{Text};
ghost use Rattle.ap_term.specs.AtomTable.{is_held, capacity};
ghost use Rattle.ap_clause.specs.Fresh as spec;
ghost use Rattle.ap_clause.specs.FreshCode.{Inserted, Found, Named};

use ap_term::{Atom, Atoms, NoMemory};
use std::alloc::Global;

fn lift_name(alloc: Global, number: u64) -> Result<String, NoMemory>
    ensures { IfOk result (λ name. string_bytes name ≡ spec.lift_name number) }
{
    let name = format!(in alloc; "lift_{number}")?;
    Ok(name)
}

/// The atom of a name that the table doesn't hold yet; it goes behind the others.
fn insert_new(alloc: Global, name: &str, atoms: &mut Atoms) -> Result<Option<Atom>, NoMemory>
    requires { length atoms.old < capacity }
    ensures { Inserted name.now atoms.old atoms.new result }
{
    let mark = atoms.mark();
    let Ok(found) = atoms.intern(alloc, name) else {
        return Err(NoMemory);
    };
    atoms.cut_to(mark);
    if atoms.get(found).is_some() {
        return Ok(None);
    }
    match atoms.intern(alloc, name) {
        Ok(atom) => Ok(Some(atom)),
        Err(_) => Err(NoMemory),
    }
}

/// The next number whose name is new, with its atom.
fn next_name(alloc: Global, from: u64, atoms: &mut Atoms) -> Result<(u64, Atom), NoMemory>
    requires { length atoms.old < capacity }
    ensures { Found from atoms.old atoms.new result }
{
    for number in from..u64::MAX {
        let name = lift_name(alloc, number)?;
        if let Some(atom) = insert_new(alloc, name.as_str(), atoms)? {
            return Ok((number, atom));
        }
    }
    Err(NoMemory)
}

/// The atoms of so many lifted predicates; their names go behind the others.
pub(crate) fn fresh_names(
    alloc: Global,
    count: u64,
    atoms: &mut Atoms,
) -> Result<Vec<Atom>, NoMemory>
    requires { length atoms.old + count ≤ capacity }
    ensures { Named count atoms.old atoms.new result }
{
    let mut names = Vec::new(alloc);
    let mut from = 1;
    while (names.len() as u64) < count {
        let (number, name) = next_name(alloc, from, atoms)?;
        names.push(name)?;
        from = number.saturating_add(1);
    }
    Ok(names)
}
