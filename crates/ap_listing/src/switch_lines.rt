//! The text of a switch.

ghost use Rattle.std.specs.Prelude.{◌≡◌, ◌++◌, [], if◌then◌else◌, OnOk};
ghost use Rattle.ap_listing.specs.Switch.{is_constant, is_functor, is_cell, first_place, lines_of, constants_place, structures_place, term_switch, constants_switch, structures_switch, switches};
ghost use Rattle.ap_listing.specs.Lines.{place_text, key_text, entry_text, switch_text, switches_text};
ghost use Rattle.ap_listing.specs.Held.{table_in, constants_text, functors_text};

use crate::switch::{Entry, Place, Switch, is_cell, is_constant, is_functor};
use crate::text::{Origin, line_number, push_atom, push_functor, push_integer_of, push_number};
use ap_index::Key;
use ap_term::{Atom, Atoms, NoMemory};
use std::alloc::Global;

/// A place, behind a blank.
fn push_place(out: &mut Vec<u8>, origin: Origin, place: Place) -> Result<(), NoMemory>
    ensures { OnOk result (out.new.items ≡ out.old.items ++ place_text origin place) }
{
    match place {
        Place::Nowhere => out.extend_from_slice(b" fail")?,
        Place::Clause(clause) => {
            out.extend_from_slice(b" @")?;
            push_number(out, line_number(origin, clause))?;
        }
        Place::Line(line) => {
            out.extend_from_slice(b" @")?;
            push_number(out, line)?;
        }
    }
    Ok(())
}

/// A key, behind a blank.
fn push_key(alloc: Global, out: &mut Vec<u8>, atoms: &Atoms, key: Key) -> Result<(), NoMemory>
    ensures { OnOk result (out.new.items ≡ out.old.items ++ key_text atoms.now key) }
{
    out.push(b' ')?;
    match key {
        Key::Atom(name) => push_atom(alloc, out, atoms, Atom::at(name)),
        Key::Integer(value) => push_integer_of(out, value),
        Key::Structure(name, count) => push_functor(alloc, out, atoms, Atom::at(name), count),
    }
}

fn push_entry(
    alloc: Global,
    out: &mut Vec<u8>,
    atoms: &Atoms,
    origin: Origin,
    entry: Entry,
) -> Result<(), NoMemory>
    ensures { OnOk result (out.new.items ≡ out.old.items ++ entry_text atoms.now origin entry) }
{
    push_key(alloc, out, atoms, entry.key)?;
    push_place(out, origin, entry.place)
}

/// An entry, if its key is a constant or an integer.
fn push_if_constant(
    alloc: Global,
    out: &mut Vec<u8>,
    atoms: &Atoms,
    origin: Origin,
    entry: Entry,
) -> Result<(), NoMemory>
    ensures { OnOk result (out.new.items ≡ out.old.items ++ (if is_constant entry.key then entry_text atoms.now origin entry else [])) }
{
    if is_constant(entry.key) {
        push_entry(alloc, out, atoms, origin, entry)
    } else {
        Ok(())
    }
}

/// An entry, if its key is a structure that is no list's cell.
fn push_if_functor(
    alloc: Global,
    out: &mut Vec<u8>,
    atoms: &Atoms,
    origin: Origin,
    entry: Entry,
) -> Result<(), NoMemory>
    ensures { OnOk result (out.new.items ≡ out.old.items ++ (if is_functor atoms.now entry.key then entry_text atoms.now origin entry else [])) }
{
    if is_functor(atoms, entry.key) {
        push_entry(alloc, out, atoms, origin, entry)
    } else {
        Ok(())
    }
}

/// The entries of constants and integers.
fn push_constants(
    alloc: Global,
    out: &mut Vec<u8>,
    atoms: &Atoms,
    origin: Origin,
    entries: &[Entry],
) -> Result<(), NoMemory>
    ensures { OnOk result (out.new.items ≡ out.old.items ++ constants_text atoms.now origin entries.now) }
{
    for entry in entries {
        push_if_constant(alloc, out, atoms, origin, *entry)?;
    }
    Ok(())
}

/// The entries of structures that are no list's cells.
fn push_functors(
    alloc: Global,
    out: &mut Vec<u8>,
    atoms: &Atoms,
    origin: Origin,
    entries: &[Entry],
) -> Result<(), NoMemory>
    ensures { OnOk result (out.new.items ≡ out.old.items ++ functors_text atoms.now origin entries.now) }
{
    for entry in entries {
        push_if_functor(alloc, out, atoms, origin, *entry)?;
    }
    Ok(())
}

/// Where a list's cell leads.
fn cell_place(atoms: &Atoms, entries: &[Entry], others: Place) -> Place
    ensures { result ≡ first_place (is_cell atoms.now) entries.now others }
{
    for entry in entries {
        if is_cell(atoms, entry.key) {
            return entry.place;
        }
    }
    others
}

/// Where a constant or an integer leads: to the line for those, or to where all others lead.
fn constants_place(switch: &Switch) -> Place
    ensures { result ≡ constants_place (table_in switch.now) }
{
    if switch.has_constants {
        Place::Line(1)
    } else {
        switch.others
    }
}

/// Where a structure leads that is no list's cell.
fn structures_place(switch: &Switch) -> Place
    ensures { result ≡ structures_place (table_in switch.now) }
{
    if !switch.has_structures {
        return switch.others;
    }
    if switch.has_constants {
        Place::Line(2)
    } else {
        Place::Line(1)
    }
}

/// The first line: where a variable leads, a constant or an integer, a list's cell, and another structure.
fn push_on_term(
    out: &mut Vec<u8>,
    atoms: &Atoms,
    origin: Origin,
    switch: &Switch,
) -> Result<(), NoMemory>
    requires { origin.line ≡ lines_of switch.now.has_constants switch.now.has_structures }
    ensures { OnOk result (out.new.items ≡ out.old.items ++ switch_text atoms.now origin (term_switch atoms.now (table_in switch.now))) }
{
    let cells = cell_place(atoms, switch.entries.as_slice(), switch.others);
    out.extend_from_slice(b"  switch_on_term")?;
    push_place(out, origin, Place::Line(origin.line as u64))?;
    push_place(out, origin, constants_place(switch))?;
    push_place(out, origin, cells)?;
    push_place(out, origin, structures_place(switch))?;
    out.push(b'\n')?;
    Ok(())
}

/// The line for constants and integers.
fn push_constant_line(
    alloc: Global,
    out: &mut Vec<u8>,
    atoms: &Atoms,
    origin: Origin,
    switch: &Switch,
) -> Result<(), NoMemory>
    ensures { OnOk result (out.new.items ≡ out.old.items ++ switch_text atoms.now origin (constants_switch (table_in switch.now))) }
{
    out.extend_from_slice(b"  switch_on_constant")?;
    push_constants(alloc, out, atoms, origin, switch.entries.as_slice())?;
    push_place(out, origin, switch.others)?;
    out.push(b'\n')?;
    Ok(())
}

/// That line, if there is one.
fn push_on_constant(
    alloc: Global,
    out: &mut Vec<u8>,
    atoms: &Atoms,
    origin: Origin,
    switch: &Switch,
) -> Result<(), NoMemory>
    ensures { OnOk result (out.new.items ≡ out.old.items ++ (if switch.now.has_constants then switch_text atoms.now origin (constants_switch (table_in switch.now)) else [])) }
{
    if switch.has_constants {
        push_constant_line(alloc, out, atoms, origin, switch)
    } else {
        Ok(())
    }
}

/// The line for structures.
fn push_structure_line(
    alloc: Global,
    out: &mut Vec<u8>,
    atoms: &Atoms,
    origin: Origin,
    switch: &Switch,
) -> Result<(), NoMemory>
    ensures { OnOk result (out.new.items ≡ out.old.items ++ switch_text atoms.now origin (structures_switch atoms.now (table_in switch.now))) }
{
    out.extend_from_slice(b"  switch_on_structure")?;
    push_functors(alloc, out, atoms, origin, switch.entries.as_slice())?;
    push_place(out, origin, switch.others)?;
    out.push(b'\n')?;
    Ok(())
}

/// That line, if there is one.
fn push_on_structure(
    alloc: Global,
    out: &mut Vec<u8>,
    atoms: &Atoms,
    origin: Origin,
    switch: &Switch,
) -> Result<(), NoMemory>
    ensures { OnOk result (out.new.items ≡ out.old.items ++ (if switch.now.has_structures then switch_text atoms.now origin (structures_switch atoms.now (table_in switch.now)) else [])) }
{
    if switch.has_structures {
        push_structure_line(alloc, out, atoms, origin, switch)
    } else {
        Ok(())
    }
}

/// The lines of a switch.
pub(crate) fn push_switch(
    alloc: Global,
    out: &mut Vec<u8>,
    atoms: &Atoms,
    origin: Origin,
    switch: &Switch,
) -> Result<(), NoMemory>
    requires { origin.line ≡ lines_of switch.now.has_constants switch.now.has_structures }
    ensures { OnOk result (out.new.items ≡ out.old.items ++ switches_text atoms.now origin (switches atoms.now (table_in switch.now))) }
{
    push_on_term(out, atoms, origin, switch)?;
    push_on_constant(alloc, out, atoms, origin, switch)?;
    push_on_structure(alloc, out, atoms, origin, switch)?;
    Ok(())
}
