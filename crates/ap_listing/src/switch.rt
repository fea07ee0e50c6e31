//! Where a predicate's switch leads, and the chains of clauses that stand behind the predicate's own instructions.

ghost use Rattle.std.specs.Prelude.{◌≡◌, ◌+◌, ◌++◌, map, length, IfOk};
ghost use Rattle.std.specs.List.{list_any};
ghost use Rattle.ap_listing.specs.Switch.{is_constant, is_cell, is_functor, rest_of, chain_of, place_for, entries, chains, lines_of, open_clauses, table_of, table_at, table};
ghost use Rattle.ap_listing.specs.Grouped.{group_of};
ghost use Rattle.ap_listing.specs.Held.{table_in, table_if};

use crate::choices::{Choices, Group, choices_of};
use crate::clauses::clause_places;
use ap_index::{Key, key_at};
use ap_instr::{Code, Instr, Predicate};
use ap_term::{Atom, Atoms, NoMemory};
use std::alloc::Global;

/// Of a predicate with a switch so many clauses may ask for no first argument, since each stands in the chain of each key.
const MOST_OPEN: usize = 32;

/// A place to which a switch leads: none, a clause by its place in the code, or a line of the predicate by its number.
#[derive(Clone, Copy)]
pub(crate) enum Place {
    Nowhere,
    Clause(u32),
    Line(u64),
}

/// A key and where it leads.
#[derive(Clone, Copy)]
pub(crate) struct Entry {
    pub(crate) key: Key,
    pub(crate) place: Place,
}

/// What a predicate's switch has: how many lines, of which one is for constants and one for structures where some key is such; where
/// each key leads, and all others; and the instructions behind those lines.
#[derive(Drop)]
pub(crate) struct Switch {
    pub(crate) has_constants: bool,
    pub(crate) has_structures: bool,
    pub(crate) entries: Vec<Entry>,
    pub(crate) others: Place,
    pub(crate) instructions: Vec<Instr>,
}

/// Whether a key is a constant or an integer.
pub(crate) fn is_constant(key: Key) -> bool
    ensures { result ≡ is_constant key }
{
    match key {
        Key::Atom(_) => true,
        Key::Integer(_) => true,
        Key::Structure(_, _) => false,
    }
}

/// Whether a key is a list's cell.
pub(crate) fn is_cell(atoms: &Atoms, key: Key) -> bool
    ensures { result ≡ is_cell atoms.now key }
{
    match key {
        Key::Structure(name, count) => match atoms.get(Atom::at(name)) {
            Some(text) => text.as_bytes() == b".".as_slice() && count == 2,
            None => false,
        },
        _ => false,
    }
}

/// Whether a key is a structure that is no list's cell.
pub(crate) fn is_functor(atoms: &Atoms, key: Key) -> bool
    ensures { result ≡ is_functor atoms.now key }
{
    !is_constant(key) && !is_cell(atoms, key)
}

fn has_constants(groups: &[Group]) -> bool
    ensures { result ≡ list_any (λ g. is_constant g.key) groups.now }
{
    for group in groups {
        if is_constant(group.key) {
            return true;
        }
    }
    false
}

fn has_structures(atoms: &Atoms, groups: &[Group]) -> bool
    ensures { result ≡ list_any (λ g. is_functor atoms.now g.key) groups.now }
{
    for group in groups {
        if is_functor(atoms, group.key) {
            return true;
        }
    }
    false
}

/// How many lines a switch has.
pub(crate) fn ahead_of(has_constants: bool, has_structures: bool) -> u8
    ensures { result ≡ lines_of has_constants has_structures }
{
    let mut lines = 1;
    if has_constants {
        lines += 1;
    }
    if has_structures {
        lines += 1;
    }
    lines
}

/// Puts in the clauses of a chain behind its `try`.
fn push_rest(instructions: &mut Vec<Instr>, second: u32, rest: &[u32]) -> Result<(), NoMemory>
    ensures { IfOk result (λ _. instructions.new.items ≡ instructions.old.items ++ rest_of second rest.now) }
{
    let mut held = second;
    for clause in rest {
        instructions.push(Instr::Retry(held))?;
        held = *clause;
    }
    instructions.push(Instr::Trust(held))?;
    Ok(())
}

/// Puts in the chain of some clauses, where they are two or more, behind instructions in front of which so many lines stand; and gives
/// the place that leads to the clauses.
fn push_chain(instructions: &mut Vec<Instr>, ahead: u8, clauses: &[u32]) -> Result<Place, NoMemory>
    ensures place { IfOk result (λ place. place ≡ place_for (ahead + length instructions.old.items) clauses.now) }
    ensures chain { IfOk result (λ _. instructions.new.items ≡ instructions.old.items ++ chain_of clauses.now) }
{
    match clauses {
        [] => Ok(Place::Nowhere),
        [clause] => Ok(Place::Clause(*clause)),
        [first, second, rest @ ..] => {
            let line = ahead as u64 + instructions.len() as u64;
            instructions.push(Instr::Try(*first))?;
            push_rest(instructions, *second, rest)?;
            Ok(Place::Line(line))
        }
    }
}

/// Puts in the chains of groups, and gives where their keys lead.
fn push_chains(
    alloc: Global,
    instructions: &mut Vec<Instr>,
    ahead: u8,
    groups: &[Group],
) -> Result<Vec<Entry>, NoMemory>
    ensures entries { IfOk result (λ es. es.items ≡ entries (ahead + length instructions.old.items) (map group_of groups.now)) }
    ensures chains { IfOk result (λ _. instructions.new.items ≡ instructions.old.items ++ chains (map group_of groups.now)) }
{
    let mut entries = Vec::new(alloc);
    for group in groups {
        let place = push_chain(instructions, ahead, group.clauses.as_slice())?;
        entries.push(Entry {
            key: group.key,
            place,
        })?;
    }
    Ok(entries)
}

/// The switch of a predicate, by the groups of its clauses.
fn switch_by(
    alloc: Global,
    atoms: &Atoms,
    own: &[Instr],
    choices: &Choices,
) -> Result<Switch, NoMemory>
    ensures { IfOk result (λ s. table_in s ≡ table_of choices.now.others.items (list_any (λ g. is_constant g.key) choices.now.groups.items) (list_any (λ g. is_functor atoms.now g.key) choices.now.groups.items) own.now (map group_of choices.now.groups.items)) }
{
    let groups = choices.groups.as_slice();
    let has_constants = has_constants(groups);
    let has_structures = has_structures(atoms, groups);
    let ahead = ahead_of(has_constants, has_structures);
    let mut instructions = Vec::from_slice(alloc, own)?;
    let entries = push_chains(alloc, &mut instructions, ahead, groups)?;
    let others = push_chain(&mut instructions, ahead, choices.others.as_slice())?;
    Ok(Switch {
        has_constants,
        has_structures,
        entries,
        others,
        instructions,
    })
}

/// Counts the clauses at some places that ask for no key.
fn open_count(code: &Code, places: &[u32]) -> usize
    ensures { result ≡ length (open_clauses code.now places.now) }
{
    let mut count = 0;
    for clause in places {
        if key_at(code, *clause as usize).is_none() {
            count += 1;
        }
    }
    count
}

/// The switch of a predicate whose clauses stand at some places, if it has two or more, and some head's first argument isn't a variable.
fn switch_at(
    alloc: Global,
    atoms: &Atoms,
    code: &Code,
    predicate: &Predicate,
    places: &[u32],
) -> Result<Option<Switch>, NoMemory>
    ensures { IfOk result (λ found. table_if found ≡ table_at atoms.now code.now predicate.now places.now) }
{
    if places.len() < 2 {
        return Ok(None);
    }
    let choices = choices_of(alloc, code, places)?;
    if choices.groups.is_empty() {
        return Ok(None);
    }
    let switch = switch_by(alloc, atoms, code.instructions_of(predicate), &choices)?;
    Ok(Some(switch))
}

/// The switch of a predicate, if it has one. Where many heads have a variable first it has none, so that a listing isn't much longer than its
/// code.
pub(crate) fn switch_of(
    alloc: Global,
    atoms: &Atoms,
    code: &Code,
    predicate: &Predicate,
) -> Result<Option<Switch>, NoMemory>
    ensures { IfOk result (λ found. table_if found ≡ table atoms.now code.now predicate.now) }
{
    let places = clause_places(alloc, code, predicate)?;
    if open_count(code, &places) > MOST_OPEN {
        return Ok(None);
    }
    switch_at(alloc, atoms, code, predicate, &places)
}
