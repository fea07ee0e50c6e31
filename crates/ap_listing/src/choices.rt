//! A predicate's clauses by what they ask of the first argument.

ghost use Rattle.std.specs.Prelude.{◌≡◌, ℕ, List, [], ◌∷◌, ◌++◌, map, None, Some, IfOk, OnOk};
ghost use Rattle.ap_index.specs.Keys.{key_at};
ghost use Rattle.ap_instr.specs.Code.{Compiled};
ghost use Rattle.ap_listing.specs.Grouped.{group_of, with_clause, IsGrouped};

use crate::lookup::{Asked, asked_of};
use ap_index::{Key, key_at};
use ap_instr::Code;
use ap_term::NoMemory;
use indexmap::IndexSet;
use std::alloc::Global;

/// The clauses that a call with a key is to try: those that ask for it, and those that ask for none, in order.
#[derive(Drop)]
pub(crate) struct Group {
    pub(crate) key: Key,
    pub(crate) clauses: Vec<u32>,
}

/// Groups for the keys that clauses ask for, in the order in which they are first asked for, and the clauses that ask for none.
#[derive(Drop)]
pub(crate) struct Choices {
    numbers: IndexSet<Asked>,
    pub(crate) groups: Vec<Group>,
    pub(crate) others: Vec<u32>,
}

/// One more clause for each key.
fn push_to_each(groups: &mut Vec<Group>, clause: u32) -> Result<(), NoMemory>
    ensures { OnOk result (map group_of groups.new.items ≡ map (with_clause clause) (map group_of groups.old.items)) }
{
    for number in 0..groups.len() {
        groups[number].clauses.push(clause)?;
    }
    Ok(())
}

impl Choices {
    fn new(alloc: Global) -> Choices
        ensures { (code : Compiled) → IsGrouped code [] result }
    {
        Choices {
            numbers: IndexSet::new(alloc),
            groups: Vec::new(alloc),
            others: Vec::new(alloc),
        }
    }

    /// One more clause, which asks for a key.
    fn add_keyed(&mut self, alloc: Global, key: Key, clause: u32) -> Result<(), NoMemory>
        ensures { OnOk result ((code : Compiled) (ls : List ℕ) → key_at code clause ≡ Some key → IsGrouped code ls self.old → IsGrouped code (ls ++ clause ∷ []) self.new) }
    {
        let (number, _) = self.numbers.insert_full(asked_of(key))?;
        if number < self.groups.len() {
            self.groups[number].clauses.push(clause)?;
            return Ok(());
        }
        let mut clauses = Vec::from_slice(alloc, self.others.as_slice())?;
        clauses.push(clause)?;
        self.groups.push(Group { key, clauses })?;
        Ok(())
    }

    /// One more clause, which asks for no key.
    fn add_open(&mut self, clause: u32) -> Result<(), NoMemory>
        ensures { OnOk result ((code : Compiled) (ls : List ℕ) → key_at code clause ≡ None → IsGrouped code ls self.old → IsGrouped code (ls ++ clause ∷ []) self.new) }
    {
        push_to_each(&mut self.groups, clause)?;
        self.others.push(clause)?;
        Ok(())
    }
}

/// The clauses at some places by their keys.
pub(crate) fn choices_of(alloc: Global, code: &Code, places: &[u32]) -> Result<Choices, NoMemory>
    ensures { IfOk result (λ choices. IsGrouped code.now places.now choices) }
{
    let mut choices = Choices::new(alloc);
    for clause in places {
        match key_at(code, *clause as usize) {
            Some(key) => choices.add_keyed(alloc, key, *clause)?,
            None => choices.add_open(*clause)?,
        }
    }
    Ok(choices)
}
