//! Rows of choices: which choice comes first for a key, and which one next.

ghost use Rattle.std.specs.Prelude.{◌≡◌, ℕ, ◌+◌, ◌<◌, ◌≤◌, ◌==◌, ◌^◌, if◌then◌else◌, [], ◌∷◌, None, Some, true, IfOk, IfSome, OnOk, length, slice_get, get_or};
ghost use Rattle.std.specs.Option.{ForSome};
ghost use Rattle.ap_instr.specs.Code.{Compiled};
ghost use Rattle.ap_index.specs.declared.key.Key.{Key};
ghost use Rattle.ap_index.specs.declared.rows.Entry.TheVariants.{Nothing};
ghost use Rattle.ap_index.specs.Hashing.{slot_of};
ghost use Rattle.ap_index.specs.Index.{LeavesOthers, tried_from, first_for, only_for, only_before, place_or_none, in_slot, named_from, IsFilled, IsRowOf, IsRestOf, IsLinkOf, IsEntryOf, AreRowsOf};
ghost use Rattle.ap_index.specs.Pairs.{ArePairsOf};
ghost use Rattle.ap_index.specs.Within.{are_rows_within};

use crate::hashing::Hashed;
use crate::key::{Key, Keyed, instruction_at, keyed_by_retry, keyed_by_trust, keyed_by_try};
use crate::pairs::pairs_of;
use crate::row::{Link, NONE, Pairs, Row};
use crate::within::{are_links_within, are_rows_within};
use ap_instr::{Code, Instr};
use ap_term::NoMemory;
use std::alloc::Global;

/// Fewer choices than this in a row are gone over one by one.
const FEW: u32 = 2;

/// So many slots are there for each choice of a row, so that most have none or one.
const SLOTS_EACH: u32 = 4;

/// What is known at a place. Rows and links are kept by their numbers.
#[derive(Clone, Copy)]
pub enum Entry {
    Nothing,
    /// A predicate's choices begin there with a row.
    Begins(u32),
    /// A row goes on there, behind a clause that has no key.
    Rest(u32),
    /// A choice of a row stands before it.
    Behind(u32),
}

/// Rows of choices, each of a clause with a key, with the links between those.
#[derive(Drop)]
pub(crate) struct Rows {
    rows: Vec<Row>,
    links: Vec<Link>,
    entries: Vec<Entry>,
}

impl Row {
    /// Without choices yet, with room for some. The clause of the choice behind it is the only one, or `NONE`.
    fn new(alloc: Global, choices: u32, behind: Option<u32>, only: u32) -> Result<Row, NoMemory>
        requires some { 0 < choices }
        requires place { ForSome behind (λ at. at < NONE) }
        ensures first { IfOk result (λ row. (key : Key) → first_for row key ≡ behind) }
        ensures only { IfOk result (λ row. (key : Key) → only_for row key ≡ place_or_none only) }
    {
        let count = choices.saturating_mul(SLOTS_EACH);
        Ok(Row {
            slots: Vec::from_elem(alloc, behind.unwrap_or(NONE), count as usize)?,
            onlys: Vec::from_elem(alloc, only, count as usize)?,
            count,
            pairs: Pairs::none(alloc),
        })
    }

    /// What is told of two arguments.
    #[inline(always)]
    pub fn pairs(&self) -> &Pairs
        ensures { result.now ≡ self.now.pairs }
    {
        &self.pairs
    }

    /// What stands in a slot.
    #[inline(always)]
    fn at(&self, slot: usize) -> Option<u32>
        requires { slot < self.now.count }
        ensures { result ≡ in_slot self.now slot }
    {
        let place = self.slots[slot];
        if place == NONE { None } else { Some(place) }
    }

    /// The place of the first choice for a key.
    #[inline(always)]
    pub fn first(&self, key: Hashed) -> Option<usize>
        ensures { result ≡ first_for self.now key.key }
    {
        match self.at(key.slot(self.count)) {
            Some(place) => Some(place as usize),
            None => None,
        }
    }

    /// The clause that alone is left for a key, as far as that is known.
    #[inline(always)]
    pub fn only(&self, key: Hashed) -> Option<u32>
        ensures { result ≡ only_for self.now key.key }
    {
        let place = self.onlys[key.slot(self.count)];
        if place == NONE { None } else { Some(place) }
    }

    /// What comes behind a choice for a key.
    fn link(&self, key: Key) -> Link
        ensures count { result.count ≡ self.now.count }
        ensures slot { result.slot ≡ slot_of key self.now.count }
        ensures next { result.next ≡ first_for self.now key }
    {
        let slot = Hashed::new(key).slot(self.count);
        Link {
            slot: slot as u32,
            count: self.count,
            next: self.at(slot),
        }
    }

    /// A choice is first now for the keys of its key's slot, and its clause the only one, where none was there.
    fn put(&mut self, keyed: Keyed, place: u32)
        requires { place < NONE }
        ensures first { (k : Key) → first_for self.new k ≡ (if slot_of k self.old.count == slot_of keyed.key self.old.count then Some place else first_for self.old k) }
        ensures only { (k : Key) → only_for self.new k ≡ (if slot_of k self.old.count == slot_of keyed.key self.old.count then only_before (first_for self.old k) keyed.clause else only_for self.old k) }
        ensures pairs { self.new.pairs ≡ self.old.pairs }
    {
        let slot = Hashed::new(keyed.key).slot(self.count);
        self.onlys[slot] = match self.at(slot) {
            None => keyed.clause,
            Some(_) => NONE,
        };
        self.slots[slot] = place;
    }
}

impl Link {
    /// From a place behind a choice the next one for a key: clauses that are left out ask for another first argument.
    #[inline(always)]
    pub fn next(&self, key: Hashed, from: usize) -> Option<usize>
        ensures { (code : Compiled) → IsLinkOf code from self.now → LeavesOthers code key.key (tried_from code (Some from)) (tried_from code result) }
    {
        if key.slot(self.count) != self.slot as usize {
            return Some(from);
        }
        match self.next {
            Some(place) => Some(place as usize),
            None => None,
        }
    }
}

/// Has an entry for a place.
fn widen(entries: &mut Vec<Entry>, at: usize) -> Result<(), NoMemory>
    requires { at < 2 ^ 32 }
    ensures room { OnOk result (at < length entries.new.items) }
    ensures same { OnOk result ((q : ℕ) → get_or entries.new.items q Nothing ≡ get_or entries.old.items q Nothing) }
{
    if at >= entries.len() {
        entries.resize(at + 1, Entry::Nothing)?;
    }
    Ok(())
}

impl Rows {
    fn new(alloc: Global) -> Rows
        ensures { (code : Compiled) → AreRowsOf code result }
    {
        Rows {
            rows: Vec::new(alloc),
            links: Vec::new(alloc),
            entries: Vec::new(alloc),
        }
    }

    #[inline(always)]
    fn entry_at(&self, at: usize) -> Entry
        ensures { result ≡ get_or self.now.entries.items at Nothing }
    {
        match self.entries.get(at) {
            Some(entry) => *entry,
            None => Entry::Nothing,
        }
    }

    fn put(&mut self, at: u32, entry: Entry) -> Result<(), NoMemory>
        ensures { OnOk result ((code : Compiled) → AreRowsOf code self.old → IsEntryOf code self.old.rows.items self.old.links.items at entry → AreRowsOf code self.new) }
    {
        widen(&mut self.entries, at as usize)?;
        self.entries[at as usize] = entry;
        Ok(())
    }

    /// The number of one more row, if there is one for it.
    fn push_row(&mut self, row: Row) -> Result<Option<u32>, NoMemory>
        ensures same { OnOk result ((code : Compiled) → AreRowsOf code self.old → AreRowsOf code self.new) }
        ensures held { IfOk result (λ number. IfSome number (λ n. slice_get self.new.rows.items n ≡ Some row)) }
    {
        let Ok(number) = u32::try_from(self.rows.len()) else {
            return Ok(None);
        };
        self.rows.push(row)?;
        Ok(Some(number))
    }

    fn put_first(&mut self, start: u32, row: Row) -> Result<(), NoMemory>
        ensures { OnOk result ((code : Compiled) → AreRowsOf code self.old → IsRowOf code start row → AreRowsOf code self.new) }
    {
        match self.push_row(row)? {
            Some(number) => self.put(start, Entry::Begins(number)),
            None => Ok(()),
        }
    }

    fn put_rest(&mut self, from: u32, row: Row) -> Result<(), NoMemory>
        ensures { OnOk result ((code : Compiled) → AreRowsOf code self.old → IsRestOf code from row → AreRowsOf code self.new) }
    {
        match self.push_row(row)? {
            Some(number) => self.put(from, Entry::Rest(number)),
            None => Ok(()),
        }
    }

    fn put_link(&mut self, from: u32, link: Link) -> Result<(), NoMemory>
        ensures { OnOk result ((code : Compiled) → AreRowsOf code self.old → IsLinkOf code from link → AreRowsOf code self.new) }
    {
        let Ok(number) = u32::try_from(self.links.len()) else {
            return Ok(());
        };
        self.links.push(link)?;
        self.put(from, Entry::Behind(number))
    }

    /// Puts in the choices with keys from a place to before another one, unless they are few.
    fn add(&mut self, alloc: Global, code: &Code, start: u32, end: u32) -> Result<(), NoMemory>
        requires order { start ≤ end }
        requires below { end < NONE }
        requires are_rows { AreRowsOf code.now self.old }
        ensures { OnOk result (AreRowsOf code.now self.new) }
    {
        if end - start + 1 < FEW {
            return Ok(());
        }
        let Some(mut row) = end_of_row(alloc, code, end - start + 1, end)? else {
            return Ok(());
        };
        for at in (start + 1..end).rev() {
            let Some(keyed) = keyed_by_retry(code, at as usize) else {
                return Ok(());
            };
            self.put_link(at + 1, row.link(keyed.key))?;
            row.put(keyed, at);
        }
        row.pairs = pairs_of(alloc, code, start, end)?;
        self.add_first(code, start, row)
    }

    /// Puts in the first choice of a row, and the row.
    fn add_first(&mut self, code: &Code, start: u32, mut row: Row) -> Result<(), NoMemory>
        requires below { start < NONE }
        requires filled { IsFilled code.now (start + 1) row }
        requires pairs { ArePairsOf code.now (named_from code.now (Some start)) row.pairs }
        requires are_rows { AreRowsOf code.now self.old }
        ensures { OnOk result (AreRowsOf code.now self.new) }
    {
        if let Some(first) = keyed_by_try(code, start as usize) {
            self.put_link(start + 1, row.link(first.key))?;
            row.put(first, start);
            return self.put_first(start, row);
        }
        if let Some(keyed) = keyed_by_retry(code, start as usize) {
            self.put_link(start + 1, row.link(keyed.key))?;
            row.put(keyed, start);
            return self.put_rest(start, row);
        }
        Ok(())
    }

    /// Whether all lead to places before one alone.
    pub fn are_within(&self, places: usize) -> bool
        ensures { result ≡ are_rows_within places self.now }
    {
        self.entries.len() <= places
            && are_rows_within(self.rows.as_slice(), places)
            && are_links_within(self.links.as_slice(), places)
    }

    /// The row of choices that begins at a place.
    #[inline]
    pub fn row(&self, start: usize) -> Option<&Row>
        ensures { IfSome result (λ row. (code : Compiled) → AreRowsOf code self.now → IsRowOf code start row.now) }
    {
        match self.entry_at(start) {
            Entry::Begins(number) => self.rows.get(number as usize),
            _ => None,
        }
    }

    /// The row that goes on at a place, behind a clause that has no key.
    #[inline]
    pub fn rest(&self, from: usize) -> Option<&Row>
        ensures { IfSome result (λ row. (code : Compiled) → AreRowsOf code self.now → IsRestOf code from row.now) }
    {
        match self.entry_at(from) {
            Entry::Rest(number) => self.rows.get(number as usize),
            _ => None,
        }
    }

    /// What is known behind a choice of a row.
    #[inline]
    pub fn link(&self, from: usize) -> Option<Link>
        ensures { IfSome result (λ link. (code : Compiled) → AreRowsOf code self.now → IsLinkOf code from link) }
    {
        match self.entry_at(from) {
            Entry::Behind(number) => self.links.get(number as usize).copied(),
            _ => None,
        }
    }
}

/// Whether a choice other than a `try` stands at a place.
pub(crate) fn is_behind_try(code: &Code, at: u32) -> bool
    ensures { result ≡ true → named_from code.now (Some at) ≡ tried_from code.now (Some at) }
{
    match instruction_at(code, at as usize) {
        Some(Instr::Retry(_)) => true,
        Some(Instr::Trust(_)) => true,
        _ => false,
    }
}

/// The clause that a `trust` at a place names; `NONE` where none stands there.
fn last_clause(code: &Code, at: u32) -> u32
    ensures { (one : ℕ) → place_or_none result ≡ Some one → tried_from code.now (Some at) ≡ one ∷ [] }
{
    match instruction_at(code, at as usize) {
        Some(Instr::Trust(clause)) => clause,
        _ => NONE,
    }
}

/// A row before the choices in front of a place are put in: with the one there, if that is a `trust` of a clause with a key,
/// else with the one there behind it.
fn end_of_row(alloc: Global, code: &Code, choices: u32, at: u32) -> Result<Option<Row>, NoMemory>
    requires some { 0 < choices }
    requires below { at < NONE }
    ensures { IfOk result (λ r. IfSome r (λ row. IsFilled code.now at row)) }
{
    if let Some(last) = keyed_by_trust(code, at as usize) {
        let mut row = Row::new(alloc, choices, None, NONE)?;
        row.put(last, at);
        return Ok(Some(row));
    }
    if !is_behind_try(code, at) {
        return Ok(None);
    }
    let row = Row::new(alloc, choices, Some(at), last_clause(code, at))?;
    Ok(Some(row))
}

/// Whether a choice of a clause with a key stands at a place, and another choice has to come.
fn goes_on(code: &Code, at: u32) -> bool {
    keyed_by_try(code, at as usize).is_some() || keyed_by_retry(code, at as usize).is_some()
}

/// The rows of code's choices at so many places. Choices that are few aren't in them.
pub(crate) fn rows_of(alloc: Global, code: &Code, places: u32) -> Result<Rows, NoMemory>
    ensures { IfOk result (λ rows. AreRowsOf code.now rows) }
{
    let mut rows = Rows::new(alloc);
    let mut start = 0;
    for at in 0..places {
        if !goes_on(code, at) {
            rows.add(alloc, code, start, at)?;
            start = at + 1;
        }
    }
    Ok(rows)
}
