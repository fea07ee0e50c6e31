//! What is left of a predicate's clauses for keys of two arguments: of the first one, and of another one that each of its clauses asks.

ghost use Rattle.std.specs.Prelude.{◌≡◌, ℕ, ◌+◌, ◌<◌, ◌≤◌, ◌==◌, if◌then◌else◌, List, [], ◌∷◌, Some, true, IfOk, IfSome};
ghost use Rattle.std.specs.List.{AllByRecursion};
ghost use Rattle.ap_term.specs.Tree.{Tree};
ghost use Rattle.ap_instr.specs.Code.{Compiled};
ghost use Rattle.ap_index.specs.declared.key.Key.{Key};
ghost use Rattle.ap_index.specs.Hashing.{pair_slot};
ghost use Rattle.ap_index.specs.Heads.{IsMet};
ghost use Rattle.ap_index.specs.Index.{tried_from, named_from};
ghost use Rattle.ap_index.specs.Pairs.{pair_for, pair_before, ArePairsOf};

use crate::choice::{asked_from, named_at};
use crate::hashing::{Hashed, pair_slot};
use crate::head::{Ask, head_at};
use crate::key::Key;
use crate::row::{NONE, Pair, Pairs};
use crate::rows::is_behind_try;
use ap_instr::Code;
use ap_term::NoMemory;
use std::alloc::Global;

/// So many slots are there for each clause, so that most have none.
const SLOTS_EACH: u32 = 8;

/// The key that is asked of an argument, if one is.
fn asked_of(asks: &[Ask], argument: u32) -> Option<Key>
    ensures { IfSome result (λ key. (x : ℕ → Tree) → AllByRecursion (IsMet x) asks.now → IsMet x (record { argument = argument; key = key })) }
{
    for ask in asks {
        if ask.argument == argument {
            return Some(ask.key);
        }
    }
    None
}

impl Pairs {
    /// Tells nothing.
    pub(crate) fn none(alloc: Global) -> Pairs
        ensures { (code : Compiled) (ls : List ℕ) → ArePairsOf code ls result }
    {
        Pairs {
            slots: Vec::new(alloc),
            argument: 0,
            count: 0,
        }
    }

    /// Of no clauses yet, with room for some.
    fn new(alloc: Global, argument: u32, clauses: u32) -> Result<Pairs, NoMemory>
        ensures { IfOk result (λ pairs. (code : Compiled) → ArePairsOf code [] pairs) }
    {
        let count = clauses.saturating_mul(SLOTS_EACH);
        Ok(Pairs {
            slots: Vec::from_elem(alloc, Pair::Never, count as usize)?,
            argument,
            count,
        })
    }

    /// The other argument, 0 where nothing is told.
    #[inline(always)]
    pub fn argument(&self) -> u32
        ensures { result ≡ self.now.argument }
    {
        self.argument
    }

    /// What is left for two keys.
    #[inline(always)]
    pub fn told(&self, one: Hashed, two: Hashed) -> Pair
        ensures { result ≡ pair_for self.now one.key two.key }
    {
        match self.slots.get(pair_slot(one, two, self.count)) {
            Some(pair) => *pair,
            None => Pair::Open,
        }
    }

    /// The clause at a place asks for two keys, and comes before the others.
    fn put(&mut self, one: Key, two: Key, clause: u32)
        ensures argument { self.new.argument ≡ self.old.argument }
        ensures told { (j k : Key) → pair_for self.new j k ≡ (if pair_slot j k self.old.count == pair_slot one two self.old.count then pair_before clause (pair_for self.old j k) else pair_for self.old j k) }
    {
        let slot = pair_slot(Hashed::new(one), Hashed::new(two), self.count);
        if slot < self.slots.len() {
            self.slots[slot] = match self.slots[slot] {
                Pair::Never => Pair::Only(clause),
                _ => Pair::Open,
            };
        }
    }

    /// The clause at a place comes before the others, if it asks for two keys.
    fn add(&mut self, alloc: Global, code: &Code, clause: u32) -> Result<bool, NoMemory>
        ensures { IfOk result (λ added. added ≡ true → (ls : List ℕ) → ArePairsOf code.now ls self.old → ArePairsOf code.now (clause ∷ ls) self.new) }
    {
        if clause as usize >= code.instructions().len() {
            return Ok(false);
        }
        let head = head_at(alloc, code, clause as usize)?;
        let Some(one) = asked_of(head.asks(), 1) else {
            return Ok(false);
        };
        let Some(two) = asked_of(head.asks(), self.argument) else {
            return Ok(false);
        };
        self.put(one, two, clause);
        Ok(true)
    }

    /// The clause that the choice at a place names comes before those that choices from another one on name, if it asks for two keys.
    fn add_at(
        &mut self,
        alloc: Global,
        code: &Code,
        at: u32,
        behind: Option<usize>,
    ) -> Result<bool, NoMemory>
        ensures { IfOk result (λ added. added ≡ true → ArePairsOf code.now (tried_from code.now behind) self.old → ArePairsOf code.now (named_from code.now (Some at)) self.new) }
    {
        match named_at(code, at) {
            Some(named) if named.behind == behind => self.add(alloc, code, named.place),
            _ => Ok(false),
        }
    }
}

/// What is left of the clauses that the choices between two places name, where these are all.
pub(crate) fn pairs_of(alloc: Global, code: &Code, start: u32, end: u32) -> Result<Pairs, NoMemory>
    requires order { start ≤ end }
    requires below { end < NONE }
    ensures { IfOk result (λ pairs. ArePairsOf code.now (named_from code.now (Some start)) pairs) }
{
    let argument = asked_from(code, start, false);
    if argument == 0 {
        return Ok(Pairs::none(alloc));
    }
    let mut pairs = Pairs::new(alloc, argument, end - start + 1)?;
    let mut behind = None;
    for at in (start + 1..end + 1).rev() {
        if !is_behind_try(code, at) || !pairs.add_at(alloc, code, at, behind)? {
            return Ok(Pairs::none(alloc));
        }
        behind = Some(at as usize);
    }
    if pairs.add_at(alloc, code, start, behind)? {
        return Ok(pairs);
    }
    Ok(Pairs::none(alloc))
}
