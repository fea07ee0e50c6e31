//! Numbers kept by slots.

ghost use Rattle.std.specs.Prelude.{◌≡◌, ℕ, [], ◌∷◌, ◌++◌, if◌then◌else◌, OnOk};
ghost use Rattle.ap_patterns.specs.declared.slots.Slot.{Slot};
ghost use Rattle.ap_fixpoint.specs.Fix.{same_slot};
ghost use Rattle.ap_patterns.specs.Table.{key_of, is_key};
ghost use Rattle.ap_fixpoint.specs.Numbered.{numbers_at, numbers_of};

use ap_patterns::{KeyHasher, Predicate, Slot};
use ap_term::NoMemory;
use std::alloc::Global;
use std::collections::HashMap;

/// Numbers by a predicate's name and arity.
type Lists = HashMap<(u32, u64), Vec<usize>, KeyHasher>;

fn key_of(predicate: &Predicate) -> (u32, u64)
    ensures { result ≡ key_of predicate.now }
{
    (predicate.name.number(), predicate.arity)
}

/// One more number at a key. Those that are there are taken out and put back.
fn add_at(alloc: Global, lists: &mut Lists, key: (u32, u64), n: usize) -> Result<(), NoMemory>
    ensures { OnOk result ((k : ℕ × ℕ) → numbers_at lists.new k ≡ (if is_key key k then numbers_at lists.old k ++ n ∷ [] else numbers_at lists.old k)) }
{
    let mut own = match lists.remove(&key) {
        Some(held) => held,
        None => Vec::new(alloc),
    };
    own.push(n)?;
    lists.insert(key, own)?;
    Ok(())
}

/// The numbers at a key.
fn at(lists: &Lists, key: (u32, u64)) -> &[usize]
    ensures { result.now ≡ numbers_at lists.now key }
{
    match lists.get(&key) {
        Some(held) => held.as_slice(),
        None => &[],
    }
}

/// A list of numbers for each slot.
#[derive(Drop)]
pub struct Numbered {
    calls: Lists,
    answers: Lists,
}

impl Numbered {
    pub fn new(alloc: Global) -> Numbered
        ensures { (x : Slot) → numbers_of result x ≡ [] }
    {
        Numbered {
            calls: HashMap::with_hasher(alloc, KeyHasher::new()),
            answers: HashMap::with_hasher(alloc, KeyHasher::new()),
        }
    }

    /// Puts a number behind those of a slot.
    pub fn add(&mut self, alloc: Global, slot: Slot, n: usize) -> Result<(), NoMemory>
        ensures { OnOk result ((x : Slot) → numbers_of self.new x ≡ (if same_slot slot x then numbers_of self.old x ++ n ∷ [] else numbers_of self.old x)) }
    {
        match slot {
            Slot::Call(predicate) => add_at(alloc, &mut self.calls, key_of(&predicate), n),
            Slot::Success(predicate) => add_at(alloc, &mut self.answers, key_of(&predicate), n),
        }
    }

    /// The numbers of a slot.
    pub fn at(&self, slot: Slot) -> &[usize]
        ensures { result.now ≡ numbers_of self.now slot }
    {
        match slot {
            Slot::Call(predicate) => at(&self.calls, key_of(&predicate)),
            Slot::Success(predicate) => at(&self.answers, key_of(&predicate)),
        }
    }
}
