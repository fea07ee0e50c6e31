//! What goals call, each once, in the order in which it came up.

ghost use Rattle.std.specs.Prelude.{◌≡◌, ℕ, true, [], Some, slice_get, IfOk, IfSome, OnOk};
ghost use Rattle.std.specs.List.{IsDistinct};
ghost use Rattle.indexmap.specs.IndexMap.{get};
ghost use Rattle.ap_term.specs.Tree.{Tree};
ghost use Rattle.ap_term.specs.Goals.{Program as Clauses};
ghost use Rattle.ap_reach.specs.Reached.{Key, is_key, is_called, is_beside, is_near, AreNear, key_of, place_of, answers, is_among, Extends, ArePlaced};
ghost use Rattle.ap_reach.specs.Index.{IsPlacedIn};

use ap_term::NoMemory;
use indexmap::{IndexMap, IndexSet};
use std::alloc::Global;
use std::hash::{Hash, Hasher};
use std::marker::Model;

/// Constants at so many places, from the first on, tell a predicate's clauses apart. At more places they would take more memory than a
/// program of long facts itself.
pub(crate) const PLACES: usize = 8;

/// The clauses that a goal can call: by the name and arity of a predicate, all of them, or those with a constant as the argument at a
/// place, which is counted from 0.
#[derive(Clone, Copy, Debug, PartialEq, Eq)]
pub enum Called {
    All(u32, usize),
    Atom(u32, usize, usize, u32),
    Integer(u32, usize, usize, i64),
}

impl Called {
    ghost use Rattle.ap_reach.specs.declared.called.Called.TheVariants.{Integer};

    /// The clauses for an integer.
    pub fn integer(name: u32, arity: usize, place: usize, z: i64) -> Called
        ensures { result ≡ Integer name arity place z }
    {
        Called::Integer(name, arity, place, z)
    }
}

/// Few writes are made of what is called, since it is looked up for each argument of each clause.
impl Hash for Called {
    ghost use Rattle.ap_reach.specs.Hashed.{hashed, alike};

    ghost hash_input = { hashed };

    ghost respects_eq = { alike };

    fn hash<H: Hasher>(&self, state: &mut H) {
        match *self {
            Called::All(name, _) => state.write_u32(name),
            Called::Atom(name, _, place, a) => {
                state.write_u64(u64::from(name) * 4_294_967_296 + u64::from(a));
                state.write_usize(place);
            }
            Called::Integer(name, _, place, z) => {
                state.write_i64(z);
                state.write_u64(
                    u64::from(name) * 4_294_967_296 + (place as u64).min(4_294_967_295),
                );
            }
        }
    }
}

/// The place of the constants for which clauses of a predicate are called.
type Places = IndexMap<(u32, usize), usize>;

/// What is called where clauses for a constant are asked for: these, or all of the predicate where others are called for a constant
/// at another place, since some could be there twice.
fn place_constant(
    places: &mut Places,
    name: u32,
    arity: usize,
    place: usize,
    call: Called,
) -> Result<Called, NoMemory>
    requires key { key_of call ≡ (name, arity) }
    requires place { place_of call ≡ Some place }
    ensures kept { (k : Key) (i : ℕ) → get is_key places.old k ≡ Some i → get is_key places.new k ≡ Some i }
    ensures placed { IfOk result (λ r. IsPlacedIn places.new r) }
    ensures answers { IfOk result (λ r. (p : Clauses) (t : Tree) → answers p call t ≡ true → answers p r t ≡ true) }
    ensures near { IfOk result (λ r. is_near call ≡ true → is_near r ≡ true) }
{
    match places.get(&(name, arity)) {
        Some(held) => {
            if *held == place {
                Ok(call)
            } else {
                Ok(Called::All(name, arity))
            }
        }
        None => {
            places.insert((name, arity), place)?;
            Ok(call)
        }
    }
}

/// What is called for this, so that each predicate has constants at one place.
fn place_call(places: &mut Places, call: Called) -> Result<Called, NoMemory>
    ensures kept { (k : Key) (i : ℕ) → get is_key places.old k ≡ Some i → get is_key places.new k ≡ Some i }
    ensures placed { IfOk result (λ r. IsPlacedIn places.new r) }
    ensures answers { IfOk result (λ r. (p : Clauses) (t : Tree) → answers p call t ≡ true → answers p r t ≡ true) }
    ensures near { IfOk result (λ r. is_near call ≡ true → is_near r ≡ true) }
{
    match call {
        Called::All(_, _) => Ok(call),
        Called::Atom(name, arity, place, _) => place_constant(places, name, arity, place, call),
        Called::Integer(name, arity, place, _) => place_constant(places, name, arity, place, call),
    }
}

/// Whether two lists of what is called are equal.
fn are_same(left: &[Called], right: &[Called]) -> bool
    ensures { result ≡ true → left.now ≡ right.now }
{
    if left.len() != right.len() {
        return false;
    }
    for place in 0..left.len() {
        if left[place] != right[place] {
            return false;
        }
    }
    true
}

/// What is called, each at its number. All constants of a predicate are at one place.
#[derive(Drop)]
pub struct Calls {
    calls: IndexSet<Called>,
    places: Places,
}

impl Model for Calls {
    ghost use Rattle.std.specs.Prelude.{List};
    ghost use Rattle.ap_reach.specs.declared.called.Called.{Called};
    ghost use Rattle.ap_reach.specs.Index.{ArePlacedIn};
    ghost use Rattle.ap_reach.specs.Reached.{AreNear};

    ghost Value = { List Called };

    ghost view = { λ a. a.calls.keys };

    ghost invariant = { λ a. ArePlacedIn a.places a.calls.keys × AreNear a.calls.keys };
}

impl Calls {
    pub fn new(alloc: Global) -> Calls
        ensures { result ≡ [] }
    {
        Calls {
            calls: IndexSet::new(alloc),
            places: IndexMap::new(alloc),
        }
    }

    /// Adds what a goal calls, or all clauses of its predicate, where it isn't there yet.
    pub fn add(&mut self, call: Called) -> Result<(), NoMemory>
        requires near { is_near call ≡ true }
        ensures extends { OnOk result (Extends self.old self.new) }
        ensures among { OnOk result ((p : Clauses) (t : Tree) → answers p call t ≡ true → is_among p self.new t ≡ true) }
    {
        let placed = place_call(&mut self.places, call)?;
        self.calls.insert_full(placed)?;
        Ok(())
    }

    /// The one at a number.
    pub fn at(&self, number: usize) -> Option<Called>
        ensures at { result ≡ slice_get self.now number }
        ensures near { IfSome result (λ call. is_near call ≡ true) }
    {
        self.calls.as_slice().get(number).copied()
    }

    /// All of them, in order.
    pub fn as_slice(&self) -> &[Called]
        ensures same { result.now ≡ self.now }
        ensures once { IsDistinct is_called self.now }
        ensures placed { ArePlaced self.now }
        ensures near { AreNear self.now }
    {
        self.calls.as_slice()
    }

    /// Whether the same is called.
    pub fn is_same(&self, other: &Calls) -> bool
        ensures { result ≡ true → self.now ≡ other.now }
    {
        are_same(self.calls.as_slice(), other.calls.as_slice())
    }

    /// Whether all clauses of the predicate are called beside those for a constant.
    pub fn is_beside(&self, call: Called) -> bool
        ensures { result ≡ is_beside self.now call }
    {
        match call {
            Called::All(_, _) => false,
            Called::Atom(name, arity, _, _) => self.calls.contains(&Called::All(name, arity)),
            Called::Integer(name, arity, _, _) => self.calls.contains(&Called::All(name, arity)),
        }
    }
}
