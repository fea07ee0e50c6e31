//! Where a row keeps what it has for a key: multiplicative hashing by the golden ratio (Knuth, The Art of Computer Programming,
//! volume 3, 6.4), where the upper bits of the product choose among the slots, which each bit of the key can change.

ghost use Rattle.std.specs.Prelude.{◌≡◌, ℕ, ◌<◌, ◌^◌};
ghost use Rattle.ap_index.specs.Hashing.{number_of, hash_of, slot_of, pair_slot};

use crate::key::Key;

/// 2 to the power of 64 by the golden ratio, made odd.
const MULTIPLIER: u64 = 0x9e37_79b9_7f4a_7c15;

/// A number for a key, another one for each key of its kind.
#[inline(always)]
fn number_of(key: Key) -> u64
    ensures { result ≡ number_of key }
{
    match key {
        Key::Atom(name) => name as u64,
        Key::Integer(value) => value.cast_unsigned(),
        Key::Structure(name, count) => name as u64 * 256 + count as u64,
    }
}

/// A key that is looked up, with its hash: the upper half of the product.
#[derive(Clone, Copy)]
pub struct Hashed {
    pub(crate) key: Key,
    pub(crate) hash: u32,
    ghost made: { hash ≡ hash_of key },
}

impl Hashed {
    /// A key with its hash.
    #[inline(always)]
    pub fn new(key: Key) -> Hashed
        ensures { result.key ≡ key }
    {
        let hash = (number_of(key).wrapping_mul(MULTIPLIER) >> 32) as u32;
        Hashed { key, hash }
    }

    /// The key.
    #[inline(always)]
    pub fn key(self) -> Key
        ensures { result ≡ self.key }
    {
        self.key
    }

    /// The key's slot, among so many.
    #[inline(always)]
    pub(crate) fn slot(self, slots: u32) -> usize
        ensures is { result ≡ slot_of self.key slots }
        ensures below { 0 < slots → result < slots }
    {
        (self.hash as u64 * slots as u64 >> 32) as usize
    }
}

/// An odd number by which the hash of the first of two keys is spread again.
const SPREAD: u32 = 0x85eb_ca6b;

/// The slot of two keys, among so many.
#[inline(always)]
pub(crate) fn pair_slot(one: Hashed, two: Hashed, slots: u32) -> usize
    ensures { result ≡ pair_slot one.key two.key slots }
{
    let hash = one.hash.wrapping_mul(SPREAD).wrapping_add(two.hash);
    (hash as u64 * slots as u64 >> 32) as usize
}
