//! The hash of a predicate's name and arity.

ghost use Rattle.std.specs.Prelude.{◌*◌, ◌%◌, ◌^◌, fold, bit_xor};

use std::hash::{BuildHasher, Hasher};

/// Hashes numbers byte by byte, each with one multiplication (Fowler, Noll and Vo). What is looked up is the same under
/// any hash.
#[derive(Clone, Copy)]
pub struct KeyHasher(u64);

impl KeyHasher {
    pub fn new() -> KeyHasher {
        KeyHasher(0xcbf2_9ce4_8422_2325)
    }
}

impl Hasher for KeyHasher {
    ghost write = { λ s bytes. record { 0 = fold (λ h b. (bit_xor h b * 1099511628211) % 2 ^ 64) s.0 bytes } };

    ghost finish = { λ s. s.0 };

    #[inline(always)]
    fn finish(&self) -> u64 {
        self.0
    }

    #[inline(always)]
    fn write(&mut self, bytes: &[u8]) {
        for b in bytes {
            self.0 = (self.0 ^ (*b as u64)).wrapping_mul(1099511628211);
        }
    }
}

impl BuildHasher for KeyHasher {
    type Hasher = KeyHasher;

    ghost build_hasher = { λ s. s };

    #[inline(always)]
    fn build_hasher(&self) -> KeyHasher {
        *self
    }
}
