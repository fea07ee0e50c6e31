//! Where names stand in a table's memory. No clause speaks of it: a key changes no name and no place.

use std::hash::{BuildHasher, DefaultHasher, Hasher};
use std::random::RandomSource;

/// What the hashes of a table's names begin with.
///
/// Under a key that the text's author doesn't know, names can't be chosen so that many of them share one hash.
#[derive(Clone, Copy)]
pub struct NameKey {
    hasher: DefaultHasher,
}

impl NameKey {
    /// Gives the key that is always the same.
    pub fn fixed() -> NameKey {
        NameKey {
            hasher: DefaultHasher::new(),
        }
    }

    /// Draws a key of 16 bytes; where none are to be had, gives the one that is always the same.
    pub fn draw(random: &impl RandomSource) -> NameKey {
        let mut bytes = [0; 16];
        let mut hasher = DefaultHasher::new();
        if random.fill_bytes(&mut bytes).is_ok() {
            hasher.write(&bytes);
        }
        NameKey { hasher }
    }
}

impl BuildHasher for NameKey {
    ghost use Rattle.ap_term.specs.declared.keys.NameKey.{NameKey};

    type Hasher = DefaultHasher;

    ghost build_hasher = { λ key. key.hasher };

    fn build_hasher(&self) -> DefaultHasher {
        self.hasher
    }
}
