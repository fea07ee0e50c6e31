//! Keys as a table looks them up.

ghost use Rattle.std.specs.Prelude.{◌≡◌};
ghost use Rattle.ap_listing.specs.Grouped.{asked_of};

use ap_index::Key;

/// A key that can be looked up.
#[derive(Clone, Copy, PartialEq, Eq, Hash)]
pub(crate) enum Asked {
    Atom(u32),
    Integer(i64),
    Structure(u32, u8),
}

/// A key, to look it up.
pub(crate) fn asked_of(key: Key) -> Asked
    ensures { result ≡ asked_of key }
{
    match key {
        Key::Atom(name) => Asked::Atom(name),
        Key::Integer(value) => Asked::Integer(value),
        Key::Structure(name, count) => Asked::Structure(name, count),
    }
}
