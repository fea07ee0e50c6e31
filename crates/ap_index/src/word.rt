//! Keys as pairs of numbers, which are compared without looking at what they stand for.

ghost use Rattle.std.specs.Prelude.{◌≡◌, None, Some};
ghost use Rattle.ap_index.specs.declared.key.Key.TheVariants.{Atom, Integer, Structure};
ghost use Rattle.ap_index.specs.Words.{word_of, word_or_nothing, IsShortOf};

use crate::head::Ask;
use crate::key::Key;

/// A key: the kind, which for a structure says how many arguments it has, and which one of that kind. One kind is no key.
#[derive(Clone, Copy)]
pub struct Word {
    pub kind: u64,
    pub value: i64,
}

/// The kind of no key.
pub const NOTHING: u64 = 0;

/// The kind of no key either: an unbound variable's, for which nothing is asked.
pub const UNBOUND: u64 = 1;

const ATOM: u64 = 2;

const INTEGER: u64 = 3;

const STRUCTURE: u64 = 4;

impl Word {
    /// That of no key.
    #[inline(always)]
    pub fn nothing() -> Word
        ensures { result ≡ word_or_nothing None }
    {
        Word {
            kind: NOTHING,
            value: 0,
        }
    }

    /// That of an unbound variable.
    #[inline(always)]
    pub fn unbound() -> Word
        ensures { result.kind ≡ UNBOUND }
    {
        Word {
            kind: UNBOUND,
            value: 0,
        }
    }

    /// An atom's.
    #[inline(always)]
    pub fn atom(name: u32) -> Word
        ensures { result ≡ word_of (Atom name) }
    {
        Word {
            kind: ATOM,
            value: name as i64,
        }
    }

    /// An integer's.
    #[inline(always)]
    pub fn integer(value: i64) -> Word
        ensures { result ≡ word_of (Integer value) }
    {
        Word {
            kind: INTEGER,
            value,
        }
    }

    /// That of a structure with so many arguments.
    #[inline(always)]
    pub fn structure(name: u32, count: u32) -> Word
        ensures { result ≡ word_of (Structure name count) }
    {
        Word {
            kind: STRUCTURE + count as u64,
            value: name as i64,
        }
    }

    /// A key's word.
    fn of(key: Key) -> Word
        ensures { result ≡ word_of key }
    {
        match key {
            Key::Atom(name) => Word::atom(name),
            Key::Integer(value) => Word::integer(value),
            Key::Structure(name, count) => Word::structure(name, count as u32),
        }
    }
}

/// What a head asks of the first argument and of another one, as words, and whether it asks for more than these say.
#[derive(Clone, Copy)]
pub struct Short {
    pub first: Word,
    pub argument: u32,
    pub second: Word,
    pub more: bool,
}

/// What is asked, in short.
pub(crate) fn shorten(asks: &[Ask]) -> Short
    ensures { IsShortOf asks.now result }
{
    let mut short = Short {
        first: Word::nothing(),
        argument: 0,
        second: Word::nothing(),
        more: false,
    };
    for ask in asks {
        if ask.argument == 1 && short.first.kind == NOTHING {
            short.first = Word::of(ask.key);
        } else if short.second.kind == NOTHING {
            short.argument = ask.argument;
            short.second = Word::of(ask.key);
        } else {
            short.more = true;
        }
    }
    short
}
