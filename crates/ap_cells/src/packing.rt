//! A cell in one word of 64 bits. The low three bits tell its kind; what doesn't fit above them stands apart, in another word:
//!
//! | kind | the cell | bits 3 and above | apart |
//! |--:|---|---|---|
//! | 0 | unbound | | |
//! | 1 | the term of another place | the place | |
//! | 2 | an atom | its name | |
//! | 3 | a compound term | place of the arguments (32 bits), how many (8), name (21) | |
//! | 4 | an integer of 61 bits | the integer and 2 ^ 60 | |
//! | 5 | another integer that isn't negative | | the integer |
//! | 6 | another one that is | | -1 less the integer |
//! | 7 | another compound term | place of the arguments | how many (32), name (32) |

ghost use Rattle.std.specs.Prelude.{◌≡◌, ℕ, ◌⊎◌, MatchOption, slice_index_or};
ghost use Rattle.ap_cells.specs.Packing.{raw_in};
ghost use Rattle.ap_cells.specs.Trees.{IsEnd, link};
ghost use Rattle.ap_cells.specs.declared.cells.Raw.TheVariants.{Same as SameRaw, Int as IntRaw, Atom as AtomRaw, Node as NodeRaw};

use crate::cells::Raw;
use ap_term::Atom;

/// How many kinds of words there are.
const KINDS: u64 = 8;

/// How many places there are at most, and how many names.
const PLACES: u64 = 4_294_967_296;

/// Arguments of a compound term in one word are fewer.
const COUNTS: u64 = 256;

/// Names of a compound term in one word are fewer.
const NAMES: u64 = 2_097_152;

/// Integers in one word are less, and at least its opposite.
const INTEGERS: i64 = 1_152_921_504_606_846_976;

/// How many integers aren't negative.
const NOT_NEGATIVE: u64 = 9_223_372_036_854_775_808;

/// Packs a cell into one word; None where it doesn't fit.
#[inline(always)]
pub fn whole_word(raw: &Raw) -> Option<u64>
    ensures { MatchOption result (Unit {0}) (λ word. (apart : ℕ) → raw_in word apart ≡ raw.now) }
{
    match raw {
        Raw::Free => Some(0),
        Raw::Same(place) => Some(link_to(*place)),
        Raw::Atom(name) => Some(atom_word(*name)),
        Raw::Node(name, first, count) => node_word(*name, *first, *count),
        Raw::Int(integer) => integer_word(*integer),
    }
}

/// Packs the cell that leads to a place.
#[inline(always)]
fn link_to(place: u32) -> u64
    ensures { (apart : ℕ) → raw_in result apart ≡ SameRaw place }
{
    place as u64 * KINDS + 1
}

/// Packs an atom.
#[inline(always)]
pub fn atom_word(name: Atom) -> u64
    ensures { (apart : ℕ) → raw_in result apart ≡ AtomRaw name }
{
    name.number() as u64 * KINDS + 2
}

/// Packs a compound term.
#[inline(always)]
fn node_word(name: Atom, first: u32, count: u32) -> Option<u64>
    ensures { MatchOption result (Unit {0}) (λ word. (apart : ℕ) → raw_in word apart ≡ NodeRaw name first count) }
{
    let number = name.number() as u64;
    if number < NAMES && count < COUNTS as u32 {
        let functor = number * COUNTS + count as u64;
        return Some((functor * PLACES + first as u64) * KINDS + 3);
    }
    None
}

/// Packs an integer.
#[inline(always)]
fn integer_word(integer: i64) -> Option<u64>
    ensures { MatchOption result (Unit {0}) (λ word. (apart : ℕ) → raw_in word apart ≡ IntRaw integer) }
{
    if -INTEGERS <= integer && integer < INTEGERS {
        return Some((integer + INTEGERS) as u64 * KINDS + 4);
    }
    None
}

/// Packs a cell into two words.
#[inline(always)]
pub fn parted_words(raw: &Raw) -> (u64, u64)
    ensures { raw_in result.0 result.1 ≡ raw.now }
{
    match raw {
        Raw::Node(name, first, count) => (
            *first as u64 * KINDS + 7,
            name.number() as u64 * PLACES + *count as u64,
        ),
        Raw::Int(integer) => {
            if *integer >= 0 {
                (5, *integer as u64)
            } else {
                (6, (-1 - *integer) as u64)
            }
        }
        Raw::Free => (0, 0),
        Raw::Same(place) => (link_to(*place), 0),
        Raw::Atom(name) => (atom_word(*name), 0),
    }
}

/// The place to which a word's cell leads, if it leads to another.
#[inline(always)]
pub fn link_in(word: u64) -> Option<u32>
    ensures { MatchOption result ((apart : ℕ) → IsEnd (raw_in word apart)) (λ place. (apart : ℕ) → raw_in word apart ≡ SameRaw place) }
{
    if word % KINDS == 1 {
        return Some((word / KINDS % PLACES) as u32);
    }
    None
}

/// Packs the cell by which another place has the term of the place `end`, at which a word's cell stands: a copy of it, if that is bound
/// and stands whole in its word.
#[inline(always)]
pub fn link_word(end: u32, word: u64) -> u64
    ensures { (apart : ℕ) → (raw_in result apart ≡ SameRaw end) ⊎ ((b : ℕ) → raw_in result apart ≡ link end (raw_in word b)) }
{
    if word % KINDS == 0 || word % KINDS > 4 {
        return link_to(end);
    }
    word
}

/// Unpacks a cell. What stands apart is read where it is needed alone.
#[inline(always)]
pub fn raw_by(word: u64, apart: &[u64], place: usize) -> Raw
    ensures { result ≡ raw_in word (slice_index_or apart.now place 0) }
{
    let rest = word / KINDS;
    match word % KINDS {
        0 => Raw::Free,
        1 => Raw::Same((rest % PLACES) as u32),
        2 => Raw::Atom(Atom::at((rest % PLACES) as u32)),
        3 => Raw::Node(
            Atom::at((rest / PLACES / COUNTS) as u32),
            (rest % PLACES) as u32,
            (rest / PLACES % COUNTS) as u32,
        ),
        4 => Raw::Int(rest as i64 - INTEGERS),
        5 => Raw::Int((part_at(apart, place) % NOT_NEGATIVE) as i64),
        6 => Raw::Int(-1 - (part_at(apart, place) % NOT_NEGATIVE) as i64),
        _ => {
            let part = part_at(apart, place);
            Raw::Node(
                Atom::at((part / PLACES) as u32),
                (rest % PLACES) as u32,
                (part % PLACES) as u32,
            )
        }
    }
}

/// What stands apart at a place; 0 where the list ends before it.
#[cold]
#[inline(never)]
fn part_at(apart: &[u64], place: usize) -> u64
    ensures { result ≡ slice_index_or apart.now place 0 }
{
    match apart.get(place) {
        Some(part) => *part,
        None => 0,
    }
}
