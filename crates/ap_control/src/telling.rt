//! Which clauses of a predicate are left for a call, as far as that is told at once: by the keys of its arguments, or as there is one alone.

ghost use Rattle.std.specs.Prelude.{◌≡◌, ℕ, ◌<◌, List, length, Some, IfSome};
ghost use Rattle.ap_term.specs.Tree.{Tree};
ghost use Rattle.ap_cells.specs.declared.cells.Raw.{Raw};
ghost use Rattle.ap_instr.specs.declared.compiled.Predicate.{Predicate as PredicateOf};
ghost use Rattle.ap_instr.specs.Code.{Compiled};
ghost use Rattle.ap_instr.specs.StandsFor.{clause_places};
ghost use Rattle.ap_index.specs.Index.{IsRowOf};
ghost use Rattle.ap_index.specs.Keys.{IsKeyOf};
ghost use Rattle.ap_index.specs.Pairs.{ArePairsOf};
ghost use Rattle.ap_match.specs.Fits.{Fits};
ghost use Rattle.ap_steps.specs.Moves.{held, HoldPlaces};
ghost use Rattle.ap_control.specs.Choosing.{HasKey, IsOnly, IsPairTold, IsTold};

use crate::alternatives::{Alternative, first};
use ap_cells::{Cells, Top};
use ap_codecheck::Sound;
use ap_index::{Hashed, Key, Pair, Row};
use ap_instr::Predicate;
use ap_steps::registers::place_in;

/// What is looked up of an atom, an integer or a structure at a place; none of an unbound variable.
#[inline(always)]
fn key_of(cells: &Cells, place: usize) -> Option<Key>
    requires { place < length cells.now.cells }
    ensures { IfSome result (λ key. (k : ℕ → Tree) → Fits cells.now.cells k → IsKeyOf key (k place)) }
{
    match cells.top(place) {
        Top::Free(_) => None,
        Top::Atom(name) => Some(Key::Atom(name.number())),
        Top::Int(value) => Some(Key::Integer(value)),
        Top::Node(name, _, count) => {
            if count > 255 {
                return None;
            }
            Some(Key::Structure(name.number(), count as u8))
        }
    }
}

/// What is looked up at a place, with its hash.
#[inline(always)]
fn own_of(cells: &Cells, place: usize) -> Option<Hashed>
    requires { place < length cells.now.cells }
    ensures { IfSome result (λ own. (k : ℕ → Tree) → Fits cells.now.cells k → IsKeyOf own.key (k place)) }
{
    match key_of(cells, place) {
        Some(key) => Some(Hashed::new(key)),
        None => None,
    }
}

/// A predicate's clause, where it has no other.
#[inline(always)]
fn alone(sound: &Sound, predicate: &Predicate) -> Option<u32>
    ensures { (cs : List Raw) (x : ℕ → ℕ) → IfSome result (IsOnly sound.now cs x (clause_places sound.now predicate.now)) }
{
    match first(sound.code(), predicate) {
        Some(
            Alternative {
                place,
                behind: None,
            },
        ) => Some(place),
        _ => None,
    }
}

/// The clauses that are left for a call, as far as that is told at once.
#[derive(Clone, Copy)]
pub enum Told {
    /// None.
    Never,
    /// The one at a place, and no other.
    Only(u32),
    /// Those from a choice on.
    From(usize),
}

/// By a predicate's row, for a key of the first argument and one of another argument.
#[inline(always)]
fn told_by_two(cells: &Cells, x: &[u32], row: &Row, own: Hashed) -> Pair
    requires { HoldPlaces (length cells.now.cells) x.now }
    ensures { (code : Compiled) (ls : List ℕ) → ArePairsOf code ls row.now.pairs → HasKey cells.now.cells (held x.now) (Some own) → IsPairTold code cells.now.cells (held x.now) ls result }
{
    let pairs = row.pairs();
    if pairs.argument() == 0 {
        return Pair::Open;
    }
    match own_of(cells, place_in(x, pairs.argument())) {
        Some(other) => pairs.told(own, other),
        None => Pair::Open,
    }
}

/// By a predicate's row, for a key of the first argument.
#[inline(always)]
fn told_by(cells: &Cells, x: &[u32], row: &Row, own: Hashed) -> Told
    requires { HoldPlaces (length cells.now.cells) x.now }
    ensures { (code : Compiled) (q : PredicateOf) → IsRowOf code q.start row.now → HasKey cells.now.cells (held x.now) (Some own) → IsTold code cells.now.cells (held x.now) q result }
{
    if let Some(place) = row.only(own) {
        return Told::Only(place);
    }
    match told_by_two(cells, x, row, own) {
        Pair::Never => return Told::Never,
        Pair::Only(place) => return Told::Only(place),
        Pair::Open => {}
    }
    match row.first(own) {
        Some(at) => Told::From(at),
        None => Told::Never,
    }
}

/// The clauses of a predicate that are left for a call: told by its row, or the predicate has one alone, or all.
#[inline(always)]
pub fn only(cells: &Cells, x: &[u32], sound: &Sound, predicate: &Predicate) -> Told
    requires { HoldPlaces (length cells.now.cells) x.now }
    ensures { IsTold sound.now cells.now.cells (held x.now) predicate.now result }
{
    let Some(row) = sound.row(predicate.start as usize) else {
        return match alone(sound, predicate) {
            Some(place) => Told::Only(place),
            None => Told::From(predicate.start as usize),
        };
    };
    match own_of(cells, place_in(x, 1)) {
        Some(own) => told_by(cells, x, row, own),
        None => Told::From(predicate.start as usize),
    }
}
