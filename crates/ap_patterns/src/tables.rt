//! Tables: one call and one success pattern for each predicate.

ghost use Rattle.std.specs.Prelude.{◌≡◌, ℕ, ◌++◌, ◌∷◌, [], Some, None, MatchOption, OnOk, OnErr, is_ok, is_none, if◌then◌else◌, ◌&&◌, ◌<◌, length, slice_set, slice_index_or};
ghost use Rattle.std.specs.HashMap.{get};
ghost use Rattle.ap_term.specs.TermView.{tree_of};
ghost use Rattle.ap_patterns.specs.Table.{predicate_of, row_of, place_of, set_call, set_success, key_of, is_key};

use crate::calls::Pattern;
use crate::keys::KeyHasher;
use ap_absunify::State;
use ap_term::{Atom, NoMemory, Term};
use std::alloc::Global;
use std::collections::HashMap;
use std::marker::Model;

/// A predicate, by its name and the number of its arguments.
#[derive(Debug, Clone, Copy, PartialEq, Eq)]
pub struct Predicate {
    pub name: Atom,
    pub arity: u64,
}

impl Predicate {
    /// The predicate of a goal or of a head; a variable and an integer have none.
    pub fn of(t: &Term) -> Option<Predicate>
        ensures { result ≡ predicate_of (tree_of t.now) }
    {
        match t {
            Term::Var(_) | Term::Int(_) => None,
            Term::Atom(name) => Some(Predicate {
                name: *name,
                arity: 0,
            }),
            Term::Node(name, args) => Some(Predicate {
                name: *name,
                arity: args.len() as u64,
            }),
        }
    }
}

/// What is known of the calls of a predicate, and of what they come back with.
#[derive(Drop)]
pub struct Row {
    pub predicate: Predicate,
    pub call: Pattern,
    pub success: Pattern,
}

impl Row {
    fn new(predicate: Predicate, call: Pattern, success: Pattern) -> Row
        ensures { result ≡ record { predicate = predicate; call = call; success = success } }
    {
        Row {
            predicate,
            call,
            success,
        }
    }
}

/// Places by a predicate's name and arity.
type Places = HashMap<(u32, u64), usize, KeyHasher>;

fn key_of(predicate: &Predicate) -> (u32, u64)
    ensures { result ≡ key_of predicate.now }
{
    (predicate.name.number(), predicate.arity)
}

/// Puts in the place of a key, unless it has one.
fn add_place(places: &mut Places, key: (u32, u64), place: usize) -> Result<(), NoMemory>
    ensures added { OnOk result ((k : ℕ × ℕ) → get is_key places.new k ≡ (if is_key key k && is_none (get is_key places.old key) then Some place else get is_key places.old k)) }
    ensures kept { OnErr result ((k : ℕ × ℕ) → get is_key places.new k ≡ get is_key places.old k) }
{
    if places.get(&key).is_some() {
        return Ok(());
    }
    places.insert(key, place)?;
    Ok(())
}

/// Rows in order, with the places of the predicates.
#[derive(Drop)]
pub struct Table {
    rows: Vec<Row>,
    places: Places,
}

impl Model for Table {
    ghost use Rattle.std.specs.Prelude.{List};
    ghost use Rattle.ap_patterns.specs.declared.tables.Row.{Row};
    ghost use Rattle.ap_patterns.specs.Table.{ArePlaces};

    ghost Value = { List Row };

    ghost view = { λ t. t.rows.items };

    ghost invariant = { λ t. ArePlaces t.places t.rows.items };
}

impl Table {
    ghost use Rattle.ap_patterns.specs.declared.tables.Row.{Row};

    pub fn new(alloc: Global) -> Table
        ensures { result ≡ [] }
    {
        Table {
            rows: Vec::new(alloc),
            places: HashMap::with_hasher(alloc, KeyHasher::new()),
        }
    }

    pub fn push(&mut self, row: Row) -> Result<(), NoMemory>
        ensures { self.new ≡ (if is_ok result then self.old ++ row ∷ [] else self.old) }
    {
        let place = self.rows.as_slice().len();
        let key = key_of(&row.predicate);
        self.rows.push(row)?;
        match add_place(&mut self.places, key, place) {
            Ok(()) => Ok(()),
            Err(error) => {
                self.rows.truncate(place);
                Err(error)
            }
        }
    }

    pub fn rows(&self) -> &[Row]
        ensures { result.now ≡ self.now }
    {
        self.rows.as_slice()
    }

    /// The place of a predicate's first row, and the number of rows where it has none.
    fn position(&self, predicate: &Predicate) -> usize
        ensures { result ≡ place_of self.now predicate.now }
    {
        match self.places.get(&key_of(predicate)) {
            Some(place) => *place,
            None => self.rows.as_slice().len(),
        }
    }

    fn change_call(&mut self, i: usize, pattern: Pattern)
        requires { i < length self.old }
        ensures { (d : Row) → self.new ≡ slice_set self.old i (record (slice_index_or self.old i d) { call = pattern }) }
    {
        self.rows[i].call = pattern;
    }

    /// Puts in the pattern of a predicate's calls.
    #[tactic(auto, using(crate::proofs::Rows::rules_of_changes))]
    pub fn set_call(&mut self, predicate: Predicate, pattern: Pattern) -> Result<(), NoMemory>
        ensures { OnOk result (self.new ≡ set_call self.old predicate pattern) }
    {
        let i = self.position(&predicate);
        if i < self.rows().len() {
            self.change_call(i, pattern);
            Ok(())
        } else {
            self.push(Row::new(predicate, pattern, State::Unreachable))
        }
    }

    fn change_success(&mut self, i: usize, pattern: Pattern)
        requires { i < length self.old }
        ensures { (d : Row) → self.new ≡ slice_set self.old i (record (slice_index_or self.old i d) { success = pattern }) }
    {
        self.rows[i].success = pattern;
    }

    /// Puts in the pattern of a predicate's answers.
    #[tactic(auto, using(crate::proofs::Rows::rules_of_changes))]
    pub fn set_success(&mut self, predicate: Predicate, pattern: Pattern) -> Result<(), NoMemory>
        ensures { OnOk result (self.new ≡ set_success self.old predicate pattern) }
    {
        let i = self.position(&predicate);
        if i < self.rows().len() {
            self.change_success(i, pattern);
            Ok(())
        } else {
            self.push(Row::new(predicate, State::Unreachable, pattern))
        }
    }

    /// The first row of a predicate.
    #[tactic(auto, using(crate::proofs::Rows::rules_of_rows))]
    pub fn row(&self, predicate: Predicate) -> Option<&Row>
        ensures { MatchOption result (row_of self.now predicate ≡ None) (λ r. row_of self.now predicate ≡ Some r.now) }
    {
        let place = self.position(&predicate);
        if place < self.rows.as_slice().len() {
            Some(&self.rows[place])
        } else {
            None
        }
    }
}
