//! The numbers of integers and predicates, and instructions that have them.

ghost use Rattle.std.specs.Prelude.{◌≡◌, [], length, take, slice_get, Some, IfOk};
ghost use Rattle.std.specs.List.{IsDistinct, list_any};
ghost use Rattle.std.specs.Ordering.{int_eq};
ghost use Rattle.indexmap.specs.IndexSet.{insert_key};
ghost use Rattle.ap_instr.specs.Table.{is_key};

use ap_term::{Atom, NoMemory};
use indexmap::IndexSet;
use std::alloc::Global;
use std::marker::Model;

/// The integers of code, and the names and arities of its predicates, each at its number.
#[derive(Drop)]
pub struct Tables {
    integers: IndexSet<i64>,
    predicates: IndexSet<(u32, u8)>,
}

impl Model for Tables {
    ghost use Rattle.ap_codegen.specs.Assembled.{Numbered};

    ghost Value = { Numbered };

    ghost view = { λ a. record { integers = a.integers.keys; predicates = a.predicates.keys } };
}

impl Tables {
    ghost use Rattle.ap_codegen.specs.Assembled.{Grows};
    ghost use Rattle.ap_codegen.specs.Heads.{with_key};

    pub fn new(alloc: Global) -> Tables
        ensures { result ≡ record { integers = []; predicates = [] } }
    {
        Tables {
            integers: IndexSet::new(alloc),
            predicates: IndexSet::new(alloc),
        }
    }

    /// The number of an integer.
    pub fn integer(&mut self, z: i64) -> Result<u32, NoMemory>
        ensures number { IfOk result (λ i. slice_get self.new.integers i ≡ Some z) }
        ensures keys { IfOk result (λ _. self.new.integers ≡ insert_key int_eq self.old.integers z) }
        ensures predicates { self.new.predicates ≡ self.old.predicates }
        ensures grows { IfOk result (λ _. Grows self.old self.new) }
    {
        let (i, _) = self.integers.insert_full(z)?;
        if i > 4294967295 {
            return Err(NoMemory);
        }
        Ok(i as u32)
    }

    /// The number of a predicate.
    pub fn predicate(&mut self, name: Atom, arity: u8) -> Result<u32, NoMemory>
        ensures number { IfOk result (λ i. slice_get self.new.predicates i ≡ Some (name, arity)) }
        ensures keys { IfOk result (λ _. self.new.predicates ≡ with_key self.old.predicates (Some (name, arity))) }
        ensures integers { self.new.integers ≡ self.old.integers }
        ensures grows { IfOk result (λ _. Grows self.old self.new) }
    {
        let (i, _) = self.predicates.insert_full((name.number(), arity))?;
        if i > 4294967295 {
            return Err(NoMemory);
        }
        Ok(i as u32)
    }

    /// The predicate of a number.
    pub fn predicate_at(&self, number: usize) -> Option<(u32, u8)>
        ensures same { result ≡ slice_get self.now.predicates number }
        ensures once { IsDistinct is_key self.now.predicates }
    {
        match self.predicates.as_slice().get(number) {
            Some(key) => Some(*key),
            None => None,
        }
    }

    pub fn predicate_count(&self) -> usize
        ensures { result ≡ length self.now.predicates }
    {
        self.predicates.len()
    }

    /// Whether a predicate has a number.
    pub fn has(&self, name: Atom, arity: u8) -> bool
        ensures { result ≡ list_any (is_key (name, arity)) self.now.predicates }
    {
        self.predicates.contains(&(name.number(), arity))
    }

    pub fn integer_count(&self) -> usize
        ensures { result ≡ length self.now.integers }
    {
        self.integers.len()
    }

    /// Lets go what has a greater number.
    pub fn cut_to(&mut self, integers: usize, predicates: usize)
        ensures { self.new ≡ record { integers = take integers self.old.integers; predicates = take predicates self.old.predicates } }
    {
        self.integers.truncate(integers);
        self.predicates.truncate(predicates);
    }

    pub fn integers(&self) -> &[i64]
        ensures { result.now ≡ self.now.integers }
    {
        self.integers.as_slice()
    }
}
