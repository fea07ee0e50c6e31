//! Code: instructions and the tables behind them.

ghost use Rattle.std.specs.Prelude.{◌≡◌};

use crate::instruction::Instr;
use ap_term::Atom;
use std::marker::Model;

/// A predicate of a table: its name and arity, and its instructions, those from place `start` on and before `end`.
#[derive(Clone, Copy)]
pub struct Predicate {
    pub name: Atom,
    pub arity: u8,
    pub start: u32,
    pub end: u32,
    /// Whether a listing shows it: a predicate of the program that has a clause.
    pub is_listed: bool,
}

/// Code for a program and a query. Nothing is promised of it until it is checked.
#[derive(Drop)]
pub struct Code {
    instructions: Vec<Instr>,
    integers: Vec<i64>,
    predicates: Vec<Predicate>,
    query: Option<u32>,
}

impl Model for Code {
    ghost use Rattle.ap_instr.specs.Code.{Compiled};

    ghost Value = { Compiled };

    ghost view = { λ a. record { instructions = a.instructions.items; integers = a.integers.items; predicates = a.predicates.items; query = a.query } };
}

impl Code {
    ghost use Rattle.ap_instr.specs.Code.{instructions_of};

    /// Code of these instructions, integers and predicates. `query` is the number of the query's predicate, where there is one.
    pub fn new(
        instructions: Vec<Instr>,
        integers: Vec<i64>,
        predicates: Vec<Predicate>,
        query: Option<u32>,
    ) -> Code
        ensures { result ≡ record { instructions = instructions.items; integers = integers.items; predicates = predicates.items; query = query } }
    {
        Code {
            instructions,
            integers,
            predicates,
            query,
        }
    }

    pub fn instructions(&self) -> &[Instr]
        ensures { result.now ≡ self.now.instructions }
    {
        self.instructions.as_slice()
    }

    pub fn integers(&self) -> &[i64]
        ensures { result.now ≡ self.now.integers }
    {
        self.integers.as_slice()
    }

    pub fn predicates(&self) -> &[Predicate]
        ensures { result.now ≡ self.now.predicates }
    {
        self.predicates.as_slice()
    }

    /// A predicate's instructions; fewer where the code ends before them.
    pub fn instructions_of(&self, predicate: &Predicate) -> &[Instr]
        ensures { result.now ≡ instructions_of self.now predicate.now }
    {
        let all = self.instructions.as_slice();
        let start = (predicate.start as usize).min(all.len());
        let (_, behind) = all.split_at(start);
        let count = (predicate.end.saturating_sub(predicate.start) as usize).min(behind.len());
        let (own, _) = behind.split_at(count);
        own
    }

    pub fn query(&self) -> Option<u32>
        ensures { result ≡ self.now.query }
    {
        self.query
    }
}
