//! The index: the choices of code by their places, and the rows of those that are many.

ghost use Rattle.std.specs.Prelude.{◌≡◌, [], ◌∷◌, ◌++◌, length, take, IfOk, IfSome, OnOk};
ghost use Rattle.ap_instr.specs.Code.{Compiled};
ghost use Rattle.ap_index.specs.Index.{IsRowOf, IsRestOf, IsChoiceAt, IsChoiceOf, IsIndexOf};
ghost use Rattle.ap_index.specs.Within.{is_index_within};

use crate::choice::{Choice, choice_at};
use crate::row::{NONE, Row};
use crate::rows::{Rows, rows_of};
use crate::within::are_choices_within;
use ap_instr::Code;
use ap_term::NoMemory;
use std::alloc::Global;

/// What is known of code's choices.
#[derive(Drop)]
pub struct Index {
    rows: Rows,
    choices: Vec<Choice>,
    /// The number of the choice at each place, if one stands there.
    numbers: Vec<u32>,
}

impl Index {
    /// One more choice.
    fn push(&mut self, choice: Choice) -> Result<(), NoMemory>
        ensures is { OnOk result ((code : Compiled) → IsIndexOf code self.old → IsChoiceOf code choice → IsIndexOf code self.new) }
        ensures rows { OnOk result (self.new.rows ≡ self.old.rows) }
        ensures choices { OnOk result (self.new.choices.items ≡ self.old.choices.items ++ choice ∷ []) }
    {
        let at = choice.at as usize;
        let number = self.choices.len();
        self.choices.push(choice)?;
        if at < self.numbers.len() && number < NONE as usize {
            self.numbers[at] = number as u32;
        }
        Ok(())
    }

    /// Puts in the choice at a place, if one stands there.
    fn add(&mut self, alloc: Global, code: &Code, at: u32) -> Result<(), NoMemory>
        requires { IsIndexOf code.now self.old }
        ensures is { OnOk result (IsIndexOf code.now self.new) }
        ensures rows { OnOk result (self.new.rows ≡ self.old.rows) }
        ensures choices { OnOk result (take (length self.old.choices.items) self.new.choices.items ≡ self.old.choices.items) }
    {
        match choice_at(alloc, code, &self.rows, at)? {
            Some(choice) => self.push(choice),
            None => Ok(()),
        }
    }

    /// Puts in the choices of code at its places from one on. They get no rows.
    pub fn grow(&mut self, alloc: Global, code: &Code, from: u32) -> Result<(), NoMemory>
        requires { IsIndexOf code.now self.old }
        ensures is { OnOk result (IsIndexOf code.now self.new) }
        ensures rows { OnOk result (self.new.rows ≡ self.old.rows) }
        ensures choices { OnOk result (take (length self.old.choices.items) self.new.choices.items ≡ self.old.choices.items) }
    {
        let places = u32::try_from(code.instructions().len()).unwrap_or(0);
        self.numbers.resize(places as usize, NONE)?;
        for at in from..places {
            self.add(alloc, code, at)?;
        }
        Ok(())
    }

    /// How many choices it has.
    pub fn choice_count(&self) -> usize
        ensures { result ≡ length self.now.choices.items }
    {
        self.choices.len()
    }

    /// Lets go the choices behind so many, which stand at places from one on.
    pub fn cut_to(&mut self, places: usize, choices: usize)
        ensures rows { self.new.rows ≡ self.old.rows }
        ensures choices { self.new.choices.items ≡ take choices self.old.choices.items }
    {
        self.choices.truncate(choices);
        self.numbers.truncate(places);
    }

    /// Whether its rows and choices lead to places before one alone.
    pub fn is_within(&self, places: usize) -> bool
        ensures { result ≡ is_index_within places self.now }
    {
        self.rows.are_within(places) && are_choices_within(self.choices.as_slice(), places)
    }

    /// What is known of the choice at a place, if one stands there.
    #[inline(always)]
    pub fn choice(&self, at: usize) -> Option<&Choice>
        ensures { IfSome result (λ choice. (code : Compiled) → IsIndexOf code self.now → IsChoiceAt code at choice.now) }
    {
        let number = match self.numbers.get(at) {
            Some(number) => *number,
            None => return None,
        };
        match self.choices.get(number as usize) {
            Some(choice) if choice.at as usize == at => Some(choice),
            _ => None,
        }
    }

    /// The row of choices that begins at a place.
    #[inline]
    pub fn row(&self, start: usize) -> Option<&Row>
        ensures { IfSome result (λ row. (code : Compiled) → IsIndexOf code self.now → IsRowOf code start row.now) }
    {
        self.rows.row(start)
    }

    /// The row that goes on at a place, behind a clause that has no key.
    #[inline]
    pub fn rest(&self, from: usize) -> Option<&Row>
        ensures { IfSome result (λ row. (code : Compiled) → IsIndexOf code self.now → IsRestOf code from row.now) }
    {
        self.rows.rest(from)
    }
}

/// The index of code.
pub fn index_of(alloc: Global, code: &Code) -> Result<Index, NoMemory>
    ensures { IfOk result (λ index. IsIndexOf code.now index) }
{
    let places = u32::try_from(code.instructions().len()).unwrap_or(0);
    let mut index = Index {
        rows: rows_of(alloc, code, places)?,
        choices: Vec::new(alloc),
        numbers: Vec::new(alloc),
    };
    index.grow(alloc, code, 0)?;
    Ok(index)
}
