//! Entries: what is known of the queries with which a program is entered.

ghost use Rattle.std.specs.Prelude.{◌≡◌, ◌≤◌, IfOk, length, if◌then◌else◌};
ghost use Rattle.ap_sharing.specs.VarSet.{empty};
ghost use Rattle.ap_sharing.specs.Sets.{sets_of};
ghost use Rattle.ap_term.specs.declared.fixed.TheConstants.{QUERY};
ghost use Rattle.ap_patterns.specs.declared.slots.Slot.TheVariants.{Call};
ghost use Rattle.ap_patterns.specs.Given.{any_pattern};
ghost use Rattle.ap_patterns.specs.Entry.{is_free_mark, is_any_mark, free_sets, free_marks, any_marks, marked_pattern};

use crate::calls::Pattern;
use crate::places::only_if;
use crate::slots::{Given, Slot};
use crate::tables::Predicate;
use crate::unknown::any_pattern;
use ap_absunify::made;
use ap_freeness::Free;
use ap_sharing::{Sets, Share, VarSet};
use ap_term::{Atom, NoMemory, fixed};
use std::alloc::Global;

/// What an argument of a query is known to be.
#[derive(Debug, Clone, Copy, PartialEq, Eq)]
pub enum Mark {
    Ground,
    /// A variable that stands in no other argument.
    Free,
    Any,
}

impl Mark {
    fn is_free(self) -> bool
        ensures { result ≡ is_free_mark self }
    {
        matches!(self, Mark::Free)
    }

    fn is_any(self) -> bool
        ensures { result ≡ is_any_mark self }
    {
        matches!(self, Mark::Any)
    }
}

/// The queries that call a predicate with arguments as they are marked.
#[derive(Debug, Drop)]
pub struct Entry {
    pub predicate: Predicate,
    pub marks: Vec<Mark>,
}

/// With which queries a program is entered.
#[derive(Debug, Drop)]
pub enum Entries {
    /// Calls of every predicate, with any arguments.
    All,
    One(Entry),
    /// The query that the program has.
    Query,
}

/// The places that are marked as free, each alone.
fn free_sets(alloc: Global, marks: &[Mark]) -> Result<Sets, NoMemory>
    requires { length marks.now ≤ 255 }
    ensures { IfOk result (λ r. r ≡ sets_of (free_sets 1 marks.now)) }
{
    let mut sets = Sets::new(alloc);
    for i in 0..marks.len() {
        if marks[i].is_free() {
            sets.insert(VarSet::just(i as u64 + 1))?;
        }
    }
    Ok(sets)
}

/// The places that are marked as free.
fn free_marks(marks: &[Mark]) -> VarSet
    requires { length marks.now ≤ 255 }
    ensures { result ≡ free_marks 1 marks.now }
{
    let mut found = VarSet::new();
    for i in 0..marks.len() {
        let place = VarSet::just(i as u64 + 1);
        found = found.union(only_if(marks[i].is_free(), place));
    }
    found
}

/// The places that are marked as anything.
fn any_marks(marks: &[Mark]) -> VarSet
    requires { length marks.now ≤ 255 }
    ensures { result ≡ any_marks 1 marks.now }
{
    let mut found = VarSet::new();
    for i in 0..marks.len() {
        let place = VarSet::just(i as u64 + 1);
        found = found.union(only_if(marks[i].is_any(), place));
    }
    found
}

impl Entry {
    /// What is known of a query that is as the marks say.
    pub fn pattern(&self, alloc: Global) -> Result<Pattern, NoMemory>
        requires { length self.now.marks.items ≤ 255 }
        ensures { IfOk result (λ r. r ≡ marked_pattern self.now.marks.items) }
    {
        let marks = self.marks.as_slice();
        let sets = free_sets(alloc, marks)?;
        let share = Share::new(sets, any_marks(marks));
        Ok(made(share, Free::new(free_marks(marks))))
    }

    /// The call of such a query.
    pub fn call(&self, alloc: Global) -> Result<Given, NoMemory>
        requires { length self.now.marks.items ≤ 255 }
        ensures { IfOk result (λ r. r ≡ record { slot = Call self.now.predicate; pattern = marked_pattern self.now.marks.items }) }
    {
        let pattern = self.pattern(alloc)?;
        let slot = Slot::Call(self.predicate);
        Ok(Given { slot, pattern })
    }
}

/// The call of the query that a program has.
pub fn query_call(alloc: Global) -> Given
    ensures { result ≡ record { slot = Call (record { name = QUERY; arity = 0 }); pattern = any_pattern 0 } }
{
    let predicate = Predicate {
        name: Atom::at(fixed::QUERY),
        arity: 0,
    };
    let slot = Slot::Call(predicate);
    let pattern = any_pattern(alloc, 0);
    Given { slot, pattern }
}
