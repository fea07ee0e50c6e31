//! The clauses that read a slot of a table, found once, and what those give that read one of some slots.

ghost use Rattle.std.specs.Prelude.{◌≡◌, ℕ, ◌++◌, map, IfOk, OnOk, IsPermutation};
ghost use Rattle.std.specs.List.{flat_map};
ghost use Rattle.ap_term.specs.TermView.{tree_of, trees_of};
ghost use Rattle.ap_term.specs.GoalView.{part_of};
ghost use Rattle.ap_patterns.specs.Given.{patterns};
ghost use Rattle.ap_patterns.specs.Table.{predicate_of};
ghost use Rattle.ap_patterns.specs.declared.slots.Slot.{Slot};
ghost use Rattle.ap_fixpoint.specs.Numbered.{numbers_of};
ghost use Rattle.ap_fixpoint.specs.Reads.{call_slot, success_slot, slots_of_goals, slots_of_part, slots_of, noted, IsIndex, given_by_number, is_last, given_by_numbers, IsReread};

use crate::clauses::add_clause;
use crate::numbered::Numbered;
use ap_patterns::{Given, Predicate, Slot, Table};
use ap_term::{Clause, NoMemory, Part, Program, Term};
use std::alloc::Global;

/// Puts in the slot of a goal's answers.
fn add_success(slots: &mut Vec<Slot>, goal: &Term) -> Result<(), NoMemory>
    ensures { OnOk result (slots.new.items ≡ slots.old.items ++ success_slot (predicate_of (tree_of goal.now))) }
{
    let Some(predicate) = Predicate::of(goal) else {
        return Ok(());
    };
    slots.push(Slot::Success(predicate))?;
    Ok(())
}

fn add_successes(slots: &mut Vec<Slot>, goals: &[Term]) -> Result<(), NoMemory>
    ensures { OnOk result (slots.new.items ≡ slots.old.items ++ slots_of_goals (trees_of goals.now)) }
{
    for goal in goals {
        add_success(slots, goal)?;
    }
    Ok(())
}

fn add_part(slots: &mut Vec<Slot>, part: &Part) -> Result<(), NoMemory>
    ensures { OnOk result (slots.new.items ≡ slots.old.items ++ slots_of_part (part_of part.now)) }
{
    match part {
        Part::Call(goal) => add_success(slots, goal),
        Part::Group { calls, .. } => add_successes(slots, calls.as_slice()),
    }
}

fn add_parts(slots: &mut Vec<Slot>, parts: &[Part]) -> Result<(), NoMemory>
    ensures { OnOk result (slots.new.items ≡ slots.old.items ++ flat_map slots_of_part (map part_of parts.now)) }
{
    for part in parts {
        add_part(slots, part)?;
    }
    Ok(())
}

/// Puts in the slot of the calls of a head's predicate.
fn add_call(slots: &mut Vec<Slot>, head: &Term) -> Result<(), NoMemory>
    ensures { OnOk result (slots.new.items ≡ slots.old.items ++ call_slot (predicate_of (tree_of head.now))) }
{
    let Some(predicate) = Predicate::of(head) else {
        return Ok(());
    };
    slots.push(Slot::Call(predicate))?;
    Ok(())
}

/// The slots that a clause reads.
fn slots_of(alloc: Global, clause: &Clause) -> Result<Vec<Slot>, NoMemory>
    ensures { IfOk result (λ r. r.items ≡ slots_of clause.now) }
{
    let mut slots = Vec::new(alloc);
    add_call(&mut slots, clause.head())?;
    add_parts(&mut slots, clause.body().as_slice())?;
    Ok(slots)
}

/// Puts a clause's number to each of the slots.
fn note(
    alloc: Global,
    readers: &mut Numbered,
    slots: &[Slot],
    number: usize,
) -> Result<(), NoMemory>
    ensures { OnOk result ((x : Slot) → numbers_of readers.new x ≡ numbers_of readers.old x ++ noted number slots.now x) }
{
    for slot in slots {
        readers.add(alloc, *slot, number)?;
    }
    Ok(())
}

/// The clauses that read a slot, by their numbers.
pub fn readers_of(alloc: Global, program: &Program) -> Result<Numbered, NoMemory>
    ensures { IfOk result (λ r. IsIndex program.now (numbers_of r)) }
{
    let clauses = program.as_slice();
    let mut readers = Numbered::new(alloc);
    for i in 0..clauses.len() {
        let slots = slots_of(alloc, &clauses[i])?;
        note(alloc, &mut readers, slots.as_slice(), i)?;
    }
    Ok(readers)
}

/// The numbers at one of the slots, in order.
fn numbers_at(alloc: Global, readers: &Numbered, slots: &[Slot]) -> Result<Vec<usize>, NoMemory>
    ensures { IfOk result (λ r. IsPermutation (flat_map (numbers_of readers.now) slots.now) r.items) }
{
    let mut numbers = Vec::new(alloc);
    for slot in slots {
        numbers.extend_from_slice(readers.at(*slot))?;
    }
    numbers.sort()?;
    Ok(numbers)
}

/// Puts in what the clause of a number gives.
fn add_numbered(
    alloc: Global,
    table: &Table,
    clauses: &[Clause],
    number: usize,
    given: &mut Vec<Given>,
) -> Result<(), NoMemory>
    ensures { OnOk result (given.new.items ≡ given.old.items ++ given_by_number (patterns table.now) clauses.now number) }
{
    match clauses.get(number) {
        Some(clause) => add_clause(alloc, table, clause, given),
        None => Ok(()),
    }
}

fn is_last(last: Option<usize>, number: usize) -> bool
    ensures { result ≡ is_last last number }
{
    match last {
        Some(n) => n == number,
        None => false,
    }
}

/// What the clauses of numbers give; of equal numbers beside one another once.
fn given_by_numbers(
    alloc: Global,
    table: &Table,
    clauses: &[Clause],
    numbers: &[usize],
) -> Result<Vec<Given>, NoMemory>
    ensures { IfOk result (λ r. r.items ≡ given_by_numbers (patterns table.now) clauses.now numbers.now) }
{
    let mut given = Vec::new(alloc);
    let mut last = None;
    for number in numbers {
        if !is_last(last, *number) {
            add_numbered(alloc, table, clauses, *number, &mut given)?;
            last = Some(*number);
        }
    }
    Ok(given)
}

/// What the clauses give that read one of the slots.
pub fn given_by_readers(
    alloc: Global,
    program: &Program,
    readers: &Numbered,
    table: &Table,
    slots: &[Slot],
) -> Result<Vec<Given>, NoMemory>
    requires { IsIndex program.now (numbers_of readers.now) }
    ensures { IfOk result (λ r. IsReread program.now slots.now (patterns table.now) r.items) }
{
    let numbers = numbers_at(alloc, readers, slots)?;
    let given = given_by_numbers(alloc, table, program.as_slice(), numbers.as_slice())?;
    Ok(given)
}
