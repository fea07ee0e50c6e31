//! Goals, and what is put into registers before them.

ghost use Rattle.std.specs.Prelude.{◌≡◌, ℕ, true, IfOk, IfSome};
ghost use Rattle.ap_term.specs.Tree.{Tree, node};
ghost use Rattle.ap_instr.specs.Steps.{steps_from};
ghost use Rattle.ap_direct.specs.Goals.{operation_name, part_tree, pair, AsksFirst};
ghost use Rattle.ap_direct.specs.Puts.{simple_tree, PutsFirst, IsUnseen};
ghost use Rattle.ap_direct.specs.Before.{IsOperandBefore, IsRegisterBefore, IsPartBefore, IsGoalBefore, IsBefore, GivesNew};

use crate::finding::{Placed, Put, Simple, are_different, is_register, is_unseen, part_is_apart};
use crate::goal::{Direct, Goal, Operand, Part};
use ap_instr::{Code, Slot};
use ap_term::{NoMemory, Operation};
use std::alloc::Global;

/// How many structures the code of a goal puts at most. No expression is nested more deeply.
const STRUCTURES: u32 = 16;

/// What an operand is before an expression is put into an X register.
fn operand_before(operand: Operand, a: u32, simple: Simple) -> Simple
    ensures { IsOperandBefore a simple operand result }
{
    match operand {
        Operand::Register(Slot::X(n)) => {
            if n == a {
                return simple;
            }
            Simple::Operand(operand)
        }
        Operand::Register(Slot::Y(_)) => Simple::Operand(operand),
        Operand::Integer(_) => Simple::Operand(operand),
    }
}

fn part_of(simple: Simple) -> Part
    ensures { (x y : ℕ → Tree) → part_tree result x y ≡ simple_tree simple x y }
{
    match simple {
        Simple::Operand(operand) => Part::Operand(operand),
        Simple::Operation(operation, left, right) => Part::Operation(operation, left, right),
    }
}

/// An operation on expressions.
fn nested(alloc: Global, operation: Operation, left: Part, right: Part) -> Result<Part, NoMemory>
    ensures { IfOk result (λ p. (x y : ℕ → Tree) → part_tree p x y ≡ node (operation_name operation) (pair (part_tree left x y) (part_tree right x y))) }
{
    let left = Box::new(alloc, left)?;
    let right = Box::new(alloc, right)?;
    Ok(Part::Nested(operation, left, right))
}

/// An operation on expressions of one operation at most.
fn operation_on(
    alloc: Global,
    operation: Operation,
    left: Simple,
    right: Simple,
) -> Result<Part, NoMemory>
    ensures { IfOk result (λ p. (x y : ℕ → Tree) → part_tree p x y ≡ node (operation_name operation) (pair (simple_tree left x y) (simple_tree right x y))) }
{
    if let Simple::Operand(a) = left {
        if let Simple::Operand(b) = right {
            return Ok(Part::Operation(operation, a, b));
        }
    }
    nested(alloc, operation, part_of(left), part_of(right))
}

/// What an expression is before another one is put into an X register.
fn part_before(alloc: Global, part: Part, a: u32, simple: Simple) -> Result<Part, NoMemory>
    ensures { IfOk result (λ q. IsPartBefore a simple part q) }
{
    match part {
        Part::Operand(operand) => Ok(part_of(operand_before(operand, a, simple))),
        Part::Operation(operation, left, right) => {
            let left = operand_before(left, a, simple);
            let right = operand_before(right, a, simple);
            operation_on(alloc, operation, left, right)
        }
        Part::Nested(operation, left, right) => {
            let left = part_before(alloc, Box::into_inner(left), a, simple)?;
            let right = part_before(alloc, Box::into_inner(right), a, simple)?;
            nested(alloc, operation, left, right)
        }
    }
}

/// The register that holds what a register does behind an expression's being put into an X register, if one does.
#[tactic(auto, using(crate::proofs::Found::register_put))]
fn register_before(v: Slot, a: u32, simple: Simple) -> Option<Slot>
    ensures { IfSome result (λ w. IsRegisterBefore a simple v w) }
{
    if are_different(v, Slot::X(a)) {
        return Some(v);
    }
    if !is_register(v, a) {
        return None;
    }
    match simple {
        Simple::Operand(Operand::Register(w)) => Some(w),
        _ => None,
    }
}

/// What a goal is before an expression is put into an X register.
fn goal_before(alloc: Global, goal: Goal, a: u32, simple: Simple) -> Result<Option<Goal>, NoMemory>
    ensures { IfOk result (λ o. IfSome o (λ g. IsGoalBefore a simple goal g)) }
{
    match goal {
        Goal::Compare(op, left, right) => {
            let left = part_before(alloc, left, a, simple)?;
            let right = part_before(alloc, right, a, simple)?;
            Ok(Some(Goal::Compare(op, left, right)))
        }
        Goal::Match(v, part) => {
            let Some(w) = register_before(v, a, simple) else {
                return Ok(None);
            };
            let part = part_before(alloc, part, a, simple)?;
            Ok(Some(Goal::Match(w, part)))
        }
        Goal::Give(v, part) => {
            let part = part_before(alloc, part, a, simple)?;
            Ok(Some(Goal::Give(v, part)))
        }
    }
}

/// What a goal is before a new variable is put into an X register and another one, if it gives that variable its value.
fn giving(goal: Goal, a: u32, v: Slot) -> Option<Goal>
    ensures { IfSome result (λ g. GivesNew a v goal g) }
{
    let Goal::Match(w, part) = goal else {
        return None;
    };
    if !is_register(w, a) {
        return None;
    }
    if !part_is_apart(&part, v) {
        return None;
    }
    if !part_is_apart(&part, Slot::X(a)) {
        return None;
    }
    Some(Goal::Give(v, part))
}

fn before(alloc: Global, goal: Goal, a: u32, put: Put) -> Result<Option<Goal>, NoMemory>
    ensures { IfOk result (λ o. IfSome o (λ g. IsBefore a put goal g)) }
{
    match put {
        Put::New(v) => Ok(giving(goal, a, v)),
        Put::Simple(simple) => goal_before(alloc, goal, a, simple),
    }
}

/// How many structures are put, those of a goal among them.
fn structures_with(put: Put, behind: u32) -> u32 {
    match put {
        Put::Simple(Simple::Operation(_, _, _)) => behind.saturating_add(1),
        _ => behind,
    }
}

/// Whether a goal can begin where something is put before it.
fn can_begin(goal: &Goal, a: u32, put: Put) -> bool {
    match goal {
        Goal::Match(w, part) => match put {
            Put::New(v) => {
                if !is_register(*w, a) {
                    return false;
                }
                if !part_is_apart(part, v) {
                    return false;
                }
                part_is_apart(part, Slot::X(a))
            }
            Put::Simple(Simple::Operand(Operand::Register(_))) => true,
            Put::Simple(_) => are_different(*w, Slot::X(a)),
        },
        Goal::Compare(_, _, _) => is_simple(put),
        Goal::Give(_, _) => is_simple(put),
    }
}

fn is_simple(put: Put) -> bool {
    match put {
        Put::New(_) => false,
        Put::Simple(_) => true,
    }
}

/// Whether what is put before a goal can be taken into it: nothing behind the goal sees that it was put.
pub(crate) fn is_part_of(code: &Code, placed: Placed, direct: &Direct) -> bool
    ensures { result ≡ true → IsUnseen placed.register placed.put (steps_from code.now direct.now.to) }
{
    if structures_with(placed.put, direct.structures) > STRUCTURES {
        return false;
    }
    if !can_begin(&direct.goal, placed.register, placed.put) {
        return false;
    }
    is_unseen(code, direct.to, placed.put, placed.register)
}

/// The goal that begins where something is put before a goal.
#[tactic(auto, using(crate::proofs::Found::asks_before))]
pub(crate) fn preceded(
    alloc: Global,
    code: &Code,
    at: usize,
    placed: Placed,
    direct: Direct,
) -> Result<Option<Direct>, NoMemory>
    requires puts { PutsFirst (steps_from code.now at) placed.register placed.put (steps_from code.now placed.to) }
    requires asks { AsksFirst code.now placed.to direct }
    requires unseen { IsUnseen placed.register placed.put (steps_from code.now direct.to) }
    ensures { IfOk result (λ o. IfSome o (λ d. AsksFirst code.now at d)) }
{
    let to = direct.to;
    let structures = structures_with(placed.put, direct.structures);
    match before(alloc, direct.goal, placed.register, placed.put)? {
        Some(goal) => Ok(Some(Direct {
            goal,
            to,
            structures,
        })),
        None => Ok(None),
    }
}
