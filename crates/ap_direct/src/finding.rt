//! Goals of arithmetic in code.

ghost use Rattle.std.specs.Prelude.{◌≡◌, ℕ, ◌+◌, ◌<◌, ◌∷◌, length, slice_get, Some, true, IfSome, MatchOption};
ghost use Rattle.ap_term.specs.Tree.{Tree};
ghost use Rattle.ap_instr.specs.declared.instruction.Instr.TheVariants.{PutInteger, PutStructure};
ghost use Rattle.ap_instr.specs.declared.instruction.Slot.TheVariants.{X};
ghost use Rattle.ap_instr.specs.Builtin.{relation_name};
ghost use Rattle.ap_instr.specs.Runs.{read, set_x, set_y};
ghost use Rattle.ap_instr.specs.Step.{builtin};
ghost use Rattle.ap_instr.specs.Steps.{steps_from};
ghost use Rattle.ap_direct.specs.Goals.{AsksFirst};
ghost use Rattle.ap_direct.specs.Puts.{PutsFirst, FillsFirst, IsApart, IsPartApart, IsInPlace, IsUnseen, IsGoalOf};
ghost use Rattle.ap_direct.specs.declared.goal.Operand.TheVariants.{Register};
ghost use Rattle.ap_direct.specs.declared.goal.Part.TheVariants.{Operand as One};

use crate::goal::{Direct, Goal, Operand, Part};
use crate::unread::{instruction_at, is_unread};
use ap_instr::{Builtin, Code, Instr, Slot};
use ap_term::{Atom, Operation, Relation};

/// An expression of one operation at most.
#[derive(Clone, Copy)]
pub enum Simple {
    Operand(Operand),
    Operation(Operation, Operand, Operand),
}

/// What is put into a register: a new variable, which another register gets too, or an expression.
#[derive(Clone, Copy)]
pub enum Put {
    New(Slot),
    Simple(Simple),
}

/// What is put into an X register, and the place behind its instructions.
#[derive(Clone, Copy)]
pub struct Placed {
    pub register: u32,
    pub put: Put,
    pub to: usize,
}

/// An argument of a structure, and the place behind its instruction.
#[derive(Clone, Copy)]
pub struct Filled {
    pub operand: Operand,
    pub to: usize,
}

fn integer_at(code: &Code, i: u32) -> Option<i64>
    ensures { result ≡ slice_get code.now.integers i }
{
    code.integers().get(i as usize).copied()
}

/// The place behind an instruction.
fn behind(code: &Code, at: usize) -> usize
    requires { at < length code.now.instructions }
    ensures { result ≡ at + 1 }
{
    prove!(at < code.instructions().len());
    at + 1
}

/// An argument of a structure that is an operand.
#[tactic(auto, using(crate::proofs::Found::value_fills_at, crate::proofs::Found::integer_fills_at))]
fn operand_at(code: &Code, at: usize) -> Option<Filled>
    ensures { IfSome result (λ f. FillsFirst (steps_from code.now at) f.operand (steps_from code.now f.to)) }
{
    match instruction_at(code, at) {
        Some(Instr::UnifyValue(v)) => Some(Filled {
            operand: Operand::Register(v),
            to: behind(code, at),
        }),
        Some(Instr::UnifyInteger(i)) => match integer_at(code, i) {
            Some(z) => Some(Filled {
                operand: Operand::Integer(z),
                to: behind(code, at),
            }),
            None => None,
        },
        _ => None,
    }
}

/// Whether two registers are different ones.
pub(crate) fn are_different(v: Slot, w: Slot) -> bool
    ensures { result ≡ true → (x y : ℕ → Tree) (t : Tree) → read v (set_x w t x) (set_y w t y) ≡ read v x y }
{
    match v {
        Slot::X(n) => match w {
            Slot::X(m) => n != m,
            Slot::Y(_) => true,
        },
        Slot::Y(n) => match w {
            Slot::X(_) => true,
            Slot::Y(m) => n != m,
        },
    }
}

/// Whether an operand isn't what a register holds.
fn is_apart(operand: Operand, v: Slot) -> bool
    ensures { result ≡ true → IsApart v operand }
{
    match operand {
        Operand::Register(w) => are_different(w, v),
        Operand::Integer(_) => true,
    }
}

/// Whether no operand of an expression is what a register holds.
pub(crate) fn part_is_apart(part: &Part, v: Slot) -> bool
    ensures { result ≡ true → IsPartApart v part.now }
{
    match part {
        Part::Operand(operand) => is_apart(*operand, v),
        Part::Operation(_, left, right) => {
            if !is_apart(*left, v) {
                return false;
            }
            is_apart(*right, v)
        }
        Part::Nested(_, left, right) => {
            if !part_is_apart(left, v) {
                return false;
            }
            part_is_apart(right, v)
        }
    }
}

/// A structure that is an operation.
#[tactic(auto, using(crate::proofs::Found::structure_puts_at))]
fn structure_at(code: &Code, at: usize, name: Atom, count: u8, a: u32) -> Option<Placed>
    requires { slice_get code.now.instructions at ≡ Some (PutStructure name count a) }
    ensures { IfSome result (λ p. PutsFirst (steps_from code.now at) p.register p.put (steps_from code.now p.to)) }
{
    if count != 2 {
        return None;
    }
    let Some(operation) = Operation::named(name) else {
        return None;
    };
    let first = behind(code, at);
    let Some(left) = operand_at(code, first) else {
        return None;
    };
    let Some(right) = operand_at(code, left.to) else {
        return None;
    };
    if !is_apart(left.operand, Slot::X(a)) {
        return None;
    }
    if !is_apart(right.operand, Slot::X(a)) {
        return None;
    }
    Some(Placed {
        register: a,
        put: Put::Simple(Simple::Operation(operation, left.operand, right.operand)),
        to: right.to,
    })
}

/// What an integer's instruction puts.
#[tactic(auto, using(crate::proofs::Found::integer_puts_at))]
fn integer_put(code: &Code, at: usize, i: u32, register: u32) -> Option<Placed>
    requires { slice_get code.now.instructions at ≡ Some (PutInteger i register) }
    ensures { IfSome result (λ p. PutsFirst (steps_from code.now at) p.register p.put (steps_from code.now p.to)) }
{
    let Some(z) = integer_at(code, i) else {
        return None;
    };
    Some(Placed {
        register,
        put: Put::Simple(Simple::Operand(Operand::Integer(z))),
        to: behind(code, at),
    })
}

/// What an instruction puts.
#[tactic(auto, using(crate::proofs::Found::variable_puts_at, crate::proofs::Found::value_puts_at))]
fn put_by(code: &Code, at: usize, instr: Instr) -> Option<Placed>
    requires { slice_get code.now.instructions at ≡ Some instr }
    ensures { IfSome result (λ p. PutsFirst (steps_from code.now at) p.register p.put (steps_from code.now p.to)) }
{
    match instr {
        Instr::PutVariable(v, register) => Some(Placed {
            register,
            put: Put::New(v),
            to: behind(code, at),
        }),
        Instr::PutValue(v, register) => Some(Placed {
            register,
            put: Put::Simple(Simple::Operand(Operand::Register(v))),
            to: behind(code, at),
        }),
        Instr::PutInteger(i, register) => integer_put(code, at, i, register),
        Instr::PutStructure(name, count, register) => {
            structure_at(code, at, name, count, register)
        }
        _ => None,
    }
}

/// What the code at a place puts into a register.
pub(crate) fn put_at(code: &Code, at: usize) -> Option<Placed>
    ensures { IfSome result (λ p. PutsFirst (steps_from code.now at) p.register p.put (steps_from code.now p.to)) }
{
    let Some(instr) = instruction_at(code, at) else {
        return None;
    };
    put_by(code, at, instr)
}

/// Whether a register is an X register of a number.
pub(crate) fn is_register(v: Slot, a: u32) -> bool
    ensures { result ≡ true → v ≡ X a }
{
    match v {
        Slot::X(n) => n == a,
        Slot::Y(_) => false,
    }
}

/// Whether a register holds what is put into it before that.
fn is_in_place(put: Put, a: u32) -> bool
    ensures { result ≡ true → IsInPlace a put }
{
    match put {
        Put::New(v) => is_register(v, a),
        Put::Simple(Simple::Operand(Operand::Register(v))) => is_register(v, a),
        Put::Simple(_) => false,
    }
}

/// Whether the code from a place on doesn't see what was put into a register.
pub(crate) fn is_unseen(code: &Code, to: usize, put: Put, a: u32) -> bool
    ensures { result ≡ true → IsUnseen a put (steps_from code.now to) }
{
    if is_in_place(put, a) {
        return true;
    }
    is_unread(code, to, a)
}

/// The relation of a built-in goal.
#[tactic(auto, using(crate::proofs::Found::relation_stands_at))]
fn relation_at(code: &Code, at: usize) -> Option<Relation>
    ensures { IfSome result (λ r. steps_from code.now at ≡ builtin (relation_name r) 2 ∷ steps_from code.now (at + 1)) }
{
    match instruction_at(code, at) {
        Some(Instr::Builtin(Builtin::Relation(relation))) => Some(relation),
        _ => None,
    }
}

fn argument(a: u32) -> Part
    ensures { result ≡ One (Register (X a)) }
{
    Part::Operand(Operand::Register(Slot::X(a)))
}

/// The goal of a relation on the first two X registers, if it is arithmetic.
fn goal_of(relation: Relation) -> Option<Goal>
    ensures { IfSome result (λ g. IsGoalOf relation g) }
{
    match relation {
        Relation::Compare(op) => Some(Goal::Compare(op, argument(1), argument(2))),
        Relation::Is => Some(Goal::Match(Slot::X(1), argument(2))),
        _ => None,
    }
}

/// The goal of arithmetic on registers at whose instruction a place is.
#[tactic(auto, using(crate::proofs::Found::asks_there))]
pub(crate) fn goal_on_registers(code: &Code, at: usize) -> Option<Direct>
    ensures { IfSome result (λ d. AsksFirst code.now at d) }
{
    let Some(relation) = relation_at(code, at) else {
        return None;
    };
    let to = behind(code, at);
    match goal_of(relation) {
        Some(goal) => Some(Direct {
            goal,
            to,
            structures: 0,
        }),
        None => None,
    }
}
