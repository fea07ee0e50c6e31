//! Goals of arithmetic on registers.

use ap_instr::Slot;
use ap_term::{Op, Operation};

/// An operand: what a register holds, or an integer.
#[derive(Clone, Copy)]
pub enum Operand {
    Register(Slot),
    Integer(i64),
}

/// An expression.
#[derive(Drop)]
pub enum Part {
    Operand(Operand),
    Operation(Operation, Operand, Operand),
    /// An operation on expressions.
    Nested(Operation, Box<Part>, Box<Part>),
}

/// A goal on registers.
#[derive(Drop)]
pub enum Goal {
    /// The values of two expressions compare so.
    Compare(Op, Part, Part),
    /// What a register holds is the value of an expression.
    Match(Slot, Part),
    /// A new variable, which a register gets, is the value of an expression.
    Give(Slot, Part),
}

/// A goal, the place behind it, and how many structures its code puts.
#[derive(Drop)]
pub struct Direct {
    pub goal: Goal,
    pub to: usize,
    pub structures: u32,
}
