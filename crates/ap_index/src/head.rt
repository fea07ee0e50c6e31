//! What the head of a clause asks of the arguments of a call.

ghost use Rattle.std.specs.Prelude.{◌≡◌, ℕ, ◌<◌, ◌≤◌, true, false, IfOk};
ghost use Rattle.ap_term.specs.Tree.{Tree};
ghost use Rattle.ap_instr.specs.Runs.{set_x};
ghost use Rattle.ap_instr.specs.Code.{Compiled};
ghost use Rattle.ap_index.specs.Heads.{IsNarrower, AsksFor, IsPassed, IsHeadOf};

use crate::key::{Key, instruction_at, integer_key};
use crate::opening::is_open;
use ap_instr::{Code, Instr, Slot};
use ap_term::NoMemory;
use std::alloc::Global;

/// An argument of a call, and the key that a head asks it to have.
#[derive(Clone, Copy)]
pub struct Ask {
    pub argument: u32,
    pub key: Key,
}

/// What a head asks of the arguments of a call, and whether it asks for nothing else.
#[derive(Drop)]
pub struct Head {
    pub(crate) asks: Vec<Ask>,
    pub(crate) whole: bool,
}

impl Head {
    /// The arguments that have to have a key, or an unbound variable.
    #[inline(always)]
    pub fn asks(&self) -> &[Ask]
        ensures { result.now ≡ self.now.asks.items }
    {
        &self.asks
    }

    /// Whether the clause can be entered wherever its asks are met.
    #[inline(always)]
    pub fn is_whole(&self) -> bool
        ensures { result ≡ self.now.whole }
    {
        self.whole
    }
}

/// How far a head was gone through.
#[derive(Clone, Copy)]
pub(crate) struct Reading {
    /// The X registers from this one on, to before `to`, hold what they held at the call.
    pub(crate) from: u32,
    pub(crate) to: u32,
    /// The argument that was come to last.
    pub(crate) last: u32,
    /// So many arguments of a structure are still to come.
    pub(crate) left: u8,
}

impl Reading {
    /// At the head's first instruction.
    fn new() -> Reading
        ensures from { result.from ≡ 0 }
        ensures left { result.left ≡ 0 }
    {
        Reading {
            from: 0,
            to: u32::MAX,
            last: 0,
            left: 0,
        }
    }

    /// Whether an X register holds what it held at the call.
    fn keeps(self, register: u32) -> bool
        ensures kept { result ≡ true → (self.from ≤ register) × (register < self.to) }
        ensures lost { result ≡ false → self.from ≤ register → register < self.to → ⊥ }
    {
        self.from <= register && register < self.to
    }

    /// Behind an instruction that writes a register. Where one that was kept is written, either those up to it or those from
    /// it on are kept no more: those that were come to are asked for nothing else.
    fn written(self, v: Slot) -> Reading
        ensures narrower { IsNarrower self result }
        ensures left { result.left ≡ self.left }
        ensures same { (r : ℕ → Tree) (t : Tree) (w : ℕ) → result.from ≤ w → w < result.to → set_x v t r w ≡ r w }
    {
        let Slot::X(n) = v else {
            return self;
        };
        if !self.keeps(n) {
            return self;
        }
        if n <= self.last {
            Reading {
                from: n + 1,
                ..self
            }
        } else {
            Reading { to: n, ..self }
        }
    }

    /// Behind an instruction that asks for a key of an argument, where that has so many arguments.
    fn asked(self, argument: u32, left: u8) -> Reading
        ensures from { result.from ≡ self.from }
        ensures to { result.to ≡ self.to }
        ensures left { result.left ≡ left }
    {
        Reading {
            last: argument,
            left,
            ..self
        }
    }
}

/// What an instruction of a head asks.
#[derive(Clone, Copy)]
pub(crate) enum Passed {
    /// Nothing.
    On(Reading),
    /// A key of an argument.
    Asking(Ask, Reading),
    /// Something else, or it is none of the head.
    No,
}

/// Behind an argument of a structure.
fn past_argument(instr: Instr, reading: Reading) -> Passed
    requires { 0 < reading.left }
    ensures { (code : Compiled) → IsPassed code instr reading result }
{
    match instr {
        Instr::UnifyVariable(v) => Passed::On(Reading {
            left: reading.left - 1,
            ..reading.written(v)
        }),
        _ => Passed::No,
    }
}

/// Behind an instruction that asks for a key of an argument, the arguments of which come behind it, if the argument is kept.
fn past_ask(reading: Reading, argument: u32, key: Key, left: u8) -> Passed
    ensures asks { AsksFor argument key left reading result }
{
    if !reading.keeps(argument) {
        return Passed::No;
    }
    Passed::Asking(Ask { argument, key }, reading.asked(argument, left))
}

/// Behind an instruction of a head, where no argument of a structure is to come.
fn past_instruction(code: &Code, instr: Instr, reading: Reading) -> Passed
    requires { reading.left ≡ 0 }
    ensures { IsPassed code.now instr reading result }
{
    match instr {
        Instr::Allocate(_) => Passed::On(reading),
        Instr::GetVariable(v, a) => Passed::On(Reading { last: a, ..reading }.written(v)),
        Instr::GetConstant(name, a) => past_ask(reading, a, Key::Atom(name.number()), 0),
        Instr::GetInteger(index, a) => match integer_key(code, index) {
            Some(key) => past_ask(reading, a, key, 0),
            None => Passed::No,
        },
        Instr::GetStructure(name, count, a) => {
            past_ask(reading, a, Key::Structure(name.number(), count), count)
        }
        _ => Passed::No,
    }
}

/// Behind an instruction of a head.
fn past(code: &Code, instr: Instr, reading: Reading) -> Passed
    ensures { IsPassed code.now instr reading result }
{
    if reading.left > 0 {
        past_argument(instr, reading)
    } else {
        past_instruction(code, instr, reading)
    }
}

/// What the head of the clause at a place asks. One that surely asks for nothing else leads to where the code is open.
pub(crate) fn head_at(alloc: Global, code: &Code, at: usize) -> Result<Head, NoMemory>
    ensures { IfOk result (λ head. IsHeadOf code.now at head) }
{
    let mut asks = Vec::new(alloc);
    let mut reading = Reading::new();
    for place in at..code.instructions().len() {
        let Some(instr) = instruction_at(code, place) else {
            return Ok(Head { asks, whole: false });
        };
        match past(code, instr, reading) {
            Passed::On(next) => reading = next,
            Passed::Asking(ask, next) => {
                asks.push(ask)?;
                reading = next;
            }
            Passed::No => {
                let whole = reading.left == 0 && is_open(code, place);
                return Ok(Head { asks, whole });
            }
        }
    }
    Ok(Head { asks, whole: false })
}
