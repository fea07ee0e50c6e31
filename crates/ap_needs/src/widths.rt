//! How many registers code writes.

ghost use Rattle.std.specs.Prelude.{◌≡◌, ℕ, ◌<◌, ◌≤◌, length, drop, slice_get, Some};
ghost use Rattle.ap_instr.specs.declared.compiled.Predicate.{Predicate};
ghost use Rattle.ap_instr.specs.Code.{Compiled};
ghost use Rattle.ap_needs.specs.Behind.{Begins, StandsAlone};
ghost use Rattle.ap_needs.specs.Needs.{HasRegister, HasTargets, AllHaveTargets, AreWidthsOf};

use ap_instr::{Code, Instr, Slot};

/// So many X registers there are at least, so that those of most code are as many, and are written all at once in no loop.
const FEW: usize = 16;

/// Numbers of registers, from 0 on.
#[derive(Clone, Copy)]
pub struct Widths {
    pub x: usize,
    pub y: usize,
}

fn of_slot(v: Slot) -> Widths
    ensures { (xs ys : ℕ) → result.x ≤ xs → result.y ≤ ys → HasRegister v xs ys }
{
    match v {
        Slot::X(n) => Widths {
            x: n as usize + 1,
            y: 0,
        },
        Slot::Y(n) => Widths {
            x: 0,
            y: n as usize + 1,
        },
    }
}

fn of_argument(a: u32) -> Widths
    ensures { (xs : ℕ) → result.x ≤ xs → a < xs }
{
    Widths {
        x: a as usize + 1,
        y: 0,
    }
}

fn wider(a: Widths, b: Widths) -> Widths
    ensures a_x { a.x ≤ result.x }
    ensures a_y { a.y ≤ result.y }
    ensures b_x { b.x ≤ result.x }
    ensures b_y { b.y ≤ result.y }
{
    Widths {
        x: a.x.max(b.x),
        y: a.y.max(b.y),
    }
}

/// The registers that an instruction writes.
fn of_instr(instr: &Instr) -> Widths
    ensures { (xs ys : ℕ) → result.x ≤ xs → result.y ≤ ys → HasTargets instr.now xs ys }
{
    match *instr {
        Instr::GetVariable(v, _) => of_slot(v),
        Instr::PutVariable(v, a) => wider(of_slot(v), of_argument(a)),
        Instr::PutValue(_, a) => of_argument(a),
        Instr::PutConstant(_, a) => of_argument(a),
        Instr::PutInteger(_, a) => of_argument(a),
        Instr::PutStructure(_, _, a) => of_argument(a),
        Instr::UnifyVariable(v) => of_slot(v),
        _ => Widths { x: 0, y: 0 },
    }
}

/// The registers that code's instructions behind so many write.
fn of_instructions(code: &Code, from: usize) -> Widths
    ensures { (at : ℕ) (xs ys : ℕ) → from ≤ at → result.x ≤ xs → result.y ≤ ys → AllHaveTargets (drop at code.now.instructions) xs ys }
{
    let instructions = code.instructions();
    let mut most = Widths { x: FEW, y: 1 };
    for place in from..instructions.len() {
        most = wider(most, of_instr(&instructions[place]));
    }
    most
}

/// The registers of arguments of predicates behind so many.
fn of_arguments(code: &Code, from: usize) -> usize
    ensures { (n : ℕ) (q : Predicate) → from ≤ n → slice_get code.now.predicates n ≡ Some q → q.arity < result }
{
    let predicates = code.predicates();
    let mut most = 1;
    for number in from..predicates.len() {
        most = most.max(predicates[number].arity as usize + 1);
    }
    most
}

/// The registers that code writes, and those of arguments, where those of the code that it begins with are known.
pub fn widths_behind(code: &Code, before: Widths, places: usize, predicates: usize) -> Widths
    ensures { (base : Compiled) → Begins base code.now → StandsAlone base → AreWidthsOf base before → places ≡ length base.instructions → predicates ≡ length base.predicates → AreWidthsOf code.now result }
{
    let own = of_instructions(code, places);
    let arguments = of_arguments(code, predicates);
    let written = wider(before, own);
    Widths {
        x: written.x.max(arguments),
        y: written.y,
    }
}

/// The registers that code writes, and those of arguments.
pub fn widths_of(code: &Code) -> Widths
    ensures { AreWidthsOf code.now result }
{
    widths_behind(code, Widths { x: 1, y: 1 }, 0, 0)
}
