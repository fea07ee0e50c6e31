//! Evaluation: by calls as far as operations are not nested deeply, and by a list of the operations that wait for an
//! operand below that.

ghost use Rattle.std.specs.Prelude.{◌≡◌, ℕ, ◌+◌, ◌*◌, ◌<◌, ◌≤◌, ◌==◌, if◌then◌else◌, List, [], Ok, Err, length, IfOk, OnOk};
ghost use Rattle.ap_term.specs.Tree.{Tree, node};
ghost use Rattle.ap_term.specs.Arithmetic.{evaluated, eval, compare_values, negated, operation_named, value_of};
ghost use Rattle.ap_term.specs.declared.faults.Fault.TheVariants.{WrongType};
ghost use Rattle.ap_term.specs.declared.fixed.TheConstants.{MINUS};
ghost use Rattle.ap_cells.specs.Trees.{tree_at, trees, span};
ghost use Rattle.ap_cells.specs.Walks.{Each, weight_all};
ghost use Rattle.ap_arith.specs.Valued.{IsFrame, IsTurn, framed, valued, turned, weight_turn, weight_frame, weight_frames};

use ap_cells::{Cells, Top};
use ap_spec::{applied, compares, negated};
use ap_term::{Atom, Fault, NoMemory, Op, Operation, fixed};
use std::alloc::Global;

/// An operation that waits for an operand.
#[derive(Clone, Copy)]
pub enum Frame {
    Negate,
    /// For its left operand; the right one is that of a place.
    Left(Operation, usize),
    /// For its right operand; the left one has this value.
    Right(Operation, i64),
}

/// What comes next: a place whose expression is to be evaluated, a value, or a fault in its place.
#[derive(Clone, Copy)]
pub enum Turn {
    Open(usize),
    Close(i64),
    Stop(Fault),
}

/// How deeply operations may be nested that are evaluated by calls, without the list.
const LEVELS: u32 = 8;

/// The list of an evaluation, whose memory is kept for the next one.
#[derive(Drop)]
pub struct Pending {
    frames: Vec<Frame>,
}

impl Pending {
    /// Takes no memory.
    pub fn new(alloc: Global) -> Pending {
        Pending {
            frames: Vec::new(alloc),
        }
    }
}

/// The value of a place's expression, by a list of the operations that wait for an operand, and None where it has none.
#[inline(never)]
fn eval_deep(cells: &Cells, place: usize, pending: &mut Pending) -> Result<Option<i64>, NoMemory>
    requires { place < length cells.now.cells }
    ensures { IfOk result (λ value. value ≡ eval (tree_at (trees cells.now.cells) place)) }
{
    pending.frames.clear();
    Ok(run(cells, place, &mut pending.frames)?.ok())
}

/// The value of a place's expression, and None where it has none.
#[inline(always)]
pub fn eval(cells: &Cells, place: usize, pending: &mut Pending) -> Result<Option<i64>, NoMemory>
    requires { place < length cells.now.cells }
    ensures { IfOk result (λ value. value ≡ eval (tree_at (trees cells.now.cells) place)) }
{
    match operand(cells, place, LEVELS) {
        Turn::Close(value) => Ok(Some(value)),
        Turn::Stop(_) => Ok(None),
        Turn::Open(deep) => eval_deep(cells, deep, pending),
    }
}

/// Whether two places' expressions have values that compare so.
#[inline(always)]
pub fn test(
    cells: &Cells,
    op: Op,
    a: usize,
    b: usize,
    pending: &mut Pending,
) -> Result<bool, NoMemory>
    requires { (a < length cells.now.cells) × (b < length cells.now.cells) }
    ensures { IfOk result (λ holds. holds ≡ compare_values op (eval (tree_at (trees cells.now.cells) a)) (eval (tree_at (trees cells.now.cells) b))) }
{
    let Some(x) = eval(cells, a, pending)? else {
        return Ok(false);
    };
    let Some(y) = eval(cells, b, pending)? else {
        return Ok(false);
    };
    Ok(compares(op, x, y))
}

/// The value of a place's expression, or the place itself where more operations are nested there than `levels`.
#[inline(always)]
#[cycle(nested)]
fn operand(cells: &Cells, place: usize, levels: u32) -> Turn
    requires { place < length cells.now.cells }
    ensures value { turned (trees cells.now.cells) result ≡ evaluated (tree_at (trees cells.now.cells) place) }
    ensures inside { IsTurn (length cells.now.cells) result }
{
    match cells.top(place) {
        Top::Int(z) => Turn::Close(z),
        Top::Free(_) => Turn::Stop(Fault::Instantiation),
        Top::Atom(_) => Turn::Stop(Fault::WrongType),
        Top::Node(name, first, count) => {
            if levels == 0 {
                return Turn::Open(place);
            }
            operation(cells, place, name, first, count, levels - 1)
        }
    }
}

/// The value of a place's operation on the operands from `first` on, or the place itself.
#[cycle(nested)]
fn operation(cells: &Cells, place: usize, name: Atom, first: usize, count: u32, levels: u32) -> Turn
    requires place { place < length cells.now.cells }
    requires operands { first + count ≤ length cells.now.cells }
    requires tree { tree_at (trees cells.now.cells) place ≡ node name (span (trees cells.now.cells) first count) }
    ensures value { turned (trees cells.now.cells) result ≡ evaluated (tree_at (trees cells.now.cells) place) }
    ensures inside { IsTurn (length cells.now.cells) result }
{
    let places = cells.len();
    prove!(place < places);
    match count {
        1 => negative(place, name, operand(cells, first, levels)),
        2 => {
            let left = operand(cells, first, levels);
            let right = operand(cells, first + 1, levels);
            combined(place, name, left, right)
        }
        _ => Turn::Stop(Fault::WrongType),
    }
}

/// The value of a place's operation on one operand, or the place where the operand's value isn't known.
#[inline(always)]
fn negative(place: usize, name: Atom, operand: Turn) -> Turn
    ensures value { (ts : List Tree) → evaluated (tree_at ts place) ≡ (if name == MINUS then negated (turned ts operand) else Err WrongType) → turned ts result ≡ evaluated (tree_at ts place) }
    ensures inside { (n : ℕ) → place < n → IsTurn n result }
{
    if name.number() != fixed::MINUS {
        return Turn::Stop(Fault::WrongType);
    }
    let Turn::Close(value) = operand else {
        return Turn::Open(place);
    };
    closed(negated(value))
}

/// The value of a place's operation on two operands, or the place where an operand's value isn't known.
#[inline(always)]
fn combined(place: usize, name: Atom, left: Turn, right: Turn) -> Turn
    ensures value { (ts : List Tree) → evaluated (tree_at ts place) ≡ value_of (operation_named name) (turned ts left) (turned ts right) → turned ts result ≡ evaluated (tree_at ts place) }
    ensures inside { (n : ℕ) → place < n → IsTurn n result }
{
    let Turn::Close(x) = left else {
        return Turn::Open(place);
    };
    let Turn::Close(y) = right else {
        return Turn::Open(place);
    };
    let Some(operation) = Operation::named(name) else {
        return Turn::Stop(Fault::WrongType);
    };
    closed(applied(operation, x, y))
}

fn run(cells: &Cells, place: usize, frames: &mut Vec<Frame>) -> Result<Result<i64, Fault>, NoMemory>
    requires inside { place < length cells.now.cells }
    requires empty { frames.old.items ≡ [] }
    ensures { IfOk result (λ value. value ≡ evaluated (tree_at (trees cells.now.cells) place)) }
{
    let mut turn = Turn::Open(place);
    loop {
        turn = match turn {
            Turn::Open(at) => open(cells, at, frames)?,
            Turn::Close(value) => match frames.pop() {
                Some(frame) => close(frame, value, frames)?,
                None => return Ok(Ok(value)),
            },
            Turn::Stop(fault) => return Ok(Err(fault)),
        };
    }
}

/// Begins the expression of a place.
fn open(cells: &Cells, place: usize, frames: &mut Vec<Frame>) -> Result<Turn, NoMemory>
    requires { place < length cells.now.cells }
    ensures value { IfOk result (λ turn. valued (trees cells.now.cells) frames.new.items (turned (trees cells.now.cells) turn) ≡ valued (trees cells.now.cells) frames.old.items (evaluated (tree_at (trees cells.now.cells) place))) }
    ensures less { IfOk result (λ turn. weight_frames (trees cells.now.cells) frames.new.items + weight_turn (trees cells.now.cells) turn < weight_frames (trees cells.now.cells) frames.old.items + weight_turn (trees cells.now.cells) (Turn.Open place)) }
    ensures inside { IfOk result (λ turn. IsTurn (length cells.now.cells) turn) }
    ensures frames { OnOk result (Each (IsFrame (length cells.now.cells)) frames.old.items → Each (IsFrame (length cells.now.cells)) frames.new.items) }
{
    let places = cells.len();
    prove!(place < places);
    match cells.top(place) {
        Top::Int(z) => Ok(Turn::Close(z)),
        Top::Node(name, first, count) => begin(name, first, count, frames),
        Top::Free(_) => Ok(Turn::Stop(Fault::Instantiation)),
        Top::Atom(_) => Ok(Turn::Stop(Fault::WrongType)),
    }
}

/// Begins an operation on the operands from a place on.
fn begin(name: Atom, first: usize, count: u32, frames: &mut Vec<Frame>) -> Result<Turn, NoMemory>
    requires { first + count ≤ 4294967295 }
    ensures value { IfOk result (λ turn. (ts : List Tree) → valued ts frames.new.items (turned ts turn) ≡ valued ts frames.old.items (evaluated (node name (span ts first count)))) }
    ensures less { IfOk result (λ turn. (ts : List Tree) → weight_frames ts frames.new.items + weight_turn ts turn ≤ weight_frames ts frames.old.items + 2 * weight_all (span ts first count) + 1) }
    ensures inside { IfOk result (λ turn. (n : ℕ) → first + count ≤ n → IsTurn n turn) }
    ensures frames { OnOk result ((n : ℕ) → first + count ≤ n → Each (IsFrame n) frames.old.items → Each (IsFrame n) frames.new.items) }
{
    match count {
        1 => {
            if name.number() != fixed::MINUS {
                return Ok(Turn::Stop(Fault::WrongType));
            }
            frames.push(Frame::Negate)?;
            Ok(Turn::Open(first))
        }
        2 => {
            let Some(operation) = Operation::named(name) else {
                return Ok(Turn::Stop(Fault::WrongType));
            };
            frames.push(Frame::Left(operation, first + 1))?;
            Ok(Turn::Open(first))
        }
        _ => Ok(Turn::Stop(Fault::WrongType)),
    }
}

/// Gives a value to the operation that waits for it.
fn close(frame: Frame, value: i64, frames: &mut Vec<Frame>) -> Result<Turn, NoMemory>
    ensures value { IfOk result (λ turn. (ts : List Tree) → valued ts frames.new.items (turned ts turn) ≡ valued ts frames.old.items (framed ts frame (Ok value))) }
    ensures less { IfOk result (λ turn. (ts : List Tree) → weight_frames ts frames.new.items + weight_turn ts turn ≤ weight_frames ts frames.old.items + weight_frame ts frame) }
    ensures inside { IfOk result (λ turn. (n : ℕ) → IsFrame n frame → IsTurn n turn) }
    ensures frames { OnOk result ((n : ℕ) → Each (IsFrame n) frames.old.items → Each (IsFrame n) frames.new.items) }
{
    match frame {
        Frame::Negate => Ok(closed(negated(value))),
        Frame::Left(operation, right) => {
            frames.push(Frame::Right(operation, value))?;
            Ok(Turn::Open(right))
        }
        Frame::Right(operation, left) => Ok(closed(applied(operation, left, value))),
    }
}

#[inline(always)]
fn closed(value: Result<i64, Fault>) -> Turn
    ensures value { (ts : List Tree) → turned ts result ≡ value }
    ensures less { (ts : List Tree) → weight_turn ts result ≤ 1 }
    ensures inside { (n : ℕ) → IsTurn n result }
{
    match value {
        Ok(z) => Turn::Close(z),
        Err(fault) => Turn::Stop(fault),
    }
}
