//! What an expression comes to: its value, or the first fault that it meets (ISO 13211-1, section 9.1).
#![tactic(auto, using(crate::proofs::Values::rules_of_values))]

ghost use Rattle.std.specs.Prelude.{◌≡◌, Ok, int_div, int_rem};
ghost use Rattle.ap_term.specs.TermView.{tree_of};
ghost use Rattle.ap_term.specs.Arithmetic.{evaluated, eval, applied, negated, divided, compares, compare_values, modulo, operation_named};

use ap_term::{Fault, Op, Operation, Term, fixed};

fn quotient(x: i64, y: i64) -> Result<i64, Fault>
    ensures { result ≡ divided y (int_div x y) }
{
    match y {
        0 => Err(Fault::ZeroDivisor),
        -1 => x.checked_neg().ok_or(Fault::Overflow),
        _ => Ok(x / y),
    }
}

fn remainder(x: i64, y: i64) -> Result<i64, Fault>
    ensures { result ≡ divided y (int_rem x y) }
{
    match y {
        0 => Err(Fault::ZeroDivisor),
        -1 => Ok(0),
        _ => Ok(x % y),
    }
}

/// The remainder that has the divisor's sign.
fn modulo(x: i64, y: i64) -> Result<i64, Fault>
    ensures { result ≡ divided y (modulo x y) }
{
    let rest = remainder(x, y)?;
    if rest == 0 {
        return Ok(rest);
    }
    if (rest < 0) == (y < 0) {
        return Ok(rest);
    }
    Ok(rest + y)
}

/// The value of two values under an operation, or the fault that it meets: `ZeroDivisor` for a divisor of 0, else
/// `Overflow` where 64 bits don't hold the value.
#[inline(always)]
pub fn applied(operation: Operation, x: i64, y: i64) -> Result<i64, Fault>
    ensures { result ≡ applied operation x y }
{
    match operation {
        Operation::Add => x.checked_add(y).ok_or(Fault::Overflow),
        Operation::Subtract => x.checked_sub(y).ok_or(Fault::Overflow),
        Operation::Multiply => x.checked_mul(y).ok_or(Fault::Overflow),
        Operation::Divide => quotient(x, y),
        Operation::Remainder => remainder(x, y),
        Operation::Modulo => modulo(x, y),
    }
}

/// The negated value, or `Overflow` where 64 bits don't hold it.
pub fn negated(x: i64) -> Result<i64, Fault>
    ensures { result ≡ negated (Ok x) }
{
    x.checked_neg().ok_or(Fault::Overflow)
}

/// The value of an expression, or the first fault that it meets (ISO 13211-1, section 9.1).
pub fn evaluated(t: &Term) -> Result<i64, Fault>
    ensures { result ≡ evaluated (tree_of t.now) }
{
    match t {
        Term::Var(_) => Err(Fault::Instantiation),
        Term::Int(z) => Ok(*z),
        Term::Atom(_) => Err(Fault::WrongType),
        Term::Node(name, args) => match args.as_slice() {
            [operand] => {
                if name.number() != fixed::MINUS {
                    return Err(Fault::WrongType);
                }
                negated(evaluated(operand)?)
            }
            [left, right] => {
                let Some(operation) = Operation::named(*name) else {
                    return Err(Fault::WrongType);
                };
                let x = evaluated(left)?;
                applied(operation, x, evaluated(right)?)
            }
            _ => Err(Fault::WrongType),
        },
    }
}

/// The value of an expression, and None where it meets a fault.
pub fn eval(t: &Term) -> Option<i64>
    ensures { result ≡ eval (tree_of t.now) }
{
    evaluated(t).ok()
}

/// Whether two values compare so.
pub fn compares(op: Op, x: i64, y: i64) -> bool
    ensures { result ≡ compares op x y }
{
    match op {
        Op::Eq => x == y,
        Op::Ne => x != y,
        Op::Lt => x < y,
        Op::Gt => x > y,
        Op::Le => x <= y,
        Op::Ge => x >= y,
    }
}

/// Whether two expressions have values that compare so.
pub fn compare_values(op: Op, t: &Term, u: &Term) -> bool
    ensures { result ≡ compare_values op (eval (tree_of t.now)) (eval (tree_of u.now)) }
{
    match (eval(t), eval(u)) {
        (Some(x), Some(y)) => compares(op, x, y),
        _ => false,
    }
}
