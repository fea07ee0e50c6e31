//! The instructions of a predicate: its choice instructions, and then its clauses one behind another.

ghost use Rattle.std.specs.Prelude.{◌≡◌, ◌+◌, [], ◌∷◌, ◌++◌, List, map, length, IfOk, OnOk};
ghost use Rattle.ap_instr.specs.declared.instruction.Instr.{Instr};
ghost use Rattle.ap_codegen.specs.Assembled.{retries, choices, chosen, together};

use crate::permanent::above;
use ap_instr::{Builtin, Instr};
use ap_term::NoMemory;

/// What stands behind a `try`, for clauses of which the first begins at a place.
fn retries(codes: &[Vec<Instr>], base: u32, out: &mut Vec<Instr>) -> Result<(), NoMemory>
    ensures { OnOk result (out.new.items ≡ out.old.items ++ retries base (map (λ v. v.items) codes.now)) }
{
    let mut at = base;
    let mut left = codes.len();
    for code in codes {
        left -= 1;
        if left == 0 {
            out.push(Instr::Trust(at))?;
        } else {
            out.push(Instr::Retry(at))?;
        }
        at = above(at, code.len())?;
    }
    Ok(())
}

/// What stands before a predicate's clauses, of which the first begins at a place.
fn choices(codes: &[Vec<Instr>], base: u32, out: &mut Vec<Instr>) -> Result<(), NoMemory>
    ensures { OnOk result (out.new.items ≡ out.old.items ++ choices base (map (λ v. v.items) codes.now)) }
{
    match codes.split_first() {
        None => {
            out.push(Instr::Fail)?;
        }
        Some((first, rest)) => {
            if !rest.is_empty() {
                out.push(Instr::Try(base))?;
                retries(rest, above(base, first.len())?, out)?;
            }
        }
    }
    Ok(())
}

fn clauses(codes: &[Vec<Instr>], out: &mut Vec<Instr>) -> Result<(), NoMemory>
    ensures { OnOk result (out.new.items ≡ out.old.items ++ together (map (λ v. v.items) codes.now)) }
{
    for code in codes {
        out.extend_from_slice(code.as_slice())?;
    }
    Ok(())
}

/// Where the first of so many clauses begins, of a predicate that begins at a place.
pub fn first_place(start: u32, count: usize) -> Result<u32, NoMemory>
    ensures { IfOk result (λ at. at ≡ start + chosen count) }
{
    above(start, if count == 1 { 0 } else { count })
}

/// Puts a predicate behind the code.
pub fn lay(codes: &[Vec<Instr>], out: &mut Vec<Instr>) -> Result<(), NoMemory>
    ensures { OnOk result (out.new.items ≡ out.old.items ++ (choices (length out.old.items + chosen (length codes.now)) (map (λ v. v.items) codes.now) ++ together (map (λ v. v.items) codes.now))) }
{
    let start = above(0, out.len())?;
    let base = first_place(start, codes.len())?;
    choices(codes, base, out)?;
    clauses(codes, out)
}

/// Puts the predicate of a built-in goal behind the code.
pub fn lay_builtin(builtin: Builtin, out: &mut Vec<Instr>) -> Result<(), NoMemory>
    ensures { OnOk result (out.new.items ≡ out.old.items ++ Instr.Builtin builtin ∷ Instr.Proceed ∷ []) }
{
    out.push(Instr::Builtin(builtin))?;
    out.push(Instr::Proceed)?;
    Ok(())
}
