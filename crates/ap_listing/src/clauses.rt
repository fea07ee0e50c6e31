//! Where a predicate's clauses begin.

ghost use Rattle.std.specs.Prelude.{◌≡◌, ◌++◌, drop, IfOk, OnOk};
ghost use Rattle.ap_instr.specs.StandsFor.{tried, clause_places};

use ap_instr::{Code, Instr, Predicate};
use ap_term::NoMemory;
use std::alloc::Global;

/// The instructions from a place on.
fn instructions_from(code: &Code, from: usize) -> &[Instr]
    ensures { result.now ≡ drop from code.now.instructions }
{
    let all = code.instructions();
    let (_, behind) = all.split_at(from.min(all.len()));
    behind
}

/// Puts in the clauses that the choices behind a `try` name.
fn push_tried(places: &mut Vec<u32>, behind: &[Instr]) -> Result<(), NoMemory>
    ensures { OnOk result (places.new.items ≡ places.old.items ++ tried behind.now) }
{
    for instr in behind {
        match *instr {
            Instr::Retry(clause) => places.push(clause)?,
            Instr::Trust(clause) => {
                places.push(clause)?;
                return Ok(());
            }
            _ => return Ok(()),
        }
    }
    Ok(())
}

/// The places at which the clauses of a predicate begin, in order.
pub(crate) fn clause_places(
    alloc: Global,
    code: &Code,
    predicate: &Predicate,
) -> Result<Vec<u32>, NoMemory>
    ensures { IfOk result (λ places. places.items ≡ clause_places code.now predicate.now) }
{
    let mut places = Vec::new(alloc);
    let start = predicate.start;
    match code.instructions().get(start as usize).copied() {
        Some(Instr::Try(clause)) => {
            places.push(clause)?;
            push_tried(&mut places, instructions_from(code, start as usize + 1))?;
        }
        Some(Instr::Fail) => {}
        _ => places.push(start)?,
    }
    Ok(places)
}
