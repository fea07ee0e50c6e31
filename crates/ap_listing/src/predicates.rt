//! The listing of code.

ghost use Rattle.std.specs.Prelude.{◌≡◌, ◌++◌, IfOk, OnOk};
ghost use Rattle.ap_listing.specs.Lines.{instruction_lines, predicate_lines, listing};
ghost use Rattle.ap_listing.specs.Switch.{table};

use crate::switch::{ahead_of, switch_of};
use crate::switch_lines::push_switch;
use crate::text::{Origin, push_functor, push_lines};
use ap_instr::{Code, Predicate};
use ap_term::{Atoms, NoMemory};
use std::alloc::Global;

/// A predicate's lines behind its name: those of its switch, if it has one, its instructions, and the chains of keys.
fn push_instructions(
    alloc: Global,
    out: &mut Vec<u8>,
    atoms: &Atoms,
    code: &Code,
    predicate: &Predicate,
) -> Result<(), NoMemory>
    ensures { OnOk result (out.new.items ≡ out.old.items ++ instruction_lines atoms.now code.now predicate.now (table atoms.now code.now predicate.now)) }
{
    let place = predicate.start;
    let Some(switch) = switch_of(alloc, atoms, code, predicate)? else {
        let origin = Origin { place, line: 0 };
        return push_lines(
            alloc,
            out,
            atoms,
            code,
            origin,
            code.instructions_of(predicate),
        );
    };
    let line = ahead_of(switch.has_constants, switch.has_structures);
    let origin = Origin { place, line };
    push_switch(alloc, out, atoms, origin, &switch)?;
    push_lines(
        alloc,
        out,
        atoms,
        code,
        origin,
        switch.instructions.as_slice(),
    )?;
    Ok(())
}

fn push_listed(
    alloc: Global,
    out: &mut Vec<u8>,
    atoms: &Atoms,
    code: &Code,
    predicate: &Predicate,
) -> Result<(), NoMemory>
    ensures { OnOk result (out.new.items ≡ out.old.items ++ predicate_lines atoms.now code.now predicate.now) }
{
    if !predicate.is_listed {
        return Ok(());
    }
    push_functor(alloc, out, atoms, predicate.name, predicate.arity)?;
    out.extend_from_slice(b":\n")?;
    push_instructions(alloc, out, atoms, code, predicate)
}

/// Lists code: for each predicate that is listed a line `name/arity:` and its instructions, two blanks before each, operands parted by a
/// blank. A place is `@n`, n the number of a line of its predicate from 0.
///
/// Where some of a predicate's clauses ask for a first argument, its lines begin with `switch_on_term`, `switch_on_constant` and
/// `switch_on_structure`, and end with the clauses for each key that two or more of them answer.
pub fn listing(alloc: Global, code: &Code, atoms: &Atoms) -> Result<Vec<u8>, NoMemory>
    ensures { IfOk result (λ text. text.items ≡ listing atoms.now code.now) }
{
    let mut out = Vec::new(alloc);
    for predicate in code.predicates() {
        push_listed(alloc, &mut out, atoms, code, predicate)?;
    }
    Ok(out)
}
