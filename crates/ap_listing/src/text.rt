//! The text of lines.

ghost use Rattle.std.specs.Prelude.{◌≡◌, ◌++◌, OnOk, slice_get};
ghost use Rattle.std.specs.Fmt.{decimal, signed_decimal};
ghost use Rattle.ap_writer.specs.Quoted.{name_text};
ghost use Rattle.ap_writer.specs.Text.{name_at};
ghost use Rattle.ap_listing.specs.Shown.{register_text, functor_text, predicate_text, integer_text, shown_instruction};
ghost use Rattle.ap_listing.specs.Lines.{line_number, operand_text, operands_text, shown_line, lines};
ghost use Rattle.ap_listing.specs.Held.{operand_of, operands_of, shown_of};

use crate::line::{Line, Operand, line_of};
use ap_instr::{Code, Instr, Slot};
use ap_term::{Atom, Atoms, NoMemory, Term};
use ap_writer::term_text;
use std::alloc::Global;

/// Which line lists the instruction at a place of the code, one behind which its predicate goes on.
#[derive(Clone, Copy)]
pub(crate) struct Origin {
    pub(crate) place: u32,
    pub(crate) line: u8,
}

/// The number of the line that lists the instruction at a place.
pub(crate) fn line_number(origin: Origin, place: u32) -> u64
    ensures { result ≡ line_number origin place }
{
    origin.line as u64 + place.saturating_sub(origin.place) as u64
}

pub(crate) fn push_number(out: &mut Vec<u8>, n: u64) -> Result<(), NoMemory>
    ensures { OnOk result (out.new.items ≡ out.old.items ++ decimal n) }
{
    let mut buffer = itoa::Buffer::new();
    out.extend_from_slice(buffer.format(n).as_bytes())?;
    Ok(())
}

fn push_register(out: &mut Vec<u8>, v: Slot) -> Result<(), NoMemory>
    ensures { OnOk result (out.new.items ≡ out.old.items ++ register_text v) }
{
    match v {
        Slot::X(n) => {
            out.push(b'X')?;
            push_number(out, n as u64)?;
        }
        Slot::Y(n) => {
            out.push(b'Y')?;
            push_number(out, n as u64)?;
        }
    }
    Ok(())
}

pub(crate) fn push_atom(
    alloc: Global,
    out: &mut Vec<u8>,
    atoms: &Atoms,
    atom: Atom,
) -> Result<(), NoMemory>
    ensures { OnOk result (out.new.items ≡ out.old.items ++ name_text (name_at atoms.now atom)) }
{
    let text = term_text(alloc, &Term::Atom(atom), atoms)?;
    out.extend_from_slice(text.as_slice())?;
    Ok(())
}

pub(crate) fn push_functor(
    alloc: Global,
    out: &mut Vec<u8>,
    atoms: &Atoms,
    name: Atom,
    arity: u8,
) -> Result<(), NoMemory>
    ensures { OnOk result (out.new.items ≡ out.old.items ++ functor_text atoms.now name arity) }
{
    push_atom(alloc, out, atoms, name)?;
    out.push(b'/')?;
    push_number(out, arity as u64)?;
    Ok(())
}

pub(crate) fn push_integer_of(out: &mut Vec<u8>, value: i64) -> Result<(), NoMemory>
    ensures { OnOk result (out.new.items ≡ out.old.items ++ signed_decimal value) }
{
    let mut buffer = itoa::Buffer::new();
    out.extend_from_slice(buffer.format(value).as_bytes())?;
    Ok(())
}

fn push_integer(out: &mut Vec<u8>, code: &Code, i: u32) -> Result<(), NoMemory>
    ensures { OnOk result (out.new.items ≡ out.old.items ++ integer_text (slice_get code.now.integers i)) }
{
    if let Some(n) = code.integers().get(i as usize) {
        push_integer_of(out, *n)?;
    }
    Ok(())
}

fn push_predicate(
    alloc: Global,
    out: &mut Vec<u8>,
    atoms: &Atoms,
    code: &Code,
    p: u32,
) -> Result<(), NoMemory>
    ensures { OnOk result (out.new.items ≡ out.old.items ++ predicate_text atoms.now (slice_get code.now.predicates p)) }
{
    if let Some(predicate) = code.predicates().get(p as usize) {
        push_functor(alloc, out, atoms, predicate.name, predicate.arity)?;
    }
    Ok(())
}

fn push_operand(
    alloc: Global,
    out: &mut Vec<u8>,
    atoms: &Atoms,
    code: &Code,
    origin: Origin,
    operand: Operand,
) -> Result<(), NoMemory>
    ensures { OnOk result (out.new.items ≡ out.old.items ++ operand_text atoms.now code.now origin (operand_of operand)) }
{
    match operand {
        Operand::Register(v) => push_register(out, v)?,
        Operand::Argument(a) => {
            out.push(b'A')?;
            push_number(out, a as u64)?;
        }
        Operand::Constant(c) => push_atom(alloc, out, atoms, c)?,
        Operand::Integer(i) => push_integer(out, code, i)?,
        Operand::Functor(f, n) => push_functor(alloc, out, atoms, f, n)?,
        Operand::Number(n) => push_number(out, n as u64)?,
        Operand::Predicate(p) => push_predicate(alloc, out, atoms, code, p)?,
        Operand::Place(l) => {
            out.push(b'@')?;
            push_number(out, line_number(origin, l))?;
        }
    }
    Ok(())
}

/// An operand behind a blank, where there is one.
fn push_behind(
    alloc: Global,
    out: &mut Vec<u8>,
    atoms: &Atoms,
    code: &Code,
    origin: Origin,
    operand: Option<Operand>,
) -> Result<(), NoMemory>
    ensures { OnOk result (out.new.items ≡ out.old.items ++ operands_text atoms.now code.now origin (operands_of operand)) }
{
    if let Some(operand) = operand {
        out.push(b' ')?;
        push_operand(alloc, out, atoms, code, origin, operand)?;
    }
    Ok(())
}

fn push_operands(
    alloc: Global,
    out: &mut Vec<u8>,
    atoms: &Atoms,
    code: &Code,
    origin: Origin,
    line: &Line,
) -> Result<(), NoMemory>
    ensures { OnOk result (out.new.items ≡ out.old.items ++ operands_text atoms.now code.now origin (shown_of line.now).operands) }
{
    push_behind(alloc, out, atoms, code, origin, line.first)?;
    push_behind(alloc, out, atoms, code, origin, line.second)?;
    push_behind(alloc, out, atoms, code, origin, line.third)?;
    Ok(())
}

fn push_line(
    alloc: Global,
    out: &mut Vec<u8>,
    atoms: &Atoms,
    code: &Code,
    origin: Origin,
    instr: Instr,
) -> Result<(), NoMemory>
    ensures { OnOk result (out.new.items ≡ out.old.items ++ shown_line atoms.now code.now origin (shown_instruction atoms.now instr)) }
{
    let line = line_of(atoms, instr);
    out.extend_from_slice(b"  ")?;
    out.extend_from_slice(line.word.as_bytes())?;
    push_operands(alloc, out, atoms, code, origin, &line)?;
    out.push(b'\n')?;
    Ok(())
}

pub(crate) fn push_lines(
    alloc: Global,
    out: &mut Vec<u8>,
    atoms: &Atoms,
    code: &Code,
    origin: Origin,
    instrs: &[Instr],
) -> Result<(), NoMemory>
    ensures { OnOk result (out.new.items ≡ out.old.items ++ lines atoms.now code.now origin instrs.now) }
{
    for instr in instrs {
        push_line(alloc, out, atoms, code, origin, *instr)?;
    }
    Ok(())
}
