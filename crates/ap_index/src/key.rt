//! What a clause asks of its first argument.

ghost use Rattle.std.specs.Prelude.{◌≡◌, slice_get, None, Some, IfSome};
ghost use Rattle.ap_instr.specs.declared.instruction.Instr.TheVariants.{Try, Retry, Trust};
ghost use Rattle.ap_index.specs.Keys.{leaves_first, asked_key, integer_key, key_at, IsKeyed};

use ap_instr::{Code, Instr};

/// A first argument that isn't a variable: an atom, an integer, or a structure's name with the number of its arguments.
#[derive(Clone, Copy)]
pub enum Key {
    Atom(u32),
    Integer(i64),
    Structure(u32, u8),
}

/// The instruction at a place.
pub(crate) fn instruction_at(code: &Code, at: usize) -> Option<Instr>
    ensures { result ≡ slice_get code.now.instructions at }
{
    code.instructions().get(at).copied()
}

/// An integer of the code's table.
pub(crate) fn integer_at(code: &Code, index: u32) -> Option<i64>
    ensures { result ≡ slice_get code.now.integers index }
{
    code.integers().get(index as usize).copied()
}

/// An integer of the code's table, as a key.
pub(crate) fn integer_key(code: &Code, index: u32) -> Option<Key>
    ensures { result ≡ integer_key (slice_get code.now.integers index) }
{
    match integer_at(code, index) {
        Some(value) => Some(Key::Integer(value)),
        None => None,
    }
}

/// Whether an instruction asks nothing of the first argument, and leaves it where it is.
fn leaves_first(instr: &Instr) -> bool
    ensures { result ≡ leaves_first instr.now }
{
    match *instr {
        Instr::GetConstant(_, a) => a != 1,
        Instr::GetInteger(_, a) => a != 1,
        Instr::Allocate(_) => true,
        _ => false,
    }
}

/// What an instruction asks of the first argument.
fn asked_key(code: &Code, instr: &Instr) -> Option<Key>
    ensures { result ≡ asked_key code.now instr.now }
{
    match *instr {
        Instr::GetConstant(name, a) if a == 1 => Some(Key::Atom(name.number())),
        Instr::GetInteger(index, a) if a == 1 => integer_key(code, index),
        Instr::GetStructure(name, count, a) if a == 1 => {
            Some(Key::Structure(name.number(), count))
        }
        _ => None,
    }
}

/// What the clause at a place asks of the first argument; none where that is a variable.
pub fn key_at(code: &Code, at: usize) -> Option<Key>
    ensures { result ≡ key_at code.now at }
{
    for place in at..code.instructions().len() {
        let Some(instr) = instruction_at(code, place) else {
            return None;
        };
        if !leaves_first(&instr) {
            return asked_key(code, &instr);
        }
    }
    None
}

/// A clause's place, and what the clause asks of its first argument.
#[derive(Clone, Copy)]
pub(crate) struct Keyed {
    pub(crate) clause: u32,
    pub(crate) key: Key,
}

/// The clause at a place, if it asks for a key.
fn keyed_at(code: &Code, clause: u32) -> Option<Keyed>
    ensures { IfSome result (λ keyed. (keyed.clause ≡ clause) × (key_at code.now clause ≡ Some keyed.key)) }
{
    let key = key_at(code, clause as usize)?;
    Some(Keyed { clause, key })
}

/// The clause that a `try` at a place names, if it asks for a key.
pub(crate) fn keyed_by_try(code: &Code, at: usize) -> Option<Keyed>
    ensures { IfSome result (λ keyed. IsKeyed code.now at (λ clause. Try clause) keyed) }
{
    match instruction_at(code, at) {
        Some(Instr::Try(clause)) => keyed_at(code, clause),
        _ => None,
    }
}

/// The clause that a `retry` at a place names, if it asks for a key.
pub(crate) fn keyed_by_retry(code: &Code, at: usize) -> Option<Keyed>
    ensures { IfSome result (λ keyed. IsKeyed code.now at (λ clause. Retry clause) keyed) }
{
    match instruction_at(code, at) {
        Some(Instr::Retry(clause)) => keyed_at(code, clause),
        _ => None,
    }
}

/// The clause that a `trust` at a place names, if it asks for a key.
pub(crate) fn keyed_by_trust(code: &Code, at: usize) -> Option<Keyed>
    ensures { IfSome result (λ keyed. IsKeyed code.now at (λ clause. Trust clause) keyed) }
{
    match instruction_at(code, at) {
        Some(Instr::Trust(clause)) => keyed_at(code, clause),
        _ => None,
    }
}
