//! Code of which all that is known stays so, whatever code goes on behind it.

ghost use Rattle.std.specs.Prelude.{◌≡◌, true};
ghost use Rattle.ap_needs.specs.Behind.{is_end, is_ended, NamesOwn, StandsAlone};

use ap_instr::{Code, Instr};

/// Whether a clause ends at an instruction, so that nothing behind it is come to.
fn is_end(instr: &Instr) -> bool
    ensures { result ≡ is_end instr.now }
{
    match *instr {
        Instr::Execute(_) => true,
        Instr::Proceed => true,
        _ => false,
    }
}

/// Whether the code ends so, if it has instructions.
fn is_ended(code: &Code) -> bool
    ensures { result ≡ true → is_ended code.now.instructions ≡ true }
{
    match code.instructions().last() {
        Some(instr) => is_end(instr),
        None => true,
    }
}

/// Whether the instruction at a place names integers, predicates and places of the code alone, and a structure's arguments stand in it.
fn names_own(code: &Code, at: usize, instr: &Instr) -> bool
    ensures { result ≡ true → NamesOwn code.now at instr.now }
{
    let places = code.instructions().len();
    let integers = code.integers().len();
    let predicates = code.predicates().len();
    match *instr {
        Instr::GetInteger(i, _) => (i as usize) < integers,
        Instr::GetStructure(_, count, _) => at < places && (count as usize) < places - at,
        Instr::PutInteger(i, _) => (i as usize) < integers,
        Instr::UnifyInteger(i) => (i as usize) < integers,
        Instr::Call(number) => (number as usize) < predicates,
        Instr::Execute(number) => (number as usize) < predicates,
        Instr::Jump(place) => (place as usize) < places,
        Instr::Try(place) => (place as usize) < places,
        Instr::Retry(place) => (place as usize) < places,
        Instr::Trust(place) => (place as usize) < places,
        Instr::PushGoal(_, number) => (number as usize) < predicates,
        _ => true,
    }
}

/// Whether what is known of the code's places stays so whatever code goes on behind it.
pub fn stands_alone(code: &Code) -> bool
    ensures { result ≡ true → StandsAlone code.now }
{
    let instructions = code.instructions();
    for at in 0..instructions.len() {
        if !names_own(code, at, &instructions[at]) {
            return false;
        }
    }
    is_ended(code)
}
