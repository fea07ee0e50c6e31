// Searches on code with a group, and on a built-in goal's predicate, which was written by hand from the program's meaning:
//     p(1). p(2).
//     r(X) :- p(X) & p(Y).
//     > (X, Y).
ghost use Rattle.std.specs.Prelude.{◌≡◌, IfOk};
ghost use Rattle.ap_machine.specs.View.{IsFor};

use crate::searches::{tuple_of, turn};
use ap_cells::{Cell, Cells};
use ap_codecheck::{Sound, check};
use ap_copy::{Packing, Parcelled, copy_out};
use ap_instr::{Builtin, Code, Instr, Predicate, Slot};
use ap_ledger::Share;
use ap_machine::{Search, Turn};
use ap_term::{Atom, NoMemory, Op, Relation, fixed};
use std::alloc::Global;

const P: u32 = 0;

const R: u32 = 1;

const GREATER: u32 = 2;

fn instructions(alloc: Global) -> Result<Vec<Instr>, NoMemory> {
    let mut code = vec![in alloc;
        Instr::Try(2),
        Instr::Trust(4),
        Instr::GetInteger(0, 1),
        Instr::Proceed,
        Instr::GetInteger(1, 1),
        Instr::Proceed,
        Instr::Allocate(2),
        Instr::GetVariable(Slot::Y(1), 1),
        Instr::PutVariable(Slot::Y(2), 1),
    ]?;
    let group = [
        Instr::Jump(10),
        Instr::AllocParcall(2, 20),
        Instr::PutValue(Slot::Y(1), 1),
        Instr::PushGoal(1, P),
        Instr::PutValue(Slot::Y(2), 1),
        Instr::PushGoal(2, P),
        Instr::WaitAll,
        Instr::Deallocate,
        Instr::Proceed,
        Instr::Builtin(Builtin::Relation(Relation::Compare(Op::Gt))),
        Instr::Proceed,
        Instr::PutValue(Slot::Y(1), 1),
        Instr::Call(P),
        Instr::PutValue(Slot::Y(2), 1),
        Instr::Call(P),
        Instr::Deallocate,
        Instr::Proceed,
    ];
    code.extend_from_slice(&group)?;
    Ok(code)
}

fn predicate(name: u32, arity: u8, start: u32, end: u32) -> Predicate {
    Predicate {
        name: Atom::at(name),
        arity,
        start,
        end,
        is_listed: true,
    }
}

fn grouped(alloc: Global) -> Result<Code, NoMemory> {
    let predicates = vec![in alloc;
        predicate(40, 1, 0, 6),
        predicate(41, 1, 6, 18),
        predicate(fixed::GREATER, 2, 18, 20),
    ]?;
    Ok(Code::new(
        instructions(alloc)?,
        vec![in alloc; 1, 2]?,
        predicates,
        None,
    ))
}

fn pair_of(alloc: Global, first: i64, second: i64) -> Result<Parcelled, NoMemory> {
    let mut cells = Cells::new(alloc);
    cells.reserve(2)?;
    let places = [cells.push(Cell::Int(first)), cells.push(Cell::Int(second))];
    copy_out(alloc, &cells, &places, &mut Packing::new(alloc))
}

fn begun(
    alloc: Global,
    sound: &Sound,
    number: u32,
    tuple: &Parcelled,
    rest: u64,
) -> Result<Search, NoMemory>
    ensures { IfOk result (λ found. IsFor sound.now found) }
{
    match sound.code().predicates().get(number as usize) {
        Some(found) if found.arity as usize == tuple.len() => {
            Search::start(alloc, sound, tuple, number, rest)
        }
        _ => Err(NoMemory),
    }
}

/// The first two turns of r, by no call and by one.
fn turns_of_r(
    alloc: Global,
    sound: &Sound,
    rest: u64,
) -> Result<((Turn, u64), (Turn, u64)), NoMemory> {
    let tuple = tuple_of(alloc, None)?;
    let mut section = begun(alloc, sound, R, &tuple, rest)?;
    let mut share = Share::new();
    let first = turn(sound, &mut section, 0, 1000, &mut share)?;
    let second = turn(sound, &mut section, 1, 1000, &mut share)?;
    Ok((first, second))
}

// The call of r is the only one before the group, and the group comes whatever the budget.
#[test]
fn a_group_is_a_turn(rt: HostRuntime) -> Result<(), NoMemory> {
    let code = grouped(rt.alloc())?;
    let sound = check(rt.alloc(), code).expect(&rt, "sound code");
    for rest in [1, 2] {
        let (first, second) = turns_of_r(rt.alloc(), &sound, rest)?;
        assert_eq!(rt; first, (Turn::More, 0));
        assert_eq!(rt; second, (Turn::Group, 1));
    }
    Ok(())
}

fn compared(
    alloc: Global,
    sound: &Sound,
    first: i64,
    second: i64,
    rest: u64,
) -> Result<(Turn, u64), NoMemory> {
    let tuple = pair_of(alloc, first, second)?;
    let mut section = begun(alloc, sound, GREATER, &tuple, rest)?;
    turn(sound, &mut section, 5, 1000, &mut Share::new())
}

static PAIRS: [(i64, i64, u64, Turn, u64); 3] = [
    (3, 2, 1, Turn::Answer, 1),
    (2, 3, 1, Turn::Failed, 1),
    (3, 2, 0, Turn::Spent, 0),
];

// A built-in goal is the one call that is made where the search begins on its predicate.
#[test]
fn a_goal_of_its_own(rt: HostRuntime) -> Result<(), NoMemory> {
    let code = grouped(rt.alloc())?;
    let sound = check(rt.alloc(), code).expect(&rt, "sound code");
    for (first, second, rest, end, spent) in PAIRS {
        let came = compared(rt.alloc(), &sound, first, second, rest)?;
        assert_eq!(rt; came, (end, spent), "{first} {second} {rest}");
    }
    Ok(())
}
