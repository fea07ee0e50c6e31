// A clause with a structure in its head and one in its body, from the outside and with ample memory.
ghost use Rattle.std.specs.Prelude.{◌≡◌, ℕ, ◌<◌, ◌≤◌, length, IfOk};
ghost use Rattle.ap_steps.specs.Moves.{held};

use ap_cells::{Cell, Cells, Top};
use ap_codecheck::{Sound, check};
use ap_control::{next_possible, run_to_transfer};
use ap_instr::{Builtin, Code, Instr, Predicate, Slot};
use ap_match::push_new;
use ap_needs::{Room, widths_of};
use ap_steps::registers::argument;
use ap_term::{Atom, fixed};
use ap_unify::Work;
use std::alloc::Global;
use std::test::Fail;

// p(X + true) :- q(X - 7), with X made equal to itself before the call.
fn instructions(alloc: Global) -> Result<Vec<Instr>, Fail> {
    let instructions = vec![in alloc;
        Instr::GetStructure(Atom::at(fixed::PLUS), 2, 1),
        Instr::UnifyVariable(Slot::X(2)),
        Instr::UnifyConstant(Atom::at(fixed::TRUE)),
        Instr::PutStructure(Atom::at(fixed::MINUS), 2, 1),
        Instr::UnifyValue(Slot::X(2)),
        Instr::UnifyInteger(0),
        Instr::GetValue(Slot::X(2), 2),
        Instr::Execute(0),
    ]?;
    Ok(instructions)
}

fn make_code(alloc: Global) -> Result<Code, Fail> {
    let instructions = instructions(alloc)?;
    let integers = vec![in alloc; 7]?;
    Ok(Code::new(instructions, integers, Vec::new(alloc), None))
}

// Registers that all hold a place.
fn registers(alloc: Global, count: usize, place: u32) -> Result<Vec<u32>, Fail>
    ensures len { IfOk result (λ v. length v.items ≡ count) }
    ensures held { IfOk result (λ v. (w : ℕ) → held v.items w ≤ place) }
{
    let registers = vec![in alloc; place; count]?;
    Ok(registers)
}

// Where the code leads with a place as the first argument, and what is the first argument then.
fn run(
    alloc: Global,
    cells: &mut Cells,
    code: &Code,
    place: u32,
) -> Result<Option<(usize, u32)>, Fail>
    requires place { place < length cells.old.cells }
{
    let room = Room::of(alloc, code)?;
    cells.reserve(room.cells)?;
    let widths = widths_of(code);
    let mut x = registers(alloc, widths.x, place)?;
    let mut y = registers(alloc, widths.y, place)?;
    let mut work = Work::new(alloc);
    match run_to_transfer(cells, &mut x, &mut y, code, 0, &mut work)? {
        Some(to) => Ok(Some((to, argument(&x, 1)))),
        None => Ok(None),
    }
}

// The first argument's place of X - 7, where that is the term of a place.
fn is_seven_less(cells: &Cells, place: usize) -> bool {
    if place >= cells.len() {
        return false;
    }
    match cells.top(place) {
        Top::Node(name, first, count) => {
            count == 2 && name == Atom::at(fixed::MINUS) && is_seven(cells, first + 1)
        }
        _ => false,
    }
}

fn is_seven(cells: &Cells, place: usize) -> bool {
    if place >= cells.len() {
        return false;
    }
    match cells.top(place) {
        Top::Int(value) => value == 7,
        _ => false,
    }
}

// Whether the code leads to its last instruction, and q is called with X - 7 then.
fn calls(alloc: Global, cells: &mut Cells, code: &Code, place: usize) -> Result<bool, Fail> {
    if place >= cells.len() {
        return Ok(false);
    }
    match run(alloc, cells, code, place as u32)? {
        Some((to, argument)) => Ok(to == 7 && is_seven_less(cells, argument as usize)),
        None => Ok(false),
    }
}

#[test]
fn takes_structures(rt: HostRuntime) -> Result<(), Fail> {
    let alloc = rt.alloc();
    let code = make_code(alloc)?;
    let mut cells = Cells::new(alloc);
    cells.reserve(16)?;
    let atom = push_new(&mut cells, Cell::Atom(Atom::at(fixed::FAIL)));
    let unbound = push_new(&mut cells, Cell::Free);
    let first = push_new(&mut cells, Cell::Free);
    push_new(&mut cells, Cell::Free);
    let plus = push_new(&mut cells, Cell::Node(Atom::at(fixed::PLUS), first, 2));
    let short = push_new(&mut cells, Cell::Node(Atom::at(fixed::PLUS), atom, 1));
    let minus = push_new(&mut cells, Cell::Node(Atom::at(fixed::MINUS), first, 2));
    let apart = push_new(&mut cells, Cell::Node(Atom::at(fixed::PLUS), short, 2));
    for (place, is_called) in [
        (atom, false),
        (unbound, true),
        (plus, true),
        (short, false),
        (minus, false),
        (apart, false),
        (unbound, true),
    ] {
        assert_eq!(rt;
            calls(alloc, &mut cells, &code, place)?,
            is_called,
            "{place}"
        );
    }
    Ok(())
}

// Code of p(X, true) :- .., as both clauses of p.
fn make_choices(alloc: Global) -> Result<Code, Fail> {
    let instructions = vec![in alloc;
        Instr::Try(2),
        Instr::Trust(2),
        Instr::Allocate(1),
        Instr::GetVariable(Slot::Y(1), 1),
        Instr::GetConstant(Atom::at(fixed::TRUE), 2),
        Instr::PutStructure(Atom::at(fixed::MINUS), 1, 1),
        Instr::UnifyValue(Slot::Y(1)),
        Instr::Builtin(Builtin::True),
        Instr::Deallocate,
        Instr::Proceed,
    ]?;
    let predicates = vec![in alloc;
        Predicate {
            name: Atom::at(fixed::PLUS),
            arity: 2,
            start: 0,
            end: 10,
            is_listed: true,
        },
    ]?;
    Ok(Code::new(instructions, Vec::new(alloc), predicates, None))
}

// Whether the head of the second clause is told to unify surely with a call p(T, T), where T is the term of a place, unless that
// clause is passed over.
fn tells(alloc: Global, cells: &Cells, sound: &Sound, place: u32) -> Result<Option<bool>, Fail>
    requires { place < length cells.now.cells }
{
    let x = registers(alloc, 3, place)?;
    match next_possible(cells, &x, 2, sound, Some(1)) {
        Some(possible) => Ok(Some(possible.sure)),
        None => Ok(None),
    }
}

#[test]
fn tells_heads_that_surely_unify(rt: HostRuntime) -> Result<(), Fail> {
    let alloc = rt.alloc();
    let mut cells = Cells::new(alloc);
    cells.reserve(3)?;
    push_new(&mut cells, Cell::Atom(Atom::at(fixed::TRUE)));
    push_new(&mut cells, Cell::Atom(Atom::at(fixed::FAIL)));
    push_new(&mut cells, Cell::Free);
    let sound = check(alloc, make_choices(alloc)?).expect(&rt, "sound code");
    for (place, surely) in [(0, Some(true)), (1, None), (2, Some(true))] {
        assert!(rt; (place as usize) < cells.len());
        assert_eq!(rt; tells(alloc, &cells, &sound, place)?, surely, "{place}");
    }
    Ok(())
}
