// Searches from the outside, on code that was written by hand from the program's meaning: its answers, what they cost, and
// where the search comes back. The code is that of
//     p(1). p(2). p(3).
//     q(X) :- p(X), X > 1.
ghost use Rattle.std.specs.Prelude.{◌≡◌, true, IfOk};
ghost use Rattle.ap_machine.specs.View.{IsFor};

use ap_cells::{Cell, Cells, Top};
use ap_codecheck::{Sound, check};
use ap_copy::{Packing, Parcelled, copy_in, copy_out, new_variables};
use ap_instr::{Builtin, Code, Instr, Predicate, Slot};
use ap_ledger::{Share, Total, gather};
use ap_machine::{Hook, Search, Turn};
use ap_term::{Atom, NoMemory, Op, Relation};
use std::alloc::Global;

const P: u32 = 0;

const Q: u32 = 1;

fn predicate(name: u32, start: u32, end: u32) -> Predicate {
    Predicate {
        name: Atom::at(name),
        arity: 1,
        start,
        end,
        is_listed: true,
    }
}

fn instructions(alloc: Global) -> Result<Vec<Instr>, NoMemory> {
    let mut code = vec![in alloc;
        Instr::Try(3),
        Instr::Retry(5),
        Instr::Trust(7),
        Instr::GetInteger(0, 1),
        Instr::Proceed,
        Instr::GetInteger(1, 1),
        Instr::Proceed,
        Instr::GetInteger(2, 1),
        Instr::Proceed,
    ]?;
    let question = [
        Instr::Allocate(1),
        Instr::GetVariable(Slot::Y(1), 1),
        Instr::PutValue(Slot::Y(1), 1),
        Instr::Call(P),
        Instr::PutValue(Slot::Y(1), 1),
        Instr::PutInteger(0, 2),
        Instr::Builtin(Builtin::Relation(Relation::Compare(Op::Gt))),
        Instr::Deallocate,
        Instr::Proceed,
    ];
    code.extend_from_slice(&question)?;
    Ok(code)
}

fn numbers(alloc: Global) -> Result<Code, NoMemory> {
    let integers = vec![in alloc; 1, 2, 3]?;
    let predicates = vec![in alloc; predicate(40, 0, 9), predicate(41, 9, 18)]?;
    Ok(Code::new(instructions(alloc)?, integers, predicates, None))
}

fn tuple_of_integer(alloc: Global, value: i64) -> Result<Parcelled, NoMemory> {
    let mut cells = Cells::new(alloc);
    cells.reserve(1)?;
    let places = [cells.push(Cell::Int(value))];
    copy_out(alloc, &cells, &places, &mut Packing::new(alloc))
}

/// A tuple of one term: an integer, or a variable.
pub(crate) fn tuple_of(alloc: Global, value: Option<i64>) -> Result<Parcelled, NoMemory> {
    match value {
        Some(value) => tuple_of_integer(alloc, value),
        None => new_variables(alloc, 1),
    }
}

fn integer_at(cells: &Cells, place: usize) -> i64 {
    if place >= cells.len() {
        return 0;
    }
    match cells.top(place) {
        Top::Int(value) => value,
        _ => 0,
    }
}

/// The integer that is the only term of a tuple; 0 where it is none.
fn only_integer(alloc: Global, parcel: &Parcelled) -> Result<i64, NoMemory> {
    let mut cells = Cells::new(alloc);
    let roots = copy_in(&mut cells, parcel)?;
    if roots.count != 1 {
        return Ok(0);
    }
    Ok(integer_at(&cells, roots.first))
}

/// What asks to stop once it was asked so often.
#[derive(Drop)]
struct After(u32);

impl Hook for After {
    ghost asked = { λ h. h.0 ≡ 0 };

    ghost is_wanted = { λ h. true };

    fn poll(&mut self) -> bool {
        if self.0 > 0 {
            self.0 -= 1;
        }
        self.0 == 0
    }

    fn wants(&self) -> bool {
        true
    }
}

fn begun(
    alloc: Global,
    sound: &Sound,
    number: u32,
    value: Option<i64>,
    rest: u64,
) -> Result<Search, NoMemory>
    ensures { IfOk result (λ found. IsFor sound.now found) }
{
    let tuple = tuple_of(alloc, value)?;
    match sound.code().predicates().get(number as usize) {
        Some(found) if found.arity as usize == tuple.len() => {
            Search::start(alloc, sound, &tuple, number, rest)
        }
        _ => Err(NoMemory),
    }
}

/// Goes on by at most so many calls, with a hook that asks to stop once it was asked so often: how that ends, and the calls that were
/// made until then. The contract is small, since a test is proved with all that the calls in it promise.
pub(crate) fn turn(
    sound: &Sound,
    section: &mut Search,
    inferences: u64,
    asked: u32,
    share: &mut Share,
) -> Result<(Turn, u64), NoMemory>
    requires { IsFor sound.now section.old }
    ensures { IsFor sound.now section.new }
{
    let end = section.advance(sound, inferences, &mut After(asked), share)?;
    Ok((end, section.spent()))
}

fn leave(sound: &Sound, section: &mut Search)
    requires { IsFor sound.now section.old }
    ensures { IsFor sound.now section.new }
{
    section.redo();
}

fn has_more(section: &Search) -> bool {
    section.has_more()
}

fn value(alloc: Global, section: &Search) -> Result<i64, NoMemory> {
    only_integer(alloc, &section.answer()?)
}

/// What a search on a variable came to.
#[derive(Debug, PartialEq, Drop)]
struct Outcome {
    answers: Vec<i64>,
    spent: u64,
    end: Turn,
}

fn searched(alloc: Global, sound: &Sound, number: u32, rest: u64) -> Result<Outcome, NoMemory> {
    let mut section = begun(alloc, sound, number, None, rest)?;
    let mut share = Share::new();
    let mut answers = Vec::new(alloc);
    let mut last = (Turn::Answer, 0);
    for _turn in 0..10 {
        last = turn(sound, &mut section, 50, 1000, &mut share)?;
        if last.0 != Turn::Answer {
            break;
        }
        answers.push(value(alloc, &section)?)?;
        leave(sound, &mut section);
    }
    Ok(Outcome {
        answers,
        spent: last.1,
        end: last.0,
    })
}

// A goal, the calls that it may make, its answers, the calls that it makes, and why it ends.
static ROWS: [(u32, u64, &[i64], u64, Turn); 8] = [
    (P, 100, &[1, 2, 3], 1, Turn::Failed),
    (P, 1, &[1, 2, 3], 1, Turn::Failed),
    (P, 0, &[], 0, Turn::Spent),
    (Q, 100, &[2, 3], 5, Turn::Failed),
    (Q, 5, &[2, 3], 5, Turn::Failed),
    (Q, 4, &[2], 4, Turn::Spent),
    (Q, 3, &[], 3, Turn::Spent),
    (Q, 0, &[], 0, Turn::Spent),
];

#[test]
fn answers_and_budgets(rt: HostRuntime) -> Result<(), NoMemory> {
    let code = numbers(rt.alloc())?;
    let sound = check(rt.alloc(), code).expect(&rt, "sound code");
    for (number, rest, answers, spent, end) in ROWS {
        let found = searched(rt.alloc(), &sound, number, rest)?;
        assert_eq!(rt; found.answers.as_slice(), answers, "{number} {rest}");
        assert_eq!(rt; (found.spent, found.end), (spent, end));
    }
    Ok(())
}

/// A turn, behind which an answer is left.
fn turn_and_leave(
    sound: &Sound,
    section: &mut Search,
    inferences: u64,
    share: &mut Share,
) -> Result<(Turn, u64), NoMemory>
    requires { IsFor sound.now section.old }
    ensures { IsFor sound.now section.new }
{
    let came = turn(sound, section, inferences, 1000, share)?;
    if came.0 != Turn::Answer {
        return Ok(came);
    }
    leave(sound, section);
    Ok(came)
}

/// How turns of so many calls at most end, with the calls that were made until then; and what is in the share.
fn turns(
    alloc: Global,
    sound: &Sound,
    steps: &[u64],
) -> Result<(Vec<(Turn, u64)>, Total), NoMemory> {
    let mut section = begun(alloc, sound, Q, None, 100)?;
    let mut share = Share::new();
    let mut found = Vec::new(alloc);
    'steps: for inferences in steps {
        found.push(turn_and_leave(sound, &mut section, *inferences, &mut share)?)?;
    }
    Ok((found, gather(&[share])))
}

static STEPS: [u64; 5] = [0, 3, 1, 1, 0];

static ENDS: [(Turn, u64); 5] = [
    (Turn::More, 0),
    (Turn::More, 3),
    (Turn::Answer, 4),
    (Turn::Answer, 5),
    (Turn::Failed, 5),
];

#[test]
fn as_many_calls_as_are_asked_for(rt: HostRuntime) -> Result<(), NoMemory> {
    let code = numbers(rt.alloc())?;
    let sound = check(rt.alloc(), code).expect(&rt, "sound code");
    let (found, total) = turns(rt.alloc(), &sound, &STEPS)?;
    assert_eq!(rt; found.as_slice(), ENDS.as_slice());
    assert_eq!(rt;
        total,
        Total {
            sum: 5,
            exact: true
        }
    );
    Ok(())
}

fn stopped(alloc: Global, sound: &Sound, asked: u32) -> Result<(Turn, u64), NoMemory> {
    let mut section = begun(alloc, sound, Q, None, 100)?;
    turn(sound, &mut section, 50, asked, &mut Share::new())
}

static STOPS: [(u32, Turn, u64); 3] = [
    (1, Turn::Stopped, 0),
    (4, Turn::Stopped, 3),
    (5, Turn::Answer, 4),
];

#[test]
fn the_hook_is_asked_before_each_call(rt: HostRuntime) -> Result<(), NoMemory> {
    let code = numbers(rt.alloc())?;
    let sound = check(rt.alloc(), code).expect(&rt, "sound code");
    for (asked, end, spent) in STOPS {
        assert_eq!(rt; stopped(rt.alloc(), &sound, asked)?, (end, spent));
    }
    Ok(())
}

/// How the first turns of a search end, each by an answer that is left, and whether a choice point is left at each.
fn points(
    alloc: Global,
    sound: &Sound,
    value: Option<i64>,
    count: usize,
) -> Result<Vec<(Turn, bool)>, NoMemory> {
    let mut section = begun(alloc, sound, P, value, 1)?;
    let mut share = Share::new();
    let mut found = Vec::new(alloc);
    'answers: for _answer in 0..count {
        let (end, _) = turn(sound, &mut section, 1, 1000, &mut share)?;
        found.push((end, has_more(&section)))?;
        leave(sound, &mut section);
    }
    Ok(found)
}

static LAST: [(Turn, bool); 1] = [(Turn::Answer, false)];

static ALL: [(Turn, bool); 3] = [
    (Turn::Answer, true),
    (Turn::Answer, true),
    (Turn::Answer, false),
];

// A choice point stays only where the head of a clause behind the one that is taken unifies with the call.
#[test]
fn choice_points_that_no_head_needs(rt: HostRuntime) -> Result<(), NoMemory> {
    let code = numbers(rt.alloc())?;
    let sound = check(rt.alloc(), code).expect(&rt, "sound code");
    for value in 1..4 {
        let found = points(rt.alloc(), &sound, Some(value), 1)?;
        assert_eq!(rt; found.as_slice(), LAST.as_slice(), "{value}");
    }
    let found = points(rt.alloc(), &sound, None, 3)?;
    assert_eq!(rt; found.as_slice(), ALL.as_slice());
    Ok(())
}
