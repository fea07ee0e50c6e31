// Sections that are driven by hand, without a board: each goal of a group is run by a section of its own, from left to right. They
// give the answers of the model's search, and how many calls they make was found by hand: a goal of a group has the whole rest, a
// join costs the sum, and a redone goal only what it makes anew.
ghost use Rattle.std.specs.Prelude.{◌≡◌, true, Ok, IfOk};
ghost use Rattle.ap_frames.specs.Slots.{is_running};
ghost use Rattle.ap_tie.specs.Settled.{AreClosed};
ghost use Rattle.ap_tied.specs.Ties.{stack_in};
ghost use Rattle.ap_section.specs.Views.{view_of};
ghost use Rattle.ap_section.specs.Ready.{IsReady};
ghost use Rattle.ap_section.specs.Slots.{IsAtFrame, IsPlaceIn, IsFirstReady, told_of};
ghost use Rattle.ap_engine_tests.specs.Driven.{IsNext};

use crate::next::Next;
use crate::reading::Asked;
use ap_codecheck::Sound;
use ap_copy::new_variables;
use ap_frames::Verdict;
use ap_ledger::Share;
use ap_machine::Hook;
use ap_section::{Pool, Section, Settled, Turn};
use ap_term::NoMemory;
use std::alloc::Global;
use std::test::Fail;

/// A hook that never asks to stop, and wants the goals of each group.
#[derive(Drop)]
struct Never(bool);

impl Hook for Never {
    ghost asked = { λ h. ⊥ };

    ghost is_wanted = { λ h. h.0 };

    fn poll(&mut self) -> bool {
        false
    }

    fn wants(&self) -> bool {
        self.0
    }
}

/// Goes on up to where it comes to rest.
fn go_on(pool: &mut Pool, sound: &Sound, section: &mut Section) -> Result<Turn, NoMemory>
    requires { IsReady sound.now section.old }
    ensures ready { IsReady sound.now section.new }
    ensures answer { result ≡ Ok Turn.Answer → AreClosed (stack_in (view_of section.new)) }
    ensures fork { result ≡ Ok Turn.Fork → IsAtFrame (view_of section.new) }
{
    section.advance(sound, 1000, &mut Never(true), &mut Share::new(), pool)
}

/// Begins the goal of a slot, by a section of its own.
fn begun(
    alloc: Global,
    pool: &mut Pool,
    sound: &Sound,
    section: &mut Section,
    i: usize,
) -> Result<Next, NoMemory>
    requires ready { IsReady sound.now section.old }
    requires at { IsAtFrame (view_of section.old) }
    requires first { IsFirstReady i (view_of section.old) }
    ensures ready { IsReady sound.now section.new }
    ensures next { IfOk result (λ next. IsNext sound.now (view_of section.new) next) }
{
    let tuple = section.parcel(i)?;
    let predicate = section.goal(i);
    let rest = section.rest();
    let inner = Section::start_pooled(pool, alloc, sound, &tuple, predicate, rest)?;
    section.start_slot(i);
    Ok(Next::Run(i, inner))
}

/// Settles the frame, and goes on with the section of a slot that is redone.
fn settled(pool: &mut Pool, sound: &Sound, section: &mut Section) -> Result<Next, NoMemory>
    requires ready { IsReady sound.now section.old }
    requires at { IsAtFrame (view_of section.old) }
    ensures ready { IsReady sound.now section.new }
    ensures next { IfOk result (λ next. IsNext sound.now (view_of section.new) next) }
{
    let settled = section.settle(pool)?;
    match settled {
        Settled::Redo(i) => {
            let inner = section.take_section(i);
            Ok(Next::Run(i, inner))
        }
        Settled::Spent => Ok(Next::Spent),
        Settled::Joined | Settled::Broken => {
            section.drop_sections(pool);
            Ok(Next::Went)
        }
        Settled::Open => Err(NoMemory),
    }
}

/// Begins the leftmost goal of the frame that is ready; where none is, settles the frame.
fn next_of(
    alloc: Global,
    pool: &mut Pool,
    sound: &Sound,
    section: &mut Section,
) -> Result<Next, NoMemory>
    requires ready { IsReady sound.now section.old }
    requires at { IsAtFrame (view_of section.old) }
    ensures ready { IsReady sound.now section.new }
    ensures next { IfOk result (λ next. IsNext sound.now (view_of section.new) next) }
{
    if section.verdict() == Verdict::Wait {
        if let Some(i) = section.first_ready() {
            return begun(alloc, pool, sound, section, i);
        }
    }
    settled(pool, sound, section)
}

/// Puts a section at its answer into its slot; behind a redone one the others begin anew.
fn put_answer(sound: &Sound, section: &mut Section, i: usize, inner: Section, cost: u64)
    requires ready { IsReady sound.now section.old }
    requires inner { IsReady sound.now inner }
    requires at { IsAtFrame (view_of section.old) }
    requires place { IsPlaceIn i (view_of section.old) }
    requires runs { told_of is_running i (view_of section.old) ≡ true }
    requires closed { AreClosed (stack_in (view_of inner)) }
    ensures { IsReady sound.now section.new }
{
    let has_more = inner.has_more();
    section.put_answer(i, inner, cost, has_more);
    if section.redone() == Some(i) {
        section.restart_after(i);
    }
}

/// Puts what a section came to into its slot.
fn put(
    pool: &mut Pool,
    sound: &Sound,
    section: &mut Section,
    i: usize,
    inner: Section,
    since: u64,
    end: Turn,
)
    requires ready { IsReady sound.now section.old }
    requires inner { IsReady sound.now inner }
    requires at { IsAtFrame (view_of section.old) }
    requires place { IsPlaceIn i (view_of section.old) }
    requires runs { told_of is_running i (view_of section.old) ≡ true }
    requires closed { end ≡ Turn.Answer → AreClosed (stack_in (view_of inner)) }
    ensures { IsReady sound.now section.new }
{
    let cost = inner.spent().saturating_sub(since);
    match end {
        Turn::Answer => put_answer(sound, section, i, inner, cost),
        Turn::Failed => {
            section.put_failed(i, cost);
            inner.give_to(pool);
        }
        _ => {
            let rest = section.rest();
            section.put_spent(i, rest);
            inner.give_to(pool);
        }
    }
}

/// Goes on to the next answer, or to where the search ends. Frames may be nested so deep.
fn driven(
    alloc: Global,
    pool: &mut Pool,
    sound: &Sound,
    section: &mut Section,
    depth: u32,
) -> Result<Turn, NoMemory>
    requires { IsReady sound.now section.old }
    ensures ready { IsReady sound.now section.new }
    ensures answer { result ≡ Ok Turn.Answer → AreClosed (stack_in (view_of section.new)) }
{
    'moves: for _move in 0..1000 {
        let turn = go_on(pool, sound, section)?;
        if turn != Turn::Fork {
            return Ok(turn);
        }
        match next_of(alloc, pool, sound, section)? {
            Next::Run(i, mut inner) => {
                if depth == 0 {
                    return Err(NoMemory);
                }
                let since = inner.spent();
                let end = driven(alloc, pool, sound, &mut inner, depth - 1)?;
                put(pool, sound, section, i, inner, since, end);
            }
            Next::Went => {}
            Next::Spent => return Ok(Turn::Spent),
        }
    }
    Err(NoMemory)
}

/// The section of the query.
fn started(alloc: Global, sound: &Sound, rest: u64) -> Result<Section, Fail>
    ensures { IfOk result (λ section. IsReady sound.now section) }
{
    let number = sound.code().query().ok_or("no query")?;
    match sound.code().predicates().get(number as usize) {
        Some(found) => {
            let tuple = new_variables(alloc, found.arity as usize)?;
            Ok(Section::start(alloc, sound, &tuple, number, rest)?)
        }
        None => Err(Fail::new("no query")),
    }
}

/// How the search of a section ends, the calls that were charged to it, and the lines of its answers.
fn answers_of(
    alloc: Global,
    asked: &Asked,
    sound: &Sound,
    mut section: Section,
) -> Result<(Turn, u64, Vec<u8>), Fail>
    requires { IsReady sound.now section }
{
    let mut lines = Vec::new(alloc);
    let mut pool = Pool::new(alloc);
    'answers: for _answer in 0..50 {
        let end = driven(alloc, &mut pool, sound, &mut section, 40)?;
        if end != Turn::Answer {
            return Ok((end, section.spent(), lines));
        }
        asked.put_line(alloc, &section.tuple(), &mut lines)?;
        section.redo();
    }
    Err(Fail::new("more answers"))
}

/// What a query's search comes to.
fn run(alloc: Global, asked: &Asked, rest: u64) -> Result<(Turn, u64, Vec<u8>), Fail> {
    let sound = asked.compiled(alloc)?;
    let section = started(alloc, &sound, rest)?;
    answers_of(alloc, asked, &sound, section)
}

/// A program, a query, the calls that it may make, the lines of its answers, how it ends, and the calls that are charged to it: those of
/// its own, and those of rounds that were settled otherwise than by a spent budget.
type Row = (&'static str, &'static str, u64, &'static str, Turn, u64);

const PAIRS: &str = "q(X,Y) :- a(X) & a(Y). a(1). a(2).";

const BITS: &str = "s(X,Y,Z) :- b(X) & q(Y,Z). q(Y,Z) :- b(Y) & b(Z). b(0). b(1).";

const ENDLESS: &str = "t :- f & l. l :- l. f :- fail.";

const MANY: &str =
    "p :- a & a & a & a & a & a & a & a & a & a & a & a & a & a & a & a & a & a & a & a & a & a & a & a & a & a & a & a & a & a & a & a. a.";

static ROWS: [Row; 13] = [
    (
        PAIRS,
        "?- q(X,Y).",
        4,
        "X = 1, Y = 1;X = 1, Y = 2;X = 2, Y = 1;X = 2, Y = 2;",
        Turn::Failed,
        4,
    ),
    (
        PAIRS,
        "?- q(X,Y).",
        3,
        "X = 1, Y = 1;X = 1, Y = 2;",
        Turn::Spent,
        3,
    ),
    // a group within a group's goal
    (
        BITS,
        "?- s(X,Y,Z).",
        10,
        "X = 0, Y = 0, Z = 0;X = 0, Y = 0, Z = 1;X = 0, Y = 1, Z = 0;X = 0, Y = 1, Z = 1;X = 1, Y = 0, Z = 0;X = 1, Y = 0, Z = 1;X = 1, Y = 1, Z = 0;X = 1, Y = 1, Z = 1;",
        Turn::Failed,
        10,
    ),
    (
        BITS,
        "?- s(X,Y,Z).",
        9,
        "X = 0, Y = 0, Z = 0;X = 0, Y = 0, Z = 1;X = 0, Y = 1, Z = 0;X = 0, Y = 1, Z = 1;X = 1, Y = 0, Z = 0;X = 1, Y = 0, Z = 1;",
        Turn::Spent,
        9,
    ),
    // a goal behind one that failed isn't begun
    (ENDLESS, "?- t.", 3, "", Turn::Failed, 3),
    (ENDLESS, "?- t.", 2, "", Turn::Spent, 1),
    // a frame within a frame within a frame
    (
        "t(A,B) :- u(A) & u(B). u(A) :- v(A) & w. v(A) :- b(A) & w. b(0). b(1). w.",
        "?- t(A,B).",
        22,
        "A = 0, B = 0;A = 0, B = 1;A = 1, B = 0;A = 1, B = 1;",
        Turn::Failed,
        22,
    ),
    (
        "n(z). n(s(X)) :- n(X) & w. w.",
        "?- n(s(s(s(z)))).",
        7,
        "true;",
        Turn::Failed,
        7,
    ),
    // a group behind alternatives
    (
        "k(X,Y) :- c(Y), m(X,Y). m(X,Y) :- e(X) & d(Y). c(1). c(2). e(3). e(4). d(1). d(2).",
        "?- k(X,Y).",
        10,
        "X = 3, Y = 1;X = 4, Y = 1;X = 3, Y = 2;X = 4, Y = 2;",
        Turn::Failed,
        10,
    ),
    // one goal fails where others have alternatives, which aren't looked for
    (
        "h(X) :- c(Y), k(X,Y). k(X,Y) :- e(X) & e(Y). c(9). c(1). e(1). e(2).",
        "?- h(X).",
        10,
        "X = 1;X = 2;",
        Turn::Failed,
        9,
    ),
    // two groups in one clause, the second of which sends back into the first
    (
        "m(X,Y) :- b(X) & b(Y), d(X) & d(Y). b(1). b(2). d(2).",
        "?- m(X,Y).",
        10,
        "X = 2, Y = 2;",
        Turn::Failed,
        10,
    ),
    (MANY, "?- p.", 33, "true;", Turn::Failed, 33),
    (MANY, "?- p.", 32, "", Turn::Spent, 1),
];

/// Whether a section that is driven comes to what a row says, and the model's search, too.
fn is_row(alloc: Global, row: &Row) -> Result<bool, Fail> {
    let asked = Asked::read(alloc, row.0, row.1)?;
    let (end, spent, lines) = run(alloc, &asked, row.2)?;
    let (ended, wanted) = asked.searched(alloc, row.2)?;
    Ok(
        end == row.4
            && spent == row.5
            && ended == (end == Turn::Failed)
            && lines.as_slice() == row.3.as_bytes()
            && wanted.as_slice() == row.3.as_bytes(),
    )
}

#[test]
fn sections_driven_by_hand(rt: HostRuntime) -> Result<(), Fail> {
    for row in &ROWS {
        assert!(rt; is_row(rt.alloc(), row)?, "{} {} {}", row.0, row.1, row.2);
    }
    Ok(())
}
