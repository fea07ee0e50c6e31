//! What the search of a query is charged, and how many calls are made for it, found by hand: a join costs the sum of its goals, a redone
//! goal what it makes anew, and where a goal fails the calls of those right of it cost nothing.

ghost use Rattle.std.specs.Prelude.{◌<◌, ◌≤◌};

use crate::cases::are_lines;
use ap_outside::{OpenGate, SteadySink};
use ap_top::{BOUNDS, Bounds, Crew, End, answer};
use std::alloc::Global;
use std::process::Abort;
use std::random::RandomSource;
use std::sync::Wait;
use std::test::Fail;
use std::thread::Threads;

/// A program and a query, how many calls and answers it may have, the lines that are put, how they end, and what is charged. Where no
/// work is thrown away just so many calls are made.
#[derive(Drop)]
struct Charge {
    program: &'static str,
    query: &'static str,
    budget: u64,
    answers: u64,
    put: &'static str,
    end: End,
    charged: u64,
    wasteful: bool,
}

const BITS: &str = "s(X,Y,Z) :- b(X) & q(Y,Z). q(Y,Z) :- b(Y) & b(Z). b(0). b(1).";

/// Counts down to 0.
const COUNT: &str = "c(0). c(N) :- N > 0, M is N - 1, c(M).";

const SIX: &str =
    "X = 0, Y = 0, Z = 0\nX = 0, Y = 0, Z = 1\nX = 0, Y = 1, Z = 0\nX = 0, Y = 1, Z = 1\nX = 1, Y = 0, Z = 0\nX = 1, Y = 0, Z = 1\n";

static CHARGES: [Charge; 18] = [
    // s, b(X), q, b(Y), b(Z); then b(Z), and q, b(Y), b(Z), b(Z) again
    Charge {
        program: BITS,
        query: "?- s(X,Y,Z).",
        budget: 10,
        answers: 100,
        put: "X = 0, Y = 0, Z = 0\nX = 0, Y = 0, Z = 1\nX = 0, Y = 1, Z = 0\nX = 0, Y = 1, Z = 1\nX = 1, Y = 0, Z = 0\nX = 1, Y = 0, Z = 1\nX = 1, Y = 1, Z = 0\nX = 1, Y = 1, Z = 1\n",
        end: End::NoMore,
        charged: 10,
        wasteful: false,
    },
    // the last b(Z) isn't called
    Charge {
        program: BITS,
        query: "?- s(X,Y,Z).",
        budget: 9,
        answers: 100,
        put: SIX,
        end: End::Spent,
        charged: 9,
        wasteful: false,
    },
    Charge {
        program: BITS,
        query: "?- s(X,Y,Z).",
        budget: 100,
        answers: 6,
        put: SIX,
        end: End::Stopped,
        charged: 9,
        wasteful: false,
    },
    // t, f, fail; what l calls is thrown away
    Charge {
        program: "t :- f & l. l :- l. f :- fail.",
        query: "?- t.",
        budget: 3,
        answers: 100,
        put: "",
        end: End::NoMore,
        charged: 3,
        wasteful: true,
    },
    // t, f, fail; a group of endless goals is thrown away
    Charge {
        program: "t :- f & u. u :- l & l. l :- l. f :- fail.",
        query: "?- t.",
        budget: 1000000,
        answers: 100,
        put: "",
        end: End::NoMore,
        charged: 3,
        wasteful: true,
    },
    Charge {
        program: "t :- f & l. l :- l. f :- fail.",
        query: "?- t.",
        budget: 2,
        answers: 100,
        put: "",
        end: End::Spent,
        charged: 2,
        wasteful: true,
    },
    // q, a(X), a(Y); the second answer takes no call
    Charge {
        program: "q(X,Y) :- a(X) & a(Y). a(1). a(2).",
        query: "?- q(X,Y).",
        budget: 100,
        answers: 2,
        put: "X = 1, Y = 1\nX = 1, Y = 2\n",
        end: End::Stopped,
        charged: 3,
        wasteful: false,
    },
    // no group
    Charge {
        program: "n(z). n(s(X)) :- n(X).",
        query: "?- n(X).",
        budget: 3,
        answers: 100,
        put: "X = z\nX = s(z)\nX = s(s(z))\n",
        end: End::Spent,
        charged: 3,
        wasteful: false,
    },
    Charge {
        program: "p(1). p(2). p(3).",
        query: "?- p(X), X > 1.",
        budget: 100,
        answers: 100,
        put: "X = 2\nX = 3\n",
        end: End::NoMore,
        charged: 4,
        wasteful: false,
    },
    Charge {
        program: "p(1).",
        query: "?- p(X).",
        budget: 100,
        answers: 0,
        put: "",
        end: End::Stopped,
        charged: 0,
        wasteful: false,
    },
    // three for each number but 0, and two for 0; the budget may be spent at each goal
    Charge {
        program: COUNT,
        query: "?- c(3).",
        budget: 11,
        answers: 100,
        put: "true\n",
        end: End::NoMore,
        charged: 11,
        wasteful: false,
    },
    Charge {
        program: COUNT,
        query: "?- c(3).",
        budget: 10,
        answers: 100,
        put: "true\n",
        end: End::Spent,
        charged: 10,
        wasteful: false,
    },
    Charge {
        program: COUNT,
        query: "?- c(3).",
        budget: 2,
        answers: 100,
        put: "",
        end: End::Spent,
        charged: 2,
        wasteful: false,
    },
    Charge {
        program: COUNT,
        query: "?- c(3).",
        budget: 1,
        answers: 100,
        put: "",
        end: End::Spent,
        charged: 1,
        wasteful: false,
    },
    // a goal on an unbound operand fails, and counts
    Charge {
        program: COUNT,
        query: "?- c(_N), fail.",
        budget: 100,
        answers: 100,
        put: "",
        end: End::NoMore,
        charged: 3,
        wasteful: false,
    },
    // a value that 64 bits don't hold, and the greatest that they do
    Charge {
        program: "",
        query: "?- X = 9223372036854775807, Y is X + 1.",
        budget: 100,
        answers: 100,
        put: "",
        end: End::NoMore,
        charged: 2,
        wasteful: false,
    },
    Charge {
        program: "",
        query: "?- X = 9223372036854775806, Y is X + 1, Y > X.",
        budget: 100,
        answers: 100,
        put: "X = 9223372036854775806, Y = 9223372036854775807\n",
        end: End::NoMore,
        charged: 3,
        wasteful: false,
    },
    // a value that a variable has already, and another one
    Charge {
        program: "e(X) :- X is 1 + 2. e(X) :- X = 4, X is 1 + 2.",
        query: "?- e(X).",
        budget: 100,
        answers: 100,
        put: "X = 3\n",
        end: End::NoMore,
        charged: 4,
        wasteful: false,
    },
];

/// Whether a query comes to what is said with so many workers, each with so many pads.
fn is_charged<R: Abort + Threads + Wait + RandomSource + Sync>(
    rt: &R,
    alloc: Global,
    charge: &Charge,
    workers: u32,
    pads: u32,
) -> Result<bool, Fail>
    requires workers { (0 < workers) × (workers ≤ 32) }
    requires pads { (0 < pads) × (pads ≤ 1024) }
{
    let crew = Crew {
        rt,
        gate: &OpenGate,
        workers,
    };
    let bounds = Bounds {
        budget: charge.budget,
        answers: charge.answers,
        kind: BOUNDS.kind,
    };
    let mut out = SteadySink::new(alloc);
    let answered = answer(
        alloc,
        &crew,
        charge.program.as_bytes(),
        charge.query.as_bytes(),
        bounds,
        &mut out,
        pads,
    );
    let Ok(Some(ended)) = answered else {
        return Ok(false);
    };
    let made = ended.total.exact && ended.total.sum == charge.charged;
    Ok(
        are_lines(out.pieces(), charge.put)
            && ended.end == charge.end
            && ended.charged == charge.charged
            && (made || charge.wasteful),
    )
}

fn check_on<R: Abort + Threads + Wait + RandomSource + Sync>(
    rt: &R,
    alloc: Global,
    workers: u32,
    pads: u32,
) -> Result<(), Fail>
    requires workers { (0 < workers) × (workers ≤ 32) }
    requires pads { (0 < pads) × (pads ≤ 1024) }
{
    for charge in &CHARGES {
        assert!(rt;
            is_charged(rt, alloc, charge, workers, pads)?,
            "{workers} workers, {pads} pads: {}",
            charge.program
        );
    }
    Ok(())
}

#[test]
fn a_search_is_charged_what_its_goals_cost(rt: HostRuntime) -> Result<(), Fail> {
    check_on(&rt, rt.alloc(), 1, 64)?;
    check_on(&rt, rt.alloc(), 2, 64)?;
    check_on(&rt, rt.alloc(), 4, 64)?;
    check_on(&rt, rt.alloc(), 32, 64)
}

#[test]
fn a_search_with_few_pads_is_charged_the_same(rt: HostRuntime) -> Result<(), Fail> {
    check_on(&rt, rt.alloc(), 1, 1)?;
    check_on(&rt, rt.alloc(), 1, 2)?;
    check_on(&rt, rt.alloc(), 2, 1)?;
    check_on(&rt, rt.alloc(), 2, 2)?;
    check_on(&rt, rt.alloc(), 32, 1)?;
    check_on(&rt, rt.alloc(), 32, 2)
}
