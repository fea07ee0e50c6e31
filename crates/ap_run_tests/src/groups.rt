//! Programs with groups, and the answers of their goals one after another. How many calls they take is found by hand: a goal of a
//! group has the whole rest, a join costs the sum, and a redone goal only what it makes anew.

use crate::cases::{Command, check_all};
use ap_top::Status;
use std::test::Fail;

const RUN: &[&str] = &["andprolog", "run", "f.pl"];

const BITS: &str = "s(X,Y,Z) :- b(X) & q(Y,Z). q(Y,Z) :- b(Y) & b(Z). b(0). b(1).";

const PAIRS: &str = "q(X,Y) :- a(X) & a(Y). a(1). a(2).";

const ENDLESS: &str = "t :- f & l. l :- l. f :- fail.";

const PLAIN: &str = "q(X,Y) :- a(X), a(Y). a(1). a(2).";

/// A group of as many goals as it can have.
pub(crate) const MANY: &str =
    "p :- a & a & a & a & a & a & a & a & a & a & a & a & a & a & a & a & a & a & a & a & a & a & a & a & a & a & a & a & a & a & a & a. a.";

pub(crate) static GROUPS: [Command; 17] = [
    // two goals with two answers each, and with one variable for both
    (
        RUN,
        PAIRS,
        "?- q(X,Y).",
        "X = 1, Y = 1\nX = 1, Y = 2\nX = 2, Y = 1\nX = 2, Y = 2\nno more.\n",
        Status::Done,
    ),
    (
        RUN,
        PAIRS,
        "?- X = Y, q(X,Y).",
        "X = 1, Y = 1\nX = 2, Y = 2\nno more.\n",
        Status::Done,
    ),
    (
        &["andprolog", "run", "f.pl", "--answers", "2"],
        PAIRS,
        "?- q(X,Y).",
        "X = 1, Y = 1\nX = 1, Y = 2\nstopped.\n",
        Status::Done,
    ),
    // a group within a group's goal
    (
        &["andprolog", "run", "f.pl", "--budget", "10"],
        BITS,
        "?- s(X,Y,Z).",
        "X = 0, Y = 0, Z = 0\nX = 0, Y = 0, Z = 1\nX = 0, Y = 1, Z = 0\nX = 0, Y = 1, Z = 1\nX = 1, Y = 0, Z = 0\nX = 1, Y = 0, Z = 1\nX = 1, Y = 1, Z = 0\nX = 1, Y = 1, Z = 1\nno more.\n",
        Status::Done,
    ),
    (
        &["andprolog", "run", "f.pl", "--budget", "9"],
        BITS,
        "?- s(X,Y,Z).",
        "X = 0, Y = 0, Z = 0\nX = 0, Y = 0, Z = 1\nX = 0, Y = 1, Z = 0\nX = 0, Y = 1, Z = 1\nX = 1, Y = 0, Z = 0\nX = 1, Y = 0, Z = 1\nbudget spent.\n",
        Status::BudgetSpent,
    ),
    // what a cancelled goal made isn't charged
    (
        &["andprolog", "run", "f.pl", "--budget", "3"],
        ENDLESS,
        "?- t.",
        "no more.\n",
        Status::Done,
    ),
    (
        &["andprolog", "run", "f.pl", "--budget", "2"],
        ENDLESS,
        "?- t.",
        "budget spent.\n",
        Status::BudgetSpent,
    ),
    // a goal that fails stops a group of endless ones
    (
        &["andprolog", "run", "f.pl", "--budget", "1000000"],
        "t :- f & u. u :- l & l. l :- l. f :- fail.",
        "?- t.",
        "no more.\n",
        Status::Done,
    ),
    // groups that an annotator makes for the query, or doesn't
    (
        &["andprolog", "run", "f.pl", "--annotator", "mel"],
        PLAIN,
        "?- q(X,Y). ?- q(X,X).",
        "X = 1, Y = 1\nX = 1, Y = 2\nX = 2, Y = 1\nX = 2, Y = 2\nno more.\nX = 1\nX = 2\nno more.\n",
        Status::Done,
    ),
    (
        &["andprolog", "run", "f.pl", "--annotator", "udg"],
        PLAIN,
        "?- q(X,Y), Y < X.",
        "X = 2, Y = 1\nno more.\n",
        Status::Done,
    ),
    (
        &["andprolog", "run", "f.pl", "--annotator", "none"],
        PLAIN,
        "?- q(2,Y).",
        "Y = 1\nY = 2\nno more.\n",
        Status::Done,
    ),
    // a built-in goal of a group
    (
        RUN,
        "g(X,Y) :- X = f(Z) & a(Y). a(2). a(3).",
        "?- g(X,Y).",
        "X = f(_1), Y = 2\nX = f(_1), Y = 3\nno more.\n",
        Status::Done,
    ),
    // three levels, up to a limit
    (
        &["andprolog", "run", "f.pl", "--answers", "3"],
        "t(A,B,C,D) :- u(A,B) & u(C,D). u(A,B) :- b(A) & b(B). b(0). b(1).",
        "?- t(A,B,C,D).",
        "A = 0, B = 0, C = 0, D = 0\nA = 0, B = 0, C = 0, D = 1\nA = 0, B = 0, C = 1, D = 0\nstopped.\n",
        Status::Done,
    ),
    // behind alternatives, where one goal fails
    (
        RUN,
        "h(X) :- c(Y), k(X,Y). k(X,Y) :- e(X) & e(Y). c(9). c(1). e(1). e(2).",
        "?- h(X).",
        "X = 1\nX = 2\nno more.\n",
        Status::Done,
    ),
    // two groups in one clause, the second of which sends back into the first
    (
        RUN,
        "m(X,Y) :- b(X) & b(Y), d(X) & d(Y). b(1). b(2). b(3). d(2). d(3).",
        "?- m(X,Y).",
        "X = 2, Y = 2\nX = 2, Y = 3\nX = 3, Y = 2\nX = 3, Y = 3\nno more.\n",
        Status::Done,
    ),
    (RUN, MANY, "?- p.", "true\nno more.\n", Status::Done),
    (
        RUN,
        "r(X,Y) :- a(X) & a(Y), X < Y. a(1). a(2). a(3).",
        "?- r(X,Y).",
        "X = 1, Y = 2\nX = 1, Y = 3\nX = 2, Y = 3\nno more.\n",
        Status::Done,
    ),
];

#[test]
fn groups_have_the_answers_of_their_goals_in_turn(rt: HostRuntime) -> Result<(), Fail> {
    check_all(&rt, rt.alloc(), &GROUPS)
}
