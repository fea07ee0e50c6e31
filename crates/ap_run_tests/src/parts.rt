//! Queries that reach parts of a program, one after another: each answers as it does alone.

use crate::cases::{Command, check_all};
use ap_top::Status;
use std::test::Fail;

const RUN: &[&str] = &["andprolog", "run", "f.pl"];

const PARTS: [Command; 11] = [
    (
        RUN,
        "p(1,a). p(2,b). p(1,c). q(X) :- p(1,X). r(X) :- p(Y,X), Y > 1. s(X,Y) :- p(X,Y).",
        "?- p(1,X). ?- p(2,X). ?- p(3,X). ?- p(a,X). ?- q(X). ?- r(X). ?- s(X,Y). ?- p(1,X).",
        "X = a\nX = c\nno more.\nX = b\nno more.\nno more.\nno more.\nX = a\nX = c\nno more.\nX = b\nno more.\nX = 1, Y = a\nX = 2, Y = b\nX = 1, Y = c\nno more.\nX = a\nX = c\nno more.\n",
        Status::Done,
    ),
    (
        RUN,
        "p(1,a). p(2,a). p(1,b). t(X) :- p(1,X), p(2,X), p(X,1).",
        "?- p(1,X), p(Y,X). ?- p(2,X), p(1,X). ?- p(Y,b), p(2,X). ?- t(X).",
        "X = a, Y = 1\nX = a, Y = 2\nX = b, Y = 1\nno more.\nX = a\nno more.\nY = 1, X = a\nno more.\nno more.\n",
        Status::Done,
    ),
    (
        RUN,
        "m(a,1). m(X,2). m(b,3). m(f(X),4). n(a,1). n(g(X),2). n(3,4).",
        "?- m(a,X). ?- m(b,X). ?- m(c,X). ?- m(f(a),X). ?- n(a,X). ?- n(g(b),X). ?- n(3,X). ?- n(b,X). ?- n(X,2).",
        "X = 1\nX = 2\nno more.\nX = 2\nX = 3\nno more.\nX = 2\nno more.\nX = 2\nX = 4\nno more.\nX = 1\nno more.\nX = 2\nno more.\nX = 4\nno more.\nno more.\nX = g(_1)\nno more.\n",
        Status::Done,
    ),
    (
        RUN,
        "l(1,a). l(2,b). l(1). l. h(X,Y) :- l(1,X) & l(2,Y). k(X) :- ( l(2,X) ; l(1,X) ).",
        "?- h(X,Y). ?- ( l(1,X) ; l(2,X) ). ?- l(1,X) & l(2,Y). ?- k(X). ?- l, l(1). ?- l(2). ?- l(a,b,c).",
        "X = a, Y = b\nno more.\nX = a\nX = b\nno more.\nX = a, Y = b\nno more.\nX = b\nX = a\nno more.\ntrue\nno more.\nno more.\nno more.\n",
        Status::Done,
    ),
    (
        RUN,
        "e(1,2). e(2,3). e(3,1). w(X,X). w(X,Z) :- e(X,Y), v(Y,Z). v(X,X). o :- w(1,1), o.",
        "?- w(1,X). ?- v(1,X), e(X,Y). ?- w(3,1).",
        "X = 1\nX = 2\nno more.\nX = 1, Y = 2\nno more.\ntrue\nno more.\n",
        Status::Done,
    ),
    (
        &["andprolog", "run", "f.pl", "--budget", "3"],
        "c(1). c(2). d(X) :- c(2), c(X). c(3) :- d(1).",
        "?- c(X). ?- c(3). ?- d(1). ?- d(4).",
        "X = 1\nX = 2\nbudget spent.\nbudget spent.\ntrue\nno more.\nno more.\n",
        Status::BudgetSpent,
    ),
    (
        &["andprolog", "run", "f.pl", "--annotator", "none"],
        "p(1,a). p(2,b). q(X,Y) :- p(1,X), p(2,Y). z :- u.",
        "?- q(X,Y). ?- z. ?- u. ?- p(2,X), q(Y,X).",
        "X = a, Y = b\nno more.\nno more.\nno more.\nX = b, Y = a\nno more.\n",
        Status::Done,
    ),
    // Constants as arguments at other places than the first.
    (
        RUN,
        "p(1,a). p(2,b). p(1,c). p(3,a). q(X) :- p(X,a). r(X,Y) :- p(X,a), p(1,Y). s(X) :- p(X,b), p(Y,c), X > Y.",
        "?- p(X,a). ?- p(X,c). ?- p(X,z). ?- p(X,1). ?- q(X). ?- p(1,a). ?- p(X,a), p(1,Y). ?- r(X,Y). ?- s(X). ?- p(X,a).",
        "X = 1\nX = 3\nno more.\nX = 1\nno more.\nno more.\nno more.\nX = 1\nX = 3\nno more.\ntrue\nno more.\nX = 1, Y = a\nX = 1, Y = c\nX = 3, Y = a\nX = 3, Y = c\nno more.\nX = 1, Y = a\nX = 1, Y = c\nX = 3, Y = a\nX = 3, Y = c\nno more.\nX = 2\nno more.\nX = 1\nX = 3\nno more.\n",
        Status::Done,
    ),
    (
        RUN,
        "m(1,a,x). m(2,X,y). m(3,b,z). m(4,f(X),x).",
        "?- m(X,a,Y). ?- m(X,Y,x). ?- m(X,b,y). ?- m(X,Y,w). ?- m(4,Y,x), m(X,Z,y).",
        "X = 1, Y = x\nX = 2, Y = y\nno more.\nX = 1, Y = a\nX = 4, Y = f(_1)\nno more.\nX = 2\nno more.\nno more.\nY = f(_1), X = 2, Z = _2\nno more.\n",
        Status::Done,
    ),
    (
        RUN,
        "d(a,1). d(a,1). d(b,1). d(a,2). e(X) :- d(X,1). e(X) :- d(a,X).",
        "?- e(X). ?- d(X,1). ?- d(a,1).",
        "X = a\nX = a\nX = b\nX = 1\nX = 1\nX = 2\nno more.\nX = a\nX = a\nX = b\nno more.\ntrue\ntrue\nno more.\n",
        Status::Done,
    ),
    (
        RUN,
        "k(1,x). k(2,y). k(3,x).",
        "?- ( k(X,x) ; k(X,y) ). ?- k(X,x) & k(2,Y). ?- ( k(1,X) ; k(X,y) ). ?- k(X,x).",
        "X = 1\nX = 3\nX = 2\nno more.\nX = 1, Y = y\nX = 3, Y = y\nno more.\nX = x\nX = 2\nno more.\nX = 1\nX = 3\nno more.\n",
        Status::Done,
    ),
];

#[test]
fn queries_answer_beside_the_parts_that_they_reach(rt: HostRuntime) -> Result<(), Fail> {
    check_all(&rt, rt.alloc(), &PARTS)
}
