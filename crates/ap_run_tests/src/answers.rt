//! Programs and queries, with the answers that the language's rules give.

use crate::cases::{Command, check_all};
use ap_top::Status;
use std::test::Fail;

const RUN: &[&str] = &["andprolog", "run", "f.pl"];

const ANSWERS: [Command; 26] = [
    (
        RUN,
        "p(1). p(2).",
        "?- p(X).",
        "X = 1\nX = 2\nno more.\n",
        Status::Done,
    ),
    (RUN, "", "?- true.", "true\nno more.\n", Status::Done),
    (
        &["andprolog", "run", "f.pl", "--budget", "100"],
        "r(X) :- l & f, X = 0. r(1). l :- l. f :- fail.",
        "?- r(X).",
        "budget spent.\n",
        Status::BudgetSpent,
    ),
    (RUN, "", "?- X = f(X).", "no more.\n", Status::Done),
    (
        &["andprolog", "run", "f.pl", "--budget", "3"],
        "n(z). n(s(X)) :- n(X).",
        "?- n(X).",
        "X = z\nX = s(z)\nX = s(s(z))\nbudget spent.\n",
        Status::BudgetSpent,
    ),
    (
        RUN,
        "p(1). p(1).",
        "?- p(X).",
        "X = 1\nX = 1\nno more.\n",
        Status::Done,
    ),
    (
        RUN,
        "e(X,Y) :- X = f(Y).",
        "?- e(A,B). ?- e(_A,B).",
        "A = f(_1), B = _1\nno more.\nB = _1\nno more.\n",
        Status::Done,
    ),
    (
        RUN,
        "p :- !.",
        "?- p.",
        "refused: line 1: outside !\n",
        Status::ProgramRefused,
    ),
    (
        RUN,
        "p(1).\np(2",
        "?- p(1).",
        "refused: line 2: not a clause\n",
        Status::ProgramRefused,
    ),
    (
        RUN,
        "p(1). p(2).",
        "?- p(1).\n?- p(.\n?- p(2).",
        "true\nno more.\nrefused: line 2: not a clause\ntrue\nno more.\n",
        Status::QueryRefused,
    ),
    (RUN, "", "?- X is 1 // 0.", "no more.\n", Status::Done),
    (
        RUN,
        "p(X, f(X)).",
        "?- p(A, A).",
        "no more.\n",
        Status::Done,
    ),
    (RUN, "p(1). p(2).", "", "", Status::Done),
    (
        RUN,
        "",
        "?- X is 9223372036854775807 + 0. ?- X is 9223372036854775807 + 1.",
        "X = 9223372036854775807\nno more.\nno more.\n",
        Status::Done,
    ),
    (
        RUN,
        "",
        "?- X = -9223372036854775808. ?- X = 9223372036854775808.",
        "X = -9223372036854775808\nno more.\nrefused: line 1: not a clause\n",
        Status::QueryRefused,
    ),
    (
        RUN,
        "p :- a & a & a & a & a & a & a & a & a & a & a & a & a & a & a & a & a & a & a & a & a & a & a & a & a & a & a & a & a & a & a & a & a.",
        "?- p.",
        "refused: line 1: too large group\n",
        Status::ProgramRefused,
    ),
    (
        RUN,
        "p :- a & a & a & a & a & a & a & a & a & a & a & a & a & a & a & a & a & a & a & a & a & a & a & a & a & a & a & a & a & a & a & a.",
        "?- p.",
        "no more.\n",
        Status::Done,
    ),
    (
        RUN,
        "",
        "?- X = (a, b & c, d).",
        "X = ','(a,','(&(b,c),d))\nno more.\n",
        Status::Done,
    ),
    (
        RUN,
        "",
        "?- X = -1, Y = - 1, Z = 7 - -2.",
        "X = -1, Y = -(1), Z = -(7,-2)\nno more.\n",
        Status::Done,
    ),
    (
        RUN,
        "",
        "?- X is -7 // 2, Y is -7 mod 2, Z is -7 rem 2.",
        "X = -3, Y = 1, Z = -1\nno more.\n",
        Status::Done,
    ),
    (
        RUN,
        "o(X,Y,A,B,C,D,E,F) :- A is X + Y, B is X - Y, C is X * Y, D is X // Y, E is X rem Y, F is X mod Y.",
        "?- o(-7,2,A,B,C,D,E,F). ?- o(7,0,_A,_B,_C,D,_E,_F).",
        "A = -5, B = -9, C = -14, D = -3, E = -1, F = 1\nno more.\nno more.\n",
        Status::Done,
    ),
    // an operand that isn't an integer is an expression, or the goal fails
    (
        RUN,
        "k(X,Y,1) :- X < Y. k(X,Y,2) :- X > Y. k(X,Y,3) :- X =:= Y. k(X,Y,4) :- X =\\= Y. k(X,Y,5) :- X =< Y. k(X,Y,6) :- X >= Y.",
        "?- k(1,2,K). ?- k(2,1,K). ?- k(1+1,2,K). ?- k(_X,2,K). ?- k(2,a,K).",
        "K = 1\nK = 4\nK = 5\nno more.\nK = 2\nK = 4\nK = 6\nno more.\nK = 3\nK = 5\nK = 6\nno more.\nno more.\nno more.\n",
        Status::Done,
    ),
    // expressions in one another: on integers, on an expression, on no integer, and with a fault within
    (
        RUN,
        "n(A,B,C,L,R,T,D) :- L is A - B - C, R is A - (B - C), T is A * B + C * A, D is (A - B) // (C - B) rem (A + 2 * B).",
        "?- n(20,3,5,L,R,T,D). ?- n(10+10,3,5,L,R,T,D). ?- n(20,_B,5,_L,_R,_T,_D). ?- n(20,3,a,_L,_R,_T,_D). ?- n(20,3,3,_L,_R,_T,_D).",
        "L = 12, R = 22, T = 160, D = 8\nno more.\nL = 12, R = 22, T = 160, D = 8\nno more.\nno more.\nno more.\nno more.\n",
        Status::Done,
    ),
    (
        RUN,
        "c(A,B,C,1) :- A * B + C < A * (B - C). c(A,B,C,2) :- A - B - C =:= A - (B - C). c(A,B,C,3) :- 2 * (A + B) - C >= (C - A) * B.",
        "?- c(2,3,-1,K). ?- c(2,3,0,K). ?- c(2,_B,0,_K).",
        "K = 1\nK = 3\nno more.\nK = 2\nK = 3\nno more.\nno more.\n",
        Status::Done,
    ),
    (
        RUN,
        "m(A,B,C,X) :- X is A * B + C. s(A,X) :- X is A+A+A+A+A+A+A+A+A+A+A+A+A+A+A+A+A+A+A+A.",
        "?- m(4611686018427387904,1,4611686018427387903,X). ?- m(4611686018427387904,2,-1,_X). ?- m(2,3,4,10). ?- m(2,3,4,11). ?- s(3,X).",
        "X = 9223372036854775807\nno more.\nno more.\ntrue\nno more.\nno more.\nX = 60\nno more.\n",
        Status::Done,
    ),
    // queries that take the groups of the one before them, and such that don't: other variables, groups of their own, disjunctions
    (
        RUN,
        "e(a,b). e(b,c). l(X,Y) :- e(X,A), e(Y,B).",
        "?- l(a,b). ?- l(b,a). ?- l(a,z). ?- l(a,X). ?- l(f(b),X). ?- l(b,Y). ?- l(X,X). ?- l(X,Y). ?- l(Y,X). ?- l(a,b) & l(b,a). ?- l(a,b), l(b,a). ?- l(b,b), l(z,a). ?- (l(a,b) ; l(b,z)). ?- l(a,a).",
        "true\nno more.\ntrue\nno more.\nno more.\nX = a\nX = b\nno more.\nno more.\nY = a\nY = b\nno more.\nX = a\nX = b\nno more.\nX = a, Y = a\nX = a, Y = b\nX = b, Y = a\nX = b, Y = b\nno more.\nY = a, X = a\nY = a, X = b\nY = b, X = a\nY = b, X = b\nno more.\ntrue\nno more.\ntrue\nno more.\nno more.\ntrue\nno more.\ntrue\nno more.\n",
        Status::Done,
    ),
];

#[test]
fn programs_answer_queries(rt: HostRuntime) -> Result<(), Fail> {
    check_all(&rt, rt.alloc(), &ANSWERS)
}
