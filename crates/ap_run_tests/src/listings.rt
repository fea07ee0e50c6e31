//! Programs, and the listings of their code, written by hand from the rules of the code.
// A structure's arguments are unified one by one, a goal's arguments are put, the last goal is executed. A structure inside
// another one has a temporary while it waits: in a head the last one is taken apart first, in a body it is built first. A
// variable that outlives a call stands in the environment; any other one in the argument register that it comes from or goes
// to, if nothing else needs that meanwhile, and else behind the arguments. What stands where it is put already needs no move.
// Where some clause of two or more asks for a first argument, switches come first, and behind the clauses stand the chains of those
// keys that two or more of them answer, in the order in which the keys are first asked for, and that of the clauses for all others.
// A group's checks come first and lead past its goals, which are pushed by their numbers, to the same goals one after another.
// A variable outlives a group as it outlives a call, and on the other way each of these. At the checks it stands in one place.

use crate::cases::{Command, check_all};
use crate::groups::MANY;
use ap_top::Status;
use std::test::Fail;

const CODE: &[&str] = &["andprolog", "code", "f.pl"];

const PROGRAM: &str =
    "p(1).  q(X) :- p(X), r(X).  app([], L, L).  app([H|T], L, [H|R]) :- app(T, L, R).
    f(g(h(X), Y), [a, b|Z]).  s(X) :- p(g(h(X), [a, b])).";

const LISTED: &str = "p/1:
  get_integer 1 A1
  proceed
q/1:
  allocate 1
  get_variable Y1 A1
  check_ground Y1 @9
  alloc_parcall 2
  put_value Y1 A1
  push_goal 1 p/1
  push_goal 2 r/1
  wait_all
  jump @13
  put_value Y1 A1
  call p/1
  put_value Y1 A1
  call r/1
  deallocate
  proceed
app/3:
  switch_on_term @2 @1 @7 fail
  switch_on_constant [] @4 fail
  try @4
  trust @7
  get_constant [] A1
  get_value X2 A3
  proceed
  get_list A1
  unify_variable X4
  unify_variable X1
  get_list A3
  unify_value X4
  unify_variable X3
  execute app/3
f/2:
  get_structure g/2 A1
  unify_variable X3
  unify_variable X4
  get_structure h/1 A3
  unify_variable X5
  get_list A2
  unify_constant a
  unify_variable X3
  get_list A3
  unify_constant b
  unify_variable X6
  proceed
s/1:
  get_variable X4 A1
  put_list A1
  unify_constant b
  unify_constant []
  put_list A2
  unify_constant a
  unify_value X1
  put_structure h/1 A3
  unify_value X4
  put_structure g/2 A1
  unify_value X3
  unify_value X2
  execute p/1
";

const REVERSE: &str = "rev([H|T], R) :- rev(T, S), app(S, [H], R).";

/// Of the variables only T, the second one, outlives no call.
const REVERSED: &str = "rev/2:
  allocate 3
  get_list A1
  unify_variable Y1
  unify_variable X1
  get_variable Y2 A2
  put_variable Y3 A2
  call rev/2
  put_value Y3 A1
  put_list A2
  unify_value Y1
  unify_constant []
  put_value Y2 A3
  deallocate
  execute app/3
";

const PAIRS: &str = "q(X, Y) :- a(X) & a(Y).  a(1).";

const PAIRS_LISTED: &str = "q/2:
  allocate 1
  get_variable Y1 A2
  check_indep X1 Y1 @9
  alloc_parcall 2
  push_goal 1 a/1
  put_value Y1 A1
  push_goal 2 a/1
  wait_all
  jump @12
  call a/1
  put_value Y1 A1
  call a/1
  deallocate
  proceed
a/1:
  get_integer 1 A1
  proceed
";

const COPIES: &str = "cp(t(L, R), t(A, B)) :- cp(L, A), cp(R, B).";

/// The first goal's variables come in the registers that it wants them in.
const COPIES_LISTED: &str = "cp/2:
  allocate 2
  get_structure t/2 A1
  unify_variable X1
  unify_variable Y1
  get_structure t/2 A2
  unify_variable X2
  unify_variable Y2
  check_indep X1 Y1 @18
  check_indep X1 Y2 @18
  check_indep Y1 X2 @18
  check_indep X2 Y2 @18
  alloc_parcall 2
  push_goal 1 cp/2
  put_value Y1 A1
  put_value Y2 A2
  push_goal 2 cp/2
  wait_all
  jump @22
  call cp/2
  put_value Y1 A1
  put_value Y2 A2
  call cp/2
  deallocate
  proceed
";

/// A built-in goal is pushed by its name, and its predicate isn't listed; in turn it is the instruction.
const APART: &str = "s :- a(1) & X = f(X0) & b, c(X, X0).";

const APART_LISTED: &str = "s/0:
  allocate 2
  alloc_parcall 3
  put_integer 1 A1
  push_goal 1 a/1
  put_variable Y1 A1
  put_structure f/1 A2
  unify_variable Y2
  push_goal 2 =/2
  push_goal 3 b/0
  wait_all
  jump @18
  put_integer 1 A1
  call a/1
  put_variable Y1 A1
  put_structure f/1 A2
  unify_variable Y2
  builtin =
  call b/0
  put_value Y1 A1
  put_value Y2 A2
  deallocate
  execute c/2
";

const GROUPS: &str = "t(X, Y) :- a(X) & b, c & d(Y).  a(1).  b.  c.  d(2).";

/// X goes no further than the first group, and Y outlives it.
const GROUPS_LISTED: &str = "t/2:
  allocate 1
  get_variable Y1 A2
  alloc_parcall 2
  push_goal 1 a/1
  push_goal 2 b/0
  wait_all
  jump @9
  call a/1
  call b/0
  alloc_parcall 2
  push_goal 1 c/0
  put_value Y1 A1
  push_goal 2 d/1
  wait_all
  jump @18
  call c/0
  put_value Y1 A1
  call d/1
  deallocate
  proceed
a/1:
  get_integer 1 A1
  proceed
b/0:
  proceed
c/0:
  proceed
d/1:
  get_integer 2 A1
  proceed
";

/// The sum of a list by halves. Only the halves may share a variable, so that they alone are checked, behind the call that makes them;
/// the sums are made on both ways.
const HALVES: &str = "total([], 0).
    total([E|L], S) :- deal(L, A, B), total(A, SA), total(B, SB), S is SA + SB + E.
    deal([], [], []).
    deal([E|L], [E|A], B) :- deal(L, B, A).";

const HALVES_LISTED: &str = "total/2:
  switch_on_term @2 @1 @7 fail
  switch_on_constant [] @4 fail
  try @4
  trust @7
  get_constant [] A1
  get_integer 0 A2
  proceed
  allocate 6
  get_list A1
  unify_variable Y1
  unify_variable X1
  get_variable Y2 A2
  put_variable Y3 A2
  put_variable Y4 A3
  call deal/3
  check_indep Y3 Y4 @25
  alloc_parcall 2
  put_value Y3 A1
  put_variable Y5 A2
  push_goal 1 total/2
  put_value Y4 A1
  put_variable Y6 A2
  push_goal 2 total/2
  wait_all
  jump @31
  put_value Y3 A1
  put_variable Y5 A2
  call total/2
  put_value Y4 A1
  put_variable Y6 A2
  call total/2
  put_value Y2 A1
  put_structure +/2 A3
  unify_value Y5
  unify_value Y6
  put_structure +/2 A2
  unify_value X3
  unify_value Y1
  builtin is
  deallocate
  proceed
deal/3:
  switch_on_term @2 @1 @8 fail
  switch_on_constant [] @4 fail
  try @4
  trust @8
  get_constant [] A1
  get_constant [] A2
  get_constant [] A3
  proceed
  get_list A1
  unify_variable X4
  unify_variable X1
  get_list A2
  unify_value X4
  unify_variable X5
  put_value X3 A2
  put_value X5 A3
  execute deal/3
";

/// Keys of each kind beside a clause that asks for none, constants alone, two clauses that ask for none, and no key.
const SWITCHES: &str =
    "p(a, 1).  p(7, 2).  p([_|_], 3).  p(f(_), 4).  p(_, 5).  p(a, 6).  p(g(_, _), 7).  p([], 8).
    c(a).  c(-3).  c(a).
    d(f(a)).  d(_).  d(_).
    v(_, 1).  v(X, X).";

const SWITCHES_LISTED: &str = "p/2:
  switch_on_term @3 @1 @44 @2
  switch_on_constant a @39 7 @42 [] @50 @26
  switch_on_structure f/1 @46 g/2 @48 @26
  try @11
  retry @14
  retry @17
  retry @22
  retry @26
  retry @28
  retry @31
  trust @36
  get_constant a A1
  get_integer 1 A2
  proceed
  get_integer 7 A1
  get_integer 2 A2
  proceed
  get_list A1
  unify_variable X3
  unify_variable X4
  get_integer 3 A2
  proceed
  get_structure f/1 A1
  unify_variable X3
  get_integer 4 A2
  proceed
  get_integer 5 A2
  proceed
  get_constant a A1
  get_integer 6 A2
  proceed
  get_structure g/2 A1
  unify_variable X3
  unify_variable X4
  get_integer 7 A2
  proceed
  get_constant [] A1
  get_integer 8 A2
  proceed
  try @11
  retry @26
  trust @28
  try @14
  trust @26
  try @17
  trust @26
  try @22
  trust @26
  try @26
  trust @31
  try @26
  trust @36
c/1:
  switch_on_term @2 @1 fail fail
  switch_on_constant a @11 -3 @7 fail
  try @5
  retry @7
  trust @9
  get_constant a A1
  proceed
  get_integer -3 A1
  proceed
  get_constant a A1
  proceed
  try @5
  trust @9
d/1:
  switch_on_term @2 @13 @13 @1
  switch_on_structure f/1 @10 @13
  try @5
  retry @8
  trust @9
  get_structure f/1 A1
  unify_constant a
  proceed
  proceed
  proceed
  try @5
  retry @8
  trust @9
  try @8
  trust @9
v/2:
  try @2
  trust @4
  get_integer 1 A2
  proceed
  get_value X1 A2
  proceed
";

/// As many goals as a group can have.
const MANY_LISTED: &str = "p/0:
  allocate 0
  alloc_parcall 32
  push_goal 1 a/0
  push_goal 2 a/0
  push_goal 3 a/0
  push_goal 4 a/0
  push_goal 5 a/0
  push_goal 6 a/0
  push_goal 7 a/0
  push_goal 8 a/0
  push_goal 9 a/0
  push_goal 10 a/0
  push_goal 11 a/0
  push_goal 12 a/0
  push_goal 13 a/0
  push_goal 14 a/0
  push_goal 15 a/0
  push_goal 16 a/0
  push_goal 17 a/0
  push_goal 18 a/0
  push_goal 19 a/0
  push_goal 20 a/0
  push_goal 21 a/0
  push_goal 22 a/0
  push_goal 23 a/0
  push_goal 24 a/0
  push_goal 25 a/0
  push_goal 26 a/0
  push_goal 27 a/0
  push_goal 28 a/0
  push_goal 29 a/0
  push_goal 30 a/0
  push_goal 31 a/0
  push_goal 32 a/0
  wait_all
  jump @68
  call a/0
  call a/0
  call a/0
  call a/0
  call a/0
  call a/0
  call a/0
  call a/0
  call a/0
  call a/0
  call a/0
  call a/0
  call a/0
  call a/0
  call a/0
  call a/0
  call a/0
  call a/0
  call a/0
  call a/0
  call a/0
  call a/0
  call a/0
  call a/0
  call a/0
  call a/0
  call a/0
  call a/0
  call a/0
  call a/0
  call a/0
  call a/0
  deallocate
  proceed
a/0:
  proceed
";

const LISTINGS: [Command; 13] = [
    (CODE, SWITCHES, "", SWITCHES_LISTED, Status::Done),
    (CODE, HALVES, "", HALVES_LISTED, Status::Done),
    (CODE, MANY, "", MANY_LISTED, Status::Done),
    (CODE, PAIRS, "", PAIRS_LISTED, Status::Done),
    (CODE, COPIES, "", COPIES_LISTED, Status::Done),
    (CODE, APART, "", APART_LISTED, Status::Done),
    (CODE, GROUPS, "", GROUPS_LISTED, Status::Done),
    (CODE, PROGRAM, "", LISTED, Status::Done),
    (CODE, REVERSE, "", REVERSED, Status::Done),
    (
        CODE,
        "p(1).",
        "",
        "p/1:\n  get_integer 1 A1\n  proceed\n",
        Status::Done,
    ),
    (
        CODE,
        "p(1).\np(X :- q.",
        "",
        "refused: line 2: not a clause\n",
        Status::ProgramRefused,
    ),
    (
        &["andprolog", "code", "g.pl"],
        "",
        "",
        "fault: file\n",
        Status::FileFault,
    ),
    (
        &["andprolog", "code", "f.pl", "g.pl"],
        "p(1).",
        "",
        "usage: andprolog run FILE | show FILE | code FILE | load SEED SIZE\n",
        Status::Usage,
    ),
];

#[test]
fn programs_have_their_code_listed(rt: HostRuntime) -> Result<(), Fail> {
    check_all(&rt, rt.alloc(), &LISTINGS)
}
