//! Programs, and how they are shown. The lines are found by hand from the rules.

use crate::cases::{Command, check_all};
use ap_top::Status;
use std::test::Fail;

const SHOW: &[&str] = &["andprolog", "show", "f.pl"];

const COPY: &str = "cp(t(L,R),t(A,B)) :- cp(L,A), cp(R,B).";

const TOTAL: &str =
    "total([],0). total([E|L],S) :- deal(L,A,B), total(A,SA), total(B,SB), S is SA + SB + E. deal([],[],[]). deal([E|L],[E|A],B) :- deal(L,B,A).";

const SHOWN: [Command; 7] = [
    (
        SHOW,
        COPY,
        "",
        "cp(t(_1,_2),t(_3,_4)) :- (indep(_1,_2), indep(_1,_4), indep(_2,_3), indep(_3,_4)) => cp(_1,_3) & cp(_2,_4).\n",
        Status::Done,
    ),
    (
        &["andprolog", "show", "f.pl", "--entry", "cp(g,f)"],
        COPY,
        "",
        "cp(t(_1,_2),t(_3,_4)) :- cp(_1,_3) & cp(_2,_4).\n",
        Status::Done,
    ),
    (
        &["andprolog", "show", "f.pl", "--annotator", "udg"],
        COPY,
        "",
        "cp(t(_1,_2),t(_3,_4)) :- cp(_1,_3), cp(_2,_4).\n",
        Status::Done,
    ),
    (
        &["andprolog", "show", "f.pl", "--entry", "total(g,f)"],
        TOTAL,
        "",
        "total([],0).\ntotal([_1|_2],_3) :- deal(_2,_4,_5), total(_4,_6) & total(_5,_7), is(_3,+(+(_6,_7),_1)).\ndeal([],[],[]).\ndeal([_1|_2],[_1|_3],_4) :- deal(_2,_4,_3).\n",
        Status::Done,
    ),
    (
        &["andprolog", "show", "f.pl", "--entry", "total(g,x)"],
        TOTAL,
        "",
        "refused: entry\n",
        Status::EntryRefused,
    ),
    (
        SHOW,
        "p(X) :- ( X = 1 ; X = 2 ).",
        "",
        "p(_1) :- lift_1(_1).\nlift_1(_1) :- =(_1,1).\nlift_1(_1) :- =(_1,2).\n",
        Status::Done,
    ),
    (
        SHOW,
        "q(X,Y) :- a(X) & a(Y). a(1). a(2).",
        "",
        "q(_1,_2) :- indep(_1,_2) => a(_1) & a(_2).\na(1).\na(2).\n",
        Status::Done,
    ),
];

#[test]
fn programs_are_shown_with_their_groups(rt: HostRuntime) -> Result<(), Fail> {
    check_all(&rt, rt.alloc(), &SHOWN)
}
