//! Beginnings of a file, texts at their limits and past them, and terms and groups that are deep.

use crate::cases::{Case, is_met};
use ap_top::Status;
use std::alloc::Global;
use std::process::Abort;
use std::random::RandomSource;
use std::sync::Wait;
use std::test::Fail;
use std::thread::Threads;

/// A file's clauses, each one line, how each is shown, and how a beginning of it is refused.
static CLAUSES: [(&str, &str, &str); 4] = [
    (
        "total([],0).",
        "total([],0).\n",
        "refused: line 1: not a clause\n",
    ),
    (
        "total([E|L],S) :- deal(L,A,B), total(A,SA), total(B,SB), S is SA + SB + E.",
        "total([_1|_2],_3) :- deal(_2,_4,_5), total(_4,_6), total(_5,_7), is(_3,+(+(_6,_7),_1)).\n",
        "refused: line 2: not a clause\n",
    ),
    (
        "deal([],[],[]).",
        "deal([],[],[]).\n",
        "refused: line 3: not a clause\n",
    ),
    (
        "deal([E|L],[E|A],B) :- deal(L,B,A).",
        "deal([_1|_2],[_1|_3],_4) :- deal(_2,_4,_3).\n",
        "refused: line 4: not a clause\n",
    ),
];

/// Whether a program is shown so.
fn is_shown<R: Threads + Wait + RandomSource + Sync>(
    rt: &R,
    alloc: Global,
    file: &str,
    put: &str,
    status: Status,
) -> Result<bool, Fail> {
    let case = Case {
        words: &["andprolog", "show", "f.pl", "--annotator", "none"],
        file: file.as_bytes(),
        source: &[],
        failing: &[],
        refusals: &[],
        put,
        status,
    };
    is_met(rt, alloc, &case)
}

/// Lines, and behind them each beginning of a clause that lacks its end.
fn check_beginnings<R: Abort + Threads + Wait + RandomSource + Sync>(
    rt: &R,
    alloc: Global,
    before: &str,
    clause: &str,
    refused: &str,
) -> Result<(), Fail> {
    let mut file = String::from_str(alloc, before)?;
    for letter in clause.chars().take(clause.len().saturating_sub(1)) {
        file.push(letter)?;
        let text = file.as_str();
        assert!(rt;
            is_shown(rt, alloc, text, refused, Status::ProgramRefused)?,
            "{text}"
        );
    }
    Ok(())
}

#[test]
fn each_beginning_of_a_file_is_read_or_refused(rt: HostRuntime) -> Result<(), Fail> {
    let alloc = rt.alloc();
    let mut file = String::new(alloc);
    let mut put = String::new(alloc);
    assert!(&rt; is_shown(&rt, alloc, "", "", Status::Done)?);
    for (clause, line, refused) in &CLAUSES {
        check_beginnings(&rt, alloc, file.as_str(), clause, refused)?;
        file.push_str(clause)?;
        put.push_str(line)?;
        assert!(&rt;
            is_shown(&rt, alloc, file.as_str(), put.as_str(), Status::Done)?,
            "{clause}"
        );
        file.push_str("\n")?;
        assert!(&rt;
            is_shown(&rt, alloc, file.as_str(), put.as_str(), Status::Done)?,
            "{clause}"
        );
    }
    Ok(())
}

/// Texts, each so many times.
type Parts = &'static [(&'static str, usize)];

/// A program, queries, what is put, and the status.
type Row = (Parts, Parts, Parts, Status);

/// Its terms are as deep as it is told; `bench/hostile` tells it ten times as much.
const DEEP: &str = "d(0,z). d(N,s(X)) :- N > 0, M is N - 1, d(M,X).";

static LIMITS: [Row; 6] = [
    (
        &[],
        &[("?- X = ", 1), ("(", 1000), ("a", 1), (")", 1000), (".", 1)],
        &[("X = a\nno more.\n", 1)],
        Status::Done,
    ),
    (
        &[],
        &[("?- X = ", 1), ("(", 1001), ("a", 1), (")", 1001), (".", 1)],
        &[("refused: line 1: too deep\n", 1)],
        Status::QueryRefused,
    ),
    (&[("a.\n", 65_535)], &[], &[], Status::Done),
    (
        &[("a.\n", 65_536)],
        &[],
        &[("refused: line 65536: too large clauses\n", 1)],
        Status::ProgramRefused,
    ),
    (
        &[(DEEP, 1)],
        &[("?- d(10000,_X), d(10000,_Y), _X == _Y.", 1)],
        &[("true\nno more.\n", 1)],
        Status::Done,
    ),
    (
        &[(DEEP, 1)],
        &[("?- d(10000,X).", 1)],
        &[
            ("X = ", 1),
            ("s(", 10_000),
            ("z", 1),
            (")", 10_000),
            ("\nno more.\n", 1),
        ],
        Status::Done,
    ),
];

/// Each frame but the last has the next one in its last goal; `bench/hostile` has ten times as many.
static FRAMES: [Row; 1] = [(
    &[("w(0). w(N) :- N > 0, M is N - 1, a & w(M). a.", 1)],
    &[("?- w(1000).", 1)],
    &[("true\nno more.\n", 1)],
    Status::Done,
)];

/// The text of some parts.
fn text_of(alloc: Global, parts: &[(&str, usize)]) -> Result<String, Fail> {
    let mut text = String::new(alloc);
    for (part, times) in parts {
        for _ in 0..*times {
            text.push_str(part)?;
        }
    }
    Ok(text)
}

/// Each row, on so many workers.
fn check_rows<R: Abort + Threads + Wait + RandomSource + Sync>(
    rt: &R,
    alloc: Global,
    rows: &[Row],
    workers: &str,
) -> Result<(), Fail> {
    for (file, queries, put, status) in rows {
        let (file, queries) = (text_of(alloc, file)?, text_of(alloc, queries)?);
        let put = text_of(alloc, put)?;
        let case = Case {
            words: &["andprolog", "run", "f.pl", "--workers", workers],
            file: file.as_bytes(),
            source: &[queries.as_bytes()],
            failing: &[],
            refusals: &[],
            put: put.as_str(),
            status: *status,
        };
        assert!(rt; is_met(rt, alloc, &case)?, "{workers} workers");
    }
    Ok(())
}

#[test]
fn limits_are_exact_and_depth_has_none(rt: HostRuntime) -> Result<(), Fail> {
    check_rows(&rt, rt.alloc(), &LIMITS, "1")
}

#[test]
fn frames_within_frames_end_on_all_workers(rt: HostRuntime) -> Result<(), Fail> {
    for workers in ["1", "2", "32"] {
        check_rows(&rt, rt.alloc(), &FRAMES, workers)?;
    }
    Ok(())
}
