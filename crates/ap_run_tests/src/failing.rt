//! Each call of the outside fails in turn: what was put before is a beginning of what is put where that call doesn't fail.

use crate::cases::{Case, is_met};
use ap_outside::{MemFiles, MemSink, MemSource, OpenGate, Refusal};
use ap_top::{Status, run};
use std::alloc::Global;
use std::process::Abort;
use std::random::RandomSource;
use std::sync::Wait;
use std::test::Fail;
use std::thread::Threads;

/// The bytes of `f.pl`, what each take of the source gives with the block that is put for it, and the status.
type Row = (
    &'static str,
    &'static [(&'static str, &'static str)],
    Status,
);

static ROWS: [Row; 2] = [
    (
        "q(X,Y) :- a(X) & a(Y). a(1). a(2).",
        &[(
            "?- q(X,Y).\n",
            "X = 1, Y = 1\nX = 1, Y = 2\nX = 2, Y = 1\nX = 2, Y = 2\nno more.\n",
        )],
        Status::Done,
    ),
    (
        "p(1). p(2).",
        &[
            ("?- p(1).\n", "true\nno more.\n"),
            ("?- p(.\n", "refused: line 2: not a clause\n"),
            ("?- p(2).\n", "true\nno more.\n"),
        ],
        Status::QueryRefused,
    ),
];

const WORKERS: [&str; 3] = ["1", "2", "32"];

/// How many bytes of its line a put takes before it fails.
const TAKES: [usize; 3] = [0, 1, 1000];

/// Whether a command line puts these bytes, in whatever pieces, and has this status.
fn puts_bytes<R: Threads + Wait + RandomSource + Sync>(
    rt: &R,
    alloc: Global,
    case: &Case,
) -> Result<bool, Fail> {
    let mut files = MemFiles::new(alloc, &[("f.pl", case.file)])?;
    let mut queries = MemSource::new(alloc, case.source, case.failing)?;
    let mut out = MemSink::new(alloc, case.refusals)?;
    let status = run(
        rt,
        alloc,
        case.words,
        &mut files,
        &mut queries,
        &mut out,
        &OpenGate,
    );
    let mut put = Vec::new(alloc);
    for piece in out.pieces() {
        put.extend_from_slice(piece)?;
    }
    Ok(status == case.status && put.as_slice() == case.put.as_bytes())
}

/// A put fails after each number of bytes of its line.
fn check_put<R: Abort + Threads + Wait + RandomSource + Sync>(
    rt: &R,
    alloc: Global,
    case: &Case,
    call: u64,
    before: &str,
    line: &str,
) -> Result<(), Fail> {
    for takes in TAKES {
        let mut put = String::from_str(alloc, before)?;
        for letter in line.chars().take(takes) {
            put.push(letter)?;
        }
        let refused = Case {
            words: case.words,
            file: case.file,
            source: case.source,
            failing: case.failing,
            refusals: &[Refusal { call, takes }],
            put: put.as_str(),
            status: Status::SinkFault,
        };
        assert!(rt;
            puts_bytes(rt, alloc, &refused)?,
            "put {call} takes {takes}"
        );
    }
    Ok(())
}

/// A command line comes to what it must, and each of its puts fails in turn.
fn check_puts<R: Abort + Threads + Wait + RandomSource + Sync>(
    rt: &R,
    alloc: Global,
    case: &Case,
) -> Result<(), Fail> {
    let put = case.put;
    assert!(rt; is_met(rt, alloc, case)?, "{put}");
    let mut before = String::new(alloc);
    let mut call = 0u64;
    for line in put.split_inclusive('\n') {
        call = call.saturating_add(1);
        check_put(rt, alloc, case, call, before.as_str(), line)?;
        before.push_str(line)?;
    }
    Ok(())
}

/// The blocks of the first takes of the source, and then this line.
fn blocks(alloc: Global, takes: &[(&str, &str)], count: usize, last: &str) -> Result<String, Fail> {
    let mut put = String::new(alloc);
    for (_, block) in takes.iter().take(count) {
        put.push_str(block)?;
    }
    put.push_str(last)?;
    Ok(put)
}

/// A row whose source fails at these calls, and each put of it.
fn check_source<R: Abort + Threads + Wait + RandomSource + Sync>(
    rt: &R,
    alloc: Global,
    row: &Row,
    workers: &str,
    failing: &[u64],
    put: &str,
    status: Status,
) -> Result<(), Fail> {
    let (file, takes, _) = row;
    let mut source = Vec::new(alloc);
    for (piece, _) in *takes {
        source.push(piece.as_bytes())?;
    }
    let case = Case {
        words: &["andprolog", "run", "f.pl", "--workers", workers],
        file: file.as_bytes(),
        source: &source,
        failing,
        refusals: &[],
        put,
        status,
    };
    check_puts(rt, alloc, &case)
}

/// Each take of the source fails in turn, also the one that would tell its end.
fn check_takes<R: Abort + Threads + Wait + RandomSource + Sync>(
    rt: &R,
    alloc: Global,
    row: &Row,
    workers: &str,
) -> Result<(), Fail> {
    let (_, takes, _) = row;
    for count in 0..=takes.len() {
        let put = blocks(alloc, takes, count, "fault: source\n")?;
        let call = (count as u64).saturating_add(1);
        check_source(
            rt,
            alloc,
            row,
            workers,
            &[call],
            put.as_str(),
            Status::SourceFault,
        )?;
    }
    Ok(())
}

/// Nothing fails, and then each take of the source, and of each of these runs each put.
fn check_row<R: Abort + Threads + Wait + RandomSource + Sync>(
    rt: &R,
    alloc: Global,
    row: &Row,
) -> Result<(), Fail> {
    let (_, takes, status) = row;
    let whole = blocks(alloc, takes, takes.len(), "")?;
    for workers in WORKERS {
        check_source(rt, alloc, row, workers, &[], whole.as_str(), *status)?;
        check_takes(rt, alloc, row, workers)?;
    }
    Ok(())
}

#[test]
fn what_was_put_before_a_fault_begins_the_output(rt: HostRuntime) -> Result<(), Fail> {
    for row in &ROWS {
        check_row(&rt, rt.alloc(), row)?;
    }
    Ok(())
}

#[test]
fn a_file_that_fails_puts_its_fault(rt: HostRuntime) -> Result<(), Fail> {
    let case = Case {
        words: &["andprolog", "run", "none.pl"],
        file: b"p(1). p(2).",
        source: &[b"?- p(X).\n"],
        failing: &[1],
        refusals: &[],
        put: "fault: file\n",
        status: Status::FileFault,
    };
    check_puts(&rt, rt.alloc(), &case)
}
