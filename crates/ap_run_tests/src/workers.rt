//! Goals on several workers: they have the answers of one worker, in order, and some are under way at one time.

use crate::cases::{Case, Command, are_lines, is_met};
use crate::groups::GROUPS;
use crate::meeting::{Behind, Meeting};
use ap_outside::{MemFiles, MemSink, MemSource, OpenGate};
use ap_top::{Status, run};
use std::alloc::Global;
use std::process::Abort;
use std::random::RandomSource;
use std::sync::Wait;
use std::test::Fail;
use std::thread::Threads;

/// Whether each command line comes to the same with so many workers.
fn check_on<R: Abort + Threads + Wait + RandomSource + Sync>(
    rt: &R,
    alloc: Global,
    commands: &[Command],
    workers: &str,
) -> Result<(), Fail> {
    for (words, file, queries, put, status) in commands {
        let mut all = Vec::from_slice(alloc, words)?;
        all.push("--workers")?;
        all.push(workers)?;
        let case = Case {
            words: &all,
            file: file.as_bytes(),
            source: &[queries.as_bytes()],
            failing: &[],
            refusals: &[],
            put,
            status: *status,
        };
        assert!(rt;
            is_met(rt, alloc, &case)?,
            "{workers} workers: {file} {queries}"
        );
    }
    Ok(())
}

#[test]
fn workers_give_the_answers_of_one(rt: HostRuntime) -> Result<(), Fail> {
    for workers in ["2", "4", "32"] {
        check_on(&rt, rt.alloc(), &GROUPS, workers)?;
    }
    Ok(())
}

/// Whether the endless goal on the left, beside one that fails, spends the budget, or is stopped before it has.
fn is_spent_or_stopped<R: Threads + Wait + RandomSource + Sync>(
    rt: &R,
    alloc: Global,
    workers: &str,
) -> Result<bool, Fail> {
    let file = "r(X) :- l & f, X = 0. r(1). l :- l. f :- fail.";
    let mut files = MemFiles::new(alloc, &[("f.pl", file.as_bytes())])?;
    let mut queries = MemSource::new(alloc, &["?- r(X).".as_bytes()], &[])?;
    let mut out = MemSink::new(alloc, &[])?;
    let words = [
        "andprolog",
        "run",
        "f.pl",
        "--budget",
        "100",
        "--workers",
        workers,
    ];
    let status = run(
        rt,
        alloc,
        &words,
        &mut files,
        &mut queries,
        &mut out,
        &OpenGate,
    );
    Ok(match status {
        Status::BudgetSpent => are_lines(out.pieces(), "budget spent.\n"),
        Status::Done => are_lines(out.pieces(), "X = 1\nno more.\n"),
        _ => false,
    })
}

#[test]
fn a_goal_that_fails_may_stop_an_endless_one_on_its_left(rt: HostRuntime) -> Result<(), Fail> {
    for workers in ["2", "4", "32"] {
        assert!(&rt;
            is_spent_or_stopped(&rt, rt.alloc(), workers)?,
            "{workers} workers"
        );
    }
    Ok(())
}

/// Whether a goal that fails stops an endless one within the goal on its left. The goal l waits at the gate until f has failed, and
/// would then spend the budget.
fn is_stopped_within<R: Threads + Wait + RandomSource + Sync>(
    rt: &R,
    alloc: Global,
    workers: &str,
) -> Result<bool, Fail> {
    let file = "r(X) :- a & v & f, X = 0. r(1). a :- l & u. l :- l. u. v. f :- fail.";
    let mut files = MemFiles::new(alloc, &[("f.pl", file.as_bytes())])?;
    let mut queries = MemSource::new(alloc, &["?- r(X).".as_bytes()], &[])?;
    let mut out = MemSink::new(alloc, &[])?;
    let gate = Behind::new();
    let words = [
        "andprolog",
        "run",
        "f.pl",
        "--budget",
        "100000",
        "--workers",
        workers,
    ];
    let status = run(rt, alloc, &words, &mut files, &mut queries, &mut out, &gate);
    Ok(status == Status::Done && gate.is_over() && are_lines(out.pieces(), "X = 1\nno more.\n"))
}

#[test]
fn a_goal_that_fails_stops_an_endless_one_within_its_neighbour(
    rt: HostRuntime,
) -> Result<(), Fail> {
    for workers in ["2", "4", "32"] {
        assert!(&rt;
            is_stopped_within(&rt, rt.alloc(), workers)?,
            "{workers} workers"
        );
    }
    Ok(())
}

/// Whether the goals of a query, whose one answer has no variable, meet at the gate.
fn meet<R: Threads + Wait + RandomSource + Sync>(
    rt: &R,
    alloc: Global,
    file: &str,
    query: &str,
    workers: &str,
    gate: &Meeting,
) -> Result<bool, Fail> {
    let mut files = MemFiles::new(alloc, &[("f.pl", file.as_bytes())])?;
    let mut queries = MemSource::new(alloc, &[query.as_bytes()], &[])?;
    let mut out = MemSink::new(alloc, &[])?;
    let words = ["andprolog", "run", "f.pl", "--workers", workers];
    let status = run(rt, alloc, &words, &mut files, &mut queries, &mut out, gate);
    Ok(status == Status::Done && are_lines(out.pieces(), "true\nno more.\n") && gate.is_met())
}

// Each goal waits at the gate until both have begun.
#[test]
fn two_goals_are_under_way_at_one_time(rt: HostRuntime) -> Result<(), Fail> {
    for _ in 0..100 {
        let gate = Meeting::new(2, 0);
        assert!(&rt; meet(&rt, rt.alloc(), "g :- a & b. a. b.", "?- g.", "2", &gate)?);
    }
    Ok(())
}

// The goal k runs a group of its own: a, b and c wait until all four have begun.
#[test]
fn goals_of_a_goal_are_under_way_beside_its_neighbour(rt: HostRuntime) -> Result<(), Fail> {
    for _ in 0..100 {
        let gate = Meeting::new(4, 2);
        let file = "h :- a & k. k :- b & c. a. b. c.";
        assert!(&rt; meet(&rt, rt.alloc(), file, "?- h.", "3", &gate)?);
    }
    Ok(())
}
