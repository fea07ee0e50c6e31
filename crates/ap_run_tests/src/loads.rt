//! Generated programs, other ways to write command lines, and what help and version put.

use crate::cases::{Command, check_all};
use ap_top::Status;
use std::test::Fail;

const LOADS: [Command; 8] = [
    (
        &["andprolog", "load", "1", "3"],
        "",
        "",
        "seed 1 size 3\nanswers 1 bytes 38 sum 1922\nno more.\n",
        Status::Done,
    ),
    (
        &["andprolog", "load", "1", "1"],
        "",
        "",
        "seed 1 size 1\nanswers 1 bytes 29 sum 1475\nno more.\n",
        Status::Done,
    ),
    (
        &["andprolog", "load", "--workers", "32", "1", "3"],
        "",
        "",
        "seed 1 size 3\nanswers 1 bytes 38 sum 1922\nno more.\n",
        Status::Done,
    ),
    (
        &["andprolog", "run", "f.pl", "--workers=2", "--budget=2"],
        "p(1). p(2).",
        "?- p(X).",
        "X = 1\nX = 2\nno more.\n",
        Status::Done,
    ),
    (
        &["andprolog", "run", "--", "f.pl"],
        "p(1). p(2).",
        "?- p(2).",
        "true\nno more.\n",
        Status::Done,
    ),
    (
        &["andprolog", "show", "f.pl", "--annotator=none"],
        "p(X) :- q(X), r(X).",
        "",
        "p(_1) :- q(_1), r(_1).\n",
        Status::Done,
    ),
    (
        &["andprolog", "show", "f.pl", "--entry="],
        "p(1).",
        "",
        "refused: entry\n",
        Status::EntryRefused,
    ),
    (
        &["andprolog", "--version"],
        "",
        "",
        "andprolog 0.1.0\n",
        Status::Done,
    ),
];

#[test]
fn loads_and_other_forms_of_options(rt: HostRuntime) -> Result<(), Fail> {
    check_all(&rt, rt.alloc(), &LOADS)
}

#[test]
fn a_large_load_is_the_same_on_four_workers(rt: HostRuntime) -> Result<(), Fail> {
    const LARGE: &str = "seed 0 size 10000\nanswers 1 bytes 38988 sum 1966731\nno more.\n";
    const WORDS: [&[&str]; 2] = [
        &["andprolog", "load", "0", "10000"],
        &["andprolog", "load", "0", "10000", "--workers=4"],
    ];
    for words in &WORDS {
        check_all(&rt, rt.alloc(), &[(*words, "", "", LARGE, Status::Done)])?;
    }
    Ok(())
}

const USAGE: &str = "usage: andprolog run FILE | show FILE | code FILE | load SEED SIZE\n";

/// Words behind the program's name that are no command line.
const OTHERS: [&[&str]; 10] = [
    &["andprolog", "run", "f.pl", "--workers", "33"],
    &["andprolog", "run", "f.pl", "--workers=33"],
    &["andprolog", "run", "f.pl", "--workers", "0"],
    &["andprolog", "run", "f.pl", "--work", "2"],
    &["andprolog", "load", "1"],
    &["andprolog", "load", "1", "0"],
    &["andprolog", "load", "4294967296", "3"],
    &["andprolog", "load", "1", "3", "--workers", "33"],
    &["andprolog", "show", "f.pl", "--annotator=Mel"],
    &["andprolog", "help"],
];

#[test]
fn other_words_put_the_usage(rt: HostRuntime) -> Result<(), Fail> {
    for words in &OTHERS {
        let row = (*words, "p(1).", "?- p(X).", USAGE, Status::Usage);
        check_all(&rt, rt.alloc(), &[row])?;
    }
    Ok(())
}
