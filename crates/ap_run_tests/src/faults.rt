//! Other command lines, what fails outside, and texts that are too long.

use crate::cases::{Case, is_met};
use ap_outside::Refusal;
use ap_top::{LIMIT, Status};
use std::alloc::Global;
use std::test::Fail;

const RUN: &[&str] = &["andprolog", "run", "f.pl"];

const USAGE: &str = "usage: andprolog run FILE | show FILE | code FILE | load SEED SIZE\n";

/// A command line, the source's calls that fail, the puts that are refused, what is put, and the status.
type Fault = (
    &'static [&'static str],
    &'static [u64],
    &'static [Refusal],
    &'static str,
    Status,
);

const FAULTS: [Fault; 12] = [
    (
        &["andprolog", "run", "f.pl", "--workers", "33"],
        &[],
        &[],
        USAGE,
        Status::Usage,
    ),
    (
        &["andprolog", "walk", "f.pl"],
        &[],
        &[],
        USAGE,
        Status::Usage,
    ),
    (
        &["andprolog", "run", "-f.pl"],
        &[],
        &[],
        USAGE,
        Status::Usage,
    ),
    (
        &["andprolog", "run", ""],
        &[],
        &[],
        "fault: file\n",
        Status::FileFault,
    ),
    (&[], &[], &[], USAGE, Status::Usage),
    (
        &["andprolog", "run", "none.pl"],
        &[],
        &[],
        "fault: file\n",
        Status::FileFault,
    ),
    (
        RUN,
        &[2],
        &[],
        "X = 1\nX = 2\nno more.\nfault: source\n",
        Status::SourceFault,
    ),
    (
        &[
            "andprolog",
            "run",
            "--answers",
            "1",
            "f.pl",
            "--budget",
            "9",
        ],
        &[],
        &[],
        "X = 1\nstopped.\ntrue\nstopped.\n",
        Status::Done,
    ),
    (
        &["andprolog", "run", "f.pl", "--budget", "0"],
        &[],
        &[],
        USAGE,
        Status::Usage,
    ),
    (
        &["andprolog", "run", "f.pl", "--budget", "1000000000001"],
        &[],
        &[],
        USAGE,
        Status::Usage,
    ),
    (
        &[
            "andprolog",
            "run",
            "f.pl",
            "--answers",
            "2",
            "--answers",
            "2",
        ],
        &[],
        &[],
        USAGE,
        Status::Usage,
    ),
    (
        RUN,
        &[],
        &[Refusal { call: 2, takes: 2 }],
        "X = 1\nX ",
        Status::SinkFault,
    ),
];

#[test]
fn other_words_and_faults_have_their_status(rt: HostRuntime) -> Result<(), Fail> {
    for (words, failing, refusals, put, status) in &FAULTS {
        let case = Case {
            words,
            file: b"p(1). p(2).",
            source: &[b"?- p(X).\n?- p(", b"1).\n"],
            failing,
            refusals,
            put,
            status: *status,
        };
        assert!(rt; is_met(&rt, rt.alloc(), &case)?, "{words:?}");
    }
    Ok(())
}

/// A text, and layout behind it up to that length.
fn padded(alloc: Global, text: &[u8], len: u64) -> Result<Vec<u8>, Fail> {
    let mut all = text.to_vec(alloc)?;
    all.resize(len as usize, b' ')?;
    Ok(all)
}

/// The lengths of the file and of the source, what is put, and the status.
const LONG: [(u64, u64, &str, Status); 2] = [
    (LIMIT + 1, 9, "refused: too long\n", Status::ProgramRefused),
    (
        9,
        LIMIT + 1,
        "refused: queries too long\n",
        Status::QueriesTooLong,
    ),
];

#[test]
fn texts_past_the_limit_are_too_long(rt: HostRuntime) -> Result<(), Fail> {
    for (file_len, source_len, put, status) in &LONG {
        let file = padded(rt.alloc(), b"p(1).", *file_len)?;
        let source = padded(rt.alloc(), b"?- p(1).", *source_len)?;
        let case = Case {
            words: RUN,
            file: &file,
            source: &[source.as_slice()],
            failing: &[],
            refusals: &[],
            put,
            status: *status,
        };
        assert!(rt; is_met(&rt, rt.alloc(), &case)?, "{put}");
    }
    Ok(())
}
