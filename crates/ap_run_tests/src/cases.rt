//! Command lines, what they find outside, and what they must put there.

use ap_outside::{MemFiles, MemSink, MemSource, OpenGate, Refusal};
use ap_top::{Status, run};
use std::alloc::Global;
use std::process::Abort;
use std::random::RandomSource;
use std::sync::Wait;
use std::test::Fail;
use std::thread::Threads;

/// A command line with what it finds outside, and what it answers.
#[derive(Drop)]
pub(crate) struct Case<'a> {
    pub words: &'a [&'a str],
    /// The bytes of `f.pl`.
    pub file: &'a [u8],
    pub source: &'a [&'a [u8]],
    /// The numbers of the source's calls that fail.
    pub failing: &'a [u64],
    pub refusals: &'a [Refusal],
    /// The lines that are put, each by one put; the last one may be cut short.
    pub put: &'a str,
    pub status: Status,
}

pub(crate) fn are_lines(pieces: &[Vec<u8>], text: &str) -> bool {
    let mut lines = text.split_inclusive('\n');
    for piece in pieces {
        match lines.next() {
            Some(line) if line.as_bytes() == piece.as_slice() => {}
            _ => return false,
        }
    }
    lines.next().is_none()
}

pub(crate) fn is_met<R: Threads + Wait + RandomSource + Sync>(
    rt: &R,
    alloc: Global,
    case: &Case,
) -> Result<bool, Fail> {
    let mut files = MemFiles::new(alloc, &[("f.pl", case.file)])?;
    let mut queries = MemSource::new(alloc, case.source, case.failing)?;
    let mut out = MemSink::new(alloc, case.refusals)?;
    let status = run(
        rt,
        alloc,
        case.words,
        &mut files,
        &mut queries,
        &mut out,
        &OpenGate,
    );
    Ok(status == case.status && are_lines(out.pieces(), case.put))
}

/// A command line, the bytes of `f.pl`, queries, the lines that are put, and the status.
pub(crate) type Command = (
    &'static [&'static str],
    &'static str,
    &'static str,
    &'static str,
    Status,
);

pub(crate) fn check_all<R: Abort + Threads + Wait + RandomSource + Sync>(
    rt: &R,
    alloc: Global,
    commands: &[Command],
) -> Result<(), Fail> {
    for (words, file, queries, put, status) in commands {
        let case = Case {
            words,
            file: file.as_bytes(),
            source: &[queries.as_bytes()],
            failing: &[],
            refusals: &[],
            put,
            status: *status,
        };
        assert!(rt; is_met(rt, alloc, &case)?, "{file} {queries}");
    }
    Ok(())
}
