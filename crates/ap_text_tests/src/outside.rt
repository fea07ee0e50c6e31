//! What no clause says: that calls succeed where memory is ample, and that the edges reach the system.

use ap_outside::{
    FileErr, Files, Gate, Got, Halt, MemFiles, MemSink, MemSource, OpenGate, PutErr, Refusal, Sink,
    Source, Spot, StdFiles, StdSink, StdSource, SteadySink, put_line, put_lines,
};
use std::alloc::Global;
use std::io::Read;
use std::test::Fail;
use std::{fs, io};

/// Whether a read answers so, and leaves that content.
fn is_read<F: Files>(
    alloc: Global,
    files: &mut F,
    name: &str,
    limit: u64,
    wanted: Result<Got, FileErr>,
    content: &str,
) -> Result<bool, Fail> {
    let mut into = b"old".to_vec(alloc)?;
    let found = files.read(name, &mut into, limit);
    Ok(found == wanted && into.as_slice() == content.as_bytes())
}

/// A file's name, a limit, what reading it answers, and what it leaves.
type Reading = (&'static str, u64, Result<Got, FileErr>, &'static str);

static IN_MEMORY: [Reading; 4] = [
    ("f.pl", 5, Ok(Got::Whole), "p(1)."),
    ("f.pl", 4, Ok(Got::TooLong), ""),
    ("none.pl", 5, Err(FileErr::Failed), ""),
    ("", 0, Ok(Got::Whole), ""),
];

static OF_THE_SYSTEM: [Reading; 4] = [
    ("f.pl", 5, Ok(Got::Whole), "p(1)."),
    ("f.pl", 4, Ok(Got::TooLong), ""),
    ("none.pl", 5, Err(FileErr::Failed), ""),
    (".", 5, Err(FileErr::Failed), ""),
];

#[test]
fn files_in_memory_are_read(rt: HostRuntime) -> Result<(), Fail> {
    let alloc = rt.alloc();
    let mut files = MemFiles::new(alloc, &[("f.pl", b"p(1)."), ("f.pl", b"q."), ("", b"")])?;
    for (name, limit, wanted, content) in &IN_MEMORY {
        assert!(rt;
            is_read(alloc, &mut files, name, *limit, *wanted, content)?,
            "{name}"
        );
    }
    Ok(())
}

#[test]
fn files_of_the_system_are_read(rt: HostRuntime) -> Result<(), Fail> {
    let alloc = rt.alloc();
    fs::write(&rt, "f.pl", b"p(1).")?;
    let mut files = StdFiles::new(&rt);
    for (name, limit, wanted, content) in &OF_THE_SYSTEM {
        assert!(rt;
            is_read(alloc, &mut files, name, *limit, *wanted, content)?,
            "{name}"
        );
    }
    fs::remove_file(&rt, "f.pl")?;
    Ok(())
}

/// Whether a call gives these bytes, or fails where there are none to give.
fn is_taken<S: Source>(source: &mut S, wanted: Option<&str>) -> bool {
    let mut buf = [0; 3];
    match (source.take(&mut buf), wanted) {
        (Ok(n), Some(bytes)) => buf.get(..n) == Some(bytes.as_bytes()),
        (Err(_), None) => true,
        _ => false,
    }
}

#[test]
fn a_source_in_memory_answers_as_it_was_told(rt: HostRuntime) -> Result<(), Fail> {
    let mut source = MemSource::new(rt.alloc(), &[b"abcd", b"", b"ef"], &[2])?;
    for wanted in [Some("abc"), None, Some("d"), Some("ef"), Some("")] {
        assert!(rt; is_taken(&mut source, wanted));
    }
    Ok(())
}

#[test]
fn a_reader_is_a_source(rt: HostRuntime) -> Result<(), Fail> {
    let mut source = StdSource::new(b"abcd".as_slice());
    for wanted in [Some("abc"), Some("d"), Some("")] {
        assert!(rt; is_taken(&mut source, wanted));
    }
    Ok(())
}

/// A reader that a signal interrupts before each read, and that fails at its end.
#[derive(Drop)]
struct Interrupted {
    bytes: &'static [u8],
    is_next: bool,
}

impl Read for Interrupted {
    fn read(&mut self, buf: &mut [u8]) -> io::Result<usize> {
        self.is_next = !self.is_next;
        if self.is_next {
            return Err(io::ErrorKind::Interrupted.into());
        }
        if self.bytes.is_empty() {
            return Err(io::ErrorKind::BrokenPipe.into());
        }
        self.bytes.read(buf)
    }
}

#[test]
fn an_interrupted_read_is_tried_again(rt: HostRuntime) -> Result<(), Fail> {
    let mut source = StdSource::new(Interrupted {
        bytes: b"abcd",
        is_next: false,
    });
    for wanted in [Some("abc"), Some("d"), None] {
        assert!(rt; is_taken(&mut source, wanted));
    }
    Ok(())
}

pub(crate) fn has_pieces(pieces: &[Vec<u8>], wanted: &[&str]) -> bool {
    for (piece, want) in pieces.iter().zip(wanted) {
        if piece.as_slice() != want.as_bytes() {
            return false;
        }
    }
    pieces.len() == wanted.len()
}

/// Whether a sink that refuses its second call answers so, and what it has is put as it is into another one.
fn is_put(alloc: Global) -> Result<bool, Fail> {
    let mut sink = MemSink::new(alloc, &[Refusal { call: 2, takes: 2 }])?;
    let is_as_told = sink.put(b"one") == Ok(())
        && sink.put(b"two") == Err(PutErr::Failed)
        && sink.put(b"three") == Ok(());
    let mut steady = SteadySink::new(alloc);
    let all_put = put_lines(sink.pieces(), &mut steady) == Ok(());
    let wanted = ["one", "tw", "three"];
    Ok(
        is_as_told
            && all_put
            && has_pieces(sink.pieces(), &wanted)
            && has_pieces(steady.pieces(), &wanted),
    )
}

#[test]
fn a_sink_in_memory_answers_as_it_was_told(rt: HostRuntime) -> Result<(), Fail> {
    assert!(rt; is_put(rt.alloc())?);
    Ok(())
}

#[test]
fn a_writer_is_a_sink(rt: HostRuntime) -> Result<(), Fail> {
    let mut bytes = [0; 4];
    let mut sink = StdSink::new(bytes.as_mut_slice());
    assert!(rt; put_line(b"abc", &mut sink) == Ok(()));
    assert!(rt; put_line(b"de", &mut sink) == Err(Halt::Sink));
    assert!(rt; bytes == *b"abcd");
    Ok(())
}

#[test]
fn an_open_gate_lets_all_pass(rt: HostRuntime) {
    for spot in [Spot::Began { place: 1 }, Spot::Finished { place: 1 }] {
        OpenGate.pass(spot);
    }
}
