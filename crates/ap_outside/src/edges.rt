// The outside of the system. It tells of contents what its reader tells, and counts its faults.
ghost use Rattle.std.specs.Prelude.{◌≡◌, ◌≢◌, ◌↔◌, ◌<◌, ◌≤◌, [], length, None, IfSome, IfErr, OnOk, OnErr, IsErrOf, IsOkUnless};
ghost use Rattle.std.specs.Io.{ReadsAtMost, WritesAtMost};
ghost use Rattle.std.specs.Io.KnownBytes.{Appends, ReadConsumes, WriteAppends};
ghost use Rattle.std.specs.IoError.{error_kind};
ghost use Rattle.ap_outside.specs.Faults.{Rises};
ghost use Rattle.ap_outside.specs.Pieces.{IsBeginningOf, Puts, WritesFront};

use crate::{Failed, FileErr, Files, Gate, Got, PutErr, Sink, Source, Spot};
use std::io::{ErrorKind, Read, Write};
use std::{fs, io, rt};

/// Files of the system, by their paths.
#[derive(Drop)]
pub struct StdFiles<'a, R> {
    rt: &'a R,
    faults: u64,
}

impl<'a, R: rt::Files> StdFiles<'a, R> {
    /// The files that `rt` reaches.
    pub fn new(rt: &'a R) -> Self
        ensures { ⟦<StdFiles<'a, R> as Files>⟧.faults result ≡ 0 }
    {
        StdFiles { rt, faults: 0 }
    }
}

impl<R: rt::Files> Files for StdFiles<'_, R> {
    ghost entries = { λ _. None };

    ghost faults = { λ s. s.faults };

    fn read(&mut self, name: &str, into: &mut Vec<u8>, limit: u64) -> Result<Got, FileErr> {
        into.clear();
        let read = match fs::open(self.rt, name) {
            Ok(file) => read_within(file, into, limit),
            Err(error) => Err(file_err(&error)),
        };
        if read == Err(FileErr::Failed) {
            self.faults = self.faults.saturating_add(1);
        }
        read
    }
}

// Tells why a file was not read.
fn file_err(error: &io::Error) -> FileErr
    ensures { result ≡ FileErr.NoMemory ↔ (error_kind error.now ≡ ErrorKind.OutOfMemory) }
{
    if error.kind() == ErrorKind::OutOfMemory {
        FileErr::NoMemory
    } else {
        FileErr::Failed
    }
}

// Reads all that a reader has, where that is at most `limit` bytes.
fn read_within<R: Read + Drop>(reader: R, into: &mut Vec<u8>, limit: u64) -> Result<Got, FileErr>
    ensures whole { result ≡ Ok Got.Whole → IfSome (R.remaining reader) (λ bytes. into.new.items ≡ bytes) }
    ensures fits { result ≡ Ok Got.Whole → length into.new.items ≤ limit }
    ensures too_long { result ≡ Ok Got.TooLong → IfSome (R.remaining reader) (λ bytes. limit < length bytes) }
    ensures emptied { result ≡ Ok Got.TooLong → into.new.items ≡ [] }
    ensures emptied_err { OnErr result (into.new.items ≡ []) }
{
    into.clear();
    match reader.take(limit.saturating_add(1)).read_to_end(into) {
        Ok(_) if into.len() as u64 <= limit => Ok(Got::Whole),
        Ok(_) => {
            into.clear();
            Ok(Got::TooLong)
        }
        Err(error) => {
            into.clear();
            Err(file_err(&error))
        }
    }
}

/// A source over a reader, as standard input.
#[derive(Drop)]
pub struct StdSource<R> {
    inner: R,
    faults: u64,
}

impl<R: Read> StdSource<R> {
    /// The bytes that `inner` reads.
    pub fn new(inner: R) -> Self
        ensures left { ⟦<StdSource<R> as Source>⟧.left result ≡ R.remaining inner }
        ensures faults { ⟦<StdSource<R> as Source>⟧.faults result ≡ 0 }
    {
        StdSource { inner, faults: 0 }
    }
}

// Reads once, and again where a signal interrupts it.
fn read_uninterrupted<R: Read>(reader: &mut R, buf: &mut [u8]) -> io::Result<usize>
    ensures bound { ReadsAtMost result buf.new }
    ensures bytes { ReadConsumes (R.remaining reader.old) (R.remaining reader.new) result buf.new }
    ensures retried { IfErr result (λ error. error_kind error ≢ ErrorKind.Interrupted) }
{
    for _turn in 0..u64::MAX {
        match reader.read(buf) {
            Ok(count) => return Ok(count),
            Err(error) if error.kind() == ErrorKind::Interrupted => {}
            Err(error) => return Err(error),
        }
    }
    Err(ErrorKind::TimedOut.into())
}

impl<R: Read> Source for StdSource<R> {
    ghost left = { λ s. R.remaining s.inner };

    ghost faults = { λ s. s.faults };

    fn take(&mut self, buf: &mut [u8]) -> Result<usize, Failed> {
        match read_uninterrupted(&mut self.inner, buf) {
            Ok(count) => Ok(count),
            Err(_) => {
                self.faults = self.faults.saturating_add(1);
                Err(Failed)
            }
        }
    }
}

/// A sink over a writer, as standard output. Each piece is written before its put returns.
#[derive(Drop)]
pub struct StdSink<W> {
    inner: W,
    faults: u64,
}

impl<W: Write + Send> StdSink<W> {
    /// A sink that writes to `inner`.
    pub fn new(inner: W) -> Self
        ensures inner { result.inner ≡ inner }
        ensures faults { ⟦<StdSink<W> as Sink>⟧.faults result ≡ 0 }
    {
        StdSink { inner, faults: 0 }
    }
}

// Writes once, and again where a signal interrupts it.
fn write_uninterrupted<W: Write>(writer: &mut W, buf: &[u8]) -> io::Result<usize>
    ensures bound { WritesAtMost result buf.now }
    ensures bytes { WriteAppends (W.contents writer.old) (W.contents writer.new) result buf.now }
    ensures retried { IfErr result (λ error. error_kind error ≢ ErrorKind.Interrupted) }
{
    for _turn in 0..u64::MAX {
        match writer.write(buf) {
            Ok(count) => return Ok(count),
            Err(error) if error.kind() == ErrorKind::Interrupted => {}
            Err(error) => return Err(error),
        }
    }
    Err(ErrorKind::TimedOut.into())
}

// Writes a piece whole, or a beginning of it.
fn write_whole<W: Write>(writer: &mut W, piece: &[u8]) -> io::Result<()>
    ensures whole { OnOk result (Appends (W.contents writer.old) (W.contents writer.new) piece.now) }
    ensures front { OnErr result (WritesFront (W.contents writer.old) (W.contents writer.new) piece.now) }
{
    let mut written = 0;
    while written < piece.len() {
        let count = write_uninterrupted(writer, &piece[written..])?;
        if count == 0 {
            return Err(ErrorKind::WriteZero.into());
        }
        written += count;
    }
    Ok(())
}

impl<W: Write + Send> Sink for StdSink<W> {
    ghost pieces = { λ _. None };

    ghost faults = { λ s. s.faults };

    fn put(&mut self, piece: &[u8]) -> Result<(), PutErr>
        // It tells no pieces, but its writer may tell the bytes.
        ensures written { OnOk result (Appends (W.contents self.old.inner) (W.contents self.new.inner) piece.now) }
        ensures failed { IsErrOf result PutErr.Failed → WritesFront (W.contents self.old.inner) (W.contents self.new.inner) piece.now }
        ensures pieces { IsErrOf result PutErr.Failed → Puts None None (IsBeginningOf piece.now) }
        ensures memory { IsOkUnless result PutErr.Failed }
        ensures cause { IsErrOf result PutErr.Failed → Rises self.old.faults self.new.faults }
        ensures counted { OnOk result (self.new.faults ≡ self.old.faults) }
    {
        match write_whole(&mut self.inner, piece) {
            Ok(()) => Ok(()),
            Err(_) => {
                self.faults = self.faults.saturating_add(1);
                Err(PutErr::Failed)
            }
        }
    }
}

/// A gate that does nothing.
#[derive(Clone, Copy, Debug, PartialEq, Eq)]
pub struct OpenGate;

impl Gate for OpenGate {
    fn pass(&self, _spot: Spot) {}
}
