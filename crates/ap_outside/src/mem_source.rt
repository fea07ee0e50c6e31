// Sources in memory.
ghost use Rattle.std.specs.Prelude.{◌≡◌, ◌+◌, ◌-◌, ◌<◌, ◌≤◌, ◌==◌, min, length, drop, map, flat_map, Some, IfOk, OnOk, OnErr, is_err};
ghost use Rattle.std.specs.List.{list_any};
ghost use Rattle.std.specs.Io.{ReadsAtMost};
ghost use Rattle.std.specs.Io.KnownBytes.{ReadConsumes};
ghost use Rattle.ap_outside.specs.Calls.{next_call};
ghost use Rattle.ap_outside.specs.Cuts.{end_behind, ends_from};
ghost use Rattle.ap_outside.specs.Faults.{Rises};

use crate::{Failed, Source};
use std::alloc::{AllocError, Global};

/// A source over bytes that gives them piece by piece and never fails.
#[derive(Drop)]
pub struct SteadySource {
    bytes: Vec<u8>,
    // the ends of the pieces, rising
    cuts: Vec<usize>,
    at: usize,
    ghost within: { at ≤ length bytes.items },
}

impl SteadySource {
    /// A source of these pieces, joined. A take gives at most what is left of one of them.
    pub fn new(alloc: Global, pieces: &[&[u8]]) -> Result<SteadySource, AllocError>
        ensures left { IfOk result (λ made. ⟦<SteadySource as Source>⟧.left made ≡ Some (flat_map (λ piece. piece.now) pieces.now)) }
        ensures cuts { IfOk result (λ made. made.cuts.items ≡ ends_from 0 (map (λ piece. piece.now) pieces.now)) }
        ensures at { IfOk result (λ made. made.at ≡ 0) }
    {
        let mut bytes = Vec::new(alloc);
        let mut cuts = Vec::new(alloc);
        for piece in pieces {
            bytes.extend_from_slice(piece)?;
            cuts.push(bytes.len())?;
        }
        Ok(SteadySource { bytes, cuts, at: 0 })
    }
}

// The end of the piece that the byte at `at` is of, or `whole`.
fn end_behind(cuts: &[usize], at: usize, whole: usize) -> usize
    requires { at ≤ whole }
    ensures end { result ≡ end_behind cuts.now at whole }
    ensures from { at ≤ result }
    ensures to { result ≤ whole }
    ensures further { at < whole → at < result }
{
    for cut in cuts {
        if at < *cut {
            return (*cut).min(whole);
        }
    }
    whole
}

impl Source for SteadySource {
    ghost left = { λ s. Some (drop s.at s.bytes.items) };

    ghost faults = { λ _. 0 };

    fn take(&mut self, buf: &mut [u8]) -> Result<usize, Failed>
        ensures bound { ReadsAtMost result buf.new }
        ensures bytes { ReadConsumes (⟦<SteadySource as Source>⟧.left self.old) (⟦<SteadySource as Source>⟧.left self.new) result buf.new }

        // What is left of one piece, as far as there is room.
        ensures count { result ≡ Ok (min (length buf.old) (end_behind self.old.cuts.items self.old.at (length self.old.bytes.items) - self.old.at)) }
        ensures at { IfOk result (λ count. self.new.at ≡ self.old.at + count) }
        ensures cuts { self.new.cuts ≡ self.old.cuts }
        ensures whole { self.new.bytes ≡ self.old.bytes }
    {
        let end = end_behind(&self.cuts, self.at, self.bytes.len());
        let count = buf.len().min(end - self.at);
        let left = &self.bytes[self.at..];
        buf[..count].copy_from_slice(&left[..count]);
        self.at += count;
        Ok(count)
    }
}

/// A source over bytes of which some calls fail.
#[derive(Drop)]
pub struct MemSource {
    inner: SteadySource,
    failing: Vec<u64>,
    calls: u64,
    faults: u64,
}

impl MemSource {
    /// A source of these pieces, of which the calls with the numbers `failing`, from 1 on, fail.
    pub fn new(alloc: Global, pieces: &[&[u8]], failing: &[u64]) -> Result<MemSource, AllocError>
        ensures left { IfOk result (λ made. ⟦<MemSource as Source>⟧.left made ≡ Some (flat_map (λ piece. piece.now) pieces.now)) }
        ensures faults { IfOk result (λ made. ⟦<MemSource as Source>⟧.faults made ≡ 0) }
        ensures cuts { IfOk result (λ made. made.inner.cuts.items ≡ ends_from 0 (map (λ piece. piece.now) pieces.now)) }
        ensures at { IfOk result (λ made. made.inner.at ≡ 0) }
        ensures failing { IfOk result (λ made. made.failing.items ≡ failing.now) }
        ensures calls { IfOk result (λ made. made.calls ≡ 0) }
    {
        Ok(MemSource {
            inner: SteadySource::new(alloc, pieces)?,
            failing: failing.to_vec(alloc)?,
            calls: 0,
            faults: 0,
        })
    }
}

impl Source for MemSource {
    ghost left = { λ s. ⟦<SteadySource as Source>⟧.left s.inner };

    ghost faults = { λ s. s.faults };

    fn take(&mut self, buf: &mut [u8]) -> Result<usize, Failed>
        ensures bound { ReadsAtMost result buf.new }
        ensures bytes { ReadConsumes (⟦<MemSource as Source>⟧.left self.old) (⟦<MemSource as Source>⟧.left self.new) result buf.new }

        // It fails at just the calls that it was told, and gives what is left of one piece at the others.
        ensures fails { is_err result ≡ list_any (λ call. call == next_call self.old.calls) self.old.failing.items }
        ensures count { IfOk result (λ count. count ≡ min (length buf.old) (end_behind self.old.inner.cuts.items self.old.inner.at (length self.old.inner.bytes.items) - self.old.inner.at)) }
        ensures at { IfOk result (λ count. self.new.inner.at ≡ self.old.inner.at + count) }
        ensures kept { OnErr result (self.new.inner ≡ self.old.inner) }
        ensures cuts { self.new.inner.cuts ≡ self.old.inner.cuts }
        ensures whole { self.new.inner.bytes ≡ self.old.inner.bytes }
        ensures calls { self.new.calls ≡ next_call self.old.calls }
        ensures failing { self.new.failing ≡ self.old.failing }
        ensures cause { OnErr result (Rises self.old.faults self.new.faults) }
        ensures counted { OnOk result (self.new.faults ≡ self.old.faults) }
    {
        self.calls = self.calls.saturating_add(1);
        if self.failing.contains(&self.calls) {
            self.faults = self.faults.saturating_add(1);
            return Err(Failed);
        }
        self.inner.take(buf)
    }
}
