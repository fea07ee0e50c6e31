// Sinks in memory.
ghost use Rattle.std.specs.Prelude.{◌≡◌, ℕ, [], ◌∷◌, take, None, Some, IfOk, OnOk, IsErrOf};
ghost use Rattle.ap_outside.specs.Calls.{next_call, takes_at};
ghost use Rattle.ap_outside.specs.Faults.{Rises};
ghost use Rattle.ap_outside.specs.MemSink.{pieces_of};
ghost use Rattle.ap_outside.specs.Pieces.{Adds};

use crate::{PutErr, Sink};
use std::alloc::{AllocError, Global};

/// A sink that keeps the pieces and never fails.
#[derive(Drop)]
pub struct SteadySink {
    alloc: Global,
    pieces: Vec<Vec<u8>>,
}

impl SteadySink {
    pub fn new(alloc: Global) -> SteadySink
        ensures { ⟦<SteadySink as Sink>⟧.pieces result ≡ Some [] }
    {
        SteadySink {
            alloc,
            pieces: Vec::new(alloc),
        }
    }

    /// What was put so far, in order.
    pub fn pieces(&self) -> &[Vec<u8>]
        ensures { Some (pieces_of result.now) ≡ ⟦<SteadySink as Sink>⟧.pieces self.now }
    {
        &self.pieces
    }
}

impl Sink for SteadySink {
    ghost pieces = { λ s. Some (pieces_of s.pieces.items) };

    ghost faults = { λ _. 0 };

    fn put(&mut self, piece: &[u8]) -> Result<(), PutErr> {
        let Ok(copy) = piece.to_vec(self.alloc) else {
            return Err(PutErr::NoMemory);
        };
        match self.pieces.push(copy) {
            Ok(()) => Ok(()),
            Err(_) => Err(PutErr::NoMemory),
        }
    }
}

/// A put that fails: its number, from 1 on, and how many bytes of the piece it takes before.
#[derive(Clone, Copy, Debug, PartialEq, Eq)]
pub struct Refusal {
    pub call: u64,
    pub takes: usize,
}

/// A sink that keeps the pieces, and of which some calls fail.
#[derive(Drop)]
pub struct MemSink {
    inner: SteadySink,
    refusals: Vec<Refusal>,
    calls: u64,
    faults: u64,
}

impl MemSink {
    /// An empty sink that fails at these calls, the first refusal of a call counting.
    pub fn new(alloc: Global, refusals: &[Refusal]) -> Result<MemSink, AllocError>
        ensures pieces { IfOk result (λ made. ⟦<MemSink as Sink>⟧.pieces made ≡ Some []) }
        ensures faults { IfOk result (λ made. ⟦<MemSink as Sink>⟧.faults made ≡ 0) }
        ensures refusals { IfOk result (λ made. made.refusals.items ≡ refusals.now) }
        ensures calls { IfOk result (λ made. made.calls ≡ 0) }
    {
        Ok(MemSink {
            inner: SteadySink::new(alloc),
            refusals: refusals.to_vec(alloc)?,
            calls: 0,
            faults: 0,
        })
    }

    /// What was put so far, in order.
    pub fn pieces(&self) -> &[Vec<u8>]
        ensures { Some (pieces_of result.now) ≡ ⟦<MemSink as Sink>⟧.pieces self.now }
    {
        self.inner.pieces()
    }
}

// How many bytes the call takes before it fails, where it fails.
fn refusal_of(refusals: &[Refusal], call: u64) -> Option<usize>
    ensures { result ≡ takes_at refusals.now call }
{
    for refusal in refusals {
        if refusal.call == call {
            return Some(refusal.takes);
        }
    }
    None
}

impl Sink for MemSink {
    ghost pieces = { λ s. ⟦<SteadySink as Sink>⟧.pieces s.inner };

    ghost faults = { λ s. s.faults };

    fn put(&mut self, piece: &[u8]) -> Result<(), PutErr>
        ensures ok { OnOk result (Adds (⟦<MemSink as Sink>⟧.pieces self.old) (⟦<MemSink as Sink>⟧.pieces self.new) (piece.now ∷ [])) }
        ensures memory { IsErrOf result PutErr.NoMemory → Adds (⟦<MemSink as Sink>⟧.pieces self.old) (⟦<MemSink as Sink>⟧.pieces self.new) [] }

        // It fails at the calls that it was told, and takes as many bytes before as it was told.
        ensures accepts { OnOk result (takes_at self.old.refusals.items (next_call self.old.calls) ≡ None) }
        ensures failed { IsErrOf result PutErr.Failed → (takes : ℕ) × (takes_at self.old.refusals.items (next_call self.old.calls) ≡ Some takes)
            × Adds (⟦<MemSink as Sink>⟧.pieces self.old) (⟦<MemSink as Sink>⟧.pieces self.new) (take takes piece.now ∷ []) }
        ensures calls { self.new.calls ≡ next_call self.old.calls }
        ensures refusals { self.new.refusals ≡ self.old.refusals }
        ensures cause { IsErrOf result PutErr.Failed → Rises self.old.faults self.new.faults }
        ensures counted { OnOk result (self.new.faults ≡ self.old.faults) }
        ensures counted_memory { IsErrOf result PutErr.NoMemory → self.new.faults ≡ self.old.faults }
    {
        self.calls = self.calls.saturating_add(1);
        match refusal_of(&self.refusals, self.calls) {
            None => self.inner.put(piece),
            Some(takes) => {
                let count = takes.min(piece.len());
                self.inner.put(&piece[..count])?;
                self.faults = self.faults.saturating_add(1);
                Err(PutErr::Failed)
            }
        }
    }
}
