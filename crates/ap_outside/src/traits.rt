// The four traits of the outside, and their answers.
ghost use Rattle.std.specs.Prelude.{◌≡◌, ◌<◌, ◌≤◌, List, [], ◌∷◌, ℕ, length, Option, OnOk, OnErr, IsErrOf};
ghost use Rattle.std.specs.Io.{ReadsAtMost};
ghost use Rattle.std.specs.Io.KnownBytes.{ReadConsumes};
ghost use Rattle.ap_outside.specs.Faults.{Rises};
ghost use Rattle.ap_outside.specs.Files.{HasContent};
ghost use Rattle.ap_outside.specs.Pieces.{Adds, Puts, IsBeginningOf};

/// How a file was read.
#[derive(Clone, Copy, Debug, PartialEq, Eq)]
pub enum Got {
    /// All of it was read.
    Whole,
    /// It has more bytes than the limit, and nothing of it was kept.
    TooLong,
}

/// Why a file was not read.
#[derive(Clone, Copy, Debug, PartialEq, Eq)]
pub enum FileErr {
    /// It is missing, or a read failed.
    Failed,
    /// Memory was wanting.
    NoMemory,
}

/// A source could not give bytes.
#[derive(Clone, Copy, Debug, PartialEq, Eq)]
pub struct Failed;

/// Why a piece was not put whole.
#[derive(Clone, Copy, Debug, PartialEq, Eq)]
pub enum PutErr {
    /// The write failed, perhaps after a beginning of the piece.
    Failed,
    /// Memory was wanting, and nothing was put.
    NoMemory,
}

/// Where a worker is: it begins or has finished the parallel goal at a place of its group, from 1 on.
#[derive(Clone, Copy, Debug, PartialEq, Eq)]
pub enum Spot {
    Began { place: u64 },
    Finished { place: u64 },
}

/// Named files that are read whole.
pub trait Files {
    /// The names and their bytes, where they are told. The first entry of a name counts.
    ghost entries: { Self → Option (List (List ℕ × List ℕ)) };

    /// How often a read has failed.
    ghost faults: { Self → ℕ };

    /// Reads the file of that name into `into`, in place of what that held, where the file has at most `limit` bytes.
    fn read(&mut self, name: &str, into: &mut Vec<u8>, limit: u64) -> Result<Got, FileErr>
        ensures whole { result ≡ Ok Got.Whole → HasContent (entries self.old) name.now (λ bytes. into.new.items ≡ bytes) }
        ensures fits { result ≡ Ok Got.Whole → length into.new.items ≤ limit }
        ensures too_long { result ≡ Ok Got.TooLong → HasContent (entries self.old) name.now (λ bytes. limit < length bytes) }
        ensures emptied { result ≡ Ok Got.TooLong → into.new.items ≡ [] }
        ensures emptied_err { OnErr result (into.new.items ≡ []) }
        ensures same { entries self.new ≡ entries self.old }

        ensures cause { IsErrOf result FileErr.Failed → Rises (faults self.old) (faults self.new) }
        ensures counted { OnOk result (faults self.new ≡ faults self.old) }
        ensures counted_memory { IsErrOf result FileErr.NoMemory → faults self.new ≡ faults self.old };
}

/// A stream of bytes.
pub trait Source {
    /// The bytes that are left, where they are told.
    ghost left: { Self → Option (List ℕ) };

    /// How often it has failed.
    ghost faults: { Self → ℕ };

    /// Moves the first bytes that are left into the front of `buf`, and answers how many.
    ///
    /// Where `buf` has room, 0 is answered exactly at the end. After `Failed` the same bytes are left.
    fn take(&mut self, buf: &mut [u8]) -> Result<usize, Failed>
        ensures bound { ReadsAtMost result buf.new }
        ensures bytes { ReadConsumes (left self.old) (left self.new) result buf.new }

        ensures cause { OnErr result (Rises (faults self.old) (faults self.new)) }
        ensures counted { OnOk result (faults self.new ≡ faults self.old) };
}

/// A place that text is put to, piece by piece.
pub trait Sink: Send {
    /// The pieces that were put, where they are told. The bytes put are these pieces, joined.
    ghost pieces: { Self → Option (List (List ℕ)) };

    /// How often a put has failed.
    ghost faults: { Self → ℕ };

    /// Puts a piece. `Failed` has put a beginning of it, perhaps empty, and `NoMemory` nothing.
    fn put(&mut self, piece: &[u8]) -> Result<(), PutErr>
        ensures ok { OnOk result (Adds (pieces self.old) (pieces self.new) (piece.now ∷ [])) }
        ensures failed { IsErrOf result PutErr.Failed → Puts (pieces self.old) (pieces self.new) (IsBeginningOf piece.now) }
        ensures memory { IsErrOf result PutErr.NoMemory → Adds (pieces self.old) (pieces self.new) [] }

        ensures cause { IsErrOf result PutErr.Failed → Rises (faults self.old) (faults self.new) }
        ensures counted { OnOk result (faults self.new ≡ faults self.old) }
        ensures counted_memory { IsErrOf result PutErr.NoMemory → faults self.new ≡ faults self.old };
}

/// What a worker passes when it begins and when it has finished a parallel goal. It changes no result.
pub trait Gate: Sync {
    fn pass(&self, spot: Spot);
}
