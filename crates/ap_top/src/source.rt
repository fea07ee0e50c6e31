// Reading a source to its end.
ghost use Rattle.std.specs.Prelude.{◌≡◌, ◌<◌, ◌≤◌, ℕ, List, [], length, IsErrOf, OnOk};
ghost use Rattle.std.specs.Io.KnownBytes.{Consumes, IsAtEnd};
ghost use Rattle.ap_outside.specs.Faults.{Rises};

use ap_outside::Source;
use std::alloc::Global;

/// The greatest number of bytes of a program file and of a source.
pub const LIMIT: u64 = 16_777_216;

/// Why a source was not read to its end.
#[derive(Clone, Copy, Debug, PartialEq, Eq)]
pub enum DrainErr {
    /// The source failed.
    Failed,
    /// It has more bytes than the limit.
    TooLong,
    NoMemory,
}

/// Takes all bytes of a source behind those of `all`, which are none. Each turn takes at least one, so the turns end.
/// After a fault `all` has those that were taken before it.
pub fn drain<S: Source>(all: &mut Vec<u8>, source: &mut S) -> Result<(), DrainErr>
    requires { all.old.items ≡ [] }
    ensures bytes { OnOk result (Consumes (S.left source.old) (S.left source.new) all.new.items) }
    ensures end { OnOk result (IsAtEnd (S.left source.new)) }
    ensures taken { IsErrOf result DrainErr.Failed → Consumes (S.left source.old) (S.left source.new) all.new.items }
    ensures short { length all.new.items ≤ 16777216 }
    ensures too_long { IsErrOf result DrainErr.TooLong → (bytes : List ℕ) × Consumes (S.left source.old) (S.left source.new) bytes × (16777216 < length bytes) }

    ensures cause { IsErrOf result DrainErr.Failed → Rises (S.faults source.old) (S.faults source.new) }
    ensures counted { OnOk result (S.faults source.new ≡ S.faults source.old) }
    ensures counted_too_long { IsErrOf result DrainErr.TooLong → S.faults source.new ≡ S.faults source.old }
    ensures counted_memory { IsErrOf result DrainErr.NoMemory → S.faults source.new ≡ S.faults source.old }
{
    let mut buf = [0u8; 4096];
    for _turn in 0..LIMIT + 1 {
        let Ok(count) = source.take(&mut buf) else {
            return Err(DrainErr::Failed);
        };
        if count == 0 {
            return Ok(());
        }
        if (LIMIT as usize) - all.len() < count {
            return Err(DrainErr::TooLong);
        }
        if all.extend_from_slice(&buf[..count]).is_err() {
            return Err(DrainErr::NoMemory);
        }
    }
    unreachable!()
}
