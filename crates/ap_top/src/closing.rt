//! The last lines of a run.

ghost use Rattle.std.specs.Prelude.{◌≡◌, ◌∷◌, [], IfOk};
ghost use Rattle.ap_outside.specs.Halting.{Finishes, SinkCount};
ghost use Rattle.ap_top.specs.TextLines.{text_lines};

use crate::status::Status;
use crate::text_lines::put_text;
use ap_outside::{Halt, Sink, put_line};

/// Puts a last line.
pub fn close<K: Sink>(line: &[u8], status: Status, out: &mut K) -> Result<Status, Halt>
    ensures lines { Finishes (K.pieces out.old) (K.pieces out.new) (λ s put. (s ≡ status) × (put ≡ line.now ∷ [])) result }
    ensures count { SinkCount (K.faults out.old) (K.faults out.new) result }
    ensures status { IfOk result (λ s. s ≡ status) }
{
    put_line(line, out)?;
    Ok(status)
}

/// Puts the lines of a text that was asked for.
pub fn tell<K: Sink>(text: &[u8], out: &mut K) -> Result<Status, Halt>
    ensures lines { Finishes (K.pieces out.old) (K.pieces out.new) (λ s put. (s ≡ Status.Done) × (put ≡ text_lines text.now)) result }
    ensures count { SinkCount (K.faults out.old) (K.faults out.new) result }
    ensures status { IfOk result (λ s. s ≡ Status.Done) }
{
    put_text(text, out)?;
    Ok(Status::Done)
}
