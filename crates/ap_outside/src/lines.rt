// Putting whole lines.
ghost use Rattle.std.specs.Prelude.{◌≡◌, [], ◌∷◌, map};
ghost use Rattle.ap_outside.specs.Halting.{Prints, SinkCount};

use crate::{Halt, PutErr, Sink};

/// Puts a line as one piece.
pub fn put_line<K: Sink>(line: &[u8], out: &mut K) -> Result<(), Halt>
    ensures lines { Prints (K.pieces out.old) (K.pieces out.new) (λ put. put ≡ line.now ∷ []) result }
    ensures count { SinkCount (K.faults out.old) (K.faults out.new) result }
{
    match out.put(line) {
        Ok(()) => Ok(()),
        Err(PutErr::Failed) => Err(Halt::Sink),
        Err(PutErr::NoMemory) => Err(Halt::NoMemory),
    }
}

/// Puts lines in order, each as one piece.
pub fn put_lines<K: Sink>(lines: &[Vec<u8>], out: &mut K) -> Result<(), Halt>
    ensures lines { Prints (K.pieces out.old) (K.pieces out.new) (λ put. put ≡ map (λ line. line.items) lines.now) result }
    ensures count { SinkCount (K.faults out.old) (K.faults out.new) result }
{
    for line in lines {
        put_line(line, out)?;
    }
    Ok(())
}
