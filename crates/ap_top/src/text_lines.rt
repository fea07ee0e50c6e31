//! The lines of a text.

ghost use Rattle.std.specs.Prelude.{◌≡◌, ◌≤◌, length, position, ◌==◌};
ghost use Rattle.ap_outside.specs.Halting.{Prints, SinkCount};
ghost use Rattle.ap_top.specs.TextLines.{text_lines, line_length};

use ap_outside::{Halt, Sink, put_line};

fn first_feed(text: &[u8]) -> Option<usize>
    ensures { result ≡ position (λ byte. byte == 10) text.now }
{
    text.iter().position(|byte| *byte == b'\n')
}

// How long a text's first line is, with its line feed.
fn line_length(text: &[u8]) -> usize
    ensures is { result ≡ line_length text.now }
    ensures within { result ≤ length text.now }
{
    match first_feed(text) {
        Some(at) => at + 1,
        None => text.len(),
    }
}

/// Puts the lines of a text in order, each as one piece.
pub fn put_text<K: Sink>(text: &[u8], out: &mut K) -> Result<(), Halt>
    ensures lines { Prints (K.pieces out.old) (K.pieces out.new) (λ put. put ≡ text_lines text.now) result }
    ensures count { SinkCount (K.faults out.old) (K.faults out.new) result }
{
    let mut rest = text;
    while !rest.is_empty() {
        let (line, behind) = rest.split_at(line_length(rest));
        put_line(line, out)?;
        rest = behind;
    }
    Ok(())
}
