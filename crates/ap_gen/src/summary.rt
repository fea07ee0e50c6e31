//! The lines that sum a block up.

ghost use Rattle.std.specs.Prelude.{◌≡◌, ◌<◌, ◌≤◌, ◌*◌, ◌^◌, length, map, sum, IfOk};
ghost use Rattle.ap_gen.specs.Summary.{answers_line, seed_line};

use itoa::Buffer;
use std::alloc::{AllocError, Global};

/// Gives the first line, with its line feed.
pub fn seed_line(alloc: Global, seed: u32, size: u32) -> Result<Vec<u8>, AllocError>
    ensures { IfOk result (λ line. line.items ≡ seed_line seed size) }
{
    let mut buffer = Buffer::new();
    let mut line = b"seed ".to_vec(alloc)?;
    line.extend_from_slice(buffer.format(seed).as_bytes())?;
    line.extend_from_slice(b" size ")?;
    line.extend_from_slice(buffer.format(size).as_bytes())?;
    line.extend_from_slice(b"\n")?;
    Ok(line)
}

fn sum_of(line: &[u8]) -> u128
    ensures is { result ≡ sum line.now }
    ensures small { result < 2 ^ 72 }
{
    let mut total = 0u128;
    for byte in line {
        total += u128::from(*byte);
    }
    total
}

fn bytes_in(lines: &[Vec<u8>]) -> u128
    requires { length lines.now ≤ 2 ^ 32 }
    ensures { result ≡ sum (map (λ line. length line.items) lines.now) }
{
    let mut total = 0u128;
    for line in lines {
        total += line.len() as u128;
    }
    total
}

fn sum_in(lines: &[Vec<u8>]) -> u128
    requires { length lines.now ≤ 2 ^ 32 }
    ensures { result ≡ sum (map (λ line. sum line.items) lines.now) }
{
    let mut total = 0u128;
    for line in lines {
        total += sum_of(line);
    }
    total
}

/// Gives the second line, with its line feed: how many answer lines there are, their bytes, and the sum of these.
pub fn answers_line(alloc: Global, answers: &[Vec<u8>]) -> Result<Vec<u8>, AllocError>
    requires { length answers.now ≤ 2 ^ 32 }
    ensures { IfOk result (λ line. line.items ≡ answers_line (map (λ answer. answer.items) answers.now)) }
{
    let mut buffer = Buffer::new();
    let mut line = b"answers ".to_vec(alloc)?;
    line.extend_from_slice(buffer.format(answers.len()).as_bytes())?;
    line.extend_from_slice(b" bytes ")?;
    line.extend_from_slice(buffer.format(bytes_in(answers)).as_bytes())?;
    line.extend_from_slice(b" sum ")?;
    line.extend_from_slice(buffer.format(sum_in(answers)).as_bytes())?;
    line.extend_from_slice(b"\n")?;
    Ok(line)
}
