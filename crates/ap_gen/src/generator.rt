//! The program of a seed and a size.

ghost use Rattle.std.specs.Prelude.{◌≡◌, ◌<◌, ◌++◌, ◌+◌, ◌*◌, ◌%◌, ◌/◌, OnOk, IfOk};
ghost use Rattle.ap_gen.specs.Generator.{elements, parted, workload};

use itoa::Buffer;
use std::alloc::{AllocError, Global};

const MODULUS: u64 = 2_147_483_648;

const MULTIPLIER: u64 = 1_103_515_245;

const INCREMENT: u64 = 12_345;

/// What is asked of the program.
pub const QUESTION: &[u8] = b"?- data(D), total(D,N), tsum(10,S).\n";

const RULES: &[u8] = b"total([],0).\n\
total([E|L],S) :- deal(L,A,B), total(A,SA), total(B,SB), S is SA + SB + E.\n\
deal([],[],[]).\n\
deal([E|L],[E|A],B) :- deal(L,B,A).\n\
tsum(0,1).\n\
tsum(N,S) :- N > 0, M is N - 1, tsum(M,A), tsum(M,B), S is A + B.\n";

// The state behind another one.
fn next(state: u64) -> u64
    requires { state < 2147483648 }
    ensures is { result ≡ (1103515245 * state + 12345) % 2147483648 }
    ensures small { result < 2147483648 }
{
    (MULTIPLIER * state + INCREMENT) % MODULUS
}

// Writes the elements behind a text, parted by commas.
fn push_numbers(text: &mut Vec<u8>, seed: u32, size: u32) -> Result<(), AllocError>
    ensures { OnOk result (text.new.items ≡ text.old.items ++ parted (elements seed size)) }
{
    let mut buffer = Buffer::new();
    let mut state = u64::from(seed) % MODULUS;
    for count in 0..size {
        state = next(state);
        if count > 0 {
            text.extend_from_slice(b",")?;
        }
        text.extend_from_slice(buffer.format(state / 65_536 % 1_000).as_bytes())?;
    }
    Ok(())
}

/// Gives the text of the program of a seed and a size: a list of that many numbers below 1000, the sum of a list by
/// halves, and a tree of calls.
pub fn workload(alloc: Global, seed: u32, size: u32) -> Result<Vec<u8>, AllocError>
    ensures { IfOk result (λ text. text.items ≡ workload seed size) }
{
    let mut text = b"data([".to_vec(alloc)?;
    push_numbers(&mut text, seed, size)?;
    text.extend_from_slice(b"]).\n")?;
    text.extend_from_slice(RULES)?;
    Ok(text)
}
