//! Numbers that choice points and forks keep, in words of 32 bits.

ghost use Rattle.std.specs.Prelude.{◌≡◌, IfOk};

use ap_term::NoMemory;

/// Narrows a number, where 32 bits hold it.
#[inline(always)]
pub(crate) fn narrow(number: usize) -> Result<u32, NoMemory>
    ensures { IfOk result (λ word. word ≡ number) }
{
    match u32::try_from(number) {
        Ok(word) => Ok(word),
        Err(_) => Err(NoMemory),
    }
}

/// Narrows a number, where there is one.
#[inline(always)]
pub(crate) fn narrow_some(number: Option<usize>) -> Result<Option<u32>, NoMemory>
    ensures { IfOk result (λ word. word ≡ number) }
{
    match number {
        Some(number) => Ok(Some(narrow(number)?)),
        None => Ok(None),
    }
}

/// Widens a word, where there is one.
#[inline(always)]
pub(crate) fn widen_some(word: Option<u32>) -> Option<usize>
    ensures { result ≡ word }
{
    match word {
        Some(word) => Some(word as usize),
        None => None,
    }
}
