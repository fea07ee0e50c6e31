//! Words that stand for files, values and numbers.

ghost use Rattle.std.specs.Prelude.{◌≡◌, ◌≤◌, IfSome};
ghost use Rattle.std.specs.Char.{is_ascii_digit};
ghost use Rattle.std.specs.List.{list_all};
ghost use Rattle.ap_words.specs.Numbers.{is_numeral, is_plain, number};

/// Tells whether a word stands for itself: it isn't empty, and not written as an option is.
pub fn is_plain(word: &str) -> bool
    ensures { result ≡ is_plain word.now }
{
    let bytes = word.as_bytes();
    !bytes.is_empty() && bytes[0] != b'-'
}

fn are_digits(word: &[u8]) -> bool
    ensures { result ≡ list_all is_ascii_digit word.now }
{
    word.iter().all(|digit| digit.is_ascii_digit())
}

// Whether a word is decimal digits without a needless zero before them.
fn is_numeral(word: &str) -> bool
    ensures { result ≡ is_numeral word.now }
{
    let digits = word.as_bytes();
    !digits.is_empty() && (are_digits(digits) && (digits.len() == 1 || digits[0] != b'0'))
}

/// Reads a number from a least one to a greatest one.
pub fn number(least: u64, greatest: u64, word: &str) -> Option<u64>
    ensures is { result ≡ number least greatest word.now }
    ensures small { IfSome result (λ n. n ≤ greatest) }
{
    if !is_numeral(word) {
        return None;
    }
    match word.parse::<u64>() {
        Ok(n) => {
            if least <= n && n <= greatest {
                Some(n)
            } else {
                None
            }
        }
        Err(_) => None,
    }
}
