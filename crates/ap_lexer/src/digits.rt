ghost use Rattle.std.specs.Prelude.{◌≡◌, ◌≤◌, ◌^◌, nat_le, MatchOption, true, false};
ghost use Rattle.ap_lexer.specs.Lexeme as spec;

/// 2 ^ 63, the magnitude of the least integer.
const GREATEST: u64 = 1 << 63;

/// What may stand before a last digit.
const TENTH: u64 = GREATEST / 10;

/// So many bytes stand for less than 2 ^ 63, whatever they are.
const FEW: usize = 17;

/// Whether digits are so few that their number needs no test.
#[inline(always)]
pub(crate) fn are_few(digits: &[u8]) -> bool
    ensures { result ≡ true → spec.number digits.now ≤ 2 ^ 63 }
{
    digits.len() <= FEW
}

/// The number that few digits stand for.
#[inline(always)]
fn number_of_few(digits: &[u8]) -> u64
    requires { spec.number digits.now ≤ 2 ^ 63 }
    ensures { result ≡ spec.number digits.now }
{
    let mut number: u64 = 0;
    for b in digits {
        number = number * 10 + u64::from(b.saturating_sub(b'0'));
    }
    number
}

/// The number that an integer token's digits stand for, or None above 2 ^ 63.
#[inline(always)]
pub fn number(digits: &[u8]) -> Option<u64>
    ensures { MatchOption result (nat_le (spec.number digits.now) (2 ^ 63) ≡ false) (λ n. (n ≡ spec.number digits.now) × (n ≤ 2 ^ 63)) }
{
    if are_few(digits) {
        return Some(number_of_few(digits));
    }
    tested_number(digits)
}

/// The number of any digits, or None above 2 ^ 63.
#[inline(never)]
fn tested_number(digits: &[u8]) -> Option<u64>
    ensures { MatchOption result (nat_le (spec.number digits.now) (2 ^ 63) ≡ false) (λ n. (n ≡ spec.number digits.now) × (n ≤ 2 ^ 63)) }
{
    let mut number: u64 = 0;
    for b in digits {
        if number > TENTH {
            return None;
        }
        number = number * 10 + u64::from(b.saturating_sub(b'0'));
        if number > GREATEST {
            return None;
        }
    }
    Some(number)
}
