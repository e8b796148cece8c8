//! Numbers on the command line: 1 to 20 decimal digits, in a range.
ghost use Rattle.std.specs.Prelude.{◌≡◌, ◌≤◌, length, IfSome};
ghost use Rattle.command_words.specs.Words as spec;

fn is_digit(b: u8) -> bool
    ensures { result ≡ spec.is_digit b }
{
    b'0' <= b && b <= b'9'
}

// At most 20 digits.
fn digits(word: &[u8]) -> Option<u128>
    requires { length word.now ≤ 20 }
    ensures { result ≡ spec.digits 0 word.now }
{
    let mut n: u128 = 0;
    for b in word {
        if !is_digit(*b) {
            return None;
        }
        n = 10 * n + u128::from(*b - b'0');
    }
    Some(n)
}

/// The number that a word of 1 to 20 decimal digits is.
pub(crate) fn number(word: &str) -> Option<u128>
    ensures { result ≡ spec.number word.now }
{
    if 1 <= word.len() && word.len() <= 20 {
        digits(word.as_bytes())
    } else {
        None
    }
}

/// The number, where it lies in the range.
pub(crate) fn within(low: u128, high: u128, n: Option<u128>) -> Option<u128>
    ensures value { result ≡ spec.within low high n }
    ensures bounds { IfSome result (λ k. (low ≤ k) × (k ≤ high)) }
{
    match n {
        Some(n) if low <= n && n <= high => Some(n),
        _ => None,
    }
}
