//! What stands at the front of a text; what is left behind it is handed back.
ghost use Rattle.std.specs.Prelude.{◌≡◌, ◌≤◌, ◌&&◌, nat_le, length, IfSome, Some};
ghost use Rattle.std.specs.Option.{option_map};
ghost use Rattle.std.specs.Char.{is_ascii_digit};
ghost use Rattle.std.specs.List.{list_all};
ghost use Rattle.edit_script.specs.Forms as form;
ghost use Rattle.report_reader.specs.Fields as spec;

use std::str;

/// What stands behind a text.
pub(crate) fn after<'a>(text: &[u8], bytes: &'a [u8]) -> Option<&'a [u8]>
    ensures { option_map (λ rest. rest.now) result ≡ spec.after text.now bytes.now }
{
    bytes.strip_prefix(text)
}

fn are_digits(word: &[u8]) -> bool
    ensures { result ≡ list_all is_ascii_digit word.now }
{
    word.iter().all(|b| b.is_ascii_digit())
}

fn is_numeral(word: &[u8]) -> bool
    ensures { result ≡ (nat_le (length word.now) 20 && list_all is_ascii_digit word.now) }
{
    word.len() <= 20 && are_digits(word)
}

fn value(word: &[u8]) -> Option<u64>
    ensures { result ≡ form.within 0 form.largest (form.number word.now) }
{
    if !is_numeral(word) {
        return None;
    }
    let digits = str::from_utf8(word).ok()?;
    digits.parse().ok()
}

// The number that a word is. No zero stands before other digits.
#[tactic(auto, unfolding(crate::specs::Fields::numeral))]
fn numeral(word: &[u8]) -> Option<u64>
    ensures { result ≡ spec.numeral word.now }
{
    if word.len() > 1 && word[0] == b'0' {
        return None;
    }
    value(word)
}

// How many digits stand in front.
fn digits(bytes: &[u8]) -> usize
    ensures count { result ≡ spec.digits bytes.now }
    ensures within { result ≤ length bytes.now }
{
    bytes.iter().take_while(|b| b.is_ascii_digit()).count()
}

/// A number from a least to a most: all the digits that stand in front.
#[tactic(auto, unfolding(crate::specs::Fields::number_in))]
pub(crate) fn number(least: u64, most: u64, bytes: &[u8]) -> Option<(u64, &[u8])>
    ensures value { option_map (spec.seen spec.same) result
        ≡ spec.number_in least most bytes.now }
    ensures low { IfSome result (λ x. least ≤ x.0) }
    ensures high { IfSome result (λ x. x.0 ≤ most) }
{
    let (word, rest) = bytes.split_at(digits(bytes));
    let n = numeral(word)?;
    if least <= n && n <= most {
        Some((n, rest))
    } else {
        None
    }
}

/// A text, and a number behind it.
#[tactic(auto, unfolding(crate::specs::Fields::numbered))]
pub(crate) fn numbered<'a>(
    text: &[u8],
    least: u64,
    most: u64,
    bytes: &'a [u8],
) -> Option<(u64, &'a [u8])>
    ensures value { option_map (spec.seen spec.same) result
        ≡ spec.numbered text.now least most bytes.now }
    ensures low { IfSome result (λ x. least ≤ x.0) }
    ensures high { IfSome result (λ x. x.0 ≤ most) }
{
    number(least, most, after(text, bytes)?)
}
