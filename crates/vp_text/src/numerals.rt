//! Numbers in words.

ghost use Rattle.std.specs.Prelude.{◌≡◌, ◌<◌, ◌≤◌, ◌+◌, ◌*◌, ◌^◌, ◌↔◌, ℕ, length, slice_index, decimal, IsTrue, IfSome, IfNone, Some, take};
ghost use Rattle.std.specs.Char.{digit_value};
ghost use Rattle.std.specs.Str.Parse.{AllDigits, digits_value};
ghost use Rattle.vp_text.specs.Lines.{words_in};
ghost use Rattle.vp_text.specs.Numbers.{number_of};
ghost use Rattle.vp_text.specs.Pieces.{one_word};

use crate::cutting::{behind_space, blank};

/// A number with one more digit behind it, where this byte is a digit and the number stays below 2^64.
fn with_digit(value: u64, byte: u8) -> Option<u64>
    ensures below { IfSome result (λ n. n < 2 ^ 64) }
    ensures some { IfSome result (λ n. (digit_value byte < 10) × (n ≡ value * 10 + digit_value byte)) }
    ensures none { IfNone result (digit_value byte < 10 → 2 ^ 64 ≤ value * 10 + digit_value byte) }
{
    let digit = byte.wrapping_sub(b'0');
    if digit > 9 {
        return None;
    }
    // Ten times as much, and a digit, is below 2^64.
    if value <= 1844674407370955160 {
        return Some(value * 10 + u64::from(digit));
    }
    value.checked_mul(10)?.checked_add(u64::from(digit))
}

/// The number below 2^64 that these digits write.
fn value_of(digits: &[u8]) -> Option<u64>
    ensures some { IfSome result (λ n. (n < 2 ^ 64) × AllDigits 10 digits.now × (n ≡ digits_value 10 digits.now)) }
    ensures none { IfNone result (AllDigits 10 digits.now → 2 ^ 64 ≤ digits_value 10 digits.now) }
{
    let mut value = 0;
    for byte in digits {
        let Some(more) = with_digit(value, *byte) else {
            return None;
        };
        value = more;
    }
    Some(value)
}

/// Whether a digit stands behind a zero at the front.
fn has_leading_zero(text: &[u8]) -> bool
    ensures { IsTrue result ↔ ((1 < length text.now) × (slice_index text.now 0 ≡ 48)) }
{
    text.len() > 1 && text[0] == b'0'
}

/// The number below 2^64 that is written in decimal digits, without a sign and without a leading zero.
/// `None` for every other text.
pub fn number(text: &[u8]) -> Option<u64>
    ensures value { result ≡ number_of text.now }
    // A number that is read is written so.
    ensures found { IfSome result (λ value. text.now ≡ decimal value) }
    // Nothing is read exactly where no number below 2^64 is written so.
    ensures none { IfNone result ((value : ℕ) → value < 2 ^ 64 → text.now ≡ decimal value → ⊥) }
{
    if text.is_empty() || has_leading_zero(text) {
        return None;
    }
    value_of(text)
}

/// How many digits stand at the front of a text, and their number, where it stays below 2^64: at most so many are read.
fn front_digits(text: &[u8]) -> (u64, usize)
    ensures below { result.0 < 2 ^ 64 }
    ensures inside { result.1 ≤ length text.now }
    ensures digits { AllDigits 10 (take result.1 text.now) }
    ensures value { result.0 ≡ digits_value 10 (take result.1 text.now) }
{
    let mut value = 0;
    let mut place: usize = 0;
    'digits: while place < text.len() {
        let Some(more) = with_digit(value, text[place]) else {
            return (value, place);
        };
        value = more;
        place += 1;
    }
    (value, place)
}

/// The number that is the first word, with at most one space before it, and what is behind it. Where `None` is answered
/// the first word may still be one.
pub(crate) fn cut_number(text: &[u8]) -> Option<(u64, &[u8])>
    ensures { IfSome result (λ cut. one_word number_of (words_in text.now) ≡ Some (cut.0, words_in cut.1.now)) }
{
    let text = behind_space(text);
    let (value, place) = front_digits(text);
    if place == 0 || text[0] == b'0' {
        return None;
    }
    let (_, rest) = text.split_at(place);
    if rest.is_empty() || blank(rest[0]) {
        Some((value, rest))
    } else {
        None
    }
}
