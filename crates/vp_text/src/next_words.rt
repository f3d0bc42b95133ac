//! The next words of a line, taken one by one. Where a call answers `None` the line does not say what was wanted, and
//! which of its words are left is not told.

ghost use Rattle.std.specs.Prelude.{◌≡◌, ◌≤◌, IfSome};
ghost use Rattle.vp_text.specs.Numbers.{number_of, number_within};
ghost use Rattle.vp_text.specs.Pieces.{Takes, key_word, one_word};
ghost use Rattle.vp_text.specs.Sequences.{keyed};
ghost use Rattle.vp_text.specs.Written.{IsPlainWord};

use crate::{Words, number};

/// Takes the next word, which is to be this one.
pub fn key_word(words: &mut Words, key: &[u8]) -> Option<()>
    ensures line { words.new.line ≡ words.old.line }
    ensures takes { Takes (λ u. tt) result words.new.words (key_word key.now words.old.words) }
{
    let word = words.next()?;
    if word == key { Some(()) } else { None }
}

/// Takes the next word, which is to be this one. A plain word is seen at less cost.
pub fn plain_key_word(words: &mut Words, key: &[u8]) -> Option<()>
    requires { IsPlainWord key.now }
    ensures line { words.new.line ≡ words.old.line }
    ensures takes { Takes (λ u. tt) result words.new.words (key_word key.now words.old.words) }
{
    if words.pass(key) {
        return Some(());
    }
    key_word(words, key)
}

/// Takes the next word, which is to be a number in its decimal digits.
pub fn next_number(words: &mut Words) -> Option<u64>
    ensures line { words.new.line ≡ words.old.line }
    ensures takes { Takes (λ n. n) result words.new.words (one_word number_of words.old.words) }
{
    if let Some(value) = words.pass_number() {
        return Some(value);
    }
    let word = words.next()?;
    number(word)
}

/// Takes the next word, which is to be a number from `least` to `most` in its decimal digits.
#[tactic(auto, unfolding(crate::specs::Numbers::number_within))]
pub fn next_number_within(words: &mut Words, least: u64, most: u64) -> Option<u64>
    ensures line { words.new.line ≡ words.old.line }
    ensures takes { Takes (λ n. n) result words.new.words (one_word (number_within least most) words.old.words) }
    ensures within { IfSome result (λ n. (least ≤ n) × (n ≤ most)) }
{
    let value = next_number(words)?;
    if least <= value && value <= most {
        Some(value)
    } else {
        None
    }
}

/// A line of two words: this word, and a number from `least` to `most` in its decimal digits.
pub fn keyed_number(words: &mut Words, key: &[u8], least: u64, most: u64) -> Option<u64>
    ensures line { result ≡ keyed key.now (number_within least most) words.old.words }
    ensures within { IfSome result (λ n. (least ≤ n) × (n ≤ most)) }
{
    key_word(words, key)?;
    let value = next_number_within(words, least, most)?;
    words.end()?;
    Some(value)
}
