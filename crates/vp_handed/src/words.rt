//! The words that a caller hands over.

ghost use Rattle.std.specs.Prelude.{◌≡◌, ℕ, List, ◌∷◌, ◌++◌, map, IfSome, IfNone};
ghost use Rattle.std.specs.List.{Contains};
ghost use Rattle.vp_text.specs.Lines.{Word};
ghost use Rattle.vp_handed.specs.First.{AreFirst};
ghost use Rattle.vp_handed.specs.Words.{AreWords, BeginsWith};

use arrayvec::ArrayVec;
use memchr::memchr;

/// The first six of the words that the bytes are, or nothing where they are no words.
pub fn words_in<'a>(bytes: &'a [u8]) -> Option<ArrayVec<&'a str, 6>>
    ensures some { IfSome result (λ _. (given : List Word) × AreWords given bytes.now) }
    ensures first { IfSome result (λ words. AreFirst (map (λ w. w.now) words.items) bytes.now) }
    ensures none { IfNone result ((given : List Word) → ¬ AreWords given bytes.now) }
{
    let mut words = ArrayVec::new();
    let mut left = bytes;
    while !left.is_empty() {
        let (word, rest) = first_word(left)?;
        if !words.is_full() {
            words.push(word);
        }
        left = rest;
    }
    Some(words)
}

/// The first word, and what is behind its zero byte.
fn first_word(bytes: &[u8]) -> Option<(&str, &[u8])>
    ensures some { IfSome result (λ cut. BeginsWith cut.0.now cut.1.now bytes.now) }
    ensures none { IfNone result ((word rest : List ℕ) → ¬ BeginsWith word rest bytes.now) }
{
    let (word, rest) = before_zero(bytes)?;
    match str::from_utf8(word) {
        Ok(word) => Some((word, rest)),
        Err(_) => None,
    }
}

/// What is before the first zero byte, and what is behind it.
fn before_zero(bytes: &[u8]) -> Option<(&[u8], &[u8])>
    ensures whole { IfSome result (λ cut. ¬ Contains cut.0.now 0) }
    ensures cut { IfSome result (λ cut. bytes.now ≡ cut.0.now ++ (0 ∷ cut.1.now)) }
    ensures none { IfNone result (¬ Contains bytes.now 0) }
{
    let end = memchr(0, bytes)?;
    let (before, behind) = bytes.split_at(end);
    Some((before, behind.split_at(1).1))
}
