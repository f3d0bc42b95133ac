//! Where a text is cut into lines, and a line into words.

ghost use Rattle.std.specs.Prelude.{◌≡◌, ◌<◌, ◌==◌, false, not, ◌∷◌, length, slice_index, position, IfSome};
ghost use Rattle.std.specs.List.{before_first};
ghost use Rattle.std.specs.Str.Lines.{strip_carriage_return};
ghost use Rattle.vp_text.specs.Lines.{is_blank, after_feed, lines_in, words_in, said};
ghost use Rattle.vp_text.specs.Written.{IsPlainWord};

use memchr::memchr;

pub(crate) fn blank(byte: u8) -> bool
    ensures { result ≡ is_blank byte }
{
    byte == b' ' || byte == b'\t'
}

/// The first place of a byte. The front is asked alone: lines without words are mostly empty, or begin with `#`.
#[tactic(auto, using(crate::proofs::Places::first_place, crate::proofs::Places::at_front))]
fn place_of(byte: u8, text: &[u8]) -> Option<usize>
    ensures { result ≡ position (λ other. other == byte) text.now }
{
    if !text.is_empty() && text[0] == byte {
        return Some(0);
    }
    memchr(byte, text)
}

fn blank_in(text: &[u8]) -> Option<usize>
    ensures { result ≡ position is_blank text.now }
{
    text.iter().position(|byte| blank(*byte))
}

fn word_in(text: &[u8]) -> Option<usize>
    ensures { result ≡ position (λ byte. not (is_blank byte)) text.now }
{
    text.iter().position(|byte| !blank(*byte))
}

/// The first line, and what is behind its line feed.
pub(crate) fn cut_line(bytes: &[u8]) -> (&[u8], &[u8])
    requires { 0 < length bytes.now }
    ensures cut { lines_in bytes.now ≡ result.0.now ∷ lines_in result.1.now }
    ensures behind { result.1.now ≡ after_feed bytes.now }
    ensures shorter { length result.1.now < length bytes.now }
{
    match place_of(b'\n', bytes) {
        Some(end) => {
            let (line, rest) = bytes.split_at(end);
            let (_, rest) = rest.split_at(1);
            (line, rest)
        }
        None => bytes.split_at(bytes.len()),
    }
}

fn without_return(text: &[u8]) -> &[u8]
    ensures { result.now ≡ strip_carriage_return text.now }
{
    match text {
        [front @ .., b'\r'] => front,
        _ => text,
    }
}

fn without_comment(text: &[u8]) -> &[u8]
    ensures { result.now ≡ before_first (λ byte. byte == 35) text.now }
{
    match place_of(b'#', text) {
        Some(end) => text.split_at(end).0,
        None => text,
    }
}

/// What a line says: without its carriage return and its comment.
pub(crate) fn what_is_said(text: &[u8]) -> &[u8]
    ensures { result.now ≡ said text.now }
{
    without_comment(without_return(text))
}

/// The text from its first word on.
pub(crate) fn from_word(text: &[u8]) -> &[u8]
    ensures same { words_in result.now ≡ words_in text.now }
    ensures starts { 0 < length result.now → is_blank (slice_index result.now 0) ≡ false }
{
    match word_in(text) {
        Some(start) => text.split_at(start).1,
        None => text.split_at(text.len()).1,
    }
}

/// The first word, of two bytes with a space on either side, as most cards stand in a line, and what is behind it. Where
/// `None` is answered the first word may still be one.
pub(crate) fn cut_two(text: &[u8]) -> Option<(&[u8], &[u8])>
    ensures { IfSome result (λ cut. words_in text.now ≡ cut.0.now ∷ words_in cut.1.now) }
{
    if text.len() < 4 || text[0] != b' ' || text[3] != b' ' || blank(text[1]) || blank(text[2]) {
        return None;
    }
    let (_, text) = text.split_at(1);
    Some(text.split_at(2))
}

/// The text behind a space at its front, where there is one.
#[tactic(auto, using(crate::proofs::Cuts::space_dropped))]
pub(crate) fn behind_space(text: &[u8]) -> &[u8]
    ensures { words_in result.now ≡ words_in text.now }
{
    if !text.is_empty() && text[0] == b' ' {
        text.split_at(1).1
    } else {
        text
    }
}

/// What is behind this word, where it is the first, with at most one space before it. Where `None` is answered the first
/// word may still be this one.
pub(crate) fn cut_key<'a>(text: &'a [u8], key: &[u8]) -> Option<&'a [u8]>
    requires { IsPlainWord key.now }
    ensures { IfSome result (λ rest. words_in text.now ≡ key.now ∷ words_in rest.now) }
{
    let rest = behind_space(text).strip_prefix(key)?;
    if rest.is_empty() || blank(rest[0]) {
        Some(rest)
    } else {
        None
    }
}

/// The first word, and what is behind it.
pub(crate) fn cut_word(text: &[u8]) -> (&[u8], &[u8])
    requires some { 0 < length text.now }
    requires starts { is_blank (slice_index text.now 0) ≡ false }
    ensures { words_in text.now ≡ result.0.now ∷ words_in result.1.now }
{
    match blank_in(text) {
        Some(end) => text.split_at(end),
        None => text.split_at(text.len()),
    }
}
