//! Words of a pay table that are one value each.

ghost use Rattle.std.specs.Prelude.{◌≡◌};
ghost use Rattle.vp_pay.specs.Reading.{deck_of, wild_of, letter_of_rank, qualifier_of, plain_of};

use crate::{Pattern, Qualifier};
use vp_card::{is_deck, rank_of};
use vp_text::number;

/// The number of cards of a deck that this word says.
#[tactic(auto, unfolding(crate::specs::Reading::deck_of))]
pub(crate) fn deck_of(text: &[u8]) -> Option<u8>
    ensures { result ≡ deck_of text.now }
{
    let cards = u8::try_from(number(text)?).ok()?;
    if is_deck(cards) { Some(cards) } else { None }
}

fn letter_of_rank(text: &[u8]) -> Option<Option<u8>>
    ensures { result ≡ letter_of_rank text.now }
{
    let [letter] = text else {
        return None;
    };
    let rank = rank_of(*letter)?;
    Some(Some(rank))
}

#[tactic(auto, unfolding(crate::specs::Reading::wild_of))]
pub(crate) fn wild_of(text: &[u8]) -> Option<Option<u8>>
    ensures { result ≡ wild_of text.now }
{
    if text == b"none".as_slice() {
        Some(None)
    } else {
        letter_of_rank(text)
    }
}

#[tactic(auto, unfolding(crate::specs::Reading::qualifier_of))]
pub(crate) fn qualifier_of(text: &[u8]) -> Option<Qualifier>
    ensures { result ≡ qualifier_of text.now }
{
    if text == b"either".as_slice() {
        Some(Qualifier::Either)
    } else if text == b"natural".as_slice() {
        Some(Qualifier::Natural)
    } else if text == b"wild".as_slice() {
        Some(Qualifier::Wild)
    } else {
        None
    }
}

#[tactic(auto, unfolding(crate::specs::Reading::plain_of))]
pub(crate) fn plain_of(text: &[u8]) -> Option<Pattern>
    ensures { result ≡ plain_of text.now }
{
    if text == b"royal".as_slice() {
        Some(Pattern::Royal)
    } else if text == b"straight-flush".as_slice() {
        Some(Pattern::StraightFlush)
    } else if text == b"full-house".as_slice() {
        Some(Pattern::FullHouse)
    } else if text == b"flush".as_slice() {
        Some(Pattern::Flush)
    } else if text == b"straight".as_slice() {
        Some(Pattern::Straight)
    } else if text == b"trips".as_slice() {
        Some(Pattern::Trips)
    } else if text == b"two-pair".as_slice() {
        Some(Pattern::TwoPair)
    } else {
        None
    }
}
