//! The words of a class line.

ghost use Rattle.std.specs.Prelude.{◌≡◌};
ghost use Rattle.vp_check.specs.Reading.{class_of};

use crate::ClassLine;
use vp_card::rising_hand;
use vp_pay::five_cards;
use vp_text::{Words, key_word, next_number, next_number_within};

/// The class line that these words spell, of a deck of so many cards.
#[tactic(auto, unfolding(crate::specs::Reading::class_of))]
pub(crate) fn class_of(words: &mut Words, deck: u8) -> Option<ClassLine>
    ensures { result ≡ class_of deck words.old.words }
{
    key_word(words, b"class")?;
    let cards = five_cards(words)?;
    let weight = next_number_within(words, 1, 24)?;
    let mask = next_number_within(words, 0, 31)?;
    let value = next_number(words)?;
    words.end()?;
    let hand = rising_hand(cards, deck)?;
    Some(ClassLine {
        hand,
        weight: weight as u8,
        mask: mask as u8,
        value,
    })
}
