//! The words of exceptions.

ghost use Rattle.std.specs.Prelude.{◌≡◌, Some, None, ◌&&◌, if◌then◌else◌};
ghost use Rattle.vp_card.specs.Cards.{in_deck, rises};
ghost use Rattle.vp_suit.specs.Classes.{is_representative};
ghost use Rattle.vp_rule.specs.Reading.{exception_of};

use vp_card::{Card, Hand, rising_hand};
use vp_pay::five_cards;
use vp_suit::is_representative;
use vp_text::{Words, key_word, next_number_within};

/// The hand of five cards of the deck that stand in rising order and are the representative of their class.
fn representative(cards: [Card; 5], deck: u8) -> Option<Hand>
    ensures { result ≡ (if (rises cards && in_deck deck cards) && is_representative cards then Some cards else None) }
{
    let hand = rising_hand(cards, deck)?;
    if is_representative(&hand) {
        Some(hand)
    } else {
        None
    }
}

/// The exception that these words spell, with the cards of a deck of so many.
#[tactic(auto, unfolding(crate::specs::Reading::exception_of))]
pub(crate) fn exception_of(words: &mut Words, deck: u8) -> Option<(Hand, u8)>
    ensures { result ≡ exception_of deck words.old.words }
{
    key_word(words, b"except")?;
    let cards = five_cards(words)?;
    let mask = next_number_within(words, 0, 31)?;
    words.end()?;
    let hand = representative(cards, deck)?;
    Some((hand, mask as u8))
}
