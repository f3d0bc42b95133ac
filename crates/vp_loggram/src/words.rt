//! The words of a game.

ghost use Rattle.std.specs.Prelude.{◌≡◌, ◌&&◌, [], Some, None};
ghost use Rattle.vp_card.specs.Cards.{in_deck};
ghost use Rattle.vp_text.specs.Pieces.{Takes};
ghost use Rattle.vp_loggram.specs.Logs.{is_of_deck};
ghost use Rattle.vp_loggram.specs.Reading.{cards_up_to, event_of};

use crate::Event;
use arrayvec::ArrayVec;
use vp_card::{Card, in_deck};
use vp_pay::five_cards;
use vp_text::{Words, next_number, plain_key_word};

/// Takes at most five cards, and this word behind them.
#[tactic(auto, unfolding(crate::specs::Reading::cards_up_to))]
fn cards_up_to(words: &mut Words, key: &[u8]) -> Option<ArrayVec<Card, 5>>
    ensures { Takes (λ cards. cards.items) result words.new.words (cards_up_to key.now words.old.words) }
{
    let mut cards = ArrayVec::new();
    'cards: while let Some(word) = words.next() {
        if word == key {
            return Some(cards);
        }
        if cards.is_full() {
            return None;
        }
        let Some(card) = Card::read(word) else {
            return None;
        };
        cards.push(card);
    }
    None
}

fn is_of_deck(event: &Event, deck: u8) -> bool
    ensures { result ≡ is_of_deck deck event.now }
{
    in_deck(&event.deal, deck) && in_deck(&event.hold, deck) && in_deck(&event.draw, deck)
}

/// The game that these words spell, with cards of a deck of so many.
#[tactic(auto, unfolding(crate::specs::Reading::event_of))]
pub(crate) fn event_of(words: &mut Words, deck: u8) -> Option<Event>
    ensures { result ≡ event_of deck words.old.words }
{
    plain_key_word(words, b"game")?;
    let bet = next_number(words)?;
    plain_key_word(words, b"deal")?;
    let deal = five_cards(words)?;
    plain_key_word(words, b"hold")?;
    let hold = cards_up_to(words, b"draw")?;
    let draw = cards_up_to(words, b"pay")?;
    let pay = next_number(words)?;
    plain_key_word(words, b"credits")?;
    let credits = next_number(words)?;
    words.end()?;
    let event = Event {
        bet,
        deal,
        hold,
        draw,
        pay,
        credits,
    };
    if is_of_deck(&event, deck) {
        Some(event)
    } else {
        None
    }
}
