//! A card: its number.

ghost use Rattle.std.specs.Prelude.{◌≡◌, ◌↔◌, ℕ, ◌<◌, Some, None, IfSome, IsTrue, if◌then◌else◌, nat_lt};
ghost use Rattle.vp_card.specs.Cards.{IsDeck, is_deck, in_deck};
ghost use Rattle.vp_card.specs.Texts.{card_text};
ghost use Rattle.vp_card.specs.Reading.{card_of};

use crate::ranks::{rank_letter, rank_of, suit_letter, suit_of};
use std::marker::Model;

/// A card: for a natural card 4 times its rank and its suit, and 52 and 53 for the jokers `Jo` and `Jk`.
///
/// Ranks 2, 3, .., 9, T, J, Q, K, A are 0 to 12, and suits c, d, h, s are 0 to 3. Cards are ordered by their numbers.
#[derive(Clone, Copy, Debug, Default, PartialEq, Eq, PartialOrd, Ord)]
pub struct Card(u8);

impl Model for Card {
    ghost use Rattle.std.specs.Prelude.{ℕ, ◌<◌};

    ghost Value = { ℕ };

    ghost view = { λ c. c.0 };

    ghost invariant = { λ c. c.0 < 54 };

    ghost inverse = { λ n. record { 0 = n } };
}

impl Card {
    /// The card with this number.
    pub fn new(number: u8) -> Option<Card>
        ensures { result ≡ (if nat_lt number 54 then Some number else None) }
    {
        if number < 54 {
            Some(Card(number))
        } else {
            None
        }
    }

    /// The card's number, 0 to 53.
    pub fn number(self) -> u8
        ensures value { result ≡ self }
        ensures below { result < 54 }
    {
        self.0
    }

    /// The card with this text: the letter of its rank and of its suit, as `2c` .. `As`, or `Jo` and `Jk` for the jokers.
    pub fn read(text: &[u8]) -> Option<Card>
        // What is read has that text.
        ensures found { IfSome result (λ card. card_text card ≡ text.now) }
        // Each card is read from its text.
        ensures only { (card : ℕ) → card < 54 → card_text card ≡ text.now → result ≡ Some card }
        ensures exact { result ≡ card_of text.now }
    {
        card_of(text)
    }

    /// The card's text, which `read` takes.
    #[tactic(auto, unfolding(crate::specs::Texts::card_text, crate::specs::Texts::joker_text, crate::specs::Texts::second_joker_text))]
    pub fn text(self) -> [u8; 2]
        ensures { result ≡ card_text self }
    {
        if self.0 < 52 {
            [rank_letter(self.0 / 4), suit_letter(self.0 % 4)]
        } else if self.0 == 52 {
            *b"Jo"
        } else {
            *b"Jk"
        }
    }

    /// The card with this number, which is known to be one.
    pub(crate) fn at(number: u8) -> Card
        requires { number < 54 }
        ensures { result ≡ number }
    {
        Card(number)
    }
}

#[tactic(auto, unfolding(crate::specs::Reading::card_of, crate::specs::Texts::joker_text, crate::specs::Texts::second_joker_text))]
fn card_of(text: &[u8]) -> Option<Card>
    ensures { result ≡ card_of text.now }
{
    match text {
        [b'J', b'o'] => Some(Card(52)),
        [b'J', b'k'] => Some(Card(53)),
        [rank, suit] => {
            let rank = rank_of(*rank)?;
            let suit = suit_of(*suit)?;
            Some(Card(4 * rank + suit))
        }
        _ => None,
    }
}

/// Whether there is a deck of so many cards: the 52 natural cards, these and the joker `Jo`, or these and both jokers.
pub fn is_deck(cards: u8) -> bool
    ensures value { result ≡ is_deck cards }
    ensures deck { IsTrue result ↔ IsDeck cards }
{
    (52..=54).contains(&cards)
}

/// Whether each card is of the deck of so many cards, which are those with the lowest numbers.
pub fn in_deck(cards: &[Card], deck: u8) -> bool
    ensures { result ≡ in_deck deck cards.now }
{
    cards.iter().all(|card| card.number() < deck)
}

/// Two cards with one text are one card.
pub fn card_texts_differ()
    ensures { (a b : ℕ) → a < 54 → b < 54 → card_text a ≡ card_text b → a ≡ b }
{}
