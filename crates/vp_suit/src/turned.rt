//! Turned hands, and masks that are carried along.

ghost use Rattle.std.specs.Prelude.{◌≡◌, ◌<◌, ◌==◌, if◌then◌else◌, map};
ghost use Rattle.std.specs.List.{list_any};
ghost use Rattle.vp_card.specs.Cards.{IsHand, held};
ghost use Rattle.vp_sets.specs.Sets.{has};
ghost use Rattle.vp_sets.specs.Draws.{discarded};
ghost use Rattle.vp_sets.specs.Draws.{mask_of};
ghost use Rattle.vp_suit.specs.Turns.{turned, turn, carried};

use crate::SuitTurn;
use vp_card::{Card, Hand};

/// The hand of the turned cards.
pub fn turn(t: SuitTurn, hand: &Hand) -> Hand
    ensures value { result ≡ turn t hand.now }
    ensures turn { t < 24 }
    ensures hand { IsHand hand.now }
{
    Hand::of(cards(t, hand)).unwrap()
}

/// The turned cards, each at its own card's place.
fn cards(t: SuitTurn, hand: &Hand) -> [Card; 5]
    ensures value { result ≡ map (λ card. turned t card) hand.now }
    ensures turn { t < 24 }
    ensures hand { IsHand hand.now }
{
    let _ = t.number();
    let [a, b, c, d, e] = hand.numbers();
    [card(t, a), card(t, b), card(t, c), card(t, d), card(t, e)]
}

fn card(t: SuitTurn, number: u8) -> Card
    requires { number < 54 }
    ensures { result ≡ turned t number }
{
    Card::new(t.of_card(number)).unwrap()
}

/// The mask over the turned hand that holds the turned cards.
pub fn carry(t: SuitTurn, hand: &Hand, mask: u8) -> u8
    ensures value { result ≡ carried t hand.now mask }
    ensures mask { result < 32 }
    // What is held of the turned hand are the turned held cards, and likewise for the discards.
    ensures held { held result (turn t hand.now) ≡ turn t (held mask hand.now) }
    ensures discarded { discarded result (turn t hand.now) ≡ turn t (discarded mask hand.now) }
{
    let kept = hand.held(mask);
    mask_of(t, &kept, &turn(t, hand).numbers())
}

/// The mask that holds, of these numbers, those of the turned cards.
fn mask_of(t: SuitTurn, cards: &[Card], numbers: &[u8; 5]) -> u8
    ensures value { result ≡ mask_of (map (λ card. turned t card) cards.now) numbers.now }
    ensures below { result < 32 }
{
    let [a, b, c, d, e] = *numbers;
    let low = bit(t, cards, a) + 2 * bit(t, cards, b) + 4 * bit(t, cards, c);
    low + 8 * bit(t, cards, d) + 16 * bit(t, cards, e)
}

/// 1 where one of the cards turns into the card of this number.
fn bit(t: SuitTurn, cards: &[Card], number: u8) -> u8
    ensures value { result ≡ (if has (map (λ card. turned t card) cards.now) number then 1 else 0) }
    ensures below { result < 2 }
{
    if some_turns_into(t, cards, number) {
        1
    } else {
        0
    }
}

fn some_turns_into(t: SuitTurn, cards: &[Card], number: u8) -> bool
    ensures { result ≡ list_any (λ card. turned t card == number) cards.now }
{
    cards.iter().any(|card| t.of_card(card.number()) == number)
}
