//! Hands made from the numbers of their cards.

ghost use Rattle.std.specs.Prelude.{◌≡◌, ◌<◌, length};
ghost use Rattle.vp_sets.specs.Index.{IsSet};

use vp_card::{Card, Hand};

/// The hand of these five cards, which rise.
pub fn hand_of(cards: &[u8; 5]) -> Hand
    requires five { length cards.now ≡ 5 }
    requires set { IsSet 54 cards.now }
    ensures { result ≡ cards.now }
{
    Hand::of(cards_of(cards)).unwrap()
}

/// The cards with these numbers.
fn cards_of(cards: &[u8; 5]) -> [Card; 5]
    requires five { length cards.now ≡ 5 }
    requires set { IsSet 54 cards.now }
    ensures { result ≡ cards.now }
{
    let [a, b, c, d, e] = *cards;
    [card(a), card(b), card(c), card(d), card(e)]
}

fn card(number: u8) -> Card
    requires { number < 54 }
    ensures { result ≡ number }
{
    Card::new(number).unwrap()
}
