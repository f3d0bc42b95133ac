//! The representative of a hand's class, and the weight of the class.

ghost use Rattle.std.specs.Prelude.{◌≡◌, ◌≢◌, ℕ, ◌<◌, ◌≤◌};
ghost use Rattle.vp_card.specs.Cards.{IsHand};
ghost use Rattle.vp_sets.specs.Index.{set_index};
ghost use Rattle.vp_suit.specs.Turns.{turn};
ghost use Rattle.vp_suit.specs.Classes.{is_representative, least_turn, representative, weight};

use crate::deal::Deal;
use crate::{SuitTurn, turn};
use vp_card::Hand;

/// The representative of the hand's class, and the least turn that gives it.
pub fn least_image(hand: &Hand) -> (Hand, SuitTurn)
    ensures representative { result.0 ≡ representative hand.now }
    ensures turn { result.1 ≡ least_turn hand.now }
    // It is the image by this turn, and no image has a lower index.
    ensures image { result.0 ≡ turn result.1 hand.now }
    ensures least { (t : ℕ) → t < 24 → set_index result.0 ≤ set_index (turn t hand.now) }
    // No lesser turn gives it.
    ensures first { (t : ℕ) → t < result.1 → turn t hand.now ≢ result.0 }
    ensures hand { IsHand hand.now }
{
    if is_representative(hand) {
        return (*hand, SuitTurn::first());
    }
    least_of_images(hand)
}

/// The same, by a search through the turns.
fn least_of_images(hand: &Hand) -> (Hand, SuitTurn)
    ensures representative { result.0 ≡ representative hand.now }
    ensures turn { result.1 ≡ least_turn hand.now }
    ensures hand { IsHand hand.now }
{
    let mut t = SuitTurn::first();
    let mut image = turn(t, hand);
    while !is_representative(&image) {
        t = t.following();
        image = turn(t, hand);
    }
    (image, t)
}

/// Whether the hand is the representative of its class.
pub fn is_representative(hand: &Hand) -> bool
    ensures value { result ≡ is_representative hand.now }
    ensures hand { IsHand hand.now }
{
    Deal::of(&hand.numbers()).stands()
}

/// The weight of the hand's class: the number of its different images.
pub fn weight(hand: &Hand) -> u8
    ensures { result ≡ weight hand.now }
{
    let (image, _) = least_image(hand);
    Deal::of(&image.numbers()).weight()
}
