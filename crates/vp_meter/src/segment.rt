//! Segments: which hold of a hand is played from which payment on.

ghost use Rattle.std.specs.Prelude.{◌≡◌, ℕ, ◌≤◌, true};
ghost use Rattle.vp_card.specs.Cards.{in_deck};
ghost use Rattle.vp_meter.specs.Pieces.{climbing};
ghost use Rattle.vp_meter.specs.Segments.{IsInForce, segments, worth};

use crate::Metered;
use crate::hold_lines::segments_of;
use arrayvec::ArrayVec;
use vp_card::Hand;

/// From the payment `from` on the hold `mask` is played. With a payment `x` in the metered line it is worth
/// `base + slope * x` over the common denominator of the deck.
#[derive(Clone, Copy, Debug, Default, PartialEq, Eq)]
pub struct Segment {
    pub from: u32,
    pub mask: u8,
    pub base: u64,
    pub slope: u64,
}

/// The segments of a hand for the payments from `lo` to `hi`. A hold stays in force as long as no other is worth more; where
/// one is, the next segment takes of the holds that are worth most the steepest, and of those the least mask. Slopes strictly
/// rise, so there are at most 32.
pub fn segments(m: &Metered, hand: &Hand, lo: u32, hi: u32) -> ArrayVec<Segment, 32>
    requires cards { in_deck m.now.table.deck hand.now ≡ true }
    requires order { lo ≤ hi }
    requires most { hi ≤ 500000 }
    ensures segments { result.items ≡ segments (worth m.now hand.now) lo hi }
    // Each begins later than the one before, with a base that is not higher and a slope that is higher.
    ensures climbing { climbing result.items ≡ true }
    // At each whole payment of the range the hold in force has the greatest value.
    ensures best { (x : ℕ) → lo ≤ x → x ≤ hi → IsInForce (worth m.now hand.now) x result.items }
{
    segments_of(&m.lines(hand), lo, hi)
}
