//! The indexes of the held cards of all 32 holds of a hand.

ghost use Rattle.std.specs.Prelude.{◌≡◌, ◌+◌, ◌*◌, ◌^◌, ◌<◌, ◌≤◌, length};
ghost use Rattle.vp_sets.specs.Index.{IsSet};
ghost use Rattle.vp_count.specs.HeldMasks.{HoldsMany, Indexed};

use vp_sets::choose;

/// How many cards the mask holds.
pub(crate) fn cards_held(mask: usize) -> u8
    requires { mask < 32 }
    ensures many { HoldsMany mask result }
    ensures few { result ≤ 5 }
{
    mask.count_ones() as u8
}

/// For each mask the index of the held cards among all sets of as many.
pub(crate) fn held_indexes(hand: &[u8; 5]) -> [u32; 32]
    requires { IsSet 54 hand.now }
    ensures { Indexed hand.now result 32 }
{
    let mut indexes = [0; 32];
    let mut bit = 1;
    for place in 0..5usize {
        hold_next(hand, place, bit, &mut indexes);
        bit *= 2;
    }
    indexes
}

/// From the masks of the cards before the place, to those of one card more: the card at the place is held, behind the
/// others.
fn hold_next(hand: &[u8; 5], place: usize, bit: usize, indexes: &mut [u32; 32])
    requires set { IsSet 54 hand.now }
    requires five { length hand.now ≡ 5 }
    requires place { place < 5 }
    requires bit { bit ≡ 2 ^ place }
    requires so_far { Indexed hand.now indexes.old bit }
    ensures { Indexed hand.now indexes.new (bit * 2) }
{
    let card = hand[place];
    for low in 0..bit {
        let size = cards_held(low) + 1;
        indexes[bit + low] = indexes[low] + choose(card, size) as u32;
    }
}
