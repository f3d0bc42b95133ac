//! Sums over all draws of a hold, by inclusion and exclusion over the subsets of its discards.

ghost use Rattle.std.specs.Prelude.{◌≡◌, ◌+◌, ◌/◌, ◌%◌, ◌^◌, ◌<◌, ◌≤◌, ◌++◌, ℕ, length, slice_index, take};
ghost use Rattle.vp_card.specs.Cards.{held};
ghost use Rattle.vp_sets.specs.Draws.{discarded};
ghost use Rattle.vp_sets.specs.Index.{IsSet};
ghost use Rattle.vp_count.specs.Sums.{AreTotals, part, spread};
ghost use Rattle.vp_count.specs.HeldMasks.{IsOneBit};

use crate::Sums;

/// The sum of the numbers of the final hands of all draws: the held cards with each set of replacements.
/// Bit `i` of the mask holds the card at place `i`.
pub fn held_total<T: Sums>(sums: &mut T, hand: &[u8; 5], mask: u8) -> u64
    requires hand { IsSet (T.size sums.old) hand.now }
    requires mask { mask < 32 }
    ensures total { result ≡ spread (T.size sums.old) (T.numbers sums.old) hand.now mask }
    // At most two reads for each discard, multiplied.
    ensures reads { T.reads sums.new ≤ T.reads sums.old + 2 ^ length (discarded mask hand.now) }
    ensures same_size { T.size sums.new ≡ T.size sums.old }
    ensures same_numbers { T.numbers sums.new ≡ T.numbers sums.old }
{
    held_part(sums, [0; 5], 0, hand, mask)
}

/// The sum over the sets of five that contain the first `count` of the chosen cards and the held cards of the rest,
/// and none of the discards of the rest.
fn held_part<T: Sums>(sums: &mut T, chosen: [u8; 5], count: usize, rest: &[u8], mask: u8) -> u64
    requires room { count + length rest.now ≤ 5 }
    requires set { IsSet (T.size sums.old) (take count chosen ++ rest.now) }
    ensures total { result ≡ part (T.size sums.old) (T.numbers sums.old) (take count chosen) rest.now mask }
    ensures reads { T.reads sums.new ≤ T.reads sums.old + 2 ^ length (discarded mask rest.now) }
    ensures same_size { T.size sums.new ≡ T.size sums.old }
    ensures same_numbers { T.numbers sums.new ≡ T.numbers sums.old }
{
    let Some((card, later)) = rest.split_first() else {
        return sums.at(&chosen[..count]);
    };
    let mut more = chosen;
    more[count] = *card;
    if mask % 2 == 1 {
        return held_part(sums, more, count + 1, later, mask / 2);
    }
    let free = held_part(sums, chosen, count, later, mask / 2);
    free - held_part(sums, more, count + 1, later, mask / 2)
}

/// The sums of the numbers of the final hands for all 32 holds of the hand; the place of each is its mask.
pub fn all_totals<T: Sums>(sums: &mut T, hand: &[u8; 5]) -> [u64; 32]
    requires { IsSet (T.size sums.old) hand.now }
    ensures totals { AreTotals (T.size sums.old) (T.numbers sums.old) hand.now result }
    ensures reads { T.reads sums.new ≤ T.reads sums.old + 32 }
    ensures same_size { T.size sums.new ≡ T.size sums.old }
    ensures same_numbers { T.numbers sums.new ≡ T.numbers sums.old }
{
    let mut totals = sums.held_sums(hand);
    let mut bit = 1;
    for _place in 0..5u32 {
        leave_out(&mut totals, bit);
        bit *= 2;
    }
    totals
}

/// Takes from each entry without the bit the entry with it. The masks without it stand in runs of as many.
fn leave_out(totals: &mut [u64; 32], bit: u8)
    requires bit { 0 < bit }
    requires one { IsOneBit bit }
    requires within { (mask : ℕ) → mask < 32 → mask / bit % 2 ≡ 0 → mask + bit < 32 }
    requires part { (mask : ℕ) → mask < 32 → mask / bit % 2 ≡ 0
        → slice_index totals.old (mask + bit) ≤ slice_index totals.old mask }
    ensures discarded { (mask : ℕ) → mask < 32 → mask / bit % 2 ≡ 0
        → slice_index totals.new mask + slice_index totals.old (mask + bit) ≡ slice_index totals.old mask }
    ensures held { (mask : ℕ) → mask < 32 → mask / bit % 2 ≡ 1
        → slice_index totals.new mask ≡ slice_index totals.old mask }
{
    let mut base = 0;
    while base < 32 {
        for mask in base..base + bit {
            totals[mask as usize] -= totals[(mask + bit) as usize];
        }
        base += 2 * bit;
    }
}
