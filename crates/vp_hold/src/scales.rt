//! From the totals of holds to their values.

ghost use Rattle.vp_card.specs.Cards.{IsDeck};
ghost use Rattle.vp_hold.specs.Means.{AreScales};

use vp_sets::scale;

/// By what the total of each hold is multiplied, to stand over the common denominator of a deck of `n` cards; the
/// place of each is its mask.
pub(crate) fn hold_scales(n: u8) -> [u64; 32]
    requires { IsDeck n }
    ensures { AreScales n result }
{
    let mut scales = [0; 32];
    for mask in 0..32u8 {
        scales[mask as usize] = scale(n, 5 - mask.count_ones() as u8);
    }
    scales
}
