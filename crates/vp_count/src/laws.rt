//! Laws of sums over sets of five cards.

ghost use Rattle.vp_count.specs.Laws.{DrawsExcludeDiscards, LevelsAddUp, NothingIsExcluded, NumbersAreOfHands, OneIsExcluded, SpreadIsSumOverDraws};

/// A law, for proofs: how a table is filled. The sums of the sets with one card more add up to a multiple of the
/// set's own.
pub fn levels_add_up()
    ensures { LevelsAddUp }
{}

/// A law, for proofs: inclusion and exclusion. From the sums over the sets that contain some cards, one card after
/// another is left out, and what is left are the final hands of a hold's draws.
pub fn discards_are_excluded()
    ensures none { NothingIsExcluded }
    ensures one { OneIsExcluded }
    ensures draws { DrawsExcludeDiscards }
{}

/// A law, for proofs: numbers given by a function of the hand stand at the hands' indexes, so the sum over all draws
/// of the number at the final hand's index is the sum over all draws of the function.
pub fn hand_numbers_are_summed()
    ensures number { NumbersAreOfHands }
    ensures draws { SpreadIsSumOverDraws }
{}
