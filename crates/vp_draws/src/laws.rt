//! Laws of values and best holds, each the contract of a function that does nothing.

ghost use Rattle.std.specs.Prelude.{ℕ, ◌*◌, ◌^◌, ◌<◌, ◌≤◌, List};
ghost use Rattle.vp_pay.specs.declared.table.PayTable.{PayTable};
ghost use Rattle.vp_pay.specs.Table.{IsTable};
ghost use Rattle.vp_sets.specs.Draws.{common};
ghost use Rattle.vp_suit.specs.Classes.{IsDeal};
ghost use Rattle.vp_draws.specs.Draws.{best, least_best, sum_of_best, total, total2, value, value2};
ghost use Rattle.vp_draws.specs.Laws.{AreKept, AreMeans, BestIsCarried, BestIsKept, BestSumsByClasses, CarriedFrom, HasPrintedHold, LeastBestIsBest, LinesAreKept, NoneExceedsBest, OfEachDeal, OfEachHold, PaymentsAreKept, PrintsLeastBest, SmallerMasksAreLess};

/// The best hold of a deal.
pub fn best_hold_laws()
    ensures mask { (coin : ℕ) (table : PayTable) (cards : List ℕ) → least_best table coin cards < 32 }
    ensures value { LeastBestIsBest }
    // No other hold exceeds it, and each smaller mask is worth less.
    ensures greatest { NoneExceedsBest }
    ensures least { SmallerMasksAreLess }
    // A value over the common denominator is the mean of the payments over all draws: the division in it is exact. So it is for the
    // squares of the payments.
    ensures mean { AreMeans total value }
    ensures mean2 { AreMeans total2 value2 }
    ensures fits2 { OfEachHold (λ mask coin table cards. value2 table coin cards mask < 2 ^ 64) }
    // Best values and their sum over all deals are below 2 to the power of 64.
    ensures bound { OfEachDeal (λ coin table cards. best table coin cards ≤ 500000 * common table.deck) }
    ensures fits { OfEachDeal (λ coin table cards. best table coin cards < 2 ^ 64) }
    ensures sum_fits { (coin : ℕ) (table : PayTable) → IsTable table → sum_of_best table coin < 2 ^ 64 }
{}

/// The hold that is printed for a deal, its least best mask, has an expected payment that no other of the 32 holds exceeds.
pub fn printed_holds_are_best()
    ensures { OfEachDeal PrintsLeastBest }
{}

/// What the 24 turns of the suits keep, where the mask of a hold is carried along.
pub fn values_are_kept_by_turns()
    ensures total { AreKept total }
    ensures value { AreKept value }
    ensures total2 { AreKept total2 }
    ensures value2 { AreKept value2 }
    ensures best { BestIsKept }
    // Summed over the classes by weight, the best values are those of all deals.
    ensures sum { BestSumsByClasses }
    // Whatever is made of the payment or of the pay line, as its square, has the same sum over the draws.
    ensures payments { PaymentsAreKept }
    ensures lines { LinesAreKept }
{}

/// The best holds of a deal, read off those of the representative of its class.
pub fn best_holds_are_carried()
    // A hold that is carried along to a best hold of the representative is a best hold of the deal.
    ensures best { BestIsCarried }
    // Each hold of a turned deal is carried along from one of the deal.
    ensures from { (n t mask : ℕ) (cards : List ℕ) → t < 24 → IsDeal n cards → mask < 32 → CarriedFrom t cards mask }
    // So each deal has a printed hold.
    ensures printed { HasPrintedHold }
{}
