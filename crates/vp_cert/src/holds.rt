//! The best holds of a pay table for a bet, as a game or any other source may tell them.

ghost use Rattle.std.specs.Prelude.{◌≡◌, ◌<◌, ◌≤◌, ℕ, true};
ghost use Rattle.vp_card.specs.Cards.{in_deck};
ghost use Rattle.vp_pay.specs.Table.{IsTable};
ghost use Rattle.vp_pay.specs.declared.table.PayTable.{PayTable};
ghost use Rattle.vp_draws.specs.Draws.{best, least_best, ties};
ghost use Rattle.vp_io.specs.Causes.{last_count, one_more};

use vp_card::Hand;
use vp_draws::Best;
use vp_pay::PayTable;

/// Tells the best holds of the hands of a pay table's deck for a bet, and counts how often it was asked.
pub trait Holds {
    /// The pay table.
    ghost pays: { Self → PayTable };

    /// The number of coins bet.
    ghost bet: { Self → ℕ };

    /// How many best holds were asked for. It stands still at 2^64 - 1.
    ghost asked: { Self → ℕ };

    /// The pay table.
    fn table(&self) -> &PayTable
        ensures table { result.now ≡ pays self.now }
        ensures rules { IsTable (pays self.now) };

    /// The number of coins bet, which the table has.
    fn coin(&self) -> u8
        ensures coin { result ≡ bet self.now }
        ensures coin_from { 1 ≤ bet self.now }
        ensures coin_to { bet self.now ≤ (pays self.now).coins };

    /// The best of the 32 holds of the hand.
    fn best(&mut self, hand: &Hand) -> Best
        requires cards { in_deck (pays self.old).deck hand.now ≡ true }
        ensures hold { result.mask < 32 }
        ensures least_best { result.mask ≡ least_best (pays self.old) (bet self.old) hand.now }
        ensures best { result.value ≡ best (pays self.old) (bet self.old) hand.now }
        ensures ties { result.ties ≡ ties (pays self.old) (bet self.old) hand.now }
        ensures same_table { pays self.new ≡ pays self.old }
        ensures same_coin { bet self.new ≡ bet self.old }
        ensures counted { asked self.new ≡ one_more (asked self.old) }
        ensures ends { asked self.new ≤ last_count };
}
