//! The printed holds of all classes, kept for one line after another.

ghost use Rattle.std.specs.Prelude.{◌≡◌, ◌<◌, ◌≤◌, IfSome, length};
ghost use Rattle.vp_pay.specs.Bets.{IsBet};
ghost use Rattle.vp_sets.specs.Sets.{choose};
ghost use Rattle.vp_count.specs.Table.{first_word};
ghost use Rattle.vp_draws.specs.Draws.{sum_of_best};
ghost use Rattle.vp_hits.specs.Hits.{often};
ghost use Rattle.vp_hits.specs.Numbers.{AreMasks};

use crate::pair_hits::PairHits;
use std::marker::Model;
use vp_hold::Game;
use vp_pay::PayTable;
use vp_suit::Classes;

/// A bet on a pay table, with the least best mask of each class, and the sum of the best values of all deals.
#[derive(Drop)]
pub(crate) struct PrintedHolds<'a> {
    table: &'a PayTable,
    coin: u8,
    sum: u64,
    masks: &'a [u64],
}

impl<'a> Model for PrintedHolds<'a> {
    ghost use Rattle.vp_hits.specs.Numbers.{IsPrinted, Printed};

    ghost Value = { Printed };

    ghost view = { λ p. record { table = p.table.now; coin = p.coin; words = p.masks.now } };

    ghost invariant = { λ p.
        IsPrinted (record { table = p.table.now; coin = p.coin; words = p.masks.now }) p.sum };
}

impl<'a> PrintedHolds<'a> {
    /// The printed holds of a bet, kept in `masks`. The sums of the payments are made in `words`, which are free again behind
    /// the call. Both may hold any numbers.
    pub(crate) fn of(
        table: &'a PayTable,
        coin: u8,
        words: &mut [u64],
        masks: &'a mut [u64],
    ) -> PrintedHolds<'a>
        requires bet { IsBet table.now coin }
        requires long { length words.old ≡ first_word table.now.deck 6 }
        requires room { choose table.now.deck 5 ≤ length masks.old }
        ensures table { result.table ≡ table.now }
        ensures coin { result.coin ≡ coin }
    {
        let game = Game::of(table, coin, words);
        let sum = write_masks(&game, masks);
        PrintedHolds {
            table,
            coin,
            sum,
            masks,
        }
    }

    /// The sum of the best values of all deals.
    pub(crate) fn sum_of_best(&self) -> u64
        ensures { result ≡ sum_of_best self.now.table self.now.coin }
    {
        self.sum
    }

    /// How often each of two lines comes under the printed holds. Their sums are made in `words`.
    pub(crate) fn often(
        &self,
        first: Option<u8>,
        second: Option<u8>,
        words: &mut [u64],
    ) -> (u128, u128)
        requires one { IfSome first (λ place. place < length self.now.table.lines.items) }
        requires other { IfSome second (λ place. place < length self.now.table.lines.items) }
        requires long { length words.old ≡ first_word self.now.table.deck 6 }
        ensures first { result.0 ≡ often self.now.table self.now.coin first }
        ensures second { result.1 ≡ often self.now.table self.now.coin second }
    {
        let hits = PairHits::of(self.table, first, second, words);
        let mut classes = Classes::new(self.table.deck);
        let mut place = 0;
        let mut one = 0;
        let mut other = 0;
        while let Some(class) = classes.next() {
            let weights = hits.weights(&class.hand, self.masks[place] as u8);
            one += u128::from(class.weight) * u128::from(weights.0);
            other += u128::from(class.weight) * u128::from(weights.1);
            place += 1;
        }
        (one, other)
    }
}

/// Writes the least best mask of each class, by rising index; the sum of the best values of all deals.
fn write_masks(game: &Game, masks: &mut [u64]) -> u64
    requires { choose game.now.table.deck 5 ≤ length masks.old }
    ensures masks { AreMasks game.now.table game.now.coin masks.new }
    ensures sum { result ≡ sum_of_best game.now.table game.now.coin }
{
    let mut classes = Classes::new(game.table().deck);
    let mut place = 0;
    let mut sum = 0;
    while let Some(class) = classes.next() {
        let best = game.best(&class.hand);
        masks[place] = u64::from(best.mask);
        sum += u64::from(class.weight) * best.value;
        place += 1;
    }
    sum
}
