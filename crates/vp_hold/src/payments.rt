//! The means of the payments of all sets of five cards.

ghost use Rattle.std.specs.Prelude.{◌≡◌, ℕ, ◌+◌, ◌≤◌, List, length};
ghost use Rattle.std.specs.List.{All};
ghost use Rattle.vp_pay.specs.Bets.{IsBet};
ghost use Rattle.vp_sets.specs.Sets.{choose};
ghost use Rattle.vp_count.specs.Table.{AreSumsOf, first_word};
ghost use Rattle.vp_hold.specs.Numbers.{by_line};
ghost use Rattle.vp_wild.specs.Payment.{pay};

use crate::{HoldMeans, number_means};
use std::sync::ledger::Ledger;
use vp_pay::PayTable;
use vp_wild::{Steps, paid};

/// The means of the payments of all hands of the deck, made in `words`. One step of the counter for each hand.
pub(crate) fn payment_means<'a, L: Ledger>(
    table: &PayTable,
    coin: u8,
    words: &'a mut [u64],
    steps: &mut Steps<L>,
) -> HoldMeans<'a>
    requires bet { IsBet table.now coin }
    requires long { length words.old ≡ first_word table.now.deck 6 }
    ensures sums { AreSumsOf table.now.deck (pay table.now coin) result }
    ensures steps { steps.new ≡ steps.old + choose table.now.deck 5 }
{
    number_means(table, &payments_of(table, coin), words, steps)
}

/// What each pay line pays for a bet, and none.
pub fn payments_of(table: &PayTable, coin: u8) -> [u64; 33]
    requires some { 1 ≤ coin }
    requires most { coin ≤ 5 }
    ensures bounded { All (λ x. x ≤ 250000000000) result }
    ensures paid { (hand : List ℕ) → by_line table.now result hand ≡ pay table.now coin hand }
{
    let mut pays = [0; 33];
    for place in 0..table.lines.len() {
        pays[place] = u64::from(paid(table, coin, Some(place as u8)));
    }
    pays
}
