//! How often all lines of a table come.

ghost use Rattle.std.specs.Prelude.{◌≡◌, ◌<◌, ℕ, Some, None, IfSome, length, slice_index};
ghost use Rattle.vp_pay.specs.Bets.{IsBet};
ghost use Rattle.vp_count.specs.Table.{first_word};
ghost use Rattle.vp_draws.specs.Draws.{sum_of_best};
ghost use Rattle.vp_hits.specs.Hits.{often};
ghost use Rattle.vp_hits.specs.Numbers.{asked_at};

use crate::printed_holds::PrintedHolds;
use vp_pay::PayTable;

/// How often the lines of a table come under the printed holds, over the number of deals times the common denominator.
#[derive(Clone, Copy, Debug, PartialEq, Eq)]
pub struct LineCounts {
    /// Of each line, by its place. What stands behind the lines of the table means nothing.
    pub lines: [u128; 34],
    /// Of the hands that hit no line.
    pub none: u128,
    /// The numerator of the return: the sum of the best values of all deals.
    pub value: u64,
}

/// How often each line of the table comes, for a bet of `coin`. All sums are made in `words` and `more`, which may hold any
/// numbers.
pub fn line_counts(table: &PayTable, coin: u8, words: &mut [u64], more: &mut [u64]) -> LineCounts
    requires bet { IsBet table.now coin }
    requires long { length words.old ≡ first_word table.now.deck 6 }
    requires longer { length more.old ≡ first_word table.now.deck 6 }
    ensures lines { (place : ℕ) → place < length table.now.lines.items
        → slice_index result.lines place ≡ often table.now coin (Some place) }
    ensures none { result.none ≡ often table.now coin None }
    ensures value { result.value ≡ sum_of_best table.now coin }
{
    let printed = PrintedHolds::of(table, coin, words, more);
    let many = table.lines.len();
    let mut lines = [0; 34];
    for half in 0..many / 2 + 1 {
        let (one, other) = (asked_at(table, 2 * half), asked_at(table, 2 * half + 1));
        let (first, second) = printed.often(one, other, words);
        lines[2 * half] = first;
        lines[2 * half + 1] = second;
    }
    LineCounts {
        lines,
        none: lines[many],
        value: printed.sum_of_best(),
    }
}

/// The line at a place, and none behind the lines.
#[tactic(auto, unfolding(crate::specs::Numbers::asked_at))]
fn asked_at(table: &PayTable, place: usize) -> Option<u8>
    requires { place < 34 }
    ensures is { result ≡ asked_at table.now place }
    ensures inside { IfSome result (λ place. place < length table.now.lines.items) }
{
    if place < table.lines.len() {
        Some(place as u8)
    } else {
        None
    }
}
