//! A number for each set of five cards, by its pay line, written by rising index, and the means of these.

ghost use Rattle.std.specs.Prelude.{◌≡◌, ◌+◌, ◌<◌, ◌≤◌, IfSome, length, map, slice_index};
ghost use Rattle.std.specs.List.{All};
ghost use Rattle.vp_pay.specs.Table.{IsTable};
ghost use Rattle.vp_sets.specs.Index.{IsSet};
ghost use Rattle.vp_sets.specs.Sets.{choose};
ghost use Rattle.vp_count.specs.Runs.{run};
ghost use Rattle.vp_count.specs.Sums.{hand_numbers};
ghost use Rattle.vp_count.specs.Table.{AreSumsOf, first_word};
ghost use Rattle.vp_hold.specs.Numbers.{number_of, place_among, by_line};

use crate::HoldMeans;
use std::sync::ledger::Ledger;
use vp_pay::PayTable;
use vp_sets::{choose, next_set};
use vp_wild::{KeptLines, Steps};

/// Where the number of the hands with no line stands: behind those of at most 32 lines.
const NO_LINE: u8 = 32;

/// The place of a line, or of none, among the numbers.
pub fn place_of(line: Option<u8>) -> usize
    requires { IfSome line (λ place. place < 32) }
    ensures inside { result < 33 }
    ensures place { result ≡ place_among line }
{
    match line {
        Some(place) => usize::from(place),
        None => usize::from(NO_LINE),
    }
}

/// The means of the numbers of all hands of the deck, made in `words`. One step of the counter for each hand.
pub fn number_means<'a, L: Ledger>(
    table: &PayTable,
    numbers: &[u64; 33],
    words: &'a mut [u64],
    steps: &mut Steps<L>,
) -> HoldMeans<'a>
    requires rules { IsTable table.now }
    requires many { length numbers.now ≡ 33 }
    requires bounded { All (λ x. x ≤ 250000000000) numbers.now }
    requires long { length words.old ≡ first_word table.now.deck 6 }
    ensures sums { AreSumsOf table.now.deck (by_line table.now numbers.now) result }
    ensures steps { steps.new ≡ steps.old + choose table.now.deck 5 }
{
    let hands = choose(table.deck, 5) as usize;
    let first = words.len() - hands;
    write_numbers(table, numbers, &mut words[first..], steps);
    HoldMeans::fill(table.deck, words)
}

/// Writes, at the index of each set of five cards of the deck, the number of the hand's line. One step of the counter for
/// each hand.
pub fn write_numbers<L: Ledger>(
    table: &PayTable,
    numbers: &[u64; 33],
    words: &mut [u64],
    steps: &mut Steps<L>,
)
    requires rules { IsTable table.now }
    requires many { length numbers.now ≡ 33 }
    requires long { length words.old ≡ choose table.now.deck 5 }
    ensures numbers { words.new ≡ hand_numbers table.now.deck (by_line table.now numbers.now) }
    ensures steps { steps.new ≡ steps.old + choose table.now.deck 5 }
{
    let mut kept = KeptLines::new(table);
    let mut upper = [0, 1, 2, 3];
    let mut first = 0;
    for _ in 0..choose(table.deck, 4) {
        let end = first + upper[0] as usize;
        write_run(&mut kept, numbers, &upper, &mut words[first..end], steps);
        first = end;
        next_set(table.deck, &mut upper);
    }
}

/// Writes those of the sets that have the upper four cards and one below them, by rising lowest card.
fn write_run<L: Ledger>(
    kept: &mut KeptLines,
    numbers: &[u64; 33],
    upper: &[u8; 4],
    words: &mut [u64],
    steps: &mut Steps<L>,
)
    requires few { length kept.old.lines.items ≤ 32 }
    requires many { length numbers.now ≡ 33 }
    requires four { length upper.now ≡ 4 }
    requires set { IsSet 54 upper.now }
    requires long { length words.old ≡ slice_index upper.now 0 }
    ensures numbers { words.new ≡ map (by_line kept.old numbers.now) (run upper.now) }
    ensures same { kept.new ≡ kept.old }
    ensures steps { steps.new ≡ steps.old + slice_index upper.now 0 }
{
    let [b, c, d, e] = *upper;
    for low in 0..b {
        let slot = kept.slot(&[low, b, c, d, e], steps);
        words[low as usize] = numbers[slot as usize];
    }
}
