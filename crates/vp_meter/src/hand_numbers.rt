//! What all sets of five cards are paid by the metered line and by the others, written by rising index.

ghost use Rattle.std.specs.Prelude.{◌≡◌, ℕ, ◌+◌, ◌≤◌, ◌<◌, List, length, map, slice_index};
ghost use Rattle.std.specs.List.{All};
ghost use Rattle.vp_pay.specs.Bets.{IsBet};
ghost use Rattle.vp_pay.specs.declared.table.PayTable.{PayTable};
ghost use Rattle.vp_sets.specs.Sets.{choose};
ghost use Rattle.vp_count.specs.Sums.{hand_numbers};
ghost use Rattle.vp_hold.specs.Numbers.{AreNumbers, by_line, place_among};
ghost use Rattle.vp_meter.specs.Metered.{base_pay, hit};

use std::sync::ledger::Ledger;
use vp_hold::{payments_of, write_numbers};
use vp_pay::PayTable;
use vp_wild::Steps;

/// Writes, at the index of each set of five cards of the deck, what the hand is paid by the other lines, and whether it is
/// paid by the line at `place`. Each hand is ranked once for both: one step of the counter.
pub(crate) fn write_parts<L: Ledger>(
    table: &PayTable,
    coin: u8,
    place: u8,
    base: &mut [u64],
    hits: &mut [u64],
    steps: &mut Steps<L>,
)
    requires bet { IsBet table.now coin }
    requires inside { place < length table.now.lines.items }
    requires long { length base.old ≡ choose table.now.deck 5 }
    requires also { length hits.old ≡ choose table.now.deck 5 }
    ensures base { base.new ≡ hand_numbers table.now.deck (base_pay table.now coin place) }
    ensures hits { hits.new ≡ hand_numbers table.now.deck (hit table.now place) }
    ensures steps { steps.new ≡ steps.old + choose table.now.deck 5 }
{
    write_numbers(table, &line_places(), hits, steps);
    base.copy_from_slice(hits);
    renumber(&base_numbers(table, coin, place), base);
    renumber(&hit_numbers(place), hits);
}

/// The place of each line, and of none.
fn line_places() -> [u64; 33]
    ensures { AreNumbers place_among result }
{
    let mut places = [0; 33];
    for place in 0..33usize {
        places[place] = place as u64;
    }
    places
}

/// What each line pays, but the one at the place, and none.
fn base_numbers(table: &PayTable, coin: u8, place: u8) -> [u64; 33]
    requires some { 1 ≤ coin }
    requires most { coin ≤ 5 }
    requires inside { place < 32 }
    ensures { (hand : List ℕ) → by_line table.now result hand ≡ base_pay table.now coin place hand }
{
    let mut numbers = payments_of(table, coin);
    numbers[usize::from(place)] = 0;
    numbers
}

/// 1 for the line at the place, and 0 for all others and for none.
fn hit_numbers(place: u8) -> [u64; 33]
    requires { place < 32 }
    ensures { (table : PayTable) (hand : List ℕ) → by_line table result hand ≡ hit table place hand }
{
    let mut numbers = [0; 33];
    numbers[usize::from(place)] = 1;
    numbers
}

/// Puts, for each place among the numbers, the number that stands there.
fn renumber(numbers: &[u64; 33], words: &mut [u64])
    requires many { length numbers.now ≡ 33 }
    requires inside { All (λ x. x ≤ 32) words.old }
    ensures { words.new ≡ map (slice_index numbers.now) words.old }
{
    for index in 0..words.len() {
        words[index] = numbers[words[index] as usize];
    }
}
