//! The values of the 32 holds of a hand, and the best of them.

ghost use Rattle.std.specs.Prelude.{ℕ, ◌≡◌, ◌+◌, ◌*◌, ◌<◌, ◌≤◌, true, List, length, slice_index, sum_by};
ghost use Rattle.vp_card.specs.Cards.{IsHand, in_deck};
ghost use Rattle.vp_pay.specs.Table.{IsTable};
ghost use Rattle.vp_pay.specs.declared.table.PayTable.{PayTable};
ghost use Rattle.vp_sets.specs.Draws.{discarded, draws};
ghost use Rattle.vp_draws.specs.Draws.{IsMean, best, least_best, masks, ties, total, value};
ghost use Rattle.vp_draws.specs.Many.{AreValues};

use crate::walk::total_of;
use std::sync::ledger::Ledger;
use vp_card::Hand;
use vp_pay::PayTable;
use vp_sets::scale;
use vp_wild::{KeptPayments, Steps};

/// The best hold of a hand.
#[derive(Clone, Copy, Debug, PartialEq, Eq)]
pub struct Best {
    /// The least mask of the greatest value; bit `i` holds the card at place `i` of the hand.
    pub mask: u8,
    /// The greatest value: the expected payment times the common denominator of the deck.
    pub value: u64,
    /// How many masks have that value.
    pub ties: u8,
}

/// The value of the hold `mask` for `coin` coins: its expected payment times the common denominator of
/// the deck. One step of the counter for each draw.
pub fn value_of<L: Ledger>(
    table: &PayTable,
    coin: u8,
    hand: &Hand,
    mask: u8,
    steps: &mut Steps<L>,
) -> u64
    requires table { IsTable table.now }
    requires coin_from { 1 ≤ coin }
    requires coin_to { coin ≤ table.now.coins }
    requires cards { in_deck table.now.deck hand.now ≡ true }
    ensures value { result ≡ value table.now coin hand.now mask }
    // Over the common denominator it is the mean of the payments over all draws.
    ensures mean { IsMean table.now.deck hand.now mask (total table.now coin hand.now mask) result }
    ensures steps { steps.new ≡ steps.old + length (draws table.now.deck hand.now mask) }
{
    let mut payments = KeptPayments::new(table, coin);
    hold_value(&mut payments, table.deck, hand, mask, steps)
}

/// The value of a hold of a hand from a deck of `n` cards.
fn hold_value<L: Ledger>(
    payments: &mut KeptPayments,
    n: u8,
    hand: &Hand,
    mask: u8,
    steps: &mut Steps<L>,
) -> u64
    requires table { IsTable payments.old.table }
    requires deck { n ≡ payments.old.table.deck }
    requires cards { in_deck n hand.now ≡ true }
    ensures value { result ≡ value payments.old.table payments.old.coin hand.now mask }
    ensures same { payments.new ≡ payments.old }
    ensures steps { steps.new ≡ steps.old + length (draws n hand.now mask) }
    ensures hand { IsHand hand.now }
{
    let total = total_of(payments, n, hand, mask, steps);
    total * scale(n, cards_drawn(hand, mask))
}

/// How many cards a hold draws.
pub fn cards_drawn(hand: &Hand, mask: u8) -> u8
    ensures drawn { result ≡ length (discarded mask hand.now) }
    ensures few { result ≤ 5 }
    ensures hand { IsHand hand.now }
{
    (hand.numbers().len() - hand.held(mask).len()) as u8
}

/// The best of the 32 holds for `coin` coins, by walking all their draws. One step of the counter for each draw.
pub fn plain_best<L: Ledger>(table: &PayTable, coin: u8, hand: &Hand, steps: &mut Steps<L>) -> Best
    requires table { IsTable table.now }
    requires coin_from { 1 ≤ coin }
    requires coin_to { coin ≤ table.now.coins }
    requires cards { in_deck table.now.deck hand.now ≡ true }
    ensures hold { result.mask < 32 }
    ensures value { result.value ≡ value table.now coin hand.now result.mask }
    // No other hold exceeds it.
    ensures greatest { (mask : ℕ) → mask < 32 → value table.now coin hand.now mask ≤ result.value }
    // Each smaller mask is worth less.
    ensures least { (mask : ℕ) → mask < result.mask → value table.now coin hand.now mask < result.value }
    ensures ties { result.ties ≡ ties table.now coin hand.now }
    ensures best { result.value ≡ best table.now coin hand.now }
    ensures least_best { result.mask ≡ least_best table.now coin hand.now }
    ensures steps { steps.new ≡ steps.old + sum_by (λ mask. length (draws table.now.deck hand.now mask)) masks }
{
    let mut payments = KeptPayments::new(table, coin);
    let mut values = [0; 32];
    for mask in 0..32u8 {
        values[mask as usize] = hold_value(&mut payments, table.deck, hand, mask, steps);
    }
    best_of_values(&values)
}

/// The best of the 32 holds of a hand, by their values; the place of each is its mask.
pub fn best_of_values(values: &[u64; 32]) -> Best
    ensures hold { result.mask < 32 }
    ensures value { result.value ≡ slice_index values.now result.mask }
    // No other hold exceeds it.
    ensures greatest { (mask : ℕ) → mask < 32 → slice_index values.now mask ≤ result.value }
    // Each smaller mask is worth less.
    ensures least { (mask : ℕ) → mask < result.mask → slice_index values.now mask < result.value }
    ensures best { (table : PayTable) (coin : ℕ) (hand : List ℕ) → AreValues table coin hand values.now
        → result.value ≡ best table coin hand }
    ensures least_best { (table : PayTable) (coin : ℕ) (hand : List ℕ) → AreValues table coin hand values.now
        → result.mask ≡ least_best table coin hand }
    ensures ties { (table : PayTable) (coin : ℕ) (hand : List ℕ) → AreValues table coin hand values.now
        → result.ties ≡ ties table coin hand }
{
    let mut best = Best {
        mask: 0,
        value: values[0],
        ties: 1,
    };
    for mask in 1..32u8 {
        best = better(best, mask, values[mask as usize]);
    }
    best
}

/// The better of the best hold so far and a hold of a greater mask. Where they are worth the same, the hold so far stays, with
/// one more tie.
fn better(best: Best, mask: u8, value: u64) -> Best
    requires { best.ties < 255 }
    ensures greater { best.value < value → result ≡ record { mask = mask; value = value; ties = 1 } }
    ensures equal { best.value ≡ value → result ≡ record best { ties = best.ties + 1 } }
    ensures less { value < best.value → result ≡ best }
{
    if best.value < value {
        Best {
            mask,
            value,
            ties: 1,
        }
    } else if best.value == value {
        Best {
            ties: best.ties + 1,
            ..best
        }
    } else {
        best
    }
}
