//! The values of the 32 holds of a hand, out of their draws by pay line.

ghost use Rattle.std.specs.Prelude.{◌≡◌, ℕ, ◌*◌, ◌<◌, ◌≤◌, ◌^◌, true, length, slice_index, sum_by};
ghost use Rattle.vp_card.specs.Cards.{in_deck};
ghost use Rattle.vp_pay.specs.Bets.{IsBet};
ghost use Rattle.vp_sets.specs.Sets.{deck};
ghost use Rattle.vp_draws.specs.Draws.{value};
ghost use Rattle.vp_holds.specs.Holds.{AreLineDraws, line_pays};

use vp_card::Hand;
use vp_draws::cards_drawn;
use vp_pay::PayTable;
use vp_sets::scale;

/// The values of the 32 holds of a hand, by their masks: each the expected payment for `coin` coins times the common denominator
/// of the deck.
pub(crate) fn values_of(
    table: &PayTable,
    coin: u8,
    hand: &Hand,
    counts: &[[u32; 33]; 32],
) -> [u64; 32]
    requires bet { IsBet table.now coin }
    requires cards { in_deck table.now.deck hand.now ≡ true }
    requires counts { AreLineDraws table.now hand.now counts.now }
    ensures { (mask : ℕ) → mask < 32 → slice_index result mask ≡ value table.now coin hand.now mask }
{
    let mut values = [0; 32];
    for mask in 0..32u8 {
        values[mask as usize] = value_of(table, coin, hand, mask, counts);
    }
    values
}

/// The value of a hold.
fn value_of(table: &PayTable, coin: u8, hand: &Hand, mask: u8, counts: &[[u32; 33]; 32]) -> u64
    requires bet { IsBet table.now coin }
    requires cards { in_deck table.now.deck hand.now ≡ true }
    requires counts { AreLineDraws table.now hand.now counts.now }
    requires mask { mask < 32 }
    ensures { result ≡ value table.now coin hand.now mask }
{
    let drawn = cards_drawn(hand, mask);
    total_of(table, coin, &counts[mask as usize]) * scale(table.deck, drawn)
}

/// The sum of the payments over all draws of a hold, out of how many of them end on each pay line.
fn total_of(table: &PayTable, coin: u8, row: &[u32; 33]) -> u64
    requires bet { IsBet table.now coin }
    requires room { sum_by (λ place. slice_index (line_pays table.now coin) place * slice_index row.now place)
        (deck (length table.now.lines.items)) < 2 ^ 64 }
    ensures { result ≡ sum_by (λ place. slice_index (line_pays table.now coin) place * slice_index row.now place)
        (deck (length table.now.lines.items)) }
{
    let mut total = 0;
    for place in 0..table.lines.len() {
        let pay = table.lines[place].pays[usize::from(coin - 1)];
        total += u64::from(pay) * u64::from(row[place]);
    }
    total
}
