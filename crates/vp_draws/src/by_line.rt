//! How many draws of each hold end on each pay line, by one walk over all hands of the deck.

ghost use Rattle.std.specs.Prelude.{◌≡◌, ℕ, ◌+◌, ◌-◌, ◌<◌, ◌≤◌, ◌^◌, ◌==◌, [], ◌∷◌, ◌++◌, true, Option, length, slice_index, if◌then◌else◌};
ghost use Rattle.std.specs.Option.{unwrap_or};
ghost use Rattle.vp_card.specs.Cards.{IsHand, in_deck};
ghost use Rattle.vp_pay.specs.Table.{IsTable};
ghost use Rattle.vp_sets.specs.Draws.{mask_of};
ghost use Rattle.vp_sets.specs.Index.{IsSet};
ghost use Rattle.vp_sets.specs.Sets.{choose};
ghost use Rattle.vp_draws.specs.ByLine.{count_at, ends_at, line_draws, summed};

use arrayvec::ArrayVec;
use std::marker::Model;
use std::sync::ledger::Ledger;
use vp_card::Hand;
use vp_pay::PayTable;
use vp_wild::{KeptLines, Steps};

/// The place of the draws that end on no line, behind those of all lines.
const NO_LINE: u8 = 32;

/// How many draws of each of the 32 holds of a hand end on each pay line of the table: a row for each hold, by its mask. The
/// numbers of a row stand at the places of the lines, and at 32 that of the draws that end on none. One step of the counter
/// for each hand of the deck.
pub fn draws_by_line<L: Ledger>(
    table: &PayTable,
    hand: &Hand,
    steps: &mut Steps<L>,
) -> [[u32; 33]; 32]
    requires table { IsTable table.now }
    requires cards { in_deck table.now.deck hand.now ≡ true }
    ensures counts { (mask place : ℕ) → mask < 32 → place < 33
        → count_at result mask place ≡ line_draws table.now place hand.now mask }
    ensures steps { steps.new ≡ steps.old + choose table.now.deck 5 }
{
    let mut counts = [[0; 33]; 32];
    let mut lines = KeptLines::new(table);
    let deal = CardMasks::of(hand);
    walk(&mut lines, table.deck, &deal, &[], 0, 0, &mut counts, steps);
    counts
}

/// Counts the hands that begin with the chosen cards, whose mask this is, and go on with cards of a deck of `n` from `low` on.
fn walk<L: Ledger>(
    lines: &mut KeptLines,
    n: u8,
    deal: &CardMasks,
    chosen: &[u8],
    low: u8,
    mask: u8,
    counts: &mut [[u32; 33]; 32],
    steps: &mut Steps<L>,
)
    requires lines { length lines.old.lines.items ≤ 32 }
    requires deck { n ≤ 54 }
    requires within { low ≤ n }
    requires few { length chosen.now ≤ 4 }
    requires set { IsSet low chosen.now }
    requires mask { mask ≡ mask_of chosen.now deal.now }
    requires room { (m place : ℕ) → m < 32 → place < 33
        → count_at counts.old m place + summed (ends_at lines.old place) n chosen.now low deal.now m < 2 ^ 32 }
    ensures counts { (m place : ℕ) → m < 32 → place < 33
        → count_at counts.new m place ≡ count_at counts.old m place + summed (ends_at lines.old place) n chosen.now low deal.now m }
    ensures same { lines.new ≡ lines.old }
    ensures steps { steps.new ≡ steps.old + choose (n - low) (5 - length chosen.now) }
{
    if chosen.len() == 4 {
        last_card(lines, n, deal, &four(chosen), low, mask, counts, steps);
    } else if low < n {
        let more = followed(chosen, low);
        let mask_of_more = deal.with_card(chosen, mask, low);
        walk(
            lines,
            n,
            deal,
            more.as_slice(),
            low + 1,
            mask_of_more,
            counts,
            steps,
        );
        walk(lines, n, deal, chosen, low + 1, mask, counts, steps);
    }
}

/// Counts the hands that have four chosen cards and one more from `low` on.
fn last_card<L: Ledger>(
    lines: &mut KeptLines,
    n: u8,
    deal: &CardMasks,
    chosen: &[u8; 4],
    low: u8,
    mask: u8,
    counts: &mut [[u32; 33]; 32],
    steps: &mut Steps<L>,
)
    requires lines { length lines.old.lines.items ≤ 32 }
    requires deck { n ≤ 54 }
    requires within { low ≤ n }
    requires four { length chosen.now ≡ 4 }
    requires set { IsSet low chosen.now }
    requires mask { mask ≡ mask_of chosen.now deal.now }
    requires room { (m place : ℕ) → m < 32 → place < 33
        → count_at counts.old m place + summed (ends_at lines.old place) n chosen.now low deal.now m < 2 ^ 32 }
    ensures counts { (m place : ℕ) → m < 32 → place < 33
        → count_at counts.new m place ≡ count_at counts.old m place + summed (ends_at lines.old place) n chosen.now low deal.now m }
    ensures same { lines.new ≡ lines.old }
    ensures steps { steps.new ≡ steps.old + (n - low) }
{
    for card in low..n {
        let line = lines.line(&with_last(chosen, card), steps);
        let mask_of_hand = deal.with_card(chosen, mask, card);
        count(counts, mask_of_hand, line.unwrap_or(NO_LINE));
    }
}

/// Counts one more hand at the place of its line, in the row of its mask.
#[inline]
fn count(counts: &mut [[u32; 33]; 32], mask: u8, place: u8)
    requires mask { mask < 32 }
    requires place { place < 33 }
    requires room { count_at counts.old mask place + 1 < 2 ^ 32 }
    ensures { (m p : ℕ) → m < 32 → p < 33
        → count_at counts.new m p ≡ count_at counts.old m p + (if mask == m then (if place == p then 1 else 0) else 0) }
{
    count_in(&mut counts[mask as usize], place);
}

/// Counts one more at a place of a row.
#[inline]
fn count_in(row: &mut [u32; 33], place: u8)
    requires place { place < 33 }
    requires room { slice_index row.old place + 1 < 2 ^ 32 }
    ensures { (p : ℕ) → p < 33 → slice_index row.new p ≡ slice_index row.old p + (if place == p then 1 else 0) }
{
    row[place as usize] += 1;
}

/// Four cards and one more behind them.
pub(crate) fn with_last(four: &[u8; 4], last: u8) -> [u8; 5]
    requires { length four.now ≡ 4 }
    ensures { result ≡ four.now ++ last ∷ [] }
{
    let [a, b, c, d] = *four;
    [a, b, c, d, last]
}

/// Four cards as an array.
pub(crate) fn four(cards: &[u8]) -> [u8; 4]
    requires { length cards.now ≡ 4 }
    ensures { result ≡ cards.now }
{
    let [a, b, c, d] = cards else { unreachable!() };
    [*a, *b, *c, *d]
}

/// Cards and one more behind them.
pub(crate) fn followed(cards: &[u8], card: u8) -> ArrayVec<u8, 4>
    requires { length cards.now < 4 }
    ensures { result.items ≡ cards.now ++ card ∷ [] }
{
    let mut more = ArrayVec::new();
    more.try_extend_from_slice(cards).unwrap();
    more.push(card);
    more
}

/// The mask that holds, of a hand, just this card.
pub(crate) fn mask_of(card: u8, hand: &Hand) -> u8
    ensures mask { result ≡ mask_of (card ∷ []) hand.now }
    ensures hand { IsHand hand.now }
{
    let [a, b, c, d, e] = hand.numbers();
    u8::from(card == a)
        + 2 * u8::from(card == b)
        + 4 * u8::from(card == c)
        + 8 * u8::from(card == d)
        + 16 * u8::from(card == e)
}

/// The mask of each card in a hand.
fn masks_of(hand: &Hand) -> [u8; 54]
    ensures masks { (c : ℕ) → c < 54 → slice_index result c ≡ mask_of (c ∷ []) hand.now }
    ensures hand { IsHand hand.now }
{
    let _numbers = hand.numbers();
    let mut masks = [0; 54];
    for card in 0..54u8 {
        masks[card as usize] = mask_of(card, hand);
    }
    masks
}

/// A deal, and the mask of each card in it.
#[derive(Drop)]
struct CardMasks<'a> {
    hand: &'a Hand,
    masks: [u8; 54],
}

impl<'a> Model for CardMasks<'a> {
    ghost use Rattle.std.specs.Prelude.{ℕ, List, [], ◌∷◌, ◌<◌, ◌≡◌, slice_index};
    ghost use Rattle.vp_card.specs.Cards.{IsHand};
    ghost use Rattle.vp_sets.specs.Draws.{mask_of};

    ghost Value = { List ℕ };

    ghost view = { λ d. d.hand.now };

    ghost invariant = { λ d. record {
      hand : IsHand d.hand.now;
      masks : (c : ℕ) → c < 54 → slice_index d.masks c ≡ mask_of (c ∷ []) d.hand.now;
    } };
}

impl<'a> CardMasks<'a> {
    /// The mask of each card.
    fn of(hand: &'a Hand) -> CardMasks<'a>
        ensures same { result ≡ hand.now }
        ensures hand { IsHand hand.now }
    {
        CardMasks {
            hand,
            masks: masks_of(hand),
        }
    }

    /// The mask of the chosen cards and one more, which is above them.
    #[inline]
    fn with_card(&self, chosen: &[u8], mask: u8, card: u8) -> u8
        requires card { card < 54 }
        requires set { IsSet card chosen.now }
        requires mask { mask ≡ mask_of chosen.now self.now }
        ensures mask { result ≡ mask_of (chosen.now ++ card ∷ []) self.now }
        ensures small { result < 32 }
    {
        mask + self.masks[card as usize]
    }
}
