//! The totals of all 32 holds of many deals, by one walk over all hands of the deck.

ghost use Rattle.std.specs.Prelude.{◌≡◌, ℕ, ◌+◌, ◌-◌, ◌*◌, ◌<◌, ◌≤◌, ◌^◌, ◌==◌, [], ◌∷◌, ◌++◌, true, length, slice_index, slice_index_or, if◌then◌else◌};
ghost use Rattle.vp_card.specs.Cards.{IsDeck, IsHand, in_deck};
ghost use Rattle.vp_pay.specs.Table.{IsTable};
ghost use Rattle.vp_sets.specs.Draws.{discarded, mask_of, scale};
ghost use Rattle.vp_sets.specs.Index.{IsSet};
ghost use Rattle.vp_sets.specs.Sets.{choose};
ghost use Rattle.vp_draws.specs.Draws.{total};
ghost use Rattle.vp_draws.specs.Many.{AreMasks, AreValues, cell, deal_at};
ghost use Rattle.vp_draws.specs.ByLine.{summed};
ghost use Rattle.vp_wild.specs.Payment.{pay};

use crate::by_line::{followed, four, mask_of, with_last};
use crate::cards_drawn;
use std::marker::Model;
use std::sync::ledger::Ledger;
use vp_card::Hand;
use vp_pay::PayTable;
use vp_sets::scale;
use vp_wild::{KeptPayments, Steps};

/// The totals of all 32 holds of up to 256 deals, by one walk over all hands of the deck: row `k` gets the sum of the payments for
/// `coin` coins over all draws of each hold of deal `k`, by its mask. One step of the counter for each hand of the deck.
pub fn many_totals<L: Ledger>(
    table: &PayTable,
    coin: u8,
    deals: &[Hand],
    totals: &mut [[u64; 32]],
    steps: &mut Steps<L>,
)
    requires table { IsTable table.now }
    requires coin_from { 1 ≤ coin }
    requires coin_to { coin ≤ table.now.coins }
    requires few { length deals.now ≤ 256 }
    requires rows { length totals.old ≡ length deals.now }
    requires cards { (k : ℕ) → k < length deals.now → in_deck table.now.deck (deal_at deals.now k)
        ≡ true }
    ensures totals { (k mask : ℕ) → k < length deals.now → mask < 32 → cell totals.new k mask
        ≡ total table.now coin (deal_at deals.now k) mask }
    ensures hands { (k : ℕ) → k < length deals.now → IsHand (deal_at deals.now k) }
    ensures steps { steps.new ≡ steps.old + choose table.now.deck 5 }
{
    clear(totals);
    let mut payments = KeptPayments::new(table, coin);
    let deals = Deals::of(deals);
    walk(
        &mut payments,
        table.deck,
        &deals,
        &[],
        0,
        &[0; 256],
        totals,
        steps,
    );
}

/// The values of all 32 holds of up to 256 deals: row `k` gets those of deal `k`, by the masks of the holds, each its expected
/// payment for `coin` coins times the common denominator of the deck. One step of the counter for each hand of the deck.
pub fn many_values<L: Ledger>(
    table: &PayTable,
    coin: u8,
    deals: &[Hand],
    values: &mut [[u64; 32]],
    steps: &mut Steps<L>,
)
    requires table { IsTable table.now }
    requires coin_from { 1 ≤ coin }
    requires coin_to { coin ≤ table.now.coins }
    requires few { length deals.now ≤ 256 }
    requires rows { length values.old ≡ length deals.now }
    requires cards { (k : ℕ) → k < length deals.now → in_deck table.now.deck (deal_at deals.now k)
        ≡ true }
    ensures values { (k : ℕ) → k < length deals.now
        → AreValues table.now coin (deal_at deals.now k) (slice_index_or values.new k []) }
    ensures steps { steps.new ≡ steps.old + choose table.now.deck 5 }
{
    many_totals(table, coin, deals, values, steps);
    for k in 0..deals.len() {
        scale_all(table.deck, &deals[k], &mut values[k]);
    }
}

/// Makes the totals of the holds of a hand their values.
fn scale_all(n: u8, hand: &Hand, row: &mut [u64; 32])
    requires deck { IsDeck n }
    requires room { (mask : ℕ) → mask < 32
        → slice_index row.old mask * scale n (length (discarded mask hand.now)) < 2 ^ 64 }
    ensures { (mask : ℕ) → mask < 32 → slice_index row.new mask
        ≡ slice_index row.old mask * scale n (length (discarded mask hand.now)) }
{
    for mask in 0..32u8 {
        row[mask as usize] *= scale(n, cards_drawn(hand, mask));
    }
}

/// Sets all totals to 0.
fn clear(totals: &mut [[u64; 32]])
    ensures { (k mask : ℕ) → k < length totals.old → cell totals.new k mask ≡ 0 }
{
    for k in 0..totals.len() {
        totals[k] = [0; 32];
    }
}

/// Adds to the totals what the hands pay that begin with the chosen cards, which have these masks, and go on with cards of a deck of
/// `n` from `low` on.
fn walk<L: Ledger>(
    payments: &mut KeptPayments,
    n: u8,
    deals: &Deals,
    chosen: &[u8],
    low: u8,
    masks: &[u8; 256],
    totals: &mut [[u64; 32]],
    steps: &mut Steps<L>,
)
    requires table { IsTable payments.old.table }
    requires deck { n ≡ payments.old.table.deck }
    requires within { low ≤ n }
    requires few { length chosen.now ≤ 4 }
    requires set { IsSet low chosen.now }
    requires masks { AreMasks deals.now chosen.now masks.now }
    requires rows { length totals.old ≡ length deals.now }
    requires hands { (k : ℕ) → length (deal_at deals.now k) ≤ 5 }
    requires room { (k mask : ℕ) → k < length deals.now → mask < 32
        → cell totals.old k mask
        + summed (pay payments.old.table payments.old.coin) n chosen.now low (deal_at deals.now k) mask < 2 ^ 64 }
    ensures totals { (k mask : ℕ) → k < length deals.now → mask < 32
        → cell totals.new k mask ≡ cell totals.old k mask
        + summed (pay payments.old.table payments.old.coin) n chosen.now low (deal_at deals.now k) mask }
    ensures same { payments.new ≡ payments.old }
    ensures steps { steps.new ≡ steps.old + choose (n - low) (5 - length chosen.now) }
{
    if chosen.len() == 4 {
        last_card(payments, n, deals, &four(chosen), low, masks, totals, steps);
    } else if low < n {
        let more = followed(chosen, low);
        let masks_of_more = deals.with_card(chosen, masks, low);
        walk(
            payments,
            n,
            deals,
            more.as_slice(),
            low + 1,
            &masks_of_more,
            totals,
            steps,
        );
        walk(payments, n, deals, chosen, low + 1, masks, totals, steps);
    }
}

/// Adds what the hands pay that have four chosen cards and one more from `low` on.
fn last_card<L: Ledger>(
    payments: &mut KeptPayments,
    n: u8,
    deals: &Deals,
    chosen: &[u8; 4],
    low: u8,
    masks: &[u8; 256],
    totals: &mut [[u64; 32]],
    steps: &mut Steps<L>,
)
    requires table { IsTable payments.old.table }
    requires deck { n ≡ payments.old.table.deck }
    requires within { low ≤ n }
    requires four { length chosen.now ≡ 4 }
    requires set { IsSet low chosen.now }
    requires masks { AreMasks deals.now chosen.now masks.now }
    requires rows { length totals.old ≡ length deals.now }
    requires hands { (k : ℕ) → length (deal_at deals.now k) ≤ 5 }
    requires room { (k mask : ℕ) → k < length deals.now → mask < 32
        → cell totals.old k mask
        + summed (pay payments.old.table payments.old.coin) n chosen.now low (deal_at deals.now k) mask < 2 ^ 64 }
    ensures totals { (k mask : ℕ) → k < length deals.now → mask < 32
        → cell totals.new k mask ≡ cell totals.old k mask
        + summed (pay payments.old.table payments.old.coin) n chosen.now low (deal_at deals.now k) mask }
    ensures same { payments.new ≡ payments.old }
    ensures steps { steps.new ≡ steps.old + (n - low) }
{
    for card in low..n {
        let payment = payments.pay(&with_last(chosen, card), steps);
        if payment > 0 {
            deals.add(chosen, masks, card, u64::from(payment), totals);
        }
    }
}

/// Adds a payment to the total of one mask.
#[inline]
fn add_to(row: &mut [u64; 32], mask: u8, payment: u64)
    requires mask { mask < 32 }
    requires room { slice_index row.old mask + payment < 2 ^ 64 }
    ensures { (m : ℕ) → slice_index row.new m ≡ slice_index row.old m
        + (if mask == m then payment else 0) }
{
    row[mask as usize] += payment;
}

/// Adds a payment to the totals of each deal at its mask, which the two numbers for the deal sum to.
fn add(totals: &mut [[u64; 32]], masks: &[u8; 256], more: &[u8; 256], payment: u64)
    requires few { length totals.old ≤ 256 }
    requires small { (k : ℕ) → k < length totals.old
        → slice_index masks.now k + slice_index more.now k < 32 }
    requires room { (k : ℕ) → k < length totals.old
        → cell totals.old k (slice_index masks.now k + slice_index more.now k) + payment < 2 ^ 64 }
    ensures { (k m : ℕ) → k < length totals.old → cell totals.new k m ≡ cell totals.old k m
        + (if slice_index masks.now k + slice_index more.now k == m then payment else 0) }
{
    for k in 0..totals.len() {
        add_to(&mut totals[k], masks[k] + more[k], payment);
    }
}

/// The masks of the chosen cards and one more, in so many deals.
fn with_card(masks: &[u8; 256], more: &[u8; 256], many: usize) -> [u8; 256]
    requires few { many ≤ 256 }
    requires small { (k : ℕ) → k < many → slice_index masks.now k + slice_index more.now k < 32 }
    ensures { (k : ℕ) → k < many → slice_index result k ≡ slice_index masks.now k
        + slice_index more.now k }
{
    let mut both = [0; 256];
    for k in 0..many {
        both[k] = masks[k] + more[k];
    }
    both
}

/// The masks of a card in each of the deals.
fn masks_of(card: u8, hands: &[Hand]) -> [u8; 256]
    requires few { length hands.now ≤ 256 }
    ensures masks { AreMasks hands.now (card ∷ []) result }
    ensures hands { (k : ℕ) → k < length hands.now → IsHand (deal_at hands.now k) }
{
    let mut masks = [0; 256];
    for (k, hand) in hands.iter().enumerate() {
        masks[k] = mask_of(card, hand);
    }
    masks
}

/// Deals, and the mask of each card in each of them.
#[derive(Drop)]
struct Deals<'a> {
    hands: &'a [Hand],
    masks: [[u8; 256]; 54],
}

impl<'a> Model for Deals<'a> {
    ghost use Rattle.std.specs.Prelude.{ℕ, List, [], ◌∷◌, ◌<◌, ◌≤◌, length, slice_index_or};
    ghost use Rattle.vp_card.specs.Cards.{IsHand};
    ghost use Rattle.vp_draws.specs.Many.{AreMasks, deal_at};

    ghost Value = { List (List ℕ) };

    ghost view = { λ d. d.hands.now };

    ghost invariant = { λ d. record {
      few : length d.hands.now ≤ 256;
      hands : (k : ℕ) → k < length d.hands.now → IsHand (deal_at d.hands.now k);
      masks : (c : ℕ) → c < 54 → AreMasks d.hands.now (c ∷ []) (slice_index_or d.masks c []);
    } };
}

impl<'a> Deals<'a> {
    /// The masks of each card.
    fn of(hands: &'a [Hand]) -> Deals<'a>
        requires { length hands.now ≤ 256 }
        ensures same { result ≡ hands.now }
        ensures hands { (k : ℕ) → k < length hands.now → IsHand (deal_at hands.now k) }
    {
        let mut masks = [[0; 256]; 54];
        for card in 0..54 {
            masks[card] = masks_of(card as u8, hands);
        }
        Deals { hands, masks }
    }

    /// The masks of the chosen cards and one more, which is above them.
    fn with_card(&self, chosen: &[u8], masks: &[u8; 256], card: u8) -> [u8; 256]
        requires few { length chosen.now < 5 }
        requires set { IsSet card chosen.now }
        requires card { card < 54 }
        requires masks { AreMasks self.now chosen.now masks.now }
        ensures { AreMasks self.now (chosen.now ++ card ∷ []) result }
    {
        let more = self.masks[card as usize];
        with_card(masks, &more, self.hands.len())
    }

    /// Adds the payment of a hand, four cards and one more above them, to the totals of its mask in each deal.
    fn add(
        &self,
        chosen: &[u8],
        masks: &[u8; 256],
        card: u8,
        payment: u64,
        totals: &mut [[u64; 32]],
    )
        requires few { length chosen.now < 5 }
        requires set { IsSet card chosen.now }
        requires card { card < 54 }
        requires masks { AreMasks self.now chosen.now masks.now }
        requires rows { length totals.old ≡ length self.now }
        requires room { (k : ℕ) → k < length self.now
            → cell totals.old k (mask_of (chosen.now ++ card ∷ []) (deal_at self.now k))
            + payment < 2 ^ 64 }
        ensures { (k m : ℕ) → k < length self.now → cell totals.new k m ≡ cell totals.old k m
            + (if mask_of (chosen.now ++ card ∷ []) (deal_at self.now k) == m then payment else 0) }
    {
        let more = self.masks[card as usize];
        add(totals, masks, &more, payment);
    }
}
