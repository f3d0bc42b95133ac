//! `holds`: the 32 holds of one hand.

ghost use Rattle.std.specs.Prelude.{◌≡◌, ℕ, ◌<◌, ◌≤◌, true, length, map, slice_index, take};
ghost use Rattle.vp_card.specs.Cards.{in_deck};
ghost use Rattle.vp_draws.specs.Draws.{value};
ghost use Rattle.vp_io.specs.Puts.{Puts};
ghost use Rattle.vp_text.specs.Written.{line_of, written};
ghost use Rattle.vp_deal.specs.Deal.{IsDealt};
ghost use Rattle.vp_holds.specs.Holds.{AreLineDraws, hold_line, hold_words, holds_lines};
ghost use Rattle.vp_holds.specs.Ranking.{ranked};
ghost use Rattle.vp_pay.specs.Table.{IsTable};

use crate::ranking::ranked;
use crate::values::values_of;
use std::marker::{Brand, Model};
use std::sync::ledger::{Blank, Ledger};
use vp_answer::{Stop, Work};
use vp_card::{Card, Hand};
use vp_draws::draws_by_line;
use vp_io::{Sink, WriteFault};
use vp_lines::{Word, put_words};
use vp_pay::{HasBet, PayTable, read_input};
use vp_sets::common;
use vp_wild::Steps;

/// A bet on a pay table, and a hand of its deck.
#[derive(Drop)]
pub struct HoldsJob {
    table: PayTable,
    coin: u8,
    hand: Hand,
}

impl Model for HoldsJob {
    ghost use Rattle.vp_deal.specs.Deal.{Dealt, IsDealt};

    ghost Value = { Dealt };

    ghost view = { λ j. record { table = j.table; coin = j.coin; hand = j.hand } };

    ghost invariant = { λ j. IsDealt (record { table = j.table; coin = j.coin; hand = j.hand }) };
}

impl HoldsJob {
    ghost use Rattle.std.specs.Prelude.{◌≡◌, ◌≤◌, length};
    ghost use Rattle.vp_deal.specs.Deal.{deal_job};

    /// What the bytes leave to do for a bet, as for `deal`: a pay table that has it, and a deal from its deck.
    pub fn read(coin: u8, bytes: &[u8]) -> Result<HoldsJob, Stop>
        requires some { 1 ≤ coin }
        requires limit { length bytes.now ≤ 67108864 }
        ensures { result ≡ deal_job coin bytes.now }
    {
        let (table, hand) = read_input::<Hand, HasBet>(bytes, &HasBet { coin })?;
        Ok(HoldsJob { table, coin, hand })
    }
}

impl Work for HoldsJob {
    ghost use Rattle.vp_holds.specs.Holds.{holds_due, holds_some};

    ghost due = { holds_due };

    ghost some_text = { holds_some };

    /// It takes no words.
    fn words(&self) -> usize {
        0
    }

    fn put<K: Sink>(&self, _memory: &mut [u64], sink: &mut K) -> Result<(), WriteFault> {
        put_holds(&self.table, self.coin, &self.hand, sink)
    }
}

/// How many draws of each hold end on each pay line. The hands are not counted.
fn counts_of(table: &PayTable, hand: &Hand) -> [[u32; 33]; 32]
    requires table { IsTable table.now }
    requires cards { in_deck table.now.deck hand.now ≡ true }
    ensures { AreLineDraws table.now hand.now result }
{
    counted::<Brand>(table, hand, Blank::new(1))
}

/// The same, with a counter that nobody reads.
fn counted<L: Ledger>(table: &PayTable, hand: &Hand, blank: Blank) -> [[u32; 33]; 32]
    requires table { IsTable table.now }
    requires cards { in_deck table.now.deck hand.now ≡ true }
    requires name { blank.name ≡ L.name }
    requires parts { blank.parts ≡ L.parts }
    requires share { 0 < blank.parts }
    ensures { AreLineDraws table.now hand.now result }
{
    let mut steps = Steps::<L>::new(blank);
    draws_by_line(table, hand, &mut steps)
}

/// Puts the deal line, and the lines of the holds.
fn put_holds<K: Sink>(
    table: &PayTable,
    coin: u8,
    hand: &Hand,
    sink: &mut K,
) -> Result<(), WriteFault>
    requires { IsDealt (record { table = table.now; coin = coin; hand = hand.now }) }
    ensures { Puts (K.told sink.old) (K.told sink.new) result
        (written (holds_lines (record { table = table.now; coin = coin; hand = hand.now }))) }
{
    let counts = counts_of(table, hand);
    let values = values_of(table, coin, hand, &counts);
    put_words(&[Word::Text(b"deal"), Word::Hand(hand)], sink)?;
    put_rows(table, coin, hand, &counts, &values, sink)
}

/// Puts the lines of the 32 holds, in the order of their values.
fn put_rows<K: Sink>(
    table: &PayTable,
    coin: u8,
    hand: &Hand,
    counts: &[[u32; 33]; 32],
    values: &[u64; 32],
    sink: &mut K,
) -> Result<(), WriteFault>
    requires dealt { IsDealt (record { table = table.now; coin = coin; hand = hand.now }) }
    requires counts { AreLineDraws table.now hand.now counts.now }
    requires values { (mask : ℕ) → mask < 32 → slice_index values.now mask ≡ value table.now coin hand.now mask }
    ensures { Puts (K.told sink.old) (K.told sink.new) result
        (written (map (hold_line (record { table = table.now; coin = coin; hand = hand.now }))
        (ranked (value table.now coin hand.now) 32))) }
{
    let masks = ranked(values);
    for place in 0..masks.len() {
        put_hold(table, coin, hand, masks[place], counts, values, sink)?;
    }
    Ok(())
}

/// Puts the line of a hold.
fn put_hold<K: Sink>(
    table: &PayTable,
    coin: u8,
    hand: &Hand,
    mask: u8,
    counts: &[[u32; 33]; 32],
    values: &[u64; 32],
    sink: &mut K,
) -> Result<(), WriteFault>
    requires dealt { IsDealt (record { table = table.now; coin = coin; hand = hand.now }) }
    requires counts { AreLineDraws table.now hand.now counts.now }
    requires values { (mask : ℕ) → mask < 32 → slice_index values.now mask ≡ value table.now coin hand.now mask }
    requires mask { mask < 32 }
    ensures { Puts (K.told sink.old) (K.told sink.new) result
        (line_of (hold_line (record { table = table.now; coin = coin; hand = hand.now }) mask)) }
{
    let (lines, none) = row_parts(&counts[mask as usize], table.lines.len());
    let under = common(table.deck);
    put_row(
        mask,
        &hand.held(mask),
        values[mask as usize],
        under,
        lines,
        none,
        sink,
    )
}

/// The numbers of the lines of a table, and that of none, out of the row of a hold.
fn row_parts(row: &[u32; 33], lines: usize) -> (&[u32], u32)
    requires { lines ≤ 32 }
    ensures lines { result.0.now ≡ take lines row.now }
    ensures none { result.1 ≡ slice_index row.now 32 }
    ensures long { length row.now ≡ 33 }
{
    (&row[..lines], row[32])
}

/// Puts the words of the line of a hold.
fn put_row<K: Sink>(
    mask: u8,
    kept: &[Card],
    value: u64,
    under: u64,
    lines: &[u32],
    none: u32,
    sink: &mut K,
) -> Result<(), WriteFault>
    requires five { length kept.now ≤ 5 }
    requires lines { length lines.now ≤ 32 }
    ensures { Puts (K.told sink.old) (K.told sink.new) result
        (line_of (hold_words mask kept.now value under lines.now none)) }
{
    let words = [
        Word::Text(b"hold"),
        Word::Number(mask as u128),
        Word::Cards(kept),
        Word::Fraction(value as u128, under as u128),
        Word::Text(b"draws"),
        Word::Numbers(lines),
        Word::Numbers(&[none]),
    ];
    put_words(&words, sink)
}
