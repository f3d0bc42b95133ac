//! A bet whose pay table may change in the payment of one line.

ghost use Rattle.std.specs.Prelude.{◌≡◌, ℕ, ◌+◌, ◌-◌, ◌*◌, ◌≤◌, ◌<◌, length, true};
ghost use Rattle.vp_card.specs.Cards.{in_deck};
ghost use Rattle.vp_count.specs.Table.{first_word};
ghost use Rattle.vp_draws.specs.Draws.{value};
ghost use Rattle.vp_meter.specs.Metered.{IsMetering, at_payment, line_name};
ghost use Rattle.vp_meter.specs.LinesOfHolds.{AreLines};
ghost use Rattle.vp_meter.specs.Segments.{worth};
ghost use Rattle.vp_pay.specs.Bets.{IsBet};
ghost use Rattle.vp_sets.specs.Sets.{choose};

use crate::hand_numbers::write_parts;
use crate::hold_lines::HoldLines;
use std::marker::{Brand, Model};
use std::sync::ledger::{Blank, Ledger};
use vp_card::Hand;
use vp_hold::HoldMeans;
use vp_pay::PayTable;
use vp_sets::choose;
use vp_wild::Steps;

/// A bet, a line of its pay table, and two tables of means: of what the other lines pay, and of how often this line
/// pays. From them comes the value of each hold at every payment of that line.
#[derive(Drop)]
pub struct Metered<'a> {
    table: &'a PayTable,
    coin: u8,
    place: u8,
    base: HoldMeans<'a>,
    hits: HoldMeans<'a>,
}

impl<'a> Model for Metered<'a> {
    ghost use Rattle.vp_meter.specs.Metered.{Metering};
    ghost use Rattle.vp_meter.specs.TwoMeans.{IsMetered};

    ghost Value = { Metering };

    ghost view = { λ m. record { table = m.table.now; coin = m.coin; place = m.place } };

    ghost invariant = { λ m. IsMetered (record { table = m.table.now; coin = m.coin; place = m.place }) m.base m.hits };
}

impl<'a> Metered<'a> {
    /// Ranks every hand of the deck once, and makes both tables in `base` and `hits`, which may hold any numbers.
    /// `line` is the place of the line, from 0. One step of the counter for each hand.
    pub fn fill<L: Ledger>(
        table: &'a PayTable,
        coin: u8,
        line: u8,
        base: &'a mut [u64],
        hits: &'a mut [u64],
        steps: &mut Steps<L>,
    ) -> Metered<'a>
        requires bet { IsBet table.now coin }
        requires inside { line < length table.now.lines.items }
        requires long { length base.old ≡ first_word table.now.deck 6 }
        requires also { length hits.old ≡ first_word table.now.deck 6 }
        ensures table { result.table ≡ table.now }
        ensures coin { result.coin ≡ coin }
        ensures line { result.place ≡ line }
        ensures steps { steps.new ≡ steps.old + choose table.now.deck 5 }
    {
        let hands = choose(table.deck, 5) as usize;
        let first = base.len() - hands;
        let numbers = &mut base[first..];
        let hit_numbers = &mut hits[first..];
        write_parts(table, coin, line, numbers, hit_numbers, steps);
        Metered {
            table,
            coin,
            place: line,
            base: HoldMeans::fill(table.deck, base),
            hits: HoldMeans::fill(table.deck, hits),
        }
    }

    /// The metered bet; the hands are not counted. `base` and `hits` may hold any numbers.
    pub fn of(
        table: &'a PayTable,
        coin: u8,
        line: u8,
        base: &'a mut [u64],
        hits: &'a mut [u64],
    ) -> Metered<'a>
        requires bet { IsBet table.now coin }
        requires inside { line < length table.now.lines.items }
        requires long { length base.old ≡ first_word table.now.deck 6 }
        requires also { length hits.old ≡ first_word table.now.deck 6 }
        ensures table { result.table ≡ table.now }
        ensures coin { result.coin ≡ coin }
        ensures line { result.place ≡ line }
    {
        metered_of::<Brand>(table, coin, line, base, hits, Blank::new(1))
    }

    /// The pay table, with the payment that it has.
    pub(crate) fn table(&self) -> &PayTable
        ensures table { result.now ≡ self.now.table }
        ensures metering { IsMetering self.now }
    {
        self.table
    }

    /// The number of coins bet.
    pub(crate) fn coin(&self) -> u8
        ensures { result ≡ self.now.coin }
    {
        self.coin
    }

    /// The name of the line.
    pub(crate) fn name(&self) -> &[u8]
        ensures name { result.now ≡ line_name self.now }
        ensures short { length result.now ≤ 24 }
    {
        self.table.lines[self.place as usize].name.text()
    }

    /// The value of a hold where the line pays nothing, and by how much it rises for each further unit of the line's
    /// payment, both over the common denominator of the deck.
    pub fn parts(&self, hand: &Hand, mask: u8) -> (u64, u64)
        requires cards { in_deck self.now.table.deck hand.now ≡ true }
        requires mask { mask < 32 }
        ensures base { result.0 ≡ value (at_payment self.now 0) self.now.coin hand.now mask }
        ensures slope { result.0 + result.1 ≡ value (at_payment self.now 1) self.now.coin hand.now mask }
        // With the payment x in the line the hold is worth the first number and x times the second.
        ensures value { (x : ℕ)
            → value (at_payment self.now x) self.now.coin hand.now mask ≡ result.0 + x * result.1 }
    {
        (self.base.mean(hand, mask), self.hits.mean(hand, mask))
    }

    /// The lines of all 32 holds of a hand; the means of each table are taken at once.
    pub(crate) fn lines(&self, hand: &Hand) -> HoldLines
        requires { in_deck self.now.table.deck hand.now ≡ true }
        ensures { AreLines (worth self.now hand.now) result }
    {
        HoldLines {
            bases: self.base.means(hand),
            slopes: self.hits.means(hand),
        }
    }
}

/// The metered bet; the blank is for a counter that nobody reads.
fn metered_of<'a, L: Ledger>(
    table: &'a PayTable,
    coin: u8,
    line: u8,
    base: &'a mut [u64],
    hits: &'a mut [u64],
    blank: Blank,
) -> Metered<'a>
    requires bet { IsBet table.now coin }
    requires inside { line < length table.now.lines.items }
    requires long { length base.old ≡ first_word table.now.deck 6 }
    requires also { length hits.old ≡ first_word table.now.deck 6 }
    requires name { blank.name ≡ L.name }
    requires parts { blank.parts ≡ L.parts }
    requires share { 0 < blank.parts }
    ensures table { result.table ≡ table.now }
    ensures coin { result.coin ≡ coin }
    ensures line { result.place ≡ line }
{
    let mut steps = Steps::<L>::new(blank);
    Metered::fill(table, coin, line, base, hits, &mut steps)
}
