//! Of how many draws of a hold the final hand has a line.

ghost use Rattle.std.specs.Prelude.{◌≡◌, ◌+◌, ◌<◌, true, IfSome, length};
ghost use Rattle.vp_card.specs.Cards.{in_deck};
ghost use Rattle.vp_pay.specs.Table.{IsTable};
ghost use Rattle.vp_sets.specs.Sets.{choose};
ghost use Rattle.vp_count.specs.Table.{first_word};
ghost use Rattle.vp_hits.specs.Hits.{chance};

use crate::line_numbers::marks_of;
use std::marker::{Brand, Model};
use std::sync::ledger::{Blank, Ledger};
use vp_card::Hand;
use vp_hold::{HoldMeans, number_means};
use vp_pay::PayTable;
use vp_wild::Steps;

/// A pay line of a table, or none, and the means of the marks of the hands of the deck that have it.
#[derive(Drop)]
pub struct Hits<'a> {
    table: &'a PayTable,
    line: Option<u8>,
    means: HoldMeans<'a>,
}

impl<'a> Model for Hits<'a> {
    ghost use Rattle.vp_hits.specs.Hits.{AreHits, Asked};

    ghost Value = { Asked };

    ghost view = { λ h. record { table = h.table.now; line = h.line } };

    ghost invariant = { λ h.
        AreHits (record { table = h.table.now; line = h.line }) h.means };
}

impl<'a> Hits<'a> {
    /// Ranks every hand of the deck once, and makes the means of the hands whose first line stands at the place `line`, or
    /// that hit no line, in `words`, which may hold any numbers. One step of the counter for each hand.
    pub fn fill<L: Ledger>(
        table: &'a PayTable,
        line: Option<u8>,
        words: &'a mut [u64],
        steps: &mut Steps<L>,
    ) -> Hits<'a>
        requires rules { IsTable table.now }
        requires inside { IfSome line (λ place. place < length table.now.lines.items) }
        requires long { length words.old ≡ first_word table.now.deck 6 }
        ensures table { result.table ≡ table.now }
        ensures line { result.line ≡ line }
        ensures steps { steps.new ≡ steps.old + choose table.now.deck 5 }
    {
        Hits {
            table,
            line,
            means: number_means(table, &marks_of(line), words, steps),
        }
    }

    /// The hits of a line, or of none. They are made in `words`, which may hold any numbers; the hands are not counted.
    pub fn of(table: &'a PayTable, line: Option<u8>, words: &'a mut [u64]) -> Hits<'a>
        requires rules { IsTable table.now }
        requires inside { IfSome line (λ place. place < length table.now.lines.items) }
        requires long { length words.old ≡ first_word table.now.deck 6 }
        ensures table { result.table ≡ table.now }
        ensures line { result.line ≡ line }
    {
        hits_of::<Brand>(table, line, words, Blank::new(1))
    }

    /// The chance that the hold `mask` ends with a hand of the line, times the common denominator of the deck. Bit `i`
    /// holds the card at place `i` of the hand.
    pub fn weight(&self, hand: &Hand, mask: u8) -> u64
        requires cards { in_deck self.now.table.deck hand.now ≡ true }
        requires mask { mask < 32 }
        ensures { result ≡ chance self.now.table self.now.line hand.now mask }
    {
        self.means.mean(hand, mask)
    }
}

/// The hits of a line; the blank is for a counter that nobody reads.
fn hits_of<'a, L: Ledger>(
    table: &'a PayTable,
    line: Option<u8>,
    words: &'a mut [u64],
    blank: Blank,
) -> Hits<'a>
    requires rules { IsTable table.now }
    requires inside { IfSome line (λ place. place < length table.now.lines.items) }
    requires long { length words.old ≡ first_word table.now.deck 6 }
    requires name { blank.name ≡ L.name }
    requires parts { blank.parts ≡ L.parts }
    requires share { 0 < blank.parts }
    ensures table { result.table ≡ table.now }
    ensures line { result.line ≡ line }
{
    Hits::fill(table, line, words, &mut Steps::<L>::new(blank))
}
