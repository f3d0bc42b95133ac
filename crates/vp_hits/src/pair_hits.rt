//! The hits of two lines, out of the means of one number.

ghost use Rattle.std.specs.Prelude.{◌≡◌, ◌<◌, true, IfSome, length};
ghost use Rattle.vp_card.specs.Cards.{in_deck};
ghost use Rattle.vp_pay.specs.Table.{IsTable};
ghost use Rattle.vp_count.specs.Table.{first_word};
ghost use Rattle.vp_hits.specs.Hits.{chance};

use crate::line_numbers::{SECOND, two_marks_of};
use std::marker::{Brand, Model};
use std::sync::ledger::{Blank, Ledger};
use vp_card::Hand;
use vp_hold::{HoldMeans, number_means};
use vp_pay::PayTable;
use vp_wild::Steps;

/// Two pay lines of a table, or a line and none, and the means of one number that marks both.
#[derive(Drop)]
pub(crate) struct PairHits<'a> {
    table: &'a PayTable,
    first: Option<u8>,
    second: Option<u8>,
    means: HoldMeans<'a>,
}

impl<'a> Model for PairHits<'a> {
    ghost use Rattle.vp_hits.specs.Numbers.{AreTwoHits, AskedTwo};

    ghost Value = { AskedTwo };

    ghost view = { λ h. record { table = h.table.now; first = h.first; second = h.second } };

    ghost invariant = { λ h.
        AreTwoHits (record { table = h.table.now; first = h.first; second = h.second }) h.means };
}

impl<'a> PairHits<'a> {
    /// The hits of two lines. They are made in `words`, which may hold any numbers.
    pub(crate) fn of(
        table: &'a PayTable,
        first: Option<u8>,
        second: Option<u8>,
        words: &'a mut [u64],
    ) -> PairHits<'a>
        requires rules { IsTable table.now }
        requires one { IfSome first (λ place. place < length table.now.lines.items) }
        requires other { IfSome second (λ place. place < length table.now.lines.items) }
        requires long { length words.old ≡ first_word table.now.deck 6 }
        ensures { result ≡ record { table = table.now; first = first; second = second } }
    {
        pair_of::<Brand>(table, first, second, words, Blank::new(1))
    }

    /// The chances that the hold `mask` ends with a hand of the first line, and of the second, times the common denominator.
    pub(crate) fn weights(&self, hand: &Hand, mask: u8) -> (u64, u64)
        requires cards { in_deck self.now.table.deck hand.now ≡ true }
        requires mask { mask < 32 }
        ensures first { result.0 ≡ chance self.now.table self.now.first hand.now mask }
        ensures second { result.1 ≡ chance self.now.table self.now.second hand.now mask }
    {
        let both = self.means.means(hand)[mask as usize];
        (both % SECOND, both / SECOND)
    }
}

/// The hits of two lines; the blank is for a counter that nobody reads.
fn pair_of<'a, L: Ledger>(
    table: &'a PayTable,
    first: Option<u8>,
    second: Option<u8>,
    words: &'a mut [u64],
    blank: Blank,
) -> PairHits<'a>
    requires rules { IsTable table.now }
    requires one { IfSome first (λ place. place < length table.now.lines.items) }
    requires other { IfSome second (λ place. place < length table.now.lines.items) }
    requires long { length words.old ≡ first_word table.now.deck 6 }
    requires name { blank.name ≡ L.name }
    requires parts { blank.parts ≡ L.parts }
    requires share { 0 < blank.parts }
    ensures { result ≡ record { table = table.now; first = first; second = second } }
{
    let numbers = two_marks_of(first, second);
    PairHits {
        table,
        first,
        second,
        means: number_means(table, &numbers, words, &mut Steps::<L>::new(blank)),
    }
}
