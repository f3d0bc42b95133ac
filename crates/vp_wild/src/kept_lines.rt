//! Pay lines that are kept, so that few hands which no pay line tells apart are ranked again.

ghost use Rattle.std.specs.Prelude.{◌≡◌, ◌+◌, ◌<◌, IfSome, length};
ghost use Rattle.vp_sets.specs.Index.{IsSet};
ghost use Rattle.vp_wild.specs.Kept.{slot};
ghost use Rattle.vp_wild.specs.Payment.{line};
ghost use Rattle.vp_wild.specs.Places.{place_of};

use crate::places::{PLACES, Places};
use crate::{Steps, line_of};
use std::marker::Model;
use std::sync::ledger::Ledger;
use vp_pay::PayTable;
use vp_sets::hand_of;

/// The slot of a hand that hits no line: past the places of all lines.
const NO_LINE: u8 = 32;

/// The pay lines of a table, each kept for all hands that no pay line tells apart from the one that was ranked.
#[derive(Drop)]
pub struct KeptLines<'a> {
    table: &'a PayTable,
    places: Places,
    kept: [Option<u8>; PLACES],
}

impl<'a> Model for KeptLines<'a> {
    ghost use Rattle.std.specs.Prelude.{◌≡◌};
    ghost use Rattle.vp_pay.specs.declared.table.PayTable.{PayTable};
    ghost use Rattle.vp_wild.specs.Kept.{AreKept};

    ghost Value = { PayTable };

    ghost view = { λ p. p.table.now };

    ghost invariant = { λ p. AreKept p.table.now p.kept × (p.places.wild ≡ p.table.now.wild) };
}

impl<'a> KeptLines<'a> {
    /// No line is kept yet.
    pub fn new(table: &'a PayTable) -> KeptLines<'a>
        ensures { result ≡ table.now }
    {
        KeptLines {
            table,
            places: Places::of(table.wild),
            kept: [None; PLACES],
        }
    }

    /// The pay table.
    pub fn table(&self) -> &'a PayTable
        ensures { result.now ≡ self.now }
    {
        self.table
    }

    /// The first pay line that the hand of these cards hits: the one that is kept for it, or a new one, which is then
    /// kept. One step for either.
    pub fn line<L: Ledger>(&mut self, cards: &[u8; 5], steps: &mut Steps<L>) -> Option<u8>
        requires five { length cards.now ≡ 5 }
        requires set { IsSet 54 cards.now }
        ensures line { result ≡ line self.old cards.now }
        ensures inside { IfSome result (λ i. i < length self.old.lines.items) }
        ensures same { self.new ≡ self.old }
        ensures step { steps.new ≡ steps.old + 1 }
    {
        let slot = self.slot(cards, steps);
        if usize::from(slot) < self.table.lines.len() {
            Some(slot)
        } else {
            None
        }
    }

    /// The place of that line, and 32 where the hand hits none: where a number of the hand stands among 33, of which the
    /// last is that of no line.
    pub fn slot<L: Ledger>(&mut self, cards: &[u8; 5], steps: &mut Steps<L>) -> u8
        requires five { length cards.now ≡ 5 }
        requires set { IsSet 54 cards.now }
        ensures slot { result ≡ slot self.old cards.now }
        ensures same { self.new ≡ self.old }
        ensures step { steps.new ≡ steps.old + 1 }
    {
        let place = self.places.place_of(cards);
        if let Some(slot) = self.kept[place] {
            steps.tick();
            return slot;
        }
        self.keep(place, cards, steps)
    }

    /// Ranks the hand of these cards, and keeps its slot at its place.
    #[cold]
    #[inline(never)]
    fn keep<L: Ledger>(&mut self, place: usize, cards: &[u8; 5], steps: &mut Steps<L>) -> u8
        requires five { length cards.now ≡ 5 }
        requires set { IsSet 54 cards.now }
        requires place { place ≡ place_of self.old.wild cards.now }
        requires inside { place < 17136 }
        ensures slot { result ≡ slot self.old cards.now }
        ensures same { self.new ≡ self.old }
        ensures step { steps.new ≡ steps.old + 1 }
    {
        let line = line_of(self.table, &hand_of(cards), steps);
        let slot = line.unwrap_or(NO_LINE);
        self.kept[place] = Some(slot);
        slot
    }
}
