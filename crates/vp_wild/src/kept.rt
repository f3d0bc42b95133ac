//! Payments that are kept, so that few hands which no pay line tells apart are ranked again.

ghost use Rattle.std.specs.Prelude.{◌≡◌, ℕ, ◌+◌, ◌<◌, ◌≤◌, List, length, IfSome};
ghost use Rattle.vp_sets.specs.Index.{IsSet};
ghost use Rattle.vp_wild.specs.Kept.{ArePaid};
ghost use Rattle.vp_wild.specs.Payment.{line, pay};

use crate::{KeptLines, Steps};
use std::marker::Model;
use std::sync::ledger::Ledger;
use vp_pay::PayTable;

/// The payments of a bet, each kept for all hands that no pay line tells apart from the one that was ranked.
#[derive(Drop)]
pub struct KeptPayments<'a> {
    lines: KeptLines<'a>,
    coin: u8,
    pays: [u32; 33],
}

impl<'a> Model for KeptPayments<'a> {
    ghost use Rattle.std.specs.Prelude.{◌≤◌};
    ghost use Rattle.vp_wild.specs.Kept.{ArePaid, Bet};

    ghost Value = { Bet };

    ghost view = { λ p. record { table = p.lines; coin = p.coin } };

    ghost invariant = { λ p. (1 ≤ p.coin) × (p.coin ≤ 5) × ArePaid p.lines p.coin p.pays };
}

impl<'a> KeptPayments<'a> {
    /// No payment is kept yet, for a bet of `coin`, 1 to 5.
    pub fn new(table: &'a PayTable, coin: u8) -> KeptPayments<'a>
        requires some { 1 ≤ coin }
        requires most { coin ≤ 5 }
        ensures table { result.table ≡ table.now }
        ensures coin { result.coin ≡ coin }
    {
        let pays = pays_of(table, coin);
        KeptPayments {
            lines: KeptLines::new(table),
            coin,
            pays,
        }
    }

    /// The payment of the hand of these cards: the one that is kept for it, or a new one, which is then kept. One step
    /// for either.
    pub fn pay<L: Ledger>(&mut self, cards: &[u8; 5], steps: &mut Steps<L>) -> u32
        requires five { length cards.now ≡ 5 }
        requires set { IsSet 54 cards.now }
        ensures payment { result ≡ pay self.old.table self.old.coin cards.now }
        ensures same { self.new ≡ self.old }
        ensures step { steps.new ≡ steps.old + 1 }
    {
        self.pays[self.lines.slot(cards, steps) as usize]
    }
}

/// What each pay line pays for a bet of `coin`, 1 to 5, by the places of the lines, of which there are at most 32; the
/// last payment is that of no line.
fn pays_of(table: &PayTable, coin: u8) -> [u32; 33]
    requires some { 1 ≤ coin }
    requires most { coin ≤ 5 }
    ensures { ArePaid table.now coin result }
{
    let mut pays = [0; 33];
    for place in 0..table.lines.len() {
        pays[place] = paid(table, coin, Some(place as u8));
    }
    pays
}

/// What a hand of the pay line at this place is paid for a bet of `coin`, 1 to 5, and a hand of no line.
pub fn paid(table: &PayTable, coin: u8, place: Option<u8>) -> u32
    requires some { 1 ≤ coin }
    requires most { coin ≤ 5 }
    requires inside { IfSome place (λ i. i < length table.now.lines.items) }
    // Each hand of that line is paid so.
    ensures { (hand : List ℕ) → line table.now hand ≡ place → result ≡ pay table.now coin hand }
{
    match place {
        Some(place) => table.lines[place as usize].pays[usize::from(coin - 1)],
        None => 0,
    }
}
