//! A bet on a pay table, with the means that its values are.

ghost use Rattle.std.specs.Prelude.{ℕ, ◌≡◌, ◌+◌, ◌<◌, ◌≤◌, true, length, map};
ghost use Rattle.vp_card.specs.Cards.{in_deck};
ghost use Rattle.vp_pay.specs.Bets.{IsBet};
ghost use Rattle.vp_pay.specs.Table.{IsTable};
ghost use Rattle.vp_sets.specs.Sets.{choose};
ghost use Rattle.vp_count.specs.Table.{first_word};
ghost use Rattle.vp_draws.specs.Draws.{best, least_best, masks, ties, value};

use crate::HoldMeans;
use crate::payments::payment_means;
use std::marker::{Brand, Model};
use std::sync::ledger::{Blank, Ledger};
use vp_card::Hand;
use vp_draws::{Best, best_of_values};
use vp_pay::PayTable;
use vp_wild::Steps;

/// A bet on a pay table, and the means of the payments of all hands of its deck.
#[derive(Drop)]
pub struct Game<'a> {
    pub(crate) table: &'a PayTable,
    pub(crate) coin: u8,
    pub(crate) means: HoldMeans<'a>,
}

impl<'a> Model for Game<'a> {
    ghost use Rattle.vp_wild.specs.Kept.{Bet};
    ghost use Rattle.vp_hold.specs.Games.{IsGame};

    ghost Value = { Bet };

    ghost view = { λ g. record { table = g.table.now; coin = g.coin } };

    ghost invariant = { λ g. IsGame g.table.now g.coin g.means };
}

impl<'a> Game<'a> {
    /// Ranks every hand of the deck once, and makes the sums of their payments in `words`, which may hold any numbers.
    /// One step of the counter for each hand; a payment that is kept for all hands of its shape is a step, too.
    pub fn fill<L: Ledger>(
        table: &'a PayTable,
        coin: u8,
        words: &'a mut [u64],
        steps: &mut Steps<L>,
    ) -> Game<'a>
        requires bet { IsBet table.now coin }
        requires long { length words.old ≡ first_word table.now.deck 6 }
        ensures table { result.table ≡ table.now }
        ensures coin { result.coin ≡ coin }
        ensures steps { steps.new ≡ steps.old + choose table.now.deck 5 }
    {
        Game {
            table,
            coin,
            means: payment_means(table, coin, words, steps),
        }
    }

    /// The game of a bet. The sums are made in `words`, which may hold any numbers; the hands are not counted.
    pub fn of(table: &'a PayTable, coin: u8, words: &'a mut [u64]) -> Game<'a>
        requires bet { IsBet table.now coin }
        requires long { length words.old ≡ first_word table.now.deck 6 }
        ensures table { result.table ≡ table.now }
        ensures coin { result.coin ≡ coin }
    {
        game_of::<Brand>(table, coin, words, Blank::new(1))
    }

    /// The pay table.
    pub fn table(&self) -> &PayTable
        ensures table { result.now ≡ self.now.table }
        ensures rules { IsTable self.now.table }
    {
        self.table
    }

    /// The number of coins bet.
    pub fn coin(&self) -> u8
        ensures coin { result ≡ self.now.coin }
        ensures coin_from { 1 ≤ self.now.coin }
        ensures coin_to { self.now.coin ≤ self.now.table.coins }
    {
        self.coin
    }

    /// The value of the hold `mask`: its expected payment times the common denominator of the deck. Bit `i` holds the
    /// card at place `i` of the hand.
    pub fn value(&self, hand: &Hand, mask: u8) -> u64
        requires cards { in_deck self.now.table.deck hand.now ≡ true }
        requires mask { mask < 32 }
        ensures { result ≡ value self.now.table self.now.coin hand.now mask }
    {
        self.means.mean(hand, mask)
    }

    /// The values of the 32 holds of the hand; the place of each is its mask.
    pub fn values(&self, hand: &Hand) -> [u64; 32]
        requires cards { in_deck self.now.table.deck hand.now ≡ true }
        ensures { result ≡ map (value self.now.table self.now.coin hand.now) masks }
    {
        self.means.means(hand)
    }

    /// The best of the 32 holds of the hand.
    pub fn best(&self, hand: &Hand) -> Best
        requires cards { in_deck self.now.table.deck hand.now ≡ true }
        ensures hold { result.mask < 32 }
        ensures value { result.value ≡ value self.now.table self.now.coin hand.now result.mask }
        // No other hold exceeds it.
        ensures greatest { (mask : ℕ) → mask < 32 → value self.now.table self.now.coin hand.now mask ≤ result.value }
        // Each smaller mask is worth less.
        ensures least { (mask : ℕ) → mask < result.mask → value self.now.table self.now.coin hand.now mask < result.value }
        ensures ties { result.ties ≡ ties self.now.table self.now.coin hand.now }
        ensures best { result.value ≡ best self.now.table self.now.coin hand.now }
        ensures least_best { result.mask ≡ least_best self.now.table self.now.coin hand.now }
    {
        best_of_values(&self.values(hand))
    }
}

/// The game of a bet; the blank is for a counter that nobody reads.
fn game_of<'a, L: Ledger>(
    table: &'a PayTable,
    coin: u8,
    words: &'a mut [u64],
    blank: Blank,
) -> Game<'a>
    requires bet { IsBet table.now coin }
    requires long { length words.old ≡ first_word table.now.deck 6 }
    requires name { blank.name ≡ L.name }
    requires parts { blank.parts ≡ L.parts }
    requires share { 0 < blank.parts }
    ensures table { result.table ≡ table.now }
    ensures coin { result.coin ≡ coin }
{
    Game::fill(table, coin, words, &mut Steps::<L>::new(blank))
}
