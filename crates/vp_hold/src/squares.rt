//! The means of the squares of a game's payments.

ghost use Rattle.std.specs.Prelude.{◌≡◌, ◌*◌, ◌<◌, ◌≤◌, true, length, map};
ghost use Rattle.std.specs.List.{All};
ghost use Rattle.vp_card.specs.Cards.{IsDeck, in_deck};
ghost use Rattle.vp_sets.specs.Sets.{choose};
ghost use Rattle.vp_count.specs.Table.{first_word};
ghost use Rattle.vp_draws.specs.Draws.{value2};

use crate::{Game, HoldMeans};
use std::marker::Model;
use vp_card::Hand;
use vp_pay::PayTable;

/// A bet on a pay table, and the means of the squares of the payments of all hands of its deck.
#[derive(Drop)]
pub struct Squares<'a> {
    table: &'a PayTable,
    coin: u8,
    means: HoldMeans<'a>,
}

impl<'a> Model for Squares<'a> {
    ghost use Rattle.vp_wild.specs.Kept.{Bet};
    ghost use Rattle.vp_hold.specs.Games.{AreSquares};

    ghost Value = { Bet };

    ghost view = { λ s. record { table = s.table.now; coin = s.coin } };

    ghost invariant = { λ s. AreSquares s.table.now s.coin s.means };
}

impl<'a> Squares<'a> {
    /// The squares of the game's payments, which are not reckoned again: they are read out of its means. Those of the
    /// squares are made in `words`, which may hold any numbers.
    pub fn fill(game: &Game<'a>, words: &'a mut [u64]) -> Squares<'a>
        requires long { length words.old ≡ first_word game.now.table.deck 6 }
        ensures bet { result ≡ game.now }
    {
        let payments = game.means.numbers();
        Squares {
            table: game.table,
            coin: game.coin,
            means: square_means(game.table.deck, payments, words),
        }
    }

    /// The mean square of the payments of the hold `mask`, times the common denominator of the deck. Bit `i` holds the
    /// card at place `i` of the hand.
    pub fn value(&self, hand: &Hand, mask: u8) -> u64
        requires cards { in_deck self.now.table.deck hand.now ≡ true }
        requires mask { mask < 32 }
        ensures { result ≡ value2 self.now.table self.now.coin hand.now mask }
    {
        self.means.mean(hand, mask)
    }
}

/// The means of the squares of the payments of all hands of a deck of `n` cards, made in `words`.
fn square_means<'a>(n: u8, payments: &[u64], words: &'a mut [u64]) -> HoldMeans<'a>
    requires deck { IsDeck n }
    requires many { length payments.now ≡ choose n 5 }
    requires small { All (λ x. x ≤ 500000) payments.now }
    requires long { length words.old ≡ first_word n 6 }
    ensures size { result.size ≡ n }
    ensures numbers { result.numbers ≡ map (λ x. x * x) payments.now }
{
    let first = words.len() - payments.len();
    write_squares(payments, &mut words[first..]);
    HoldMeans::fill(n, words)
}

/// Writes the square of each payment at its place.
fn write_squares(payments: &[u64], squares: &mut [u64])
    requires long { length squares.old ≡ length payments.now }
    requires small { All (λ x. x ≤ 500000) payments.now }
    ensures { squares.new ≡ map (λ x. x * x) payments.now }
{
    for place in 0..payments.len() {
        squares[place] = payments[place] * payments[place];
    }
}
