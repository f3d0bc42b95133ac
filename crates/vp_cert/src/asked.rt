//! The best holds of a game, which are counted as they are asked for.

use crate::Holds;
use std::marker::Model;
use vp_card::Hand;
use vp_draws::Best;
use vp_hold::Game;
use vp_pay::PayTable;

/// Tells the best holds of a game, and counts how many were asked for. The count stands still at 2^64 - 1.
#[derive(Drop)]
pub struct Asked<'a> {
    game: &'a Game<'a>,
    count: u64,
}

impl<'a> Model for Asked<'a> {
    ghost use Rattle.vp_cert.specs.Holds.{Asking};

    ghost Value = { Asking };

    ghost view = { λ a. record { table = a.game.now.table; bet = a.game.now.coin; count = a.count } };
}

impl<'a> Asked<'a> {
    ghost use Rattle.std.specs.Prelude.{◌≡◌};

    /// A game of which nothing was asked.
    pub fn new(game: &'a Game<'a>) -> Asked<'a>
        ensures table { result.table ≡ game.now.table }
        ensures bet { result.bet ≡ game.now.coin }
        ensures unasked { result.count ≡ 0 }
    {
        Asked { game, count: 0 }
    }

    /// How many best holds were asked for.
    pub fn count(&self) -> u64
        ensures { result ≡ self.now.count }
    {
        self.count
    }
}

impl<'a> Holds for Asked<'a> {
    ghost pays = { λ a. a.table };

    ghost bet = { λ a. a.bet };

    ghost asked = { λ a. a.count };

    fn table(&self) -> &PayTable {
        self.game.table()
    }

    fn coin(&self) -> u8 {
        self.game.coin()
    }

    fn best(&mut self, hand: &Hand) -> Best {
        if self.count < u64::MAX {
            self.count += 1;
        }
        self.game.best(hand)
    }
}
