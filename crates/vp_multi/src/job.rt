//! `multi`: the moments of several hands from one deal.

ghost use Rattle.std.specs.Prelude.{◌≡◌, ◌*◌, ◌≤◌, length};
ghost use Rattle.vp_card.specs.Cards.{IsDeck};
ghost use Rattle.vp_count.specs.Table.{first_word};
ghost use Rattle.vp_io.specs.Puts.{Puts};
ghost use Rattle.vp_sets.specs.Draws.{common};
ghost use Rattle.vp_sets.specs.Sets.{choose};
ghost use Rattle.vp_text.specs.Written.{written};
ghost use Rattle.vp_multi.specs.Multi.{IsDrawn, moment_lines, moments_of};

use crate::{MomentSums, moments};
use std::marker::Model;
use vp_answer::{Stop, Work};
use vp_count::table_words;
use vp_draws::return_denominator;
use vp_hold::{Game, Squares};
use vp_io::{Sink, WriteFault};
use vp_lines::{Word, put_lines};
use vp_pay::{HasBet, PayTable, read_input};
use vp_region::Carver;
use vp_sets::common;

/// Hands that are drawn from one deal, for a bet on a pay table.
#[derive(Drop)]
pub struct MultiJob {
    table: PayTable,
    coin: u8,
    hands: u8,
}

impl Model for MultiJob {
    ghost use Rattle.vp_multi.specs.Multi.{Drawn, IsDrawn};

    ghost Value = { Drawn };

    ghost view = { λ j. record { table = j.table; coin = j.coin; hands = j.hands } };

    ghost invariant = { λ j. IsDrawn (record { table = j.table; coin = j.coin; hands = j.hands }) };
}

impl MultiJob {
    ghost use Rattle.std.specs.Prelude.{◌≡◌, ◌≤◌, length};
    ghost use Rattle.vp_multi.specs.Multi.{multi_job};

    /// What the bytes leave to do for a bet and a number of hands: a pay table that has the bet.
    #[tactic(auto, unfolding(vp_pay::specs::Inputs::section_input, vp_pay::specs::Inputs::table_input))]
    pub fn read(coin: u8, hands: u8, bytes: &[u8]) -> Result<MultiJob, Stop>
        requires some { 1 ≤ coin }
        requires hands { 1 ≤ hands }
        requires most { hands ≤ 100 }
        requires limit { length bytes.now ≤ 67108864 }
        ensures { result ≡ multi_job coin hands bytes.now }
    {
        let (table, ()) = read_input::<(), HasBet>(bytes, &HasBet { coin })?;
        Ok(MultiJob { table, coin, hands })
    }
}

impl Work for MultiJob {
    ghost use Rattle.vp_multi.specs.Multi.{multi_due, multi_some};

    ghost due = { multi_due };

    ghost some_text = { multi_some };

    /// A table of sums of payments, and one of squares.
    #[tactic(auto, using(vp_count::proofs::Words::first_word_small))]
    fn words(&self) -> usize {
        2 * table_words(self.table.deck)
    }

    /// Puts the four lines of the moments.
    fn put<K: Sink>(&self, memory: &mut [u64], sink: &mut K) -> Result<(), WriteFault> {
        let many = table_words(self.table.deck);
        let mut carver = Carver::over(memory);
        let words = carver.take_as_it_is(many).unwrap();
        let more = carver.take_as_it_is(many).unwrap();
        let sums = moments_of(&self.table, self.coin, self.hands, words, more);
        put_moments(sums, self.table.deck, sink)
    }
}

/// The moments, out of the tables of sums that are made in the words.
#[tactic(auto, unfolding(crate::specs::Multi::moments_of))]
fn moments_of(
    table: &PayTable,
    coin: u8,
    hands: u8,
    words: &mut [u64],
    more: &mut [u64],
) -> MomentSums
    requires drawn { IsDrawn (record { table = table.now; coin = coin; hands = hands }) }
    requires long { length words.old ≡ first_word table.now.deck 6 }
    requires longer { length more.old ≡ first_word table.now.deck 6 }
    ensures { result ≡ moments_of (record { table = table.now; coin = coin; hands = hands }) }
{
    let game = Game::of(table, coin, words);
    let squares = Squares::fill(&game, more);
    let sums = moments(&game, &squares, hands);
    MomentSums {
        mean: sums.mean,
        second: sums.second,
        within: sums.within,
        between: sums.between,
    }
}

/// Puts the four lines of the moments over all deals from a deck of `n` cards.
fn put_moments<K: Sink>(sums: MomentSums, n: u8, sink: &mut K) -> Result<(), WriteFault>
    requires { IsDeck n }
    ensures { Puts (K.told sink.old) (K.told sink.new) result
        (written (moment_lines sums (choose n 5 * common n) (common n))) }
{
    put_fractions(sums, mean_denominator(n), common(n), sink)
}

/// The same, over the number of deals times the common denominator, and that.
fn put_fractions<K: Sink>(
    sums: MomentSums,
    all: u64,
    under: u64,
    sink: &mut K,
) -> Result<(), WriteFault>
    ensures { Puts (K.told sink.old) (K.told sink.new) result
        (written (moment_lines sums all under)) }
{
    let square = u128::from(all) * u128::from(under);
    let mean = [Word::Text(b"mean"), Word::Fraction(sums.mean, all as u128)];
    let second = [Word::Text(b"second"), Word::Fraction(sums.second, square)];
    let within = [Word::Text(b"within"), Word::Fraction(sums.within, square)];
    let between = [
        Word::Text(b"between"),
        Word::Fraction(sums.between, u128::from(all) * u128::from(all)),
    ];
    put_lines(&[&mean, &second, &within, &between], sink)
}

/// What the mean stands over: the number of deals times the common denominator.
#[tactic(auto, unfolding(vp_draws::specs::Draws::return_denominator))]
fn mean_denominator(n: u8) -> u64
    requires { IsDeck n }
    ensures { result ≡ choose n 5 * common n }
{
    return_denominator(n, 1)
}
