//! `cross`: what one pay table's best play costs on another.

ghost use Rattle.std.specs.Prelude.{◌≡◌, ◌*◌, ◌≤◌, IfOk, length};
ghost use Rattle.vp_count.specs.Table.{first_word};
ghost use Rattle.vp_io.specs.Puts.{Puts};
ghost use Rattle.vp_pay.specs.Reads.{Reads};
ghost use Rattle.vp_text.specs.Written.{written};
ghost use Rattle.vp_cross.specs.Cross.{IsCrossing, cross_input, crossed_lines, crossed_of};

use crate::{Crossed, Worst, cross};
use std::marker::Model;
use vp_answer::{Stop, Work};
use vp_count::table_words;
use vp_draws::return_denominator;
use vp_hold::Game;
use vp_io::{Sink, WriteFault};
use vp_lines::{Word, put_lines};
use vp_pay::PayTable;
use vp_region::Carver;
use vp_text::{Lines, Refused};

/// A pay table whose best play is priced by another, for a bet.
#[derive(Drop)]
pub struct CrossJob {
    played: PayTable,
    priced: PayTable,
    coin: u8,
}

impl Model for CrossJob {
    ghost use Rattle.vp_cross.specs.Cross.{Crossing, IsCrossing};

    ghost Value = { Crossing };

    ghost view = { λ j. record { played = j.played; priced = j.priced; coin = j.coin } };

    ghost invariant = { λ j. IsCrossing (record { played = j.played; priced = j.priced; coin = j.coin }) };
}

impl CrossJob {
    ghost use Rattle.std.specs.Prelude.{◌≡◌, ◌≤◌, length};
    ghost use Rattle.vp_cross.specs.Cross.{cross_job};

    /// What the bytes leave to do for a bet: two pay tables of one deck that have it.
    pub fn read(coin: u8, bytes: &[u8]) -> Result<CrossJob, Stop>
        requires some { 1 ≤ coin }
        requires limit { length bytes.now ≤ 67108864 }
        ensures { result ≡ cross_job coin bytes.now }
    {
        let (played, priced) = two_tables(coin, bytes)?;
        Ok(CrossJob {
            played,
            priced,
            coin,
        })
    }
}

impl Work for CrossJob {
    ghost use Rattle.vp_cross.specs.Cross.{cross_due, cross_some};

    ghost due = { cross_due };

    ghost some_text = { cross_some };

    /// A table of sums for each pay table.
    #[tactic(auto, using(vp_count::proofs::Words::first_word_small))]
    fn words(&self) -> usize {
        2 * table_words(self.played.deck)
    }

    /// Puts what the play costs.
    fn put<K: Sink>(&self, memory: &mut [u64], sink: &mut K) -> Result<(), WriteFault> {
        let many = table_words(self.played.deck);
        let mut carver = Carver::over(memory);
        let words = carver.take_as_it_is(many).unwrap();
        let more = carver.take_as_it_is(many).unwrap();
        let crossed = crossed_of(&self.played, &self.priced, self.coin, words, more);
        let under = return_denominator(self.played.deck, self.coin);
        put_crossed(&crossed, under, sink)
    }
}

/// The two pay tables that the bytes say, for a bet of `coin`.
#[tactic(auto, unfolding(vp_pay::specs::Inputs::section_input))]
fn two_tables(coin: u8, bytes: &[u8]) -> Result<(PayTable, PayTable), Refused>
    requires some { 1 ≤ coin }
    requires limit { length bytes.now ≤ 67108864 }
    ensures says { Reads (λ read. read) result (cross_input coin bytes.now) }
    ensures crossing { IfOk result (λ read.
        IsCrossing (record { played = read.0; priced = read.1; coin = coin })) }
{
    let mut lines = Lines::new(bytes);
    let played = PayTable::read(&mut lines)?;
    if played.coins < coin {
        return Err(Refused { line: lines.last() });
    }
    let priced = PayTable::read(&mut lines)?;
    if priced.deck != played.deck || priced.coins < coin {
        return Err(Refused { line: lines.last() });
    }
    match lines.next() {
        None => Ok((played, priced)),
        Some(words) => Err(Refused { line: words.line() }),
    }
}

/// What the play of the first table costs on the second, out of the tables of sums that are made in the words.
#[tactic(auto, unfolding(crate::specs::Cross::crossed_of))]
fn crossed_of(
    played: &PayTable,
    priced: &PayTable,
    coin: u8,
    words: &mut [u64],
    more: &mut [u64],
) -> Crossed
    requires crossing { IsCrossing (record { played = played.now; priced = priced.now; coin = coin }) }
    requires long { length words.old ≡ first_word played.now.deck 6 }
    requires longer { length more.old ≡ first_word played.now.deck 6 }
    ensures all { result
        ≡ crossed_of (record { played = played.now; priced = priced.now; coin = coin }) }
    ensures most { result.value ≤ result.optimum }
{
    let first = Game::of(played, coin, words);
    let second = Game::of(priced, coin, more);
    let crossed = cross(&first, &second);
    Crossed {
        optimum: crossed.optimum,
        value: crossed.value,
        classes: crossed.classes,
        deals: crossed.deals,
        worst: crossed.worst,
    }
}

/// Puts what a play costs, its sums over this denominator: the lines of the sums, of the numbers of classes and deals, and
/// of the class that costs most, where there is one.
fn put_crossed<K: Sink>(crossed: &Crossed, under: u64, sink: &mut K) -> Result<(), WriteFault>
    requires { crossed.now.value ≤ crossed.now.optimum }
    ensures { Puts (K.told sink.old) (K.told sink.new) result
        (written (crossed_lines crossed.now under)) }
{
    let under = under as u128;
    let optimum = [
        Word::Text(b"optimum"),
        Word::Fraction(crossed.optimum, under),
    ];
    let value = [Word::Text(b"cross"), Word::Fraction(crossed.value, under)];
    let loss = [
        Word::Text(b"loss"),
        Word::Fraction(crossed.optimum - crossed.value, under),
    ];
    let differ = [
        Word::Text(b"differ"),
        Word::Number(crossed.classes as u128),
        Word::Number(crossed.deals as u128),
    ];
    match &crossed.worst {
        None => put_lines(&[&optimum, &value, &loss, &differ], sink),
        Some(worst) => {
            let worst = [
                Word::Text(b"worst"),
                Word::Hand(&worst.hand),
                Word::Number(worst.mask as u128),
                Word::Number(worst.best as u128),
                Word::Number(worst.cost as u128),
            ];
            put_lines(&[&optimum, &value, &loss, &differ, &worst], sink)
        }
    }
}
