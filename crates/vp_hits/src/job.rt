//! `hits`: how often each pay line comes under the printed holds.

ghost use Rattle.std.specs.Prelude.{◌≡◌, ◌<◌, ◌≤◌, ℕ, Some, None, length, slice_index};
ghost use Rattle.vp_draws.specs.Draws.{sum_of_best};
ghost use Rattle.vp_io.specs.Puts.{Puts};
ghost use Rattle.vp_pay.specs.Bets.{IsBet};
ghost use Rattle.vp_text.specs.Written.{line_of, written};
ghost use Rattle.vp_hits.specs.Hits.{often};
ghost use Rattle.vp_hits.specs.HitsJob.{end_lines, hit_lines, hit_words, hits_lines};

use crate::{LineCounts, line_counts};
use std::marker::Model;
use vp_answer::{Stop, Work};
use vp_count::table_words;
use vp_draws::return_denominator;
use vp_io::{Sink, WriteFault};
use vp_lines::{Word, put_lines, put_words};
use vp_pay::{HasBet, PayLine, PayTable, read_input};
use vp_region::Carver;

/// A bet on a pay table.
#[derive(Drop)]
pub struct HitsJob {
    table: PayTable,
    coin: u8,
}

impl Model for HitsJob {
    ghost use Rattle.vp_pay.specs.Bets.{Bet, IsBet};

    ghost Value = { Bet };

    ghost view = { λ j. record { table = j.table; coin = j.coin } };

    ghost invariant = { λ j. IsBet j.table j.coin };
}

impl HitsJob {
    ghost use Rattle.std.specs.Prelude.{◌≡◌, ◌≤◌, length};
    ghost use Rattle.vp_hits.specs.HitsJob.{hits_job};

    /// What the bytes leave to do for a bet: a pay table that has it.
    #[tactic(auto, unfolding(vp_pay::specs::Inputs::section_input, vp_pay::specs::Inputs::table_input))]
    pub fn read(coin: u8, bytes: &[u8]) -> Result<HitsJob, Stop>
        requires some { 1 ≤ coin }
        requires limit { length bytes.now ≤ 67108864 }
        ensures { result ≡ hits_job coin bytes.now }
    {
        let (table, ()) = read_input::<(), HasBet>(bytes, &HasBet { coin })?;
        Ok(HitsJob { table, coin })
    }
}

impl Work for HitsJob {
    ghost use Rattle.vp_hits.specs.HitsJob.{hits_due, hits_some};

    ghost due = { hits_due };

    ghost some_text = { hits_some };

    /// A table of sums, and one for the masks of the printed holds.
    #[tactic(auto, using(vp_count::proofs::Words::first_word_small))]
    fn words(&self) -> usize {
        2 * table_words(self.table.deck)
    }

    /// Puts the lines of the pay lines, of none, and of the return.
    fn put<K: Sink>(&self, memory: &mut [u64], sink: &mut K) -> Result<(), WriteFault> {
        let many = table_words(self.table.deck);
        let mut carver = Carver::over(memory);
        let words = carver.take_as_it_is(many).unwrap();
        let more = carver.take_as_it_is(many).unwrap();
        let counts = line_counts(&self.table, self.coin, words, more);
        put_counts(&self.table, self.coin, &counts, sink)
    }
}

/// Puts how often the lines of the table come.
fn put_counts<K: Sink>(
    table: &PayTable,
    coin: u8,
    counts: &LineCounts,
    sink: &mut K,
) -> Result<(), WriteFault>
    requires bet { IsBet table.now coin }
    requires lines { (place : ℕ) → place < length table.now.lines.items
        → slice_index counts.now.lines place ≡ often table.now coin (Some place) }
    requires none { counts.now.none ≡ often table.now coin None }
    requires value { counts.now.value ≡ sum_of_best table.now coin }
    ensures { Puts (K.told sink.old) (K.told sink.new) result
        (written (hits_lines (record { table = table.now; coin = coin }))) }
{
    let all = return_denominator(table.deck, 1);
    let under = return_denominator(table.deck, coin);
    put_hits(table.lines.as_slice(), coin, &counts.lines, all, sink)?;
    put_ends(counts.none, counts.value, all, under, sink)
}

/// Puts a line for each of at most 34 pay lines.
fn put_hits<K: Sink>(
    lines: &[PayLine],
    coin: u8,
    many: &[u128; 34],
    all: u64,
    sink: &mut K,
) -> Result<(), WriteFault>
    requires some { 1 ≤ coin }
    requires most { coin ≤ 5 }
    requires few { length lines.now ≤ 34 }
    ensures { Puts (K.told sink.old) (K.told sink.new) result
        (written (hit_lines (slice_index many.now) coin all 0 lines.now)) }
{
    for place in 0..lines.len() {
        put_hit(&lines[place], coin, many[place], all, sink)?;
    }
    Ok(())
}

/// Puts the line of a pay line.
fn put_hit<K: Sink>(
    line: &PayLine,
    coin: u8,
    many: u128,
    all: u64,
    sink: &mut K,
) -> Result<(), WriteFault>
    requires some { 1 ≤ coin }
    requires most { coin ≤ 5 }
    ensures { Puts (K.told sink.old) (K.told sink.new) result
        (line_of (hit_words line.now coin many all)) }
{
    let pay = line.pays[usize::from(coin - 1)];
    let words = [
        Word::Text(b"hit"),
        Word::Text(line.name.text()),
        Word::Number(pay as u128),
        Word::Fraction(many, all as u128),
    ];
    put_words(&words, sink)
}

/// Puts how often no line comes, and the return.
fn put_ends<K: Sink>(
    none: u128,
    value: u64,
    all: u64,
    under: u64,
    sink: &mut K,
) -> Result<(), WriteFault>
    ensures { Puts (K.told sink.old) (K.told sink.new) result
        (written (end_lines none value all under)) }
{
    let none = [Word::Text(b"none"), Word::Fraction(none, all as u128)];
    let value = [
        Word::Text(b"return"),
        Word::Fraction(value as u128, under as u128),
    ];
    put_lines(&[&none, &value], sink)
}
