//! `play`: a large log from a number, made, read and priced.

ghost use Rattle.vp_card.specs.Cards.{IsDeck};
ghost use Rattle.vp_io.specs.Puts.{Puts};
ghost use Rattle.vp_text.specs.Written.{written};
ghost use Rattle.vp_gen.specs.Play.{played_lines};

use crate::make_log;
use std::alloc::{AllocError, Global};
use std::marker::Model;
use vp_answer::{HeapWork, Status, Stop};
use vp_count::table_words;
use vp_hold::Game;
use vp_io::{Sink, WriteFault};
use vp_lines::{Word, put_words};
use vp_loggram::Log;
use vp_pay::{HasBet, PayTable, read_input};
use vp_region::Carver;
use vp_replay::{Summary, put_summary, summary_at};
use vp_text::Lines;

/// A bet on a pay table, the seed of a log, and how many games it has.
#[derive(Drop)]
pub struct PlayJob {
    table: PayTable,
    coin: u8,
    seed: u64,
    games: u32,
}

impl Model for PlayJob {
    ghost use Rattle.vp_gen.specs.Play.{IsPlayed, Played};

    ghost Value = { Played };

    ghost view = { λ j. record { table = j.table; coin = j.coin; seed = j.seed; games = j.games } };

    ghost invariant = { λ j. IsPlayed
        (record { table = j.table; coin = j.coin; seed = j.seed; games = j.games }) };
}

impl PlayJob {
    ghost use Rattle.std.specs.Prelude.{◌≡◌, ◌≤◌, IfOk, None, length};
    ghost use Rattle.vp_count.specs.Table.{first_word};
    ghost use Rattle.vp_gen.specs.Play.{log_of, play_job};
    ghost use Rattle.vp_loggram.specs.Logs.{IsLog};
    ghost use Rattle.vp_loggram.specs.Spelling.{log_text};
    ghost use Rattle.vp_replay.specs.Rules.{break_in};
    ghost use Rattle.vp_replay.specs.Summaries.{AllBet, summary_of};
    ghost use Rattle.vp_text.specs.Written.{written};

    /// What the bytes leave to do for a bet, a seed and a number of games: a pay table that has the bet.
    #[tactic(auto, unfolding(vp_pay::specs::Inputs::table_input, vp_pay::specs::Inputs::section_input))]
    pub fn read(coin: u8, seed: u64, games: u32, bytes: &[u8]) -> Result<PlayJob, Stop>
        requires some { 1 ≤ coin }
        requires games { 1 ≤ games }
        requires most { games ≤ 100000 }
        requires limit { length bytes.now ≤ 67108864 }
        ensures { result ≡ play_job coin seed games bytes.now }
    {
        let (table, ()) = read_input::<(), HasBet>(bytes, &HasBet { coin })?;
        Ok(PlayJob {
            table,
            coin,
            seed,
            games,
        })
    }

    /// The numbers of the log, which is made and read. The error is want of memory. All its games bet the same, so the
    /// sums of that bet are the only ones that are made.
    fn summary(&self, alloc: Global, words: &mut [u64]) -> Result<Summary, AllocError>
        requires { length words.old ≡ first_word self.now.table.deck 6 }
        ensures { IfOk result
            (λ summary. summary ≡ summary_of self.now.table (log_of self.now)) }
    {
        let game = Game::of(&self.table, self.coin, words);
        let text = make_log(alloc, &game, self.seed, self.games)?;
        Ok(summary_at(&game, &self.read_log(&text)))
    }

    /// The log that its text says. It is in the grammar, whatever the seed, and no game breaks a law: so its text is not
    /// read before its games are.
    fn read_log<'a>(&self, text: &'a [u8]) -> Log<'a>
        requires { text.now ≡ written (log_text (log_of self.now)) }
        ensures log { result ≡ log_of self.now }
        ensures grammar { IsLog self.now.table.deck result }
        ensures lawful { break_in self.now.table result ≡ None }
        ensures bets { AllBet self.now.coin result.events }
    {
        let deck = self.table.deck;
        Log::open(&mut Lines::new(text), deck).unwrap()
    }
}

impl HeapWork for PlayJob {
    ghost use Rattle.vp_gen.specs.Play.{play_due, play_some};

    ghost due = { play_due };

    ghost some_text = { play_some };

    /// As many as a table of sums for each bet, and one more. The table of its bet is the one that is made in them.
    #[tactic(auto, using(vp_replay::proofs::ReplayWords::few_words))]
    fn words(&self) -> usize {
        (self.table.coins as usize + 1) * table_words(self.table.deck)
    }

    /// Writes the seed, the number of games, and the numbers of the log. The log is made before anything is put: where there
    /// is no memory for it, nothing is.
    fn write<K: Sink>(&self, alloc: Global, memory: &mut [u64], sink: &mut K) -> Status {
        let mut carver = Carver::over(memory);
        let words = carver.take_as_it_is(table_words(self.table.deck)).unwrap();
        let Ok(summary) = self.summary(alloc, words) else {
            return Status::NoMemory;
        };
        match put_played(self.table.deck, self.seed, self.games, &summary, sink) {
            Ok(()) => Status::Done,
            Err(WriteFault) => Status::WriteFault,
        }
    }
}

/// Puts a seed and a number of games, and the numbers of a log with cards of a deck of so many.
fn put_played<K: Sink>(
    deck: u8,
    seed: u64,
    games: u32,
    summary: &Summary,
    sink: &mut K,
) -> Result<(), WriteFault>
    requires { IsDeck deck }
    ensures { Puts (K.told sink.old) (K.told sink.new) result
        (written (played_lines deck seed games summary.now)) }
{
    let first = [
        Word::Text(b"play"),
        Word::Number(seed as u128),
        Word::Number(games as u128),
    ];
    put_words(&first, sink)?;
    put_summary(summary, deck, sink)
}
