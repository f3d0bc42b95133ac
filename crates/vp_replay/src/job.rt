//! `replay`: what the holds of a lawful log cost.

ghost use Rattle.std.specs.Prelude.{◌≡◌, ◌≤◌, IfOk, length};
ghost use Rattle.vp_loggram.specs.Logs.{IsLog};
ghost use Rattle.vp_pay.specs.Reads.{Reads};
ghost use Rattle.vp_pay.specs.Table.{IsTable};
ghost use Rattle.vp_replay.specs.Replay.{replay_input, rule_of, stop_of};
ghost use Rattle.vp_replay.specs.Rules.{break_in};

use crate::{Broken, Games, LogRule, put_replay, read_log};
use std::marker::Model;
use vp_answer::{Rule, Stop, Work};
use vp_count::table_words;
use vp_io::{Sink, WriteFault};
use vp_loggram::Log;
use vp_pay::PayTable;
use vp_region::Carver;
use vp_text::{Lines, Refused};
use vp_wild::KeptLines;

/// A pay table, and a log of games on it of which none breaks a law.
#[derive(Drop)]
pub struct ReplayJob<'a> {
    table: PayTable,
    log: Log<'a>,
}

impl<'a> Model for ReplayJob<'a> {
    ghost use Rattle.vp_replay.specs.Replay.{IsLawful, Logged};

    ghost Value = { Logged };

    ghost view = { λ j. record { table = j.table; log = j.log } };

    ghost invariant = { λ j. IsLawful (record { table = j.table; log = j.log }) };
}

impl<'a> ReplayJob<'a> {
    ghost use Rattle.std.specs.Prelude.{◌≡◌, ◌≤◌, length};
    ghost use Rattle.vp_replay.specs.Replay.{replay_job};

    /// What the bytes leave to do: a pay table, and a log with cards of its deck. A log is stopped at the first game that
    /// breaks a law.
    pub fn read(bytes: &'a [u8]) -> Result<ReplayJob<'a>, Stop>
        requires { length bytes.now ≤ 67108864 }
        ensures { result ≡ replay_job bytes.now }
    {
        let (table, log, broken) = read_judged(bytes)?;
        match broken {
            None => Ok(ReplayJob { table, log }),
            Some(broken) => Err(stop_of(broken)),
        }
    }
}

/// The pay table and the log that the bytes say, and the first game of the log that breaks a law. The log is read once.
#[tactic(auto, unfolding(vp_pay::specs::Inputs::section_input))]
fn read_judged(bytes: &[u8]) -> Result<(PayTable, Log<'_>, Option<Broken>), Refused>
    requires { length bytes.now ≤ 67108864 }
    ensures says { Reads (λ read. (read.0, read.1)) result (replay_input bytes.now) }
    ensures table { IfOk result (λ read. IsTable read.0) }
    ensures log { IfOk result (λ read. IsLog read.0.deck read.1) }
    ensures broken { IfOk result (λ read. read.2 ≡ break_in read.0 read.1) }
{
    let mut lines = Lines::new(bytes);
    let table = PayTable::read(&mut lines)?;
    let (log, broken) = read_log(&mut lines, &mut KeptLines::new(&table))?;
    match lines.next() {
        None => Ok((table, log, broken)),
        Some(words) => Err(Refused { line: words.line() }),
    }
}

impl<'a> Work for ReplayJob<'a> {
    ghost use Rattle.vp_replay.specs.Replay.{replay_due, replay_some};

    ghost due = { replay_due };

    ghost some_text = { replay_some };

    /// A table of sums for each bet.
    #[tactic(auto, using(crate::proofs::ReplayWords::few_words))]
    fn words(&self) -> usize {
        self.table.coins as usize * table_words(self.table.deck)
    }

    /// Puts the lines of the costs and of the numbers.
    fn put<K: Sink>(&self, memory: &mut [u64], sink: &mut K) -> Result<(), WriteFault> {
        let mut carver = Carver::over(memory);
        let words = carver.take_as_it_is(self.words()).unwrap();
        let games = Games::of(&self.table, words);
        put_replay(&games, &self.log, sink)
    }
}

/// The law of a game, among all rules.
fn rule_of(rule: LogRule) -> Rule
    ensures { result ≡ rule_of rule }
{
    match rule {
        LogRule::Bet => Rule::Bet,
        LogRule::Funds => Rule::Funds,
        LogRule::Deal => Rule::Deal,
        LogRule::Hold => Rule::Hold,
        LogRule::Count => Rule::Count,
        LogRule::Draw => Rule::Draw,
        LogRule::Pay => Rule::Pay,
        LogRule::Credits => Rule::Credits,
    }
}

/// What a log with a broken law is stopped with.
pub fn stop_of(broken: Broken) -> Stop
    ensures { result ≡ stop_of broken }
{
    Stop::Finding {
        at: broken.game,
        rule: rule_of(broken.rule),
        said: u128::from(broken.said),
        due: u128::from(broken.due),
    }
}
