//! A log, which borrows its text.

ghost use Rattle.std.specs.Prelude.{◌≡◌, ◌≤◌, length, Ok, IfOk, IfErr};
ghost use Rattle.vp_card.specs.Cards.{IsDeck};
ghost use Rattle.vp_text.specs.Lines.{Feed};
ghost use Rattle.vp_text.specs.Reading.{Gives};
ghost use Rattle.vp_text.specs.Sections.{Starts, Refuses, Leaves, IsAt, StandsBehind};
ghost use Rattle.vp_loggram.specs.Logs.{IsLog, LogValue};
ghost use Rattle.vp_loggram.specs.Sections.{GivesGame, events_in_front, games_skipped, log_at, log_opened, log_read, start_line};
ghost use Rattle.vp_loggram.specs.Spelling.{log_text};

use crate::words::event_of;
use crate::{Event, Events};
use std::marker::Model;
use vp_text::{Lines, Refused, keyed_number};

/// A log of games over its text: the credits at its start, and its games, which are read again from the text.
#[derive(Drop)]
pub struct Log<'a> {
    start: u64,
    lines: Lines<'a>,
    deck: u8,
}

impl<'a> Model for Log<'a> {
    ghost use Rattle.std.specs.Prelude.{◌≤◌};
    ghost use Rattle.vp_loggram.specs.Logs.{LogValue};
    ghost use Rattle.vp_loggram.specs.Sections.{events_in_front};

    ghost Value = { LogValue };

    ghost view = { λ l. record { start = l.start; events = events_in_front l.deck l.lines.lines } };

    ghost invariant = { λ l. l.start ≤ 1000000000000 };
}

#[tactic(auto, using(vp_text::proofs::Standing::leaves_all, vp_text::proofs::Standing::leaves_line))]
fn start_line(lines: &mut Lines) -> Result<u64, Refused>
    ensures read { Gives (λ v. v) result lines.new (start_line lines.old) }
    ensures leaves { Leaves lines.old lines.new }
    ensures at { IfErr result (λ e. IsAt e.line lines.new) }
    ensures most { IfOk result (λ start. start ≤ 1000000000000) }
{
    let mut words = lines.next_wanted()?;
    let line = words.line();
    keyed_number(&mut words, b"log", 0, 1000000000000).ok_or(Refused { line })
}

/// Reads the next line of a log behind its first one: a game, or none where it is `end`.
#[tactic(auto, using(vp_text::proofs::Standing::leaves_all, vp_text::proofs::Standing::leaves_line, crate::proofs::Next_games::has_game, crate::proofs::Next_games::has_end, crate::proofs::Next_games::has_neither, crate::proofs::Next_games::has_nothing))]
pub fn next_game(lines: &mut Lines, deck: u8) -> Result<Option<Event>, Refused>
    // The game stands in front of the games that are left; where there is none, the log ends here.
    ensures read { GivesGame deck lines.old lines.new result }
    ensures leaves { Leaves lines.old lines.new }
    ensures at { IfErr result (λ e. IsAt e.line lines.new) }
{
    let mut words = lines.next_wanted()?;
    let line = words.line();
    if words.only_is(b"end") {
        return Ok(None);
    }
    match event_of(&mut words, deck) {
        Some(event) => Ok(Some(event)),
        None => Err(Refused { line }),
    }
}

/// Passes the games up to `end`.
fn skip_games(lines: &mut Lines, deck: u8) -> Result<(), Refused>
    ensures read { Gives (λ u. tt) result lines.new (games_skipped deck lines.old) }
    ensures leaves { Leaves lines.old lines.new }
    ensures at { IfErr result (λ e. IsAt e.line lines.new) }
{
    'games: while let Some(_) = next_game(lines, deck)? {}
    Ok(())
}

impl<'a> Log<'a> {
    #[tactic(auto, unfolding(crate::specs::Sections::log_opened))]
    fn log_opened(lines: &mut Lines<'a>, deck: u8) -> Result<Log<'a>, Refused>
        ensures read { Gives (λ log. log) result lines.new (log_opened deck lines.old) }
        ensures games { IfOk result (λ log. log.events ≡ events_in_front deck lines.new.lines) }
        ensures leaves { Leaves lines.old lines.new }
        ensures at { IfErr result (λ e. IsAt e.line lines.new) }
    {
        let start = start_line(lines)?;
        Ok(Log {
            start,
            lines: lines.again(),
            deck,
        })
    }

    /// Reads the first line of a log, whose games are those in front of the lines that are left. The log is read once they
    /// are passed, up to its `end`; where a log is known to be spelled there, they need not be.
    pub fn open(lines: &mut Lines<'a>, deck: u8) -> Result<Log<'a>, Refused>
        ensures read { Gives (λ log. log) result lines.new (log_opened deck lines.old) }
        ensures games { IfOk result (λ log. log.events ≡ events_in_front deck lines.new.lines) }
        // What is spelled so is opened, whatever follows.
        ensures only { (log : LogValue) (left : Feed) → IsDeck deck → IsLog deck log → Starts log_text lines.old log left
            → result ≡ Ok log }
        ensures leaves { Leaves lines.old lines.new }
        ensures at { IfErr result (λ e. IsAt e.line lines.new) }
    {
        Log::log_opened(lines, deck)
    }

    #[tactic(auto, unfolding(crate::specs::Sections::log_read))]
    fn log_read(lines: &mut Lines<'a>, deck: u8) -> Result<Log<'a>, Refused>
        ensures read { Gives (λ log. log) result lines.new (log_read deck lines.old) }
        ensures leaves { Leaves lines.old lines.new }
        ensures at { IfErr result (λ e. IsAt e.line lines.new) }
    {
        let log = Log::open(lines, deck)?;
        skip_games(lines, deck)?;
        Ok(log)
    }

    /// Reads one log section with cards of a deck of so many, up to its `end`, and leaves the lines behind it.
    pub fn read(lines: &mut Lines<'a>, deck: u8) -> Result<Log<'a>, Refused>
        requires { IsDeck deck }
        // What is read is in the grammar, and its spelling stands in front of the lines that are left.
        ensures found { IfOk result (λ log. IsLog deck log × Starts log_text lines.old log lines.new) }
        // What is spelled so is read, whatever follows.
        ensures only { (log : LogValue) (left : Feed) → IsLog deck log → Starts log_text lines.old log left → (result ≡ Ok log) × (lines.new ≡ left) }
        // Refused is the first line with which the lines so far begin no log, or the one past the end where the input ends first.
        ensures refused { IfErr result (λ e. Refuses log_text (IsLog deck) lines.old e.line) }
        // Where a line is refused, the lines behind it are left; none are where the input ends first.
        ensures stands { IfErr result (λ e. StandsBehind lines.old e.line lines.new) }
        ensures exact { Gives (λ log. log) result lines.new (log_at deck lines.old) }
    {
        Log::log_read(lines, deck)
    }

    /// The credits at the start.
    pub fn start(&self) -> u64
        ensures value { result ≡ self.now.start }
        ensures most { result ≤ 1000000000000 }
    {
        self.start
    }

    /// The games, in their order.
    #[tactic(auto, using(crate::proofs::Few_events::few_events))]
    pub fn events(&self) -> Events<'a>
        ensures value { result ≡ self.now.events }
        // A text has no more games than the bytes that an input may have.
        ensures few { length self.now.events ≤ 67108864 }
    {
        self.lines.are_few();
        Events::new(self.lines.again(), self.deck)
    }
}
