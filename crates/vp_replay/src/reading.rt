//! A log and its first broken law, in one reading.

ghost use Rattle.std.specs.Prelude.{◌≡◌, ◌≤◌, ◌<◌, ◌+◌, ◌^◌, None, Ok, IfNone, IfOk};
ghost use Rattle.vp_pay.specs.Table.{IsTable};
ghost use Rattle.vp_text.specs.Lines.{Feed};
ghost use Rattle.vp_text.specs.Reading.{Gives};
ghost use Rattle.vp_text.specs.Sections.{Starts};
ghost use Rattle.vp_loggram.specs.Logs.{IsLog, LogValue};
ghost use Rattle.vp_loggram.specs.Sections.{events_in_front, games_skipped, log_at, log_read};
ghost use Rattle.vp_loggram.specs.Spelling.{log_text};
ghost use Rattle.vp_replay.specs.Rules.{break_in, break_of, or_later};
ghost use Rattle.vp_replay.specs.Seeking.{sooner};

use crate::Broken;
use crate::breaks::broken_at;
use std::marker::Brand;
use std::sync::ledger::{Blank, Ledger};
use vp_loggram::{Event, Log, next_game};
use vp_text::{Lines, Refused};
use vp_wild::{KeptLines, Steps};

/// The broken law that was found, or else that of one more game, which these credits stand before.
fn sooner<L: Ledger>(
    found: Option<Broken>,
    game: u32,
    credits: u64,
    event: &Event,
    kept: &mut KeptLines,
    steps: &mut Steps<L>,
) -> Option<Broken>
    requires table { IsTable kept.old }
    requires credits { IfNone found (credits < 2 ^ 63) }
    ensures sooner { result ≡ sooner found (or_later (break_of kept.old credits event.now) game None) }
    ensures kept { IfNone result (event.now.credits ≤ credits + 500000) }
    ensures none { IfNone result (found ≡ None) }
    ensures same { kept.new ≡ kept.old }
{
    match found {
        Some(broken) => Some(broken),
        None => broken_at(game, credits, event, kept, steps),
    }
}

/// Reads the games of a log up to its `end`, and answers the first broken law.
#[tactic(auto, using(vp_loggram::proofs::Few_events::few_events))]
fn read_games<L: Ledger>(
    lines: &mut Lines,
    log: &Log,
    kept: &mut KeptLines,
    steps: &mut Steps<L>,
) -> Result<Option<Broken>, Refused>
    requires table { IsTable kept.old }
    requires games { log.now.events ≡ events_in_front kept.old.deck lines.old.lines }
    ensures read { Gives (λ broken. tt) result lines.new (games_skipped kept.old.deck lines.old) }
    ensures broken { IfOk result (λ broken. broken ≡ break_in kept.old log.now) }
    ensures same { kept.new ≡ kept.old }
{
    lines.are_few();
    let deck = kept.table().deck;
    let mut found = None;
    let mut games: u32 = 0;
    let mut credits = log.start();
    while let Some(event) = next_game(lines, deck)? {
        games += 1;
        found = sooner(found, games, credits, &event, kept, steps);
        credits = event.credits;
    }
    Ok(found)
}

/// The same as `read_log`; the blank is for a counter that nobody reads.
#[tactic(auto, unfolding(vp_loggram::specs::Sections::log_read))]
fn read_counted<'a, L: Ledger>(
    lines: &mut Lines<'a>,
    kept: &mut KeptLines,
    blank: Blank,
) -> Result<(Log<'a>, Option<Broken>), Refused>
    requires table { IsTable kept.old }
    requires name { blank.name ≡ L.name }
    requires parts { blank.parts ≡ L.parts }
    requires share { 0 < blank.parts }
    ensures read { Gives (λ read. read.0) result lines.new (log_read kept.old.deck lines.old) }
    ensures broken { IfOk result (λ read. read.1 ≡ break_in kept.old read.0) }
    ensures same { kept.new ≡ kept.old }
{
    let log = Log::open(lines, kept.table().deck)?;
    let broken = read_games(lines, &log, kept, &mut Steps::<L>::new(blank))?;
    Ok((log, broken))
}

/// Reads one log section with cards of the deck of the table whose pay lines are kept, up to its `end`, and leaves the
/// lines behind it; and seeks the first game that breaks a law of that table. A line that is refused comes before any
/// broken law. The hands that are paid are not counted.
pub fn read_log<'a>(
    lines: &mut Lines<'a>,
    kept: &mut KeptLines,
) -> Result<(Log<'a>, Option<Broken>), Refused>
    requires table { IsTable kept.old }
    // The log is the one that `Log::read` reads, or the refused line is the one that it refuses.
    ensures exact { Gives (λ read. read.0) result lines.new (log_at kept.old.deck lines.old) }
    ensures grammar { IfOk result (λ read. IsLog kept.old.deck read.0) }
    // What is spelled so is read, whatever follows.
    ensures only { (log : LogValue) (left : Feed) → IsLog kept.old.deck log → Starts log_text lines.old log left
        → (result ≡ Ok (log, break_in kept.old log)) × (lines.new ≡ left) }
    // Behind it is its first game that breaks a law, with the law, where there is one.
    ensures broken { IfOk result (λ read. read.1 ≡ break_in kept.old read.0) }
    ensures same { kept.new ≡ kept.old }
{
    read_counted::<Brand>(lines, kept, Blank::new(1))
}
