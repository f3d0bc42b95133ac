//! The first game of a log that breaks a law.

ghost use Rattle.std.specs.Prelude.{◌≡◌, ◌≤◌, ◌<◌, ◌+◌, ◌^◌, length, None, Some, IfNone, IfOk, IfErr};
ghost use Rattle.std.specs.Option.{option_map_or};
ghost use Rattle.vp_pay.specs.Table.{IsTable};
ghost use Rattle.vp_replay.specs.Rules.{asks_pay, break_in, break_of, or_later, ranked};

use crate::Broken;
use crate::rules::break_of;
use std::sync::ledger::Ledger;
use vp_loggram::{Event, Log};
use vp_pay::PayTable;
use vp_wild::{KeptLines, Steps};

/// The first broken law of the game with this number, which these credits stand before.
pub(crate) fn broken_at<L: Ledger>(
    game: u32,
    credits: u64,
    event: &Event,
    kept: &mut KeptLines,
    steps: &mut Steps<L>,
) -> Option<Broken>
    requires table { IsTable kept.old }
    requires credits { credits < 2 ^ 63 }
    ensures broken { result ≡ or_later (break_of kept.old credits event.now) game None }
    ensures kept { IfNone result (event.now.credits ≤ credits + 500000) }
    ensures same { kept.new ≡ kept.old }
    ensures steps { steps.new ≡ steps.old + option_map_or (λ broken. asks_pay broken.rule) result 1 }
{
    let breach = break_of(kept, credits, event, steps)?;
    Some(Broken {
        game,
        rule: breach.rule,
        said: breach.said,
        due: breach.due,
    })
}

/// The number of games, where none breaks a law; else the first game that does, with its first broken law. Each game
/// starts from the credits of the one before it. One step of the counter for each final hand that the table pays.
pub fn lawful<L: Ledger>(table: &PayTable, log: &Log, steps: &mut Steps<L>) -> Result<u32, Broken>
    requires table { IsTable table.now }
    ensures lawful { IfOk result (λ games. break_in table.now log.now ≡ None) }
    ensures games { IfOk result (λ games. games ≡ length log.now.events) }
    ensures broken { IfErr result (λ broken. break_in table.now log.now ≡ Some broken) }
    // A game is ranked where neither its bet nor its cards break a law, so no more games than the log has.
    ensures all_ranked { IfOk result (λ games. steps.new ≡ steps.old + games) }
    ensures some_ranked { IfErr result (λ broken. steps.new ≡ steps.old + ranked broken) }
    ensures few { steps.new ≤ steps.old + length log.now.events }
{
    let mut kept = KeptLines::new(table);
    let mut events = log.events();
    let mut games: u32 = 0;
    let mut credits = log.start();
    while let Some(event) = events.next() {
        games += 1;
        if let Some(broken) = broken_at(games, credits, &event, &mut kept, steps) {
            return Err(broken);
        }
        credits = event.credits;
    }
    Ok(games)
}
