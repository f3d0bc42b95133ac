//! The costs of a log's games, put line by line, and its numbers.

ghost use Rattle.std.specs.Prelude.{◌≡◌, ◌+◌, ◌^◌, ◌<◌, None, IfOk};
ghost use Rattle.vp_io.specs.Puts.{Puts};
ghost use Rattle.vp_text.specs.Written.{line_of, written};
ghost use Rattle.vp_loggram.specs.Logs.{IsLog};
ghost use Rattle.vp_replay.specs.Rules.{break_in};
ghost use Rattle.vp_replay.specs.Adding.{added};
ghost use Rattle.vp_replay.specs.Summaries.{AllBet, cost_line, cost_lines, cost_words, replay_lines, summary_of};

use crate::{Games, Summary, cost, cost_at, put_summary};
use vp_hold::Game;
use vp_io::{Sink, WriteFault};
use vp_lines::{Word, put_words};
use vp_loggram::{Event, Log};

/// Puts the line of a cost.
fn put_cost<K: Sink>(game: u32, cost: u64, sink: &mut K) -> Result<(), WriteFault>
    ensures { Puts (K.told sink.old) (K.told sink.new) result (line_of (cost_words game cost)) }
{
    let words = [
        Word::Text(b"cost"),
        Word::Number(game as u128),
        Word::Number(cost as u128),
    ];
    put_words(&words, sink)
}

/// Puts the line of a game, where costs are shown and its hold has one.
fn put_game<K: Sink>(show: bool, game: u32, cost: u64, sink: &mut K) -> Result<(), WriteFault>
    ensures { Puts (K.told sink.old) (K.told sink.new) result (written (cost_line show game cost)) }
{
    if show && cost > 0 {
        put_cost(game, cost, sink)
    } else {
        Ok(())
    }
}

/// The numbers with one more game.
fn added(summary: &Summary, event: &Event, cost: u64) -> Summary
    requires games { summary.now.games < 67108864 }
    requires bet { summary.now.bet + event.now.bet < 2 ^ 64 }
    requires paid { summary.now.paid + event.now.pay < 2 ^ 64 }
    requires slips { summary.now.slips < 67108864 }
    requires loss { summary.now.loss < 2 ^ 127 }
    ensures { result ≡ added summary.now event.now cost }
{
    Summary {
        games: summary.games + 1,
        bet: summary.bet + event.bet,
        paid: summary.paid + event.pay,
        credits: event.credits,
        slips: summary.slips + u32::from(cost > 0),
        loss: summary.loss + u128::from(cost),
    }
}

/// Writes a line for each game whose hold costs something, where `show` holds, and answers the numbers of the log, which
/// is a lawful one with cards of the table's deck.
pub fn replay<K: Sink>(
    games: &Games,
    log: &Log,
    show: bool,
    sink: &mut K,
) -> Result<Summary, WriteFault>
    requires log { IsLog games.now.deck log.now }
    requires lawful { break_in games.now log.now ≡ None }
    // All lines are put; or a proper beginning of them, and a fault is counted.
    ensures puts { Puts (K.told sink.old) (K.told sink.new) result
        (written (cost_lines games.now show 1 log.now.events)) }
    ensures summary { IfOk result (λ summary. summary ≡ summary_of games.now log.now) }
{
    let mut summary = Summary {
        games: 0,
        bet: 0,
        paid: 0,
        credits: log.start(),
        slips: 0,
        loss: 0,
    };
    // What `table` ensures is wanted: it is one.
    let _table = games.table();
    let mut events = log.events();
    while let Some(event) = events.next() {
        let cost = cost(games, &event);
        put_game(show, summary.games + 1, cost, sink)?;
        summary = added(&summary, &event, cost);
    }
    Ok(summary)
}

/// The numbers of a lawful log with cards of the table's deck, of which each game bets what this one does: it takes the
/// sums of that bet alone.
pub fn summary_at(game: &Game, log: &Log) -> Summary
    requires log { IsLog game.now.table.deck log.now }
    requires lawful { break_in game.now.table log.now ≡ None }
    requires bets { AllBet game.now.coin log.now.events }
    ensures { result ≡ summary_of game.now.table log.now }
{
    let mut summary = Summary {
        games: 0,
        bet: 0,
        paid: 0,
        credits: log.start(),
        slips: 0,
        loss: 0,
    };
    // What `table` ensures is wanted: it is one.
    let _table = game.table();
    let mut events = log.events();
    while let Some(event) = events.next() {
        let cost = cost_at(game, &event);
        summary = added(&summary, &event, cost);
    }
    summary
}

/// Writes what is told of a lawful log with cards of the table's deck: a line for each game whose hold costs something,
/// and the six lines of its numbers.
pub fn put_replay<K: Sink>(games: &Games, log: &Log, sink: &mut K) -> Result<(), WriteFault>
    requires log { IsLog games.now.deck log.now }
    requires lawful { break_in games.now log.now ≡ None }
    // All lines are put; or a proper beginning of them, and a fault is counted.
    ensures { Puts (K.told sink.old) (K.told sink.new) result (written (replay_lines games.now log.now)) }
{
    let deck = games.table().deck;
    let summary = replay(games, log, true, sink)?;
    put_summary(&summary, deck, sink)
}
