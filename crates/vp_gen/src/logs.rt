//! A whole log.

ghost use Rattle.std.specs.Prelude.{◌≡◌, ◌*◌, ◌<◌, ◌≤◌, ◌++◌, length, map, IfOk, OnOk};
ghost use Rattle.vp_text.specs.Written.{written};
ghost use Rattle.vp_loggram.specs.Spelling.{event_words, log_text};
ghost use Rattle.vp_gen.specs.Generator.{games_from, generated};

use crate::cards::whole_deck;
use crate::making::make_event;
use std::alloc::{AllocError, Global};
use std::marker::Brand;
use std::sync::ledger::{Blank, Ledger};
use vp_hold::Game;
use vp_loggram::{append_end, append_start};
use vp_wild::{KeptPayments, Steps};

/// Appends the games of a log, from these credits and this state on.
fn push_games<L: Ledger>(
    text: &mut Vec<u8>,
    game: &Game,
    credits: u64,
    state: u64,
    games: u32,
    payments: &mut KeptPayments,
    steps: &mut Steps<L>,
) -> Result<(), AllocError>
    requires payments { payments.old ≡ game.now }
    requires funds { game.now.coin * games ≤ credits }
    requires small { credits ≤ 500000 }
    requires few { games ≤ 100000 }
    ensures { OnOk result (text.new.items
        ≡ text.old.items ++ written (map event_words (games_from game.now.table game.now.coin credits state games))) }
{
    let pack = whole_deck(game.table().deck);
    let mut credits = credits;
    let mut state = state;
    let mut left = games;
    'games: while left > 0 {
        let event = make_event(game, &pack, credits, &mut state, payments, steps);
        event.append(text)?;
        credits = event.credits;
        left -= 1;
    }
    Ok(())
}

/// The log; the blank is for a counter that nobody reads.
fn log_of<L: Ledger>(
    alloc: Global,
    game: &Game,
    seed: u64,
    games: u32,
    blank: Blank,
) -> Result<Vec<u8>, AllocError>
    requires most { games ≤ 100000 }
    requires name { blank.name ≡ L.name }
    requires parts { blank.parts ≡ L.parts }
    requires share { 0 < blank.parts }
    ensures text { IfOk result (λ text. text.items
        ≡ written (log_text (generated game.now.table game.now.coin seed games))) }
    ensures fits { IfOk result (λ text. length text.items ≤ 67108864) }
{
    let table = game.table();
    let coin = game.coin();
    let mut payments = KeptPayments::new(table, coin);
    let start = u64::from(coin) * u64::from(games);
    let mut text = Vec::new(alloc);
    append_start(&mut text, start)?;
    let mut steps = Steps::<L>::new(blank);
    push_games(
        &mut text,
        game,
        start,
        seed,
        games,
        &mut payments,
        &mut steps,
    )?;
    append_end(&mut text)?;
    Ok(text)
}

/// The text of the log of so many games that is made from a seed: a large log that anybody makes again from these
/// numbers. The error is want of memory.
pub fn make_log(alloc: Global, game: &Game, seed: u64, games: u32) -> Result<Vec<u8>, AllocError>
    requires some { 1 ≤ games }
    requires most { games ≤ 100000 }
    ensures text { IfOk result (λ text. text.items
        ≡ written (log_text (generated game.now.table game.now.coin seed games))) }
    // No text is longer than an input may be.
    ensures fits { IfOk result (λ text. length text.items ≤ 67108864) }
{
    log_of::<Brand>(alloc, game, seed, games, Blank::new(1))
}
