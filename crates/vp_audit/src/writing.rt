//! The list of a pool's rules in an order, written line by line.

ghost use Rattle.std.specs.Prelude.{◌≡◌, ◌+◌, ◌<◌, codes, drop, length, map, slice_index_or, true, []};
ghost use Rattle.std.specs.List.{All};
ghost use Rattle.vp_card.specs.Cards.{in_deck};
ghost use Rattle.vp_text.specs.Written.{line_of, written};
ghost use Rattle.vp_io.specs.Puts.{Puts};
ghost use Rattle.vp_suit.specs.Classes.{representatives};
ghost use Rattle.vp_draws.specs.Draws.{least_best};
ghost use Rattle.vp_rule.specs.Spelling.{except_words, list_text, rule_words, version_words};
ghost use Rattle.vp_rule.specs.Valid.{IsPool, IsRule};
ghost use Rattle.vp_compile.specs.Excepted.{ArePlaces};
ghost use Rattle.vp_compile.specs.Matrices.{IsOrder};
ghost use Rattle.vp_audit.specs.Compiled.{best_exception, compiled_list, ordered};

use vp_card::Hand;
use vp_hold::Game;
use vp_io::{Sink, WriteFault};
use vp_lines::{Word, put_words};
use vp_pay::PayTable;
use vp_rule::{Pool, Rule};
use vp_suit::Classes;

/// Writes the list of a pool's rules in an order, with an exception for the class at each of these places, which gives it
/// its least best hold. The places are counted from 0, by rising index of the representatives. The pool is one for the
/// game's table.
///
/// The lines are put as they come, so where a write fails a proper beginning of the text was put.
pub fn put_list<K: Sink>(
    game: &Game,
    pool: &Pool,
    order: &[u8],
    places: &[u32],
    sink: &mut K,
) -> Result<(), WriteFault>
    requires pool { IsPool game.now.table pool.now }
    requires order { IsOrder (length pool.now.rules) order.now }
    requires places { ArePlaces (length (representatives game.now.table.deck)) places.now }
    // All lines of the list are put; or a proper beginning of them, and a fault is counted.
    ensures { Puts (K.told sink.old) (K.told sink.new) result
        (written (list_text game.now.table (compiled_list game.now.table game.now.coin pool.now order.now places.now))) }
{
    put_version(pool.version(), sink)?;
    put_exceptions(game, places, sink)?;
    put_rules(game.table(), pool.rules(), order, sink)?;
    put_words(&[Word::Text(b"end")], sink)
}

/// Puts the first line of a list.
fn put_version<K: Sink>(version: u8, sink: &mut K) -> Result<(), WriteFault>
    ensures { Puts (K.told sink.old) (K.told sink.new) result (line_of (version_words (codes "list") version)) }
{
    let number = if version == 2 {
        Word::Text(b"2")
    } else {
        Word::Nothing
    };
    put_words(&[Word::Text(b"list"), number], sink)
}

/// Puts an exception for the class at each place, in one walk over all classes.
fn put_exceptions<K: Sink>(game: &Game, places: &[u32], sink: &mut K) -> Result<(), WriteFault>
    requires { ArePlaces (length (representatives game.now.table.deck)) places.now }
    ensures { Puts (K.told sink.old) (K.told sink.new) result
        (written (map except_words (map (best_exception game.now.table game.now.coin) places.now))) }
{
    let mut classes = Classes::new(game.table().deck);
    let mut passed = 0;
    for place in places {
        let place = *place as usize;
        let hand = hand_behind(&mut classes, place - passed);
        put_exception(game, &hand, sink)?;
        passed = place + 1;
    }
    Ok(())
}

/// Puts an exception that gives the class of a hand its least best hold.
#[tactic(auto, unfolding(vp_rule::specs::Spelling::except_words))]
fn put_exception<K: Sink>(game: &Game, hand: &Hand, sink: &mut K) -> Result<(), WriteFault>
    requires { in_deck game.now.table.deck hand.now ≡ true }
    ensures { Puts (K.told sink.old) (K.told sink.new) result
        (line_of (except_words (hand.now, least_best game.now.table game.now.coin hand.now))) }
{
    let words = [
        Word::Text(b"except"),
        Word::Hand(hand),
        Word::Number(game.best(hand).mask as u128),
    ];
    put_words(&words, sink)
}

/// The representative of the class behind so many of those that were not given yet.
fn hand_behind(classes: &mut Classes, number: usize) -> Hand
    requires { number < length classes.old }
    ensures hand { result ≡ slice_index_or classes.old number [] }
    ensures left { classes.new ≡ drop (number + 1) classes.old }
{
    pass(classes, number);
    classes.next().unwrap().hand
}

/// Passes over so many classes.
fn pass(classes: &mut Classes, number: usize)
    ensures { classes.new ≡ drop number classes.old }
{
    for _ in 0..number {
        let _ = classes.next();
    }
}

/// Puts the rules in an order.
fn put_rules<K: Sink>(
    table: &PayTable,
    rules: &[Rule],
    order: &[u8],
    sink: &mut K,
) -> Result<(), WriteFault>
    requires rules { All (IsRule 2 table.now) rules.now }
    requires order { All (λ place. place < length rules.now) order.now }
    ensures { Puts (K.told sink.old) (K.told sink.new) result
        (written (map (rule_words table.now) (ordered rules.now order.now))) }
{
    for place in order {
        rules[*place as usize].write(table, sink)?;
    }
    Ok(())
}
