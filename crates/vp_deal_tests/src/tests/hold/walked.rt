//! The values of a dozen deals of each deck, beside those of the walk over all draws.

ghost use Rattle.std.specs.Prelude.{◌≡◌, ◌<◌, true, length};
ghost use Rattle.vp_card.specs.Cards.{in_deck};
ghost use Rattle.vp_pay.specs.Bets.{IsBet};
ghost use Rattle.vp_count.specs.Table.{first_word};

use super::deals::{NATURAL, ONE_JOKER, TWO_JOKERS, hand_of};
use super::tables::table_of;
use std::marker::Brand;
use std::sync::ledger::{Blank, Ledger};
use std::test::*;
use vp_card::Hand;
use vp_count::table_words;
use vp_draws::value_of;
use vp_hold::Game;
use vp_pay::PayTable;
use vp_pay::samples::{DEUCES, JACKS, JOKER_QUADS, KINGS_BY_COINS};
use vp_wild::Steps;

/// Whether the game tells the values that the walk tells, alone and among all, for each of the 32 holds.
fn holds_agree<L: Ledger>(game: &Game, hand: &Hand, steps: &mut Steps<L>) -> bool
    requires cards { in_deck game.now.table.deck hand.now ≡ true }
{
    let values = game.values(hand);
    let mut agree = true;
    for mask in 0..32u8 {
        let value = value_of(game.table(), game.coin(), hand, mask, steps);
        if game.value(hand, mask) != value || values[mask as usize] != value {
            agree = false;
        }
    }
    agree
}

/// On how many of the deals all holds agree.
fn deals_agree<L: Ledger>(
    table: &PayTable,
    coin: u8,
    deals: &[&[u8; 19]; 12],
    words: &mut [u64],
    blank: Blank,
) -> Option<u32>
    requires bet { IsBet table.now coin }
    requires long { length words.old ≡ first_word table.now.deck 6 }
    requires name { blank.name ≡ L.name }
    requires parts { blank.parts ≡ L.parts }
    requires share { 0 < blank.parts }
{
    let mut steps = Steps::<L>::new(blank);
    let game = Game::fill(table, coin, words, &mut steps);
    let mut agreeing = 0u32;
    for deal in deals {
        let hand = hand_of(*deal, table)?;
        if holds_agree(&game, &hand, &mut steps) {
            agreeing = agreeing.saturating_add(1);
        }
    }
    Some(agreeing)
}

#[test]
fn holds_are_walked(rt: HostRuntime) -> Result<(), Fail> {
    for (text, coin, deals) in [
        (JACKS, 1, &NATURAL),
        (DEUCES, 1, &NATURAL),
        (KINGS_BY_COINS, 3, &ONE_JOKER),
        (JOKER_QUADS, 2, &TWO_JOKERS),
    ] {
        let table = table_of(text, coin).ok_or("no such table")?;
        let mut words = vec![in rt.alloc(); 9u64; table_words(table.deck)]?;
        let agreeing = deals_agree::<Brand>(&table, coin, deals, &mut words, Blank::new(1));
        assert_eq!(rt; agreeing, Some(12));
    }
    Ok(())
}
