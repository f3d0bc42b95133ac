//! Jobs whose time bench/deal takes.

ghost use Rattle.std.specs.Prelude.{◌≡◌, length};
ghost use Rattle.vp_pay.specs.Bets.{IsBet};
ghost use Rattle.vp_count.specs.Table.{first_word};

use super::deals::NATURAL;
use super::tables::table_of;
use std::test::*;
use vp_card::Hand;
use vp_count::table_words;
use vp_hold::Game;
use vp_pay::samples::JACKS;
use vp_pay::{PayTable, read_deal};
use vp_text::Lines;

/// The ties of the best holds of the hands, added up.
fn ties_of_hands(game: &Game, hands: &[Option<Hand>; 12]) -> u64 {
    let mut ties = 0u64;
    for dealt in hands {
        if let Some(hand) = dealt
            && hand.is_of_deck(game.table().deck)
        {
            ties = ties.wrapping_add(u64::from(game.best(hand).ties));
        }
    }
    ties
}

/// The same, added up `turns` times.
fn ties_of_best(table: &PayTable, turns: u32, words: &mut [u64]) -> u64
    requires bet { IsBet table.now 1 }
    requires long { length words.old ≡ first_word table.now.deck 6 }
{
    let game = Game::of(table, 1, words);
    let hands = NATURAL.map(|deal| read_deal(&mut Lines::new(deal), 52).ok());
    let mut ties = 0u64;
    for _ in 0..turns {
        ties = ties.wrapping_add(ties_of_hands(&game, &hands));
    }
    ties
}

fn jacks_ties(rt: &HostRuntime, turns: u32) -> Result<u64, Fail> {
    let table = table_of(JACKS, 1).ok_or("no such table")?;
    let mut words = vec![in rt.alloc(); 9u64; table_words(table.deck)]?;
    Ok(ties_of_best(&table, turns, &mut words))
}

#[test]
fn one_table(rt: HostRuntime) -> Result<(), Fail> {
    assert_eq!(rt; jacks_ties(&rt, 0)?, 0);
    Ok(())
}

// Two tables, and the best hold for 240000 deals, and 12 more.
#[test]
fn many_deals(rt: HostRuntime) -> Result<(), Fail> {
    let once = jacks_ties(&rt, 1)?;
    assert!(rt; once >= 12);
    assert_eq!(rt; jacks_ties(&rt, 20_000)?, once.wrapping_mul(20_000));
    Ok(())
}
