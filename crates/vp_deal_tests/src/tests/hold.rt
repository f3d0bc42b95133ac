//! Worked deals.

ghost use Rattle.std.specs.Prelude.{◌≡◌, ◌<◌, true, length};
ghost use Rattle.vp_card.specs.Cards.{in_deck};
ghost use Rattle.vp_pay.specs.Bets.{IsBet};
ghost use Rattle.vp_count.specs.Table.{first_word};

mod deals;
mod jobs;
mod squared;
mod tables;
mod walked;

use deals::hand_of;
use std::test::Fail;
use tables::table_of;
use vp_card::Hand;
use vp_count::table_words;
use vp_hold::{Best, Game};
use vp_pay::PayTable;
use vp_pay::samples::{DEUCES, JACKS, KINGS_BY_COINS, TWO_JOKERS, ZERO};

/// The best hold of the hand, and the value of the hold `mask`, alone and among the values of all holds.
fn worth(table: &PayTable, coin: u8, words: &mut [u64], hand: &Hand, mask: u8) -> (Best, u64, u64)
    requires bet { IsBet table.now coin }
    requires long { length words.old ≡ first_word table.now.deck 6 }
    requires cards { in_deck table.now.deck hand.now ≡ true }
    requires mask { mask < 32 }
{
    let game = Game::of(table, coin, words);
    (
        game.best(hand),
        game.value(hand, mask),
        game.values(hand)[mask as usize],
    )
}

// The values are expected payments over 7669695, 8561520 and 3813768.
#[test]
fn worked_deals(rt: HostRuntime) -> Result<(), Fail> {
    for (text, coin, deal, best, mask, value) in [
        // One draw to a royal flush: 800, 7 flushes of 6, 3 straights of 4 and 12 pairs of 1.
        (
            JACKS,
            1,
            b"deal As Ks Qs Js 4s",
            (30, 141318210, 1),
            31,
            46018170,
        ),
        (
            JACKS,
            1,
            b"deal Ks Qs Js Ts 9s",
            (31, 383484750, 1),
            30,
            142786875,
        ),
        (
            JACKS,
            1,
            b"deal 8c 8d 8h 8s 3c",
            (30, 191742375, 2),
            31,
            191742375,
        ),
        (
            DEUCES,
            1,
            b"deal 2c 2d 2h 2s 3c",
            (15, 1533939000, 2),
            31,
            1533939000,
        ),
        // The discarded joker can't come back.
        (
            KINGS_BY_COINS,
            5,
            b"deal Jo Ts Js Qs Ks",
            (31, 5 * 856152000, 1),
            15,
            5 * 161598690,
        ),
        (
            TWO_JOKERS,
            1,
            b"deal Jk Jo 2c 3c 4c",
            (24, 7627536, 8),
            31,
            7627536,
        ),
        (
            TWO_JOKERS,
            1,
            b"deal Jo 2c 3c 4c 5c",
            (16, 4125096, 1),
            31,
            3813768,
        ),
        (ZERO, 1, b"deal 2c 3c 4c 5c 6c", (0, 0, 32), 31, 0),
    ] {
        let table = table_of(text, coin).ok_or("no such table")?;
        let hand = hand_of(deal, &table).ok_or("no hand")?;
        let mut words = vec![in rt.alloc(); 7u64; table_words(table.deck)]?;
        let (found, alone, among) = worth(&table, coin, &mut words, &hand, mask);
        assert_eq!(rt; (found.mask, found.value, found.ties), best);
        assert_eq!(rt; (alone, among), (value, value));
    }
    Ok(())
}
