//! Squares of payments, worked by hand.

ghost use Rattle.std.specs.Prelude.{◌≡◌, true, length};
ghost use Rattle.vp_card.specs.Cards.{in_deck};
ghost use Rattle.vp_pay.specs.Bets.{IsBet};
ghost use Rattle.vp_count.specs.Table.{first_word};

use super::deals::hand_of;
use super::tables::table_of;
use std::test::Fail;
use vp_card::Hand;
use vp_count::table_words;
use vp_hold::{Game, Squares};
use vp_pay::PayTable;
use vp_pay::samples::JACKS;

/// The values with squares of the holds 30 and 31 of the hand.
fn squared(table: &PayTable, words: &mut [u64], more: &mut [u64], hand: &Hand) -> [u64; 2]
    requires bet { IsBet table.now 1 }
    requires long { length words.old ≡ first_word table.now.deck 6 }
    requires longer { length more.old ≡ first_word table.now.deck 6 }
    requires cards { in_deck table.now.deck hand.now ≡ true }
{
    let game = Game::of(table, 1, words);
    let squares = Squares::fill(&game, more);
    [squares.value(hand, 30), squares.value(hand, 31)]
}

// One draw to a royal flush: 800 once, 6 for 7 flushes, 4 for 3 straights and 1 for 12 pairs; the flush that is held is paid 6.
#[test]
fn squares_of_a_draw_to_a_royal(rt: HostRuntime) -> Result<(), Fail> {
    let table = table_of(JACKS, 1).ok_or("no such table")?;
    let hand = hand_of(b"deal As Ks Qs Js 4s", &table).ok_or("no hand")?;
    let mut words = vec![in rt.alloc(); 7u64; table_words(table.deck)]?;
    let mut more = vec![in rt.alloc(); 9u64; table_words(table.deck)]?;
    let told = squared(&table, &mut words, &mut more, &hand);
    assert_eq!(rt;
        told,
        [(640000 + 7 * 36 + 3 * 16 + 12) * 163185, 36 * 7669695]
    );
    Ok(())
}
