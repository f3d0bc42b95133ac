//! How often the lines of some tables come.

ghost use Rattle.std.specs.Prelude.{◌≡◌, ◌≤◌, length};
ghost use Rattle.vp_pay.specs.Bets.{IsBet};
ghost use Rattle.vp_count.specs.Table.{first_word};

use std::alloc::Global;
use std::test::Fail;
use vp_count::table_words;
use vp_hits::{Hits, LineCounts, line_counts, total_hits};
use vp_hold::Game;
use vp_pay::PayTable;
use vp_pay::samples::{ONE_JOKER, TWO_JOKERS, ZERO};

/// The numbers of deals times the common denominators.
const ALL_DRAWS_OF_52: u128 = 19933230517200;

const ALL_DRAWS_OF_53: u128 = 24568865521200;

const ALL_DRAWS_OF_54: u128 = 12061079437680;

/// How often the first line comes for one coin, and how often none.
fn first_and_none(table: &PayTable, words: &mut [u64], more: &mut [u64]) -> [u128; 2]
    requires bet { IsBet table.now 1 }
    requires long { length words.old ≡ first_word table.now.deck 6 }
    requires longer { length more.old ≡ first_word table.now.deck 6 }
{
    let game = Game::of(table, 1, words);
    let first = total_hits(&game, &Hits::of(table, Some(0), more));
    let none = total_hits(&game, &Hits::of(table, None, more));
    [first, none]
}

fn told(alloc: Global, text: &[u8]) -> Result<([u128; 2], LineCounts), Fail>
    requires long { length text.now ≤ 67108864 }
{
    let table = PayTable::in_text(text).ok_or("the table is refused")?;
    let mut words = vec![in alloc; 7u64; table_words(table.deck)]?;
    let mut more = vec![in alloc; 9u64; table_words(table.deck)]?;
    let alone = first_and_none(&table, &mut words, &mut more);
    Ok((alone, line_counts(&table, 1, &mut words, &mut more)))
}

// A joker is held where it is dealt, and else drawn to with five cards out of 48. Where nothing pays, five cards are drawn.
#[test]
fn one_line_and_none(rt: HostRuntime) -> Result<(), Fail> {
    for (text, first, none, value) in [
        (ONE_JOKER, 4635635004000, 19933230517200, 4635635004000),
        (ZERO, 30678780, 19933199838420, 0),
    ] {
        let (alone, counts) = told(rt.alloc(), text)?;
        assert_eq!(rt; alone, [first, none]);
        assert_eq!(rt; counts.lines[0], first);
        assert_eq!(rt; counts.none, none);
        assert_eq!(rt; counts.value, value);
    }
    Ok(())
}

// Of 54 cards the two jokers pay, alone or both. Each draw ends with one of the two lines or with none.
#[test]
fn two_jokers(rt: HostRuntime) -> Result<(), Fail> {
    let (alone, counts) = told(rt.alloc(), TWO_JOKERS)?;
    let [one, both] = [counts.lines[0], counts.lines[1]];
    assert_eq!(rt; alone, [one, counts.none]);
    assert_eq!(rt;
        one.wrapping_add(both).wrapping_add(counts.none),
        ALL_DRAWS_OF_54
    );
    assert_eq!(rt;
        one.wrapping_add(both.wrapping_mul(2)),
        u128::from(counts.value)
    );
    Ok(())
}

/// How often the lines of a built-in table come for all five coins; all of them together, and what they pay.
fn shares(alloc: Global, i: u8) -> Result<(LineCounts, u128, u128), Fail> {
    let table = PayTable::built_in(i).ok_or("no such table")?;
    let mut words = vec![in alloc; 7u64; table_words(table.deck)]?;
    let mut more = vec![in alloc; 9u64; table_words(table.deck)]?;
    let coin = table.coins;
    let counts = line_counts(&table, coin, &mut words, &mut more);
    let mut sum = counts.none;
    let mut paid = 0u128;
    for place in 0..table.lines.len() {
        sum = sum.wrapping_add(counts.lines[place]);
        let pay = u128::from(table.lines[place].pays[usize::from(coin - 1)]);
        paid = paid.wrapping_add(pay.wrapping_mul(counts.lines[place]));
    }
    Ok((counts, sum, paid))
}

// All lines and none are all deals, and the lines make the return.
#[test]
fn built_in_tables(rt: HostRuntime) -> Result<(), Fail> {
    for (i, all) in [
        (0u8, ALL_DRAWS_OF_52),
        (1, ALL_DRAWS_OF_52),
        (2, ALL_DRAWS_OF_52),
        (3, ALL_DRAWS_OF_53),
    ] {
        let (counts, sum, paid) = shares(rt.alloc(), i)?;
        assert_eq!(rt; sum, all);
        assert_eq!(rt; paid, u128::from(counts.value));
    }
    Ok(())
}

// A published figure: with 9/6 Jacks or Better and five coins a royal flush comes once in 40390.55 hands.
#[test]
fn royal_flushes(rt: HostRuntime) -> Result<(), Fail> {
    let (counts, sum, _) = shares(rt.alloc(), 0)?;
    let hundredths = sum
        .wrapping_mul(1000)
        .checked_div(counts.lines[0])
        .ok_or("no royal flush")?;
    assert_eq!(rt; hundredths.wrapping_add(5) / 10, 4039055);
    Ok(())
}
