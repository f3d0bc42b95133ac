//! Worked deals: the best hold of each, and the value of one more hold.

ghost use Rattle.std.specs.Prelude.{◌≡◌, ◌<◌, ◌≤◌, true, IfSome, length};
ghost use Rattle.vp_card.specs.Cards.{in_deck};
ghost use Rattle.vp_pay.specs.Table.{IsTable};

use std::marker::Brand;
use std::sync::ledger::{Blank, Ledger};
use std::test::Fail;
use vp_card::Hand;
use vp_draws::{Best, many_totals, plain_best, plain_total, return_denominator, value_of};
use vp_pay::samples::TWO_JOKERS;
use vp_pay::{PayTable, read_deal};
use vp_text::Lines;
use vp_wild::Steps;

/// The hand of a deal line, where its cards are of the table's deck.
fn hand_of(deal: &[u8], table: &PayTable) -> Option<Hand>
    requires table { IsTable table.now }
    requires short { length deal.now ≤ 67108864 }
    ensures { IfSome result (λ hand. in_deck table.now.deck hand ≡ true) }
{
    let hand = read_deal(&mut Lines::new(deal), table.deck).ok()?;
    if hand.is_of_deck(table.deck) {
        Some(hand)
    } else {
        None
    }
}

/// The best hold of a deal and the value of the hold `mask`, for the greatest bet.
fn worth<L: Ledger>(table: &PayTable, deal: &[u8], mask: u8, blank: Blank) -> Option<(Best, u64)>
    requires table { IsTable table.now }
    requires short { length deal.now ≤ 67108864 }
    requires name { blank.name ≡ L.name }
    requires parts { blank.parts ≡ L.parts }
    requires share { 0 < blank.parts }
{
    let hand = hand_of(deal, table)?;
    let mut steps = Steps::<L>::new(blank);
    let best = plain_best(table, table.coins, &hand, &mut steps);
    let value = value_of(table, table.coins, &hand, mask, &mut steps);
    Some((best, value))
}

/// The sum of the payments over all draws of the hold `mask`, for the greatest bet.
fn sum_of<L: Ledger>(table: &PayTable, deal: &[u8], mask: u8, blank: Blank) -> Option<u64>
    requires table { IsTable table.now }
    requires short { length deal.now ≤ 67108864 }
    requires name { blank.name ≡ L.name }
    requires parts { blank.parts ≡ L.parts }
    requires share { 0 < blank.parts }
{
    let hand = hand_of(deal, table)?;
    let mut steps = Steps::<L>::new(blank);
    Some(plain_total(table, table.coins, &hand, mask, &mut steps))
}

/// For how many of the 32 holds the totals of two deals, for the greatest bet, by one walk over all hands, are those by the draws.
fn totals_that_agree<L: Ledger>(table: &PayTable, first: &Hand, second: &Hand, blank: Blank) -> u32
    requires table { IsTable table.now }
    requires first { in_deck table.now.deck first.now ≡ true }
    requires second { in_deck table.now.deck second.now ≡ true }
    requires name { blank.name ≡ L.name }
    requires parts { blank.parts ≡ L.parts }
    requires share { 0 < blank.parts }
{
    let mut steps = Steps::<L>::new(blank);
    let deals = [*first, *second];
    let mut totals = [[0; 32]; 2];
    many_totals(table, table.coins, &deals, &mut totals, &mut steps);
    let mut agreeing = 0u32;
    for mask in 0..32u8 {
        let place = mask as usize;
        if totals[0][place] == plain_total(table, table.coins, first, mask, &mut steps)
            && totals[1][place] == plain_total(table, table.coins, second, mask, &mut steps)
        {
            agreeing = agreeing.saturating_add(1);
        }
    }
    agreeing
}

/// A built-in table, or that of the two jokers.
fn table_of(index: u8) -> Option<PayTable>
    ensures { IfSome result (λ table. IsTable table) }
{
    match index {
        4 => PayTable::read(&mut Lines::new(TWO_JOKERS)).ok(),
        _ => PayTable::built_in(index),
    }
}

// The built-in tables are for five coins, each payment five times that for one.
#[test]
fn worked_deals(rt: HostRuntime) -> Result<(), Fail> {
    for (index, deal, mask, value, ties, other, value_of_other) in [
        (
            0,
            b"deal As Ks Qs Js 4s",
            30,
            5 * 141318210,
            1,
            31,
            5 * 46018170,
        ),
        (
            0,
            b"deal Ks Qs Js Ts 9s",
            31,
            5 * 383484750,
            1,
            30,
            5 * 142786875,
        ),
        (
            0,
            b"deal 8c 8d 8h 8s 3c",
            30,
            5 * 191742375,
            2,
            31,
            5 * 191742375,
        ),
        (
            2,
            b"deal 2c 2d 2h 2s 3c",
            15,
            5 * 1533939000,
            2,
            31,
            5 * 1533939000,
        ),
        // The discarded joker can't come back.
        (
            3,
            b"deal Jo Ts Js Qs Ks",
            31,
            5 * 856152000,
            1,
            15,
            5 * 161598690,
        ),
        (4, b"deal 2c 3c 4c Jo Jk", 24, 7627536, 8, 31, 7627536),
        (4, b"deal 2c 3c 4c 5c Jo", 16, 4125096, 1, 31, 3813768),
    ] {
        let table = table_of(index).ok_or("no such table")?;
        let (best, worth_of_other) = worth::<Brand>(&table, deal, other, Blank::new(1)).ok_or(
            "no hand",
        )?;
        assert_eq!(rt; best, Best { mask, value, ties }, "{index}");
        assert_eq!(rt; worth_of_other, value_of_other, "{index}");
    }
    Ok(())
}

// One draw to a royal flush: 800, 7 flushes of 6, 3 straights of 4 and 12 pairs of 1.
#[test]
fn totals_and_denominators(rt: HostRuntime) -> Result<(), Fail> {
    let table = PayTable::built_in(0).ok_or("no such table")?;
    let sum = sum_of::<Brand>(&table, b"deal As Ks Qs Js 4s", 30, Blank::new(1)).ok_or("no hand")?;
    assert_eq!(rt; sum, 5 * 866);
    for (n, denominator) in [
        (52, 19933230517200),
        (53, 24568865521200),
        (54, 12061079437680),
    ] {
        assert_eq!(rt; return_denominator(n, 1), denominator);
        assert_eq!(rt; return_denominator(n, 5), 5 * denominator);
    }
    Ok(())
}

#[test]
fn totals_of_two_deals(rt: HostRuntime) -> Result<(), Fail> {
    for (index, first, second) in [
        (0, b"deal As Ks Qs Js 4s", b"deal 8c 8d 8h 8s 3c"),
        (4, b"deal 2c 3c 4c Jo Jk", b"deal 2c 3c 4c 5c Jo"),
    ] {
        let table = table_of(index).ok_or("no such table")?;
        let first = hand_of(first, &table).ok_or("no hand")?;
        let second = hand_of(second, &table).ok_or("no hand")?;
        let agreeing = totals_that_agree::<Brand>(&table, &first, &second, Blank::new(1));
        assert_eq!(rt; agreeing, 32, "{index}");
    }
    Ok(())
}
