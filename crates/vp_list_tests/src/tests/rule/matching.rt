//! Rules asked of holds, worked by hand.

ghost use Rattle.std.specs.Prelude.{◌≡◌, ◌<◌, ◌≤◌, length};
ghost use Rattle.vp_card.specs.Cards.{IsDeck};

use super::writing::list_in;
use std::marker::Brand;
use std::sync::ledger::{Blank, Ledger};
use std::test::*;
use vp_card::Hand;
use vp_pay::samples::{DEUCES, JACKS, TWO_JOKERS};
use vp_pay::{PayTable, read_deal};
use vp_rule::{Holds, Rule, matches};
use vp_text::Lines;
use vp_wild::Steps;

/// Whether the rule matches the hold `mask`, asked alone, and among all holds.
fn asked<L: Ledger>(
    rule: &Rule,
    table: &PayTable,
    hand: &Hand,
    mask: u8,
    blank: Blank,
) -> (bool, bool)
    requires mask { mask < 32 }
    requires name { blank.name ≡ L.name }
    requires parts { blank.parts ≡ L.parts }
    requires some { 0 < blank.parts }
{
    let mut steps = Steps::<L>::new(blank);
    let alone = matches(rule, table, hand, mask, &mut steps);
    let holds = Holds::of(table, hand, &mut steps);
    (
        alone,
        holds.is_matched(rule, mask) && holds.some_is_matched(rule),
    )
}

/// The hand of a deal line.
pub(super) fn hand_of(deal: &[u8], deck: u8) -> Option<Hand>
    requires short { length deal.now ≤ 67108864 }
    requires deck { IsDeck deck }
{
    read_deal(&mut Lines::new(deal), deck).ok()
}

// Masks are over the cards in rising order; with DEUCES the twos are wild.
#[test]
fn rules_asked_of_holds(rt: HostRuntime) -> Result<(), Fail> {
    let royal: &[u8] = b"deal As Ks Qs Js 4s";
    let eight: &[u8] = b"deal 8c 8d 8h 8s 3c";
    let deuces: &[u8] = b"deal 2c 2d Ts Js Qs";
    let jokers: &[u8] = b"deal Jk Jo 2c 3c 4c";
    let cases: [(&[u8], &[u8], u8, &[u8], bool); 29] = [
        (JACKS, royal, 30, b"list 2\nrule hold 4 royal\nend\n", true),
        (JACKS, royal, 31, b"list 2\nrule suited royal\nend\n", false),
        (
            JACKS,
            royal,
            31,
            b"list 2\nrule suited made flush\nend\n",
            true,
        ),
        (
            JACKS,
            royal,
            31,
            b"list 2\nrule mixed made flush\nend\n",
            false,
        ),
        (
            JACKS,
            royal,
            30,
            b"list 2\nrule suited made flush\nend\n",
            false,
        ),
        (
            JACKS,
            royal,
            30,
            b"list 2\nrule windows 1 1 ranks 4\nend\n",
            true,
        ),
        (JACKS, royal, 0, b"list 2\nrule suited royal\nend\n", true),
        (
            JACKS,
            royal,
            0,
            b"list 2\nrule windows 10 10 mixed\nend\n",
            false,
        ),
        (
            JACKS,
            royal,
            0,
            b"list 2\nrule windows 10 10 equal 0\nend\n",
            true,
        ),
        (
            JACKS,
            eight,
            30,
            b"list 2\nrule equal 4 windows 0 0\nend\n",
            true,
        ),
        (
            JACKS,
            eight,
            6,
            b"list 2\nrule ranks 1 windows 0 0\nend\n",
            true,
        ),
        (
            JACKS,
            eight,
            6,
            b"list 2\nrule equal 1 ranks 1\nend\n",
            false,
        ),
        (
            JACKS,
            eight,
            1,
            b"list 2\nrule windows 3 3 ranks 1\nend\n",
            true,
        ),
        (
            JACKS,
            eight,
            3,
            b"list 2\nrule left 8 3 leftsuit 0\nend\n",
            true,
        ),
        (
            JACKS,
            eight,
            2,
            b"list 2\nrule left any 4 leftsuit 1\nend\n",
            true,
        ),
        (
            JACKS,
            eight,
            2,
            b"list 2\nrule left 8 4 suited\nend\n",
            false,
        ),
        (
            DEUCES,
            deuces,
            31,
            b"list 2\nrule wilds 2 royal\nend\n",
            true,
        ),
        (
            DEUCES,
            deuces,
            31,
            b"list 2\nrule suited made wild-royal\nend\n",
            true,
        ),
        (
            DEUCES,
            deuces,
            3,
            b"list 2\nrule suited windows 10 10\nend\n",
            true,
        ),
        (
            DEUCES,
            deuces,
            3,
            b"list 2\nrule equal 0 ranks 0\nend\n",
            true,
        ),
        (
            DEUCES,
            deuces,
            4,
            b"list 2\nrule left any 2 leftsuit 2\nend\n",
            true,
        ),
        (
            DEUCES,
            deuces,
            31,
            b"list 2\nrule count 2 0 0 hold 5\nend\n",
            true,
        ),
        (
            DEUCES,
            deuces,
            28,
            b"list 2\nrule count TJQ 3 3 wilds 0\nend\n",
            true,
        ),
        (
            DEUCES,
            deuces,
            28,
            b"list 2\nrule count TJQ 0 2 wilds 0\nend\n",
            false,
        ),
        (
            JACKS,
            deuces,
            31,
            b"list 2\nrule mixed count 2 2 2\nend\n",
            true,
        ),
        (
            TWO_JOKERS,
            jokers,
            24,
            b"list 2\nrule wilds 2 hold 2\nend\n",
            true,
        ),
        (
            TWO_JOKERS,
            jokers,
            31,
            b"list 2\nrule made both suited\nend\n",
            true,
        ),
        (
            TWO_JOKERS,
            jokers,
            31,
            b"list 2\nrule made one suited\nend\n",
            false,
        ),
        (
            TWO_JOKERS,
            jokers,
            7,
            b"list 2\nrule left any 0 leftsuit 0\nend\n",
            true,
        ),
    ];
    for (text, deal, mask, rules, due) in cases {
        assert!(rt; text.len() < 2000 && deal.len() < 100 && rules.len() < 200 && mask < 32);
        let table = PayTable::in_text(text).ok_or("a table")?;
        let hand = hand_of(deal, table.deck).ok_or("a hand")?;
        let list = list_in(rules, &table).ok_or("a list")?;
        assert_eq!(rt; list.rules().len(), 1);
        let found = asked::<Brand>(&list.rules()[0], &table, &hand, mask, Blank::new(1));
        assert_eq!(rt; found, (due, due));
    }
    Ok(())
}
