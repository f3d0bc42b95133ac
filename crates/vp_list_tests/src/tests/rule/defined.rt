//! Every test of the language, asked of every hold of a dozen deals, beside what the table of tests in docs/FORMATS.md says
//! of its cards.

ghost use Rattle.std.specs.Prelude.{◌≡◌, ◌<◌};

use super::matching::hand_of;
use arrayvec::ArrayVec;
use std::marker::Brand;
use std::sync::ledger::{Blank, Ledger};
use std::test::*;
use vp_card::{Hand, RankSet};
use vp_pay::PayTable;
use vp_pay::samples::{DEUCES, JACKS, KINGS, TWO_JOKERS};
use vp_rule::{Holds, Rule, Test, matches};
use vp_wild::Steps;

/// A card by the letters of its rank and its suit.
type Letters = [u8; 2];

/// What a hold keeps and throws away: how many cards are held, how many of them are wild, and the cards that are not.
#[derive(Drop)]
struct Cards {
    held: usize,
    wilds: usize,
    kept: ArrayVec<Letters, 5>,
    left: ArrayVec<Letters, 5>,
}

const RANKS: [u8; 13] = *b"23456789TJQKA";

const WINDOWS: [[u8; 5]; 10] = [
    *b"A2345", *b"23456", *b"34567", *b"45678", *b"56789", *b"6789T", *b"789TJ", *b"89TJQ",
    *b"9TJQK", *b"TJQKA",
];

/// The cards of a hold; the cards of rank `wild`, a letter, are wild, and so are the jokers.
fn cards_of(hand: &Hand, mask: u8, wild: u8) -> Cards {
    let mut cards = Cards {
        held: 0,
        wilds: 0,
        kept: ArrayVec::new(),
        left: ArrayVec::new(),
    };
    let mut bits = mask;
    for card in hand.held(31) {
        let letters = card.text();
        let is_held = bits % 2 == 1;
        let is_wild = letters[0] == wild || letters == *b"Jo" || letters == *b"Jk";
        bits /= 2;
        if is_held {
            cards.held = cards.held.saturating_add(1);
        }
        if is_held && is_wild {
            cards.wilds = cards.wilds.saturating_add(1);
        }
        if is_held && !is_wild {
            let _ = cards.kept.try_push(letters);
        }
        if !is_held && !is_wild {
            let _ = cards.left.try_push(letters);
        }
    }
    cards
}

/// How many of the cards have this rank.
fn of_rank(cards: &[Letters], rank: u8) -> usize {
    cards.iter().filter(|card| card[0] == rank).count()
}

/// How many of the cards have a rank of the set.
fn of_set(cards: &[Letters], set: RankSet) -> usize {
    let ranks = set.text();
    cards
        .iter()
        .filter(|card| ranks.as_slice() == b"any".as_slice() || ranks.contains(&card[0]))
        .count()
}

/// How many of the cards have a suit that one of the others has.
fn of_suits(cards: &[Letters], others: &[Letters]) -> usize {
    cards
        .iter()
        .filter(|card| others.iter().any(|other| other[1] == card[1]))
        .count()
}

/// All cards have one suit.
fn one_suit(cards: &[Letters]) -> bool {
    cards
        .iter()
        .all(|card| cards.iter().all(|other| other[1] == card[1]))
}

/// No two cards have one rank.
fn none_repeats(cards: &[Letters]) -> bool {
    cards.iter().all(|card| of_rank(cards, card[0]) == 1)
}

/// How many windows have all ranks of the cards.
fn windows(cards: &[Letters]) -> usize {
    WINDOWS
        .iter()
        .filter(|window| cards.iter().all(|card| window.contains(&card[0])))
        .count()
}

/// Whether the test holds, by its row in the table of tests. `line` is the place of the pay line that pays the hand.
fn is_met(test: &Test, cards: &Cards, line: Option<u8>) -> bool {
    let kept = cards.kept.as_slice();
    let left = cards.left.as_slice();
    match test {
        Test::Hold(number) => cards.held == usize::from(*number),
        Test::Wilds(number) => cards.wilds == usize::from(*number),
        Test::Suited => one_suit(kept),
        Test::Mixed => !one_suit(kept),
        Test::Royal => {
            one_suit(kept)
                && none_repeats(kept)
                && kept.iter().all(|card| b"TJQKA".contains(&card[0]))
        }
        Test::Windows(least, most) => {
            let windows = if none_repeats(kept) { windows(kept) } else { 0 };
            usize::from(*least) <= windows && windows <= usize::from(*most)
        }
        Test::Count(set, least, most) => {
            let number = of_set(kept, *set);
            usize::from(*least) <= number && number <= usize::from(*most)
        }
        Test::Equal(number) => {
            let greatest = RANKS.iter().map(|rank| of_rank(kept, *rank)).max();
            greatest == Some(usize::from(*number))
        }
        Test::Ranks(number) => {
            let ranks = RANKS.iter().filter(|rank| of_rank(kept, **rank) > 0);
            ranks.count() == usize::from(*number)
        }
        Test::Made(place) => cards.held == 5 && line == Some(*place),
        Test::Left(set, number) => of_set(left, *set) == usize::from(*number),
        Test::LeftSuit(number) => of_suits(left, kept) == usize::from(*number),
    }
}

/// Each test with all its numbers, and four sets of ranks.
fn all_tests() -> ArrayVec<Test, 256> {
    let mut tests = ArrayVec::new();
    for test in [Test::Suited, Test::Mixed, Test::Royal] {
        let _ = tests.try_push(test);
    }
    for number in 0..6u8 {
        for test in [
            Test::Hold(number),
            Test::Wilds(number),
            Test::Equal(number),
            Test::Ranks(number),
            Test::LeftSuit(number),
        ] {
            let _ = tests.try_push(test);
        }
    }
    for most in 0..11u8 {
        let _ = tests.try_push(Test::Made(most));
        for least in 0..=most {
            let _ = tests.try_push(Test::Windows(least, most));
        }
    }
    for ranks in ["any", "JQKA", "2", "89T"] {
        if let Some(set) = RankSet::read(ranks.as_bytes()) {
            for most in 0..6u8 {
                let _ = tests.try_push(Test::Left(set, most));
                for least in 0..=most {
                    let _ = tests.try_push(Test::Count(set, least, most));
                }
            }
        }
    }
    tests
}

/// The first hold and test of a hand on which the rule of this test and its row in the table differ.
fn differing<L: Ledger>(
    table: &PayTable,
    hand: &Hand,
    wild: u8,
    line: Option<u8>,
    blank: Blank,
) -> Option<(u8, Test)>
    requires name { blank.name ≡ L.name }
    requires parts { blank.parts ≡ L.parts }
    requires some { 0 < blank.parts }
{
    let mut steps = Steps::<L>::new(blank);
    let holds = Holds::of(table, hand, &mut steps);
    for test in all_tests() {
        let mut rule = Rule::default();
        let _ = rule.tests.try_push(test);
        let mut some = false;
        for mask in 0..32u8 {
            let due = is_met(&test, &cards_of(hand, mask, wild), line);
            let alone = matches(&rule, table, hand, mask, &mut steps);
            if alone != due || holds.is_matched(&rule, mask) != due {
                return Some((mask, test));
            }
            some = some || due;
        }
        if holds.some_is_matched(&rule) != some {
            return Some((32, test));
        }
    }
    None
}

// Behind each deal the place of the pay line that pays it.
#[test]
fn holds_beside_the_table_of_tests(rt: HostRuntime) -> Result<(), Fail> {
    assert_eq!(rt; all_tests().len(), 218);
    let cases: [(&[u8], u8, &[u8; 19], Option<u8>); 14] = [
        (JACKS, b'-', b"deal As Ks Qs Js 4s", Some(4)),
        (JACKS, b'-', b"deal 8c 8d 8h 8s 3c", Some(2)),
        (JACKS, b'-', b"deal Tc Jd Qh Kh As", Some(5)),
        (JACKS, b'-', b"deal 2c 2d 9h Js Jc", Some(7)),
        (DEUCES, b'2', b"deal 2c 2d Ts Js Qs", Some(2)),
        (DEUCES, b'2', b"deal 2h 3h 5c 9h Kd", None),
        (DEUCES, b'2', b"deal 5c 5d 9h 9s Qc", None),
        (KINGS, b'-', b"deal Jo Ts Js Qs Ks", Some(2)),
        (KINGS, b'-', b"deal Jo 3c 4c 5c 9d", None),
        (KINGS, b'-', b"deal Ac 2d 3d 4s 5h", Some(7)),
        (TWO_JOKERS, b'-', b"deal Jk Jo 2c 3c 4c", Some(1)),
        (TWO_JOKERS, b'-', b"deal Jk 8c 8d 8h 3c", Some(0)),
        (TWO_JOKERS, b'-', b"deal Jo 2c 6d 8h Ts", Some(0)),
        (TWO_JOKERS, b'-', b"deal As Ks Qs Js 4s", None),
    ];
    for (text, wild, deal, line) in cases {
        let table = PayTable::in_text(text).ok_or("a table")?;
        let hand = hand_of(deal, table.deck).ok_or("a hand")?;
        let found = differing::<Brand>(&table, &hand, wild, line, Blank::new(1));
        assert_eq!(rt; found, None);
    }
    Ok(())
}
