//! Texts of cards and of sets of ranks as a player writes them, hands, and the decks.

use std::test::Fail;
use vp_card::{
    Card, Hand, RankSet, card_texts_differ, in_deck, is_deck, rank_letter, rank_of,
    rank_set_texts_differ, rising_hand,
};

/// Cards by their texts.
const TEXTS: [(&[u8], u8); 9] = [
    (b"2c", 0),
    (b"2d", 1),
    (b"2h", 2),
    (b"2s", 3),
    (b"3c", 4),
    (b"Tc", 32),
    (b"As", 51),
    (b"Jo", 52),
    (b"Jk", 53),
];

#[test]
fn cards_and_their_texts(rt: HostRuntime) {
    for (text, number) in TEXTS {
        let card = Card::read(text);
        assert!(rt; card == Card::new(number), "card {number}");
        assert!(rt;
            card.is_some_and(|card| card.text().as_slice() == text),
            "card {number}"
        );
    }
    for text in [
        b"10s".as_slice(),
        b"",
        b"J",
        b"jo",
        b"JO",
        b"Jo ",
        b"sA",
        b"1c",
        b"Ac2d",
        b"AS",
    ] {
        assert!(rt; Card::read(text).is_none(), "{text:?}");
    }
    assert!(rt; Card::new(54).is_none());
    assert!(rt; rank_of(b'T') == Some(8) && rank_letter(8) == b'T');
    card_texts_differ();
}

#[test]
fn sets_of_ranks_and_their_texts(rt: HostRuntime) {
    let texts: [(&[u8], u8, u8); 4] = [
        (b"any", 0, 13),
        (b"A", 12, 0),
        (b"JQKA", 9, 8),
        (b"23456789TJQK", 11, 12),
    ];
    for (text, has, lacks) in texts {
        match RankSet::read(text) {
            None => assert!(rt; false, "{text:?} is not read"),
            Some(set) => {
                assert!(rt; set.text().as_slice() == text, "{text:?}");
                assert!(rt; set.has(has) && !set.has(lacks), "{text:?}");
            }
        }
    }
    for text in [
        b"".as_slice(),
        b"AK",
        b"AA",
        b"23456789TJQKA",
        b"anyA",
        b"Any",
        b"AB",
    ] {
        assert!(rt; RankSet::read(text).is_none(), "{text:?}");
    }
    rank_set_texts_differ();
}

/// The cards with these texts.
fn cards_of(texts: [&[u8]; 5]) -> Option<[Card; 5]> {
    let [a, b, c, d, e] = texts;
    Some([
        Card::read(a)?,
        Card::read(b)?,
        Card::read(c)?,
        Card::read(d)?,
        Card::read(e)?,
    ])
}

#[test]
fn hands_of_cards(rt: HostRuntime) -> Result<(), Fail> {
    let hands: [([&[u8]; 5], [u8; 5], bool); 3] = [
        (
            [b"4s", b"Ts", b"Qs", b"Ks", b"As"],
            [11, 35, 43, 47, 51],
            true,
        ),
        (
            [b"As", b"Ks", b"4s", b"Ts", b"Qs"],
            [11, 35, 43, 47, 51],
            false,
        ),
        (
            [b"Jk", b"2c", b"Jo", b"As", b"2d"],
            [0, 1, 51, 52, 53],
            false,
        ),
    ];
    for (texts, numbers, rising) in hands {
        let cards = cards_of(texts).ok_or("five cards")?;
        let hand = Hand::of(cards).ok_or("five different cards")?;
        assert_eq!(rt; hand.numbers(), numbers);
        assert!(rt; rising_hand(cards, 54) == rising.then_some(hand));
        let [first, second, .., last] = numbers;
        assert!(rt; hand.held(0).is_empty() && hand.held(31).len() == 5);
        let two: Option<[u8; 2]> = match hand.held(17).as_slice() {
            [a, b] => Some([a.number(), b.number()]),
            _ => None,
        };
        assert_eq!(rt; two, Some([first, last]), "not {second}");
        assert!(rt; hand.is_of_deck(last + 1) && !hand.is_of_deck(last));
    }
    Ok(())
}

#[test]
fn cards_that_stand_twice(rt: HostRuntime) -> Result<(), Fail> {
    let twice: [[&[u8]; 5]; 3] = [
        [b"2c", b"3c", b"4c", b"5c", b"5c"],
        [b"As", b"Ks", b"4s", b"As", b"Qs"],
        [b"Jo", b"Ks", b"4s", b"As", b"Jo"],
    ];
    for texts in twice {
        let cards = cards_of(texts).ok_or("five cards")?;
        assert!(rt; Hand::of(cards).is_none());
    }
    Ok(())
}

#[test]
fn decks_with_jokers(rt: HostRuntime) -> Result<(), Fail> {
    let jokers = cards_of([b"2c", b"3c", b"As", b"Jo", b"Jk"]).ok_or("five cards")?;
    for (deck, is_one, both) in [
        (0, false, false),
        (51, false, false),
        (52, true, false),
        (53, true, false),
        (54, true, true),
        (55, false, true),
    ] {
        assert!(rt; is_deck(deck) == is_one, "a deck of {deck}");
        assert!(rt; in_deck(&jokers, deck) == both, "a deck of {deck}");
        assert!(rt; rising_hand(jokers, deck).is_some() == both);
    }
    Ok(())
}
