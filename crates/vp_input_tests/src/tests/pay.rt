//! Sample tables written as they were read, and lines that are refused.

ghost use Rattle.std.specs.Prelude.{◌≤◌, length};
ghost use Rattle.vp_card.specs.Cards.{IsDeck};

use arrayvec::ArrayVec;
use std::test::*;
use vp_io::{MemSink, WriteFault};
use vp_pay::samples::{
    BONUS, DEUCES, DEUCES_AND_ACE, GREATEST, JACKS, JOKER_QUADS, KICKER, KINGS, LONG, ONE_JOKER,
    OPERATORS_JACKS, TWO_JOKERS, ZERO,
};
use vp_pay::{PayTable, five_cards, next_card, read_deal};
use vp_text::{Lines, Refused};

#[test]
fn written_as_read(rt: HostRuntime) -> Result<(), Fail> {
    let texts = [
        JACKS,
        BONUS,
        DEUCES,
        KINGS,
        JOKER_QUADS,
        GREATEST,
        KICKER,
        DEUCES_AND_ACE,
        ONE_JOKER,
        TWO_JOKERS,
        ZERO,
    ];
    for text in texts {
        assert!(rt; text.len() <= 512);
        let table = PayTable::in_text(text).ok_or("a table")?;
        let mut room = [0; 512];
        let mut sink = MemSink::new(&mut room, 7, &[]);
        assert_eq!(rt; table.write(&mut sink), Ok(()));
        assert_eq!(rt; sink.taken(), text);
    }
    Ok(())
}

// The sixth line is put by the sixth write, which fails.
#[test]
fn written_up_to_a_fault(rt: HostRuntime) -> Result<(), Fail> {
    let table = PayTable::in_text(KICKER).ok_or("a table")?;
    let mut room = [0; 512];
    let mut sink = MemSink::new(&mut room, 100, &[6]);
    assert_eq!(rt; table.write(&mut sink), Err(WriteFault));
    let five =
        b"table kickers\ndeck 52\nwild none\ncoins 1\nline kick quads A kicker 234 either 400\n";
    assert_eq!(rt; sink.taken(), five.as_slice());
    Ok(())
}

// The tables that the program has, and the places of their lines.
#[test]
fn built_in_tables(rt: HostRuntime) -> Result<(), Fail> {
    let jacks = PayTable::built_in(0).ok_or("a table")?;
    assert_eq!(rt; PayTable::in_text(OPERATORS_JACKS), Some(jacks));
    let kings = PayTable::built_in(3).ok_or("a table")?;
    assert_eq!(rt; kings.deck, 53);
    assert_eq!(rt; kings.position(b"five-kind"), Some(1));
    assert_eq!(rt; kings.position(b"five"), None);
    assert!(rt; PayTable::built_in(4).is_none());
    Ok(())
}

/// The line at which a text is refused as a table.
fn refused_line(text: &[u8]) -> Option<u32>
    requires { length text.now ≤ 67108864 }
{
    match PayTable::read(&mut Lines::new(text)) {
        Ok(_) => None,
        Err(Refused { line }) => Some(line),
    }
}

/// The same of a table that has these lines behind its name.
fn refused_behind_name(more: &[u8]) -> Option<u32> {
    let mut text = ArrayVec::<u8, 256>::new();
    text.try_extend_from_slice(b"table a\n").ok()?;
    text.try_extend_from_slice(more).ok()?;
    refused_line(&text)
}

#[test]
fn refused_tables(rt: HostRuntime) {
    let cases: [(&[u8], u32); 18] = [
        (b"deck 55\nwild none\n", 2),
        (b"deck 51\nwild none\n", 2),
        (b"deck 052\nwild none\n", 2),
        (b"deck 53 53\nwild none\n", 2),
        (b"deck 54\nwild 1\n", 3),
        (b"deck 54\nwild none\ncoins 6\n", 4),
        (b"deck 52\nwild none\ncoins 1\nend\n", 5),
        (
            b"deck 52\nwild none\ncoins 1\nline b royal either 500001\n",
            5,
        ),
        (b"deck 52\nwild none\ncoins 1\nline b royal either 1 2\n", 5),
        (b"deck 52\nwild none\ncoins 2\nline b royal either 1\n", 5),
        (b"deck 52\nwild none\ncoins 1\nline B royal either 1\n", 5),
        (
            b"deck 52\nwild none\ncoins 1\nline b wilds 3 kicker A either 1\n",
            5,
        ),
        (
            b"deck 52\nwild none\ncoins 1\nline b pair 23456789TJQKA either 1\n",
            5,
        ),
        (b"deck 52\nwild none\ncoins 1\nline b pair AK either 1\n", 5),
        (
            b"deck 52\nwild none\ncoins 1\nline b royal either 1\nline b flush either 1\n",
            6,
        ),
        (
            b"deck 52\nwild none\ncoins 1\nline b royal either 1\nend end\n",
            6,
        ),
        (
            b"deck 52\nwild none\ncoins 1\nline b royal either 1\n\n# more\n",
            8,
        ),
        (b"", 2),
    ];
    for (text, line) in cases {
        assert_eq!(rt; refused_behind_name(text), Some(line));
    }
    // The names are 24 and 25 bytes long.
    assert_eq!(rt; refused_line(b"table a23456789012345678901234\n"), Some(2));
    assert_eq!(rt;
        refused_line(b"table a234567890123456789012345\ndeck 52\n"),
        Some(1)
    );
    // 33 pay lines, of which the last is refused.
    assert_eq!(rt; refused_line(LONG), Some(37));
}

/// The numbers of the hand that a text deals from a deck of so many cards, or the line that is refused.
fn dealt_from(deck: u8, text: &[u8]) -> Result<[u8; 5], u32>
    requires deck { IsDeck deck }
    requires short { length text.now ≤ 67108864 }
{
    match read_deal(&mut Lines::new(text), deck) {
        Ok(hand) => Ok(hand.numbers()),
        Err(Refused { line }) => Err(line),
    }
}

/// The same for each deck.
fn dealt(text: &[u8]) -> [Result<[u8; 5], u32>; 3]
    requires { length text.now ≤ 67108864 }
{
    [
        dealt_from(52, text),
        dealt_from(53, text),
        dealt_from(54, text),
    ]
}

#[test]
fn deals(rt: HostRuntime) {
    let natural = Ok([11, 35, 43, 47, 51]);
    assert_eq!(rt; dealt(b"deal As Ks Qs Ts 4s"), [natural, natural, natural]);
    let one = Ok([11, 35, 47, 51, 52]);
    assert_eq!(rt; dealt(b"deal Jo As Ks Ts 4s"), [Err(1), one, one]);
    let both = Ok([11, 47, 51, 52, 53]);
    assert_eq!(rt;
        dealt(b"# both\ndeal Jk As Jo Ks 4s"),
        [Err(2), Err(2), both]
    );
    let texts: [(&[u8], u32); 5] = [
        (b"deal As As Ks Qs Js", 1),
        (b"deal As Ks Qs Js", 1),
        (b"\ndeal As Ks Qs Js Ts 9s", 2),
        (b"As Ks Qs Js Ts", 1),
        (b"# nothing\n", 2),
    ];
    for (text, line) in texts {
        assert!(rt; text.len() <= 100);
        assert_eq!(rt; dealt(text), [Err(line), Err(line), Err(line)]);
    }
}

// Cards in the words of a line may repeat.
#[test]
fn cards_of_a_line(rt: HostRuntime) -> Result<(), Fail> {
    let mut lines = Lines::new(b"Jk 2c Jo 2c As 3d 10s");
    let mut words = lines.next().ok_or("a line")?;
    let five = five_cards(&mut words).ok_or("five cards")?;
    let [a, b, c, d, e] = five;
    assert_eq!(rt;
        [a.number(), b.number(), c.number(), d.number(), e.number()],
        [53, 0, 52, 0, 51]
    );
    let sixth = next_card(&mut words).ok_or("a sixth card")?;
    assert_eq!(rt; sixth.number(), 5);
    assert!(rt; next_card(&mut words).is_none());
    Ok(())
}
