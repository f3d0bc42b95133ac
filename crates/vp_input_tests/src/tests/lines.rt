//! Lines of every kind of word, put whole and up to a fault.

ghost use Rattle.std.specs.Prelude.{◌≤◌, length};

use std::test::*;
use vp_card::{Card, Hand, RankSet};
use vp_io::{MemSink, Sink, WriteFault};
use vp_lines::{Word, put_lines, put_words};

/// What the words stand for, and numbers about the ends of 64 and 128 bits.
const LINES: &[u8] = b"end
class 2c Td As Jo Jk 24 31 0
best 30 Td As 141318210 / 7669695
hold
return 18446744073709551616 / 18446744073709551615
most 340282366920938463463374607431768211455
line aces quads A kicker any 1 500000 4294967295 0
";

/// Puts lines with words of every kind.
fn put_every_kind<'a, K: Sink>(
    hand: &'a Hand,
    cards: &'a [Card],
    aces: &'a RankSet,
    all: &'a RankSet,
    sink: &mut K,
) -> Result<(), WriteFault>
    requires { length cards.now ≤ 5 }
{
    put_lines(
        &[
            &[Word::Text(b"end")],
            &[
                Word::Text(b"class"),
                Word::Hand(hand),
                Word::Number(24),
                Word::Number(31),
                Word::Number(0),
            ],
            &[
                Word::Text(b"best"),
                Word::Number(30),
                Word::Cards(cards),
                Word::Fraction(141318210, 7669695),
            ],
            &[Word::Text(b"hold"), Word::Nothing, Word::Cards(&[])],
            &[
                Word::Text(b"return"),
                Word::Fraction(18446744073709551616, 18446744073709551615),
            ],
            &[
                Word::Text(b"most"),
                Word::Nothing,
                Word::Number(340282366920938463463374607431768211455),
            ],
            &[
                Word::Text(b"line"),
                Word::Text(b"aces"),
                Word::Text(b"quads"),
                Word::Ranks(aces),
                Word::Text(b"kicker"),
                Word::Ranks(all),
                Word::Numbers(&[1, 500000, 4294967295, 0]),
            ],
        ],
        sink,
    )
}

/// The same into the sink, with both jokers.
fn put_to<K: Sink>(sink: &mut K) -> Option<Result<(), WriteFault>> {
    let ten = Card::read(b"Td")?;
    let ace = Card::read(b"As")?;
    let hand = Hand::of([
        Card::read(b"Jk")?,
        ace,
        Card::read(b"2c")?,
        Card::read(b"Jo")?,
        ten,
    ])?;
    let aces = RankSet::read(b"A")?;
    let all = RankSet::read(b"any")?;
    Some(put_every_kind(&hand, &[ten, ace], &aces, &all, sink))
}

#[test]
fn every_kind_of_word(rt: HostRuntime) {
    let mut room = [0; 512];
    let mut sink = MemSink::new(&mut room, 100, &[]);
    assert_eq!(rt; put_to(&mut sink), Some(Ok(())));
    assert_eq!(rt; sink.taken(), LINES);
}

// The third line is put by the third write, which fails, and nothing is put behind it.
#[test]
fn up_to_a_fault(rt: HostRuntime) {
    let mut room = [0; 512];
    let mut sink = MemSink::new(&mut room, 100, &[3]);
    assert_eq!(rt; put_to(&mut sink), Some(Err(WriteFault)));
    assert_eq!(rt;
        sink.taken(),
        b"end\nclass 2c Td As Jo Jk 24 31 0\n".as_slice()
    );
    let usage = put_words(&[Word::Text(b"usage")], &mut sink);
    assert_eq!(rt; usage, Ok(()));
    assert!(rt; sink.taken().ends_with(b"Jk 24 31 0\nusage\n"));
}
