//! Tables and hands for tests.

use arrayvec::ArrayVec;
use vp_card::{Card, Hand, RankSet};
use vp_pay::{Name, Pattern, PayLine, PayTable, Qualifier};

/// The hand of these cards; None where they aren't different cards.
pub(crate) fn hand_of(numbers: [u8; 5]) -> Option<Hand> {
    let [a, b, c, d, e] = numbers;
    Hand::of([
        Card::new(a)?,
        Card::new(b)?,
        Card::new(c)?,
        Card::new(d)?,
        Card::new(e)?,
    ])
}

/// A table with these lines, of which line `i` pays `10 * i + coin`.
pub(crate) fn table_of(deck: u8, wild: Option<u8>, lines: &[(Pattern, Qualifier)]) -> PayTable {
    let mut table = PayTable {
        name: Name::default(),
        deck,
        wild,
        coins: 5,
        lines: ArrayVec::new(),
    };
    let mut first = 1u32;
    for (pattern, qualifier) in lines {
        let second = first.saturating_add(1);
        let third = first.saturating_add(2);
        let pays = [
            first,
            second,
            third,
            first.saturating_add(3),
            first.saturating_add(4),
        ];
        let line = PayLine {
            name: Name::default(),
            pattern: *pattern,
            qualifier: *qualifier,
            pays,
        };
        let _ = table.lines.try_push(line);
        first = first.saturating_add(10);
    }
    table
}

/// Each pattern, those with sets of ranks at a narrow set.
pub(crate) fn every_pattern() -> Option<[Pattern; 18]> {
    let any = RankSet::read(b"any")?;
    let some = RankSet::read(b"3JA")?;
    let other = RankSet::read(b"TQA")?;
    Some([
        Pattern::Royal,
        Pattern::StraightFlush,
        Pattern::FiveKind(any),
        Pattern::FiveKind(some),
        Pattern::Wilds(1, None),
        Pattern::Wilds(2, None),
        Pattern::Wilds(2, Some(some)),
        Pattern::Wilds(3, None),
        Pattern::Quads(any, None),
        Pattern::Quads(some, None),
        Pattern::Quads(some, Some(other)),
        Pattern::Quads(any, Some(some)),
        Pattern::FullHouse,
        Pattern::Flush,
        Pattern::Straight,
        Pattern::Trips,
        Pattern::TwoPair,
        Pattern::Pair(some),
    ])
}

/// Royals and other straight flushes, quads, full houses, flushes, straights, trips and two pairs, without wild cards.
pub(crate) fn poker() -> Option<PayTable> {
    let any = RankSet::read(b"any")?;
    let patterns = [
        Pattern::Royal,
        Pattern::StraightFlush,
        Pattern::Quads(any, None),
        Pattern::FullHouse,
        Pattern::Flush,
        Pattern::Straight,
        Pattern::Trips,
        Pattern::TwoPair,
    ];
    Some(table_of(
        52,
        None,
        &patterns.map(|pattern| (pattern, Qualifier::Either)),
    ))
}

/// Deuces wild: natural royals, four deuces with an ace, four deuces, wild royals, five of a kind, straight flushes,
/// quads.
pub(crate) fn deuces() -> Option<PayTable> {
    let any = RankSet::read(b"any")?;
    let aces = RankSet::read(b"A")?;
    Some(table_of(
        52,
        Some(0),
        &[
            (Pattern::Royal, Qualifier::Natural),
            (Pattern::Wilds(4, Some(aces)), Qualifier::Either),
            (Pattern::Wilds(4, None), Qualifier::Either),
            (Pattern::Royal, Qualifier::Wild),
            (Pattern::FiveKind(any), Qualifier::Either),
            (Pattern::StraightFlush, Qualifier::Either),
            (Pattern::Quads(any, None), Qualifier::Either),
        ],
    ))
}

/// Four aces with a low kicker, four aces, four of any rank with a kicker of that rank or a king.
pub(crate) fn kickers() -> Option<PayTable> {
    let aces = RankSet::read(b"A")?;
    let low = RankSet::read(b"234")?;
    let any = RankSet::read(b"any")?;
    let kings = RankSet::read(b"K")?;
    Some(table_of(
        52,
        None,
        &[
            (Pattern::Quads(aces, Some(low)), Qualifier::Either),
            (Pattern::Quads(aces, None), Qualifier::Either),
            (Pattern::Quads(any, Some(kings)), Qualifier::Either),
        ],
    ))
}

/// Two jokers and no wild rank: natural royals, five of a kind, both jokers with an ace, wild royals, straight flushes,
/// quads, both jokers.
pub(crate) fn jokers() -> Option<PayTable> {
    let any = RankSet::read(b"any")?;
    let aces = RankSet::read(b"A")?;
    Some(table_of(
        54,
        None,
        &[
            (Pattern::Royal, Qualifier::Natural),
            (Pattern::FiveKind(any), Qualifier::Either),
            (Pattern::Wilds(2, Some(aces)), Qualifier::Either),
            (Pattern::Royal, Qualifier::Wild),
            (Pattern::StraightFlush, Qualifier::Either),
            (Pattern::Quads(any, None), Qualifier::Either),
            (Pattern::Wilds(2, None), Qualifier::Either),
        ],
    ))
}

/// Deuces and both jokers wild: five wild cards, four, five of a kind, wild royals, straight flushes, flushes.
pub(crate) fn deuces_and_jokers() -> Option<PayTable> {
    let any = RankSet::read(b"any")?;
    Some(table_of(
        54,
        Some(0),
        &[
            (Pattern::Wilds(5, None), Qualifier::Either),
            (Pattern::Wilds(4, None), Qualifier::Either),
            (Pattern::FiveKind(any), Qualifier::Either),
            (Pattern::Royal, Qualifier::Wild),
            (Pattern::StraightFlush, Qualifier::Either),
            (Pattern::Flush, Qualifier::Either),
        ],
    ))
}
