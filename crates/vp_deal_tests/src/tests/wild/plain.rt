//! A ranker that tries all 52 faces at each wild card, for hands with at most three.

use vp_card::RankSet;
use vp_pay::{Pattern, PayLine, PayTable, Qualifier};

const WINDOWS: [[u8; 5]; 10] = [
    [12, 0, 1, 2, 3],
    [0, 1, 2, 3, 4],
    [1, 2, 3, 4, 5],
    [2, 3, 4, 5, 6],
    [3, 4, 5, 6, 7],
    [4, 5, 6, 7, 8],
    [5, 6, 7, 8, 9],
    [6, 7, 8, 9, 10],
    [7, 8, 9, 10, 11],
    [8, 9, 10, 11, 12],
];

/// The first line of the table that the hand hits.
pub(crate) fn first_line(table: &PayTable, hand: [u8; 5]) -> Option<u8> {
    let position = table
        .lines
        .iter()
        .position(|line| hits(line, table.wild, hand))?;
    u8::try_from(position).ok()
}

fn is_wild(wild: Option<u8>, card: u8) -> bool {
    card >= 52 || wild == Some(card / 4)
}

fn hits(line: &PayLine, wild: Option<u8>, hand: [u8; 5]) -> bool {
    let wilds = hand.iter().filter(|card| is_wild(wild, **card)).count();
    let qualifies = match line.qualifier {
        Qualifier::Either => true,
        Qualifier::Natural => wilds == 0,
        Qualifier::Wild => wilds != 0,
    };
    let matches = match &line.pattern {
        Pattern::Wilds(number, None) => wilds == usize::from(*number),
        Pattern::Wilds(number, Some(ranks)) => {
            wilds == usize::from(*number)
                && hand
                    .iter()
                    .any(|card| !is_wild(wild, *card) && ranks.has(*card / 4))
        }
        _ => some_faces(&line.pattern, wild, hand),
    };
    qualifies && matches
}

fn some_faces(pattern: &Pattern, wild: Option<u8>, hand: [u8; 5]) -> bool {
    let first = hand.iter().position(|card| is_wild(wild, *card));
    let last = hand.iter().rposition(|card| is_wild(wild, *card));
    let middle = wild_between(wild, &hand, first, last);
    let firsts = if first.is_some() { 52u8 } else { 1 };
    let middles = if middle.is_some() { 52u8 } else { 1 };
    let lasts = if first == last { 1u8 } else { 52 };
    (0..firsts).any(|one| (0..middles).any(|two| (0..lasts).any(|three| meets(
        pattern,
        &placed(placed(placed(hand, last, three), middle, two), first, one),
    ))))
}

/// The place of a wild card that is at neither of two places.
fn wild_between(
    wild: Option<u8>,
    hand: &[u8; 5],
    first: Option<usize>,
    last: Option<usize>,
) -> Option<usize> {
    for (place, card) in hand.iter().enumerate() {
        if is_wild(wild, *card) && Some(place) != first && Some(place) != last {
            return Some(place);
        }
    }
    None
}

/// The hand with a face at a place, if there is one.
fn placed(hand: [u8; 5], place: Option<usize>, face: u8) -> [u8; 5] {
    let mut faces = hand;
    if let Some(at) = place
        && let Some(card) = faces.get_mut(at)
    {
        *card = face;
    }
    faces
}

fn ranked(faces: &[u8; 5], rank: u8) -> usize {
    faces.iter().filter(|face| **face / 4 == rank).count()
}

fn some_rank(faces: &[u8; 5], ranks: RankSet, least: usize) -> bool {
    (0..13u8).any(|rank| ranks.has(rank) && ranked(faces, rank) >= least)
}

fn one_suit(faces: &[u8; 5]) -> bool {
    faces.iter().all(|face| *face % 4 == faces[0] % 4)
}

fn fills(faces: &[u8; 5], window: &[u8; 5]) -> bool {
    window.iter().all(|rank| ranked(faces, *rank) == 1)
}

fn straight(faces: &[u8; 5]) -> bool {
    WINDOWS.iter().any(|window| fills(faces, window))
}

fn kicker(faces: &[u8; 5], ranks: RankSet, others: RankSet) -> bool {
    (0..13u8).any(|rank| {
        ranks.has(rank)
            && ranked(faces, rank) == 4
            && faces
                .iter()
                .any(|face| *face / 4 != rank && others.has(*face / 4))
    })
}

fn meets(pattern: &Pattern, faces: &[u8; 5]) -> bool {
    match pattern {
        Pattern::Royal => one_suit(faces) && fills(faces, &WINDOWS[9]),
        Pattern::StraightFlush => one_suit(faces) && straight(faces),
        Pattern::FiveKind(ranks) => some_rank(faces, *ranks, 5),
        Pattern::Wilds(_, _) => false,
        Pattern::Quads(ranks, None) => some_rank(faces, *ranks, 4),
        Pattern::Quads(ranks, Some(others)) => kicker(faces, *ranks, *others),
        Pattern::FullHouse => {
            (0..13u8).any(|rank| ranked(faces, rank) == 3)
                && (0..13u8).any(|rank| ranked(faces, rank) == 2)
        }
        Pattern::Flush => one_suit(faces),
        Pattern::Straight => straight(faces),
        Pattern::Trips => (0..13u8).any(|rank| ranked(faces, rank) >= 3),
        Pattern::TwoPair => (0..13u8).filter(|rank| ranked(faces, *rank) >= 2).count() >= 2,
        Pattern::Pair(ranks) => some_rank(faces, *ranks, 2),
    }
}
