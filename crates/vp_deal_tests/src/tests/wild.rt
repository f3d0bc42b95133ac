//! The ranker beside one that tries all faces, the hands of 52 cards counted, and facts worked by hand.

ghost use Rattle.std.specs.Prelude.{◌≡◌, ◌<◌};

mod plain;
mod tables;

use plain::first_line;
use std::marker::Brand;
use std::process::Abort;
use std::sync::ledger::{Blank, Ledger};
use std::test::Fail;
use tables::{deuces, deuces_and_jokers, every_pattern, hand_of, jokers, kickers, poker, table_of};
use vp_card::Hand;
use vp_pay::{PayTable, Qualifier};
use vp_wild::{Steps, line_of, pay};

/// The hand whose places in the pool are the bits of the mask; None where there aren't five.
fn subset(pool: &[u8; 12], mask: u16) -> Option<Hand> {
    let mut numbers = [0; 5];
    let mut count = 0;
    let mut rest = mask;
    for number in pool {
        if rest % 2 == 1 {
            *numbers.get_mut(count)? = *number;
            count += 1;
        }
        rest /= 2;
    }
    if count == 5 { hand_of(numbers) } else { None }
}

/// How many hands of the pool get the line that the plain ranker gives.
fn agreement<L: Ledger>(table: &PayTable, pool: &[u8; 12], blank: Blank) -> u32
    requires name { blank.name ≡ L.name }
    requires parts { blank.parts ≡ L.parts }
    requires some { 0 < blank.parts }
{
    let mut steps: Steps<L> = Steps::new(blank);
    let mut same = 0u32;
    for mask in 0..4096u16 {
        if let Some(hand) = subset(pool, mask)
            && line_of(table, &hand, &mut steps) == first_line(table, hand.numbers())
        {
            same = same.saturating_add(1);
        }
    }
    same
}

#[test]
fn agrees_with_all_faces(rt: HostRuntime) -> Result<(), Fail> {
    let cases = [
        // One joker, and twos are wild: 2c 3c 3d 3h Tc Jc Qc Kc Ac Ad As Jo.
        (53, Some(0), [0, 4, 5, 6, 32, 36, 40, 44, 48, 49, 51, 52]),
        // Two jokers: 3c 3d 3h Tc Jc Qc Kc Ac Ad As Jo Jk.
        (54, None, [4, 5, 6, 32, 36, 40, 44, 48, 49, 51, 52, 53]),
        // Two jokers, and twos are wild: 2c 3c 3d 4c Tc Jc Qc Kc Ac Ad Jo Jk.
        (54, Some(0), [0, 4, 5, 8, 32, 36, 40, 44, 48, 49, 52, 53]),
    ];
    for (deck, wild, pool) in cases {
        for pattern in every_pattern().ok_or("patterns")? {
            let table = table_of(deck, wild, &[(pattern, Qualifier::Either)]);
            let same = agreement::<Brand>(&table, &pool, Blank::new(1));
            assert_eq!(rt; same, 792, "{pattern:?} of {deck} cards");
        }
    }
    Ok(())
}

/// How many hands of 52 cards have each line of the table, and last how many have none.
fn tally<L: Ledger>(table: &PayTable, blank: Blank) -> Option<[u32; 9]>
    requires name { blank.name ≡ L.name }
    requires parts { blank.parts ≡ L.parts }
    requires some { 0 < blank.parts }
{
    let mut steps: Steps<L> = Steps::new(blank);
    let mut counts = [0u32; 9];
    for e in 4..52u8 {
        for d in 3..e {
            for c in 2..d {
                for b in 1..c {
                    for a in 0..b {
                        let hand = hand_of([a, b, c, d, e])?;
                        let line = line_of(table, &hand, &mut steps).unwrap_or(8);
                        let count = counts.get_mut(usize::from(line))?;
                        *count = count.saturating_add(1);
                    }
                }
            }
        }
    }
    Some(counts)
}

#[test]
fn counts_the_hands_of_52_cards(rt: HostRuntime) -> Result<(), Fail> {
    let table = poker().ok_or("table")?;
    let counts = tally::<Brand>(&table, Blank::new(1)).ok_or("hand")?;
    assert_eq!(rt;
        counts,
        [4, 36, 624, 3744, 5108, 10200, 54912, 123552, 2400780]
    );
    Ok(())
}

/// The payment of the hand, for a bet of 2.
fn paid<L: Ledger>(table: &PayTable, numbers: [u8; 5], blank: Blank) -> Option<u32>
    requires name { blank.name ≡ L.name }
    requires parts { blank.parts ≡ L.parts }
    requires some { 0 < blank.parts }
{
    let mut steps: Steps<L> = Steps::new(blank);
    Some(pay(table, 2, &hand_of(numbers)?, &mut steps))
}

/// Fails at the first hand whose payment is another.
fn all_paid(rt: &impl Abort, table: &PayTable, hands: &[([u8; 5], u32)]) -> Result<(), Fail> {
    for (hand, payment) in hands {
        assert_eq!(rt; paid::<Brand>(table, *hand, Blank::new(1)), Some(*payment));
    }
    Ok(())
}

#[test]
fn pays_the_first_line(rt: HostRuntime) -> Result<(), Fail> {
    let wild_deuces = [
        // Ts Js Qs Ks As, a natural royal
        ([35, 39, 43, 47, 51], 2),
        // 2c 2d 2h 2s Ac, four deuces and an ace
        ([0, 1, 2, 3, 48], 12),
        // 2c 2d 2h 2s Kc
        ([0, 1, 2, 3, 44], 22),
        // 2c Tc Jc Qc Ac, a wild royal
        ([0, 32, 36, 40, 48], 32),
        // 2c 2d 2h Ac Ad
        ([0, 1, 2, 48, 49], 42),
        // 2c Ac Ad Ah As: five of a kind has five aces
        ([0, 48, 49, 50, 51], 42),
        // 2s 3c 4c 5c 6c
        ([3, 4, 8, 12, 16], 52),
        // 2c 2d 2h 3c 9d
        ([0, 1, 2, 4, 29], 62),
        // 2c 2d 3c 8d Kh: no line
        ([0, 1, 4, 25, 46], 0),
    ];
    all_paid(&rt, &deuces().ok_or("table")?, &wild_deuces)?;
    // Ac Ad Ah As with 2c, and with 5c; Kc Kd Kh Ks with Ac; Qc Qd Qh Qs with Kc
    let four_of_a_kind = [
        ([0, 48, 49, 50, 51], 2),
        ([12, 48, 49, 50, 51], 12),
        ([44, 45, 46, 47, 48], 0),
        ([40, 41, 42, 43, 44], 22),
    ];
    all_paid(&rt, &kickers().ok_or("table")?, &four_of_a_kind)?;
    let two_jokers = [
        // Kc Kd Kh Jo Jk: five kings
        ([44, 45, 46, 52, 53], 12),
        // Tc Qc Ac Jo Jk: both jokers with an ace, before a wild royal
        ([32, 40, 48, 52, 53], 22),
        // Tc Jc Qc Jo Jk: a wild royal
        ([32, 36, 40, 52, 53], 32),
        // 5h 6h 9h Jo Jk: a straight flush
        ([14, 18, 30, 52, 53], 42),
        // 2c 2d 9h Jo Jk: four twos
        ([0, 1, 30, 52, 53], 52),
        // 2c 5d 9h Jo Jk: both jokers
        ([0, 13, 30, 52, 53], 62),
        // 2c 5d 9h Kd Jk: no line
        ([0, 13, 30, 45, 53], 0),
    ];
    all_paid(&rt, &jokers().ok_or("table")?, &two_jokers)?;
    let deuces_and_two_jokers = [
        // 2c 2d 2h Jo Jk
        ([0, 1, 2, 52, 53], 2),
        // 2c 2d 7h Jo Jk
        ([0, 1, 22, 52, 53], 12),
        // 2c 7h 7s Jo Jk: five sevens
        ([0, 22, 23, 52, 53], 22),
        // 2c Ts As Jo Jk: a wild royal
        ([0, 35, 51, 52, 53], 32),
        // 2c 3s 7s Jo Jk: a straight flush
        ([0, 7, 23, 52, 53], 42),
        // 2c 3s 9s Jo Jk: a flush
        ([0, 7, 31, 52, 53], 52),
        // 2c 3s 9h Jo Jk: no line
        ([0, 7, 30, 52, 53], 0),
    ];
    all_paid(
        &rt,
        &deuces_and_jokers().ok_or("table")?,
        &deuces_and_two_jokers,
    )
}
