//! The segments of a dozen deals, beside all 32 holds tried at every payment.

ghost use Rattle.std.specs.Prelude.{◌≡◌, ◌<◌, true, length, IfSome};
ghost use Rattle.vp_card.specs.Cards.{in_deck};
ghost use Rattle.vp_count.specs.Table.{first_word};
ghost use Rattle.vp_pay.specs.Bets.{IsBet};
ghost use Rattle.vp_pay.specs.Table.{IsTable};

use arrayvec::ArrayVec;
use std::test::*;
use vp_card::Hand;
use vp_count::table_words;
use vp_meter::{Metered, Segment, segments};
use vp_pay::samples::{JACKS, JOKER_QUADS, ZERO};
use vp_pay::{PayTable, read_deal};
use vp_text::Lines;

/// What each hold is worth where the line pays nothing, and by how much that rises.
type Parts = [(u64, u64); 32];

fn parts_of(m: &Metered, hand: &Hand) -> Parts
    requires { in_deck m.now.table.deck hand.now ≡ true }
{
    let mut parts = [(0, 0); 32];
    for mask in 0..32u8 {
        parts[mask as usize] = m.parts(hand, mask);
    }
    parts
}

/// What a line is worth at `x`.
fn worth_at(base: u64, slope: u64, x: u32) -> u128 {
    u128::from(base) + u128::from(x) * u128::from(slope)
}

fn greatest_at(parts: &Parts, x: u32) -> u128 {
    let mut most = 0;
    for (base, slope) in parts {
        let worth = worth_at(*base, *slope, x);
        if most < worth {
            most = worth;
        }
    }
    most
}

/// The segment that begins at `x`: of the holds that are worth most the steepest, and of those the least.
fn begun_at(parts: &Parts, x: u32) -> Segment {
    let most = greatest_at(parts, x);
    let mut found: Option<Segment> = None;
    for mask in 0..32u8 {
        let (base, slope) = parts[mask as usize];
        let is_steeper = match found {
            Some(segment) => segment.slope < slope,
            None => true,
        };
        if worth_at(base, slope, x) == most && is_steeper {
            found = Some(Segment {
                from: x,
                mask,
                base,
                slope,
            });
        }
    }
    found.unwrap_or_default()
}

/// The segments from `lo` to `hi`: at each payment a hold stays where none is worth more.
fn tried(parts: &Parts, lo: u32, hi: u32) -> ArrayVec<Segment, 32> {
    let mut found = ArrayVec::new();
    let mut last = begun_at(parts, lo);
    let _ = found.try_push(last);
    for x in lo..=hi {
        if worth_at(last.base, last.slope, x) < greatest_at(parts, x) {
            last = begun_at(parts, x);
            let _ = found.try_push(last);
        }
    }
    found
}

/// The hand of a deal line, where its cards are of the table's deck.
fn hand_of(deal: &[u8; 19], table: &PayTable) -> Option<Hand>
    requires { IsTable table.now }
    ensures { IfSome result (λ hand. in_deck table.now.deck hand ≡ true) }
{
    let hand = read_deal(&mut Lines::new(deal), table.deck).ok()?;
    if hand.is_of_deck(table.deck) {
        Some(hand)
    } else {
        None
    }
}

/// How many segments a hand has in these ranges; none where some are not those that are found by trying.
fn segments_tried(m: &Metered, hand: &Hand, ranges: &[(u32, u32); 4]) -> Option<usize>
    requires { in_deck m.now.table.deck hand.now ≡ true }
{
    let parts = parts_of(m, hand);
    let mut count = 0usize;
    for (lo, hi) in ranges {
        if *hi < *lo || 500_000 < *hi {
            return None;
        }
        let found = segments(m, hand, *lo, *hi);
        if found != tried(&parts, *lo, *hi) {
            return None;
        }
        count = count.saturating_add(found.len());
    }
    Some(count)
}

/// The parts of the holds 30 and 31 of the first deal, and how many segments the deals have: each around its payment, right
/// below it, at it, and up to 250.
fn told(
    table: &PayTable,
    line: u8,
    deals: &[(&[u8; 19], u32); 6],
    base: &mut [u64],
    hits: &mut [u64],
) -> Option<([(u64, u64); 2], usize)>
    requires bet { IsBet table.now 1 }
    requires inside { line < length table.now.lines.items }
    requires long { length base.old ≡ first_word table.now.deck 6 }
    requires also { length hits.old ≡ first_word table.now.deck 6 }
{
    let m = Metered::of(table, 1, line, base, hits);
    let hand = hand_of(deals[0].0, table)?;
    let parts = [m.parts(&hand, 30), m.parts(&hand, 31)];
    let mut count = 0usize;
    for (deal, x) in deals {
        let hand = hand_of(*deal, table)?;
        let below = x.saturating_sub(1);
        let around = (x.saturating_sub(20), x.saturating_add(20));
        let ranges = [around, (below, below), (*x, *x), (0, 250)];
        count = count.saturating_add(segments_tried(&m, &hand, &ranges)?);
    }
    Some((parts, count))
}

// With each deal the payment from which on it is held otherwise; the third and the tenth stay as they are.
#[test]
fn holds_tried_at_every_payment(rt: HostRuntime) -> Result<(), Fail> {
    for (text, name, deals, due) in [
        // The draw to a royal flush also makes 7 flushes of 6, 3 straights of 4 and 12 pairs of 1.
        (
            JACKS,
            "royal",
            [
                (b"deal As Ks Qs Js 4s", 217),
                (b"deal Ks Qs Js Ts 9s", 2276),
                (b"deal 8c 8d 8h 8s 3c", 217),
                (b"deal Ah Th 3c 3d 9s", 6674),
                (b"deal Kc Qc Kd 4h 5h", 17_095),
                (b"deal 2c 4d 6h 8s Tc", 9307),
            ],
            ([(66 * 163185, 163185), (6 * 7669695, 0)], 30),
        ),
        // Of 49 cards the eight and the other joker make five of a kind, and the others four.
        (
            JOKER_QUADS,
            "quads",
            [
                (b"deal Jk 8c 8d 8h 3c", 91),
                (b"deal Jk Jo 2c 3c 4c", 223),
                (b"deal Jk Jo 5h 9h Kh", 41),
                (b"deal Jo Kc Kd 7h 7s", 100),
                (b"deal Jo 3c 4c 5c 9d", 194),
                (b"deal As Ks Qs Js 4s", 1184),
            ],
            ([(2 * 90 * 77832, 47 * 77832), (0, 3_813_768)], 34),
        ),
        // Nothing else is paid: the steepest hold is in force from 0 on, and of equal ones the least.
        (
            ZERO,
            "royal",
            [
                (b"deal As Ks Qs Js 4s", 20),
                (b"deal Ks Qs Js Ts 9s", 20),
                (b"deal 8c 8d 8h 8s 3c", 20),
                (b"deal Ah Th 3c 3d 9s", 20),
                (b"deal Kc Qc Kd 4h 5h", 20),
                (b"deal 2c 4d 6h 8s Tc", 20),
            ],
            ([(0, 163185), (0, 0)], 24),
        ),
    ] {
        let table = PayTable::in_text(text).ok_or("a table")?;
        let line = table.position(name.as_bytes()).ok_or("a line")?;
        let mut base = vec![in rt.alloc(); 7u64; table_words(table.deck)]?;
        let mut hits = vec![in rt.alloc(); 9u64; table_words(table.deck)]?;
        let found = told(&table, line, &deals, &mut base, &mut hits);
        assert_eq!(rt; found, Some(due));
    }
    Ok(())
}
