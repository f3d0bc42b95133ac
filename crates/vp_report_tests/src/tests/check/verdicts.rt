//! Texts with one thing wrong.

use arrayvec::ArrayVec;
use std::test::*;
use vp_check::CertRule::{Cover, Mask, Order, Value, Weight};
use vp_check::{CertRule, Checked, Finding, check};
use vp_io::MemSink;
use vp_pay::PayTable;
use vp_pay::samples::{ONE_JOKER, TWO_JOKERS, ZERO};

/// The answer to a table and these lines behind it; None where they are too long.
fn answer(table: &[u8], lines: &[u8], from: u32, count: u32) -> Option<Result<Checked, Finding>> {
    let mut text = ArrayVec::<u8, 1024>::new();
    text.try_extend_from_slice(table).ok()?;
    text.try_extend_from_slice(lines).ok()?;
    Some(check(text.as_slice(), from, count))
}

/// The answer to a certificate for one coin with these class lines, whose return is 0.
fn verdict(
    table: &[u8],
    classes: &[u8],
    from: u32,
    count: u32,
) -> Option<Result<Checked, Finding>> {
    let mut lines = ArrayVec::<u8, 256>::new();
    lines.try_extend_from_slice(b"cert 1\n").ok()?;
    lines.try_extend_from_slice(classes).ok()?;
    lines.try_extend_from_slice(b"return 0 / 0\nend\n").ok()?;
    answer(table, lines.as_slice(), from, count)
}

#[test]
fn refused_texts(rt: HostRuntime) {
    let cases: [(&[u8], u32); 6] = [
        (b"", 7),
        (b"cert 2\n", 7),
        (
            b"cert 1\nclass 2c 2d 2h 2s 3c 4 0 18446744073709551616\n",
            8,
        ),
        (b"cert 1\nclass 2c 2d 2h 3c 2s 4 0 1\n", 8),
        (b"cert 1\nreturn 0 / 0\n", 9),
        (b"cert 1\nreturn 0 / 0\nend\n\nend\n", 11),
    ];
    for (lines, line) in cases {
        assert_eq!(rt;
            answer(ONE_JOKER, lines, 1, 1),
            Some(Err(Finding::Refused { line }))
        );
    }
}

fn bad(line: u32, rule: CertRule, said: u128, due: u128) -> Finding {
    Finding::Bad {
        line,
        rule,
        said,
        due,
    }
}

// Class lines for one coin, of which some from a place on are walked: the place, their number, and what breaks a rule first.
#[test]
fn first_broken_rules(rt: HostRuntime) {
    let no_image = b"class 2c 2d 2h 2s 3d 4 0 891825\n".as_slice();
    let twice = b"class 2c 2d 2h 3c 3d 12 0 0\nclass 2c 2d 2h 3c 3d 12 0 0\n".as_slice();
    let falling = b"class 2c 2d 2h 3c 3d 12 0 0\nclass 2c 2d 2h 2s 3c 5 0 0\n".as_slice();
    let most = b"class 2c 2d 2h 2s 3c 4 1 18446744073709551615\n".as_slice();
    let worse = b"class 2c 2d 2h 2s 3c 4 1 891825\n".as_slice();
    // The second line has a wrong value and the third a wrong weight.
    let two_wrong =
        b"class 2c 2d 2h 2s 3c 4 0 891825\nclass 2c 2d 2h 3c 3d 12 0 9\nclass 2c 2d 2h 3c 4c 23 0 0\n".as_slice();
    let cases: [(&[u8], &[u8], u32, u32, Finding); 10] = [
        (ZERO, b"", 1, 9, bad(8, Cover, 0, 2598960)),
        (ONE_JOKER, b"", 1, 9, bad(8, Cover, 0, 2869685)),
        (TWO_JOKERS, b"", 1, 9, bad(9, Cover, 0, 3162510)),
        (ONE_JOKER, no_image, 0, 0, bad(8, Order, 1, 0)),
        (ONE_JOKER, twice, 0, 0, bad(9, Order, 2, 2)),
        (ONE_JOKER, falling, 0, 0, bad(9, Order, 0, 2)),
        (
            ONE_JOKER,
            most,
            0,
            2,
            bad(8, Value, 18446744073709551615, 891825),
        ),
        (ONE_JOKER, worse, 1, 1, bad(8, Mask, 713460, 891825)),
        (ONE_JOKER, two_wrong, 2, 1, bad(9, Value, 9, 891825)),
        (ONE_JOKER, two_wrong, 3, 9, bad(10, Weight, 23, 12)),
    ];
    for (table, classes, from, count, due) in cases {
        assert_eq!(rt; verdict(table, classes, from, count), Some(Err(due)));
    }
}

// With both jokers of the deck the draws are those from 49 cards. Five cards drawn without a joker dealt have 10 / 49 jokers in the
// mean, each of which pays 1; both held jokers pay 2.
#[test]
fn first_broken_rules_with_two_jokers(rt: HostRuntime) {
    let first = b"class 2c 2d 2h 2s 3c 4 0 778320\n".as_slice();
    let last = b"class Ac Ad Ah Jo Jk 4 24 7627536\n".as_slice();
    let both = b"class 2c 2d 2h 2s 3c 4 0 778320\nclass Ac Ad Ah Jo Jk 4 31 7627536\n".as_slice();
    let thrown = b"class Ac Ad Ah Jo Jk 4 7 7627536\n".as_slice();
    let cases: [(&[u8], u32, u32, Finding); 4] = [
        (first, 1, 1, bad(10, Cover, 4, 3162510)),
        (last, 1, 1, bad(10, Cover, 4, 3162510)),
        (both, 1, 2, bad(11, Cover, 8, 3162510)),
        (thrown, 1, 1, bad(9, Mask, 0, 7627536)),
    ];
    for (classes, from, count, due) in cases {
        assert_eq!(rt; verdict(TWO_JOKERS, classes, from, count), Some(Err(due)));
    }
}

// The same behind the built-in table of 9/6 Jacks or Better.
#[test]
fn first_broken_rules_of_jacks_or_better(rt: HostRuntime) -> Result<(), Fail> {
    let mut room = [0; 1024];
    let mut sink = MemSink::new(&mut room, 1024, &[]);
    let table = PayTable::built_in(0).ok_or("no table")?;
    assert!(rt; table.write(&mut sink).is_ok());
    let heavy = b"class 2c 2d 2h 2s 3c 5 15 191742376\n".as_slice();
    let one_more = b"class 2c 2d 2h 2s 3c 4 15 191742376\n".as_slice();
    // All five cards are worth as much as the four of a kind alone.
    let all_five = b"class 2c 2d 2h 2s 3c 4 31 191742375\n".as_slice();
    let cases: [(&[u8], u32, u32, Finding); 4] = [
        (heavy, 1, 1, bad(16, Weight, 5, 4)),
        (one_more, 1, 1, bad(16, Value, 191742376, 191742375)),
        // A line that isn't walked may say any value.
        (one_more, 2, 4294967295, bad(17, Cover, 4, 2598960)),
        (all_five, 1, 1, bad(17, Cover, 4, 2598960)),
    ];
    for (classes, from, count, due) in cases {
        assert_eq!(rt; verdict(sink.taken(), classes, from, count), Some(Err(due)));
    }
    Ok(())
}
