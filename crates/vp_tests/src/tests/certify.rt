//! `certify` over sources and sinks in memory.

use crate::tests::tables::{ROOM, answered, built_in_deal, joined};
use std::test::*;
use vp_pay::samples::{
    BONUS, DEUCES, JACKS, KINGS, LONG, ONE_JOKER, OPERATORS_JACKS, TWO_JOKERS, ZERO,
};
use vp_run::Status;

fn line_feeds(text: &[u8]) -> usize {
    text.iter().filter(|byte| **byte == b'\n').count()
}

// Behind the pay table a line for the bet, one for each class, the return and the end.
#[test]
fn certificates_for_one_coin(rt: HostRuntime) -> Result<(), Fail> {
    let cases: [(&[u8], usize, &[u8], &[u8]); 7] = [
        (
            TWO_JOKERS,
            169081,
            b"cert 1\nclass 2c 2d 2h 2s 3c 4 0 778320\n",
            b"class Ac Ad Ah Jo Jk 4 24 7627536\nreturn 4424924322000 / 12061079437680\nend\n",
        ),
        (
            JACKS,
            134462,
            b"cert 1\nclass 2c 2d 2h 2s 3c 4 15 191742375\nclass 2c 2d 2h 3c 3d 12 31 69027255\n",
            b"class Kc Ac Ad Ah As 4 30 191742375\nreturn 19842315923796 / 19933230517200\nend\n",
        ),
        (
            BONUS,
            134462,
            b"cert 1\nclass 2c 2d 2h 2s 3c 4 15 306787800\n",
            b"return 19766982030036 / 19933230517200\nend\n",
        ),
        (
            DEUCES,
            134462,
            b"cert 1\nclass 2c 2d 2h 2s 3c 4 15 1533939000\n",
            b"return 20085114000432 / 19933230517200\nend\n",
        ),
        (
            KINGS,
            150894,
            b"cert 1\nclass 2c 2d 2h 2s 3c 4 15 203336100\n",
            b"return 24727653272220 / 24568865521200\nend\n",
        ),
        (
            ONE_JOKER,
            150894,
            b"cert 1\nclass 2c 2d 2h 2s 3c 4 0 891825\n",
            b"class Ac Ad Ah As Jo 1 16 8561520\nreturn 4635635004000 / 24568865521200\nend\n",
        ),
        (
            ZERO,
            134462,
            b"cert 1\nclass 2c 2d 2h 2s 3c 4 0 0\n",
            b"return 0 / 19933230517200\nend\n",
        ),
    ];
    for (table, lines, first, last) in cases {
        let front = joined(rt.alloc(), table, first)?;
        let (status, text) = answered(rt.alloc(), &["certify", "1"], table, ROOM)?;
        assert_eq!(rt; status, Status::Done);
        assert!(rt; text.starts_with(&front));
        assert!(rt; text.ends_with(last));
        assert_eq!(rt; line_feeds(&text), line_feeds(table).saturating_add(lines));
    }
    Ok(())
}

// The returns are 99.5439 %, 99.1660 %, 100.7620 % and 100.6463 %.
#[test]
fn certificates_for_five_coins(rt: HostRuntime) -> Result<(), Fail> {
    let cases: [(u8, &[u8], &[u8]); 4] = [
        (
            0,
            b"cert 5\nclass 2c 2d 2h 2s 3c 4 15 958711875\n",
            b"return 99211579618980 / 99666152586000\nend\n",
        ),
        (
            1,
            b"cert 5\nclass 2c 2d 2h 2s 3c 4 15 1533939000\n",
            b"return 98834910150180 / 99666152586000\nend\n",
        ),
        (
            2,
            b"cert 5\nclass 2c 2d 2h 2s 3c 4 15 7669695000\n",
            b"return 100425570002160 / 99666152586000\nend\n",
        ),
        (
            3,
            b"cert 5\nclass 2c 2d 2h 2s 3c 4 15 1016680500\n",
            b"return 123638266361100 / 122844327606000\nend\n",
        ),
    ];
    for (table, first, last) in cases {
        let input = built_in_deal(rt.alloc(), table, b"")?;
        let front = joined(rt.alloc(), &input, first)?;
        let (status, text) = answered(rt.alloc(), &["certify", "5"], &input, ROOM)?;
        assert_eq!(rt; status, Status::Done);
        assert!(rt; text.starts_with(&front));
        assert!(rt; text.ends_with(last));
    }
    Ok(())
}

// Comments, tabs and carriage returns are no part of what is certified.
#[test]
fn a_table_as_an_operator_writes_it(rt: HostRuntime) -> Result<(), Fail> {
    let spelled = built_in_deal(rt.alloc(), 0, b"")?;
    let (status, text) = answered(rt.alloc(), &["certify", "5"], OPERATORS_JACKS, ROOM)?;
    let (_, due) = answered(rt.alloc(), &["certify", "5"], &spelled, ROOM)?;
    assert_eq!(rt; status, Status::Done);
    assert_eq!(rt; text, due);
    assert_eq!(rt; line_feeds(&text), 134476);
    Ok(())
}

#[test]
fn tables_that_are_not_certified(rt: HostRuntime) -> Result<(), Fail> {
    let cases: [(&str, &[u8], &[u8], &[u8]); 6] = [
        ("1", b"", b"", b"refused 1\n"),
        ("1", LONG, b"", b"refused 37\n"),
        ("5", JACKS, b"", b"refused 14\n"),
        ("1", JACKS, b"deal As Ks Qs Js 4s\n", b"refused 15\n"),
        ("1", JACKS, b"\n# more\nend\n", b"refused 17\n"),
        (
            "1",
            b"table a\ndeck 52\nwild none\ncoins 1\nline royal royal either 1\n",
            b"# the end is missing\n",
            b"refused 7\n",
        ),
    ];
    for (coin, table, more, due) in cases {
        let input = joined(rt.alloc(), table, more)?;
        let (status, text) = answered(rt.alloc(), &["certify", coin], &input, 100)?;
        assert_eq!(rt; status, Status::Refused);
        assert_eq!(rt; text.as_slice(), due);
    }
    Ok(())
}
