//! `sessions` of CSV texts on 9/6 Jacks or Better for five bets.

use crate::tests::tables::{answered, built_in_deal, joined};
use std::test::*;
use vp_pay::samples::TWO_JOKERS;
use vp_run::{Status, in_region, region_words};

const HEAD: &[u8] = b"session,bet,deal,hold,draw,pay,credits\n";

const A_LINES: &[u8] =
    b"session a\ngames 1\nbet 5\npaid 4000\ncredits 4095\nslips 0\nloss 0 / 7669695\nsession b\nfinding 1 funds 5 4\nsessions 2 1\n";

const B_LINES: &[u8] =
    b"session b\nfinding 1 funds 5 4\nsession a\ngames 1\nbet 5\npaid 4000\ncredits 4095\nslips 0\nloss 0 / 7669695\nsessions 2 1\n";

const C_LINES: &[u8] =
    b"session c\ngames 0\nbet 0\npaid 0\ncredits 7\nslips 0\nloss 0 / 7669695\nsessions 1 0\n";

/// The words of a table of sums for a deck of 52 cards.
const ONE_TABLE: usize = 2_893_164;

// What a sheet writes: lines that end in a carriage return and a line feed, and fields in quotes; a byte order mark; lines
// without a byte, which are no records; a game whose credits start from those of its own session.
#[test]
fn sessions_of_a_text(rt: HostRuntime) -> Result<(), Fail> {
    let cases: [(&[u8], Status, &[u8]); 6] = [
        (
            b"session,bet,deal,hold,draw,pay,credits
a,,,,,,100
b,,,,,,4
a,5,As Ks Qs Js 4s,Js Qs Ks As,Ts,4000,4095
b,5,As Ks Qs Js 4s,Js Qs Ks As,Ts,4000,3999
",
            Status::Finding,
            A_LINES,
        ),
        (
            b"session,bet,deal,hold,draw,pay,credits
b,,,,,,4
a,,,,,,100
a,5,As Ks Qs Js 4s,Js Qs Ks As,Ts,4000,4095
b,5,As Ks Qs Js 4s,Js Qs Ks As,Ts,4000,3999
",
            Status::Finding,
            B_LINES,
        ),
        (
            b"\xef\xbb\xbf\"session\",\"bet\",\"deal\",\"hold\",\"draw\",\"pay\",\"credits\"\r\n\r\n\"a\",,,,,,\"100\"\r\na,5,\"As Ks Qs Js 4s\",\"Js Qs Ks As\",\"Ts\",4000,4095\r\n\"b\",\"\",,,,,4\r\nb,5,As Ks Qs Js 4s,Js Qs Ks As,Ts,4000,3999",
            Status::Finding,
            A_LINES,
        ),
        (
            b"session,bet,deal,hold,draw,pay,credits\nc,,,,,,7\n",
            Status::Done,
            C_LINES,
        ),
        (HEAD, Status::Done, b"sessions 0 0\n"),
        (b"", Status::Refused, b"refused record 1\n"),
    ];
    for (csv, due, text) in cases {
        let input = built_in_deal(rt.alloc(), 0, csv)?;
        assert!(rt; input.len() < 2000);
        assert_eq!(rt; region_words(&["sessions"], &input), 5 * ONE_TABLE);
        assert!(rt; !in_region(&["sessions"], &input));
        let (status, taken) = answered(rt.alloc(), &["sessions"], &input, 512)?;
        assert_eq!(rt; status, due);
        assert_eq!(rt; taken.as_slice(), text);
    }
    Ok(())
}

// The record behind the header and an opening breaks its rule: it is the third.
#[test]
fn records_that_are_refused(rt: HostRuntime) -> Result<(), Fail> {
    let cases: [&[u8]; 18] = [
        b"a,5,As Ks Qs Js 4s,Js Qs Ks As,Ts,4000",
        b"a,5,As Ks Qs Js 4s,Js Qs Ks As,Ts,4000,4095,",
        b"a,5,As  Ks Qs Js 4s,Js Qs Ks As,Ts,4000,4095",
        b"a,5,As Ks Qs Js 4s ,Js Qs Ks As,Ts,4000,4095",
        b"a,05,As Ks Qs Js 4s,Js Qs Ks As,Ts,4000,4095",
        b"a,,As Ks Qs Js 4s,Js Qs Ks As,Ts,4000,4095",
        b"a, 5,As Ks Qs Js 4s,Js Qs Ks As,Ts,4000,4095",
        b"a,5,As Ks Qs Js Jo,Js Qs Ks As,Ts,4000,4095",
        b"a,5,As Ks Qs Js,Js Qs Ks As,Ts,4000,4095",
        b"a,5,As Ks Qs Js 4s 3s,Js Qs Ks As,Ts,4000,4095",
        b"a,5,As Ks Qs Js 4s,Js Qs Ks As,\"Ts,\",4000,4095",
        b"a,5,As Ks Qs Js 4s,Js Qs Ks As,Ts,4000,4095 \"\"",
        b"a,5,As Ks Qs Js 4s,Js Qs Ks As,Ts,18446744073709551616,4095",
        // An opening twice, games before an opening, names that are none.
        b"a,,,,,,100",
        b"b,5,As Ks Qs Js 4s,Js Qs Ks As,Ts,4000,4095",
        b"B,,,,,,100",
        b"b,,,,,,1000000000001",
        b"\"b,,,,,,100",
    ];
    for record in cases {
        let opened = joined(
            rt.alloc(),
            b"session,bet,deal,hold,draw,pay,credits\na,,,,,,100\n",
            record,
        )?;
        let input = built_in_deal(rt.alloc(), 0, &opened)?;
        assert!(rt; input.len() < 2000);
        let (status, taken) = answered(rt.alloc(), &["sessions"], &input, 512)?;
        assert_eq!(rt; status, Status::Refused);
        assert_eq!(rt; taken.as_slice(), b"refused record 3\n".as_slice());
    }
    Ok(())
}

// A header with other names; a game whose opening was left out. A table that is refused comes before its records.
#[test]
fn texts_that_are_refused(rt: HostRuntime) -> Result<(), Fail> {
    let cases: [(&[u8], &[u8]); 3] = [
        (
            b"session,bet,deal,hold,draw,pay,Credits\n",
            b"refused record 1\n",
        ),
        (b"session,bet,deal,hold,draw,pay\n", b"refused record 1\n"),
        (
            b"session,bet,deal,hold,draw,pay,credits
a,,,,,,100
a,5,As Ks Qs Js 4s,Js Qs Ks As,Ts,4000,4095
b,5,As Ks Qs Js 4s,Js Qs Ks As,Ts,4000,3999
",
            b"refused record 4\n",
        ),
    ];
    for (csv, text) in cases {
        let input = built_in_deal(rt.alloc(), 0, csv)?;
        let (status, taken) = answered(rt.alloc(), &["sessions"], &input, 512)?;
        assert_eq!(rt; status, Status::Refused);
        assert_eq!(rt; taken.as_slice(), text);
    }
    let input = joined(rt.alloc(), TWO_JOKERS, HEAD)?;
    let (status, taken) = answered(rt.alloc(), &["sessions"], &input, 512)?;
    assert_eq!(rt; status, Status::Done);
    assert_eq!(rt; taken.as_slice(), b"sessions 0 0\n".as_slice());
    let (status, taken) = answered(rt.alloc(), &["sessions"], HEAD, 512)?;
    assert_eq!(rt; status, Status::Refused);
    assert_eq!(rt; taken.as_slice(), b"refused 1\n".as_slice());
    let (status, taken) = answered(rt.alloc(), &["sessions", "1"], HEAD, 512)?;
    assert_eq!(rt; status, Status::Usage);
    assert_eq!(rt; taken.as_slice(), b"usage\n".as_slice());
    Ok(())
}
