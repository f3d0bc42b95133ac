//! `multi` over sources and sinks in memory.

use crate::tests::tables::{answered, joined};
use std::test::*;
use vp_pay::samples::{JACKS, ONE_JOKER};
use vp_run::Status;

// A joker pays 1: dealt, it is held, and else comes in 5 of 48 draws of five cards.
#[test]
fn moments_of_two_tables(rt: HostRuntime) -> Result<(), Fail> {
    let cases: [(&[u8], &str, &[u8]); 2] = [
        (
            ONE_JOKER,
            "2",
            b"mean 9271270008000 / 24568865521200
second 123198420585780540000 / 210346833537064224000
within 17776953306001890000 / 210346833537064224000
between 41388924880399310364150000 / 603629152998810147649440000
",
        ),
        (
            JACKS,
            "100",
            b"mean 1984231592379600 / 19933230517200\nsecond ",
        ),
    ];
    for (table, hands, due) in cases {
        let (status, text) = answered(rt.alloc(), &["multi", "1", hands], table, 400)?;
        assert_eq!(rt; status, Status::Done);
        assert!(rt; text.starts_with(due));
    }
    Ok(())
}

#[test]
fn what_multi_does_not_take(rt: HostRuntime) -> Result<(), Fail> {
    let cases: [(&[&str], Status, &[u8]); 8] = [
        (&["multi", "1"], Status::Usage, b"usage\n"),
        (&["multi", "1", "0"], Status::Usage, b"usage\n"),
        (&["multi", "1", "101"], Status::Usage, b"usage\n"),
        (&["multi", "1", "01"], Status::Usage, b"usage\n"),
        (&["multi", "0", "1"], Status::Usage, b"usage\n"),
        (&["multi", "1", "1", "1"], Status::Usage, b"usage\n"),
        (&["multi", "5", "100"], Status::Refused, b"refused 14\n"),
        (&["multi", "1", "1"], Status::Refused, b"refused 15\n"),
    ];
    let input = joined(rt.alloc(), JACKS, b"end\n")?;
    for (words, due, said) in cases {
        let (status, text) = answered(rt.alloc(), words, &input, 100)?;
        assert_eq!(rt; status, due);
        assert_eq!(rt; text.as_slice(), said);
    }
    Ok(())
}
