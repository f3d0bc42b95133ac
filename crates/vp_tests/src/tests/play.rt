//! `play`: logs that are made from a number, read and priced.

use crate::tests::tables::{answered, joined};
use std::test::*;
use vp_pay::samples::{ONE_JOKER, ZERO};
use vp_run::{Status, region_words};

/// The words of two tables of sums for a deck of 52 cards.
const TWO_TABLES: usize = 2 * 2_893_164;

/// The same for 53 cards.
const TWO_LARGER_TABLES: usize = 2 * 3_187_368;

// Reckoned by a program of its own. Of nine games two throw the joker's chance away: they hold cards by any mask.
#[test]
fn logs_of_a_number(rt: HostRuntime) -> Result<(), Fail> {
    let cases: [(&[u8], &[&str], usize, &[u8]); 3] = [
        (
            ZERO,
            &["play", "1", "0", "1"],
            TWO_TABLES,
            b"play 0 1\ngames 1\nbet 1\npaid 0\ncredits 0\nslips 0\nloss 0 / 7669695\n",
        ),
        (
            ONE_JOKER,
            &["play", "1", "18446744073709551615", "1"],
            TWO_LARGER_TABLES,
            b"play 18446744073709551615 1\ngames 1\nbet 1\npaid 0\ncredits 0\nslips 0\nloss 0 / 8561520\n",
        ),
        (
            ONE_JOKER,
            &["play", "1", "18446744073709551615", "9"],
            TWO_LARGER_TABLES,
            b"play 18446744073709551615 9\ngames 9\nbet 9\npaid 0\ncredits 0\nslips 2\nloss 891825 / 8561520\n",
        ),
    ];
    for (table, words, room, due) in cases {
        assert!(rt; table.len() < 2000);
        assert_eq!(rt; region_words(words, table), room);
        let (status, text) = answered(rt.alloc(), words, table, 400)?;
        assert_eq!(rt; status, Status::Done);
        assert_eq!(rt; text.as_slice(), due);
    }
    Ok(())
}

#[test]
fn what_play_does_not_take(rt: HostRuntime) -> Result<(), Fail> {
    let cases: [(&[&str], Status, &[u8]); 9] = [
        (&["play", "1", "0"], Status::Usage, b"usage\n"),
        (&["play", "1", "0", "0"], Status::Usage, b"usage\n"),
        (&["play", "1", "0", "100001"], Status::Usage, b"usage\n"),
        (&["play", "6", "0", "1"], Status::Usage, b"usage\n"),
        (
            &["play", "1", "18446744073709551616", "1"],
            Status::Usage,
            b"usage\n",
        ),
        (&["play", "1", "00", "1"], Status::Usage, b"usage\n"),
        (&["play", "1", "0", "1", "1"], Status::Usage, b"usage\n"),
        (&["play", "2", "0", "1"], Status::Refused, b"refused 6\n"),
        (&["play", "1", "0", "1"], Status::Refused, b"refused 7\n"),
    ];
    let input = joined(rt.alloc(), ZERO, b"end\n")?;
    for (words, due, said) in cases {
        let (status, text) = answered(rt.alloc(), words, &input, 100)?;
        assert_eq!(rt; status, due);
        assert_eq!(rt; text.as_slice(), said);
    }
    Ok(())
}
