//! `check` of certificates that `certify` wrote, as they are and with one thing changed.

use crate::tests::tables::{ROOM, answered, joined};
use std::test::*;
use vp_io::{MemSink, PureSource};
use vp_pay::samples::{JACKS, ONE_JOKER, TWO_JOKERS};
use vp_run::{Status, vpoker};

const JACKS_RETURN: &[u8] = b"return 19842315923796 / 19933230517200\nend\n";

// The lines from `cert` on, up to the first class line, are changed.
#[test]
fn first_lines_of_a_certificate(rt: HostRuntime) -> Result<(), Fail> {
    let cases: [(&[u8], &str, Status, &[u8]); 13] = [
        (
            b"cert 1\nclass 2c 2d 2h 2s 3c 4 15 191742375\n",
            "3",
            Status::Done,
            b"checked 134459 3\nreturn 19842315923796 / 19933230517200\n",
        ),
        (
            b"cert 1\nclass 2c 2d 2h 2s 3c 4 31 191742375\n",
            "1",
            Status::Done,
            b"checked 134459 1\nreturn 19842315923796 / 19933230517200\n",
        ),
        (
            b"cert 1\n",
            "0",
            Status::Finding,
            b"finding 134474 cover 2598956 2598960\n",
        ),
        (
            b"cert 1\nclass 2c 2d 2h 2s 3c 4 15 191742376\n",
            "1",
            Status::Finding,
            b"finding 16 value 191742376 191742375\n",
        ),
        (
            b"cert 1\nclass 2c 2d 2h 2s 3c 4 15 191742376\n",
            "0",
            Status::Finding,
            b"finding 134475 sum 19842315923796 19842315923800\n",
        ),
        (
            b"cert 1\nclass 2c 2d 2h 2s 3c 5 15 191742375\n",
            "1",
            Status::Finding,
            b"finding 16 weight 5 4\n",
        ),
        (
            b"cert 1\nclass 2c 2d 2h 2s 3d 4 15 191742375\n",
            "1",
            Status::Finding,
            b"finding 16 order 1 0\n",
        ),
        (
            b"cert 1\nclass 2c 2d 2h 3c 3d 12 31 69027255\n",
            "1",
            Status::Finding,
            b"finding 17 order 2 2\n",
        ),
        (
            b"cert 1\nclass 2c 2d 2h 2s 3c 4 15 191742375\nclass 2c 2d 2h 2s 3d 4 15 1\n",
            "1",
            Status::Refused,
            b"refused 134475\n",
        ),
        (
            b"cert 1\nclass 2d 2c 2h 2s 3c 4 15 191742375\n",
            "1",
            Status::Refused,
            b"refused 16\n",
        ),
        (
            b"cert 1\nclass 2c 2d 2h 2s 3c 25 15 191742375\n",
            "1",
            Status::Refused,
            b"refused 16\n",
        ),
        (
            b"cert 1\nclass 2c 2d 2h 2s Jo 4 32 191742375\n",
            "1",
            Status::Refused,
            b"refused 16\n",
        ),
        (b"cert 2\n", "1", Status::Refused, b"refused 15\n"),
    ];
    let (_, text) = answered(rt.alloc(), &["certify", "1"], JACKS, ROOM)?;
    let (first, _, _, _) = cases[0];
    let front = joined(rt.alloc(), JACKS, first)?;
    let rest = text.strip_prefix(front.as_slice()).ok_or("another front")?;
    for (lines, count, due, answer) in cases {
        let changed = joined(rt.alloc(), JACKS, lines)?;
        let input = joined(rt.alloc(), &changed, rest)?;
        let (status, text) = answered(rt.alloc(), &["check", "1", count], &input, 100)?;
        assert_eq!(rt; status, due);
        assert_eq!(rt; text.as_slice(), answer);
    }
    Ok(())
}

// What stands behind the class lines is changed.
#[test]
fn last_lines_of_a_certificate(rt: HostRuntime) -> Result<(), Fail> {
    let cases: [(&[u8], &str, Status, &[u8]); 10] = [
        (
            JACKS_RETURN,
            "134459",
            Status::Done,
            b"checked 134459 1\nreturn 19842315923796 / 19933230517200\n",
        ),
        (
            JACKS_RETURN,
            "134460",
            Status::Done,
            b"checked 134459 0\nreturn 19842315923796 / 19933230517200\n",
        ),
        (
            b"return 19842315923797 / 19933230517200\nend\n",
            "200000",
            Status::Finding,
            b"finding 134475 sum 19842315923797 19842315923796\n",
        ),
        (
            b"return 19842315923796 / 19933230517201\nend\n",
            "200000",
            Status::Finding,
            b"finding 134475 denominator 19933230517201 19933230517200\n",
        ),
        (b"", "200000", Status::Refused, b"refused 134475\n"),
        (b"end\n", "200000", Status::Refused, b"refused 134475\n"),
        (
            b"return 19842315923796/19933230517200\nend\n",
            "200000",
            Status::Refused,
            b"refused 134475\n",
        ),
        (
            b"return 19842315923796 / 19933230517200\n",
            "200000",
            Status::Refused,
            b"refused 134476\n",
        ),
        (
            b"return 19842315923796 / 19933230517200\nend\nend\n",
            "200000",
            Status::Refused,
            b"refused 134477\n",
        ),
        (
            b"# a comment and blanks change nothing\n return\t19842315923796 / 19933230517200 \r\nend",
            "200000",
            Status::Done,
            b"checked 134459 0\nreturn 19842315923796 / 19933230517200\n",
        ),
    ];
    let (_, text) = answered(rt.alloc(), &["certify", "1"], JACKS, ROOM)?;
    let rest = text.strip_suffix(JACKS_RETURN).ok_or("another return")?;
    for (lines, from, due, answer) in cases {
        let input = joined(rt.alloc(), rest, lines)?;
        let (status, text) = answered(rt.alloc(), &["check", from, "200000"], &input, 100)?;
        assert_eq!(rt; status, due);
        assert_eq!(rt; text.as_slice(), answer);
    }
    Ok(())
}

// Up to 128 class lines are walked at once. A wrong value stands in the last class line, which is the last of 128 or the one behind
// them, or is not asked.
#[test]
fn walks_over_more_lines_than_one_pass_takes(rt: HostRuntime) -> Result<(), Fail> {
    let right = b"class Kc Ac Ad Ah As 4 30 191742375\n".as_slice();
    let wrong = b"class Kc Ac Ad Ah As 4 30 191742376\n".as_slice();
    let sum = b"finding 134475 sum 19842315923796 19842315923800\n".as_slice();
    let value = b"finding 134474 value 191742376 191742375\n".as_slice();
    let cases: [(&[u8], &str, &str, Status, &[u8]); 7] = [
        (
            right,
            "134332",
            "127",
            Status::Done,
            b"checked 134459 127\nreturn 19842315923796 / 19933230517200\n",
        ),
        (
            right,
            "134332",
            "129",
            Status::Done,
            b"checked 134459 128\nreturn 19842315923796 / 19933230517200\n",
        ),
        (
            right,
            "134331",
            "129",
            Status::Done,
            b"checked 134459 129\nreturn 19842315923796 / 19933230517200\n",
        ),
        (wrong, "134332", "127", Status::Finding, sum),
        (wrong, "134332", "128", Status::Finding, value),
        (wrong, "134331", "128", Status::Finding, sum),
        (wrong, "134331", "129", Status::Finding, value),
    ];
    let (_, text) = answered(rt.alloc(), &["certify", "1"], JACKS, ROOM)?;
    let front = text
        .strip_suffix(JACKS_RETURN)
        .and_then(|lines| lines.strip_suffix(right))
        .ok_or("another back")?;
    for (last, from, count, due, answer) in cases {
        let changed = joined(rt.alloc(), front, last)?;
        let input = joined(rt.alloc(), &changed, JACKS_RETURN)?;
        let (status, text) = answered(rt.alloc(), &["check", from, count], &input, 100)?;
        assert_eq!(rt; status, due);
        assert_eq!(rt; text.as_slice(), answer);
    }
    Ok(())
}

// Holding a deuce is worth four fifths of holding nothing, where only the joker pays.
#[test]
fn a_certificate_with_a_joker(rt: HostRuntime) -> Result<(), Fail> {
    let (_, text) = answered(rt.alloc(), &["certify", "1"], ONE_JOKER, ROOM)?;
    let front = joined(
        rt.alloc(),
        ONE_JOKER,
        b"cert 1\nclass 2c 2d 2h 2s 3c 4 0 891825\n",
    )?;
    let other = joined(
        rt.alloc(),
        ONE_JOKER,
        b"cert 1\nclass 2c 2d 2h 2s 3c 4 1 891825\n",
    )?;
    let rest = text.strip_prefix(front.as_slice()).ok_or("another front")?;
    let held = joined(rt.alloc(), &other, rest)?;
    let cases: [(&str, Status, &[u8]); 2] = [
        ("1", Status::Finding, b"finding 8 mask 713460 891825\n"),
        (
            "2",
            Status::Done,
            b"checked 150891 1\nreturn 4635635004000 / 24568865521200\n",
        ),
    ];
    for (from, due, answer) in cases {
        let (status, text) = answered(rt.alloc(), &["check", from, "1"], &held, 100)?;
        assert_eq!(rt; status, due);
        assert_eq!(rt; text.as_slice(), answer);
    }
    let back = b"return 4635635004000 / 24568865521200\nend\n".as_slice();
    let rest = text
        .strip_suffix(back)
        .and_then(|lines| lines.strip_suffix(b"class Ac Ad Ah As Jo 1 16 8561520\n".as_slice()))
        .ok_or("another back")?;
    let short = joined(rt.alloc(), rest, back)?;
    let (status, text) = answered(rt.alloc(), &["check", "1", "0"], &short, 100)?;
    assert_eq!(rt; status, Status::Finding);
    assert_eq!(rt;
        text.as_slice(),
        b"finding 150898 cover 2869684 2869685\n".as_slice()
    );
    Ok(())
}

// Class lines of a deck with two jokers, of which the last two are walked.
#[test]
fn a_certificate_with_two_jokers(rt: HostRuntime) -> Result<(), Fail> {
    let (_, text) = answered(rt.alloc(), &["certify", "1"], TWO_JOKERS, ROOM)?;
    let (status, answer) = answered(rt.alloc(), &["check", "169077", "9"], &text, 100)?;
    assert_eq!(rt; status, Status::Done);
    assert_eq!(rt;
        answer.as_slice(),
        b"checked 169078 2\nreturn 4424924322000 / 12061079437680\n".as_slice()
    );
    Ok(())
}

#[test]
fn the_line_of_a_check_is_not_taken(rt: HostRuntime) {
    let mut none = [];
    let mut source = PureSource::new(b"table a\ndeck 55\n");
    let mut sink = MemSink::new(&mut none, 100, &[]);
    let status = vpoker(rt.alloc(), &["check", "1", "1"], &mut source, &mut sink);
    assert_eq!(rt; status, Status::WriteFault);
}
