//! Certificates that are read and refused, and one of as many class lines as there are classes.

ghost use Rattle.std.specs.Prelude.{◌≤◌, length};

use std::alloc::{AllocError, Global};
use std::test::*;
use vp_check::{CertRule, Finding, check};

const TABLE: &[u8] = b"table t\ndeck 52\nwild none\ncoins 2\nline royal royal either 1 2\nend\n";

const JOKERS: &[u8] = b"table t\ndeck 54\nwild none\ncoins 2\nline both wilds 2 either 1 2\nend\n";

const CLASS: &[u8] = b"class 2c 3c 4c 5c 7c 24 31 18446744073709551615\n";

const TWO: &[u8] =
    b"# all\ncert 2\nclass 2c 3c 4c 5c 7c 4 31 7\n\nclass 2c 2d 2h 2s As 1 0 9\nreturn 5 / 6\nend\n";

fn joined(alloc: Global, front: &[u8], back: &[u8]) -> Result<Vec<u8>, AllocError> {
    let mut text = Vec::new(alloc);
    text.extend_from_slice(front)?;
    text.extend_from_slice(back)?;
    Ok(text)
}

// The deuces of all suits in front of an ace of spades are no least image: the index of 2c 2d 2h 2s Ac is lower. Comments and
// empty lines count.
#[test]
fn lines_have_their_numbers(rt: HostRuntime) -> Result<(), Fail> {
    let text = joined(rt.alloc(), TABLE, TWO)?;
    assert!(rt; text.len() < 1000);
    assert_eq!(rt;
        check(&text, 0, 0),
        Err(Finding::Bad {
            line: 11,
            rule: CertRule::Order,
            said: 2_349_060,
            due: 1_712_304,
        })
    );
    Ok(())
}

/// The line at which a text is refused, and 0 where it is a certificate.
fn refused_line(text: &[u8]) -> u32
    requires { length text.now ≤ 67108864 }
{
    match check(text, 0, 0) {
        Err(Finding::Refused { line }) => line,
        _ => 0,
    }
}

/// The same for the text behind a table.
fn refused_behind(alloc: Global, front: &[u8], back: &[u8]) -> Result<u32, AllocError> {
    let text = joined(alloc, front, back)?;
    if text.len() > 1_000_000 {
        return Ok(0);
    }
    Ok(refused_line(&text))
}

#[test]
fn lines_out_of_form_are_refused(rt: HostRuntime) -> Result<(), Fail> {
    let end = b"return 0 / 1\nend\n".as_slice();
    // What stands behind the bet in front of the return, for each deck, and the refused line.
    let rows: [(&[u8], &[u8], u32); 9] = [
        (TABLE, b"", 0),
        (TABLE, b"class 2c 3c 4c 5c 7c 4 31 7\n", 0),
        (TABLE, b"class 2c 3c 4c 7c 5c 4 31 7\n", 8),
        (TABLE, b"class 2c 3c 4c 5c Jo 4 31 7\n", 8),
        (TABLE, b"class 2c 3c 4c 5c 7c 25 31 7\n", 8),
        (TABLE, b"class 2c 3c 4c 5c 7c 4 32 7\n", 8),
        (TABLE, b"class 2c 3c 4c 5c 7c 4 31 07\n", 8),
        (JOKERS, b"class 2c 3c 4c Jo Jk 4 31 7\n", 0),
        (JOKERS, b"class 2c 3c 4c Jk Jo 4 31 7\n", 8),
    ];
    for (table, row, line) in rows {
        let front = joined(rt.alloc(), table, b"cert 1\n")?;
        let back = joined(rt.alloc(), row, end)?;
        assert_eq!(rt; refused_behind(rt.alloc(), &front, &back)?, line);
    }
    let texts: [(&[u8], u32); 8] = [
        (b"", 7),
        (b"cert 0\nreturn 0 / 1\nend\n", 7),
        (b"cert 3\nreturn 0 / 1\nend\n", 7),
        (b"cert 1\nreturn 0 / 1\nend\nend\n", 10),
        (b"cert 1\nreturn 0/1\nend\n", 8),
        (b"cert 1\nreturn 0 / 1\n", 9),
        (b"cert 1\nclass 2c 3c 4c 5c 7c 4 31 7\n", 9),
        (
            b"cert 1\nreturn 0 / 1\nclass 2c 3c 4c 5c 7c 4 31 7\nend\n",
            9,
        ),
    ];
    for (back, line) in texts {
        assert_eq!(rt; refused_behind(rt.alloc(), TABLE, back)?, line);
    }
    Ok(())
}

/// A certificate of so many equal class lines.
fn class_lines(alloc: Global, count: u32) -> Result<Vec<u8>, AllocError> {
    let mut text = Vec::new(alloc);
    text.extend_from_slice(TABLE)?;
    text.extend_from_slice(b"cert 2\n")?;
    for _ in 0..count {
        text.extend_from_slice(CLASS)?;
    }
    text.extend_from_slice(b"return 1 / 1\nend\n")?;
    Ok(text)
}

#[test]
fn as_many_class_lines_as_classes(rt: HostRuntime) -> Result<(), Fail> {
    let text = class_lines(rt.alloc(), 134_459)?;
    assert!(rt; text.len() < 10_000_000);
    assert_eq!(rt; refused_line(&text), 0);
    let more = class_lines(rt.alloc(), 134_460)?;
    assert!(rt; more.len() < 10_000_000);
    assert_eq!(rt; refused_line(&more), 134_467);
    Ok(())
}
