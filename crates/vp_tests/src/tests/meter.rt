//! `meter` over sources and sinks in memory.

ghost use Rattle.std.specs.Prelude.{◌≤◌, length};

use crate::tests::tables::{ROOM, answered, joined};
use std::alloc::{AllocError, Global};
use std::test::*;
use vp_pay::samples::{JACKS, ONE_JOKER};
use vp_run::Status;
use vp_text::{Lines, Words, number};

/// Whether the part stands in the text.
fn stands_in(text: &[u8], part: &[u8]) -> bool {
    (0..text.len()).any(|i| text[i..].starts_with(part))
}

// The values are expected payments over 7669695 and 8561520.
#[test]
fn meters(rt: HostRuntime) -> Result<(), Fail> {
    let cases: [(&[u8], [&str; 5], &[u8], &[u8], &[u8]); 3] = [
        // At 216 a pat flush and the draw to the royal flush are worth the same.
        (
            JACKS,
            ["meter", "1", "royal", "0", "1000"],
            b"meter 1 royal 0 1000\nclass 2c 2d 2h 2s 3c 4\nseg 0 15 191742375 0\n",
            b"class 4c Jc Qc Kc Ac 4\nseg 0 31 46018170 0\nseg 217 30 10770210 163185\nclass",
            b"\nend\n",
        ),
        (
            JACKS,
            ["meter", "1", "royal", "216", "1000"],
            b"meter 1 royal 216 1000\nclass 2c 2d 2h 2s 3c 4\nseg 216 15 191742375 0\n",
            b"class 4c Jc Qc Kc Ac 4\nseg 216 30 10770210 163185\nclass",
            b"\nend\n",
        ),
        (
            ONE_JOKER,
            ["meter", "1", "joker", "0", "10"],
            b"meter 1 joker 0 10\nclass 2c 2d 2h 2s 3c 4\nseg 0 0 0 891825\nclass",
            b"\npiece 0 0 0 0 4635635004000\n",
            b"class Ac Ad Ah As Jo 1\nseg 0 16 0 8561520\npiece 0 0 0 0 4635635004000\nend\n",
        ),
    ];
    for (table, words, first, within, last) in cases {
        let (status, text) = answered(rt.alloc(), &words, table, ROOM)?;
        assert_eq!(rt; status, Status::Done);
        assert!(rt; text.starts_with(first));
        assert!(rt; stands_in(&text, within));
        assert!(rt; text.ends_with(last));
    }
    Ok(())
}

#[test]
fn tables_without_the_bet_or_the_line(rt: HostRuntime) -> Result<(), Fail> {
    let cases: [(&str, &str, &[u8], &[u8]); 4] = [
        ("5", "royal", b"", b"refused 14\n"),
        ("1", "nobody", b"", b"refused 14\n"),
        ("5", "nobody", b"end\n", b"refused 14\n"),
        ("1", "royal", b"end\n", b"refused 15\n"),
    ];
    for (coin, line, more, due) in cases {
        let input = joined(rt.alloc(), JACKS, more)?;
        let (status, text) = answered(rt.alloc(), &["meter", coin, line, "0", "9"], &input, 100)?;
        assert_eq!(rt; status, Status::Refused);
        assert_eq!(rt; text.as_slice(), due);
    }
    Ok(())
}

/// A small table up to the payment of its first line, and behind it. The second line is hit by no hand.
const ROYALS: &[u8] = b"table royals
deck 52
wild none
coins 1
line royal royal either ";

const BEHIND_ROYALS: &[u8] = b"
line again royal either 5
line high-pair pair JQKA either 1
end
";

/// A table that pays nothing.
const NOTHING: &[u8] = b"table nothing
deck 52
wild none
coins 1
line royal royal either 0
line again royal either 0
end
";

/// Five words of a line as numbers; 0 where one is none.
fn numbers_in(words: &mut Words) -> [u64; 5] {
    let mut numbers = [0; 5];
    for place in 0..5usize {
        if let Some(word) = words.next()
            && let Some(told) = number(word)
        {
            numbers[place] = told;
        }
    }
    numbers
}

/// The numbers of the lines with this first word.
fn lines_with(alloc: Global, text: &[u8], first: &[u8]) -> Result<Vec<[u64; 5]>, AllocError>
    requires { length text.now ≤ 67108864 }
{
    let mut found = Vec::new(alloc);
    let mut lines = Lines::new(text);
    for _ in 0..500_000u32 {
        let Some(mut words) = lines.next() else {
            break;
        };
        if words.next_is(first) {
            let _ = words.next();
            found.push(numbers_in(&mut words))?;
        }
    }
    Ok(found)
}

/// The pieces of the small table, for a line and from one payment to another.
fn pieces_of(
    alloc: Global,
    table: &[u8],
    line: &str,
    lo: &str,
    hi: &str,
) -> Result<Vec<[u64; 5]>, AllocError> {
    let (_, text) = answered(alloc, &["meter", "1", line, lo, hi], table, ROOM)?;
    if text.len() <= ROOM {
        lines_with(alloc, &text, b"piece")
    } else {
        Ok(Vec::new(alloc))
    }
}

/// The sum of the best values of the small table with this payment, by its certificate.
fn certified(alloc: Global, payment: &[u8]) -> Result<u64, AllocError> {
    let front = joined(alloc, ROYALS, payment)?;
    let table = joined(alloc, &front, BEHIND_ROYALS)?;
    let (_, text) = answered(alloc, &["certify", "1"], &table, ROOM)?;
    if text.len() <= ROOM {
        let returns = lines_with(alloc, &text, b"return")?;
        Ok(returns.first().map_or(0, |numbers| numbers[0]))
    } else {
        Ok(0)
    }
}

/// The sum of the best values at `x`, by the last of the pieces that begin there or before.
fn in_force(pieces: &[[u64; 5]], x: u64) -> u64 {
    let mut sum = 0;
    for [from, _, _, base, slope] in pieces {
        if *from <= x {
            sum = base.saturating_add(slope.saturating_mul(x));
        }
    }
    sum
}

#[test]
fn pieces_and_certificates(rt: HostRuntime) -> Result<(), Fail> {
    let front = joined(rt.alloc(), ROYALS, b"0")?;
    let table = joined(rt.alloc(), &front, BEHIND_ROYALS)?;
    let pieces = pieces_of(rt.alloc(), &table, "royal", "0", "3000")?;
    assert!(rt; pieces.len() > 10);
    let due = [
        certified(rt.alloc(), b"0")?,
        certified(rt.alloc(), b"800")?,
        certified(rt.alloc(), b"3000")?,
    ];
    assert!(rt; 0 < due[0] && due[0] < due[1] && due[1] < due[2]);
    let told = [0, 800, 3000].map(|x| in_force(&pieces, x));
    assert_eq!(rt; told, due);
    // One payment alone has one piece.
    let alone = pieces_of(rt.alloc(), &table, "royal", "800", "800")?;
    assert_eq!(rt; alone.len(), 1);
    assert_eq!(rt; in_force(&alone, 800), due[1]);
    // A line that no hand hits: the return stays that of royals that pay nothing.
    let again = pieces_of(rt.alloc(), &table, "again", "0", "500000")?;
    assert_eq!(rt; again.as_slice(), [[0, 0, 0, due[0], 0]].as_slice());
    // Nothing is paid anywhere: all holds tie, and the least is played.
    let words = ["meter", "1", "again", "0", "500000"];
    let (status, text) = answered(rt.alloc(), &words, NOTHING, ROOM)?;
    assert_eq!(rt; status, Status::Done);
    assert!(rt;
        text.starts_with(
            b"meter 1 again 0 500000\nclass 2c 2d 2h 2s 3c 4\nseg 0 0 0 0\nclass 2c 2d 2h 3c 3d 12\nseg 0 0 0 0\nclass"
        )
    );
    assert!(rt; text.ends_with(b"class Kc Ac Ad Ah As 4\nseg 0 0 0 0\npiece 0 0 0 0 0\nend\n"));
    Ok(())
}
