//! `audit` over inputs in memory.

ghost use Rattle.std.specs.Prelude.{◌≤◌, length};

use crate::tests::tables::{ROOM, answered, joined};
use std::alloc::{AllocError, Global};
use std::test::*;
use vp_pay::samples::{JACKS, KINGS, ONE_JOKER, ZERO};
use vp_run::{Status, region_words};
use vp_text::Lines;

#[test]
fn lists_that_are_priced(rt: HostRuntime) -> Result<(), Fail> {
    let cases: [(&[u8], &[u8], &[u8]); 6] = [
        (
            JACKS,
            b"list\nend\n",
            b"optimum 19842315923796 / 19933230517200
least 6714848651280 / 19933230517200
greatest 6714848651280 / 19933230517200
loss 13127467272516 / 19933230517200
ambiguous 0
except 0 0
none 2598960 13127467272516
",
        ),
        (
            ONE_JOKER,
            b"list\nrule hold 1\nend\n",
            b"optimum 4635635004000 / 24568865521200
least 1854254001600 / 24568865521200
greatest 4172071503600 / 24568865521200
loss 2781381002400 / 24568865521200
ambiguous 270725
except 0 0
rule 1 2869685 2781381002400
none 0 0
",
        ),
        (
            ONE_JOKER,
            b"list\nrule hold 1 wilds 1\nend\n",
            b"optimum 4635635004000 / 24568865521200
least 4635635004000 / 24568865521200
greatest 4635635004000 / 24568865521200
loss 0 / 24568865521200
ambiguous 0
except 0 0
rule 1 270725 0
none 2598960 0
",
        ),
        // The exception holds for all 24 deals of its class.
        (
            ONE_JOKER,
            b"list\nexcept 2c 2h 3c 3d Jo 16\nrule hold 0\nend\n",
            b"optimum 4635635004000 / 24568865521200
least 2318022978480 / 24568865521200
greatest 2318022978480 / 24568865521200
loss 2317612025520 / 24568865521200
ambiguous 0
except 24 0
rule 1 2869661 2317612025520
none 0 0
",
        ),
        (
            ONE_JOKER,
            b"list 2\nrule hold 0 left any 5\nrule hold 1 wilds 1\nend\n",
            b"optimum 4635635004000 / 24568865521200
least 4635635004000 / 24568865521200
greatest 4635635004000 / 24568865521200
loss 0 / 24568865521200
ambiguous 0
except 0 0
rule 1 2598960 0
rule 2 270725 0
none 0 0
",
        ),
        // Deals of one suit.
        (
            ZERO,
            b"list 2\nrule hold 4 suited leftsuit 1\nend\n",
            b"optimum 0 / 19933230517200
least 0 / 19933230517200
greatest 0 / 19933230517200
loss 0 / 19933230517200
ambiguous 0
except 0 0
rule 1 5148 0
none 2593812 0
",
        ),
    ];
    for (table, list, text) in cases {
        let input = joined(rt.alloc(), table, list)?;
        let (status, taken) = answered(rt.alloc(), &["audit", "1"], &input, 512)?;
        assert_eq!(rt; status, Status::Done);
        assert_eq!(rt; taken.as_slice(), text);
    }
    Ok(())
}

#[test]
fn lists_that_are_refused(rt: HostRuntime) -> Result<(), Fail> {
    let cases: [(&str, &[u8], &[u8]); 5] = [
        // Its cards rise, but they are not their least image.
        (
            "1",
            b"list\nexcept 2c 2d 3h 3s Jo 16\nrule hold 0\nend\n",
            b"refused 8\n",
        ),
        (
            "1",
            b"list\nexcept 2c 2h 3c 3d Jo 16\nexcept 2c 2h 3c 3d Jo 16\nend\n",
            b"refused 9\n",
        ),
        ("1", b"list\nrule hold 0 left any 5\nend\n", b"refused 8\n"),
        ("1", b"list\nend\nend\n", b"refused 9\n"),
        ("2", b"list\nend\n", b"refused 6\n"),
    ];
    for (coin, list, text) in cases {
        let input = joined(rt.alloc(), ONE_JOKER, list)?;
        let (status, taken) = answered(rt.alloc(), &["audit", coin], &input, 512)?;
        assert_eq!(rt; status, Status::Refused);
        assert_eq!(rt; taken.as_slice(), text);
    }
    Ok(())
}

/// A list with an exception for each class line of a certificate: its cards and its mask.
fn exceptions_of(alloc: Global, certificate: &[u8]) -> Result<Vec<u8>, AllocError>
    requires { length certificate.now ≤ 67108864 }
{
    let mut list = joined(alloc, b"list\n", b"")?;
    let mut lines = Lines::new(certificate);
    for _ in 0..200_000u32 {
        let Some(mut words) = lines.next() else {
            break;
        };
        if !words.next_is(b"class") {
            continue;
        }
        let _ = words.next();
        list.extend_from_slice(b"except")?;
        for place in 0..7u8 {
            if let Some(word) = words.next()
                && place != 5
            {
                list.extend_from_slice(b" ")?;
                list.extend_from_slice(word)?;
            }
        }
        list.extend_from_slice(b"\n")?;
    }
    list.extend_from_slice(b"end\n")?;
    Ok(list)
}

// The words of a table of sums for a deck of 53 cards: 1 + 53 + 1378 + 23426 + 292825 + 2869685 sets.
const ONE_TABLE: usize = 3_187_368;

// Each exception is the best hold that the certificate has for its class, so the list loses nothing. However many there are, no
// memory is taken for them.
#[test]
fn exceptions_for_all_classes(rt: HostRuntime) -> Result<(), Fail> {
    let cases: [(&[u8], &[u8]); 2] = [
        (
            ONE_JOKER,
            b"optimum 4635635004000 / 24568865521200
least 4635635004000 / 24568865521200
greatest 4635635004000 / 24568865521200
loss 0 / 24568865521200
ambiguous 0
except 2869685 0
none 0 0
",
        ),
        (
            KINGS,
            b"optimum 24727653272220 / 24568865521200
least 24727653272220 / 24568865521200
greatest 24727653272220 / 24568865521200
loss 0 / 24568865521200
ambiguous 0
except 2869685 0
none 0 0
",
        ),
    ];
    for (table, due) in cases {
        let (_, certificate) = answered(rt.alloc(), &["certify", "1"], table, ROOM)?;
        assert!(rt; certificate.len() <= ROOM);
        let list = exceptions_of(rt.alloc(), &certificate)?;
        let lines = list.iter().filter(|byte| **byte == b'\n').count();
        assert_eq!(rt; lines, 150_893);
        let input = joined(rt.alloc(), table, &list)?;
        assert!(rt; input.len() <= ROOM);
        assert_eq!(rt; region_words(&["audit", "1"], &input), ONE_TABLE);
        let (status, taken) = answered(rt.alloc(), &["audit", "1"], &input, 512)?;
        assert_eq!(rt; status, Status::Done);
        assert_eq!(rt; taken.as_slice(), due);
    }
    Ok(())
}
