//! `hits` over sources and sinks in memory.

use crate::tests::tables::{answered, joined};
use std::test::*;
use vp_pay::samples::{JACKS, ONE_JOKER, ZERO};
use vp_run::Status;

// A joker that is dealt is held, and else comes in 5 of 48 draws of five cards. Where nothing pays, all is thrown.
#[test]
fn lines_of_two_tables(rt: HostRuntime) -> Result<(), Fail> {
    let cases: [(&[u8], &[u8]); 2] = [
        (
            ONE_JOKER,
            b"hit joker 1 4635635004000 / 24568865521200
none 19933230517200 / 24568865521200
return 4635635004000 / 24568865521200
",
        ),
        (
            ZERO,
            b"hit royal 0 30678780 / 19933230517200
none 19933199838420 / 19933230517200
return 0 / 19933230517200
",
        ),
    ];
    for (table, due) in cases {
        let (status, text) = answered(rt.alloc(), &["hits", "1"], table, 400)?;
        assert_eq!(rt; status, Status::Done);
        assert_eq!(rt; text.as_slice(), due);
    }
    Ok(())
}

#[test]
fn what_hits_does_not_take(rt: HostRuntime) -> Result<(), Fail> {
    let cases: [(&[&str], &[u8], Status, &[u8]); 7] = [
        (&["hits"], ZERO, Status::Usage, b"usage\n"),
        (&["hits", "0"], ZERO, Status::Usage, b"usage\n"),
        (&["hits", "6"], ZERO, Status::Usage, b"usage\n"),
        (&["hits", "01"], ZERO, Status::Usage, b"usage\n"),
        (&["hits", "1", "1"], ZERO, Status::Usage, b"usage\n"),
        (&["hits", "2"], ZERO, Status::Refused, b"refused 6\n"),
        (&["hits", "1"], b"", Status::Refused, b"refused 1\n"),
    ];
    for (words, input, due, said) in cases {
        let (status, text) = answered(rt.alloc(), words, input, 100)?;
        assert_eq!(rt; status, due);
        assert_eq!(rt; text.as_slice(), said);
    }
    let input = joined(rt.alloc(), JACKS, b"end\n")?;
    let (status, text) = answered(rt.alloc(), &["hits", "1"], &input, 100)?;
    assert_eq!(rt; status, Status::Refused);
    assert_eq!(rt; text.as_slice(), b"refused 15\n".as_slice());
    Ok(())
}
