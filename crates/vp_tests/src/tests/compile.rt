//! `compile` over inputs in memory.

use crate::tests::tables::{answered, joined};
use std::alloc::{AllocError, Global};
use std::test::*;
use vp_pay::samples::{JACKS, ONE_JOKER};
use vp_run::Status;

/// A run: MILLIONTHS, pay table and pool, and the text that is due.
#[derive(Drop)]
struct Case {
    millionths: &'static str,
    table: &'static [u8],
    pool: &'static [u8],
    text: &'static [u8],
}

#[test]
fn pools_that_are_compiled(rt: HostRuntime) -> Result<(), Fail> {
    let cases = [
        // Both orders lose as much, so no exchange is made.
        Case {
            millionths: "1000000",
            table: JACKS,
            pool: b"pool\nrule hold 0\nrule hold 5\nend\n",
            text: b"# optimum 19842315923796 / 19933230517200
# start 13127467272516 / 19933230517200
# settled 13127467272516 / 19933230517200
# loss 13127467272516 / 19933230517200
list
rule hold 0
rule hold 5
end
",
        },
        Case {
            millionths: "0",
            table: ONE_JOKER,
            pool: b"pool\nrule hold 0\nrule hold 1 wilds 1\nend\n",
            text: b"# optimum 4635635004000 / 24568865521200
# start 2317817502000 / 24568865521200
# settled 0 / 24568865521200
# loss 0 / 24568865521200
list
rule hold 1 wilds 1
rule hold 0
end
",
        },
        // The target is just met without an exception, and just missed.
        Case {
            millionths: "94340",
            table: ONE_JOKER,
            pool: b"pool\nrule hold 0\nend\n",
            text: b"# optimum 4635635004000 / 24568865521200
# start 2317817502000 / 24568865521200
# settled 2317817502000 / 24568865521200
# loss 2317817502000 / 24568865521200
list
rule hold 0
end
",
        },
        Case {
            millionths: "94339",
            table: ONE_JOKER,
            pool: b"pool\nrule hold 0\nend\n",
            text: b"# optimum 4635635004000 / 24568865521200
# start 2317817502000 / 24568865521200
# settled 2317817502000 / 24568865521200
# loss 2317612025520 / 24568865521200
list
except 2c 2h 3c 3d Jo 16
rule hold 0
end
",
        },
        // Another order loses nothing, but no exchange of two neighbours strictly lowers the loss.
        Case {
            millionths: "1000000",
            table: ONE_JOKER,
            pool: b"pool\nrule hold 0\nrule hold 5\nrule hold 1 wilds 1\nend\n",
            text: b"# optimum 4635635004000 / 24568865521200
# start 2317817502000 / 24568865521200
# settled 2317817502000 / 24568865521200
# loss 2317817502000 / 24568865521200
list
rule hold 0
rule hold 5
rule hold 1 wilds 1
end
",
        },
        Case {
            millionths: "0",
            table: ONE_JOKER,
            pool: b"pool 2\nrule hold 1 wilds 1\nrule hold 0 left any 5\nend\n",
            text: b"# optimum 4635635004000 / 24568865521200
# start 0 / 24568865521200
# settled 0 / 24568865521200
# loss 0 / 24568865521200
list 2
rule hold 1 wilds 1
rule hold 0 left any 5
end
",
        },
    ];
    for case in cases {
        let input = joined(rt.alloc(), case.table, case.pool)?;
        let words = ["compile", "1", case.millionths];
        let (status, taken) = answered(rt.alloc(), &words, &input, 512)?;
        assert_eq!(rt; status, Status::Done);
        assert_eq!(rt; taken.as_slice(), case.text);
    }
    Ok(())
}

/// The first line of a pool, and behind it so many rules.
fn pool_of(alloc: Global, rules: u8) -> Result<Vec<u8>, AllocError> {
    let mut text = joined(alloc, b"pool\n", b"")?;
    for _ in 0..rules {
        text.extend_from_slice(b"rule hold 0\n")?;
    }
    Ok(text)
}

#[test]
fn pools_that_are_refused(rt: HostRuntime) -> Result<(), Fail> {
    let many = pool_of(rt.alloc(), 65)?;
    let cases: [(&str, &[u8], &[u8]); 6] = [
        ("1", b"pool\nend\n", b"refused 8\n"),
        ("1", &many, b"refused 72\n"),
        ("1", b"pool 3\nrule hold 0\nend\n", b"refused 7\n"),
        ("1", b"list\nrule hold 0\nend\n", b"refused 7\n"),
        ("1", b"pool\nrule hold 0 left any 5\nend\n", b"refused 8\n"),
        ("2", b"pool\nrule hold 0\nend\n", b"refused 6\n"),
    ];
    for (coin, pool, text) in cases {
        let input = joined(rt.alloc(), ONE_JOKER, pool)?;
        let (status, taken) = answered(rt.alloc(), &["compile", coin, "0"], &input, 512)?;
        assert_eq!(rt; status, Status::Refused);
        assert_eq!(rt; taken.as_slice(), text);
    }
    Ok(())
}
