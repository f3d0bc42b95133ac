//! `cross` over sources and sinks in memory.

use crate::tests::tables::{answered, joined};
use std::test::*;
use vp_pay::samples::{BONUS, JACKS, ONE_JOKER, ZERO};
use vp_run::Status;

/// Nothing pays, in a deck with a joker.
const NOTHING: &[u8] = b"table nothing
deck 53
wild none
coins 1
line royal royal either 0
end
";

// A joker pays, and no play for it holds one: it is lost where it was dealt. In the other order nothing is paid. The figures
// of the third case are those of a plain program that takes every deal's image of least index under the 24 exchanges of
// suits: with 2c Tc Td Jc Ac four to a flush are held, where three to a royal flush are worth more. A table's own play costs
// nothing.
#[test]
fn plays_of_two_tables(rt: HostRuntime) -> Result<(), Fail> {
    let cases: [(&[u8], &[u8], &[u8]); 4] = [
        (
            NOTHING,
            ONE_JOKER,
            b"optimum 4635635004000 / 24568865521200
cross 2317817502000 / 24568865521200
loss 2317817502000 / 24568865521200
differ 16432 270725
worst 2c 2d 2h 2s Jo 0 16 8561520
",
        ),
        (
            ONE_JOKER,
            NOTHING,
            b"optimum 0 / 24568865521200
cross 0 / 24568865521200
loss 0 / 24568865521200
differ 0 0
",
        ),
        (
            JACKS,
            BONUS,
            b"optimum 19766982030036 / 19933230517200
cross 19765442272620 / 19933230517200
loss 1539757416 / 19933230517200
differ 721 13728
worst 2c Tc Td Jc Ac 27 26 1213245
",
        ),
        (
            JACKS,
            JACKS,
            b"optimum 19842315923796 / 19933230517200
cross 19842315923796 / 19933230517200
loss 0 / 19933230517200
differ 0 0
",
        ),
    ];
    for (first, second, due) in cases {
        let input = joined(rt.alloc(), first, second)?;
        let (status, text) = answered(rt.alloc(), &["cross", "1"], &input, 400)?;
        assert_eq!(rt; status, Status::Done);
        assert_eq!(rt; text.as_slice(), due);
    }
    Ok(())
}

// A second table of another deck, and one without the bet, is refused at its last line; so is a first table without the
// bet, whatever follows. A table behind the second is refused where it begins.
#[test]
fn what_cross_does_not_take(rt: HostRuntime) -> Result<(), Fail> {
    let cases: [(&[u8], &[u8], &str, &[u8]); 6] = [
        (ZERO, ONE_JOKER, "1", b"refused 12\n"),
        (ZERO, ZERO, "2", b"refused 6\n"),
        (ZERO, b"table", "2", b"refused 6\n"),
        (ZERO, b"", "1", b"refused 7\n"),
        (ZERO, b"table zero\ndeck 52\nend\n", "1", b"refused 9\n"),
        (TWO_ZEROS, ZERO, "1", b"refused 13\n"),
    ];
    for (first, second, coin, said) in cases {
        let input = joined(rt.alloc(), first, second)?;
        let (status, text) = answered(rt.alloc(), &["cross", coin], &input, 100)?;
        assert_eq!(rt; status, Status::Refused);
        assert_eq!(rt; text.as_slice(), said);
    }
    Ok(())
}

/// Two tables that pay nothing.
const TWO_ZEROS: &[u8] = b"table zero
deck 52
wild none
coins 1
line royal royal either 0
end
table zero
deck 52
wild none
coins 1
line royal royal either 0
end
";
