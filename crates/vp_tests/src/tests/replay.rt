//! `replay` of logs on 9/6 Jacks or Better for five bets.

use crate::tests::tables::{answered, built_in_deal, joined};
use std::test::*;
use vp_pay::samples::{ONE_JOKER, TWO_JOKERS};
use vp_run::{Status, region_words};

/// A royal flush drawn by its best hold, and then a pat flush held, which gives 4 to the royal flush away.
const SESSION: &[u8] = b"log 100
game 5 deal As Ks Qs Js 4s hold Js Qs Ks As draw Ts pay 4000 credits 4095
game 5 deal As Ks Qs Js 4s hold As Ks Qs Js 4s draw pay 30 credits 4120
end
";

const SESSION_ANSWER: &[u8] = b"cost 2 476500200
games 2
bet 10
paid 4030
credits 4120
slips 1
loss 476500200 / 7669695
";

const NO_GAMES_ANSWER: &[u8] = b"games 0\nbet 0\npaid 0\ncredits 7\nslips 0\nloss 0 / 7669695\n";

// The words of a table of sums for a deck of 52 cards: 1 + 52 + 1326 + 22100 + 270725 + 2598960 sets.
const ONE_TABLE: usize = 2_893_164;

#[test]
fn lawful_logs(rt: HostRuntime) -> Result<(), Fail> {
    let cases: [(&[u8], &[u8]); 2] = [
        (SESSION, SESSION_ANSWER),
        (b"log 7\nend\n", NO_GAMES_ANSWER),
    ];
    for (log, text) in cases {
        let input = built_in_deal(rt.alloc(), 0, log)?;
        assert!(rt; input.len() < 2000);
        assert_eq!(rt; region_words(&["replay"], &input), 5 * ONE_TABLE);
        let (status, taken) = answered(rt.alloc(), &["replay"], &input, 512)?;
        assert_eq!(rt; status, Status::Done);
        assert_eq!(rt; taken.as_slice(), text);
    }
    Ok(())
}

// The joker is paid 1 wherever it is held, and here it is discarded.
#[test]
fn logs_of_a_table_with_a_joker(rt: HostRuntime) -> Result<(), Fail> {
    let log = b"log 1\ngame 1 deal 2c 2h 3c 3d Jo hold draw 4c 5c 6c 7c 8c pay 0 credits 0\nend\n";
    let input = joined(rt.alloc(), ONE_JOKER, log)?;
    let (status, taken) = answered(rt.alloc(), &["replay"], &input, 512)?;
    assert_eq!(rt; status, Status::Done);
    let due =
        b"cost 1 8561520\ngames 1\nbet 1\npaid 0\ncredits 0\nslips 1\nloss 8561520 / 8561520\n";
    assert_eq!(rt; taken.as_slice(), due.as_slice());
    Ok(())
}

// Logs with a broken law, and texts that are no logs. None needs memory.
#[test]
fn logs_that_stop(rt: HostRuntime) -> Result<(), Fail> {
    let cases: [(&[u8], Status, &[u8]); 19] = [
        // The third game breaks three laws.
        (
            b"log 100
game 5 deal As Ks Qs Js 4s hold Js Qs Ks As draw Ts pay 4000 credits 4095
game 5 deal As Ks Qs Js 4s hold As Ks Qs Js 4s draw pay 30 credits 4120
game 5 deal As Ks Qs Js 4s hold As Ks Qs Js draw 4s pay 31 credits 9
end
",
            Status::Finding,
            b"finding 3 draw 1 11\n",
        ),
        (
            b"log 4\ngame 5 deal As Ks Qs Js 4s hold Js Qs Ks As draw Ts pay 4000 credits 4095\nend\n",
            Status::Finding,
            b"finding 1 funds 5 4\n",
        ),
        (
            b"log 100\ngame 6 deal As Ks Qs Js 4s hold Js Qs Ks As draw Ts pay 4000 credits 4095\nend\n",
            Status::Finding,
            b"finding 1 bet 6 5\n",
        ),
        (
            b"log 100\ngame 0 deal As Ks Qs Js 4s hold Js Qs Ks As draw Ts pay 4000 credits 4095\nend\n",
            Status::Finding,
            b"finding 1 bet 0 5\n",
        ),
        (
            b"log 100\ngame 5 deal As Ks Qs As 4s hold draw pay 0 credits 95\nend\n",
            Status::Finding,
            b"finding 1 deal 4 51\n",
        ),
        (
            b"log 100\ngame 5 deal As Ks Qs Js 4s hold Ts draw 2c 3c 4c 5c pay 0 credits 95\nend\n",
            Status::Finding,
            b"finding 1 hold 1 35\n",
        ),
        (
            b"log 100\ngame 5 deal As Ks Qs Js 4s hold As draw 2c 3c 4c pay 0 credits 95\nend\n",
            Status::Finding,
            b"finding 1 count 3 4\n",
        ),
        (
            b"log 100\ngame 5 deal As Ks Qs Js 4s hold As Ks Qs Js 4s draw pay 24 credits 125\nend\n",
            Status::Finding,
            b"finding 1 pay 24 30\n",
        ),
        (
            b"log 100\ngame 5 deal As Ks Qs Js 4s hold As Ks Qs Js 4s draw pay 30 credits 126\nend\n",
            Status::Finding,
            b"finding 1 credits 126 125\n",
        ),
        (
            b"log 1\ngame 1 deal As Ks Qs Js 4s hold draw 2c 3c 4c 5c 7d pay 0 credits 18446744073709551615\nend\n",
            Status::Finding,
            b"finding 1 credits 18446744073709551615 0\n",
        ),
        // The greatest number, in place of a pay.
        (
            b"log 100\ngame 5 deal As Ks Qs Js 4s hold Js Qs Ks As draw Ts pay 18446744073709551615 credits 4095\nend\n",
            Status::Finding,
            b"finding 1 pay 18446744073709551615 4000\n",
        ),
        // Two games break a law, behind a lawful one; the law that the second breaks comes before that of the first.
        (
            b"log 100
game 5 deal As Ks Qs Js 4s hold Js Qs Ks As draw Ts pay 4000 credits 4095
game 5 deal As Ks Qs Js 4s hold As Ks Qs Js 4s draw pay 30 credits 4121
game 6 deal As Ks Qs As 4s hold As Ks Qs Js 4s draw pay 30 credits 4120
end
",
            Status::Finding,
            b"finding 2 credits 4121 4120\n",
        ),
        // The session without its end.
        (
            b"log 100
game 5 deal As Ks Qs Js 4s hold Js Qs Ks As draw Ts pay 4000 credits 4095
game 5 deal As Ks Qs Js 4s hold As Ks Qs Js 4s draw pay 30 credits 4120
",
            Status::Refused,
            b"refused 18\n",
        ),
        (
            b"log 1000000000001\nend\n",
            Status::Refused,
            b"refused 15\n",
        ),
        (
            b"log 7\ngame five deal As Ks Qs Js 4s hold draw pay 0 credits 2\nend\n",
            Status::Refused,
            b"refused 16\n",
        ),
        (
            b"log 7\ngame 5 deal As Ks Qs Js 4s 3s hold draw pay 0 credits 2\nend\n",
            Status::Refused,
            b"refused 16\n",
        ),
        (
            b"log 7\ngame 5 deal As Ks Qs Js Jo hold draw pay 0 credits 2\nend\n",
            Status::Refused,
            b"refused 16\n",
        ),
        (b"log 7\n", Status::Refused, b"refused 16\n"),
        (b"log 7\nend\nend\n", Status::Refused, b"refused 17\n"),
    ];
    for (log, due, text) in cases {
        let input = built_in_deal(rt.alloc(), 0, log)?;
        assert!(rt; input.len() < 2000);
        assert_eq!(rt; region_words(&["replay"], &input), 0);
        let (status, taken) = answered(rt.alloc(), &["replay"], &input, 512)?;
        assert_eq!(rt; status, due);
        assert_eq!(rt; taken.as_slice(), text);
    }
    Ok(())
}

// A table that is refused comes before its log.
#[test]
fn logs_without_a_table(rt: HostRuntime) -> Result<(), Fail> {
    let input = joined(rt.alloc(), TWO_JOKERS, b"deal As Ks Qs Js 4s\n")?;
    let (status, taken) = answered(rt.alloc(), &["replay"], &input, 512)?;
    assert_eq!(rt; status, Status::Refused);
    assert_eq!(rt; taken.as_slice(), b"refused 8\n".as_slice());
    let (status, taken) = answered(rt.alloc(), &["replay"], SESSION, 512)?;
    assert_eq!(rt; status, Status::Refused);
    assert_eq!(rt; taken.as_slice(), b"refused 1\n".as_slice());
    Ok(())
}
