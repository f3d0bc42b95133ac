//! `deal` over sources and sinks in memory.

use crate::tests::tables::{answered, built_in_deal, joined};
use std::test::*;
use vp_io::MemSink;
use vp_pay::samples::{
    DEUCES_AND_ACE, GREATEST, JACKS, KICKER, LONG, ONE_JOKER, OPERATORS_JACKS, TWO_JOKERS, ZERO,
};
use vp_region::Region;
use vp_run::{Status, in_region, region_words, served, vpoker_lent, words_to_lend};

pub(crate) const ROYAL_DRAW: &[u8] = b"deal As Ks Qs Js 4s\n";

pub(crate) const ROYAL_DRAW_ANSWER: &[u8] = b"deal 4s Js Qs Ks As
best 30 Js Qs Ks As 141318210 / 7669695
pat 46018170 / 7669695
ties 1
";

#[test]
fn deals_of_jacks_or_better(rt: HostRuntime) -> Result<(), Fail> {
    let cases: [(&[u8], Status, &[u8]); 7] = [
        (ROYAL_DRAW, Status::Done, ROYAL_DRAW_ANSWER),
        (
            b"deal Ks Qs Js Ts 9s",
            Status::Done,
            b"deal 9s Ts Js Qs Ks
best 31 9s Ts Js Qs Ks 383484750 / 7669695
pat 383484750 / 7669695
ties 1
",
        ),
        (
            b"deal 8c 8d 8h 8s 3c",
            Status::Done,
            b"deal 3c 8c 8d 8h 8s
best 30 8c 8d 8h 8s 191742375 / 7669695
pat 191742375 / 7669695
ties 2
",
        ),
        (b"deal As As Ks Qs Js\n", Status::Refused, b"refused 15\n"),
        (b"deal Jo As Ks Qs Js\n", Status::Refused, b"refused 15\n"),
        (
            b"deal As Ks Qs Js 4s\nend\n",
            Status::Refused,
            b"refused 16\n",
        ),
        (b"", Status::Refused, b"refused 15\n"),
    ];
    for (deal, due, text) in cases {
        let input = joined(rt.alloc(), JACKS, deal)?;
        let (status, taken) = answered(rt.alloc(), &["deal", "1"], &input, 512)?;
        assert_eq!(rt; status, due);
        assert_eq!(rt; taken.as_slice(), text);
    }
    Ok(())
}

#[test]
fn tables_that_are_refused(rt: HostRuntime) -> Result<(), Fail> {
    let cases: [(&str, &[u8], &[u8]); 8] = [
        ("1", LONG, b"refused 37\n"),
        ("1", b"table a\ndeck 55\n", b"refused 2\n"),
        ("1", b"", b"refused 1\n"),
        ("1", b"\n# nothing\n", b"refused 3\n"),
        (
            "1",
            b"table a\ndeck 52\nwild none\ncoins 1\nline b royal either 500001\n",
            b"refused 5\n",
        ),
        (
            "1",
            b"table a\ndeck 52\nwild none\ncoins 1\nline b royal either 1\nline b flush either 1\n",
            b"refused 6\n",
        ),
        (
            "1",
            b"table a\ndeck 52\nwild none\ncoins 1\nend\n",
            b"refused 5\n",
        ),
        (
            "2",
            b"table a\ndeck 52\nwild none\ncoins 1\nline b royal either 1\nend\n",
            b"refused 6\n",
        ),
    ];
    for (coin, input, text) in cases {
        let (status, taken) = answered(rt.alloc(), &["deal", coin], input, 64)?;
        assert_eq!(rt; status, Status::Refused);
        assert_eq!(rt; taken.as_slice(), text);
    }
    Ok(())
}

#[test]
fn deals_with_wild_cards(rt: HostRuntime) -> Result<(), Fail> {
    let cases: [(u8, &[u8], &[u8], &[u8]); 3] = [
        (
            2,
            b"deal 2c 2d 2h 2s 3c",
            b"deal 2c 2d 2h 2s 3c\nbest 15 2c 2d 2h 2s 1533939000 / 7669695\n",
            b"\nties 2\n",
        ),
        (
            3,
            b"deal Jo Ts Js Qs Ks",
            b"deal Ts Js Qs Ks Jo\nbest 31 Ts Js Qs Ks Jo 856152000 / 8561520\n",
            b"\nties 1\n",
        ),
        (2, b"deal Jo Ts Js Qs Ks", b"refused 16\n", b""),
    ];
    for (table, deal, front, back) in cases {
        let input = built_in_deal(rt.alloc(), table, deal)?;
        let (_, taken) = answered(rt.alloc(), &["deal", "1"], &input, 512)?;
        assert!(rt; taken.starts_with(front));
        assert!(rt; taken.ends_with(back));
    }
    Ok(())
}

#[test]
fn tables_of_all_kinds(rt: HostRuntime) -> Result<(), Fail> {
    let cases: [(&str, &[u8], &[u8], &[u8]); 7] = [
        (
            "1",
            TWO_JOKERS,
            b"deal Jk Jo 2c 3c 4c",
            b"deal 2c 3c 4c Jo Jk\nbest 24 Jo Jk 7627536 / 3813768\npat 7627536 / 3813768\nties 8\n",
        ),
        (
            "1",
            TWO_JOKERS,
            b"deal Jo 2c 3c 4c 5c",
            b"deal 2c 3c 4c 5c Jo\nbest 16 Jo 4125096 / 3813768\npat 3813768 / 3813768\nties 1\n",
        ),
        (
            "1",
            ZERO,
            b"deal 2c 3c 4c 5c 6c",
            b"deal 2c 3c 4c 5c 6c\nbest 0 0 / 7669695\npat 0 / 7669695\nties 32\n",
        ),
        (
            "1",
            GREATEST,
            ROYAL_DRAW,
            b"deal 4s Js Qs Ks As\nbest 30 Js Qs Ks As 81603270210 / 7669695\npat 46018170 / 7669695\nties 1\n",
        ),
        (
            "5",
            OPERATORS_JACKS,
            b"deal As Ks Qs Js 4s # draw\r\n",
            b"deal 4s Js Qs Ks As\nbest 30 Js Qs Ks As 706591050 / 7669695\npat 230090850 / 7669695\nties 1\n",
        ),
        (
            "1",
            KICKER,
            b"deal Ac Ad Ah As 2c",
            b"deal 2c Ac Ad Ah As\nbest 31 2c Ac Ad Ah As 3067878000 / 7669695\npat 3067878000 / 7669695\nties 1\n",
        ),
        (
            "1",
            DEUCES_AND_ACE,
            b"deal 2c 2d 2h 2s Ac",
            b"deal 2c 2d 2h 2s Ac\nbest 31 2c 2d 2h 2s Ac 3067878000 / 7669695\npat 3067878000 / 7669695\nties 1\n",
        ),
    ];
    for (coin, table, deal, text) in cases {
        let input = joined(rt.alloc(), table, deal)?;
        let (status, taken) = answered(rt.alloc(), &["deal", coin], &input, 512)?;
        assert_eq!(rt; status, Status::Done);
        assert_eq!(rt; taken.as_slice(), text);
    }
    Ok(())
}

// A joker that the deck lacks.
#[test]
fn jokers_of_another_deck(rt: HostRuntime) -> Result<(), Fail> {
    let cases: [(&[u8], &[u8], &[u8]); 3] = [
        (ONE_JOKER, b"deal Jk 2c 3c 4c 5c\n", b"refused 7\n"),
        (JACKS, b"deal Jo 2c 3c 4c 5c\n", b"refused 15\n"),
        (JACKS, b"deal Jk 2c 3c 4c 5c\n", b"refused 15\n"),
    ];
    for (table, deal, text) in cases {
        let input = joined(rt.alloc(), table, deal)?;
        let (status, taken) = answered(rt.alloc(), &["deal", "1"], &input, 64)?;
        assert_eq!(rt; status, Status::Refused);
        assert_eq!(rt; taken.as_slice(), text);
    }
    Ok(())
}

// The calls that the whole program is made of, by themselves.
#[test]
fn served_in_lent_words(rt: HostRuntime) -> Result<(), Fail> {
    let input = joined(rt.alloc(), JACKS, ROYAL_DRAW)?;
    assert!(rt; input.len() < 1000);
    let cases: [(&[&str], usize); 4] = [
        (&["deal", "1"], 2_893_164),
        (&["deal", "2"], 0),
        (&["deal", "6"], 0),
        (&["tables"], 0),
    ];
    for (words, due) in cases {
        assert_eq!(rt; region_words(words, &input), due);
        assert_eq!(rt; words_to_lend(words, &input), Ok(due));
    }
    assert!(rt; in_region(&["deal", "1"], &input));
    let mut region = Region::open(rt.alloc(), region_words(&["deal", "1"], &input))?;
    let mut room = [0; 512];
    let mut sink = MemSink::new(&mut room, 512, &[]);
    assert!(rt; served(&["deal", "1"], &input, region.words(), &mut sink).is_ok());
    assert_eq!(rt; sink.taken(), ROYAL_DRAW_ANSWER);
    Ok(())
}

// Words of memory that are lent: enough of them with any numbers in them, one too few, and a command for which no number
// is enough.
#[test]
fn lent_words(rt: HostRuntime) -> Result<(), Fail> {
    let input = joined(rt.alloc(), JACKS, ROYAL_DRAW)?;
    let cases: [(&[&str], &[u8], usize, u64, Status, &[u8]); 4] = [
        (&["deal", "1"], &input, 2_893_163, 0, Status::NoMemory, b""),
        (
            &["deal", "1"],
            &input,
            2_893_164,
            0,
            Status::Done,
            ROYAL_DRAW_ANSWER,
        ),
        (
            &["deal", "1"],
            &input,
            2_893_164,
            u64::MAX,
            Status::Done,
            ROYAL_DRAW_ANSWER,
        ),
        (
            &["play", "1", "1", "1"],
            JACKS,
            2_893_164,
            0,
            Status::NoMemory,
            b"",
        ),
    ];
    for (words, bytes, lent, number, due, text) in cases {
        let mut region = Region::open(rt.alloc(), lent)?;
        region.words().fill(number);
        let mut room = [0; 512];
        let mut sink = MemSink::new(&mut room, 512, &[]);
        let status = vpoker_lent(words, bytes, region.words(), &mut sink);
        assert_eq!(rt; (status, sink.taken()), (due, text));
    }
    Ok(())
}
