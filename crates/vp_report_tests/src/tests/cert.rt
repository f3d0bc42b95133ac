//! Tables with jokers, certified and checked, and a sink that fails.

ghost use Rattle.std.specs.Prelude.{◌≡◌, ◌≤◌, length};
ghost use Rattle.vp_pay.specs.Table.{IsTable};
ghost use Rattle.vp_count.specs.Table.{first_word};

use std::alloc::Global;
use std::test::*;
use vp_cert::{Asked, certify};
use vp_check::{Checked, check};
use vp_count::table_words;
use vp_hold::Game;
use vp_io::{MemSink, Sink};
use vp_pay::PayTable;
use vp_pay::samples::{ONE_JOKER, TWO_JOKERS};

/// The sum of the best values, where all lines were put, and how many best holds were asked for.
fn certified<K: Sink>(table: &PayTable, words: &mut [u64], sink: &mut K) -> (Option<u128>, u64)
    requires table { IsTable table.now }
    requires long { length words.old ≡ first_word table.now.deck 6 }
{
    let game = Game::of(table, 1, words);
    let mut holds = Asked::new(&game);
    let sum = certify(&mut holds, sink).ok();
    (sum, holds.count())
}

/// The same for a table's text, into the sink.
fn certified_into<K: Sink>(
    alloc: Global,
    text: &[u8],
    sink: &mut K,
) -> Result<(Option<u128>, u64), Fail>
    requires { length text.now ≤ 67108864 }
{
    let table = PayTable::in_text(text).ok_or("the table is refused")?;
    let mut words = vec![in alloc; 7u64; table_words(table.deck)]?;
    Ok(certified(&table, &mut words, sink))
}

/// What a certificate says: its class lines, its return, its first lines behind the table, and its last lines.
#[derive(Drop)]
struct Due {
    table: &'static [u8],
    classes: u32,
    sum: u64,
    denominator: u64,
    front: &'static [u8],
    back: &'static [u8],
}

// The best holds keep the jokers that are dealt, and draw five cards where there are none: 5 / 48 and 10 / 49 of a joker come in the
// mean. Each certificate is found true, its first class line being walked.
#[test]
fn decks_with_jokers(rt: HostRuntime) -> Result<(), Fail> {
    let cases = [
        Due {
            table: ONE_JOKER,
            classes: 150891,
            sum: 4635635004000,
            denominator: 24568865521200,
            front: b"cert 1\nclass 2c 2d 2h 2s 3c 4 0 891825\n",
            back: b"class Ac Ad Ah As Jo 1 16 8561520\nreturn 4635635004000 / 24568865521200\nend\n",
        },
        Due {
            table: TWO_JOKERS,
            classes: 169078,
            sum: 4424924322000,
            denominator: 12061079437680,
            front: b"cert 1\nclass 2c 2d 2h 2s 3c 4 0 778320\n",
            back: b"class Ac Ad Ah Jo Jk 4 24 7627536\nreturn 4424924322000 / 12061079437680\nend\n",
        },
    ];
    for due in cases {
        assert!(rt; due.table.len() < 1000);
        let mut room = vec![in rt.alloc(); 0u8; 8_000_000]?;
        let mut sink = MemSink::new(&mut room, 8_000_000, &[]);
        assert_eq!(rt;
            certified_into(rt.alloc(), due.table, &mut sink)?,
            (Some(u128::from(due.sum)), u64::from(due.classes))
        );
        let text = sink.taken();
        assert!(rt; text.len() < 8_000_000);
        let rest = text
            .strip_prefix(due.table)
            .ok_or("another table in front")?;
        assert!(rt; rest.starts_with(due.front));
        assert!(rt; text.ends_with(due.back));
        assert_eq!(rt;
            check(text, 1, 1),
            Ok(Checked {
                classes: due.classes,
                walked: 1,
                sum: due.sum,
                denominator: due.denominator,
            })
        );
    }
    Ok(())
}

// The third write fails, so the sink has the first two lines.
#[test]
fn third_write_fails(rt: HostRuntime) -> Result<(), Fail> {
    let mut room = [0; 100];
    let mut sink = MemSink::new(&mut room, 100, &[3]);
    assert!(rt; ONE_JOKER.len() < 1000);
    assert_eq!(rt;
        certified_into(rt.alloc(), ONE_JOKER, &mut sink)?,
        (None, 0)
    );
    assert_eq!(rt; sink.taken(), b"table one-joker\ndeck 53\n".as_slice());
    Ok(())
}
