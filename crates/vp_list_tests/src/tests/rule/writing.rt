//! The lines of strategy cards, written as they were read.

ghost use Rattle.std.specs.Prelude.{◌<◌, ◌≤◌, length, IfSome};
ghost use Rattle.vp_pay.specs.Table.{IsTable};
ghost use Rattle.vp_rule.specs.Valid.{IsList};

use arrayvec::ArrayVec;
use std::test::*;
use vp_io::{MemSink, Sink, WriteFault};
use vp_pay::PayTable;
use vp_pay::samples::JACKS;
use vp_rule::List;
use vp_text::Lines;

/// The list that a text begins with.
pub(super) fn list_in<'a>(text: &'a [u8], table: &PayTable) -> Option<List<'a>>
    requires table { IsTable table.now }
    requires short { length text.now ≤ 67108864 }
    ensures { IfSome result (λ list. IsList table.now list) }
{
    List::read(&mut Lines::new(text), table).ok()
}

/// Writes the first rule of a list.
fn write_first<K: Sink>(list: &List, table: &PayTable, sink: &mut K) -> Result<(), WriteFault>
    requires list { IsList table.now list.now }
    requires some { 0 < length list.now.rules }
{
    list.rules()[0].write(table, sink)
}

#[test]
fn usual_lines(rt: HostRuntime) -> Result<(), Fail> {
    let table = PayTable::in_text(JACKS).ok_or("a table")?;
    let cases: [&[u8]; 11] = [
        b"rule hold 4 royal\n",
        b"rule hold 2 equal 2 count JQKA 2 2\n",
        b"rule hold 4 equal 2 ranks 2\n",
        b"rule hold 4 windows 2 2\n",
        b"rule hold 4 suited\n",
        b"rule hold 5 made straight\n",
        b"rule hold 4 suited windows 1 10\n",
        b"rule hold 0 left any 5\n",
        b"rule hold 4 suited leftsuit 1\n",
        b"rule wilds 0 mixed count 23456789TJQK 0 5 left A 3\n",
        b"rule count 23456789TJQK 0 5 count 23456789TJQK 0 5 count 23456789TJQK 0 5 count 23456789TJQK 0 5 count 23456789TJQK 0 5 count 23456789TJQK 0 5 count 23456789TJQK 0 5 count 23456789TJQK 0 5\n",
    ];
    for line in cases {
        let mut text = ArrayVec::<u8, 256>::new();
        text.try_extend_from_slice(b"list 2\n")?;
        text.try_extend_from_slice(line)?;
        text.try_extend_from_slice(b"end\n")?;
        let list = list_in(&text, &table).ok_or("a list")?;
        assert_eq!(rt; list.rules().len(), 1);
        let mut room = [0; 256];
        let mut sink = MemSink::new(&mut room, 100, &[]);
        assert_eq!(rt; write_first(&list, &table, &mut sink), Ok(()));
        assert_eq!(rt; sink.taken(), line);
        let mut sink = MemSink::new(&mut room, 7, &[2]);
        assert_eq!(rt; write_first(&list, &table, &mut sink), Err(WriteFault));
        assert_eq!(rt; sink.taken().len(), 7);
    }
    Ok(())
}
