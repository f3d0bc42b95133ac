//! The lines of lists and pools.

ghost use Rattle.std.specs.Prelude.{◌≤◌, length};
ghost use Rattle.vp_pay.specs.Table.{IsTable};

use arrayvec::ArrayVec;
use std::test::*;
use vp_pay::PayTable;
use vp_pay::samples::ONE_JOKER;
use vp_rule::{List, Pool, Test};
use vp_text::Lines;

/// The line at which a text is refused as a list, and 0 where it is read.
fn refused_list(table: &PayTable, text: &[u8]) -> u32
    requires table { IsTable table.now }
    requires short { length text.now ≤ 67108864 }
{
    match List::read(&mut Lines::new(text), table) {
        Ok(_) => 0,
        Err(refused) => refused.line,
    }
}

/// The line at which a text is refused as a pool, and 0 where it is read.
fn refused_pool(table: &PayTable, text: &[u8]) -> u32
    requires table { IsTable table.now }
    requires short { length text.now ≤ 67108864 }
{
    match Pool::read(&mut Lines::new(text), table) {
        Ok(_) => 0,
        Err(refused) => refused.line,
    }
}

#[test]
fn first_and_last_lines(rt: HostRuntime) -> Result<(), Fail> {
    let table = PayTable::in_text(ONE_JOKER).ok_or("a table")?;
    let lists: [(&[u8], u32); 10] = [
        (b"list\nend\n", 0),
        (b"# a card\n\nlist 2\nend", 0),
        (b"list 1\nend\n", 1),
        (b"list 3\nend\n", 1),
        (b"list 2 2\nend\n", 1),
        (b"pool\nrule hold 0\nend\n", 1),
        (b"", 1),
        (b"list\n", 2),
        (b"list\nrule hold 0\n", 3),
        (b"list\nrule hold 0\nend 2\n", 3),
    ];
    for (text, line) in lists {
        assert_eq!(rt; refused_list(&table, text), line);
    }
    let pools: [(&[u8], u32); 7] = [
        (b"pool\nrule hold 0\nend\n", 0),
        (b"pool 2\nrule hold 0 left any 5\nend\n", 0),
        (b"pool\nrule hold 0 left any 5\nend\n", 2),
        (b"pool\nend\n", 2),
        (b"pool 1\nrule hold 0\nend\n", 1),
        (b"list\nrule hold 0\nend\n", 1),
        (b"pool\nexcept 2c 2h 3c 3d Jo 16\nend\n", 2),
    ];
    for (text, line) in pools {
        assert_eq!(rt; refused_pool(&table, text), line);
    }
    Ok(())
}

// Each line is taken in a list of version 2, and in one of version 1; else it is the line that is refused.
#[test]
fn rule_lines(rt: HostRuntime) -> Result<(), Fail> {
    let table = PayTable::in_text(ONE_JOKER).ok_or("a table")?;
    let cases: [(&[u8], bool, bool); 22] = [
        (b"rule hold 0", true, true),
        (
            b"rule hold 5 hold 5 hold 5 hold 5 hold 5 hold 5 hold 5 hold 5",
            true,
            true,
        ),
        (
            b"rule hold 0 hold 0 hold 0 hold 0 hold 0 hold 0 hold 0 hold 0 hold 0",
            false,
            false,
        ),
        (b"rule", false, false),
        (b"rule hold", false, false),
        (b"rule hold 6", false, false),
        (b"rule hold 05", false, false),
        (b"rule equal 5 ranks 5 wilds 5", true, true),
        (b"rule windows 0 10", true, true),
        (b"rule windows 10 10", true, true),
        (b"rule windows 0 11", false, false),
        (b"rule windows 3 2", false, false),
        (b"rule count any 0 5", true, true),
        (b"rule count any 0 6", false, false),
        (b"rule count A2 0 5", false, false),
        (b"rule count 23456789TJQKA 0 5", false, false),
        (b"rule made joker", true, true),
        (b"rule made jokers", false, false),
        (b"rule left any 5", true, false),
        (b"rule leftsuit 0", true, false),
        (b"rule left any 6", false, false),
        (b"rules hold 0", false, false),
    ];
    for (line, second, first) in cases {
        let mut text = ArrayVec::<u8, 128>::new();
        text.try_extend_from_slice(b"list\n")?;
        text.try_extend_from_slice(line)?;
        text.try_extend_from_slice(b"\nend\n")?;
        assert_eq!(rt; refused_list(&table, &text), if first { 0 } else { 2 });
        let mut text = ArrayVec::<u8, 128>::new();
        text.try_extend_from_slice(b"list 2\n")?;
        text.try_extend_from_slice(line)?;
        text.try_extend_from_slice(b"\nend\n")?;
        assert_eq!(rt; refused_list(&table, &text), if second { 0 } else { 2 });
    }
    Ok(())
}

#[test]
fn exception_lines(rt: HostRuntime) -> Result<(), Fail> {
    let table = PayTable::in_text(ONE_JOKER).ok_or("a table")?;
    let cases: [(&[u8], u32); 9] = [
        (b"list\nexcept 2c 2h 3c 3d Jo 16\nrule hold 0\nend\n", 0),
        // The cards rise, and another image has a lower index.
        (b"list\nexcept 2c 2d 3h 3s Jo 16\nrule hold 0\nend\n", 2),
        (
            b"list\nexcept 2c 2h 3c 3d Jo 16\nexcept 2c 2h 3c 3d Jo 16\nrule hold 0\nend\n",
            3,
        ),
        (
            b"list\nexcept 2c 2h 3c 3d Jo 16\nexcept 2c 2d 2h 2s 3c 15\nend\n",
            3,
        ),
        (b"list\nrule hold 0\nexcept 2c 2h 3c 3d Jo 16\nend\n", 3),
        (b"list\nexcept 2h 2c 3c 3d Jo 16\nend\n", 2),
        (b"list\nexcept 2c 2h 3c 3d Jo 32\nend\n", 2),
        (b"list\nexcept 2c 2h 3c 3d Jk 16\nend\n", 2),
        (b"list\nexcept 2c 2h 3c 3d Jo\nend\n", 2),
    ];
    for (text, line) in cases {
        assert_eq!(rt; refused_list(&table, text), line);
    }
    Ok(())
}

/// A first line, so many rules `hold 0`, and `end`.
fn with_rules(first: &[u8], rules: usize) -> Option<ArrayVec<u8, 2048>> {
    let mut text = ArrayVec::new();
    text.try_extend_from_slice(first).ok()?;
    for _ in 0..rules {
        text.try_extend_from_slice(b"rule hold 0\n").ok()?;
    }
    text.try_extend_from_slice(b"end\n").ok()?;
    Some(text)
}

#[test]
fn most_rules(rt: HostRuntime) -> Result<(), Fail> {
    let table = PayTable::in_text(ONE_JOKER).ok_or("a table")?;
    for (rules, line) in [(128, 0), (129, 130)] {
        let text = with_rules(b"list\n", rules).ok_or("room")?;
        assert_eq!(rt; refused_list(&table, &text), line);
    }
    for (rules, line) in [(64, 0), (65, 66)] {
        let text = with_rules(b"pool\n", rules).ok_or("room")?;
        assert_eq!(rt; refused_pool(&table, &text), line);
    }
    Ok(())
}

#[test]
fn what_is_read(rt: HostRuntime) -> Result<(), Fail> {
    let table = PayTable::in_text(ONE_JOKER).ok_or("a table")?;
    let text =
        b"list 2\nexcept 2c 2d 2h 2s 3c 15\nexcept 2c 2h 3c 3d Jo 16\nrule hold 1 made joker\nrule left any 4\nend\npool\nrule royal\nend\n";
    let mut lines = Lines::new(text);
    let list = List::read(&mut lines, &table).map_err(|_| "a list")?;
    assert_eq!(rt; list.version(), 2);
    assert_eq!(rt; list.rules().len(), 2);
    assert_eq!(rt;
        list.rules()[0].tests.as_slice(),
        [Test::Hold(1), Test::Made(0)].as_slice()
    );
    let mut exceptions = list.exceptions();
    let (hand, mask) = exceptions.next().ok_or("an exception")?;
    assert_eq!(rt; (hand.numbers(), mask), ([0, 1, 2, 3, 4], 15));
    let (hand, mask) = exceptions.next().ok_or("an exception")?;
    assert_eq!(rt; (hand.numbers(), mask), ([0, 2, 4, 5, 52], 16));
    assert!(rt; exceptions.next().is_none());
    assert!(rt; list.exceptions().next().is_some());
    let pool = Pool::read(&mut lines, &table).map_err(|_| "a pool")?;
    assert_eq!(rt; pool.version(), 1);
    assert_eq!(rt; pool.rules().len(), 1);
    assert_eq!(rt; pool.rules()[0].tests.as_slice(), [Test::Royal].as_slice());
    Ok(())
}
