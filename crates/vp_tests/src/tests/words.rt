//! Words that need no input, the arguments, and the codes.

use crate::tests::deal::{ROYAL_DRAW, ROYAL_DRAW_ANSWER};
use crate::tests::tables::joined;
use std::test::*;
use vp_io::{MemSink, MemSource, PureSource};
use vp_pay::samples::JACKS;
use vp_run::{Status, run, vpoker};

#[test]
fn words_that_are_no_command_read_nothing(rt: HostRuntime) {
    let cases: [&[&str]; 29] = [
        &[],
        &["certify", "0"],
        &["certify", "6"],
        &["certify", "01"],
        &["certify"],
        &["certify", "1", "1"],
        &["deal"],
        &["deal", "01"],
        &["deal", "6"],
        &["deal", "1", "1"],
        &["check", "1"],
        &["check", "0", "1"],
        &["check", "01", "1"],
        &["check", "1", "00"],
        &["check", "1", "200001"],
        &["check", "200001", "1"],
        &["check", "1", "1", "1"],
        &["replay", "1"],
        &["meter", "0", "royal", "0", "1"],
        &["meter", "1", "Royal", "0", "1"],
        &["meter", "1", "royal", "5", "4"],
        &["meter", "1", "royal", "0", "500001"],
        &["meter", "1", "royal", "0"],
        &["meter", "1", "royal", "0", "1", "1"],
        &["compile", "1"],
        &["compile", "6", "0"],
        &["compile", "1", "1000001"],
        &["compile", "1", "0", "0"],
        &["tables", "1"],
    ];
    for words in cases {
        let mut source = MemSource::new(b"coins 1\n", 100, &[1]);
        let mut room = [0; 16];
        let mut sink = MemSink::new(&mut room, 4, &[]);
        let status = vpoker(rt.alloc(), words, &mut source, &mut sink);
        assert_eq!(rt; status, Status::Usage);
        assert_eq!(rt; sink.taken(), b"usage\n".as_slice());
    }
}

#[test]
fn the_codes_are_zero_to_seven(rt: HostRuntime) {
    let statuses = [
        Status::Done,
        Status::Finding,
        Status::Usage,
        Status::Refused,
        Status::ReadFault,
        Status::WriteFault,
        Status::NoMemory,
        Status::TooLong,
    ];
    for (code, status) in (0u8..8).zip(statuses) {
        assert_eq!(rt; status.code(), code);
    }
}

#[test]
fn the_tables_read_no_input(rt: HostRuntime) {
    let mut source = MemSource::new(b"", 1, &[1]);
    let mut room = [0; 4096];
    let mut sink = MemSink::new(&mut room, 100, &[]);
    let status = vpoker(rt.alloc(), &["tables"], &mut source, &mut sink);
    assert_eq!(rt; status, Status::Done);
    assert!(rt; sink.taken().starts_with(b"table jacks-9-6\ndeck 52\n"));
    assert!(rt;
        sink.taken()
            .ends_with(b"line high-pair pair KA either 1 2 3 4 5\nend\n")
    );
}

#[test]
fn arguments_behind_the_program_name(rt: HostRuntime) -> Result<(), Fail> {
    let cases: [(&[&str], u8, &[u8]); 5] = [
        (&["vpoker", "deal", "1"], 0, ROYAL_DRAW_ANSWER),
        (&["deal", "deal", "2"], 3, b"refused 14\n"),
        (&["deal", "1"], 2, b"usage\n"),
        (&[], 2, b"usage\n"),
        (
            &["vpoker", "deal", "1", "1", "1", "1", "1", "1"],
            2,
            b"usage\n",
        ),
    ];
    let input = joined(rt.alloc(), JACKS, ROYAL_DRAW)?;
    for (texts, code, text) in cases {
        let mut arguments = Vec::new(rt.alloc());
        for argument in texts {
            arguments.push(String::from_str(rt.alloc(), argument)?)?;
        }
        let mut source = PureSource::new(&input);
        let mut room = [0; 512];
        let sink = MemSink::new(&mut room, 512, &[]);
        let (ended, sink) = run(rt.alloc(), arguments.into_iter(), &mut source, sink);
        assert_eq!(rt; ended, code);
        assert_eq!(rt; sink.taken(), text);
    }
    Ok(())
}
