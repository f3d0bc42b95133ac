//! Reads and writes that fail, and the longest input.

use crate::tests::deal::{ROYAL_DRAW, ROYAL_DRAW_ANSWER};
use crate::tests::tables::{ROOM, answered, joined};
use std::test::*;
use vp_io::{CountSink, MemSink, MemSource, PureSource};
use vp_pay::samples::{JACKS, ONE_JOKER, ZERO};
use vp_run::{Status, vpoker, vpoker_in_blocks};

#[test]
fn every_read_fails_once(rt: HostRuntime) -> Result<(), Fail> {
    let input = joined(rt.alloc(), JACKS, ROYAL_DRAW)?;
    // Four reads bring the input, and the fifth its end.
    for k in 1..8u32 {
        let fails = [k];
        let mut source = MemSource::new(&input, 100, &fails);
        let mut room = [0; 512];
        let mut sink = MemSink::new(&mut room, 100, &[]);
        let status = vpoker(rt.alloc(), &["deal", "1"], &mut source, &mut sink);
        if k <= 5 {
            assert_eq!(rt; status, Status::ReadFault);
            assert_eq!(rt; sink.taken().len(), 0);
        } else {
            assert_eq!(rt; status, Status::Done);
            assert_eq!(rt; sink.taken(), ROYAL_DRAW_ANSWER);
        }
    }
    Ok(())
}

#[test]
fn every_write_fails_once(rt: HostRuntime) -> Result<(), Fail> {
    let input = joined(rt.alloc(), JACKS, ROYAL_DRAW)?;
    // Four lines are four writes.
    for k in 1..7u32 {
        let fails = [k];
        let mut source = PureSource::new(&input);
        let mut room = [0; 512];
        let mut sink = MemSink::new(&mut room, 100, &fails);
        let status = vpoker(rt.alloc(), &["deal", "1"], &mut source, &mut sink);
        let taken = sink.taken();
        if k <= 4 {
            assert_eq!(rt; status, Status::WriteFault);
            assert!(rt; taken.len() < ROYAL_DRAW_ANSWER.len());
            assert!(rt; ROYAL_DRAW_ANSWER.starts_with(taken));
        } else {
            assert_eq!(rt; status, Status::Done);
            assert_eq!(rt; taken, ROYAL_DRAW_ANSWER);
        }
    }
    Ok(())
}

// The first read brings the input, and the second its end. The texts have two lines or more, which are a write each.
#[test]
fn faults_of_each_command(rt: HostRuntime) -> Result<(), Fail> {
    let cases: [(&[&str], &[u8], &[u8]); 7] = [
        (&["audit", "1"], ONE_JOKER, b"list\nrule hold 1\nend\n"),
        (
            &["compile", "1", "0"],
            ONE_JOKER,
            b"pool\nrule hold 1\nend\n",
        ),
        (&["replay"], ONE_JOKER, b"log 7\nend\n"),
        (&["meter", "1", "joker", "0", "1"], ONE_JOKER, b""),
        (&["multi", "1", "2"], ONE_JOKER, b""),
        (&["hits", "1"], ONE_JOKER, b""),
        (&["play", "1", "0", "1"], ZERO, b""),
    ];
    for (words, table, section) in cases {
        let input = joined(rt.alloc(), table, section)?;
        let (_, due) = answered(rt.alloc(), words, &input, ROOM)?;
        for k in [1, 2] {
            let fails = [k];
            let mut source = MemSource::new(&input, 512, &fails);
            let mut room = [0; 512];
            let mut sink = MemSink::new(&mut room, 512, &[]);
            let status = vpoker(rt.alloc(), words, &mut source, &mut sink);
            assert_eq!(rt; status, Status::ReadFault);
            assert_eq!(rt; sink.taken().len(), 0);
            let mut whole = PureSource::new(&input);
            let mut taken = [0; 512];
            let mut sink = MemSink::new(&mut taken, 512, &fails);
            let status = vpoker(rt.alloc(), words, &mut whole, &mut sink);
            assert_eq!(rt; status, Status::WriteFault);
            assert_eq!(rt; sink.taken().is_empty(), k == 1);
            assert!(rt; sink.taken().len() < due.len());
            assert!(rt; due.starts_with(sink.taken()));
        }
    }
    Ok(())
}

#[test]
fn one_byte_a_call(rt: HostRuntime) -> Result<(), Fail> {
    let input = joined(rt.alloc(), JACKS, ROYAL_DRAW)?;
    let mut source = MemSource::new(&input, 1, &[]);
    let mut room = [0; 512];
    let mut sink = MemSink::new(&mut room, 1, &[]);
    let status = vpoker(rt.alloc(), &["deal", "1"], &mut source, &mut sink);
    assert_eq!(rt; status, Status::Done);
    assert_eq!(rt; sink.taken(), ROYAL_DRAW_ANSWER);
    Ok(())
}

#[test]
fn no_room_and_no_telling(rt: HostRuntime) -> Result<(), Fail> {
    let mut source = PureSource::new(b"");
    let mut none = [];
    let mut full = MemSink::new(&mut none, 100, &[]);
    let status = vpoker(rt.alloc(), &["certify", "0"], &mut source, &mut full);
    assert_eq!(rt; status, Status::WriteFault);
    assert_eq!(rt; full.taken().len(), 0);
    let input = joined(rt.alloc(), JACKS, ROYAL_DRAW)?;
    let mut pure = PureSource::new(&input);
    let mut count = CountSink::new();
    let status = vpoker(rt.alloc(), &["deal", "1"], &mut pure, &mut count);
    assert_eq!(rt; status, Status::Done);
    Ok(())
}

#[test]
fn the_longest_input(rt: HostRuntime) -> Result<(), Fail> {
    let mut input = vec![in rt.alloc(); b'\n'; 67_108_865]?;
    for command in ["deal", "certify"] {
        let mut long = PureSource::new(&input);
        let mut room = [0; 32];
        let mut sink = MemSink::new(&mut room, 100, &[]);
        let status = vpoker(rt.alloc(), &[command, "1"], &mut long, &mut sink);
        assert_eq!(rt; status, Status::TooLong);
        assert_eq!(rt; sink.taken().len(), 0);
    }
    input.pop();
    for command in ["deal", "certify"] {
        let mut fits = PureSource::new(&input);
        let mut room = [0; 32];
        let mut sink = MemSink::new(&mut room, 100, &[]);
        let status = vpoker(rt.alloc(), &[command, "1"], &mut fits, &mut sink);
        assert_eq!(rt; status, Status::Refused);
        assert_eq!(rt; sink.taken(), b"refused 67108865\n".as_slice());
    }
    Ok(())
}

// The text of `deal` is one block, so it is one write where the sink takes it whole.
#[test]
fn a_block_of_lines(rt: HostRuntime) -> Result<(), Fail> {
    let input = joined(rt.alloc(), JACKS, ROYAL_DRAW)?;
    let length = ROYAL_DRAW_ANSWER.len();
    // The most bytes a write, the write that fails, and how many bytes came before it.
    let cases: [(usize, u32, usize); 6] = [
        (512, 1, 0),
        (512, 2, length),
        (1, 1, 0),
        (1, 9, 8),
        (1, length as u32, length.saturating_sub(1)),
        (1, length as u32 + 1, length),
    ];
    for (step, fails, taken) in cases {
        let listed = [fails];
        let mut source = PureSource::new(&input);
        let mut room = [0; 512];
        let sink = MemSink::new(&mut room, step, &listed);
        let (status, sink) = vpoker_in_blocks(rt.alloc(), &["deal", "1"], &mut source, sink);
        let due = if taken < length {
            Status::WriteFault
        } else {
            Status::Done
        };
        assert_eq!(rt; status, due);
        assert_eq!(rt; Some(sink.taken()), ROYAL_DRAW_ANSWER.get(..taken));
    }
    let mut none = [];
    let sink = MemSink::new(&mut none, 100, &[]);
    let mut source = PureSource::new(&input);
    let (status, _) = vpoker_in_blocks(rt.alloc(), &["deal", "1"], &mut source, sink);
    assert_eq!(rt; status, Status::WriteFault);
    for k in 1..6u32 {
        let fails = [k];
        let mut source = MemSource::new(&input, 100, &fails);
        let mut room = [0; 512];
        let sink = MemSink::new(&mut room, 512, &[]);
        let (status, sink) = vpoker_in_blocks(rt.alloc(), &["deal", "1"], &mut source, sink);
        assert_eq!(rt; status, Status::ReadFault);
        assert_eq!(rt; sink.taken().len(), 0);
    }
    Ok(())
}

// A certificate is put in blocks of 65536 bytes; the last one is short.
#[test]
fn blocks_of_a_certificate(rt: HostRuntime) -> Result<(), Fail> {
    let (_, due) = answered(rt.alloc(), &["certify", "1"], JACKS, ROOM)?;
    // The last of 72 blocks is short.
    let blocks = 72u32;
    assert!(rt; due.len() > 71 * 65_536 && due.len() < 72 * 65_536);
    for fails in [1, 2, 40, blocks, blocks + 1] {
        let listed = [fails];
        let mut room = vec![in rt.alloc(); 0; ROOM]?;
        let mut source = PureSource::new(JACKS);
        let sink = MemSink::new(&mut room, 65_536, &listed);
        let (status, sink) = vpoker_in_blocks(rt.alloc(), &["certify", "1"], &mut source, sink);
        let whole = fails > blocks;
        assert_eq!(rt;
            status,
            if whole {
                Status::Done
            } else {
                Status::WriteFault
            }
        );
        let taken = if whole {
            due.len()
        } else {
            (fails.saturating_sub(1) as usize).saturating_mul(65_536)
        };
        assert_eq!(rt; Some(sink.taken()), due.get(..taken));
    }
    Ok(())
}
