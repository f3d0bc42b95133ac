//! Texts through a sink that holds bytes back, over a sink that fails at each of its writes in turn.

use std::alloc::{AllocError, Global};
use std::test::Fail;
use vp_io::{Blocks, MemSink, WriteFault, put};

/// Where the text was left.
#[derive(Clone, Copy, Debug, Drop, PartialEq, Eq)]
enum End {
    Whole,
    /// A write failed at the end, when what was held back was put.
    AtTheEnd,
    /// A write failed when the block was full.
    AtABlock,
}

/// Puts the text in blocks.
fn put_in_blocks<'a>(text: &[u8], sink: MemSink<'a>) -> (MemSink<'a>, End) {
    let mut blocks = Blocks::new(sink);
    if put(&mut blocks, text).is_err() {
        return (blocks.stop(), End::AtABlock);
    }
    match blocks.finish() {
        (sink, Ok(())) => (sink, End::Whole),
        (sink, Err(WriteFault)) => (sink, End::AtTheEnd),
    }
}

/// The sink below: its room, how many bytes a write takes, and the number of the write that fails.
type Below = (usize, usize, u32);

/// Whether the text ends so, and as many of its first bytes come through, and no more.
fn comes_through(
    alloc: Global,
    text: &[u8],
    below: Below,
    end: End,
    kept: usize,
) -> Result<bool, AllocError> {
    let (size, step, fault) = below;
    let fails = [fault];
    let mut room = vec![in alloc; 0u8; size]?;
    let (sink, ended) = put_in_blocks(text, MemSink::new(&mut room, step.max(1), &fails));
    let kept = kept.min(text.len());
    Ok(ended == end && sink.taken() == &text[..kept])
}

/// A text of this length.
fn text_of(alloc: Global, length: usize) -> Result<Vec<u8>, AllocError> {
    let mut text = vec![in alloc; 0u8; length]?;
    for (place, byte) in text.iter_mut().enumerate() {
        *byte = (place % 251) as u8;
    }
    Ok(text)
}

/// Two blocks of 65536 bytes, and 100 more.
const LENGTH: usize = 131_172;

/// The length of the text, the sink below, the end, and how many bytes come through.
const CASES: [(usize, Below, End, usize); 16] = [
    (LENGTH, (LENGTH, 30_000, 1), End::AtABlock, 0),
    (LENGTH, (LENGTH, 30_000, 2), End::AtABlock, 30_000),
    (LENGTH, (LENGTH, 30_000, 3), End::AtABlock, 60_000),
    (LENGTH, (LENGTH, 30_000, 4), End::AtABlock, 65_536),
    (LENGTH, (LENGTH, 30_000, 5), End::AtABlock, 95_536),
    (LENGTH, (LENGTH, 30_000, 6), End::AtABlock, 125_536),
    (LENGTH, (LENGTH, 30_000, 7), End::AtTheEnd, 131_072),
    (LENGTH, (LENGTH, 30_000, 8), End::Whole, LENGTH),
    (LENGTH, (LENGTH, 1, 65_536), End::AtABlock, 65_535),
    (LENGTH, (LENGTH, 1, LENGTH as u32), End::AtTheEnd, 131_171),
    (LENGTH, (131_072, LENGTH, 0), End::AtTheEnd, 131_072),
    (LENGTH, (65_536, 1, 0), End::AtABlock, 65_536),
    (LENGTH, (0, 1, 0), End::AtABlock, 0),
    (0, (0, 1, 1), End::Whole, 0),
    (2, (0, 1, 0), End::AtTheEnd, 0),
    (2, (2, 1, 2), End::AtTheEnd, 1),
];

#[test]
fn each_write_below_fails_in_turn(rt: HostRuntime) -> Result<(), Fail> {
    for (length, below, end, kept) in CASES {
        let text = text_of(rt.alloc(), length)?;
        let is_due = comes_through(rt.alloc(), &text, below, end, kept)?;
        assert!(rt; is_due, "{length} bytes over {below:?}");
    }
    Ok(())
}

#[test]
fn nothing_is_put_twice_after_a_fault(rt: HostRuntime) -> Result<(), Fail> {
    let mut text = text_of(rt.alloc(), 65_536)?;
    let mut room = text_of(rt.alloc(), 65_538)?;
    let mut blocks = Blocks::new(MemSink::new(&mut room, 30_000, &[2, 4]));
    assert_eq!(rt; put(&mut blocks, &text), Ok(()));
    assert_eq!(rt; put(&mut blocks, b"ab"), Err(WriteFault));
    assert_eq!(rt; put(&mut blocks, b"cd"), Err(WriteFault));
    assert_eq!(rt; put(&mut blocks, b"ef"), Ok(()));
    let (sink, outcome) = blocks.finish();
    assert_eq!(rt; outcome, Ok(()));
    text.extend_from_slice(b"ef")?;
    assert_eq!(rt; sink.taken(), text.as_slice());
    Ok(())
}
