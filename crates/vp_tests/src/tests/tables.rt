//! What a command answers to an input, for the tests of several commands.

use std::alloc::{AllocError, Global};
use vp_io::{MemSink, PureSource};
use vp_pay::PayTable;
use vp_run::{Status, vpoker};

/// More bytes than the certificate of a deck of 54 cards has.
pub(crate) const ROOM: usize = 8_000_000;

/// One text behind another.
pub(crate) fn joined(alloc: Global, front: &[u8], back: &[u8]) -> Result<Vec<u8>, AllocError> {
    let mut text = Vec::new(alloc);
    text.extend_from_slice(front)?;
    text.extend_from_slice(back)?;
    Ok(text)
}

/// A built-in table with a deal behind it.
pub(crate) fn built_in_deal(alloc: Global, table: u8, deal: &[u8]) -> Result<Vec<u8>, AllocError> {
    let mut room = [0; 2048];
    let mut sink = MemSink::new(&mut room, 2048, &[]);
    if let Some(table) = PayTable::built_in(table) {
        let _ = table.write(&mut sink);
    }
    joined(alloc, sink.taken(), deal)
}

/// The status with which words end on an input, and the text that they write. There is room for so many bytes.
pub(crate) fn answered(
    alloc: Global,
    words: &[&str],
    input: &[u8],
    length: usize,
) -> Result<(Status, Vec<u8>), AllocError> {
    let mut room = vec![in alloc; 0; length]?;
    let mut source = PureSource::new(input);
    let mut sink = MemSink::new(&mut room, 65_536, &[]);
    let status = vpoker(alloc, words, &mut source, &mut sink);
    let text = joined(alloc, sink.taken(), b"")?;
    Ok((status, text))
}
