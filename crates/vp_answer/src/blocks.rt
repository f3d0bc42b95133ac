//! The end of an answer that was held back in blocks.

ghost use Rattle.vp_answer.specs.Closing.{Closed};

use crate::Status;
use vp_io::{Blocks, Sink, WriteFault};

/// Puts what is held back where the answer is whole, and gives the sink below.
pub fn close<K: Sink>(status: Status, blocks: Blocks<K>) -> (Status, K)
    ensures { Closed status blocks (K.told result.1) result.0 }
{
    match status {
        Status::ReadFault | Status::WriteFault | Status::NoMemory | Status::TooLong => {
            (status, blocks.stop())
        }
        Status::Done | Status::Finding | Status::Usage | Status::Refused => {
            let (sink, put) = blocks.finish();
            match put {
                Ok(()) => (status, sink),
                Err(WriteFault) => (Status::WriteFault, sink),
            }
        }
    }
}
