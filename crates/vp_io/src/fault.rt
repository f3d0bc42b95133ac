//! The answers of a source, a sink and the calls over them that are not Ok.

use thiserror::Error;

/// A read or a write that failed. The object that answers it has counted it.
#[derive(Clone, Copy, Debug, Drop, Error, PartialEq, Eq)]
#[error("a read or a write failed")]
pub struct Failed;

/// A text of which the sink took only a part, since a write failed.
#[derive(Clone, Copy, Debug, Drop, Error, PartialEq, Eq)]
#[error("a write failed")]
pub struct WriteFault;

/// Why the bytes of a source are not there.
#[derive(Clone, Copy, Debug, Drop, Error, PartialEq, Eq)]
pub enum ReadStop {
    /// A read failed.
    #[error("a read failed")]
    ReadFault,
    /// The source gave one byte more than the limit.
    #[error("the input is too long")]
    TooLong,
    /// There was no memory for the bytes.
    #[error("out of memory")]
    NoMemory,
}
