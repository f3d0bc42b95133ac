//! Why a CSV text is not read.

/// Why a CSV text of sessions is not read.
#[derive(Clone, Copy, Debug, PartialEq, Eq)]
pub enum CsvStop {
    /// The record with this number, counted from 1, is the first that breaks its rule, or 1 where there is no record.
    Record { place: u32 },
    /// There is no memory.
    NoMemory,
}
