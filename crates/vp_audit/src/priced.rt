//! What a list says of a class.

/// What decides a deal.
#[derive(Clone, Copy, Debug, PartialEq, Eq)]
pub(crate) enum Decided {
    /// The exception of its class.
    Except,
    /// The rule at this place, from 0.
    ByRule(u8),
    /// Nothing, so that nothing is held.
    Nothing,
}

/// What decides a deal, the value of its best hold, and the least and the greatest value of the holds that the list allows.
#[derive(Clone, Copy, Debug, PartialEq, Eq)]
pub(crate) struct Priced {
    pub by: Decided,
    pub best: u64,
    pub least: u64,
    pub greatest: u64,
}
