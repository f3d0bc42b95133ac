//! The laws of a game by their names, and a law that is broken.

/// A law of a game, in the order of testing.
#[derive(Clone, Copy, Debug, PartialEq, Eq)]
pub enum LogRule {
    /// The bet is 1 to the coins of the table.
    Bet,
    /// The bet is within the credits before the game.
    Funds,
    /// No dealt card equals an earlier one.
    Deal,
    /// Each held card was dealt, and equals no earlier held one.
    Hold,
    /// Held and drawn cards together are five.
    Count,
    /// No drawn card was dealt, or equals an earlier drawn one.
    Draw,
    /// The pay is the payment of the held and drawn cards for the bet.
    Pay,
    /// The credits are those before the game, less the bet, plus the pay.
    Credits,
}

/// A broken law of a game: the number that the log says, and the number due. For a card these are its place in its row,
/// counted from 1, and its number.
#[derive(Clone, Copy, Debug, PartialEq, Eq)]
pub(crate) struct Breach {
    pub rule: LogRule,
    pub said: u64,
    pub due: u64,
}

/// The first game of a log that breaks a law, counted from 1, with its first broken law: the number that the log says,
/// and the number due. For a card these are its place in its row, counted from 1, and its number.
#[derive(Clone, Copy, Debug, PartialEq, Eq)]
pub struct Broken {
    pub game: u32,
    pub rule: LogRule,
    pub said: u64,
    pub due: u64,
}
