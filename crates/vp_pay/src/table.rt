//! A pay table and its lines.

ghost use Rattle.std.specs.Prelude.{◌≡◌, ◌<◌, length, bytes_eq, IfSome};
ghost use Rattle.std.specs.List.{position};

use crate::{Name, Pattern, Qualifier};
use arrayvec::ArrayVec;

/// A line of a pay table.
#[derive(Debug, Default, PartialEq, Eq, Drop)]
pub struct PayLine {
    pub name: Name,
    pub pattern: Pattern,
    pub qualifier: Qualifier,
    /// The whole payment for a bet of 1 to 5 coins; columns above the table's coins are 0.
    pub pays: [u32; 5],
}

/// A pay table; a hand is paid by the first line that it matches.
#[derive(Debug, PartialEq, Eq, Drop)]
pub struct PayTable {
    pub name: Name,
    /// The number of cards: the 52 natural cards, and none, one or two jokers.
    pub deck: u8,
    /// The rank that is wild besides the joker, 0 for twos to 12 for aces.
    pub wild: Option<u8>,
    /// The greatest bet.
    pub coins: u8,
    pub lines: ArrayVec<PayLine, 32>,
}

impl PayTable {
    /// The place of the line with this name, from 0; None where no line has it.
    pub fn position(&self, name: &[u8]) -> Option<u8>
        ensures value { result ≡ position (λ line. bytes_eq line.name name.now) self.now.lines.items }
        ensures below { IfSome result (λ place. place < length self.now.lines.items) }
    {
        let place = place_of(&self.lines, name)?;
        Some(place as u8)
    }
}

fn place_of(lines: &[PayLine], name: &[u8]) -> Option<usize>
    ensures value { result ≡ position (λ line. bytes_eq line.name name.now) lines.now }
    ensures below { IfSome result (λ place. place < length lines.now) }
{
    lines.iter().position(|line| line.name.text() == name)
}
