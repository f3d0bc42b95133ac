//! A turn of the suits: one of the 24 permutations.

ghost use Rattle.std.specs.Prelude.{◌≡◌, ◌+◌, ◌<◌, Some, None, if◌then◌else◌, nat_lt};
ghost use Rattle.vp_suit.specs.Turns.{turned, turned_suit};

use std::marker::Model;

/// The suits that clubs, diamonds, hearts and spades become, by each turn.
const SUITS: [[u8; 4]; 24] = [
    [0, 1, 2, 3],
    [0, 1, 3, 2],
    [0, 2, 1, 3],
    [0, 2, 3, 1],
    [0, 3, 1, 2],
    [0, 3, 2, 1],
    [1, 0, 2, 3],
    [1, 0, 3, 2],
    [1, 2, 0, 3],
    [1, 2, 3, 0],
    [1, 3, 0, 2],
    [1, 3, 2, 0],
    [2, 0, 1, 3],
    [2, 0, 3, 1],
    [2, 1, 0, 3],
    [2, 1, 3, 0],
    [2, 3, 0, 1],
    [2, 3, 1, 0],
    [3, 0, 1, 2],
    [3, 0, 2, 1],
    [3, 1, 0, 2],
    [3, 1, 2, 0],
    [3, 2, 0, 1],
    [3, 2, 1, 0],
];

/// A turn of the suits, by its place among the permutations in lexicographic order, from 0.
#[derive(Clone, Copy, Debug, PartialEq, Eq, PartialOrd, Ord)]
pub struct SuitTurn(u8);

impl Model for SuitTurn {
    ghost use Rattle.std.specs.Prelude.{ℕ, ◌<◌};

    ghost Value = { ℕ };

    ghost view = { λ t. t.0 };

    ghost invariant = { λ t. t.0 < 24 };

    ghost inverse = { λ number. record { 0 = number } };
}

impl SuitTurn {
    /// The turn with this number.
    pub fn new(i: u8) -> Option<SuitTurn>
        ensures { result ≡ (if nat_lt i 24 then Some i else None) }
    {
        if i < 24 { Some(SuitTurn(i)) } else { None }
    }

    /// The turn's number, 0 to 23.
    pub fn number(self) -> u8
        ensures value { result ≡ self }
        ensures below { self < 24 }
    {
        self.0
    }

    /// The turn that changes nothing.
    pub(crate) fn first() -> SuitTurn
        ensures { result ≡ 0 }
    {
        SuitTurn(0)
    }

    /// The next turn.
    pub(crate) fn following(self) -> SuitTurn
        requires { self + 1 < 24 }
        ensures { result ≡ self + 1 }
    {
        SuitTurn(self.0 + 1)
    }

    /// The number of the card that the turn makes of the card with this number.
    pub(crate) fn of_card(self, card: u8) -> u8
        requires { card < 54 }
        ensures value { result ≡ turned self card }
        ensures below { result < 54 }
    {
        if card < 52 {
            4 * (card / 4) + self.of_suit(card % 4)
        } else {
            card
        }
    }

    fn of_suit(self, suit: u8) -> u8
        requires { suit < 4 }
        ensures value { result ≡ turned_suit self suit }
        ensures below { result < 4 }
    {
        SUITS[usize::from(self.0)][usize::from(suit)]
    }
}
