//! A reader of a table of sums that counts its reads.

use crate::{SumTable, Sums};
use std::marker::Model;

/// Tells the sums of a table, and counts how many were read. The count stands still at 2^64 - 1.
#[derive(Drop)]
pub struct Reads<'a> {
    table: &'a SumTable<'a>,
    count: u64,
}

impl<'a> Model for Reads<'a> {
    ghost use Rattle.vp_count.specs.Sums.{Reading};

    ghost Value = { Reading };

    ghost view = { λ r. record { size = r.table.now.size; numbers = r.table.now.numbers; count = r.count } };
}

impl<'a> Reads<'a> {
    ghost use Rattle.std.specs.Prelude.{◌≡◌};

    /// A reader that has read nothing.
    pub fn new(table: &'a SumTable<'a>) -> Reads<'a>
        ensures size { result.size ≡ table.now.size }
        ensures numbers { result.numbers ≡ table.now.numbers }
        ensures unread { result.count ≡ 0 }
    {
        Reads { table, count: 0 }
    }
}

impl<'a> Sums for Reads<'a> {
    ghost size = { λ r. r.size };

    ghost numbers = { λ r. r.numbers };

    ghost reads = { λ r. r.count };

    #[tactic(auto, unfolding(crate::specs::Sums::one_more))]
    fn at(&mut self, set: &[u8]) -> u64 {
        self.count = self.count.saturating_add(1);
        self.table.at(set)
    }

    #[tactic(auto, unfolding(crate::specs::Sums::raised_by))]
    fn held_sums(&mut self, hand: &[u8; 5]) -> [u64; 32] {
        self.count = self.count.saturating_add(32);
        self.table.held_sums(hand)
    }
}
