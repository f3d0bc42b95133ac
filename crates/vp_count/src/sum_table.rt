//! The table of sums as a value, and a reader of it that counts its reads.

ghost use Rattle.std.specs.Prelude.{◌≡◌, ◌≤◌, length};
ghost use Rattle.std.specs.List.{All};
ghost use Rattle.vp_sets.specs.Sets.{choose};
ghost use Rattle.vp_sets.specs.Index.{IsSet};
ghost use Rattle.vp_count.specs.Sums.{AreHeldSums, containing};
ghost use Rattle.vp_count.specs.Table.{AreStarts, five_numbers, first_word};

use crate::holds::{cards_held, held_indexes};
use crate::table::{fill_levels, first_word};
use std::marker::Model;
use vp_sets::index_of;

/// The sums of the numbers of all sets of five that contain a set, for each set of at most five cards.
#[derive(Drop)]
pub struct SumTable<'a> {
    n: u8,
    starts: [usize; 6],
    words: &'a [u64],
}

impl<'a> Model for SumTable<'a> {
    ghost use Rattle.vp_count.specs.Table.{AreStarts, IsSumTable, Table, table_of};

    ghost Value = { Table };

    ghost view = { λ t. table_of t.n t.words.now };

    ghost invariant = { λ t. IsSumTable t.n t.words.now × AreStarts t.n t.starts };
}

/// The first word of each size.
fn starts(n: u8) -> [usize; 6]
    requires { n ≤ 54 }
    ensures { AreStarts n result }
{
    let mut starts = [0; 6];
    for k in 0..6u8 {
        starts[k as usize] = first_word(n, k);
    }
    starts
}

impl<'a> SumTable<'a> {
    /// Makes the table of a deck of `n` cards. The last words are the numbers of the sets of five, by their indexes;
    /// all others are written.
    pub fn fill(n: u8, words: &'a mut [u64]) -> SumTable<'a>
        requires cards { 5 ≤ n }
        requires deck { n ≤ 54 }
        requires long { length words.old ≡ first_word n 6 }
        requires bounded { All (λ x. x ≤ 250000000000) (five_numbers n words.old) }
        ensures size { result.size ≡ n }
        ensures numbers { result.numbers ≡ five_numbers n words.old }
    {
        fill_levels(n, words);
        SumTable {
            n,
            starts: starts(n),
            words,
        }
    }

    /// The sum of the numbers of all sets of five that contain the set.
    pub fn at(&self, set: &[u8]) -> u64
        requires few { length set.now ≤ 5 }
        requires set { IsSet self.now.size set.now }
        ensures sum { result ≡ containing self.now.size self.now.numbers set.now }
        ensures numbered { length self.now.numbers ≡ choose self.now.size 5 }
        ensures bounded { All (λ x. x ≤ 250000000000) self.now.numbers }
    {
        self.words[self.starts[set.len()] + index_of(set) as usize]
    }

    /// The numbers of the sets of five, by their indexes.
    pub fn numbers(&self) -> &[u64]
        ensures numbers { result.now ≡ self.now.numbers }
        ensures numbered { length self.now.numbers ≡ choose self.now.size 5 }
        ensures bounded { All (λ x. x ≤ 250000000000) self.now.numbers }
    {
        &self.words[self.starts[5]..]
    }

    /// For each mask the sum of the numbers of all sets of five that contain the held cards of the hand.
    pub fn held_sums(&self, hand: &[u8; 5]) -> [u64; 32]
        requires hand { IsSet self.now.size hand.now }
        ensures sums { AreHeldSums self.now.size self.now.numbers hand.now result }
        ensures numbered { length self.now.numbers ≡ choose self.now.size 5 }
        ensures bounded { All (λ x. x ≤ 250000000000) self.now.numbers }
    {
        let words = self.words;
        let indexes = held_indexes(hand);
        let mut sums = [0; 32];
        for mask in 0..32usize {
            let start = self.starts[cards_held(mask) as usize];
            sums[mask] = words[start + indexes[mask] as usize];
        }
        sums
    }
}
