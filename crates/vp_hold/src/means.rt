//! The sums of a number that each hand has, read as means over the draws of a hold.

ghost use Rattle.std.specs.Prelude.{◌≡◌, ◌<◌, ◌≤◌, true, length, map};
ghost use Rattle.std.specs.List.{All};
ghost use Rattle.vp_card.specs.Cards.{IsDeck, IsHand, in_deck};
ghost use Rattle.vp_sets.specs.Sets.{choose};
ghost use Rattle.vp_count.specs.Table.{first_word, five_numbers};
ghost use Rattle.vp_draws.specs.Draws.{masks};
ghost use Rattle.vp_hold.specs.Means.{mean};

use crate::scales::hold_scales;
use std::marker::Model;
use vp_card::Hand;
use vp_count::{Reads, SumTable, all_totals, held_total};

/// The sums of a number that each hand of a deck has, and by what they are multiplied to be means over the draws of a hold.
#[derive(Drop)]
pub struct HoldMeans<'a> {
    scales: [u64; 32],
    sums: SumTable<'a>,
}

impl<'a> Model for HoldMeans<'a> {
    ghost use Rattle.vp_count.specs.Table.{Table};
    ghost use Rattle.vp_hold.specs.Means.{AreMeans};

    ghost Value = { Table };

    ghost view = { λ m. m.sums };

    ghost invariant = { λ m. AreMeans m.scales m.sums };
}

impl<'a> HoldMeans<'a> {
    /// Makes the sums of a deck of `n` cards. The last words are the numbers of the sets of five, by their indexes; all
    /// others are written.
    pub fn fill(n: u8, words: &'a mut [u64]) -> HoldMeans<'a>
        requires deck { IsDeck n }
        requires long { length words.old ≡ first_word n 6 }
        requires bounded { All (λ x. x ≤ 250000000000) (five_numbers n words.old) }
        ensures size { result.size ≡ n }
        ensures numbers { result.numbers ≡ five_numbers n words.old }
    {
        HoldMeans {
            scales: hold_scales(n),
            sums: SumTable::fill(n, words),
        }
    }

    /// The numbers of the sets of five, by their indexes.
    pub fn numbers(&self) -> &[u64]
        ensures numbers { result.now ≡ self.now.numbers }
        ensures numbered { length self.now.numbers ≡ choose self.now.size 5 }
    {
        self.sums.numbers()
    }

    /// The mean of the final hands' numbers over all draws of the hold `mask`, times the common denominator of the deck.
    /// Bit `i` holds the card at place `i` of the hand.
    pub fn mean(&self, hand: &Hand, mask: u8) -> u64
        requires cards { in_deck self.now.size hand.now ≡ true }
        requires mask { mask < 32 }
        ensures mean { result ≡ mean self.now hand.now mask }
        ensures hand { IsHand hand.now }
    {
        let mut reads = Reads::new(&self.sums);
        let total = held_total(&mut reads, &hand.numbers(), mask);
        total * self.scales[mask as usize]
    }

    /// The means of the 32 holds of the hand; the place of each is its mask.
    pub fn means(&self, hand: &Hand) -> [u64; 32]
        requires cards { in_deck self.now.size hand.now ≡ true }
        ensures means { result ≡ map (mean self.now hand.now) masks }
        ensures hand { IsHand hand.now }
    {
        let mut reads = Reads::new(&self.sums);
        let mut means = all_totals(&mut reads, &hand.numbers());
        for mask in 0..32usize {
            means[mask] *= self.scales[mask];
        }
        means
    }
}
