//! Sums of numbers of sets of five, as a table or any other source may tell them.

ghost use Rattle.std.specs.Prelude.{◌≡◌, ◌-◌, ◌^◌, ◌≤◌, ℕ, List, length};
ghost use Rattle.std.specs.List.{All};
ghost use Rattle.vp_sets.specs.Sets.{choose};
ghost use Rattle.vp_sets.specs.Index.{IsSet};
ghost use Rattle.vp_count.specs.Sums.{AreHeldSums, containing, one_more, raised_by};

/// Tells sums of numbers that belong to the sets of five of a deck, and counts how many it told.
pub trait Sums {
    /// The number of cards of the deck.
    ghost size: { Self → ℕ };

    /// The number of each set of five, by the set's index.
    ghost numbers: { Self → List ℕ };

    /// How many sums were read. The count ends at 2^64 - 1.
    ghost reads: { Self → ℕ };

    /// The sum of the numbers of all sets of five that contain the set.
    fn at(&mut self, set: &[u8]) -> u64
        requires few { length set.now ≤ 5 }
        requires set { IsSet (size self.old) set.now }
        ensures sum { result ≡ containing (size self.old) (numbers self.old) set.now }
        // Every set of five has a number, and none is greater than 250000000000.
        ensures numbered { length (numbers self.old) ≡ choose (size self.old) 5 }
        ensures bounded { All (λ x. x ≤ 250000000000) (numbers self.old) }
        ensures same_size { size self.new ≡ size self.old }
        ensures same_numbers { numbers self.new ≡ numbers self.old }
        // One read.
        ensures counted { reads self.new ≡ one_more (reads self.old) }
        ensures ends { reads self.new ≤ 2 ^ 64 - 1 };

    /// The sums of the held cards of a hand, for each of the 32 masks.
    fn held_sums(&mut self, hand: &[u8; 5]) -> [u64; 32]
        requires hand { IsSet (size self.old) hand.now }
        ensures sums { AreHeldSums (size self.old) (numbers self.old) hand.now result }
        ensures same_size { size self.new ≡ size self.old }
        ensures same_numbers { numbers self.new ≡ numbers self.old }
        // 32 reads.
        ensures counted { reads self.new ≡ raised_by 32 (reads self.old) }
        ensures ends { reads self.new ≤ 2 ^ 64 - 1 };
}
