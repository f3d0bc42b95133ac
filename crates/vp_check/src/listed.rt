//! What class lines come to.

ghost use Rattle.std.specs.Prelude.{◌≡◌, ◌+◌, ◌*◌, ◌^◌, ◌<◌, ◌≤◌, [], ◌∷◌};
ghost use Rattle.vp_sets.specs.Index.{set_index};
ghost use Rattle.vp_check.specs.Listing.{broken_at, listed_with, none_listed};
ghost use Rattle.vp_check.specs.Rules.{first_of};

use crate::ClassLine;
use crate::rules::{Breach, index_of_hand, listed_breach};

/// A broken rule of the cards or the weight of a class line.
#[derive(Clone, Copy, Debug, PartialEq, Eq)]
pub(crate) struct Broken {
    /// The place of the class line, from 1.
    pub place: u32,
    /// The number of the line in the text.
    pub line: u32,
    pub breach: Breach,
}

/// What the class lines so far come to.
#[derive(Clone, Copy, Debug, PartialEq, Eq)]
pub(crate) struct Listed {
    /// How many there are.
    pub lines: u32,
    /// The index of the last.
    pub last: Option<u32>,
    /// The sum of the weights.
    pub weights: u64,
    /// The sum of weight times value.
    pub values: u128,
    /// The first broken rule of the cards and the weights.
    pub broken: Option<Broken>,
}

impl Listed {
    /// Before the first class line.
    pub(crate) fn none() -> Listed
        ensures { result ≡ none_listed }
    {
        Listed {
            lines: 0,
            last: None,
            weights: 0,
            values: 0,
            broken: None,
        }
    }

    /// With one class line more, which has this number in the text.
    #[tactic(auto, unfolding(crate::specs::Listing::listed_with))]
    pub(crate) fn and(&self, line: u32, class: &ClassLine) -> Listed
        requires lines { self.now.lines + 1 < 2 ^ 32 }
        requires weights { self.now.weights ≤ 256 * self.now.lines }
        requires values { self.now.values ≤ 2 ^ 72 * self.now.lines }
        ensures with { result ≡ listed_with self.now (record { line = line; class = class.now }) }
        // No sum grows by more than this.
        ensures weight { result.weights ≤ 256 * result.lines }
        ensures value { result.values ≤ 2 ^ 72 * result.lines }
    {
        let weight = u64::from(class.weight);
        let index = index_of_hand(&class.hand);
        Listed {
            lines: self.lines + 1,
            last: Some(index),
            weights: self.weights + weight,
            values: self.values + weighed(class),
            broken: self.first_broken(line, index, class),
        }
    }

    /// The first broken rule, that of one class line more included.
    fn first_broken(&self, line: u32, index: u32, class: &ClassLine) -> Option<Broken>
        requires lines { self.now.lines + 1 < 2 ^ 32 }
        requires index { index ≡ set_index class.now.hand }
        ensures { result ≡ first_of (self.now.broken
            ∷ broken_at (self.now.lines + 1) self.now.last (record { line = line; class = class.now }) ∷ []) }
    {
        if self.broken.is_some() {
            return self.broken;
        }
        let breach = listed_breach(self.last, index, class)?;
        Some(Broken {
            place: self.lines + 1,
            line,
            breach,
        })
    }
}

/// Weight times value.
#[tactic(auto, using(crate::proofs::Walked::weighed_fits))]
fn weighed(line: &ClassLine) -> u128
    ensures value { result ≡ line.now.weight * line.now.value }
    ensures small { result ≤ 2 ^ 72 }
{
    u128::from(line.weight) * u128::from(line.value)
}
