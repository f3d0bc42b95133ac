//! Where the pay line of a hand is kept: at one place for all hands of the same ranks, and of one suit or not.

ghost use Rattle.std.specs.Prelude.{◌≡◌, ◌+◌, ◌/◌, ◌<◌, length};
ghost use Rattle.vp_sets.specs.Index.{IsSet, set_index};
ghost use Rattle.vp_sets.specs.Sets.{choose};
ghost use Rattle.vp_wild.specs.ByCounts.{at_most_one_suit};
ghost use Rattle.vp_wild.specs.Places.{AreSuitBits, place_of, raised, suit_bit, suits_by};

use crate::rank_ways::RANK_WAYS;
use vp_rank::is_wild;

/// How many places there are: two for each row of five ranks, the joker's among them.
pub(crate) const PLACES: usize = 17136;

/// Whether a set of suits, as bits, has at most one.
const ONE_SUIT: [bool; 16] = [
    true, true, true, false, true, false, false, false, true, false, false, false, false, false,
    false, false,
];

/// The places of hands, by the wild rank of a table: the bit of each card's suit, where a wild card has none.
#[derive(Drop)]
pub(crate) struct Places {
    wild: Option<u8>,
    bits: [u8; 54],
    ghost told: { AreSuitBits wild bits },
}

impl Places {
    /// The places for a table with this wild rank.
    pub(crate) fn of(wild: Option<u8>) -> Places
        ensures { result.wild ≡ wild }
    {
        let bits = suit_bits(wild);
        Places { wild, bits }
    }

    /// The place of a hand of these cards.
    pub(crate) fn place_of(&self, cards: &[u8; 5]) -> usize
        requires five { length cards.now ≡ 5 }
        requires set { IsSet 54 cards.now }
        ensures place { result ≡ place_of self.now.wild cards.now }
        ensures inside { result < 17136 }
    {
        2 * ranks_index(cards) + usize::from(self.have_one_suit(cards))
    }

    /// Whether the cards that aren't wild have at most one suit.
    fn have_one_suit(&self, cards: &[u8; 5]) -> bool
        requires five { length cards.now ≡ 5 }
        requires set { IsSet 54 cards.now }
        ensures { result ≡ at_most_one_suit (suits_by self.now.bits cards.now) }
    {
        ONE_SUIT[suits(cards, &self.bits) as usize]
    }
}

/// The bit of each card's suit; a wild card has none.
fn suit_bits(wild: Option<u8>) -> [u8; 54]
    ensures { AreSuitBits wild result }
{
    let mut bits = [0; 54];
    for card in 0..54u8 {
        bits[card as usize] = suit_bit(card, wild);
    }
    bits
}

fn suit_bit(card: u8, wild: Option<u8>) -> u8
    ensures { result ≡ suit_bit wild card }
{
    if is_wild(card, wild) {
        0
    } else {
        1 << (card % 4)
    }
}

/// The index of the raised ranks of the cards, among all sets of five numbers below 18.
fn ranks_index(cards: &[u8; 5]) -> usize
    requires five { length cards.now ≡ 5 }
    requires set { IsSet 54 cards.now }
    ensures index { result ≡ set_index (raised 0 cards.now) }
    ensures below { result < 8568 }
{
    let [a, b, c, d, e] = *cards;
    let index = ways(0, a) + ways(1, b) + ways(2, c);
    index + ways(3, d) + ways(4, e)
}

/// What a card at this place adds to the index.
fn ways(place: usize, card: u8) -> usize
    requires place { place < 5 }
    requires card { card < 54 }
    ensures { result ≡ choose (card / 4 + place) (place + 1) }
{
    RANK_WAYS[place][card as usize]
}

fn suits(cards: &[u8; 5], bits: &[u8; 54]) -> u8
    requires five { length cards.now ≡ 5 }
    requires set { IsSet 54 cards.now }
    ensures { result ≡ suits_by bits.now cards.now }
{
    let [a, b, c, d, e] = *cards;
    bits[e as usize] | bits[d as usize] | bits[c as usize] | bits[b as usize] | bits[a as usize]
}
