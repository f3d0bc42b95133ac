//! What is kept of a hold, and which tests hold of it.

ghost use Rattle.std.specs.Prelude.{◌≡◌, ◌==◌, ◌&&◌, nat_lt, nat_le, not, count_by};
ghost use Rattle.std.specs.Int.{bit_at};
ghost use Rattle.std.specs.List.{list_all, range_with_len};
ghost use Rattle.vp_card.specs.Cards.{IsHand, has, rank, suit};
ghost use Rattle.vp_sets.specs.Draws.{discarded};
ghost use Rattle.vp_rank.specs.Bounded.{all_below, some_below};
ghost use Rattle.vp_rank.specs.Counts.{fits_window};
ghost use Rattle.vp_rank.specs.Shapes.{count_of};
ghost use Rattle.vp_rank.specs.Wilds.{is_wild};
ghost use Rattle.vp_wild.specs.ByCounts.{at_most_one_suit};
ghost use Rattle.vp_rule.specs.ByCounts.{IsHeld, test_by_counts};
ghost use Rattle.vp_rule.specs.declared.held.Dealt.{Dealt};

use crate::{Rule, Test};
use arrayvec::ArrayVec;
use vp_card::{Card, Hand, RankSet};
use vp_rank::{Shape, is_wild_card};

/// A hand with what the tests of a rule ask of it as a whole: the place of its pay line, and the wild rank.
#[derive(Clone, Copy, Debug, PartialEq, Eq)]
pub(crate) struct Dealt {
    pub hand: Hand,
    pub wild: Option<u8>,
    pub place: Option<u8>,
}

/// What is kept of a hold: its mask, and the number and the shape of the held cards.
#[derive(Clone, Copy, Debug, PartialEq, Eq)]
pub(crate) struct Held {
    mask: u8,
    kept: u8,
    shape: Shape,
}

impl Held {
    /// The hold `mask` of a hand.
    pub(crate) fn of(hand: &Hand, mask: u8, wild: Option<u8>) -> Held
        ensures held { IsHeld wild hand.now mask result }
        ensures hand { IsHand hand.now }
    {
        let cards = hand.held(mask);
        Held {
            mask,
            kept: cards.len() as u8,
            shape: Shape::of(cards.as_slice(), wild),
        }
    }
}

/// Whether all tests of the rule hold of the hold.
pub(crate) fn all_hold(dealt: &Dealt, held: &Held, rule: &Rule) -> bool
    ensures { result ≡ list_all (λ test. test_by_counts dealt.now held.now test) rule.now.tests.items }
{
    rule.tests
        .iter()
        .all(|test| test_by_counts(dealt, held, test))
}

/// Whether the test holds of the hold, told by counts.
fn test_by_counts(dealt: &Dealt, held: &Held, test: &Test) -> bool
    ensures { result ≡ test_by_counts dealt.now held.now test.now }
{
    match test {
        Test::Hold(number) => held.kept == *number,
        Test::Wilds(number) => held.shape.wilds == *number,
        Test::Suited => one_suit(&held.shape),
        Test::Mixed => !one_suit(&held.shape),
        Test::Royal => one_suit(&held.shape) && held.shape.fits(9),
        Test::Windows(least, most) => {
            let windows = windows(&held.shape);
            usize::from(*least) <= windows && windows <= usize::from(*most)
        }
        Test::Count(set, least, most) => {
            let cards = of_set(&dealt.hand.held(held.mask), dealt.wild, *set);
            usize::from(*least) <= cards && cards <= usize::from(*most)
        }
        Test::Equal(number) => {
            some_has(&held.shape, *number) && none_has_more(&held.shape, *number)
        }
        Test::Ranks(number) => ranks(&held.shape) == usize::from(*number),
        Test::Made(place) => held.kept == 5 && dealt.place == Some(*place),
        Test::Left(set, number) => {
            let left = discards(&dealt.hand, held.mask);
            of_set(&left, dealt.wild, *set) == usize::from(*number)
        }
        Test::LeftSuit(number) => {
            let left = discards(&dealt.hand, held.mask);
            of_suits(&left, dealt.wild, held.shape.suits) == usize::from(*number)
        }
    }
}

fn one_suit(shape: &Shape) -> bool
    ensures { result ≡ at_most_one_suit shape.now.suits }
{
    matches!(shape.suits, 0 | 1 | 2 | 4 | 8)
}

/// How many windows have all ranks; none where a rank repeats.
fn windows(shape: &Shape) -> usize
    ensures { result ≡ count_by (λ k. fits_window k (count_of shape.now)) (range_with_len 0 10) }
{
    (0..10u8).filter(|window| shape.fits(*window)).count()
}

/// How many ranks there are.
fn ranks(shape: &Shape) -> usize
    ensures { result ≡ count_by (λ r. nat_lt 0 (count_of shape.now r)) (range_with_len 0 13) }
{
    (0..13u8)
        .filter(|rank| shape.counts[usize::from(*rank)] > 0)
        .count()
}

/// Of some rank there are so many.
#[tactic(auto, unfolding(vp_rank::specs::Bounded::some_below))]
fn some_has(shape: &Shape, number: u8) -> bool
    ensures { result ≡ some_below 13 (λ r. count_of shape.now r == number) }
{
    (0..13u8).any(|rank| shape.counts[usize::from(rank)] == number)
}

/// Of no rank there are more.
#[tactic(auto, unfolding(vp_rank::specs::Bounded::all_below))]
fn none_has_more(shape: &Shape, number: u8) -> bool
    ensures { result ≡ all_below 13 (λ r. nat_le (count_of shape.now r) number) }
{
    (0..13u8).all(|rank| shape.counts[usize::from(rank)] <= number)
}

/// How many of the cards that are not wild have a rank of the set.
fn of_set(cards: &[Card], wild: Option<u8>, set: RankSet) -> usize
    ensures { result ≡ count_by (λ c. not (is_wild wild c) && has set (rank c)) cards.now }
{
    cards
        .iter()
        .filter(|card| !is_wild_card(**card, wild) && set.has(card.number() / 4))
        .count()
}

/// How many of the cards that are not wild have a suit of the mask, whose bit `s` stands for suit `s`.
fn of_suits(cards: &[Card], wild: Option<u8>, suits: u8) -> usize
    ensures { result ≡ count_by (λ c. not (is_wild wild c) && (bit_at suits (suit c) == 1)) cards.now }
{
    cards
        .iter()
        .filter(|card| !is_wild_card(**card, wild) && (suits >> (card.number() % 4)) & 1 == 1)
        .count()
}

/// The cards that the hold `mask` throws away: those of the other bits.
#[tactic(auto, using(crate::proofs::HeldRight::other_bits))]
fn discards(hand: &Hand, mask: u8) -> ArrayVec<Card, 5>
    ensures cards { result.items ≡ discarded mask hand.now }
    ensures hand { IsHand hand.now }
{
    hand.held(255 - mask)
}
