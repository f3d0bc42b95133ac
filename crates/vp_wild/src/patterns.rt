//! Whether a hand of five cards hits a pay line, told by its shape.

ghost use Rattle.std.specs.Prelude.{◌≡◌, ◌+◌, ◌-◌, ◌<◌, ◌≤◌, nat_lt, nat_le, not, ◌==◌, ◌&&◌};
ghost use Rattle.vp_card.specs.Cards.{has};
ghost use Rattle.vp_rank.specs.Bounded.{some_below};
ghost use Rattle.vp_rank.specs.Counts.{fits_window};
ghost use Rattle.vp_rank.specs.Shapes.{count_of};
ghost use Rattle.vp_wild.specs.ByCounts.{at_most_one_suit, fits_some_window, shape_hits, shape_matches};

use vp_card::RankSet;
use vp_pay::{Pattern, PayLine, Qualifier};
use vp_rank::Shape;

/// Whether a hand with this shape hits the pay line.
#[tactic(auto, unfolding(crate::specs::Patterns::qualifies))]
pub(crate) fn hits_shape(line: &PayLine, shape: &Shape) -> bool
    ensures { result ≡ shape_hits line.now shape.now }
{
    let qualifies = match line.qualifier {
        Qualifier::Either => true,
        Qualifier::Natural => shape.wilds == 0,
        Qualifier::Wild => shape.wilds > 0,
    };
    qualifies && matches_shape(&line.pattern, shape)
}

/// Whether a hand with this shape matches the pattern.
#[tactic(auto, unfolding(crate::specs::ByCounts::matches_by_counts))]
fn matches_shape(pattern: &Pattern, shape: &Shape) -> bool
    ensures { result ≡ shape_matches pattern.now shape.now }
{
    match pattern {
        Pattern::Royal => flush(shape) && royal(shape),
        Pattern::StraightFlush => flush(shape) && straight(shape),
        Pattern::FiveKind(ranks) => five_kind(shape, *ranks),
        Pattern::Wilds(number, kicker) => wilds(shape, *number, kicker),
        Pattern::Quads(ranks, kicker) => quads(shape, *ranks, kicker),
        Pattern::FullHouse => full_house(shape),
        Pattern::Flush => flush(shape),
        Pattern::Straight => straight(shape),
        Pattern::Trips => trips(shape),
        Pattern::TwoPair => two_pair(shape),
        Pattern::Pair(ranks) => pair(shape, *ranks),
    }
}

fn flush(shape: &Shape) -> bool
    ensures { result ≡ at_most_one_suit shape.now.suits }
{
    matches!(shape.suits, 0 | 1 | 2 | 4 | 8)
}

fn royal(shape: &Shape) -> bool
    ensures { result ≡ fits_window 9 (count_of shape.now) }
{
    shape.windows() >= 512
}

fn straight(shape: &Shape) -> bool
    ensures { result ≡ fits_some_window (count_of shape.now) }
{
    shape.windows() != 0
}

/// The cards of a rank, and the wild cards.
fn with_wilds(shape: &Shape, rank: u8) -> u16
    requires { rank < 13 }
    ensures { result ≡ count_of shape.now rank + shape.now.wilds }
{
    u16::from(shape.counts[usize::from(rank)]) + u16::from(shape.wilds)
}

/// The cards of two ranks, and the wild cards.
fn both_with_wilds(shape: &Shape, first: u8, second: u8) -> u16
    requires first { first < 13 }
    requires second { second < 13 }
    ensures { result ≡ count_of shape.now first + count_of shape.now second + shape.now.wilds }
{
    u16::from(shape.counts[usize::from(first)]) + with_wilds(shape, second)
}

#[tactic(auto, unfolding(vp_rank::specs::Bounded::some_below))]
fn five_kind(shape: &Shape, ranks: RankSet) -> bool
    ensures { result ≡ some_below 13 (λ r. has ranks r && (count_of shape.now r + shape.now.wilds == 5)) }
{
    (0..13u8).any(|rank| ranks.has(rank) && with_wilds(shape, rank) == 5)
}

#[tactic(auto, unfolding(vp_rank::specs::Bounded::some_below, crate::specs::ByCounts::matches_by_counts))]
fn wilds(shape: &Shape, number: u8, kicker: &Option<RankSet>) -> bool
    ensures { result ≡ shape_matches (Pattern.Wilds number kicker.now) shape.now }
{
    shape.wilds == number
        && match kicker {
            None => true,
            Some(ranks) => some_card(shape, *ranks),
        }
}

/// Some card that isn't wild has a rank of the set.
#[tactic(auto, unfolding(vp_rank::specs::Bounded::some_below))]
fn some_card(shape: &Shape, ranks: RankSet) -> bool
    ensures { result ≡ some_below 13 (λ r. has ranks r && nat_lt 0 (count_of shape.now r)) }
{
    (0..13u8).any(|rank| ranks.has(rank) && shape.counts[usize::from(rank)] > 0)
}

#[tactic(auto, unfolding(crate::specs::ByCounts::matches_by_counts))]
fn quads(shape: &Shape, ranks: RankSet, kicker: &Option<RankSet>) -> bool
    ensures { result ≡ shape_matches (Pattern.Quads ranks kicker.now) shape.now }
{
    match kicker {
        None => four_kind(shape, ranks),
        Some(others) => four_and_kicker(shape, ranks, *others),
    }
}

#[tactic(auto, unfolding(vp_rank::specs::Bounded::some_below))]
fn four_kind(shape: &Shape, ranks: RankSet) -> bool
    ensures { result ≡ some_below 13 (λ r. has ranks r && nat_le 4 (count_of shape.now r + shape.now.wilds)) }
{
    (0..13u8).any(|rank| ranks.has(rank) && with_wilds(shape, rank) >= 4)
}

#[tactic(auto, unfolding(vp_rank::specs::Bounded::some_below))]
fn four_and_kicker(shape: &Shape, ranks: RankSet, kicker: RankSet) -> bool
    ensures { result ≡ some_below 13 (λ r. has ranks r && nat_le (count_of shape.now r) 4
        && some_below 13 (λ s. has kicker s && not (r == s) && nat_le (count_of shape.now s) 1
        && (count_of shape.now r + count_of shape.now s + shape.now.wilds == 5))) }
{
    (0..13u8).any(|rank| {
        ranks.has(rank)
            && shape.counts[usize::from(rank)] <= 4
            && kicker_beside(shape, rank, kicker)
    })
}

/// A fifth card beside four of a rank.
#[tactic(auto, unfolding(vp_rank::specs::Bounded::some_below))]
fn kicker_beside(shape: &Shape, four: u8, kicker: RankSet) -> bool
    requires { four < 13 }
    ensures { result ≡ some_below 13 (λ s. has kicker s && not (four == s) && nat_le (count_of shape.now s) 1
        && (count_of shape.now four + count_of shape.now s + shape.now.wilds == 5)) }
{
    (0..13u8).any(|rank| {
        kicker.has(rank)
            && four != rank
            && shape.counts[usize::from(rank)] <= 1
            && both_with_wilds(shape, four, rank) == 5
    })
}

#[tactic(auto, unfolding(vp_rank::specs::Bounded::some_below))]
fn full_house(shape: &Shape) -> bool
    ensures { result ≡ some_below 13 (λ r. nat_le (count_of shape.now r) 3
        && some_below 13 (λ s. not (r == s) && nat_le (count_of shape.now s) 2
        && (count_of shape.now r + count_of shape.now s + shape.now.wilds == 5))) }
{
    (0..13u8).any(|rank| shape.counts[usize::from(rank)] <= 3 && pair_beside(shape, rank))
}

/// A pair of another rank beside three of a rank.
#[tactic(auto, unfolding(vp_rank::specs::Bounded::some_below))]
fn pair_beside(shape: &Shape, three: u8) -> bool
    requires { three < 13 }
    ensures { result ≡ some_below 13 (λ s. not (three == s) && nat_le (count_of shape.now s) 2
        && (count_of shape.now three + count_of shape.now s + shape.now.wilds == 5)) }
{
    (0..13u8).any(|rank| {
        three != rank
            && shape.counts[usize::from(rank)] <= 2
            && both_with_wilds(shape, three, rank) == 5
    })
}

#[tactic(auto, unfolding(vp_rank::specs::Bounded::some_below))]
fn trips(shape: &Shape) -> bool
    ensures { result ≡ some_below 13 (λ r. nat_le 3 (count_of shape.now r + shape.now.wilds)) }
{
    (0..13u8).any(|rank| with_wilds(shape, rank) >= 3)
}

#[tactic(auto, unfolding(vp_rank::specs::Bounded::some_below))]
fn two_pair(shape: &Shape) -> bool
    ensures { result ≡ some_below 13 (λ r. some_below 13 (λ s. not (r == s)
        && nat_le ((2 - count_of shape.now r) + (2 - count_of shape.now s)) shape.now.wilds)) }
{
    (0..13u8).any(|rank| second_pair(shape, rank))
}

/// What a rank lacks to a pair.
fn lack(shape: &Shape, rank: u8) -> u8
    requires { rank < 13 }
    ensures value { result ≡ 2 - count_of shape.now rank }
    ensures small { result ≤ 2 }
{
    2u8.saturating_sub(shape.counts[usize::from(rank)])
}

/// A pair of another rank, for which the wild cards are enough.
#[tactic(auto, unfolding(vp_rank::specs::Bounded::some_below))]
fn second_pair(shape: &Shape, first: u8) -> bool
    requires { first < 13 }
    ensures { result ≡ some_below 13 (λ s. not (first == s)
        && nat_le ((2 - count_of shape.now first) + (2 - count_of shape.now s)) shape.now.wilds) }
{
    (0..13u8).any(|rank| first != rank && lack(shape, first) + lack(shape, rank) <= shape.wilds)
}

#[tactic(auto, unfolding(vp_rank::specs::Bounded::some_below))]
fn pair(shape: &Shape, ranks: RankSet) -> bool
    ensures { result ≡ some_below 13 (λ r. has ranks r && nat_le 2 (count_of shape.now r + shape.now.wilds)) }
{
    (0..13u8).any(|rank| ranks.has(rank) && with_wilds(shape, rank) >= 2)
}
