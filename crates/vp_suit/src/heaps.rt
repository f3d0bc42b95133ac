//! Each suit's cards as one number, its heap, by which suits are compared.

ghost use Rattle.std.specs.Prelude.{◌≡◌, ◌+◌, ◌^◌, ◌<◌, ◌≤◌, ℕ, List, drop, nat_lt, true};
ghost use Rattle.vp_suit.specs.Classes.{IsDeal, NoLowestStands};
ghost use Rattle.vp_suit.specs.Heaps.{card_heap, falls, heap, jumps, suit_heaps};

use crate::card_heaps::CARD_HEAPS;

/// The heaps of clubs, diamonds, hearts and spades of the cards but the lowest.
#[tactic(auto, unfolding(crate::specs::Heaps::suit_heaps))]
pub(crate) fn heaps_above(cards: &[u8; 5]) -> [u64; 4]
    requires { IsDeal 54 cards.now }
    ensures { result ≡ suit_heaps (drop 1 cards.now) }
{
    [
        heap_above(0, cards),
        heap_above(1, cards),
        heap_above(2, cards),
        heap_above(3, cards),
    ]
}

/// The heap of a suit of the cards but the lowest.
fn heap_above(suit: u8, cards: &[u8; 5]) -> u64
    requires suit { suit < 4 }
    requires deal { IsDeal 54 cards.now }
    ensures { result ≡ heap suit (drop 1 cards.now) }
{
    let [_, b, c, d, e] = *cards;
    card_heap(suit, b) + card_heap(suit, c) + card_heap(suit, d) + card_heap(suit, e)
}

/// The heaps of a deal, from those of the cards but the lowest.
#[tactic(auto, unfolding(crate::specs::Heaps::suit_heaps))]
pub(crate) fn heaps_with(above: &[u64; 4], cards: &[u8; 5]) -> [u64; 4]
    requires deal { IsDeal 54 cards.now }
    requires above { above.now ≡ suit_heaps (drop 1 cards.now) }
    ensures { result ≡ suit_heaps cards.now }
{
    [
        heap_with(0, above[0], cards),
        heap_with(1, above[1], cards),
        heap_with(2, above[2], cards),
        heap_with(3, above[3], cards),
    ]
}

fn heap_with(suit: u8, above: u64, cards: &[u8; 5]) -> u64
    requires suit { suit < 4 }
    requires deal { IsDeal 54 cards.now }
    requires above { above ≡ heap suit (drop 1 cards.now) }
    ensures { result ≡ heap suit cards.now }
{
    above + card_heap(suit, cards[0])
}

/// Whether no heap is greater than the one before it.
#[tactic(auto, unfolding(crate::specs::Heaps::suit_heaps, crate::specs::Heaps::falls))]
pub(crate) fn fall(heaps: &[u64; 4]) -> bool
    ensures { (cards : List ℕ) → heaps.now ≡ suit_heaps cards → result ≡ falls cards }
{
    let [clubs, diamonds, hearts, spades] = *heaps;
    diamonds <= clubs && hearts <= diamonds && spades <= hearts
}

/// Whether no lowest card makes the cards but the lowest a representative: some heap is greater than the one before it
/// by more than a card below the next lowest adds.
pub(crate) fn none_stands(above: &[u64; 4], cards: &[u8; 5]) -> bool
    requires deal { IsDeal 54 cards.now }
    requires above { above.now ≡ suit_heaps (drop 1 cards.now) }
    ensures { result ≡ true → NoLowestStands cards.now }
{
    jump(above, 1 << (4 * (cards[1] / 4)))
}

/// Whether some heap is greater than the one before it by more than `most`.
#[tactic(auto, unfolding(crate::specs::Heaps::suit_heaps, crate::specs::Heaps::jumps))]
fn jump(heaps: &[u64; 4], most: u64) -> bool
    ensures { (cards : List ℕ) → heaps.now ≡ suit_heaps cards → result ≡ jumps most cards }
{
    let [clubs, diamonds, hearts, spades] = *heaps;
    is_jump(clubs, diamonds, most)
        || is_jump(diamonds, hearts, most)
        || is_jump(hearts, spades, most)
}

fn is_jump(before: u64, heap: u64, most: u64) -> bool
    ensures { result ≡ nat_lt (before + most) heap }
{
    most < heap.saturating_sub(before)
}

/// What a card adds to the heap of a suit.
fn card_heap(suit: u8, card: u8) -> u64
    requires suit { suit < 4 }
    requires card { card < 54 }
    ensures value { result ≡ card_heap suit card }
    ensures small { result ≤ 2 ^ 48 }
{
    CARD_HEAPS[card as usize][suit as usize]
}
