//! Sublists of a deck, their numbers, the hands that they are, and the numbers by which sums over draws become expected payments.
#![tactic(auto)]

ghost use Rattle.std.specs.Prelude.{ℕ, ◌≡◌, ◌-◌, ◌*◌, ◌%◌, ◌<◌, ◌≤◌, ◌==◌};
ghost use Rattle.std.specs.List.{list_all};
ghost use Rattle.vp_card.specs.Cards.{IsDeck};
ghost use Rattle.vp_sets.specs.Draws.{common, draw_counts, scale};
ghost use Rattle.vp_sets.specs.Sets.{choose};

mod hands;
mod index;
mod ways;

pub use hands::hand_of;
pub use index::{index_laws, index_of, next_set, set_at};
use ways::WAYS;

/// In how many ways `k` of `n` things are chosen: from a table of Pascal's rule.
pub fn choose(n: u8, k: u8) -> u64
    requires things { n ≤ 54 }
    requires members { k ≤ 5 }
    ensures { result ≡ choose n k }
{
    u64::from(WAYS[n as usize][k as usize])
}

/// The common denominator of all expected payments from a deck of `n` cards: the least common multiple
/// of the numbers of draws of no card to five cards out of the `n - 5` that were not dealt.
pub fn common(n: u8) -> u64
    requires { IsDeck n }
    ensures value { result ≡ common n }
    ensures some { 0 < result }
    // The number of draws of any hold divides it.
    ensures divided { (k : ℕ) → k ≤ 5 → result % choose (n - 5) k ≡ 0 }
    // No smaller number is divided by them all.
    ensures least { (m : ℕ) → 0 < m → ((k : ℕ) → k ≤ 5 → m % choose (n - 5) k ≡ 0) → result ≤ m }
{
    denominator(n)
}

/// The common denominator, sought among the multiples of the number of draws of five cards.
fn denominator(n: u8) -> u64
    requires { IsDeck n }
    ensures value { result ≡ common n }
    ensures some { 0 < result }
{
    let step = choose(n - 5, 5);
    let mut number = step;
    while !is_divided(number, n) {
        number += step;
    }
    number
}

/// Whether a number is divided by the numbers of draws of all holds.
#[tactic(auto, using(crate::proofs::Denominators::five_parts))]
fn is_divided(number: u64, n: u8) -> bool
    requires { IsDeck n }
    ensures { result ≡ list_all (λ draws. number % draws == 0) (draw_counts n) }
{
    is_divided_at(number, n, 1)
        && is_divided_at(number, n, 2)
        && is_divided_at(number, n, 3)
        && is_divided_at(number, n, 4)
        && is_divided_at(number, n, 5)
}

/// Whether a number is divided by the number of draws of `k` cards.
#[tactic(auto, using(crate::proofs::Binomials::choose_pos))]
fn is_divided_at(number: u64, n: u8, k: u8) -> bool
    requires deck { IsDeck n }
    requires drawn { k ≤ 5 }
    ensures { result ≡ (number % choose (n - 5) k == 0) }
{
    number % choose(n - 5, k) == 0
}

/// By what the sum of payments over all draws of `k` cards is multiplied, to stand over the common
/// denominator.
pub fn scale(n: u8, k: u8) -> u64
    requires deck { IsDeck n }
    requires drawn { k ≤ 5 }
    ensures value { result ≡ scale n k }
    // The quotient is exact.
    ensures exact { result * choose (n - 5) k ≡ common n }
{
    common(n) / choose(n - 5, k)
}
