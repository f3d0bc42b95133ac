//! Sets of cards and their indexes, in colex order.

ghost use Rattle.std.specs.Prelude.{◌≡◌, ℕ, ◌+◌, ◌<◌, ◌≤◌, ◌↔◌, IsTrue, false, length, slice_index, slice_index_or, true, List, []};
ghost use Rattle.std.specs.List.Sorted.{IsPermutation};
ghost use Rattle.vp_sets.specs.Sets.{choose, combos, deck};
ghost use Rattle.vp_sets.specs.Index.{HasIndex, IsSet, colex, set_index};

use crate::choose;

/// The index of a set among all sets of as many numbers.
pub fn index_of(set: &[u8]) -> u32
    requires few { length set.now ≤ 5 }
    requires set { IsSet 54 set.now }
    ensures { result ≡ set_index set.now }
{
    let mut index = 0u32;
    for (place, number) in set.iter().enumerate() {
        index += choose(*number, place as u8 + 1) as u32;
    }
    index
}

/// Writes the set of `k` of the numbers below `n` that has the index `i`.
pub fn set_at(n: u8, k: u8, i: u32, out: &mut [u8])
    requires numbers { n ≤ 54 }
    requires members { k ≤ 5 }
    requires index { i < choose n k }
    requires room { length out.old ≡ k }
    ensures { HasIndex n k i out.new }
{
    let mut top = n;
    let mut left = out.len();
    let mut rest = u64::from(i);
    while left > 0 {
        top -= 1;
        let below = choose(top, left as u8);
        if below <= rest {
            left -= 1;
            out[left] = top;
            rest -= below;
        }
    }
}

/// What a member must stay below: the next member, or `n` for the last.
fn ceiling(n: u8, set: &[u8], place: usize) -> u8
    requires { place < length set.now }
    ensures inner { place + 1 < length set.now → result ≡ slice_index set.now (place + 1) }
    ensures last { length set.now ≡ place + 1 → result ≡ n }
{
    if place + 1 < set.len() {
        set[place + 1]
    } else {
        n
    }
}

/// The place of the first member that can rise by one, or the length where none can.
fn first_free(n: u8, set: &[u8]) -> usize
    requires { IsSet n set.now }
    ensures within { result ≤ length set.now }
    ensures run { (k : ℕ) → k < result → k + 1 < length set.now → slice_index set.now k + 1 ≡ slice_index set.now (k + 1) }
    ensures full { (k : ℕ) → k < result → length set.now ≡ k + 1 → slice_index set.now k + 1 ≡ n }
    ensures free { result + 1 < length set.now → slice_index set.now result + 1 < slice_index set.now (result + 1) }
    ensures end { length set.now ≡ result + 1 → slice_index set.now result + 1 < n }
{
    for place in 0..set.len() {
        if set[place] + 1 < ceiling(n, set, place) {
            return place;
        }
    }
    set.len()
}

/// The set with the next index; false exactly at the last set, which then stays.
pub fn next_set(n: u8, set: &mut [u8]) -> bool
    requires few { length set.old ≤ 5 }
    requires set { IsSet n set.old }
    ensures more { IsTrue result ↔ (set_index set.old + 1 < choose n (length set.old)) }
    ensures next { result ≡ true → HasIndex n (length set.old) (set_index set.old + 1) set.new }
    ensures last { result ≡ false → set.new ≡ set.old }
{
    let place = first_free(n, set);
    if place == set.len() {
        return false;
    }
    set[place] += 1;
    for i in 0..place {
        set[i] = i as u8;
    }
    true
}

/// A law, for proofs: index and set are inverse to each other, and the list of all sets has each once, by rising
/// index. So `set_at` with the index 0 and then `next_set` until it is false gives this list.
pub fn index_laws()
    ensures at { (n k i : ℕ) → i < choose n k → HasIndex n k i (slice_index_or (colex k n) i []) }
    ensures only { (n k i : ℕ) (s : List ℕ) → HasIndex n k i s → (i < choose n k) × (s ≡ slice_index_or (colex k n) i []) }
    ensures walk { (n k : ℕ) (walk : List (List ℕ)) → length walk ≡ choose n k → ((i : ℕ) → i < length walk → HasIndex n k i (slice_index_or walk i [])) → walk ≡ colex k n }
    ensures count { (n k : ℕ) → length (colex k n) ≡ choose n k }
    ensures sublists { (n k : ℕ) → IsPermutation (combos k (deck n)) (colex k n) }
{}
