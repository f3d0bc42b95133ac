//! The table of the sums of all sets of at most five cards, made from the numbers of the sets of five.

ghost use Rattle.std.specs.Prelude.{◌≡◌, ◌+◌, ◌-◌, ◌^◌, ◌<◌, ◌≤◌, ℕ, length, sum};
ghost use Rattle.std.specs.List.{All};
ghost use Rattle.vp_sets.specs.Sets.{choose};
ghost use Rattle.vp_sets.specs.Index.{HasIndex, IsSet, set_index};
ghost use Rattle.vp_count.specs.Table.{HasSums, above_sum, first_word, five_numbers, words_of_cards};

use vp_sets::{choose, next_set, set_at};

/// How many words a table for a deck of `n` cards has: one for each set of at most five cards.
pub fn table_words(n: u8) -> usize
    requires { n ≤ 54 }
    ensures { result ≡ first_word n 6 }
{
    first_word(n, 6)
}

/// How many words stand in front of those of the sets of `k` members.
pub(crate) fn first_word(n: u8, k: u8) -> usize
    requires deck { n ≤ 54 }
    requires members { k ≤ 6 }
    ensures { result ≡ first_word n k }
{
    let mut words = 0;
    for size in 0..k {
        words += choose(n, size) as usize;
    }
    words
}

/// The sum of the words.
fn sum_of(words: &[u64]) -> u64
    requires { sum words.now < 2 ^ 64 }
    ensures { result ≡ sum words.now }
{
    let mut total = 0;
    for word in words {
        total += *word;
    }
    total
}

/// The sum of the words at `first` and the number of choices of `size` among the cards below a card, for the cards
/// from `low` to below `end`.
fn sum_of_cards(words: &[u64], first: usize, size: u8, low: u8, end: u8) -> u64
    requires cards { end ≤ 54 }
    requires order { low ≤ end }
    requires members { size ≤ 5 }
    requires within { (c : ℕ) → low ≤ c → c < end → first + choose c size < length words.now }
    requires small { words_of_cards words.now first size low (end - low) < 2 ^ 64 }
    ensures { result ≡ words_of_cards words.now first size low (end - low) }
{
    let mut total = 0;
    for card in low..end {
        total += words[first + choose(card, size) as usize];
    }
    total
}

/// The sum of the words of the sets that have one member more than the set with this index; `start` is the first word
/// of their size. From the highest card down to each member: `first` is where the set with one more card stands, but
/// for what that card adds to the index.
fn sum_above(n: u8, set: &[u8], index: usize, words: &[u64], start: usize) -> u64
    requires deck { n ≤ 54 }
    requires few { length set.now ≤ 4 }
    requires set { IsSet n set.now }
    requires index { index ≡ set_index set.now }
    requires room { start + choose n (length set.now + 1) ≤ length words.now }
    requires small { above_sum n words.now start set.now < 2 ^ 64 }
    ensures { result ≡ above_sum n words.now start set.now }
{
    let mut first = start + index;
    let mut total = 0;
    let mut end = n;
    let mut left = set.len();
    while left > 0 {
        let member = set[left - 1];
        let size = left as u8;
        total += sum_of_cards(words, first, size + 1, member + 1, end);
        first = first - choose(member, size) as usize + choose(member, size + 1) as usize;
        end = member;
        left -= 1;
    }
    // Below the first member the words stand one behind the other.
    total + sum_of(&words[first..first + end as usize])
}

/// Makes the words of the sets of as many members as `set`, which is the first of them.
fn fill_sets(n: u8, set: &mut [u8], words: &mut [u64])
    requires deck { n ≤ 54 }
    requires few { length set.old ≤ 4 }
    requires first { HasIndex n (length set.old) 0 set.old }
    requires sums { HasSums n (length set.old + 1) (five_numbers n words.old) words.old }
    requires bounded { All (λ x. x ≤ 250000000000) (five_numbers n words.old) }
    ensures sums { HasSums n (length set.old) (five_numbers n words.old) words.new }
    ensures same { five_numbers n words.new ≡ five_numbers n words.old }
{
    let members = set.len() as u8;
    let start = first_word(n, members);
    let above = first_word(n, members + 1);
    let others = 5 - u64::from(members);
    for i in 0..choose(n, members) as usize {
        words[start + i] = sum_above(n, set, i, words, above) / others;
        next_set(n, set);
    }
}

/// Makes the words of the sets of `k` members from those of the sets of one member more: each set of five is met once
/// for each of its members that are not in the set, so the quotient is exact.
fn fill_level(n: u8, k: u8, words: &mut [u64])
    requires cards { 5 ≤ n }
    requires deck { n ≤ 54 }
    requires members { k ≤ 4 }
    requires sums { HasSums n (k + 1) (five_numbers n words.old) words.old }
    requires bounded { All (λ x. x ≤ 250000000000) (five_numbers n words.old) }
    ensures sums { HasSums n k (five_numbers n words.old) words.new }
    ensures same { five_numbers n words.new ≡ five_numbers n words.old }
{
    let mut room = [0; 5];
    let set = &mut room[..k as usize];
    set_at(n, k, 0, set);
    fill_sets(n, set, words);
}

/// Makes the words of all sets of fewer than five cards.
pub(crate) fn fill_levels(n: u8, words: &mut [u64])
    requires cards { 5 ≤ n }
    requires deck { n ≤ 54 }
    requires long { length words.old ≡ first_word n 6 }
    requires bounded { All (λ x. x ≤ 250000000000) (five_numbers n words.old) }
    ensures sums { HasSums n 0 (five_numbers n words.old) words.new }
    ensures same { five_numbers n words.new ≡ five_numbers n words.old }
{
    let mut k = 5;
    while k > 0 {
        k -= 1;
        fill_level(n, k, words);
    }
}
