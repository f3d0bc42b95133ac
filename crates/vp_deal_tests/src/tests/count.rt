//! Sums of a small deck, and of a whole one.

ghost use Rattle.std.specs.Prelude.{◌≡◌, ◌≤◌, length};
ghost use Rattle.std.specs.List.{All};
ghost use Rattle.vp_count.specs.Table.{first_word};

use std::test::Fail;
use vp_count::*;

/// The sum of the numbers of all sets of five cards of a deck of 52.
fn sum_of_a_deck(words: &mut [u64]) -> u64
    requires long { length words.old ≡ first_word 52 6 }
    requires small { All (λ x. x ≤ 250000000000) words.old }
{
    SumTable::fill(52, words).at(&[])
}

// Each of the 2598960 sets has the number 1.
#[test]
fn levels_of_a_deck(rt: HostRuntime) -> Result<(), Fail> {
    let mut words = vec![in rt.alloc(); 1u64; table_words(52)]?;
    assert_eq!(rt; sum_of_a_deck(&mut words), 2598960);
    Ok(())
}

// Seven cards, and the number 1 for each set of five but 0 1 2 5 6, which has the index 11 and the number 5.
#[test]
fn sums_of_a_small_deck(rt: HostRuntime) {
    assert_eq!(rt;
        [
            table_words(7),
            table_words(52),
            table_words(53),
            table_words(54)
        ],
        [120, 2893164, 3187368, 3505051]
    );
    let mut words = [1; 120];
    words[99 + 11] = 5;
    let table = SumTable::fill(7, &mut words);
    assert_eq!(rt;
        [table.at(&[]), table.at(&[5]), table.at(&[0, 1, 2, 5, 6])],
        [25, 19, 5]
    );
    let mut reads = Reads::new(&table);
    let hand = [0, 1, 2, 3, 4];
    let few = held_total(&mut reads, &hand, 7);
    let fewer = held_total(&mut reads, &hand, 15);
    let none = held_total(&mut reads, &hand, 0);
    let totals = all_totals(&mut reads, &hand);
    assert_eq!(rt; [few, fewer, none], [5, 2, 0]);
    assert_eq!(rt;
        [totals[7], totals[15], totals[31], totals[0]],
        [5, 2, 1, 0]
    );
}
