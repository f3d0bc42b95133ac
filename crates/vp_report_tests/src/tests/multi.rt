//! Moments over all deals of two small games.

ghost use Rattle.std.specs.Prelude.{◌≡◌, ◌≤◌, length};
ghost use Rattle.vp_pay.specs.Bets.{IsBet};
ghost use Rattle.vp_count.specs.Table.{first_word};

mod pairs;

use std::alloc::Global;
use std::test::Fail;
use vp_count::table_words;
use vp_hold::{Game, Squares};
use vp_multi::{MomentSums, moments};
use vp_pay::PayTable;
use vp_pay::samples::{JACKS, ONE_JOKER};

/// The moments of so many hands, for one coin.
fn moments_of(table: &PayTable, words: &mut [u64], more: &mut [u64], hands: u8) -> MomentSums
    requires bet { IsBet table.now 1 }
    requires long { length words.old ≡ first_word table.now.deck 6 }
    requires longer { length more.old ≡ first_word table.now.deck 6 }
    requires hands_from { 1 ≤ hands }
    requires hands_to { hands ≤ 100 }
{
    let game = Game::of(table, 1, words);
    let squares = Squares::fill(&game, more);
    moments(&game, &squares, hands)
}

fn moments_of_text(alloc: Global, text: &[u8], hands: u8) -> Result<MomentSums, Fail>
    requires long { length text.now ≤ 67108864 }
    requires hands_from { 1 ≤ hands }
    requires hands_to { hands ≤ 100 }
{
    let table = PayTable::in_text(text).ok_or("the table is refused")?;
    let mut words = vec![in alloc; 7u64; table_words(table.deck)]?;
    let mut more = vec![in alloc; 9u64; table_words(table.deck)]?;
    Ok(moments_of(&table, &mut words, &mut more, hands))
}

// A joker pays 1: dealt, it is held, and else comes in 5 of 48 draws of five cards. With two hands a deal without it makes
// 2 * 5 / 48 a mean and 2 * 5 / 48 + 2 * (5 / 48) * (5 / 48) a mean square.
#[test]
fn two_hands_with_a_joker(rt: HostRuntime) -> Result<(), Fail> {
    let told = moments_of_text(rt.alloc(), ONE_JOKER, 2)?;
    assert_eq!(rt; told.mean, 9271270008000);
    assert_eq!(rt; told.second, 123198420585780540000);
    assert_eq!(rt; told.within, 17776953306001890000);
    assert_eq!(rt; told.between, 41388924880399310364150000);
    Ok(())
}

// The published variance of one coin of 9/6 Jacks or Better lies between 19.51 and 19.52.
#[test]
fn variance_of_jacks(rt: HostRuntime) -> Result<(), Fail> {
    let told = moments_of_text(rt.alloc(), JACKS, 100)?;
    assert_eq!(rt; told.mean, 1984231592379600);
    // In millionths; the number of deals times the common denominator, and the common denominator.
    let (all, common) = (19933230517200u128, 7669695u128);
    let within = told.within.wrapping_mul(1_000_000) / (all * common);
    let between = told.between.wrapping_mul(1_000_000) / (all * all);
    let variance = within.wrapping_add(between);
    assert!(rt;
        19_510_000 < variance && variance < 19_520_000,
        "{variance}"
    );
    Ok(())
}

/// A joker pays the greatest payment.
const JOKER: &[u8] = b"table joker
deck 53
wild none
coins 1
line joker wilds 1 either 500000
end
";

/// All that wins pays the greatest payment, and each hand with a wild card wins.
const EVERYTHING: &[u8] = b"table everything
deck 53
wild 2
coins 1
line pair pair any either 500000
line flush flush either 500000
line straight straight either 500000
end
";

// The first as for two hands, a deal without the joker making 100 * 5 / 48 and 100 * 5 / 48 + 100 * 99 * (5 / 48) * (5 / 48)
// times the payment and its square. Of the second a plain program tried all holds of all deals.
#[test]
fn greatest_payments(rt: HostRuntime) -> Result<(), Fail> {
    for (text, due) in [
        (
            JOKER,
            MomentSums {
                mean: 231781750200000000000,
                second: 55222245066260522250000000000000000,
                within: 4444238326500472500000000000000,
                between: 10347231220099827591037500000000000000,
            },
        ),
        (
            EVERYTHING,
            MomentSums {
                mean: 1137802509432000000000,
                second: 458823889598447930040000000000000000,
                within: 2852733073653020400000000000000,
                between: 2126683862151900236955600000000000000,
            },
        ),
    ] {
        assert_eq!(rt; moments_of_text(rt.alloc(), text, 100)?, due);
    }
    Ok(())
}
