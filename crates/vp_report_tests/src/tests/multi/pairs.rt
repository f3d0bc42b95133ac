//! Moments of two hands, summed over all lists of two draws.

ghost use Rattle.std.specs.Prelude.{◌≡◌, ◌<◌, true, length, IfSome};
ghost use Rattle.vp_card.specs.Cards.{in_deck};
ghost use Rattle.vp_count.specs.Table.{first_word};
ghost use Rattle.vp_pay.specs.Bets.{IsBet};
ghost use Rattle.vp_pay.specs.Table.{IsTable};

use std::marker::Brand;
use std::sync::ledger::{Blank, Ledger};
use std::test::*;
use vp_card::{Card, Hand};
use vp_count::table_words;
use vp_hold::{Game, Squares};
use vp_pay::samples::JACKS;
use vp_pay::{PayTable, read_deal};
use vp_text::Lines;
use vp_wild::{Steps, pay};

/// The hand where the card at one place is another card; None where that card is in the hand.
fn drawn(hand: &Hand, place: u8, card: u8) -> Option<Hand> {
    let mut cards = [Card::default(); 5];
    for (i, number) in hand.numbers().iter().enumerate() {
        if *number == card {
            return None;
        }
        let number = if i == usize::from(place) {
            card
        } else {
            *number
        };
        if i < 5 {
            cards[i] = Card::new(number)?;
        }
    }
    Hand::of(cards)
}

/// Over all lists of two draws to four cards, all but the one at `place`: how many there are, the sum of the totals of two
/// payments, and the sum of the squares of these totals.
fn sums_of_pairs<L: Ledger>(
    table: &PayTable,
    hand: &Hand,
    place: u8,
    steps: &mut Steps<L>,
) -> [u128; 3] {
    let mut sums = [0u128; 3];
    for first in 0..table.deck {
        for second in 0..table.deck {
            if let Some(one) = drawn(hand, place, first)
                && let Some(other) = drawn(hand, place, second)
            {
                let paid = pay(table, 1, &one, steps).saturating_add(pay(table, 1, &other, steps));
                let total = u128::from(paid);
                sums[0] = sums[0].saturating_add(1);
                sums[1] = sums[1].saturating_add(total);
                sums[2] = sums[2].saturating_add(total.saturating_mul(total));
            }
        }
    }
    sums
}

/// The product, where it is not too large.
fn times(a: u128, b: u128) -> u128 {
    a.saturating_mul(b)
}

/// Whether the value and the square of each hold of four cards give the means that the lists of two draws have.
fn moments_agree<L: Ledger>(game: &Game, squares: &Squares, hand: &Hand, blank: Blank) -> bool
    requires same { squares.now ≡ game.now }
    requires cards { in_deck game.now.table.deck hand.now ≡ true }
    requires name { blank.name ≡ L.name }
    requires parts { blank.parts ≡ L.parts }
    requires some { 0 < blank.parts }
{
    let mut steps = Steps::<L>::new(blank);
    let common = 7_669_695;
    for (place, mask) in [(0, 30), (1, 29), (2, 27), (3, 23), (4, 15)] {
        let value = u128::from(game.value(hand, mask));
        let square = u128::from(squares.value(hand, mask));
        let first = times(2, value);
        let second = times(times(2, square), common).saturating_add(times(2, times(value, value)));
        let [lists, totals, squared] = sums_of_pairs(game.table(), hand, place, &mut steps);
        if lists != 47 * 47
            || times(totals, common) != times(first, lists)
            || times(times(squared, common), common) != times(second, lists)
        {
            return false;
        }
    }
    true
}

/// The hand of a deal line, where its cards are of the table's deck.
fn hand_of(deal: &[u8; 19], table: &PayTable) -> Option<Hand>
    requires { IsTable table.now }
    ensures { IfSome result (λ hand. in_deck table.now.deck hand ≡ true) }
{
    let hand = read_deal(&mut Lines::new(deal), table.deck).ok()?;
    if hand.is_of_deck(table.deck) {
        Some(hand)
    } else {
        None
    }
}

/// On how many of the deals the moments agree, for one coin.
fn deals_agree(
    table: &PayTable,
    deals: &[&[u8; 19]; 3],
    words: &mut [u64],
    more: &mut [u64],
) -> Option<u32>
    requires bet { IsBet table.now 1 }
    requires long { length words.old ≡ first_word table.now.deck 6 }
    requires longer { length more.old ≡ first_word table.now.deck 6 }
{
    let game = Game::of(table, 1, words);
    let squares = Squares::fill(&game, more);
    let mut agreeing = 0u32;
    for deal in deals {
        let hand = hand_of(*deal, table)?;
        if moments_agree::<Brand>(&game, &squares, &hand, Blank::new(1)) {
            agreeing = agreeing.saturating_add(1);
        }
    }
    Some(agreeing)
}

// To four cards of each there are 47 draws, and 47 * 47 lists of two.
#[test]
fn all_lists_of_two_draws(rt: HostRuntime) -> Result<(), Fail> {
    let table = PayTable::in_text(JACKS).ok_or("a table")?;
    let deals = [
        b"deal As Ks Qs Js 4s",
        b"deal 8c 8d 8h 8s 3c",
        b"deal 5c 5d 9h 9s Qc",
    ];
    let mut words = vec![in rt.alloc(); 7u64; table_words(table.deck)]?;
    let mut more = vec![in rt.alloc(); 9u64; table_words(table.deck)]?;
    let agreeing = deals_agree(&table, &deals, &mut words, &mut more);
    assert_eq!(rt; agreeing, Some(3));
    Ok(())
}
