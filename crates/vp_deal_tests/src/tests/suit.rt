//! The classes of the three decks counted, and turned hands worked by hand.

ghost use Rattle.vp_card.specs.Cards.{IsDeck};

use std::test::Fail;
use vp_card::{Card, Hand};
use vp_suit::{
    Class, Classes, SuitTurn, carry, class_count, is_representative, least_image, turn, weight,
};

fn hand_of(numbers: [u8; 5]) -> Option<Hand> {
    let [a, b, c, d, e] = numbers;
    Hand::of([
        Card::new(a)?,
        Card::new(b)?,
        Card::new(c)?,
        Card::new(d)?,
        Card::new(e)?,
    ])
}

/// How many classes the deals from a deck have, the sum of their weights, and the last class.
fn walked(deck: u8) -> (u32, u32, Option<Class>)
    requires { IsDeck deck }
{
    let mut classes = Classes::new(deck);
    let mut count = 0u32;
    let mut weights = 0u32;
    let mut last = None;
    while let Some(class) = classes.next() {
        count = count.saturating_add(1);
        weights = weights.saturating_add(u32::from(class.weight));
        last = Some(class);
    }
    (count, weights, last)
}

#[test]
fn counts_the_classes_of_each_deck(rt: HostRuntime) -> Result<(), Fail> {
    // The weights sum to the number of deals. The last class has as many aces as a representative can have at the top.
    for (deck, count, deals, last, weight) in [
        (52, 134459, 2598960, [44, 48, 49, 50, 51], 4),
        (53, 150891, 2869685, [48, 49, 50, 51, 52], 1),
        (54, 169078, 3162510, [48, 49, 50, 52, 53], 4),
    ] {
        assert!(rt; 52 <= deck && deck <= 54);
        let (classes, weights, class) = walked(deck);
        assert_eq!(rt; classes, count, "of {deck} cards");
        assert_eq!(rt; class_count(deck), count, "of {deck} cards");
        assert_eq!(rt; weights, deals, "of {deck} cards");
        let class = class.ok_or("no class")?;
        assert_eq!(rt; class.hand.numbers(), last, "of {deck} cards");
        assert_eq!(rt; class.weight, weight, "of {deck} cards");
    }
    Ok(())
}

#[test]
fn turns_hands(rt: HostRuntime) -> Result<(), Fail> {
    // 2c 3c 4c and both jokers; the four deuces and a joker; 3d 8c 8h 8s and a joker; 3d 8c 8h and both jokers; the royal of
    // spades. Behind each its representative, the least turn that gives it, and the weight.
    for (numbers, least, number, images) in [
        ([0, 4, 8, 52, 53], [0, 4, 8, 52, 53], 0, 4),
        ([0, 1, 2, 3, 52], [0, 1, 2, 3, 52], 0, 1),
        ([5, 24, 26, 27, 52], [7, 24, 25, 26, 52], 4, 4),
        ([5, 24, 26, 52, 53], [6, 24, 25, 52, 53], 2, 12),
        ([35, 39, 43, 47, 51], [32, 36, 40, 44, 48], 9, 4),
    ] {
        let hand = hand_of(numbers).ok_or("hand")?;
        let (image, least_turn) = least_image(&hand);
        let turned = turn(least_turn, &hand);
        assert_eq!(rt;
            [image.numbers(), turned.numbers()],
            [least, least],
            "{numbers:?}"
        );
        assert_eq!(rt;
            (least_turn.number(), weight(&hand)),
            (number, images),
            "{numbers:?}"
        );
        assert_eq!(rt; is_representative(&hand), number == 0, "{numbers:?}");
        assert!(rt; is_representative(&image), "{numbers:?}");
    }
    // Turn 21 exchanges clubs and spades: 3d 8c 8h 8s stay the cards that they are, but 8c and 8s change their places.
    let dealt = hand_of([5, 24, 26, 27, 52]).ok_or("hand")?;
    let exchange = SuitTurn::new(21).ok_or("turn")?;
    assert_eq!(rt; turn(exchange, &dealt).numbers(), [5, 24, 26, 27, 52]);
    assert_eq!(rt; carry(exchange, &dealt, 2), 8);
    assert_eq!(rt; carry(exchange, &dealt, 17), 17);
    assert_eq!(rt; SuitTurn::new(24), None);
    Ok(())
}
