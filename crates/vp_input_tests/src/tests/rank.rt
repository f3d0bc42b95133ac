//! Hands with wild cards, with one joker and with both.

use std::test::Fail;
use vp_card::Card;
use vp_rank::{Shape, is_wild_card};

/// The cards, the wild rank, the wild cards, the counts of ranks, the suits, the greatest count and the windows.
type Case = (&'static [u8], Option<u8>, u8, [u8; 13], u8, u8, u16);

#[test]
fn shapes_of_hands(rt: HostRuntime) -> Result<(), Fail> {
    let cases: [Case; 6] = [
        // 2d wild, 3c, 4h, 5h and a joker: A2345, 23456 and 34567
        (
            &[1, 4, 10, 14, 52],
            Some(0),
            2,
            [0, 1, 1, 1, 0, 0, 0, 0, 0, 0, 0, 0, 0],
            0b0101,
            1,
            0b111,
        ),
        // Ts, Js, Qs and both jokers: 89TJQ, 9TJQK and TJQKA
        (
            &[35, 39, 43, 52, 53],
            None,
            2,
            [0, 0, 0, 0, 0, 0, 0, 0, 1, 1, 1, 0, 0],
            0b1000,
            1,
            0b11_1000_0000,
        ),
        // 2c, 2d, 2h wild and both jokers: all windows
        (
            &[0, 1, 2, 52, 53],
            Some(0),
            5,
            [0; 13],
            0,
            0,
            0b11_1111_1111,
        ),
        // 2c, 3d, Kh, Kd, As: a pair fits no window
        (
            &[0, 5, 45, 46, 51],
            None,
            0,
            [1, 1, 0, 0, 0, 0, 0, 0, 0, 0, 0, 2, 1],
            0b1111,
            2,
            0,
        ),
        // 2c, 3c, 4c, 5c and As: A2345
        (
            &[0, 4, 8, 12, 51],
            None,
            0,
            [1, 1, 1, 1, 0, 0, 0, 0, 0, 0, 0, 0, 1],
            0b1001,
            1,
            1,
        ),
        // Kc and Ac wild, 2d: no card but 2d counts
        (
            &[1, 48],
            Some(12),
            1,
            [1, 0, 0, 0, 0, 0, 0, 0, 0, 0, 0, 0, 0],
            0b0010,
            1,
            0b11,
        ),
    ];
    for (numbers, wild, wilds, counts, suits, greatest, windows) in cases {
        let mut cards = [Card::default(); 5];
        let mut natural = 0usize;
        for (card, number) in cards.iter_mut().zip(numbers) {
            *card = Card::new(*number).ok_or("card")?;
            if !is_wild_card(*card, wild) {
                natural = natural.saturating_add(1);
            }
        }
        let many = numbers.len().min(5);
        let shape = Shape::of(&cards[..many], wild);
        let wild_cards = many.saturating_sub(natural);
        assert_eq!(rt;
            (wild_cards, shape.wilds, shape.counts),
            (usize::from(wilds), wilds, counts),
            "{numbers:?}"
        );
        assert_eq!(rt;
            (shape.suits, shape.greatest(), shape.windows()),
            (suits, greatest, windows),
            "{numbers:?}"
        );
        assert_eq!(rt;
            (shape.fits(0), shape.fits(9)),
            (windows % 2 == 1, windows >= 512),
            "{numbers:?}"
        );
    }
    Ok(())
}
