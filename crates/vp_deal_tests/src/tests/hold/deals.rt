//! Deals that the tests read.

ghost use Rattle.std.specs.Prelude.{◌≡◌, ◌≤◌, true, IfSome, length};
ghost use Rattle.vp_card.specs.Cards.{in_deck};
ghost use Rattle.vp_pay.specs.Table.{IsTable};

use vp_card::Hand;
use vp_pay::{PayTable, read_deal};
use vp_text::Lines;

/// A dozen deals of 52 cards: pairs, draws to straights and flushes, made hands, one to four twos, and nothing.
pub(crate) const NATURAL: [&[u8; 19]; 12] = [
    b"deal As Ks Qs Js 4s",
    b"deal 2c 7d 9h Js Kc",
    b"deal 8c 8d 8h 8s 3c",
    b"deal 2c 2d 2h 2s 3c",
    b"deal 9s Ts Js Qs Ks",
    b"deal Ac Ad 7h 7s 7c",
    b"deal 3c 4c 5c 6c 9d",
    b"deal 2h Kd Ks Jd Td",
    b"deal 5c 5d 9h 9s Qc",
    b"deal 2c 2d Ts Js Qs",
    b"deal 3d 6s 8h Tc Qd",
    b"deal 2d 2h 2s 5h 9h",
];

/// A dozen deals of 53 cards, nine of them with the joker.
pub(crate) const ONE_JOKER: [&[u8; 19]; 12] = [
    b"deal Jo Ts Js Qs Ks",
    b"deal Jo 2c 4d 9h As",
    b"deal Jo Ac Ad Ah As",
    b"deal Jo 8c 8d 8h 3c",
    b"deal Jo Kc Kd 7h 7s",
    b"deal Jo 3c 4c 5c 9d",
    b"deal Jo 5h 6h 7h 8h",
    b"deal Jo 2s 3d Ac Ad",
    b"deal Jo 2c 6d 8h Ts",
    b"deal As Ks Qs Js 4s",
    b"deal Kc Kd 9h 9s 9c",
    b"deal 2c 7d 9h Js Qc",
];

/// A dozen deals of 54 cards, four with both jokers, and three with each of them alone.
pub(crate) const TWO_JOKERS: [&[u8; 19]; 12] = [
    b"deal Jk Jo 2c 3c 4c",
    b"deal Jk Jo Ac Ad Ah",
    b"deal Jk Jo 5h 9h Kh",
    b"deal Jk Jo 2c 7d Js",
    b"deal Jk Ts Js Qs Ks",
    b"deal Jk 2c 4d 9h As",
    b"deal Jk 8c 8d 8h 3c",
    b"deal Jo Kc Kd 7h 7s",
    b"deal Jo 3c 4c 5c 9d",
    b"deal Jo 2c 6d 8h Ts",
    b"deal As Ks Qs Js 4s",
    b"deal 2c 7d 9h Js Qc",
];

/// The hand of a deal line, where its cards are of the table's deck.
pub(crate) fn hand_of(deal: &[u8], table: &PayTable) -> Option<Hand>
    requires table { IsTable table.now }
    requires short { length deal.now ≤ 67108864 }
    ensures { IfSome result (λ hand. in_deck table.now.deck hand ≡ true) }
{
    let hand = read_deal(&mut Lines::new(deal), table.deck).ok()?;
    if hand.is_of_deck(table.deck) {
        Some(hand)
    } else {
        None
    }
}
