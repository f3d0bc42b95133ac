//! Cards in a field of bytes.

ghost use Rattle.std.specs.Prelude.{◌≡◌, ◌<◌, ◌+◌, length, [], ◌∷◌, option_map, get_or};
ghost use Rattle.vp_card.specs.Reading.{card_of};
ghost use Rattle.vp_csv.specs.Fields.{cards_of, more_cards};

use arrayvec::ArrayVec;
use vp_card::Card;

/// A card of two bytes of a text.
fn card_at(text: &[u8], place: usize) -> Option<Card>
    requires { place + 1 < length text.now }
    ensures { result ≡ card_of (get_or text.now place 0 ∷ get_or text.now (place + 1) 0 ∷ []) }
{
    Card::read(&[text[place], text[place + 1]])
}

/// The cards behind these, at most five in all, with a space before each.
#[tactic(auto, using(crate::proofs::Field_cards::step), unfolding(crate::specs::Fields::more_cards))]
fn more_cards(front: ArrayVec<Card, 5>, text: &[u8]) -> Option<ArrayVec<Card, 5>>
    ensures { option_map (λ cards. cards.items) result ≡ more_cards front.items text.now }
{
    let mut cards = front;
    let mut rest = text;
    'cards: while rest.len() >= 3 {
        if rest[0] != b' ' || cards.is_full() {
            return None;
        }
        let Some(card) = card_at(rest, 1) else {
            return None;
        };
        cards.push(card);
        rest = rest.split_at(3).1;
    }
    if rest.is_empty() { Some(cards) } else { None }
}

/// The cards of a field, at most five.
#[tactic(auto, using(crate::proofs::Field_cards::first_card, crate::proofs::Field_cards::no_first, crate::proofs::Field_cards::one_byte), unfolding(crate::specs::Fields::cards_of))]
pub(crate) fn cards_of(field: &[u8]) -> Option<ArrayVec<Card, 5>>
    ensures { option_map (λ cards. cards.items) result ≡ cards_of field.now }
{
    let mut cards = ArrayVec::new();
    if field.is_empty() {
        return Some(cards);
    }
    if field.len() < 2 {
        return None;
    }
    let Some(card) = card_at(field, 0) else {
        return None;
    };
    cards.push(card);
    more_cards(cards, field.split_at(2).1)
}
