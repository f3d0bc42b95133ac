//! The deal line: five different cards of the deck, in any order.

ghost use Rattle.std.specs.Prelude.{◌≡◌, ℕ, true, List, [], ◌∷◌, map, Ok, IfOk, IfErr, IfSome};
ghost use Rattle.vp_card.specs.Cards.{IsDeck, IsHand, in_deck, in_order};
ghost use Rattle.vp_card.specs.Reading.{card_of};
ghost use Rattle.vp_card.specs.Texts.{card_text};
ghost use Rattle.vp_text.specs.Lines.{Feed};
ghost use Rattle.vp_text.specs.Sections.{Starts, Refuses, Leaves, IsAt, StandsBehind};
ghost use Rattle.vp_text.specs.Reading.{Gives};
ghost use Rattle.vp_text.specs.Pieces.{Takes, one_word, so_many};
ghost use Rattle.vp_pay.specs.Reading.{hand_of};
ghost use Rattle.vp_pay.specs.Sections.{hand_at};
ghost use Rattle.vp_pay.specs.Spelling.{deal_text};
ghost use Rattle.vp_pay.specs.Deal.{AreDealtCards, AreFiveCards, IsCard, IsDealt, TakesExactly};
ghost use Rattle.vp_pay.specs.Written.{IsReadAgain, SpellingsDiffer};

use vp_card::{Card, Hand, in_deck};
use vp_text::{Lines, Refused, Words, key_word};

fn card(words: &mut Words) -> Option<Card>
    ensures line { words.new.line ≡ words.old.line }
    ensures takes { Takes (λ c. c) result words.new.words (one_word card_of words.old.words) }
{
    let word = words.next()?;
    Card::read(word)
}

fn cards(words: &mut Words) -> Option<[Card; 5]>
    ensures line { words.new.line ≡ words.old.line }
    ensures takes { Takes (λ cards. cards) result words.new.words (so_many card_of 5 words.old.words) }
{
    let first = card(words)?;
    let second = card(words)?;
    let third = card(words)?;
    let fourth = card(words)?;
    let fifth = card(words)?;
    Some([first, second, third, fourth, fifth])
}

/// Takes the next word, which is to be a card's text.
pub fn next_card(words: &mut Words) -> Option<Card>
    ensures line { words.new.line ≡ words.old.line }
    // The text of each card is taken, and nothing else.
    ensures exactly { TakesExactly (λ card. card_text card ∷ []) IsCard words.old.words result words.new.words }
    ensures takes { Takes (λ c. c) result words.new.words (one_word card_of words.old.words) }
{
    card(words)
}

/// Takes the next five words, which are to be cards' texts; the cards may repeat and stand in any order.
pub fn five_cards(words: &mut Words) -> Option<[Card; 5]>
    ensures line { words.new.line ≡ words.old.line }
    // The texts of each five cards are taken, and nothing else.
    ensures exactly { TakesExactly (map card_text) AreFiveCards words.old.words result words.new.words }
    ensures takes { Takes (λ cards. cards) result words.new.words (so_many card_of 5 words.old.words) }
{
    cards(words)
}

#[tactic(auto, unfolding(crate::specs::Reading::hand_of, crate::specs::Reading::deal_of))]
fn hand_of(words: &mut Words, deck: u8) -> Option<Hand>
    ensures read { result ≡ hand_of deck words.old.words }
    ensures hand { IfSome result (λ hand. IsHand hand) }
{
    key_word(words, b"deal")?;
    let cards = cards(words)?;
    if words.next().is_some() || !in_deck(&cards, deck) {
        return None;
    }
    Hand::of(cards)
}

#[tactic(auto, unfolding(crate::specs::Sections::hand_at), using(vp_text::proofs::Standing::leaves_all, vp_text::proofs::Standing::leaves_line))]
fn hand_at(lines: &mut Lines, deck: u8) -> Result<Hand, Refused>
    ensures read { Gives (λ h. h) result lines.new (hand_at deck lines.old) }
    ensures hand { IfOk result (λ hand. IsHand hand) }
    ensures leaves { Leaves lines.old lines.new }
    ensures at { IfErr result (λ e. IsAt e.line lines.new) }
{
    let mut words = lines.next_wanted()?;
    let line = words.line();
    hand_of(&mut words, deck).ok_or(Refused { line })
}

/// Reads a deal line of five different cards of a deck of so many, in any order.
pub fn read_deal(lines: &mut Lines, deck: u8) -> Result<Hand, Refused>
    requires { IsDeck deck }
    // What is read is a deal's hand, and the deal's spelling stands in front of the lines that are left.
    ensures found { IfOk result (λ hand. IsDealt deck lines.old hand lines.new) }
    ensures hand { IfOk result (λ hand. IsHand hand) }
    ensures of_deck { IfOk result (λ hand. in_deck deck hand ≡ true) }
    // A deal that is spelled so is read, whatever follows.
    ensures only { (cards : List ℕ) (left : Feed) → AreDealtCards deck cards → Starts deal_text lines.old cards left
        → (result ≡ Ok (in_order cards)) × (lines.new ≡ left) }
    // Refused is the line where it begins no deal line, or the one past the end where there is none.
    ensures refused { IfErr result (λ e. Refuses deal_text (AreDealtCards deck) lines.old e.line) }
    // Where a line is refused, the lines behind it are left; none are where the input ends first.
    ensures stands { IfErr result (λ e. StandsBehind lines.old e.line lines.new) }
    ensures exact { Gives (λ hand. hand) result lines.new (hand_at deck lines.old) }
{
    hand_at(lines, deck)
}

/// Different deals, in the order of dealing, have different spellings, and no spelling begins another one.
pub fn deal_spellings_differ()
    ensures { (n : ℕ) → IsDeck n → SpellingsDiffer deal_text (AreDealtCards n) }
{}

/// A deal line that was written is read again, whatever follows, and what follows is left.
pub fn written_deals_are_read()
    ensures { (n : ℕ) (cards more : List ℕ) → IsDeck n → AreDealtCards n cards → IsReadAgain deal_text cards more }
{}
