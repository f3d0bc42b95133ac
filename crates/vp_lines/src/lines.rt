//! Lines that are put to a sink.

ghost use Rattle.std.specs.Prelude.{◌≡◌, ◌+◌, ◌*◌, ◌<◌, ◌≤◌, [], length, map};
ghost use Rattle.std.specs.Fmt.{decimal};
ghost use Rattle.vp_card.specs.Texts.{card_text, rank_set_text};
ghost use Rattle.vp_io.specs.Puts.{Puts};
ghost use Rattle.vp_lines.specs.Words.{AreLines, IsLine, line_words, lines_words, room_of, word_room, words_of};
ghost use Rattle.vp_text.specs.Written.{line_of, with_word, with_words, written};

use crate::Word;
use vp_card::{Card, Hand, RankSet};
use vp_io::{Sink, WriteFault, put};
use vp_text::Out;

/// Appends the text of a card.
#[tactic(auto, using(vp_text::proofs::Room::length_with_word, vp_card::proofs::Texts::card_text_length))]
fn add_card(out: &mut Out, card: Card)
    requires { length out.old + 3 < 512 }
    ensures word { out.new ≡ with_word out.old (card_text card) }
    ensures room { length out.new ≤ length out.old + 3 }
{
    out.word(&card.text());
}

/// Appends the texts of the cards, in their order.
#[tactic(auto, using(vp_text::proofs::WithWords::words_next))]
pub fn add_cards(out: &mut Out, cards: &[Card])
    requires { length out.old + 3 * length cards.now < 512 }
    ensures words { out.new ≡ with_words out.old (map card_text cards.now) }
    ensures room { length out.new ≤ length out.old + 3 * length cards.now }
{
    for card in cards {
        add_card(out, *card);
    }
}

/// Appends the texts of the five cards of a hand.
#[tactic(auto, using(vp_card::proofs::Hands::held_all))]
fn add_hand(out: &mut Out, hand: &Hand)
    requires { length out.old + 15 < 512 }
    ensures words { out.new ≡ with_words out.old (map card_text hand.now) }
    ensures room { length out.new ≤ length out.old + 15 }
{
    add_cards(out, &hand.held(31));
}

/// Appends the numbers.
#[tactic(auto, using(crate::proofs::PutWords::numbers_next))]
fn add_numbers(out: &mut Out, numbers: &[u32])
    requires { length out.old + 11 * length numbers.now < 512 }
    ensures words { out.new ≡ with_words out.old (map decimal numbers.now) }
    ensures room { length out.new ≤ length out.old + 11 * length numbers.now }
{
    for number in numbers {
        add_number(out, *number);
    }
}

/// Appends a number of 32 bits.
#[tactic(auto, using(vp_text::proofs::Room::length_with_word, crate::proofs::Room::length_decimal32))]
fn add_number(out: &mut Out, number: u32)
    requires { length out.old + 11 < 512 }
    ensures word { out.new ≡ with_word out.old (decimal number) }
    ensures room { length out.new ≤ length out.old + 11 }
{
    out.number(number as u128);
}

/// Appends the text of a set of ranks.
#[tactic(auto, using(vp_text::proofs::Room::length_with_word))]
fn add_ranks(out: &mut Out, set: &RankSet)
    requires { length out.old + 14 < 512 }
    ensures word { out.new ≡ with_word out.old (rank_set_text set.now) }
    ensures room { length out.new ≤ length out.old + 14 }
{
    out.word(&set.text());
}

/// Appends a word, or some.
#[tactic(auto, using(vp_text::proofs::Room::length_with_word, vp_text::proofs::Room::length_decimal))]
fn add_word(out: &mut Out, word: Word<'_>)
    requires { length out.old + word_room word < 512 }
    ensures word { out.new ≡ with_words out.old (words_of word.entry) }
    ensures room { length out.new ≤ length out.old + word_room word.entry }
{
    match word {
        Word::Nothing => {}
        Word::Text(text) => out.word(text),
        Word::Number(value) => out.number(value),
        Word::Numbers(numbers) => add_numbers(out, numbers),
        Word::Fraction(over, under) => {
            out.number(over);
            out.word(b"/");
            out.number(under);
        }
        Word::Ranks(set) => add_ranks(out, set),
        Word::Cards(cards) => add_cards(out, cards),
        Word::Hand(hand) => add_hand(out, hand),
    }
}

/// Appends the words of a line.
#[tactic(auto, using(crate::proofs::PutWords::room_more))]
fn add_words(out: &mut Out, words: &[Word<'_>])
    requires empty { out.old ≡ [] }
    requires room { room_of words.now < 512 }
    ensures { out.new ≡ with_words [] (line_words words.now) }
{
    for word in words {
        add_word(out, *word);
    }
}

/// Puts a line of these words, with one space between and a line feed at its end.
pub fn put_words<K: Sink>(words: &[Word<'_>], sink: &mut K) -> Result<(), WriteFault>
    requires { IsLine words.now }
    // The whole line is put; or a proper beginning of it, and a fault is counted.
    ensures { Puts (K.told sink.old) (K.told sink.new) result (line_of (line_words words.now)) }
{
    let mut out = Out::new();
    add_words(&mut out, words);
    put(sink, out.line())
}

/// Puts lines, one after another, each of its words. Behind a fault none is put.
pub fn put_lines<K: Sink>(lines: &[&[Word<'_>]], sink: &mut K) -> Result<(), WriteFault>
    requires { AreLines lines.now }
    // All lines are put; or a proper beginning of them, and a fault is counted.
    ensures { Puts (K.told sink.old) (K.told sink.new) result (written (lines_words lines.now)) }
{
    for line in lines {
        put_words(line, sink)?;
    }
    Ok(())
}
