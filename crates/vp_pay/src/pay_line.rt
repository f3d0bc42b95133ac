//! The pieces of a pay line, read from the front of its words.

ghost use Rattle.std.specs.Prelude.{◌≡◌, ◌≤◌, ◌<◌, Option, IfSome};
ghost use Rattle.vp_text.specs.Pieces.{Takes, one_word, key_word};
ghost use Rattle.vp_pay.specs.Reading.{name_of, one_to_five, qualifier_of, payment_of, kicker_piece, wilds_piece, quads_piece, pattern_behind, pattern_piece, columns_piece, pay_line_of};
ghost use Rattle.vp_card.specs.Reading.{rank_set_of};
ghost use Rattle.vp_pay.specs.declared.pattern.Pattern.TheVariants.{FiveKind, Pair};

use crate::words::{plain_of, qualifier_of};
use crate::{Name, Pattern, PayLine, Qualifier};
use vp_card::RankSet;
use vp_text::{Words, key_word, next_number_within};

#[tactic(auto, unfolding(crate::specs::Reading::name_of))]
pub(crate) fn name(words: &mut Words) -> Option<Name>
    ensures { Takes (λ n. n) result words.new.words (one_word name_of words.old.words) }
{
    let word = words.next()?;
    Name::read(word)
}

pub(crate) fn one_to_five(words: &mut Words) -> Option<u8>
    ensures takes { Takes (λ n. n) result words.new.words (one_word one_to_five words.old.words) }
    ensures range { IfSome result (λ n. (1 ≤ n) × (n ≤ 5)) }
{
    let value = next_number_within(words, 1, 5)?;
    Some(value as u8)
}

fn rank_set(words: &mut Words) -> Option<RankSet>
    ensures { Takes (λ s. s) result words.new.words (one_word rank_set_of words.old.words) }
{
    let word = words.next()?;
    RankSet::read(word)
}

fn qualifier(words: &mut Words) -> Option<Qualifier>
    ensures { Takes (λ q. q) result words.new.words (one_word qualifier_of words.old.words) }
{
    let word = words.next()?;
    qualifier_of(word)
}

#[tactic(auto, unfolding(crate::specs::Reading::kicker_piece))]
fn kicker(words: &mut Words) -> Option<Option<RankSet>>
    ensures { Takes (λ k. k) result words.new.words (kicker_piece words.old.words) }
{
    if !words.next_is(b"kicker") {
        return Some(None);
    }
    key_word(words, b"kicker")?;
    let set = rank_set(words)?;
    Some(Some(set))
}

#[tactic(auto, unfolding(crate::specs::Reading::wilds_piece))]
fn wilds(words: &mut Words) -> Option<Pattern>
    ensures { Takes (λ p. p) result words.new.words (wilds_piece words.old.words) }
{
    let count = one_to_five(words)?;
    let kicker = kicker(words)?;
    if kicker.is_some() && count != 4 {
        return None;
    }
    Some(Pattern::Wilds(count, kicker))
}

#[tactic(auto, unfolding(crate::specs::Reading::quads_piece))]
fn quads(words: &mut Words) -> Option<Pattern>
    ensures { Takes (λ p. p) result words.new.words (quads_piece words.old.words) }
{
    let set = rank_set(words)?;
    let kicker = kicker(words)?;
    Some(Pattern::Quads(set, kicker))
}

#[tactic(auto, unfolding(crate::specs::Reading::pattern_behind))]
fn pattern_behind(word: &[u8], words: &mut Words) -> Option<Pattern>
    ensures { Takes (λ p. p) result words.new.words (pattern_behind word.now words.old.words) }
{
    if word == b"five-kind".as_slice() {
        let set = rank_set(words)?;
        Some(Pattern::FiveKind(set))
    } else if word == b"wilds".as_slice() {
        wilds(words)
    } else if word == b"quads".as_slice() {
        quads(words)
    } else if word == b"pair".as_slice() {
        let set = rank_set(words)?;
        Some(Pattern::Pair(set))
    } else {
        plain_of(word)
    }
}

#[tactic(auto, unfolding(crate::specs::Reading::pattern_piece))]
fn pattern(words: &mut Words) -> Option<Pattern>
    ensures { Takes (λ p. p) result words.new.words (pattern_piece words.old.words) }
{
    let word = words.next()?;
    pattern_behind(word, words)
}

fn payment(words: &mut Words) -> Option<u32>
    ensures { Takes (λ p. p) result words.new.words (one_word payment_of words.old.words) }
{
    let value = next_number_within(words, 0, 500000)?;
    Some(value as u32)
}

fn columns(words: &mut Words, coins: u8) -> Option<[u32; 5]>
    requires { coins ≤ 5 }
    ensures { Takes (λ p. p) result words.new.words (columns_piece coins words.old.words) }
{
    let mut pays = [0u32; 5];
    for column in 0..coins as usize {
        let Some(pay) = payment(words) else {
            return None;
        };
        pays[column] = pay;
    }
    Some(pays)
}

/// The pay line that these words spell, of a table with so many coins.
#[tactic(auto, unfolding(crate::specs::Reading::pay_line_of))]
pub(crate) fn pay_line_of(words: &mut Words, coins: u8) -> Option<PayLine>
    requires { coins ≤ 5 }
    ensures { result ≡ pay_line_of coins words.old.words }
{
    key_word(words, b"line")?;
    let name = name(words)?;
    let pattern = pattern(words)?;
    let qualifier = qualifier(words)?;
    let pays = columns(words, coins)?;
    if words.next().is_some() {
        return None;
    }
    Some(PayLine {
        name,
        pattern,
        qualifier,
        pays,
    })
}
