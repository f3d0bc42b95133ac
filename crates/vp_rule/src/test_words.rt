//! The words of tests.

ghost use Rattle.std.specs.Prelude.{◌≡◌, ◌≤◌, IfSome};
ghost use Rattle.vp_text.specs.Numbers.{number_within};
ghost use Rattle.vp_text.specs.Pieces.{Takes, one_word};
ghost use Rattle.vp_card.specs.Reading.{rank_set_of};
ghost use Rattle.vp_rule.specs.Reading.{digit, range_piece, windows_piece, count_piece, left_piece, made_piece, plain_test, test_behind};

use crate::Test;
use vp_card::RankSet;
use vp_pay::PayTable;
use vp_text::{Words, next_number_within};

fn digit(words: &mut Words, most: u8) -> Option<u8>
    ensures takes { Takes (λ n. n) result words.new.words (one_word (digit most) words.old.words) }
    ensures most { IfSome result (λ n. n ≤ most) }
{
    let value = next_number_within(words, 0, u64::from(most))?;
    Some(value as u8)
}

fn from_to(words: &mut Words, least: u8, most: u8) -> Option<u8>
    ensures { Takes (λ n. n) result words.new.words (one_word (number_within least most) words.old.words) }
{
    let value = next_number_within(words, u64::from(least), u64::from(most))?;
    Some(value as u8)
}

#[tactic(auto, unfolding(crate::specs::Reading::range_piece))]
fn range(words: &mut Words, most: u8) -> Option<(u8, u8)>
    ensures { Takes (λ r. r) result words.new.words (range_piece most words.old.words) }
{
    let least = digit(words, most)?;
    let greatest = from_to(words, least, most)?;
    Some((least, greatest))
}

fn rank_set(words: &mut Words) -> Option<RankSet>
    ensures { Takes (λ s. s) result words.new.words (one_word rank_set_of words.old.words) }
{
    let word = words.next()?;
    RankSet::read(word)
}

#[tactic(auto, unfolding(crate::specs::Reading::windows_piece))]
fn windows(words: &mut Words) -> Option<Test>
    ensures { Takes (λ t. t) result words.new.words (windows_piece words.old.words) }
{
    let (least, most) = range(words, 10)?;
    Some(Test::Windows(least, most))
}

#[tactic(auto, unfolding(crate::specs::Reading::count_piece))]
fn count(words: &mut Words) -> Option<Test>
    ensures { Takes (λ t. t) result words.new.words (count_piece words.old.words) }
{
    let set = rank_set(words)?;
    let (least, most) = range(words, 5)?;
    Some(Test::Count(set, least, most))
}

#[tactic(auto, unfolding(crate::specs::Reading::left_piece))]
fn left(words: &mut Words) -> Option<Test>
    ensures { Takes (λ t. t) result words.new.words (left_piece words.old.words) }
{
    let set = rank_set(words)?;
    let number = digit(words, 5)?;
    Some(Test::Left(set, number))
}

#[tactic(auto, unfolding(crate::specs::Reading::made_piece))]
fn made(words: &mut Words, table: &PayTable) -> Option<Test>
    ensures { Takes (λ t. t) result words.new.words (made_piece table.now words.old.words) }
{
    let name = words.next()?;
    let place = table.position(name)?;
    Some(Test::Made(place))
}

fn plain_test(word: &[u8]) -> Option<Test>
    ensures { result ≡ plain_test word.now }
{
    if word == b"suited".as_slice() {
        Some(Test::Suited)
    } else if word == b"mixed".as_slice() {
        Some(Test::Mixed)
    } else if word == b"royal".as_slice() {
        Some(Test::Royal)
    } else {
        None
    }
}

/// The test that begins with this word, in a list of this version.
#[tactic(auto, unfolding(crate::specs::Reading::test_behind))]
pub(crate) fn test_behind(
    word: &[u8],
    words: &mut Words,
    version: u8,
    table: &PayTable,
) -> Option<Test>
    ensures { Takes (λ t. t) result words.new.words (test_behind version table.now word.now words.old.words) }
{
    if word == b"hold".as_slice() {
        let number = digit(words, 5)?;
        Some(Test::Hold(number))
    } else if word == b"wilds".as_slice() {
        let number = digit(words, 5)?;
        Some(Test::Wilds(number))
    } else if word == b"windows".as_slice() {
        windows(words)
    } else if word == b"count".as_slice() {
        count(words)
    } else if word == b"equal".as_slice() {
        let number = digit(words, 5)?;
        Some(Test::Equal(number))
    } else if word == b"ranks".as_slice() {
        let number = digit(words, 5)?;
        Some(Test::Ranks(number))
    } else if word == b"made".as_slice() {
        made(words, table)
    } else if version == 2 && word == b"left".as_slice() {
        left(words)
    } else if version == 2 && word == b"leftsuit".as_slice() {
        let number = digit(words, 5)?;
        Some(Test::LeftSuit(number))
    } else {
        plain_test(word)
    }
}
