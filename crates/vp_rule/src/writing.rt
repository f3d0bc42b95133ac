//! Rules, written as lines.

ghost use Rattle.std.specs.Prelude.{◌≡◌, ◌+◌, ◌<◌, ◌≤◌, [], ◌∷◌, ◌++◌, codes, length};
ghost use Rattle.std.specs.Fmt.{decimal};
ghost use Rattle.vp_io.specs.Puts.{Puts};
ghost use Rattle.vp_lines.specs.Words.{IsLine, line_words, room_of, word_room, words_of};
ghost use Rattle.vp_text.specs.Written.{line_of};
ghost use Rattle.vp_card.specs.Texts.{rank_set_text};
ghost use Rattle.vp_rule.specs.Spelling.{name_at, test_words, rule_words};
ghost use Rattle.vp_rule.specs.Valid.{IsTest, IsRule};

use crate::{Rule, Test};
use arrayvec::ArrayVec;
use vp_card::RankSet;
use vp_io::{Sink, WriteFault};
use vp_lines::{Word, put_words};
use vp_pay::PayTable;

/// The decimal digits of a number from 0 to 10.
#[tactic(auto, using(crate::proofs::RuleWords::one_digit, crate::proofs::RuleWords::ten))]
fn digits(number: u8) -> &'static [u8]
    requires { number ≤ 10 }
    ensures digits { result.now ≡ decimal number }
    ensures short { length result.now ≤ 2 }
{
    match number {
        0 => b"0",
        1 => b"1",
        2 => b"2",
        3 => b"3",
        4 => b"4",
        5 => b"5",
        6 => b"6",
        7 => b"7",
        8 => b"8",
        9 => b"9",
        _ => b"10",
    }
}

/// The words of a test that has a word behind its first, or none.
fn with_word<'a>(key: &'a [u8], word: Word<'a>) -> [Word<'a>; 4]
    ensures words { line_words result ≡ key.now ∷ words_of word.entry }
    ensures room { room_of result ≡ length key.now + 1 + word_room word.entry }
{
    [Word::Text(key), word, Word::Nothing, Word::Nothing]
}

/// The words of a test that has a number.
fn with_number(key: &[u8], number: u8) -> [Word<'_>; 4]
    requires { number ≤ 10 }
    ensures words { line_words result ≡ key.now ∷ decimal number ∷ [] }
    ensures room { room_of result ≤ length key.now + 4 }
{
    with_word(key, Word::Text(digits(number)))
}

/// The words of a test that has two numbers, and a set of ranks before them or none.
fn with_range<'a>(key: &'a [u8], set: Word<'a>, least: u8, most: u8) -> [Word<'a>; 4]
    requires least { least ≤ 10 }
    requires most { most ≤ 10 }
    ensures words { line_words result ≡ key.now ∷ words_of set.entry ++ decimal least ∷ decimal most ∷ [] }
    ensures room { room_of result ≤ length key.now + word_room set.entry + 7 }
{
    [
        Word::Text(key),
        set,
        Word::Text(digits(least)),
        Word::Text(digits(most)),
    ]
}

/// The words of a test on the discards of some ranks.
fn left_words(set: &RankSet, number: u8) -> [Word<'_>; 4]
    requires { number ≤ 10 }
    ensures words { line_words result ≡ codes "left" ∷ rank_set_text set.now ∷ decimal number ∷ [] }
    ensures room { room_of result ≤ 30 }
{
    [
        Word::Text(b"left"),
        Word::Ranks(set),
        Word::Text(digits(number)),
        Word::Nothing,
    ]
}

/// The words of a test on the pay line at this place.
fn made_words(table: &PayTable, place: u8) -> [Word<'_>; 4]
    requires { place < length table.now.lines.items }
    ensures words { line_words result ≡ codes "made" ∷ name_at table.now place ∷ [] }
    ensures room { room_of result ≤ 30 }
{
    let name = &table.lines[place as usize].name;
    with_word(b"made", Word::Text(name.text()))
}

/// The words of a test.
fn test_words<'a>(test: &'a Test, table: &'a PayTable) -> [Word<'a>; 4]
    requires { IsTest 2 table.now test.now }
    ensures words { line_words result ≡ test_words table.now test.now }
    ensures room { room_of result ≤ 30 }
{
    match test {
        Test::Hold(number) => with_number(b"hold", *number),
        Test::Wilds(number) => with_number(b"wilds", *number),
        Test::Suited => with_word(b"suited", Word::Nothing),
        Test::Mixed => with_word(b"mixed", Word::Nothing),
        Test::Royal => with_word(b"royal", Word::Nothing),
        Test::Windows(least, most) => with_range(b"windows", Word::Nothing, *least, *most),
        Test::Count(set, least, most) => with_range(b"count", Word::Ranks(set), *least, *most),
        Test::Equal(number) => with_number(b"equal", *number),
        Test::Ranks(number) => with_number(b"ranks", *number),
        Test::Made(place) => made_words(table, *place),
        Test::Left(set, number) => left_words(set, *number),
        Test::LeftSuit(number) => with_number(b"leftsuit", *number),
    }
}

/// The words of a rule's line.
#[tactic(auto, unfolding(crate::specs::Spelling::rule_words))]
fn rule_line<'a>(rule: &'a Rule, table: &'a PayTable) -> ArrayVec<Word<'a>, 33>
    requires { IsRule 2 table.now rule.now }
    ensures words { line_words result.items ≡ rule_words table.now rule.now }
    ensures line { IsLine result.items }
{
    let mut words = ArrayVec::new();
    words.push(Word::Text(b"rule"));
    for test in rule.tests.as_slice() {
        add_test(&mut words, &test_words(test, table));
    }
    words
}

/// Appends the words of a test.
fn add_test<'a>(words: &mut ArrayVec<Word<'a>, 33>, test: &[Word<'a>; 4])
    requires { length words.old.items + 4 ≤ 33 }
    ensures { words.new.items ≡ words.old.items ++ test.now }
{
    let [first, second, third, fourth] = *test;
    words.push(first);
    words.push(second);
    words.push(third);
    words.push(fourth);
}

impl Rule {
    /// Writes the rule's one line, as a list for this table spells it. A rule of version 1 is one of version 2.
    pub fn write<K: Sink>(&self, table: &PayTable, sink: &mut K) -> Result<(), WriteFault>
        requires { IsRule 2 table.now self.now }
        // The whole line is put; or a proper beginning of it, and a fault is counted.
        ensures { Puts (K.told sink.old) (K.told sink.new) result (line_of (rule_words table.now self.now)) }
    {
        put_words(&rule_line(self, table), sink)
    }
}
