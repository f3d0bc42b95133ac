//! Pay tables, written line by line.

ghost use Rattle.std.specs.Prelude.{◌≡◌, ◌+◌, ◌<◌, ◌≤◌, ◌∷◌, ◌++◌, length, map, ℕ, List};
ghost use Rattle.vp_io.specs.Puts.{Puts};
ghost use Rattle.vp_lines.specs.Words.{word_room, words_of};
ghost use Rattle.vp_pay.specs.Spelling.{head_text, kicker_words, pattern_words, pay_line_words, qualifier_word, wild_word, table_text};
ghost use Rattle.vp_pay.specs.PatternWords.{four_words, four_room};
ghost use Rattle.vp_pay.specs.Table.{IsTable};
ghost use Rattle.vp_pay.specs.Written.{IsReadAgain};
ghost use Rattle.vp_pay.specs.declared.table.PayTable.{PayTable};
ghost use Rattle.vp_text.specs.Written.{line_of, written};

use crate::{Pattern, PayLine, PayTable, Qualifier};
use vp_card::{RankSet, rank_letter};
use vp_io::{Sink, WriteFault};
use vp_lines::{Word, put_lines, put_words};

/// The words of a pattern.
#[derive(Clone, Copy)]
struct PatternWords<'a> {
    /// The name of the pattern.
    key: Word<'a>,
    /// Its number of wild cards, or its set of ranks.
    first: Word<'a>,
    /// `kicker`, where it has one.
    kicker: Word<'a>,
    /// The set of ranks of the kicker.
    second: Word<'a>,
}

/// The words of a pattern that has a set of ranks or none.
fn without_kicker<'a>(key: &'a [u8], first: Word<'a>) -> PatternWords<'a>
    requires { length key.now + word_room first ≤ 46 }
    ensures words { four_words result ≡ key.now ∷ words_of first.entry }
    ensures room { four_room result ≤ 70 }
{
    PatternWords {
        key: Word::Text(key),
        first,
        kicker: Word::Nothing,
        second: Word::Nothing,
    }
}

/// The words of a pattern that may have a kicker.
fn with_kicker<'a>(key: &'a [u8], first: Word<'a>, kicker: &'a Option<RankSet>) -> PatternWords<'a>
    requires { length key.now + word_room first ≤ 46 }
    ensures words { four_words result ≡ key.now ∷ words_of first.entry ++ kicker_words kicker.now }
    ensures room { four_room result ≤ 70 }
{
    match kicker {
        None => without_kicker(key, first),
        Some(set) => PatternWords {
            key: Word::Text(key),
            first,
            kicker: Word::Text(b"kicker"),
            second: Word::Ranks(set),
        },
    }
}

/// The words of a pattern.
fn pattern_words<'a>(pattern: &'a Pattern) -> PatternWords<'a>
    ensures words { four_words result ≡ pattern_words pattern.now }
    ensures room { four_room result ≤ 70 }
{
    match pattern {
        Pattern::Royal => without_kicker(b"royal", Word::Nothing),
        Pattern::StraightFlush => without_kicker(b"straight-flush", Word::Nothing),
        Pattern::FiveKind(set) => without_kicker(b"five-kind", Word::Ranks(set)),
        Pattern::Wilds(count, kicker) => with_kicker(
            b"wilds",
            Word::Number(*count as u128),
            kicker,
        ),
        Pattern::Quads(set, kicker) => with_kicker(b"quads", Word::Ranks(set), kicker),
        Pattern::FullHouse => without_kicker(b"full-house", Word::Nothing),
        Pattern::Flush => without_kicker(b"flush", Word::Nothing),
        Pattern::Straight => without_kicker(b"straight", Word::Nothing),
        Pattern::Trips => without_kicker(b"trips", Word::Nothing),
        Pattern::TwoPair => without_kicker(b"two-pair", Word::Nothing),
        Pattern::Pair(set) => without_kicker(b"pair", Word::Ranks(set)),
    }
}

/// The word of a qualifier.
fn qualifier_text(qualifier: Qualifier) -> &'static [u8]
    ensures word { result.now ≡ qualifier_word qualifier }
    ensures room { length result.now ≤ 7 }
{
    match qualifier {
        Qualifier::Either => b"either",
        Qualifier::Natural => b"natural",
        Qualifier::Wild => b"wild",
    }
}

/// Puts a pay line.
#[tactic(auto, unfolding(crate::specs::Spelling::pay_line_words))]
fn put_pay_line<K: Sink>(line: &PayLine, coins: u8, sink: &mut K) -> Result<(), WriteFault>
    requires { coins ≤ 5 }
    ensures { Puts (K.told sink.old) (K.told sink.new) result (line_of (pay_line_words coins line.now)) }
{
    let pattern = pattern_words(&line.pattern);
    let words = [
        Word::Text(b"line"),
        Word::Text(line.name.text()),
        pattern.key,
        pattern.first,
        pattern.kicker,
        pattern.second,
        Word::Text(qualifier_text(line.qualifier)),
        Word::Numbers(&line.pays[..coins as usize]),
    ];
    put_words(&words, sink)
}

/// Puts pay lines, one after another.
fn put_pay_lines<K: Sink>(lines: &[PayLine], coins: u8, sink: &mut K) -> Result<(), WriteFault>
    requires { coins ≤ 5 }
    ensures { Puts (K.told sink.old) (K.told sink.new) result (written (map (pay_line_words coins) lines.now)) }
{
    for line in lines {
        put_pay_line(line, coins, sink)?;
    }
    Ok(())
}

/// Puts the lines in front of the pay lines, with this word for the wild rank.
fn put_head_with<'a, K: Sink>(
    table: &'a PayTable,
    wild: &'a [u8],
    sink: &mut K,
) -> Result<(), WriteFault>
    requires { wild.now ≡ wild_word table.now.wild }
    ensures { Puts (K.told sink.old) (K.told sink.new) result (written (head_text table.now)) }
{
    put_lines(
        &[
            &[Word::Text(b"table"), Word::Text(table.name.text())],
            &[Word::Text(b"deck"), Word::Number(table.deck as u128)],
            &[Word::Text(b"wild"), Word::Text(wild)],
            &[Word::Text(b"coins"), Word::Number(table.coins as u128)],
        ],
        sink,
    )
}

/// Puts the lines in front of the pay lines.
fn put_head<K: Sink>(table: &PayTable, sink: &mut K) -> Result<(), WriteFault>
    requires { IsTable table.now }
    ensures { Puts (K.told sink.old) (K.told sink.new) result (written (head_text table.now)) }
{
    match table.wild {
        None => put_head_with(table, b"none", sink),
        Some(rank) => put_head_with(table, &[rank_letter(rank)], sink),
    }
}

impl PayTable {
    /// Writes the table in its one spelling: one space between words, a line feed at the end of each line.
    pub fn write<K: Sink>(&self, sink: &mut K) -> Result<(), WriteFault>
        requires { IsTable self.now }
        // The whole spelling is put; or a proper beginning of it, and a fault is counted.
        ensures { Puts (K.told sink.old) (K.told sink.new) result (written (table_text self.now)) }
    {
        put_head(self, sink)?;
        put_pay_lines(&self.lines, self.coins, sink)?;
        put_words(&[Word::Text(b"end")], sink)
    }
}

/// A table that was written is read again, whatever follows, and what follows is left.
pub fn written_tables_are_read()
    ensures { (t : PayTable) (more : List ℕ) → IsTable t → IsReadAgain table_text t more }
{}
