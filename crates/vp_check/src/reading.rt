//! Certificates, read line by line.

ghost use Rattle.std.specs.Prelude.{◌≤◌, ◌≡◌, length, option_map, Err, IfOk, IfErr};
ghost use Rattle.vp_card.specs.Cards.{IsDeck};
ghost use Rattle.vp_text.specs.Reading.{Gives};
ghost use Rattle.vp_check.specs.Checking.{certificate_of};
ghost use Rattle.vp_check.specs.Listing.{counted, read_of, row_seen, Says};
ghost use Rattle.vp_check.specs.Read.{IsRead};
ghost use Rattle.vp_check.specs.Reading.{return_of, row_of, bet_line, end_of, end_line};

use crate::ClassLine;
use crate::class_lines::ClassLines;
use crate::class_words::class_of;
use crate::listed::Listed;
use vp_pay::PayTable;
use vp_suit::class_count;
use vp_text::{Lines, Refused, Words, key_word, keyed_number, next_number};

/// A line behind the bet: a class line, or the return as a sum over a denominator.
#[derive(Clone, Copy, Debug, PartialEq, Eq)]
enum Row {
    Class(ClassLine),
    Return(u64, u64),
}

/// What the class lines come to, and the return behind them.
#[derive(Clone, Copy, Debug, PartialEq, Eq)]
pub(crate) struct Counted {
    pub listed: Listed,
    /// The number of the return's line in the text.
    pub return_line: u32,
    pub sum: u64,
    pub denominator: u64,
}

/// A certificate in the grammar, over its text: the class lines can be read again from the text.
#[derive(Drop)]
pub(crate) struct ReadCertificate<'a> {
    pub table: PayTable,
    /// The bet.
    pub coin: u8,
    pub rows: ClassLines<'a>,
    pub counted: Counted,
}

fn bet_line(lines: &mut Lines, coins: u8) -> Result<u8, Refused>
    ensures { Gives (λ v. v) result lines.new (bet_line coins lines.old) }
{
    let mut words = lines.next_wanted()?;
    let line = words.line();
    let coin = keyed_number(&mut words, b"cert", 1, u64::from(coins)).ok_or(Refused { line })?;
    Ok(coin as u8)
}

#[tactic(auto, unfolding(crate::specs::Reading::return_of))]
fn return_of(words: &mut Words) -> Option<(u64, u64)>
    ensures { result ≡ return_of words.old.words }
{
    key_word(words, b"return")?;
    let sum = next_number(words)?;
    key_word(words, b"/")?;
    let denominator = next_number(words)?;
    words.end()?;
    Some((sum, denominator))
}

#[tactic(auto, unfolding(crate::specs::Reading::row_of))]
fn row_of(words: &mut Words, deck: u8) -> Option<Row>
    ensures { option_map row_seen result ≡ row_of deck words.old.words }
{
    if words.next_is(b"return") {
        let (sum, denominator) = return_of(words)?;
        Some(Row::Return(sum, denominator))
    } else {
        let class = class_of(words, deck)?;
        Some(Row::Class(class))
    }
}

/// The class lines up to the return, and what they come to.
#[tactic(auto, unfolding(crate::specs::Listing::counted))]
fn class_lines(lines: &mut Lines, deck: u8) -> Result<Counted, Refused>
    requires { IsDeck deck }
    ensures { Gives (λ c. c) result lines.new (counted deck lines.old) }
{
    let most = class_count(deck);
    let mut listed = Listed::none();
    while let Some(mut words) = lines.next() {
        let line = words.line();
        match row_of(&mut words, deck) {
            Some(Row::Return(sum, denominator)) => {
                return Ok(Counted {
                    listed,
                    return_line: line,
                    sum,
                    denominator,
                });
            }
            Some(Row::Class(class)) if listed.lines < most => {
                listed = listed.and(line, &class);
            }
            _ => return Err(Refused { line }),
        }
    }
    Err(Refused { line: lines.past() })
}

fn end_of(words: &mut Words) -> Option<()>
    ensures { result ≡ end_of words.old.words }
{
    key_word(words, b"end")?;
    words.end()
}

fn end_line(lines: &mut Lines) -> Result<(), Refused>
    ensures { Gives (λ v. v) result lines.new (end_line lines.old) }
{
    let mut words = lines.next_wanted()?;
    let line = words.line();
    end_of(&mut words).ok_or(Refused { line })
}

#[tactic(auto, unfolding(crate::specs::Listing::read_of))]
fn certificate(bytes: &[u8]) -> Result<ReadCertificate<'_>, Refused>
    requires { length bytes.now ≤ 67108864 }
    ensures { Says result (read_of bytes.now) }
{
    let mut lines = Lines::new(bytes);
    let table = PayTable::read(&mut lines)?;
    let coin = bet_line(&mut lines, table.coins)?;
    let rows = ClassLines::new(lines.again(), table.deck);
    let counted = class_lines(&mut lines, table.deck)?;
    end_line(&mut lines)?;
    if let Some(words) = lines.next() {
        return Err(Refused { line: words.line() });
    }
    Ok(ReadCertificate {
        table,
        coin,
        rows,
        counted,
    })
}

/// Reads a certificate. No class line is kept: they can be read again from the text.
#[tactic(auto, using(crate::proofs::Read_grammar::found_certificate, crate::proofs::Read_grammar::refused_certificate))]
pub(crate) fn read_certificate(bytes: &[u8]) -> Result<ReadCertificate<'_>, Refused>
    requires { length bytes.now ≤ 67108864 }
    // What is read is the certificate that the text says, with the numbers of its lines.
    ensures read { IfOk result (λ r. IsRead bytes.now r) }
    // Refused is the line at which the text says no certificate.
    ensures refused { IfErr result (λ e. certificate_of bytes.now ≡ Err e.line) }
{
    certificate(bytes)
}
