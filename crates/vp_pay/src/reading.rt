//! Pay tables, read line by line.

ghost use Rattle.std.specs.Prelude.{◌≡◌, ◌<◌, ◌≤◌, codes, Some, Ok, IfOk, IfErr, IfSome, length};
ghost use Rattle.vp_text.specs.Reading.{Gives};
ghost use Rattle.vp_text.specs.Lines.{Feed, feed_of};
ghost use Rattle.vp_text.specs.Sections.{Starts, Refuses, Leaves, IsAt, StandsBehind};
ghost use Rattle.vp_text.specs.Sequences.{keyed};
ghost use Rattle.vp_pay.specs.Reading.{name_of, deck_of, wild_of, one_to_five, next_line_of, has_name};
ghost use Rattle.vp_pay.specs.Sections.{name_line, deck_line, wild_line, coins_line, pay_lines, table_at, value_of};
ghost use Rattle.vp_pay.specs.Spelling.{table_text};
ghost use Rattle.vp_pay.specs.Table.{IsTable};
ghost use Rattle.vp_pay.specs.Written.{SpellingsDiffer, StandsIn};
ghost use Rattle.vp_pay.specs.declared.table.PayTable.{PayTable};

use crate::pay_line::{name, one_to_five, pay_line_of};
use crate::words::{deck_of, wild_of};
use crate::{Name, PayLine, PayTable};
use arrayvec::ArrayVec;
use vp_text::{Lines, Refused, Words, key_word};

fn table_name(words: &mut Words) -> Option<Name>
    ensures { result ≡ keyed (codes "table") name_of words.old.words }
{
    key_word(words, b"table")?;
    let name = name(words)?;
    if words.next().is_some() {
        return None;
    }
    Some(name)
}

#[tactic(auto, using(vp_text::proofs::Standing::leaves_all, vp_text::proofs::Standing::leaves_line))]
fn name_line(lines: &mut Lines) -> Result<Name, Refused>
    ensures read { Gives (λ n. n) result lines.new (name_line lines.old) }
    ensures leaves { Leaves lines.old lines.new }
    ensures at { IfErr result (λ e. IsAt e.line lines.new) }
{
    let mut words = lines.next_wanted()?;
    let line = words.line();
    table_name(&mut words).ok_or(Refused { line })
}

fn deck(words: &mut Words) -> Option<u8>
    ensures { result ≡ keyed (codes "deck") deck_of words.old.words }
{
    key_word(words, b"deck")?;
    let value = deck_of(words.next()?)?;
    if words.next().is_some() {
        return None;
    }
    Some(value)
}

#[tactic(auto, using(vp_text::proofs::Standing::leaves_all, vp_text::proofs::Standing::leaves_line))]
fn deck_line(lines: &mut Lines) -> Result<u8, Refused>
    ensures read { Gives (λ v. v) result lines.new (deck_line lines.old) }
    ensures leaves { Leaves lines.old lines.new }
    ensures at { IfErr result (λ e. IsAt e.line lines.new) }
{
    let mut words = lines.next_wanted()?;
    let line = words.line();
    deck(&mut words).ok_or(Refused { line })
}

fn wild(words: &mut Words) -> Option<Option<u8>>
    ensures { result ≡ keyed (codes "wild") wild_of words.old.words }
{
    key_word(words, b"wild")?;
    let value = wild_of(words.next()?)?;
    if words.next().is_some() {
        return None;
    }
    Some(value)
}

#[tactic(auto, using(vp_text::proofs::Standing::leaves_all, vp_text::proofs::Standing::leaves_line))]
fn wild_line(lines: &mut Lines) -> Result<Option<u8>, Refused>
    ensures read { Gives (λ v. v) result lines.new (wild_line lines.old) }
    ensures leaves { Leaves lines.old lines.new }
    ensures at { IfErr result (λ e. IsAt e.line lines.new) }
{
    let mut words = lines.next_wanted()?;
    let line = words.line();
    wild(&mut words).ok_or(Refused { line })
}

fn coins(words: &mut Words) -> Option<u8>
    ensures read { result ≡ keyed (codes "coins") one_to_five words.old.words }
    ensures range { IfSome result (λ coins. coins ≤ 5) }
{
    key_word(words, b"coins")?;
    let value = one_to_five(words)?;
    if words.next().is_some() {
        return None;
    }
    Some(value)
}

#[tactic(auto, using(vp_text::proofs::Standing::leaves_all, vp_text::proofs::Standing::leaves_line))]
fn coins_line(lines: &mut Lines) -> Result<u8, Refused>
    ensures read { Gives (λ v. v) result lines.new (coins_line lines.old) }
    ensures leaves { Leaves lines.old lines.new }
    ensures at { IfErr result (λ e. IsAt e.line lines.new) }
    ensures range { IfOk result (λ coins. coins ≤ 5) }
{
    let mut words = lines.next_wanted()?;
    let line = words.line();
    coins(&mut words).ok_or(Refused { line })
}

/// Whether one of the lines has the name.
fn has_name(lines: &[PayLine], name: &Name) -> bool
    ensures { result ≡ has_name lines.now name.now }
{
    lines.iter().any(|line| line.name == *name)
}

/// The pay line that these words spell behind these lines: it has a new name, and there is room for it.
#[tactic(auto, unfolding(crate::specs::Reading::next_line_of))]
fn next_line(words: &mut Words, coins: u8, lines: &[PayLine]) -> Option<PayLine>
    requires { coins ≤ 5 }
    ensures read { result ≡ next_line_of coins lines.now words.old.words }
    ensures room { IfSome result (λ line. length lines.now < 32) }
{
    let line = pay_line_of(words, coins)?;
    if lines.len() < 32 && !has_name(lines, &line.name) {
        Some(line)
    } else {
        None
    }
}

fn pay_lines(lines: &mut Lines, coins: u8) -> Result<ArrayVec<PayLine, 32>, Refused>
    requires { coins ≤ 5 }
    ensures read { Gives (λ ls. ls.items) result lines.new (pay_lines coins lines.old) }
    ensures leaves { Leaves lines.old lines.new }
    ensures at { IfErr result (λ e. IsAt e.line lines.new) }
{
    let mut pay_lines = ArrayVec::new();
    while let Some(mut words) = lines.next() {
        let line = words.line();
        if words.only_is(b"end") {
            if pay_lines.is_empty() {
                return Err(Refused { line });
            }
            return Ok(pay_lines);
        }
        let Some(next) = next_line(&mut words, coins, &pay_lines) else {
            return Err(Refused { line });
        };
        pay_lines.push(next);
    }
    Err(Refused { line: lines.past() })
}

#[tactic(auto, unfolding(crate::specs::Sections::table_at))]
fn table_at(lines: &mut Lines) -> Result<PayTable, Refused>
    ensures read { Gives (λ t. t) result lines.new (table_at lines.old) }
    ensures leaves { Leaves lines.old lines.new }
    ensures at { IfErr result (λ e. IsAt e.line lines.new) }
{
    let name = name_line(lines)?;
    let deck = deck_line(lines)?;
    let wild = wild_line(lines)?;
    let coins = coins_line(lines)?;
    let lines = pay_lines(lines, coins)?;
    Ok(PayTable {
        name,
        deck,
        wild,
        coins,
        lines,
    })
}

impl PayTable {
    /// Reads one table section, up to its `end`, and leaves the lines behind it.
    pub fn read(lines: &mut Lines) -> Result<PayTable, Refused>
        // What is read keeps the rules, and its spelling stands in front of the lines that are left.
        ensures found { IfOk result (λ t. IsTable t × Starts table_text lines.old t lines.new) }
        // What is spelled so is read, whatever follows.
        ensures only { (t : PayTable) (left : Feed) → IsTable t → Starts table_text lines.old t left → (result ≡ Ok t) × (lines.new ≡ left) }
        // Refused is the first line with which the lines so far begin no table, or the one past the end where the input ends first.
        ensures refused { IfErr result (λ e. Refuses table_text IsTable lines.old e.line) }
        // Where a line is refused, the lines behind it are left; none are where the input ends first.
        ensures stands { IfErr result (λ e. StandsBehind lines.old e.line lines.new) }
        ensures exact { Gives (λ t. t) result lines.new (table_at lines.old) }
    {
        table_at(lines)
    }

    /// The table that a text of at most 64 MiB begins with; what stands behind it is not read.
    pub fn in_text(text: &[u8]) -> Option<PayTable>
        requires { length text.now ≤ 67108864 }
        // What is found keeps the rules, and its spelling stands at the front of the text.
        ensures found { IfSome result (λ t. IsTable t × StandsIn table_text t text.now) }
        // A table whose spelling stands at the front is found.
        ensures only { (t : PayTable) → IsTable t → StandsIn table_text t text.now → result ≡ Some t }
        ensures exact { result ≡ value_of (table_at (feed_of text.now)) }
    {
        PayTable::read(&mut Lines::new(text)).ok()
    }
}

/// Different tables have different spellings, and no spelling begins another one.
pub fn table_spellings_differ()
    ensures { SpellingsDiffer table_text IsTable }
{}
