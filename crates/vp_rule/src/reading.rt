//! Lists and pools, read line by line.

ghost use Rattle.std.specs.Prelude.{◌≡◌, ◌<◌, Some, None, Ok, IfOk, IfErr};
ghost use Rattle.vp_sets.specs.Index.{set_index};
ghost use Rattle.vp_text.specs.Lines.{Feed};
ghost use Rattle.vp_text.specs.Reading.{Gives};
ghost use Rattle.vp_text.specs.Sections.{Starts, Refuses, Leaves, IsAt, StandsBehind};
ghost use Rattle.vp_pay.specs.Table.{IsTable};
ghost use Rattle.vp_rule.specs.Kept.{kept_rules, kept_list_at};
ghost use Rattle.vp_rule.specs.Lists.{RuleList, RulePool};
ghost use Rattle.vp_rule.specs.Reading.{is_above, next_exception_of, version_behind, version_of, version_line, list_at, rules_at, pool_at};
ghost use Rattle.vp_rule.specs.Spelling.{list_text, pool_text};
ghost use Rattle.vp_rule.specs.Valid.{IsList, IsPool};

use crate::except_words::exception_of;
use crate::rule_words::next_rule;
use crate::{Exceptions, List, Pool, Rule};
use arrayvec::ArrayVec;
use vp_card::Hand;
use vp_pay::PayTable;
use vp_sets::index_of;
use vp_text::{Lines, Refused, Words, key_word};

fn version_behind(words: &mut Words) -> Option<u8>
    ensures { result ≡ version_behind words.old.words }
{
    let Some(word) = words.next() else {
        return Some(1);
    };
    if word != b"2".as_slice() || words.next().is_some() {
        return None;
    }
    Some(2)
}

#[tactic(auto, unfolding(crate::specs::Reading::version_of))]
fn version_of(words: &mut Words, key: &[u8]) -> Option<u8>
    ensures { result ≡ version_of key.now words.old.words }
{
    key_word(words, key)?;
    version_behind(words)
}

#[tactic(auto, using(vp_text::proofs::Standing::leaves_all, vp_text::proofs::Standing::leaves_line))]
fn version_line(lines: &mut Lines, key: &[u8]) -> Result<u8, Refused>
    ensures read { Gives (λ v. v) result lines.new (version_line key.now lines.old) }
    ensures leaves { Leaves lines.old lines.new }
    ensures at { IfErr result (λ e. IsAt e.line lines.new) }
{
    let mut words = lines.next_wanted()?;
    let line = words.line();
    version_of(&mut words, key).ok_or(Refused { line })
}

/// The index of a hand among all sets of five cards.
fn index(hand: &Hand) -> u32
    ensures { result ≡ set_index hand.now }
{
    index_of(&hand.numbers())
}

fn is_above(last: Option<u32>, hand: &Hand) -> bool
    ensures { result ≡ is_above last (set_index hand.now) }
{
    match last {
        Some(last) => last < index(hand),
        None => true,
    }
}

/// The exception that these words spell, where no rule stands before it and its index is above the last one.
#[tactic(auto, unfolding(crate::specs::Reading::next_exception_of))]
fn next_exception(
    words: &mut Words,
    deck: u8,
    last: Option<u32>,
    rules: &[Rule],
) -> Option<(Hand, u8)>
    ensures { result ≡ next_exception_of deck (record { last = last; rules = rules.now }) words.old.words }
{
    let exception = exception_of(words, deck)?;
    if rules.is_empty() && is_above(last, &exception.0) {
        Some(exception)
    } else {
        None
    }
}

/// The rules up to `end`; the exceptions before them are read and not kept.
#[tactic(auto, unfolding(crate::specs::Kept::kept_rules, crate::specs::Kept::step_behind, crate::specs::Reading::item_behind))]
fn list_rules(
    lines: &mut Lines,
    version: u8,
    table: &PayTable,
) -> Result<ArrayVec<Rule, 128>, Refused>
    ensures read { Gives (λ rs. rs.items) result lines.new (kept_rules version table.now lines.old) }
    ensures leaves { Leaves lines.old lines.new }
    ensures at { IfErr result (λ e. IsAt e.line lines.new) }
{
    let mut last = None;
    let mut rules = ArrayVec::new();
    while let Some(mut words) = lines.next() {
        let line = words.line();
        if words.only_is(b"end") {
            return Ok(rules);
        }
        if words.next_is(b"except") {
            let Some(exception) = next_exception(&mut words, table.deck, last, &rules) else {
                return Err(Refused { line });
            };
            last = Some(index(&exception.0));
        } else {
            let Some(rule) = next_rule(&mut words, 128, version, table, &rules) else {
                return Err(Refused { line });
            };
            rules.push(rule);
        }
    }
    Err(Refused { line: lines.past() })
}

#[tactic(auto, unfolding(crate::specs::Kept::kept_list_at))]
fn list_at<'a>(lines: &mut Lines<'a>, table: &PayTable) -> Result<List<'a>, Refused>
    ensures read { Gives (λ l. l) result lines.new (kept_list_at table.now lines.old) }
    ensures leaves { Leaves lines.old lines.new }
    ensures at { IfErr result (λ e. IsAt e.line lines.new) }
{
    let version = version_line(lines, b"list")?;
    let exceptions = Exceptions::new(lines.again(), table.deck);
    let rules = list_rules(lines, version, table)?;
    Ok(List::new(version, exceptions, rules))
}

/// The rules of a pool up to `end`: at least one.
fn pool_rules(
    lines: &mut Lines,
    version: u8,
    table: &PayTable,
) -> Result<ArrayVec<Rule, 64>, Refused>
    ensures read { Gives (λ rs. rs.items) result lines.new (rules_at version table.now lines.old) }
    ensures leaves { Leaves lines.old lines.new }
    ensures at { IfErr result (λ e. IsAt e.line lines.new) }
{
    let mut rules = ArrayVec::new();
    while let Some(mut words) = lines.next() {
        let line = words.line();
        if words.only_is(b"end") {
            if rules.is_empty() {
                return Err(Refused { line });
            }
            return Ok(rules);
        }
        let Some(rule) = next_rule(&mut words, 64, version, table, &rules) else {
            return Err(Refused { line });
        };
        rules.push(rule);
    }
    Err(Refused { line: lines.past() })
}

#[tactic(auto, unfolding(crate::specs::Reading::pool_at))]
fn pool_at(lines: &mut Lines, table: &PayTable) -> Result<Pool, Refused>
    ensures read { Gives (λ p. p) result lines.new (pool_at table.now lines.old) }
    ensures leaves { Leaves lines.old lines.new }
    ensures at { IfErr result (λ e. IsAt e.line lines.new) }
{
    let version = version_line(lines, b"pool")?;
    let rules = pool_rules(lines, version, table)?;
    Ok(Pool::new(version, rules))
}

impl<'a> List<'a> {
    /// Reads one list for this table, from `list` or `list 2` to its `end`, and leaves the lines behind it.
    pub fn read(lines: &mut Lines<'a>, table: &PayTable) -> Result<List<'a>, Refused>
        requires { IsTable table.now }
        // What is read keeps the rules, and its spelling stands in front of the lines that are left.
        ensures found { IfOk result (λ l. IsList table.now l × Starts (list_text table.now) lines.old l lines.new) }
        // What is spelled so is read, whatever follows.
        ensures only { (l : RuleList) (left : Feed) → IsList table.now l → Starts (list_text table.now) lines.old l left
            → (result ≡ Ok l) × (lines.new ≡ left) }
        // Refused is the first line with which the lines so far begin no list, or the one past the end where the input ends first.
        ensures refused { IfErr result (λ e. Refuses (list_text table.now) (IsList table.now) lines.old e.line) }
        // Where a line is refused, the lines behind it are left; none are where the input ends first.
        ensures stands { IfErr result (λ e. StandsBehind lines.old e.line lines.new) }
        ensures exact { Gives (λ l. l) result lines.new (list_at table.now lines.old) }
    {
        list_at(lines, table)
    }
}

impl Pool {
    /// Reads one pool for this table, from `pool` or `pool 2` to its `end`, and leaves the lines behind it.
    pub fn read(lines: &mut Lines, table: &PayTable) -> Result<Pool, Refused>
        requires { IsTable table.now }
        // What is read keeps the rules, and its spelling stands in front of the lines that are left.
        ensures found { IfOk result (λ p. IsPool table.now p × Starts (pool_text table.now) lines.old p lines.new) }
        // What is spelled so is read, whatever follows.
        ensures only { (p : RulePool) (left : Feed) → IsPool table.now p → Starts (pool_text table.now) lines.old p left
            → (result ≡ Ok p) × (lines.new ≡ left) }
        // Refused is the first line with which the lines so far begin no pool, or the one past the end where the input ends first.
        ensures refused { IfErr result (λ e. Refuses (pool_text table.now) (IsPool table.now) lines.old e.line) }
        // Where a line is refused, the lines behind it are left; none are where the input ends first.
        ensures stands { IfErr result (λ e. StandsBehind lines.old e.line lines.new) }
        ensures exact { Gives (λ p. p) result lines.new (pool_at table.now lines.old) }
    {
        pool_at(lines, table)
    }
}
