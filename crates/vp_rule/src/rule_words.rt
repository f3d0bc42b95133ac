//! The words of rules.

ghost use Rattle.std.specs.Prelude.{◌≡◌, ◌<◌, length, IfSome, option_map};
ghost use Rattle.vp_text.specs.Pieces.{up_to_end};
ghost use Rattle.vp_rule.specs.Reading.{next_rule_of, rule_of, test_behind};

use crate::test_words::test_behind;
use crate::{Rule, Test};
use arrayvec::ArrayVec;
use vp_pay::PayTable;
use vp_text::{Words, key_word};

/// The tests up to the end of the line; None where there are more than eight.
fn tests(words: &mut Words, version: u8, table: &PayTable) -> Option<ArrayVec<Test, 8>>
    ensures { option_map (λ ts. ts.items) result ≡ up_to_end 8 (test_behind version table.now) words.old.words }
{
    let mut tests = ArrayVec::new();
    while let Some(word) = words.next() {
        if tests.is_full() {
            return None;
        }
        let Some(test) = test_behind(word, words, version, table) else {
            return None;
        };
        tests.push(test);
    }
    Some(tests)
}

/// The rule that these words spell.
#[tactic(auto, unfolding(crate::specs::Reading::rule_of))]
fn rule_of(words: &mut Words, version: u8, table: &PayTable) -> Option<Rule>
    ensures { result ≡ rule_of version table.now words.old.words }
{
    key_word(words, b"rule")?;
    let tests = tests(words, version, table)?;
    if tests.is_empty() {
        return None;
    }
    Some(Rule { tests })
}

/// The rule that these words spell behind these rules, where there are fewer than so many.
#[tactic(auto, unfolding(crate::specs::Reading::next_rule_of))]
pub(crate) fn next_rule(
    words: &mut Words,
    most: usize,
    version: u8,
    table: &PayTable,
    rules: &[Rule],
) -> Option<Rule>
    ensures read { result ≡ next_rule_of most version table.now rules.now words.old.words }
    ensures room { IfSome result (λ rule. length rules.now < most) }
{
    let rule = rule_of(words, version, table)?;
    if rules.len() < most { Some(rule) } else { None }
}
