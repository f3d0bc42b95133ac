//! The walk over the class lines whose draws are asked for.

ghost use Rattle.std.specs.Prelude.{◌≡◌, ◌+◌, ◌<◌, ◌≤◌, ◌^◌, ℕ, None, Ok, Result, length, map, if◌then◌else◌};
ghost use Rattle.std.specs.List.{All};
ghost use Rattle.vp_pay.specs.Bets.{IsBet};
ghost use Rattle.vp_pay.specs.declared.table.PayTable.{PayTable};
ghost use Rattle.vp_draws.specs.Many.{deal_at};
ghost use Rattle.vp_check.specs.Certificates.{IsClassLine};
ghost use Rattle.vp_check.specs.Rows.{classes_of};
ghost use Rattle.vp_check.specs.Rules.{walked_breach};
ghost use Rattle.vp_check.specs.Walks.{HaveValues, asked_or, finding_or, found_or, walk_end, walked_at};
ghost use Rattle.vp_check.specs.declared.finding.Finding.{Finding};
ghost use Rattle.vp_check.specs.declared.finding.Finding.TheVariants.{Bad};

use crate::Finding;
use crate::class_lines::ClassLines;
use crate::listed::Broken;
use crate::numbered::Numbered;
use crate::rules::{Breach, walked_breach};
use arrayvec::ArrayVec;
use std::sync::ledger::Ledger;
use vp_card::Hand;
use vp_draws::many_values;
use vp_pay::PayTable;
use vp_wild::Steps;

/// The finding of a rule that a line breaks.
pub(crate) fn bad(line: u32, breach: Breach) -> Finding
    ensures { result ≡ Bad line breach.rule breach.said breach.due }
{
    Finding::Bad {
        line,
        rule: breach.rule,
        said: breach.said,
        due: breach.due,
    }
}

/// The place where a walk of `count` class lines from the place `from` on ends: no line is walked behind one with a
/// broken rule.
pub(crate) fn walk_end(from: u32, count: u32, broken: Option<Broken>) -> u64
    ensures { result ≡ walk_end (from + count) broken }
{
    let end = u64::from(from) + u64::from(count);
    match broken {
        Some(broken) => end.min(u64::from(broken.place)),
        None => end,
    }
}

/// The first broken rule of the values and masks of these class lines, by the values of their holds.
fn first_broken(asked: &[Numbered], values: &[[u64; 32]]) -> Option<Finding>
    requires { All (λ line. line.mask < 32) (classes_of asked.now) }
    ensures { (table : PayTable) (coin : ℕ) (later : Result ℕ Finding)
        → HaveValues table coin asked.now values.now
        → asked_or table coin asked.now later ≡ finding_or result later }
{
    let Some((row, rows)) = asked.split_first() else {
        return None;
    };
    let Some((worths, more)) = values.split_first() else {
        return None;
    };
    if let Some(breach) = walked_breach(&row.class, worths) {
        return Some(bad(row.line, breach));
    }
    first_broken(rows, more)
}

/// The cards of class lines, in front of others.
fn hands_of(asked: &[Numbered]) -> [Hand; 256]
    requires some { 0 < length asked.now }
    requires few { length asked.now ≤ 256 }
    ensures room { length result ≡ 256 }
    ensures hands { (k : ℕ) → k < length asked.now → deal_at result k
        ≡ deal_at (map (λ row. row.class.hand) asked.now) k }
{
    let mut hands = [asked[0].class.hand; 256];
    for k in 0..asked.len() {
        hands[k] = asked[k].class.hand;
    }
    hands
}

/// The first broken rule of the values and masks of up to 256 class lines, by one walk over all hands of the deck.
fn walked<L: Ledger>(
    table: &PayTable,
    coin: u8,
    asked: &[Numbered],
    steps: &mut Steps<L>,
) -> Option<Finding>
    requires bet { IsBet table.now coin }
    requires lines { All (IsClassLine table.now.deck) (classes_of asked.now) }
    requires few { length asked.now ≤ 256 }
    ensures { (later : Result ℕ Finding) → asked_or table.now coin asked.now later
        ≡ finding_or result later }
{
    if asked.is_empty() {
        return None;
    }
    let many = asked.len();
    let hands = hands_of(asked);
    let mut values = [[0; 32]; 256];
    many_values(table, coin, &hands[..many], &mut values[..many], steps);
    first_broken(asked, &values)
}

/// Takes one more class line to those that are to be walked. As soon as they are 256, they are walked.
fn ask<L: Ledger>(
    table: &PayTable,
    coin: u8,
    asked: &mut ArrayVec<Numbered, 256>,
    row: Numbered,
    steps: &mut Steps<L>,
) -> Option<Finding>
    requires bet { IsBet table.now coin }
    requires lines { All (IsClassLine table.now.deck) (classes_of asked.old.items) }
    requires line { IsClassLine table.now.deck row.class }
    requires few { length asked.old.items < 256 }
    ensures finding { (later : Result ℕ Finding)
        → finding_or result (asked_or table.now coin asked.new.items later)
        ≡ asked_or table.now coin asked.old.items (found_or (walked_breach table.now coin row.class) row.line later) }
    ensures lines { All (IsClassLine table.now.deck) (classes_of asked.new.items) }
    ensures few { length asked.new.items < 256 }
{
    asked.push(row);
    if asked.len() < 256 {
        return None;
    }
    let finding = walked(table, coin, asked.as_slice(), steps);
    asked.clear();
    finding
}

/// The same for a line that is wanted; another is passed by.
fn ask_if<L: Ledger>(
    wanted: bool,
    table: &PayTable,
    coin: u8,
    asked: &mut ArrayVec<Numbered, 256>,
    row: Numbered,
    steps: &mut Steps<L>,
) -> Option<Finding>
    requires bet { IsBet table.now coin }
    requires lines { All (IsClassLine table.now.deck) (classes_of asked.old.items) }
    requires line { IsClassLine table.now.deck row.class }
    requires few { length asked.old.items < 256 }
    ensures finding { (later : Result ℕ Finding)
        → finding_or result (asked_or table.now coin asked.new.items later)
        ≡ asked_or table.now coin asked.old.items (found_or (if wanted then walked_breach table.now coin row.class else None) row.line later) }
    ensures lines { All (IsClassLine table.now.deck) (classes_of asked.new.items) }
    ensures few { length asked.new.items < 256 }
{
    if wanted {
        ask(table, coin, asked, row, steps)
    } else {
        None
    }
}

/// The answer behind the last class line to walk: the first broken rule of those that are still to be walked, or how many were asked.
fn walk_last<L: Ledger>(
    table: &PayTable,
    coin: u8,
    asked: &[Numbered],
    many: u32,
    steps: &mut Steps<L>,
) -> Result<u32, Finding>
    requires bet { IsBet table.now coin }
    requires lines { All (IsClassLine table.now.deck) (classes_of asked.now) }
    requires few { length asked.now ≤ 256 }
    ensures { result ≡ asked_or table.now coin asked.now (Ok many) }
{
    match walked(table, coin, asked, steps) {
        Some(finding) => Err(finding),
        None => Ok(many),
    }
}

/// The first broken rule of the values and masks of the class lines at the places from `from` to before `end`; where
/// there is none, how many class lines were asked.
pub(crate) fn walk<L: Ledger>(
    table: &PayTable,
    coin: u8,
    mut rows: ClassLines<'_>,
    from: u64,
    end: u64,
    steps: &mut Steps<L>,
) -> Result<u32, Finding>
    requires bet { IsBet table.now coin }
    requires lines { All (IsClassLine table.now.deck) (classes_of rows) }
    requires few { length rows < 2 ^ 32 }
    ensures { result ≡ walked_at table.now coin from end 1 rows.entry 0 }
{
    let mut asked = ArrayVec::new();
    let mut place = 1u64;
    let mut many = 0u32;
    while let Some(row) = rows.next() {
        if place >= end {
            return walk_last(table, coin, asked.as_slice(), many, steps);
        }
        let wanted = from <= place;
        if let Some(finding) = ask_if(wanted, table, coin, &mut asked, row, steps) {
            return Err(finding);
        }
        many += u32::from(wanted);
        place += 1;
    }
    walk_last(table, coin, asked.as_slice(), many, steps)
}
