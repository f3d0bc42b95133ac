//! The audit of a list: a walk over all classes of deals.

ghost use Rattle.std.specs.Prelude.{◌≡◌, ◌+◌, ◌≤◌, [], IfNone, is_some, length};
ghost use Rattle.vp_sets.specs.Index.{set_index};
ghost use Rattle.vp_suit.specs.Classes.{representatives};
ghost use Rattle.vp_pay.specs.Table.{IsTable};
ghost use Rattle.vp_rule.specs.Valid.{IsList};
ghost use Rattle.vp_audit.specs.Audits.{audited};
ghost use Rattle.vp_audit.specs.Pending.{head_mask, pending, pending_behind};
ghost use Rattle.vp_audit.specs.Sums.{sums_over};

use crate::Audited;
use crate::choices::Choices;
use crate::sums::Sums;
use std::sync::ledger::Ledger;
use vp_card::Hand;
use vp_hold::Game;
use vp_rule::{Exceptions, List};
use vp_sets::index_of;
use vp_suit::Classes;
use vp_wild::Steps;

/// What a list loses in the game. The list is one for the game's table.
///
/// One step of the counter for each class of deals: its representative is ranked once for all rules.
pub fn audit<L: Ledger>(game: &Game, list: &List, steps: &mut Steps<L>) -> Audited
    requires { IsList game.now.table list.now }
    // Each number is that of the definition, over all deals.
    ensures audited { result ≡ audited game.now.table game.now.coin list.now }
    ensures steps { steps.new ≡ steps.old + length (representatives game.now.table.deck) }
{
    let sums = walk(game, list, steps);
    Audited {
        optimum: sums.optimum,
        least: sums.least,
        greatest: sums.greatest,
        loss: sums.optimum - sums.least,
        ambiguous: sums.ambiguous,
        except: sums.except,
        rules: sums.rules,
        none: sums.none,
    }
}

/// The sums over all classes.
fn walk<L: Ledger>(game: &Game, list: &List, steps: &mut Steps<L>) -> Sums
    requires { IsList game.now.table list.now }
    ensures rules { IsTable game.now.table }
    ensures below { result.least ≤ result.optimum }
    ensures sums { result ≡ sums_over game.now.table game.now.coin list.now (representatives game.now.table.deck) }
    ensures steps { steps.new ≡ steps.old + length (representatives game.now.table.deck) }
{
    let mut sums = Sums::new(list.rules().len());
    let mut classes = Classes::new(game.table().deck);
    let mut exceptions = list.exceptions();
    let mut ahead = exceptions.next();
    while let Some(class) = classes.next() {
        let mask = take_mask(&mut ahead, &mut exceptions, &class.hand);
        let choices = Choices::of(&*game, &class.hand, steps);
        sums.add(class.weight, &choices.priced(mask, list.rules()));
    }
    sums
}

/// The mask of the exception ahead, where it is of this hand; then the next one is ahead.
fn take_mask(ahead: &mut Option<(Hand, u8)>, exceptions: &mut Exceptions, hand: &Hand) -> Option<u8>
    requires ended { IfNone ahead.old (exceptions.old ≡ []) }
    ensures mask { result ≡ head_mask ahead.old hand.now }
    ensures left { pending_behind hand.now ahead.old exceptions.old ≡ pending ahead.new exceptions.new }
    ensures ended { IfNone ahead.new (exceptions.new ≡ []) }
{
    let mask = head_mask(ahead, hand);
    if mask.is_some() {
        *ahead = exceptions.next();
    }
    mask
}

/// The mask of the exception ahead, where it is of this hand.
fn head_mask(ahead: &Option<(Hand, u8)>, hand: &Hand) -> Option<u8>
    ensures { result ≡ head_mask ahead.now hand.now }
{
    let Some(exception) = ahead else {
        return None;
    };
    if index(&exception.0) == index(hand) {
        Some(exception.1)
    } else {
        None
    }
}

fn index(hand: &Hand) -> u32
    ensures { result ≡ set_index hand.now }
{
    index_of(&hand.numbers())
}
