//! The matrix of a pool: what its rules give each class of deals.

ghost use Rattle.std.specs.Prelude.{◌≡◌, ◌+◌, ◌*◌, ◌≤◌, length};
ghost use Rattle.vp_suit.specs.Classes.{representatives};
ghost use Rattle.vp_pay.specs.Table.{IsTable};
ghost use Rattle.vp_rule.specs.Valid.{IsPool};
ghost use Rattle.vp_compile.specs.Matrices.{rows_of};
ghost use Rattle.vp_audit.specs.Compiled.{pool_rows};

use crate::choices::Choices;
use std::sync::ledger::Ledger;
use vp_compile::Matrix;
use vp_hold::Game;
use vp_rule::{Pool, Rule};
use vp_suit::Classes;
use vp_wild::Steps;

/// The matrix of what the rules of a pool give each class of deals, made in two slices, which may hold any numbers:
/// `heads` takes three words a class, `cells` one per class and rule. The pool is one for the game's table.
///
/// One step of the counter for each class: its representative is ranked once for all rules.
pub fn fill_matrix<'a, L: Ledger>(
    game: &Game,
    pool: &Pool,
    heads: &'a mut [u64],
    cells: &'a mut [u64],
    steps: &mut Steps<L>,
) -> Matrix<'a>
    requires pool { IsPool game.now.table pool.now }
    requires heads { length heads.old ≡ 3 * length (representatives game.now.table.deck) }
    requires cells { length cells.old ≡ length (representatives game.now.table.deck) * length pool.now.rules }
    ensures rules { result.rules ≡ length pool.now.rules }
    ensures rows { result.rows ≡ pool_rows game.now.table game.now.coin pool.now.rules }
    ensures steps { steps.new ≡ steps.old + length (representatives game.now.table.deck) }
{
    let rules = pool.rules();
    let classes = heads.len() / 3;
    let (weights, values) = heads.split_at_mut(classes);
    let (best, none) = values.split_at_mut(classes);
    fill_rows(game, rules, weights, best, none, cells, steps);
    Matrix {
        rules: rules.len() as u8,
        weights,
        best,
        none,
        cells,
    }
}

/// Writes the numbers of each class at its place.
fn fill_rows<L: Ledger>(
    game: &Game,
    rules: &[Rule],
    weights: &mut [u64],
    best: &mut [u64],
    none: &mut [u64],
    cells: &mut [u64],
    steps: &mut Steps<L>,
)
    requires few { length rules.now ≤ 64 }
    requires weights { length weights.old ≡ length (representatives game.now.table.deck) }
    requires best { length best.old ≡ length weights.old }
    requires none { length none.old ≡ length weights.old }
    requires cells { length cells.old ≡ length weights.old * length rules.now }
    ensures known { IsTable game.now.table }
    ensures rows { rows_of (length rules.now) weights.new best.new none.new cells.new
        ≡ pool_rows game.now.table game.now.coin rules.now }
    ensures steps { steps.new ≡ steps.old + length weights.old }
{
    let mut classes = Classes::new(game.table().deck);
    let mut place = 0;
    while let Some(class) = classes.next() {
        let choices = Choices::of(&*game, &class.hand, steps);
        weights[place] = u64::from(class.weight);
        best[place] = choices.best();
        none[place] = choices.value(0);
        let start = place * rules.len();
        choices.fill_cells(rules, &mut cells[start..start + rules.len()]);
        place += 1;
    }
}
