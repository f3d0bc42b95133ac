//! The matrix of a small pool, told by what the order of its rules loses.

ghost use Rattle.std.specs.Prelude.{◌≡◌, ◌*◌, ◌<◌, ◌≤◌, length};
ghost use Rattle.vp_count.specs.Table.{first_word};
ghost use Rattle.vp_pay.specs.Bets.{IsBet};
ghost use Rattle.vp_rule.specs.Valid.{IsPool};
ghost use Rattle.vp_suit.specs.Classes.{representatives};

use std::alloc::Global;
use std::marker::Brand;
use std::sync::ledger::{Blank, Ledger};
use std::test::Fail;
use vp_audit::fill_matrix;
use vp_compile::{loss_left, optimum};
use vp_count::table_words;
use vp_hold::Game;
use vp_pay::PayTable;
use vp_pay::samples::ONE_JOKER;
use vp_rule::Pool;
use vp_suit::class_count;
use vp_text::Lines;
use vp_wild::Steps;

/// What all deals are worth at best, and what the pool's own order loses, for one coin.
fn told<L: Ledger>(
    table: &PayTable,
    pool: &Pool,
    words: &mut [u64],
    heads: &mut [u64],
    cells: &mut [u64],
    blank: Blank,
) -> (u128, u128)
    requires bet { IsBet table.now 1 }
    requires pool { IsPool table.now pool.now }
    requires words { length words.old ≡ first_word table.now.deck 6 }
    requires heads { length heads.old ≡ 3 * length (representatives table.now.deck) }
    requires cells { length cells.old ≡ length (representatives table.now.deck) * length pool.now.rules }
    requires name { blank.name ≡ L.name }
    requires parts { blank.parts ≡ L.parts }
    requires some { 0 < blank.parts }
{
    let game = Game::of(table, 1, words);
    let mut steps = Steps::<L>::new(blank);
    let matrix = fill_matrix(&game, pool, heads, cells, &mut steps);
    (
        optimum(&matrix),
        loss_left(&matrix, &matrix.own_order(), &[]),
    )
}

fn told_of(alloc: Global, table: &[u8], pool: &[u8]) -> Result<(u128, u128), Fail>
    requires table { length table.now ≤ 67108864 }
    requires pool { length pool.now ≤ 67108864 }
{
    let table = PayTable::in_text(table).ok_or("the table is refused")?;
    let pool = Pool::read(&mut Lines::new(pool), &table)
        .ok()
        .ok_or("the pool is refused")?;
    let classes = class_count(table.deck) as usize;
    let mut words = vec![in alloc; 7u64; table_words(table.deck)]?;
    let mut heads = vec![in alloc; 5u64; 3 * classes]?;
    let mut cells = vec![in alloc; 6u64; classes * pool.rules().len()]?;
    Ok(told::<Brand>(
        &table,
        &pool,
        &mut words,
        &mut heads,
        &mut cells,
        Blank::new(1),
    ))
}

// A joker pays 1, over 8561520. Where nothing is held first, each of the 270725 deals with it loses it; the other
// 2598960 draw it in 5 of 48 draws.
#[test]
fn nothing_held_first(rt: HostRuntime) -> Result<(), Fail> {
    let pool = b"pool\nrule hold 0\nrule hold 5\nrule hold 1 wilds 1\nend\n";
    let told = told_of(rt.alloc(), ONE_JOKER, pool)?;
    assert_eq!(rt; told, (4635635004000, 2317817502000));
    Ok(())
}
