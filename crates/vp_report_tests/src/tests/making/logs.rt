//! Logs whose lines are known from outside.

ghost use Rattle.std.specs.Prelude.{◌≡◌, ◌≤◌, length, IfSome};
ghost use Rattle.vp_count.specs.Table.{first_word};
ghost use Rattle.vp_pay.specs.Bets.{IsBet};

use std::alloc::{AllocError, Global};
use std::test::Fail;
use vp_count::table_words;
use vp_gen::make_log;
use vp_hold::Game;
use vp_pay::PayTable;
use vp_pay::samples::{JACKS, ZERO};
use vp_text::Lines;

/// One game: a pair of tens is best kept.
const KEPT: &[u8] = b"log 1
game 1 deal Kh Th 8c Ts 4h hold Th Ts draw 7d 4s Qc pay 0 credits 0
end
";

/// Nine games on a table that pays nothing, where no card is best kept: the last two have any mask, over the rising cards.
const THROWN: &[u8] = b"log 9
game 1 deal 3d Td 3h Jc 2c hold draw Kd 5h Qh 9c Qs pay 0 credits 8
game 1 deal Qc Kd 8s 3h Th hold draw 2h 8c 4s 3c 7d pay 0 credits 7
game 1 deal Kh 8h 5h 5s 4s hold draw Jd 8s 2h 4d Js pay 0 credits 6
game 1 deal 8h 4d Kh Ts 8d hold draw Qd Td 4s Qs 9h pay 0 credits 5
game 1 deal 4h Th 6h 4c Js hold draw Tc 7h 8h Kh 7c pay 0 credits 4
game 1 deal Th 9h 5d Tc As hold draw 6c 9c 4h Jd 3s pay 0 credits 3
game 1 deal 8d 6d Ac 9s 2c hold draw Ks As 2h 7s 4s pay 0 credits 2
game 1 deal Th Kd Ah Qd Ac hold Th Kd draw 6d 2h 7d pay 0 credits 1
game 1 deal 3s 8s 4s 6s Kh hold 4s 8s Kh draw 5d 2h pay 0 credits 0
end
";

/// The table of the text.
fn table_of(text: &[u8]) -> Option<PayTable>
    requires { length text.now ≤ 67108864 }
    ensures { IfSome result (λ table. IsBet table 1) }
{
    PayTable::read(&mut Lines::new(text)).ok()
}

fn log_of(
    alloc: Global,
    table: &PayTable,
    words: &mut [u64],
    seed: u64,
    games: u32,
) -> Result<Vec<u8>, AllocError>
    requires bet { IsBet table.now 1 }
    requires long { length words.old ≡ first_word table.now.deck 6 }
    requires some { 1 ≤ games }
    requires most { games ≤ 100000 }
{
    let game = Game::of(table, 1, words);
    make_log(alloc, &game, seed, games)
}

// Reckoned by a program of its own. In the first log 335903614, which is 46 behind a multiple of 52, deals the king of hearts.
#[test]
fn logs_of_a_seed(rt: HostRuntime) -> Result<(), Fail> {
    for (text, seed, games, log) in [(JACKS, 0, 1, KEPT), (ZERO, u64::MAX, 9, THROWN)] {
        let table = table_of(text).ok_or("no such table")?;
        let mut words = vec![in rt.alloc(); 7u64; table_words(table.deck)]?;
        let made = log_of(rt.alloc(), &table, &mut words, seed, games)?;
        assert_eq!(rt; made.as_slice(), log);
    }
    Ok(())
}
