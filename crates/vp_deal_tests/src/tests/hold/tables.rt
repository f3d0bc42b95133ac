//! How the tests read a pay table.

ghost use Rattle.std.specs.Prelude.{IfSome, ◌≤◌, length};
ghost use Rattle.vp_pay.specs.Bets.{IsBet};

use vp_pay::PayTable;
use vp_text::Lines;

/// The table of the text, where it has a column for the coins.
pub(crate) fn table_of(text: &[u8], coin: u8) -> Option<PayTable>
    requires { length text.now ≤ 67108864 }
    ensures { IfSome result (λ table. IsBet table coin) }
{
    let table = PayTable::read(&mut Lines::new(text)).ok()?;
    if 1 <= coin && coin <= table.coins {
        Some(table)
    } else {
        None
    }
}
