//! The whole certificate, put line by line.

ghost use Rattle.std.specs.Prelude.{◌≡◌, ◌+◌, ◌≤◌, length, IfOk};
ghost use Rattle.vp_text.specs.Written.{written};
ghost use Rattle.vp_suit.specs.Classes.{representatives};
ghost use Rattle.vp_draws.specs.Draws.{sum_of_best};
ghost use Rattle.vp_check.specs.Spelling.{cert_text, certificate_text};
ghost use Rattle.vp_check.specs.Truth.{due_certificate};
ghost use Rattle.vp_io.specs.Puts.{Puts};

use crate::Holds;
use crate::classes::put_classes;
use crate::lines::{put_bet, put_return};
use vp_draws::return_denominator;
use vp_io::{Sink, WriteFault};

/// Writes the certificate of the pay table and the bet: the table, the bet, a line for each class of deals with its least
/// best hold, and the return. Answers the sum of the best values over all deals, of which the return is a fraction.
///
/// The lines are put as they come, so where a write fails a proper beginning of the text was put.
pub fn certify<H: Holds, K: Sink>(holds: &mut H, sink: &mut K) -> Result<u128, WriteFault>
    // All lines of the certificate are put; or a proper beginning of them, and a fault is counted.
    ensures puts { Puts (K.told sink.old) (K.told sink.new) result
        (written (certificate_text (due_certificate (H.pays holds.old) (H.bet holds.old)))) }
    ensures sum { IfOk result (λ sum. sum ≡ sum_of_best (H.pays holds.old) (H.bet holds.old)) }
    // No more best holds are asked for than there are classes of deals.
    ensures asked { H.asked holds.new ≤ H.asked holds.old + length (representatives (H.pays holds.old).deck) }
    ensures same_table { H.pays holds.new ≡ H.pays holds.old }
    ensures same_coin { H.bet holds.new ≡ H.bet holds.old }
{
    holds.table().write(sink)?;
    put_behind_table(holds, sink)
}

/// Puts what stands behind the pay table.
fn put_behind_table<H: Holds, K: Sink>(holds: &mut H, sink: &mut K) -> Result<u128, WriteFault>
    ensures puts { Puts (K.told sink.old) (K.told sink.new) result
        (written (cert_text (due_certificate (H.pays holds.old) (H.bet holds.old)))) }
    ensures sum { IfOk result (λ sum. sum ≡ sum_of_best (H.pays holds.old) (H.bet holds.old)) }
    ensures asked { H.asked holds.new ≤ H.asked holds.old + length (representatives (H.pays holds.old).deck) }
    ensures same_table { H.pays holds.new ≡ H.pays holds.old }
    ensures same_coin { H.bet holds.new ≡ H.bet holds.old }
{
    let coin = holds.coin();
    let denominator = return_denominator(holds.table().deck, coin);
    put_bet(coin, sink)?;
    let sum = put_classes(holds, sink)?;
    put_return(sum, denominator, sink)?;
    Ok(sum)
}
