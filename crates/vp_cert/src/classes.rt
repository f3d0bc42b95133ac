//! The class lines, over all classes of deals.

ghost use Rattle.std.specs.Prelude.{◌≡◌, ◌+◌, ◌≤◌, length, map, true, IfOk};
ghost use Rattle.vp_card.specs.Cards.{in_deck};
ghost use Rattle.vp_pay.specs.Table.{IsTable};
ghost use Rattle.vp_text.specs.Written.{written};
ghost use Rattle.vp_suit.specs.Classes.{representatives, weight};
ghost use Rattle.vp_draws.specs.Draws.{sum_of_best};
ghost use Rattle.vp_check.specs.Spelling.{class_words};
ghost use Rattle.vp_check.specs.Truth.{due_line};
ghost use Rattle.vp_io.specs.Causes.{one_more};
ghost use Rattle.vp_io.specs.Puts.{Puts};

use crate::Holds;
use crate::lines::put_class;
use vp_check::ClassLine;
use vp_io::{Sink, WriteFault};
use vp_suit::{Class, Classes};

/// Puts a line for each class of deals, by rising index, and adds up the best values of all deals.
pub(crate) fn put_classes<H: Holds, K: Sink>(
    holds: &mut H,
    sink: &mut K,
) -> Result<u128, WriteFault>
    ensures puts { Puts (K.told sink.old) (K.told sink.new) result
        (written (map class_words (map (due_line (H.pays holds.old) (H.bet holds.old)) (representatives (H.pays holds.old).deck)))) }
    ensures sum { IfOk result (λ sum. sum ≡ sum_of_best (H.pays holds.old) (H.bet holds.old)) }
    ensures asked { H.asked holds.new ≤ H.asked holds.old + length (representatives (H.pays holds.old).deck) }
    ensures same_table { H.pays holds.new ≡ H.pays holds.old }
    ensures same_coin { H.bet holds.new ≡ H.bet holds.old }
    ensures rules { IsTable (H.pays holds.old) }
{
    let mut classes = Classes::new(holds.table().deck);
    let mut sum = 0;
    while let Some(class) = classes.next() {
        let line = due_line(holds, &class);
        put_class(&line, sink)?;
        sum += u128::from(line.weight) * u128::from(line.value);
    }
    Ok(sum)
}

/// What the certificate says of a class.
fn due_line<H: Holds>(holds: &mut H, class: &Class) -> ClassLine
    requires cards { in_deck (H.pays holds.old).deck class.now.hand ≡ true }
    requires weight { class.now.weight ≡ weight class.now.hand }
    ensures line { result ≡ due_line (H.pays holds.old) (H.bet holds.old) class.now.hand }
    ensures same_table { H.pays holds.new ≡ H.pays holds.old }
    ensures same_coin { H.bet holds.new ≡ H.bet holds.old }
    ensures counted { H.asked holds.new ≡ one_more (H.asked holds.old) }
{
    let best = holds.best(&class.hand);
    ClassLine {
        hand: class.hand,
        weight: class.weight,
        mask: best.mask,
        value: best.value,
    }
}
