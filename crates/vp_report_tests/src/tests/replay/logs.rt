//! Logs over the built-in 9/6 Jacks: each law broken in each of its ways.

ghost use Rattle.std.specs.Prelude.{◌≡◌, ◌<◌, ◌≤◌, length};
ghost use Rattle.vp_pay.specs.Table.{IsTable};

use std::marker::Brand;
use std::process::Abort;
use std::sync::ledger::{Blank, Ledger};
use std::test::*;
use vp_loggram::Log;
use vp_pay::PayTable;
use vp_replay::{Broken, LogRule, lawful};
use vp_text::Lines;
use vp_wild::Steps;

/// What is found in the log of this text; the blank is for a counter that nobody reads.
fn found<L: Ledger>(table: &PayTable, text: &[u8], blank: Blank) -> Option<Result<u32, Broken>>
    requires table { IsTable table.now }
    requires short { length text.now ≤ 67108864 }
    requires name { blank.name ≡ L.name }
    requires parts { blank.parts ≡ L.parts }
    requires share { 0 < blank.parts }
{
    let log = Log::read(&mut Lines::new(text), table.deck).ok()?;
    Some(lawful(table, &log, &mut Steps::<L>::new(blank)))
}

/// Finds this in the logs that these texts spell.
fn find_all(
    rt: &impl Abort,
    table: &PayTable,
    cases: &[(&str, Result<u32, Broken>)],
) -> Result<(), Fail>
    requires { IsTable table.now }
{
    for (text, due) in cases {
        if text.len() > 1000 {
            return Err("a longer log")?;
        }
        let told = found::<Brand>(table, text.as_bytes(), Blank::new(1));
        assert_eq!(rt; told, Some(*due));
    }
    Ok(())
}

fn broken(game: u32, rule: LogRule, said: u64, due: u64) -> Result<u32, Broken> {
    Err(Broken {
        game,
        rule,
        said,
        due,
    })
}

#[test]
fn lawful_logs(rt: HostRuntime) -> Result<(), Fail> {
    let table = PayTable::built_in(0).ok_or("no such table")?;
    let cases = [
        ("log 7\nend\n", Ok(0)),
        // A draw to a royal flush, and the flush that is held.
        (
            "log 100
game 5 deal As Ks Qs Js 4s hold Js Qs Ks As draw Ts pay 4000 credits 4095
game 5 deal As Ks Qs Js 4s hold As Ks Qs Js 4s draw pay 30 credits 4120
end
",
            Ok(2),
        ),
        // All credits are bet, and five cards are drawn.
        (
            "log 1
game 1 deal 2c 7d 9h Js Kc hold draw 3c 3d 3h 8s 8c pay 9 credits 9
end
",
            Ok(1),
        ),
    ];
    find_all(&rt, &table, &cases)
}

// Each of these games stands behind `log 100`, but for the last ones.
#[test]
fn broken_laws(rt: HostRuntime) -> Result<(), Fail> {
    let table = PayTable::built_in(0).ok_or("no such table")?;
    let cases = [
        // The bet is none of the table's.
        (
            "log 100
game 6 deal As Ks Qs Js 4s hold Js Qs Ks As draw Ts pay 4000 credits 4095
end
",
            broken(1, LogRule::Bet, 6, 5),
        ),
        (
            "log 100
game 0 deal As Ks Qs Js 4s hold Js Qs Ks As draw Ts pay 4000 credits 4100
end
",
            broken(1, LogRule::Bet, 0, 5),
        ),
        (
            "log 4
game 5 deal As Ks Qs Js 4s hold Js Qs Ks As draw Ts pay 4000 credits 4095
end
",
            broken(1, LogRule::Funds, 5, 4),
        ),
        // A card is dealt twice.
        (
            "log 100
game 5 deal As Ks As Js 4s hold draw 2c 3c 4c 5c 7c pay 30 credits 125
end
",
            broken(1, LogRule::Deal, 3, 51),
        ),
        // A card is held that was not dealt, or held twice.
        (
            "log 100
game 5 deal As Ks Qs Js 4s hold As Kd draw 2c 3c 4c pay 0 credits 95
end
",
            broken(1, LogRule::Hold, 2, 45),
        ),
        (
            "log 100
game 5 deal As Ks Qs Js 4s hold As Ks As draw 2c 3c pay 0 credits 95
end
",
            broken(1, LogRule::Hold, 3, 51),
        ),
        // Too few cards are drawn, or too many.
        (
            "log 100
game 5 deal As Ks Qs Js 4s hold As Ks draw 2c 3c pay 0 credits 95
end
",
            broken(1, LogRule::Count, 2, 3),
        ),
        (
            "log 100
game 5 deal As Ks Qs Js 4s hold As Ks Qs Js 4s draw 2c pay 30 credits 125
end
",
            broken(1, LogRule::Count, 1, 0),
        ),
        // A card is drawn that was dealt and discarded, or is held, or was drawn before.
        (
            "log 100
game 5 deal As Ks Qs Js 4s hold As Ks Qs Js draw 4s pay 30 credits 125
end
",
            broken(1, LogRule::Draw, 1, 11),
        ),
        (
            "log 100
game 5 deal As Ks Qs Js 4s hold As Ks Qs draw 2c As pay 0 credits 95
end
",
            broken(1, LogRule::Draw, 2, 51),
        ),
        (
            "log 100
game 5 deal As Ks Qs Js 4s hold As Ks draw 2c 3c 2c pay 0 credits 95
end
",
            broken(1, LogRule::Draw, 3, 0),
        ),
        // The pay is that of another bet.
        (
            "log 100
game 1 deal As Ks Qs Js 4s hold As Ks Qs Js 4s draw pay 30 credits 129
end
",
            broken(1, LogRule::Pay, 30, 6),
        ),
        (
            "log 100
game 5 deal As Ks Qs Js 4s hold As Ks Qs Js 4s draw pay 30 credits 126
end
",
            broken(1, LogRule::Credits, 126, 125),
        ),
        // Two laws are broken in one game: the first is named.
        (
            "log 100
game 6 deal As As Qs Js 4s hold draw pay 18446744073709551615 credits 0
end
",
            broken(1, LogRule::Bet, 6, 5),
        ),
        (
            "log 100
game 5 deal As Ks Qs Js 4s hold As Ks Qs Js 4s draw pay 31 credits 9
end
",
            broken(1, LogRule::Pay, 31, 30),
        ),
        // Two games break a law, behind a lawful one.
        (
            "log 100
game 5 deal As Ks Qs Js 4s hold Js Qs Ks As draw Ts pay 4000 credits 4095
game 5 deal As Ks Qs Js 4s hold As Ks Qs Js 4s draw pay 30 credits 4120
game 5 deal As Ks Qs Js 4s hold As Ks Qs Js draw 4s pay 31 credits 9
game 6 deal As Ks Qs Js 4s hold As Ks Qs Js draw 4s pay 31 credits 9
end
",
            broken(3, LogRule::Draw, 1, 11),
        ),
        // Each game starts from the credits of the one before.
        (
            "log 5
game 5 deal 2c 7d 9h Js Kc hold draw 3c 4d 6h 8s Tc pay 0 credits 0
game 1 deal 2c 7d 9h Js Kc hold draw 3c 4d 6h 8s Tc pay 0 credits 4
end
",
            broken(2, LogRule::Funds, 1, 0),
        ),
    ];
    find_all(&rt, &table, &cases)
}
