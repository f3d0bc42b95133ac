//! Logs whose games are given in their order and written as they were read, and logs that are refused.

ghost use Rattle.std.specs.Prelude.{◌≤◌, length};
ghost use Rattle.vp_card.specs.Cards.{IsDeck};

use arrayvec::ArrayVec;
use std::test::*;
use vp_card::Card;
use vp_loggram::Log;
use vp_text::{Lines, Refused};

/// A session: wrong counts, cards that repeat and wrong numbers are in the grammar.
const SESSION: &[u8] = b"log 100
game 5 deal As Ks Qs Js 4s hold Js Qs Ks As draw Ts pay 4000 credits 4095
game 5 deal As Ks Qs Js 4s hold As Ks Qs Js 4s draw pay 30 credits 4120
game 0 deal 2c 2c 2c 2c Jo hold draw 2c 2c Jk 2c 2c pay 18446744073709551615 credits 0
end
";

/// The games of the session, as they stand in it.
const GAMES: &[u8] = b"game 5 deal As Ks Qs Js 4s hold Js Qs Ks As draw Ts pay 4000 credits 4095
game 5 deal As Ks Qs Js 4s hold As Ks Qs Js 4s draw pay 30 credits 4120
game 0 deal 2c 2c 2c 2c Jo hold draw 2c 2c Jk 2c 2c pay 18446744073709551615 credits 0
";

/// The numbers of cards.
fn numbers(cards: &[Card]) -> ArrayVec<u8, 5> {
    let mut numbers = ArrayVec::new();
    for card in cards {
        if !numbers.is_full() {
            numbers.push(card.number());
        }
    }
    numbers
}

/// Bet, payment and credits of a game, and the numbers of the cards that are dealt, held and drawn.
type Said = ((u64, u64, u64), &'static [u8], &'static [u8], &'static [u8]);

#[test]
fn games_are_given_in_their_order(rt: HostRuntime) -> Result<(), Fail> {
    let mut lines = Lines::new(SESSION);
    let log = Log::read(&mut lines, 54).ok().ok_or("a log")?;
    assert!(rt; lines.next().is_none());
    assert_eq!(rt; log.start(), 100);
    let games: [Said; 3] = [
        (
            (5, 4000, 4095),
            &[51, 47, 43, 39, 11],
            &[39, 43, 47, 51],
            &[35],
        ),
        (
            (5, 30, 4120),
            &[51, 47, 43, 39, 11],
            &[51, 47, 43, 39, 11],
            &[],
        ),
        ((0, u64::MAX, 0), &[0, 0, 0, 0, 52], &[], &[0, 0, 53, 0, 0]),
    ];
    let mut given = log.events();
    for (amounts, deal, hold, draw) in games {
        let game = given.next().ok_or("a game")?;
        assert_eq!(rt; (game.bet, game.pay, game.credits), amounts);
        assert_eq!(rt; numbers(&game.deal).as_slice(), deal);
        assert_eq!(rt; numbers(&game.hold).as_slice(), hold);
        assert_eq!(rt; numbers(&game.draw).as_slice(), draw);
    }
    assert!(rt; given.next().is_none());
    assert!(rt; given.next().is_none());
    // They are given again from the first on.
    assert!(rt; log.events().next().is_some_and(|game| game.credits == 4095));
    Ok(())
}

#[test]
fn games_are_written_as_they_were_read(rt: HostRuntime) -> Result<(), Fail> {
    let log = Log::read(&mut Lines::new(SESSION), 54).ok().ok_or("a log")?;
    let mut games = log.events();
    let mut text = Vec::new(rt.alloc());
    for _ in 0..3 {
        games.next().ok_or("a game")?.append(&mut text)?;
    }
    assert_eq!(rt; text.as_slice(), GAMES);
    Ok(())
}

/// The line at which a text is refused as a log with cards of a deck of so many; None where it begins with a log.
fn refused(text: &[u8], deck: u8) -> Option<u32>
    requires deck { IsDeck deck }
    requires short { length text.now ≤ 67108864 }
{
    match Log::read(&mut Lines::new(text), deck) {
        Ok(_) => None,
        Err(Refused { line }) => Some(line),
    }
}

// Each text, and the line at which it is refused with the cards of 52 and of 54.
#[test]
fn refused_logs(rt: HostRuntime) {
    let cases: [(&[u8], Option<u32>, Option<u32>); 20] = [
        (b"log 0\nend\n", None, None),
        (b"log 1000000000000\nend\nmore", None, None),
        (b"log 1000000000001\nend\n", Some(1), Some(1)),
        (b"log 07\nend\n", Some(1), Some(1)),
        (b"log\nend\n", Some(1), Some(1)),
        (b"log 7 7\nend\n", Some(1), Some(1)),
        (b"# nothing\n", Some(2), Some(2)),
        (b"log 7\n\n# no end\n", Some(4), Some(4)),
        (b"log 7\nend end\n", Some(2), Some(2)),
        (
            b"log 7\ngame 1 deal 2c 3c 4c 5c 6c hold draw pay 0 credits 6\n",
            Some(3),
            Some(3),
        ),
        (
            b"log 7\ngame x deal 2c 3c 4c 5c 6c hold draw pay 0 credits 6\nend",
            Some(2),
            Some(2),
        ),
        (
            b"log 7\ngame 1 deal 2c 3c 4c 5c hold draw pay 0 credits 6\nend",
            Some(2),
            Some(2),
        ),
        (
            b"log 7\ngame 1 deal 2c 3c 4c 5c 6c 7c hold draw pay 0 credits 6\nend",
            Some(2),
            Some(2),
        ),
        (
            b"log 7\n\ngame 1 deal 2c 3c 4c 5c 6c hold 2c 3c 4c 5c 6c 2c draw pay 0 credits 6\nend",
            Some(3),
            Some(3),
        ),
        (
            b"log 7\ngame 1 deal 2c 3c 4c 5c 6c hold draw 2c 3c 4c 5c 6c 2c pay 0 credits 6\nend",
            Some(2),
            Some(2),
        ),
        (
            b"log 7\ngame 1 deal 2c 3c 4c 5c 6c hold 10c draw pay 0 credits 6\nend",
            Some(2),
            Some(2),
        ),
        (
            b"log 7\ngame 1 deal 2c 3c 4c 5c Jo hold draw pay 0 credits 6\nend",
            Some(2),
            None,
        ),
        (
            b"log 7\ngame 1 deal 2c 3c 4c 5c 6c hold draw Jk pay 0 credits 6\nend",
            Some(2),
            None,
        ),
        (
            b"log 7\ngame 1 deal 2c 3c 4c 5c 6c hold draw pay 18446744073709551616 credits 6\nend",
            Some(2),
            Some(2),
        ),
        (
            b"log 7\ngame 1 deal 2c 3c 4c 5c 6c hold draw pay 0 credits 6 end\nend",
            Some(2),
            Some(2),
        ),
    ];
    for (text, of_52, of_54) in cases {
        assert!(rt; text.len() <= 100);
        assert_eq!(rt; (refused(text, 52), refused(text, 54)), (of_52, of_54));
    }
}
