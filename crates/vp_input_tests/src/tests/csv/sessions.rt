//! Texts whose records keep the rules, and the logs of their sessions.

use crate::tests::csv::told;
use std::test::*;
use vp_csv::Sessions;

/// A session of one game, and one that could not bet so much.
const TOLD: &[u8] = b"a
log 100
game 5 deal As Ks Qs Js 4s hold Js Qs Ks As draw Ts pay 4000 credits 4095
end
b
log 4
game 5 deal As Ks Qs Js 4s hold Js Qs Ks As draw Ts pay 4000 credits 3999
end
";

#[test]
fn sessions_are_counted_and_named(rt: HostRuntime) -> Result<(), Fail> {
    let text: &[u8] = b"session,bet,deal,hold,draw,pay,credits
lou-1,,,,,,1000000000000
session,,,,,,0
";
    let sessions = Sessions::read(rt.alloc(), text, 52).ok().ok_or("sessions")?;
    assert_eq!(rt; sessions.count(), 2);
    assert_eq!(rt; sessions.name(0).text(), b"lou-1".as_slice());
    assert_eq!(rt; sessions.log(0), b"log 1000000000000\nend\n".as_slice());
    assert_eq!(rt; sessions.name(1).text(), b"session".as_slice());
    assert_eq!(rt; sessions.log(1), b"log 0\nend\n".as_slice());
    Ok(())
}

#[test]
fn sessions_are_kept_apart(rt: HostRuntime) -> Result<(), Fail> {
    let mixed: &[u8] = b"session,bet,deal,hold,draw,pay,credits
a,,,,,,100
b,,,,,,4
b,5,As Ks Qs Js 4s,Js Qs Ks As,Ts,4000,3999
a,5,As Ks Qs Js 4s,Js Qs Ks As,Ts,4000,4095
";
    assert_eq!(rt; told(rt.alloc(), mixed, 52)?.as_slice(), TOLD);
    // One session behind the other, as a spreadsheet saves them: a byte order mark, CR LF, and fields in quotes.
    let saved: &[u8] = b"\xEF\xBB\xBFsession,bet,deal,hold,draw,pay,credits\r
\"a\",,,,,,\"100\"\r
a,5,\"As Ks Qs Js 4s\",\"Js Qs Ks As\",Ts,4000,4095\r
b,\"\",,,,,4\r
b,5,As Ks Qs Js 4s,Js Qs Ks As,Ts,4000,3999";
    assert_eq!(rt; told(rt.alloc(), saved, 52)?.as_slice(), TOLD);
    // Lines without a byte are no records, and a quote that is open at the end ends there.
    let gaps: &[u8] = b"\n\nsession,bet,deal,hold,draw,pay,credits

a,,,,,,100\r\n\r
b,,,,,,4
a,5,As Ks Qs Js 4s,Js Qs Ks As,Ts,4000,4095


b,5,As Ks Qs Js 4s,Js Qs Ks As,Ts,4000,\"3999";
    assert_eq!(rt; told(rt.alloc(), gaps, 52)?.as_slice(), TOLD);
    Ok(())
}

#[test]
fn other_sessions_change_nothing(rt: HostRuntime) -> Result<(), Fail> {
    let first: &[u8] = b"session,bet,deal,hold,draw,pay,credits
b,,,,,,7
a,,,,,,9
b,1,2c 2d 2h 2s 3c,,,0,6
a,1,2c 2d 2h 2s 3c,2c 2d 2h 2s,4c,25,33
b,1,2c 2d 2h 2s 3c,,,0,5
a,1,2c 2d 2h 2s 3c,2c,3d 4d 5d 6d,0,32
";
    let second: &[u8] = b"session,bet,deal,hold,draw,pay,credits
a,,,,,,9
c,,,,,,100
a,1,2c 2d 2h 2s 3c,2c 2d 2h 2s,4c,25,33
a,1,2c 2d 2h 2s 3c,2c,3d 4d 5d 6d,0,32
c,5,As Ks Qs Js 4s,,,0,95
";
    let log: &[u8] = b"log 9
game 1 deal 2c 2d 2h 2s 3c hold 2c 2d 2h 2s draw 4c pay 25 credits 33
game 1 deal 2c 2d 2h 2s 3c hold 2c draw 3d 4d 5d 6d pay 0 credits 32
end
";
    let b = Sessions::read(rt.alloc(), first, 52)
        .ok()
        .ok_or("sessions")?;
    let c = Sessions::read(rt.alloc(), second, 52)
        .ok()
        .ok_or("sessions")?;
    assert_eq!(rt; (b.count(), c.count()), (2, 2));
    assert_eq!(rt; b.name(1).text(), b"a".as_slice());
    assert_eq!(rt; b.log(1), log);
    assert_eq!(rt; c.name(0).text(), b"a".as_slice());
    assert_eq!(rt; c.log(0), log);
    Ok(())
}

#[test]
fn what_is_unlawful_is_read(rt: HostRuntime) -> Result<(), Fail> {
    let text: &[u8] = b"session,bet,deal,hold,draw,pay,credits
a,,,,,,0
a,0,2c 2c 2c 2c Jo,2c 2c 2c 2c 2c,Jk Jk Jk Jk Jk,18446744073709551615,0
";
    let log: &[u8] = b"a
log 0
game 0 deal 2c 2c 2c 2c Jo hold 2c 2c 2c 2c 2c draw Jk Jk Jk Jk Jk pay 18446744073709551615 credits 0
end
";
    assert_eq!(rt; told(rt.alloc(), text, 54)?.as_slice(), log);
    let header: &[u8] = b"session,bet,deal,hold,draw,pay,credits";
    assert_eq!(rt; told(rt.alloc(), header, 52)?.len(), 0);
    Ok(())
}
