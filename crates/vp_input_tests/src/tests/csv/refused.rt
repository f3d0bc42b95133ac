//! Texts of which a record breaks its rule.

ghost use Rattle.vp_card.specs.Cards.{IsDeck};

use std::alloc::Global;
use std::test::*;
use vp_csv::{CsvStop, Sessions};

/// The record that a text is refused at; 0 where there is no memory, or none is refused.
fn refused(alloc: Global, text: &[u8], deck: u8) -> u32
    requires { IsDeck deck }
{
    match Sessions::read(alloc, text, deck) {
        Ok(_) => 0,
        Err(CsvStop::Record { place }) => place,
        Err(CsvStop::NoMemory) => 0,
    }
}

/// The header and these records.
fn behind_header(alloc: Global, records: &[u8]) -> Result<Vec<u8>, Fail> {
    let mut text = Vec::new(alloc);
    text.extend_from_slice(b"session,bet,deal,hold,draw,pay,credits\n")
        .ok()
        .ok_or("memory")?;
    text.extend_from_slice(records).ok().ok_or("memory")?;
    Ok(text)
}

#[test]
fn the_header_is_first(rt: HostRuntime) {
    let texts: [&[u8]; 9] = [
        b"",
        b"\n\r\n",
        b"a,,,,,,100\n",
        b"session,bet,deal,hold,draw,pay\n",
        b"session,bet,deal,hold,draw,pay,credits,\n",
        b"session,bet,deal,hold,draw,credits,pay\n",
        b"Session,bet,deal,hold,draw,pay,credits\n",
        b"session, bet,deal,hold,draw,pay,credits\n",
        b"\xEF\xBB\xBF\xEF\xBB\xBFsession,bet,deal,hold,draw,pay,credits\n",
    ];
    for text in texts {
        assert_eq!(rt; refused(rt.alloc(), text, 52), 1);
    }
}

#[test]
fn each_record_keeps_its_rule(rt: HostRuntime) -> Result<(), Fail> {
    let texts: [(u32, &[u8]); 27] = [
        // Fields that are missing, and fields too many.
        (2, b"a,,,,,100"),
        (2, b"a,,,,,,100,"),
        (3, b"a,,,,,,100\na"),
        (3, b"a,,,,,,100\na,5,As Ks Qs Js 4s,,Ts,0"),
        // Names.
        (2, b",,,,,,100"),
        (2, b"A,,,,,,100"),
        (2, b" a,,,,,,100"),
        (2, b"\"a,\"\"b\"\"\",,,,,,100"),
        (2, b"abcdefghijklmnopqrstuvwxy,,,,,,100"),
        // Openings.
        (2, b"a,,,,,,"),
        (2, b"a,,,,,,0100"),
        (2, b"a,,,,,,1000000000001"),
        (2, b"a,,,,,0,100"),
        (3, b"a,,,,,,100\na,,,,,,100"),
        (2, b"a,5,As Ks Qs Js 4s,,,0,95\na,,,,,,100"),
        // Games.
        (3, b"a,,,,,,100\na,05,As Ks Qs Js 4s,,,0,95"),
        (3, b"a,,,,,,100\na,5,As  Ks Qs Js 4s,,,0,95"),
        (3, b"a,,,,,,100\na,5, As Ks Qs Js 4s,,,0,95"),
        (3, b"a,,,,,,100\na,5,As Ks Qs Js 4s ,,,0,95"),
        (3, b"a,,,,,,100\na,5,As Ks Qs Js,,,0,95"),
        (3, b"a,,,,,,100\na,5,As Ks Qs Js 4s,2c 2c 2c 2c 2c 2c,,0,95"),
        (3, b"a,,,,,,100\na,5,As Ks Qs Js 4s,,2c 2c 2c 2c 2c 2c,0,95"),
        (3, b"a,,,,,,100\na,5,As Ks Qs Js 4s,As Ks Qs Js,Jo,0,95"),
        (3, b"a,,,,,,100\na,5,As Ks Qs Js 4s,,,,95"),
        (
            3,
            b"a,,,,,,100\na,5,As Ks Qs Js 4s,,,0,18446744073709551616",
        ),
        // Records are counted, and not lines.
        (
            4,
            b"\n\na,,,,,,100\n\na,5,\"As Ks Qs Js 4s\",,,0,95\n\nb,5,As Ks Qs Js 4s,,,0,95",
        ),
        (2, b"\"a\n\",,,,,,100"),
    ];
    for (place, records) in texts {
        let text = behind_header(rt.alloc(), records)?;
        assert_eq!(rt; refused(rt.alloc(), text.as_slice(), 52), place);
    }
    let joker = behind_header(
        rt.alloc(),
        b"a,,,,,,100\na,5,As Ks Qs Js 4s,As Ks Qs Js,Jo,0,95",
    )?;
    assert!(rt; Sessions::read(rt.alloc(), joker.as_slice(), 53).is_ok());
    Ok(())
}
