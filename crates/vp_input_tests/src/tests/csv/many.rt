//! As many sessions and records as may be, and one too many.

use std::alloc::{AllocError, Global};
use std::test::*;
use vp_csv::{CsvStop, Sessions};

/// Appends a record that opens a session with one of 1331 names.
fn open(text: &mut Vec<u8>, number: u32) -> Result<(), AllocError> {
    text.push(b'a' + (number % 11) as u8)?;
    text.push(b'a' + (number / 11 % 11) as u8)?;
    text.push(b'a' + (number / 121 % 11) as u8)?;
    text.extend_from_slice(b",,,,,,1\n")
}

fn many(alloc: Global, sessions: u32, games: u32) -> Result<Vec<u8>, AllocError> {
    let mut text = Vec::new(alloc);
    text.extend_from_slice(b"session,bet,deal,hold,draw,pay,credits\n")?;
    for number in 0..sessions {
        open(&mut text, number)?;
    }
    for _ in 0..games {
        text.extend_from_slice(b"aaa,0,2c 2c 2c 2c 2c,,,0,1\n")?;
    }
    Ok(text)
}

#[test]
fn a_thousand_sessions(rt: HostRuntime) -> Result<(), Fail> {
    let most = many(rt.alloc(), 1000, 0).ok().ok_or("memory")?;
    let sessions = Sessions::read(rt.alloc(), most.as_slice(), 52)
        .ok()
        .ok_or("sessions")?;
    assert_eq!(rt; sessions.count(), 1000);
    let more = many(rt.alloc(), 1001, 0).ok().ok_or("memory")?;
    let stop = Sessions::read(rt.alloc(), more.as_slice(), 52).err();
    assert_eq!(rt; stop, Some(CsvStop::Record { place: 1002 }));
    Ok(())
}

#[test]
fn records_up_to_the_last(rt: HostRuntime) -> Result<(), Fail> {
    let text = many(rt.alloc(), 1, 399999).ok().ok_or("memory")?;
    let sessions = Sessions::read(rt.alloc(), text.as_slice(), 52)
        .ok()
        .ok_or("sessions")?;
    assert_eq!(rt; sessions.count(), 1);
    Ok(())
}

#[test]
fn a_record_too_many(rt: HostRuntime) -> Result<(), Fail> {
    let text = many(rt.alloc(), 1, 400000).ok().ok_or("memory")?;
    let stop = Sessions::read(rt.alloc(), text.as_slice(), 52).err();
    assert_eq!(rt; stop, Some(CsvStop::Record { place: 400002 }));
    Ok(())
}
