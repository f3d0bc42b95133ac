//! Texts from outside, and the edges of numbers.

use std::process::Abort;
use std::test::*;
use vp_text::*;

/// The next line has this number and these words, and no more.
fn expect_line(rt: &impl Abort, lines: &mut Lines, number: u32, expected: &[&[u8]]) {
    match lines.next() {
        Some(mut words) => {
            assert!(rt; words.line() == number);
            assert!(rt; lines.last() == number);
            for word in expected {
                assert!(rt; words.end().is_none());
                assert!(rt; words.next_is(word));
                assert!(rt; words.next() == Some(*word));
            }
            assert!(rt; words.end().is_some());
            assert!(rt; words.is_empty());
            assert!(rt; words.next().is_none());
        }
        None => assert!(rt; false),
    }
}

#[test]
fn lines_and_words(rt: HostRuntime) {
    let text = b"# head\r\n\ntable  a\tb# c\n \t \r\r\nx\ry \tz\r\nend\n#\nlast\r";
    let mut lines = Lines::new(text);
    assert!(rt; lines.past() == 9);
    assert!(rt; lines.last() == 0);
    assert!(rt; lines.rest() == text.as_slice());
    expect_line(&rt, &mut lines, 3, &[b"table", b"a", b"b"]);
    expect_line(&rt, &mut lines, 4, &[b"\r"]);
    let mut ahead = lines.again();
    expect_line(&rt, &mut ahead, 5, &[b"x\ry", b"z"]);
    assert!(rt; ahead.rest() == b"end\n#\nlast\r".as_slice());
    expect_line(&rt, &mut lines, 5, &[b"x\ry", b"z"]);
    match lines.again().next() {
        Some(words) => {
            assert!(rt; words.only_is(b"end"));
            assert!(rt; !words.only_is(b"en"));
        }
        None => assert!(rt; false),
    }
    expect_line(&rt, &mut lines, 6, &[b"end"]);
    lines.are_few();
    expect_line(&rt, &mut lines, 8, &[b"last"]);
    assert!(rt; lines.rest().is_empty());
    assert!(rt; lines.next().is_none());
    assert!(rt; lines.past() == 9);
}

#[test]
fn edges_of_texts(rt: HostRuntime) {
    assert!(rt; Lines::new(b"").past() == 1);
    assert!(rt; Lines::new(b"\n").past() == 2);
    assert!(rt; Lines::new(b"\n\r").past() == 3);
    assert!(rt; Lines::new(b"a\n\n").past() == 3);
    assert!(rt; Lines::new(b"\r\n\t#a b").next().is_none());
    match Lines::new(b"\n#\n").next_wanted() {
        Ok(_) => assert!(rt; false),
        Err(refused) => assert!(rt; refused.line == 3),
    }
    match Lines::new(b"\n#\na").next_wanted() {
        Ok(words) => assert!(rt; words.line() == 3),
        Err(_) => assert!(rt; false),
    }
    // A line feed and a comment at each distance up to 300 bytes.
    let mut text = [b'x'; 302];
    text[301] = b'y';
    for place in 0..300 {
        text[place] = b'\n';
        expect_distance(&rt, &text, if place == 0 { 2 } else { 1 }, 3);
        text[place] = b'#';
        expect_distance(&rt, &text, if place == 0 { 0 } else { 1 }, 2);
        text[place] = b'x';
    }
}

/// The first line with words of this text, or 0, and the line past its end.
fn expect_distance(rt: &impl Abort, text: &[u8; 302], line: u32, past: u32) {
    let lines = Lines::new(text);
    assert!(rt; lines.past() == past);
    let first = match lines.again().next() {
        Some(words) => words.line(),
        None => 0,
    };
    assert!(rt; first == line);
}

#[test]
fn numbers(rt: HostRuntime) {
    let read: [(&[u8], Option<u64>); 22] = [
        (b"0", Some(0)),
        (b"7", Some(7)),
        (b"10", Some(10)),
        (b"500000", Some(500000)),
        (b"9999999999999999999", Some(9999999999999999999)),
        (b"18446744073709551615", Some(18446744073709551615)),
        (b"18446744073709551616", None),
        (b"18446744073709551620", None),
        (b"99999999999999999999", None),
        (b"100000000000000000000", None),
        (b"184467440737095516150", None),
        (b"", None),
        (b"05", None),
        (b"00", None),
        (b"+5", None),
        (b"-5", None),
        (b"5a", None),
        (b"5/", None),
        (b"5:", None),
        (b"0x5", None),
        (b"\xff", None),
        (b"\xd9\xa5", None),
    ];
    for (text, value) in &read {
        assert!(rt; number(text) == *value);
    }
}

#[test]
fn words_of_a_line(rt: HostRuntime) {
    // `cert`, a number from 1 to 5, and nothing behind it.
    let read: [(&[u8], Option<u64>); 8] = [
        (b"cert 1", Some(1)),
        (b"cert 5 # coins", Some(5)),
        (b"cert 0", None),
        (b"cert 6", None),
        (b"cert 05", None),
        (b"cert", None),
        (b"certs 1", None),
        (b"cert 1 1", None),
    ];
    for (text, value) in &read {
        match Lines::new(text).next() {
            Some(mut words) => assert!(rt; keyed_number(&mut words, b"cert", 1, 5) == *value),
            None => assert!(rt; false),
        }
    }
}
