//! A line that is written.

use std::test::*;
use vp_text::*;

#[test]
#[tactic(auto, using(vp_text::proofs::Room::length_with_word, vp_text::proofs::Room::length_decimal))]
fn a_line_is_written(rt: HostRuntime) {
    let mut out = Out::new();
    out.word(b"best");
    out.number(31);
    out.word(b"/");
    out.number(340282366920938463463374607431768211455);
    assert!(rt; out.line() == b"best 31 / 340282366920938463463374607431768211455\n".as_slice());
    out.word(b"end");
    assert!(rt; out.line() == b"end\n".as_slice());
    assert!(rt; out.line() == b"\n".as_slice());
    // The longest line: 511 bytes and a line feed.
    out.word(&[b'x'; 511]);
    let line = out.line();
    assert!(rt; line.len() == 512 && line[510] == b'x' && line[511] == b'\n');
}
