//! Calls as a caller in C makes them.

use crate::vpoker_answer;
use std::test::*;

/// Words, an input, how much room there is, the code, and the text.
#[derive(Drop)]
struct Case {
    words: &'static [u8],
    input: &'static [u8],
    room: usize,
    code: u8,
    text: &'static [u8],
}

#[test]
fn calls(rt: HostRuntime) {
    let cases = [
        Case {
            words: b"",
            input: b"",
            room: 6,
            code: 2,
            text: b"usage\n",
        },
        Case {
            words: b"certify\x000\0",
            input: b"coins",
            room: 7,
            code: 2,
            text: b"usage\n",
        },
        Case {
            words: b"a\0b\0c\0d\0e\0f\0g\0",
            input: b"",
            room: 5,
            code: 5,
            text: b"usage",
        },
        Case {
            words: b"tables\0",
            input: b"",
            room: 21,
            code: 5,
            text: b"table jacks-9-6\ndeck ",
        },
        Case {
            words: b"deal\x005\0",
            input: b"table a\n",
            room: 10,
            code: 3,
            text: b"refused 2\n",
        },
        Case {
            words: b"deal\x005\0",
            input: b"table a\n",
            room: 0,
            code: 5,
            text: b"",
        },
        Case {
            words: b"tables",
            input: b"",
            room: 9,
            code: 8,
            text: b"",
        },
        Case {
            words: b"\xff\0",
            input: b"",
            room: 9,
            code: 8,
            text: b"",
        },
    ];
    for case in cases {
        let mut whole = [7; 32];
        let room = &mut whole[..case.room.min(32)];
        let mut taken = 9;
        let code = vpoker_answer(rt.alloc(), case.words, case.input, room, &mut taken);
        assert_eq!(rt; code, case.code);
        assert_eq!(rt; room.get(..taken), Some(case.text));
        assert!(rt; whole[taken.min(32)..].iter().all(|byte| *byte == 7));
    }
}
