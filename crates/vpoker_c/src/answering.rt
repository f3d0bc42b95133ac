//! One call of the program over memory.

ghost use Rattle.std.specs.Prelude.{map};
ghost use Rattle.vp_answer.specs.StatusCode.{code_of};
ghost use Rattle.vpoker_c.specs.First.{AnswersAll};

use crate::text_sink::TextSink;
use std::alloc::Global;
use vp_io::PureSource;
use vp_run::{Status, vpoker};

/// Answers words, of which the first six are given, to the input: the status, and how many bytes at the front of the room
/// are the text.
pub(crate) fn answer_into(
    alloc: Global,
    words: &[&str],
    input: &[u8],
    room: &mut [u8],
) -> (Status, usize)
    ensures { let first = map (λ w. w.now) words.now in AnswersAll first input.now room.old room.new result.1 (code_of result.0) }
{
    let Ok(mut sink) = TextSink::new(alloc, room.len()) else {
        return (Status::NoMemory, 0);
    };
    let mut source = PureSource::new(input);
    let status = vpoker(alloc, words, &mut source, &mut sink);
    let text = sink.text();
    room[..text.len()].copy_from_slice(text);
    (status, text.len())
}
