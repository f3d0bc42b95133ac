//! One call of the program over lent memory.

ghost use Rattle.std.specs.Prelude.{length, map};
ghost use Rattle.vp_answer.specs.StatusCode.{code_of};
ghost use Rattle.vpoker_lent.specs.First.{AnswersAll, MeasuresAll};

use crate::room_sink::RoomSink;
use vp_run::{Status, vpoker_lent, words_to_lend};

/// Answers words, of which the first six are given, to the input: the status, and how many bytes at the front of the room
/// are the text.
pub(crate) fn answer_into(
    words: &[&str],
    input: &[u8],
    memory: &mut [u64],
    room: &mut [u8],
) -> (Status, usize)
    ensures { let first = map (λ w. w.now) words.now in AnswersAll first input.now (length memory.old) room.old room.new result.1 (code_of result.0) }
{
    let mut sink = RoomSink::new(room);
    let status = vpoker_lent(words, input, memory, &mut sink);
    (status, sink.finish())
}

/// How many words of memory the answer takes, behind the code 0, or why no number of words is enough.
#[tactic(auto, using(crate::proofs::Rooms::measured_ok, crate::proofs::Rooms::measured_err))]
pub(crate) fn measured(words: &[&str], input: &[u8]) -> (u8, usize)
    ensures { let first = map (λ w. w.now) words.now in MeasuresAll first input.now result.1 result.0 }
{
    match words_to_lend(words, input) {
        Ok(count) => (0, count),
        Err(status) => (status.code(), 0),
    }
}
