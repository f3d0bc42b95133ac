//! The program for callers that are not Rattle: one function of C over words, an input and a room, all in memory.
#![tactic(auto)]

ghost use Rattle.vpoker_c.specs.Ends.{AnswersWords, RefusesOthers};

mod answering;
mod text_sink;

use crate::answering::answer_into;
use std::alloc::Global;
use vp_handed::words_in;

#[cfg(test)]
mod tests;

/// The code for bytes that are no words, which the program has for arguments that are no UTF-8. No status has it.
const REFUSED_WORDS: u8 = 8;

/// Answers the words to the input: what the program writes to its standard output goes to the front of the room, and
/// what it ends with is the code. `vpoker.h` says what a caller in C owes. It keeps nothing between calls.
#[unsafe(no_mangle)]
pub extern "C" fn vpoker_answer(
    alloc: Global,
    words: &[u8],
    input: &[u8],
    room: &mut [u8],
    taken: &mut usize,
) -> u8
    ensures answered { AnswersWords words.now input.now room.old room.new taken.new result }
    ensures refused { RefusesOthers words.now room.old room.new taken.new result }
{
    match words_in(words) {
        Some(words) => {
            let (status, count) = answer_into(alloc, &words, input, room);
            *taken = count;
            status.code()
        }
        None => {
            *taken = 0;
            REFUSED_WORDS
        }
    }
}
