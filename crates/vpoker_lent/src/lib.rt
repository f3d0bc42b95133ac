//! The program for callers that have no heap: two functions of C, over words, an input, memory and a room that are all
//! the caller's.
#![tactic(auto)]

ghost use Rattle.std.specs.Prelude.{length};
ghost use Rattle.vpoker_lent.specs.Ends.{AnswersWords, MeasuresNoOthers, MeasuresWords, RefusesOthers};

mod answering;
mod room_sink;

use crate::answering::{answer_into, measured};
use vp_handed::words_in;

/// The code for bytes that are no words, which the program has for arguments that are no UTF-8. No status has it.
const REFUSED_WORDS: u8 = 8;

/// Answers the words to the input: what the program writes to its standard output goes to the front of the room, what is
/// behind it becomes zero, and what the program ends with is the code. It takes no memory but the words of 64 bits that are
/// lent, which may hold any numbers. It keeps nothing between calls.
#[unsafe(no_mangle)]
pub extern "C" fn vpoker_answer_lent(
    words: &[u8],
    input: &[u8],
    memory: &mut [u64],
    room: &mut [u8],
    taken: &mut usize,
) -> u8
    ensures answered { AnswersWords words.now input.now (length memory.old) room.old room.new taken.new result }
    ensures refused { RefusesOthers words.now room.old room.new taken.new result }
{
    match words_in(words) {
        Some(words) => {
            let (status, count) = answer_into(&words, input, memory, room);
            *taken = count;
            status.code()
        }
        None => {
            *taken = 0;
            REFUSED_WORDS
        }
    }
}

/// Tells how many words of 64 bits have to be lent to `vpoker_answer_lent` for these words and this input. The code is 0,
/// or where no number is enough that of `vpoker_answer_lent`.
#[unsafe(no_mangle)]
pub extern "C" fn vpoker_words_to_lend(words: &[u8], input: &[u8], needed: &mut usize) -> u8
    ensures measured { MeasuresWords words.now input.now needed.new result }
    ensures refused { MeasuresNoOthers words.now needed.new result }
{
    match words_in(words) {
        Some(words) => {
            let (code, count) = measured(&words, input);
            *needed = count;
            code
        }
        None => {
            *needed = 0;
            REFUSED_WORDS
        }
    }
}
