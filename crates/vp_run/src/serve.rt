//! The text of an answer, written in words of memory that are lent.

ghost use Rattle.std.specs.Prelude.{◌≡◌, ◌≤◌, length, map, true};
ghost use Rattle.vp_io.specs.Puts.{Puts};
ghost use Rattle.vp_run.specs.Answer.{answer};
ghost use Rattle.vp_run.specs.Memory.{in_region, region_words};

use crate::job::job_of;
use crate::vpoker_lent;
use vp_answer::{Status, is_alone, words_of_read};
use vp_command::{Command, command_of};
use vp_io::{Sink, WriteFault};

/// How many words of 64 bits the answer to the words and the input needs beside its input.
#[tactic(auto, unfolding(crate::specs::Memory::region_words))]
pub fn region_words(words: &[&str], bytes: &[u8]) -> usize
    requires { length bytes.now ≤ 67108864 }
    ensures { result ≡ region_words (map (λ w. w.now) words.now) bytes.now }
{
    match command_of(words) {
        None | Some(Command::Tables) => 0,
        Some(Command::Over(task)) => words_of_read(&job_of(task, bytes)),
    }
}

/// Whether these words are all the memory that the answer needs beside its input: `served` serves it then. An answer of
/// `play`, `compile` or `sessions` needs more.
#[tactic(auto, unfolding(crate::specs::Memory::in_region))]
pub fn in_region(words: &[&str], bytes: &[u8]) -> bool
    requires { length bytes.now ≤ 67108864 }
    ensures { result ≡ in_region (map (λ w. w.now) words.now) bytes.now }
{
    match command_of(words) {
        None | Some(Command::Tables) => true,
        Some(Command::Over(task)) => is_alone(&job_of(task, bytes)),
    }
}

/// Writes the text of the answer to the words and the input, in the words of memory that are lent, which may hold any
/// numbers. It asks for no more: the only answer beside Ok is a write fault, with its cause.
pub fn served<K: Sink>(
    words: &[&str],
    bytes: &[u8],
    memory: &mut [u64],
    sink: &mut K,
) -> Result<(), WriteFault>
    requires limit { length bytes.now ≤ 67108864 }
    requires room { region_words (map (λ w. w.now) words.now) bytes.now ≤ length memory.old }
    requires alone { in_region (map (λ w. w.now) words.now) bytes.now ≡ true }
    ensures { Puts (K.told sink.old) (K.told sink.new) result (answer (map (λ w. w.now) words.now) bytes.now).text }
{
    match vpoker_lent(words, bytes, memory, sink) {
        Status::WriteFault => Err(WriteFault),
        _ => Ok(()),
    }
}
