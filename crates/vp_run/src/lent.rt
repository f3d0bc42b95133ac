//! All that the program does where it has no memory but what it is lent.

ghost use Rattle.std.specs.Prelude.{◌≡◌, ◌↔◌, IfErr, IfOk, length, map};
ghost use Rattle.vp_answer.specs.Lent.{EndsLent};
ghost use Rattle.vp_answer.specs.Outcome.{Unread};
ghost use Rattle.vp_run.specs.Answer.{answer, tables_answer, usage};
ghost use Rattle.vp_run.specs.Memory.{IsEnough, IsShort, IsTooLong, WantsMore};

use crate::job::job_of;
use crate::tables::put_tables;
use crate::top::USAGE;
use vp_answer::{Status, is_alone, words_of_read, write_lent};
use vp_command::{Command, command_of};
use vp_io::{LIMIT, Sink, WriteFault, put};

/// All that the program does, over an input and words of 64 bits that are lent, which may hold any numbers. It asks for
/// no memory. The words are the arguments after the program's name.
#[tactic(auto, unfolding(crate::specs::Answer::answer, crate::specs::Answer::needs_input, crate::specs::Memory::region_words, crate::specs::Memory::in_region))]
pub fn vpoker_lent<K: Sink>(
    words: &[&str],
    bytes: &[u8],
    memory: &mut [u64],
    sink: &mut K,
) -> Status
    ensures ends { EndsLent (answer (map (λ w. w.now) words.now) bytes.now) (K.told sink.old) (K.told sink.new) result }
    // An input that is too long, and nothing else, is told so.
    ensures long { result ≡ Status.TooLong ↔ IsTooLong (map (λ w. w.now) words.now) bytes.now }
    // Want of memory is told exactly where the answer takes more than is lent.
    ensures memory { ¬ IsTooLong (map (λ w. w.now) words.now) bytes.now
        → (result ≡ Status.NoMemory ↔ WantsMore (map (λ w. w.now) words.now) bytes.now (length memory.old)) }
{
    match command_of(words) {
        None => write_usage(sink),
        Some(Command::Tables) => write_tables(sink),
        Some(Command::Over(task)) => {
            if LIMIT < bytes.len() {
                return Status::TooLong;
            }
            write_lent(&job_of(task, bytes), memory, sink)
        }
    }
}

/// With how many words of 64 bits the answer can be written, and with no fewer. The error is `TooLong` for an input that
/// is too long, and `NoMemory` where no number of words is enough: a `play`, a `compile` and a `sessions` that is not
/// refused.
#[tactic(auto, unfolding(crate::specs::Answer::needs_input, crate::specs::Memory::region_words, crate::specs::Memory::in_region))]
pub fn words_to_lend(words: &[&str], bytes: &[u8]) -> Result<usize, Status>
    ensures enough { IfOk result (λ n. IsEnough (map (λ w. w.now) words.now) bytes.now n) }
    ensures short { IfErr result (λ status. IsShort (map (λ w. w.now) words.now) bytes.now status) }
{
    match command_of(words) {
        None | Some(Command::Tables) => Ok(0),
        Some(Command::Over(task)) => {
            if LIMIT < bytes.len() {
                return Err(Status::TooLong);
            }
            let read = job_of(task, bytes);
            if is_alone(&read) {
                Ok(words_of_read(&read))
            } else {
                Err(Status::NoMemory)
            }
        }
    }
}

/// Writes the answer to words that are no command.
#[tactic(auto, unfolding(crate::specs::Answer::usage))]
pub(crate) fn write_usage<K: Sink>(sink: &mut K) -> Status
    ensures unread { Unread usage (K.told sink.old) (K.told sink.new) result }
    ensures ends { EndsLent usage (K.told sink.old) (K.told sink.new) result }
    ensures long { result ≡ Status.TooLong → ⊥ }
    ensures memory { result ≡ Status.NoMemory → ⊥ }
{
    match put(sink, USAGE) {
        Ok(()) => Status::Usage,
        Err(WriteFault) => Status::WriteFault,
    }
}

/// Writes the built-in tables.
#[tactic(auto, unfolding(crate::specs::Answer::tables_answer))]
pub(crate) fn write_tables<K: Sink>(sink: &mut K) -> Status
    ensures unread { Unread tables_answer (K.told sink.old) (K.told sink.new) result }
    ensures ends { EndsLent tables_answer (K.told sink.old) (K.told sink.new) result }
    ensures long { result ≡ Status.TooLong → ⊥ }
    ensures memory { result ≡ Status.NoMemory → ⊥ }
{
    match put_tables(sink) {
        Ok(()) => Status::Done,
        Err(WriteFault) => Status::WriteFault,
    }
}
