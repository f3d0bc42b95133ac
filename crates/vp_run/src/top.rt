//! All that the program does, from its words and its input to its text and its status.

ghost use Rattle.std.specs.Prelude.{◌≡◌, [], map, true, false};
ghost use Rattle.vp_answer.specs.Closing.{TookNothing};
ghost use Rattle.vp_answer.specs.Outcome.{Outcome, Unread};
ghost use Rattle.vp_run.specs.Answer.{answer, needs_input, task_answer};
ghost use Rattle.vp_command.specs.Commands.{InRange};

use crate::job::job_of;
use crate::lent::{write_tables, write_usage};
use std::alloc::Global;
use vp_answer::{Status, close, write_read};
use vp_command::{Command, Task, command_of};
use vp_io::{Blocks, ReadStop, Sink, Source, read_all};

/// The answer to words that are no command.
pub(crate) const USAGE: &[u8; 6] = b"usage\n";

/// All that the program does. The words are the arguments after the program's name.
#[tactic(auto, unfolding(crate::specs::Answer::answer, crate::specs::Answer::needs_input))]
pub fn vpoker<S: Source, K: Sink>(
    alloc: Global,
    words: &[&str],
    source: &mut S,
    sink: &mut K,
) -> Status
    // Words that need no input: the source is not read.
    ensures unread { let given = map (λ w. w.now) words.now in needs_input given ≡ false → source.new ≡ source.old }
    ensures words { let given = map (λ w. w.now) words.now in needs_input given ≡ false → Unread (answer given [])
        (K.told sink.old)
        (K.told sink.new) result }
    // A command that reads its input.
    ensures command { let given = map (λ w. w.now) words.now in needs_input given ≡ true → Outcome (answer given)
        (S.told source.old)
        (S.told source.new)
        (K.told sink.old)
        (K.told sink.new) result }
{
    match command_of(words) {
        None => write_usage(sink),
        Some(Command::Tables) => write_tables(sink),
        Some(Command::Over(task)) => read_and_answer(alloc, task, source, sink),
    }
}

/// The same over a sink that has taken nothing, to which the text is put in blocks. The sink is given back.
pub fn vpoker_in_blocks<S: Source, K: Sink>(
    alloc: Global,
    words: &[&str],
    source: &mut S,
    sink: K,
) -> (Status, K)
    requires fresh { TookNothing (K.told sink).bytes }
    ensures unread { let given = map (λ w. w.now) words.now in needs_input given ≡ false → source.new ≡ source.old }
    ensures words { let given = map (λ w. w.now) words.now in needs_input given ≡ false → Unread (answer given [])
        (K.told sink)
        (K.told result.1) result.0 }
    ensures command { let given = map (λ w. w.now) words.now in needs_input given ≡ true → Outcome (answer given)
        (S.told source.old)
        (S.told source.new)
        (K.told sink)
        (K.told result.1) result.0 }
{
    let mut blocks = Blocks::new(sink);
    let status = vpoker(alloc, words, source, &mut blocks);
    close(status, blocks)
}

/// Reads the input of a task and writes its answer.
#[tactic(auto, using(vp_answer::proofs::Ends::served_outcome))]
fn read_and_answer<S: Source, K: Sink>(
    alloc: Global,
    task: Task,
    source: &mut S,
    sink: &mut K,
) -> Status
    requires { InRange task }
    ensures { Outcome (task_answer task)
        (S.told source.old)
        (S.told source.new)
        (K.told sink.old)
        (K.told sink.new) result }
{
    match read_all(alloc, source) {
        Ok(bytes) => write_read(alloc, &job_of(task, &bytes), sink),
        Err(ReadStop::ReadFault) => Status::ReadFault,
        Err(ReadStop::TooLong) => Status::TooLong,
        Err(ReadStop::NoMemory) => Status::NoMemory,
    }
}
