//! How the answer to an input that was read ends.

ghost use Rattle.std.specs.Prelude.{◌≡◌, ◌≤◌, ◌<◌, ◌⊎◌, ◌↔◌, length, true, false};
ghost use Rattle.vp_io.specs.Puts.{Puts};
ghost use Rattle.vp_answer.specs.Answers.{answer_of, answer_read, done, stop_answer, words_read};
ghost use Rattle.vp_answer.specs.Asking.{TakesMemory, alone_read};
ghost use Rattle.vp_answer.specs.Jobs.{job_alone, job_answer, job_words};
ghost use Rattle.vp_answer.specs.Lent.{EndsLent};
ghost use Rattle.vp_answer.specs.Outcome.{Served};

use crate::{HeapWork, Job, Status, Stop, Work};
use std::alloc::Global;
use vp_io::{Sink, WriteFault};
use vp_region::Region;

/// How many words of 64 bits the answer to what was read takes.
pub fn words_of_read<W: Work, H: HeapWork>(read: &Result<Job<W, H>, Stop>) -> usize
    ensures { result ≡ words_read (job_words W.due H.due) read.now }
{
    match read {
        Ok(Job::Lent(work)) => work.words(),
        Ok(Job::Heap(work)) => work.words(),
        Err(_) => 0,
    }
}

/// Whether it takes no memory beside these words.
pub fn is_alone<W: Work, H: HeapWork>(read: &Result<Job<W, H>, Stop>) -> bool
    ensures { result ≡ alone_read job_alone read.now }
{
    !matches!(read, Ok(Job::Heap(_)))
}

/// Writes the answer to what was read. The memory that it takes is taken before anything is written.
pub fn write_read<W: Work, H: HeapWork, K: Sink>(
    alloc: Global,
    read: &Result<Job<W, H>, Stop>,
    sink: &mut K,
) -> Status
    ensures served { Served (answer_read (job_answer W.due H.due) read.now) (K.told sink.old) (K.told sink.new) result }
    // Want of memory is no answer where none is asked for.
    ensures memory { result ≡ Status.NoMemory
        → TakesMemory (words_read (job_words W.due H.due) read.now) (alone_read job_alone read.now) }
{
    match read {
        Ok(Job::Lent(work)) => write_in_region(alloc, work, sink),
        Ok(Job::Heap(work)) => write_with_heap(alloc, work, sink),
        Err(stop) => write_stop(*stop, sink),
    }
}

/// Writes the answer to what was read in the words that are lent alone, which may hold any numbers. It ends for want of
/// memory exactly where the answer takes more than is lent, before anything is written.
pub fn write_lent<W: Work, H: HeapWork, K: Sink>(
    read: &Result<Job<W, H>, Stop>,
    memory: &mut [u64],
    sink: &mut K,
) -> Status
    ensures ends { EndsLent (answer_read (job_answer W.due H.due) read.now) (K.told sink.old) (K.told sink.new) result }
    ensures long { result ≡ Status.TooLong → ⊥ }
    ensures memory { result ≡ Status.NoMemory
        ↔ ((length memory.old < words_read (job_words W.due H.due) read.now) ⊎ (alone_read job_alone read.now ≡ false)) }
{
    match read {
        Ok(Job::Lent(work)) => write_in(work, memory, sink),
        Ok(Job::Heap(_)) => Status::NoMemory,
        Err(stop) => write_stop(*stop, sink),
    }
}

/// Writes the line of an input that is stopped at.
fn write_stop<K: Sink>(stop: Stop, sink: &mut K) -> Status
    ensures served { Served (stop_answer stop) (K.told sink.old) (K.told sink.new) result }
    ensures ends { EndsLent (stop_answer stop) (K.told sink.old) (K.told sink.new) result }
    ensures memory { result ≡ Status.NoMemory → ⊥ }
{
    match stop.put(sink) {
        Ok(()) => stop.status(),
        Err(WriteFault) => Status::WriteFault,
    }
}

/// Writes the text of a job, unless it takes more words than are lent.
fn write_in<W: Work, K: Sink>(work: &W, memory: &mut [u64], sink: &mut K) -> Status
    ensures served { Served (done (W.due work.now).text) (K.told sink.old) (K.told sink.new) result }
    ensures ends { EndsLent (done (W.due work.now).text) (K.told sink.old) (K.told sink.new) result }
    ensures memory { result ≡ Status.NoMemory ↔ (length memory.old < (W.due work.now).words) }
{
    if memory.len() < work.words() {
        return Status::NoMemory;
    }
    match work.put(memory, sink) {
        Ok(()) => Status::Done,
        Err(WriteFault) => Status::WriteFault,
    }
}

/// Opens the region that a job takes, and writes its text there.
fn write_in_region<W: Work, K: Sink>(alloc: Global, work: &W, sink: &mut K) -> Status
    ensures served { Served (done (W.due work.now).text) (K.told sink.old) (K.told sink.new) result }
    ensures memory { result ≡ Status.NoMemory → 0 < (W.due work.now).words }
{
    let words = work.words();
    if words == 0 {
        return write_in(work, &mut [], sink);
    }
    match Region::open(alloc, words) {
        Ok(mut region) => write_in(work, region.words(), sink),
        Err(_) => Status::NoMemory,
    }
}

/// Opens the region that a job takes, and writes its text there, with memory of its own beside it.
fn write_with_heap<H: HeapWork, K: Sink>(alloc: Global, work: &H, sink: &mut K) -> Status
    ensures { Served (answer_of (H.due work.now).said) (K.told sink.old) (K.told sink.new) result }
{
    match Region::open(alloc, work.words()) {
        Ok(mut region) => work.write(alloc, region.words(), sink),
        Err(_) => Status::NoMemory,
    }
}
