//! What is left to do once an input is read: a job.

use crate::Status;
use std::alloc::Global;
use vp_io::{Sink, WriteFault};

/// A job that takes no memory but the words that it is lent. It has no answer but its text.
pub trait Work {
    ghost use Rattle.std.specs.Prelude.{◌≡◌, ◌≤◌, ◌<◌, length};
    ghost use Rattle.vp_io.specs.Puts.{Puts};
    ghost use Rattle.vp_answer.specs.Jobs.{Due};

    /// How many words of 64 bits it takes, and its text.
    ghost due: { Self → Due };

    /// It says something.
    ghost some_text: { (work : Self) → 0 < length (due work).text };

    /// How many words of 64 bits it takes.
    fn words(&self) -> usize
        ensures { result ≡ (due self.now).words };

    /// Puts its text. The words that are lent may hold any numbers.
    fn put<K: Sink>(&self, memory: &mut [u64], sink: &mut K) -> Result<(), WriteFault>
        requires { (due self.now).words ≤ length memory.old }
        ensures { Puts (K.told sink.old) (K.told sink.new) result (due self.now).text };
}

/// A job that takes memory of its own beside the words that it is lent, and asks for it before it puts anything.
pub trait HeapWork {
    ghost use Rattle.std.specs.Prelude.{◌≡◌, ◌≤◌, ◌<◌, length};
    ghost use Rattle.vp_answer.specs.Answers.{answer_of};
    ghost use Rattle.vp_answer.specs.Jobs.{DueOf};
    ghost use Rattle.vp_answer.specs.Outcome.{Served};

    /// How many words of 64 bits it is to be lent, how it ends, and its text.
    ghost due: { Self → DueOf };

    /// It says something.
    ghost some_text: { (work : Self) → 0 < length (due work).said.text };

    /// How many words of 64 bits it is to be lent.
    fn words(&self) -> usize
        ensures { result ≡ (due self.now).words };

    /// Writes its text, and gives its status. The words that are lent may hold any numbers.
    fn write<K: Sink>(&self, alloc: Global, memory: &mut [u64], sink: &mut K) -> Status
        requires { (due self.now).words ≤ length memory.old }
        ensures { Served (answer_of (due self.now).said) (K.told sink.old) (K.told sink.new) result };
}

/// What an input leaves to do.
#[derive(Drop)]
pub enum Job<W, H> {
    /// In the words that are lent alone.
    Lent(W),
    /// With memory of its own beside them.
    Heap(H),
}
