//! Where bytes come from.

ghost use Rattle.std.specs.Io.{ReadsAtMost};
ghost use Rattle.std.specs.Io.KnownBytes.{ReadConsumes};
ghost use Rattle.vp_io.specs.Causes.{HasCause};
ghost use Rattle.vp_io.specs.Streams.{TellsEnd, Told};

use crate::Failed;

/// Gives bytes, from the first to the last, and counts the reads that fail.
pub trait Source {
    /// The bytes that are left, where the source tells them, and a count that rises at each read that fails. It stands
    /// still at 2^64 - 1.
    ghost told: { Self → Told };

    /// Moves the next bytes to the front of the buffer, and answers how many.
    /// 0 for a buffer that has room is the end of input. A call that fails moves none.
    fn read(&mut self, into: &mut [u8]) -> Result<usize, Failed>
        ensures bound { ReadsAtMost result into.new }
        ensures bytes { ReadConsumes (told self.old).bytes (told self.new).bytes result into.new }
        ensures end { TellsEnd (told self.old).bytes result into.new }
        ensures cause { HasCause (told self.old).faults (told self.new).faults result };
}
