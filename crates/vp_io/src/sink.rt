//! Where bytes go.

ghost use Rattle.std.specs.Io.{WritesAtMost};
ghost use Rattle.std.specs.Io.KnownBytes.{WriteAppends};
ghost use Rattle.vp_io.specs.Causes.{HasCause};
ghost use Rattle.vp_io.specs.Streams.{TakesSome, Told};

use crate::Failed;

/// Takes bytes, one after another, and counts the writes that fail.
pub trait Sink {
    /// The bytes that were taken, where the sink tells them, and a count that rises at each write that fails. It stands
    /// still at 2^64 - 1.
    ghost told: { Self → Told };

    /// Takes the first bytes of the piece, and answers how many: at least one, unless the piece is empty.
    /// A call that fails takes none.
    fn write(&mut self, piece: &[u8]) -> Result<usize, Failed>
        ensures bound { WritesAtMost result piece.now }
        ensures some { TakesSome result piece.now }
        ensures bytes { WriteAppends (told self.old).bytes (told self.new).bytes result piece.now }
        ensures cause { HasCause (told self.old).faults (told self.new).faults result };
}
