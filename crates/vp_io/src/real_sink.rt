//! A sink over a writer of std.

ghost use Rattle.std.specs.Prelude.{◌≡◌, ℕ, IfOk, OnErr, take};
ghost use Rattle.std.specs.Io.{WritesAtMost};
ghost use Rattle.std.specs.Io.KnownBytes.{Appends};

use crate::{Failed, Sink};
use std::io;
use std::io::Write;
use std::marker::Model;

/// Hands bytes to a writer, and tells nothing of them. After each write it flushes. Each `Err` of the writer is a
/// fault, and so is a write that takes nothing of a piece that is not empty. Where the flush fails the call fails,
/// though the writer may hold what was written.
#[derive(Drop)]
pub struct RealSink<W: Write> {
    writer: W,
    faults: u64,
}

impl<W: Write> Model for RealSink<W> {
    ghost use Rattle.vp_io.specs.Streams.{Told};

    ghost Value = { Told };

    ghost view = { λ s. record { bytes = W.contents s.writer; faults = s.faults } };
}

impl<W: Write> RealSink<W> {
    /// A sink over this writer.
    pub fn new(writer: W) -> RealSink<W>
        ensures { result ≡ record { bytes = W.contents writer; faults = 0 } }
    {
        RealSink { writer, faults: 0 }
    }
}

/// One write, flushed. The answer is the writer's.
fn write_through<W: Write>(writer: &mut W, piece: &[u8]) -> io::Result<usize>
    ensures bound { WritesAtMost result piece.now }
    ensures bytes { IfOk result (λ n. Appends (W.contents writer.old) (W.contents writer.new) (take n piece.now)) }
    ensures stopped { OnErr result ((n : ℕ) × Appends (W.contents writer.old) (W.contents writer.new) (take n piece.now)) }
{
    let count = writer.write(piece)?;
    writer.flush()?;
    Ok(count)
}

impl<W: Write> Sink for RealSink<W> {
    ghost use Rattle.std.specs.Prelude.{◌≡◌, ℕ, None, IfOk, OnErr, take};
    ghost use Rattle.std.specs.Io.{WritesAtMost};
    ghost use Rattle.std.specs.Io.KnownBytes.{Appends, WriteAppends};
    ghost use Rattle.vp_io.specs.Causes.{HasCause, one_more};
    ghost use Rattle.vp_io.specs.Streams.{TakesSome};

    ghost told = { λ s. record { bytes = None; faults = s.faults } };

    /// One write of the writer, flushed.
    fn write(&mut self, piece: &[u8]) -> Result<usize, Failed>
        ensures bound { WritesAtMost result piece.now }
        ensures some { TakesSome result piece.now }
        ensures bytes { WriteAppends None None result piece.now }
        ensures cause { HasCause self.old.faults self.new.faults result }
        ensures writer { IfOk result (λ n. Appends self.old.bytes self.new.bytes (take n piece.now)) }
        // After a fault the writer holds at most a beginning of the piece more.
        ensures stopped { OnErr result ((n : ℕ) × Appends self.old.bytes self.new.bytes (take n piece.now)) }
        ensures once { OnErr result (self.new.faults ≡ one_more self.old.faults) }
    {
        match write_through(&mut self.writer, piece) {
            Ok(count) if count > 0 || piece.is_empty() => Ok(count),
            _ => {
                self.faults = self.faults.saturating_add(1);
                Err(Failed)
            }
        }
    }
}
