//! A sink that keeps no bytes, and counts them.

ghost use Rattle.std.specs.Prelude.{◌≡◌};

use crate::{Failed, Sink};
use std::marker::Model;

/// Takes all bytes that it is given, keeps their number alone, and tells none of them. Its count of faults is the
/// constant 0.
#[derive(Drop)]
pub struct CountSink {
    bytes: u64,
}

impl Model for CountSink {
    ghost use Rattle.std.specs.Prelude.{ℕ};

    ghost Value = { ℕ };

    ghost view = { λ s. s.bytes };
}

impl CountSink {
    /// A sink that has taken nothing.
    pub fn new() -> CountSink
        ensures { result ≡ 0 }
    {
        CountSink { bytes: 0 }
    }

    /// How many bytes were taken. It stands still at 2^64 - 1.
    pub fn bytes(&self) -> u64
        ensures { result ≡ self.now }
    {
        self.bytes
    }
}

impl Sink for CountSink {
    ghost use Rattle.std.specs.Prelude.{◌≡◌, ◌+◌, ◌-◌, ◌^◌, None, Ok, min, length};
    ghost use Rattle.std.specs.Io.{WritesAtMost};
    ghost use Rattle.std.specs.Io.KnownBytes.{WriteAppends};
    ghost use Rattle.vp_io.specs.Causes.{HasCause};
    ghost use Rattle.vp_io.specs.Streams.{TakesSome};

    ghost told = { λ _. record { bytes = None; faults = 0 } };

    /// It never fails.
    fn write(&mut self, piece: &[u8]) -> Result<usize, Failed>
        ensures bound { WritesAtMost result piece.now }
        ensures some { TakesSome result piece.now }
        ensures bytes { WriteAppends None None result piece.now }
        ensures cause { HasCause 0 0 result }
        ensures all { result ≡ Ok (length piece.now) }
        ensures counted { self.new ≡ min (self.old + length piece.now) (2 ^ 64 - 1) }
    {
        self.bytes = self.bytes.saturating_add(piece.len() as u64);
        Ok(piece.len())
    }
}
