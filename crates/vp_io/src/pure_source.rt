//! A source over bytes in memory that never fails.

use crate::{Failed, Source};
use std::marker::Model;

/// Gives bytes in memory, as many as there is room for. Its count of faults is the constant 0.
#[derive(Drop)]
pub struct PureSource<'a> {
    left: &'a [u8],
}

impl<'a> Model for PureSource<'a> {
    ghost use Rattle.std.specs.Prelude.{ℕ, List};

    ghost Value = { List ℕ };

    ghost view = { λ s. s.left.now };
}

impl<'a> PureSource<'a> {
    ghost use Rattle.std.specs.Prelude.{◌≡◌};

    /// A source of these bytes.
    pub fn new(bytes: &'a [u8]) -> PureSource<'a>
        ensures { result ≡ bytes.now }
    {
        PureSource { left: bytes }
    }
}

impl<'a> Source for PureSource<'a> {
    ghost use Rattle.std.specs.Prelude.{◌≡◌, Some, min, length, IfOk, IsOk};
    ghost use Rattle.std.specs.Io.{ReadsAtMost};
    ghost use Rattle.std.specs.Io.KnownBytes.{ReadConsumes};
    ghost use Rattle.vp_io.specs.Causes.{HasCause};
    ghost use Rattle.vp_io.specs.Streams.{TellsEnd};

    ghost told = { λ s. record { bytes = Some s; faults = 0 } };

    /// It never fails.
    fn read(&mut self, into: &mut [u8]) -> Result<usize, Failed>
        ensures bound { ReadsAtMost result into.new }
        ensures bytes { ReadConsumes (Some self.old) (Some self.new) result into.new }
        ensures end { TellsEnd (Some self.old) result into.new }
        ensures cause { HasCause 0 0 result }
        ensures ok { IsOk result }
        ensures count { IfOk result (λ n. n ≡ min (length into.new) (length self.old)) }
    {
        let count = into.len().min(self.left.len());
        let (now, later) = self.left.split_at(count);
        into[..count].copy_from_slice(now);
        self.left = later;
        Ok(count)
    }
}
