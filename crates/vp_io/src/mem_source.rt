//! A source over bytes in memory, which tells them, and fails at the calls that it is told.

use crate::calls::Calls;
use crate::{Failed, Source};
use std::marker::Model;

/// Gives bytes in memory, some at each call, and fails at listed calls.
#[derive(Drop)]
pub struct MemSource<'a> {
    left: &'a [u8],
    calls: Calls<'a>,
}

impl<'a> Model for MemSource<'a> {
    ghost use Rattle.std.specs.Prelude.{◌≤◌};
    ghost use Rattle.vp_io.specs.Memory.{Tape};

    ghost Value = { Tape };

    ghost view = { λ s. record { left = s.left.now; calls = s.calls } };

    ghost invariant = { λ s. 1 ≤ s.calls.step };
}

impl<'a> MemSource<'a> {
    ghost use Rattle.std.specs.Prelude.{◌≡◌, ◌≤◌};
    ghost use Rattle.vp_io.specs.Memory.{no_calls};

    /// A source of these bytes. A call gives at most `step` of them, and the calls whose numbers, counted from 1, are
    /// in `fails` fail.
    pub fn new(bytes: &'a [u8], step: usize, fails: &'a [u32]) -> MemSource<'a>
        requires { 1 ≤ step }
        ensures { result ≡ record { left = bytes.now; calls = no_calls step fails.now } }
    {
        MemSource {
            left: bytes,
            calls: Calls::new(step, fails),
        }
    }
}

impl<'a> Source for MemSource<'a> {
    ghost use Rattle.std.specs.Prelude.{◌≡◌, Some, min, length, IfOk, is_err, if◌then◌else◌};
    ghost use Rattle.std.specs.Io.{ReadsAtMost};
    ghost use Rattle.std.specs.Io.KnownBytes.{ReadConsumes};
    ghost use Rattle.vp_io.specs.Causes.{HasCause};
    ghost use Rattle.vp_io.specs.Streams.{TellsEnd};
    ghost use Rattle.vp_io.specs.Memory.{fails_next, after_call, after_fault};

    ghost told = { λ s. record { bytes = Some s.left; faults = s.calls.faults } };

    /// It fails exactly at the listed calls, and else gives as many bytes as it has, up to the step and the room.
    fn read(&mut self, into: &mut [u8]) -> Result<usize, Failed>
        ensures bound { ReadsAtMost result into.new }
        ensures bytes { ReadConsumes (Some self.old.left) (Some self.new.left) result into.new }
        ensures end { TellsEnd (Some self.old.left) result into.new }
        ensures cause { HasCause self.old.calls.faults self.new.calls.faults result }
        ensures fails { is_err result ≡ fails_next self.old.calls }
        ensures count { IfOk result (λ n. n ≡ min self.old.calls.step (min (length into.new) (length self.old.left))) }
        ensures calls { self.new.calls ≡ (if is_err result then after_fault self.old.calls else after_call self.old.calls) }
    {
        if self.calls.fails_next() {
            self.calls.fail();
            return Err(Failed);
        }
        self.calls.pass();
        let count = self.calls.step().min(into.len().min(self.left.len()));
        let (now, later) = self.left.split_at(count);
        into[..count].copy_from_slice(now);
        self.left = later;
        Ok(count)
    }
}
