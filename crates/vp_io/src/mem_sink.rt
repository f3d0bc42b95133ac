//! A sink over room in memory, which tells what it took, and fails at the calls that it is told and where it is full.

use crate::calls::Calls;
use crate::{Failed, Sink};
use std::marker::Model;

/// Takes bytes into memory, some at each call, and fails at listed calls and where it is full.
#[derive(Drop)]
pub struct MemSink<'a> {
    room: &'a mut [u8],
    used: usize,
    calls: Calls<'a>,
}

impl<'a> Model for MemSink<'a> {
    ghost use Rattle.std.specs.Prelude.{◌≤◌, take, length};
    ghost use Rattle.vp_io.specs.Memory.{Room};

    ghost Value = { Room };

    ghost view = { λ s. record { taken = take s.used s.room.now; size = length s.room.now; calls = s.calls } };

    ghost invariant = { λ s. (1 ≤ s.calls.step) × (s.used ≤ length s.room.now) };
}

impl<'a> MemSink<'a> {
    ghost use Rattle.std.specs.Prelude.{◌≡◌, ◌≤◌, [], length};
    ghost use Rattle.vp_io.specs.Memory.{no_calls};

    /// A sink with this room, which it fills from the front. A call takes at most `step` bytes, and the calls whose
    /// numbers, counted from 1, are in `fails` fail.
    pub fn new(room: &'a mut [u8], step: usize, fails: &'a [u32]) -> MemSink<'a>
        requires { 1 ≤ step }
        ensures { result ≡ record { taken = []; size = length room.old; calls = no_calls step fails.now } }
    {
        MemSink {
            room,
            used: 0,
            calls: Calls::new(step, fails),
        }
    }

    /// The bytes that were taken.
    pub fn taken(&self) -> &[u8]
        ensures { result.now ≡ self.now.taken }
    {
        &self.room[..self.used]
    }
}

impl<'a> Sink for MemSink<'a> {
    ghost use Rattle.std.specs.Prelude.{◌≡◌, ◌-◌, ◌||◌, Some, min, length, IfOk, is_err, if◌then◌else◌};
    ghost use Rattle.std.specs.Io.{WritesAtMost};
    ghost use Rattle.std.specs.Io.KnownBytes.{WriteAppends};
    ghost use Rattle.vp_io.specs.Causes.{HasCause};
    ghost use Rattle.vp_io.specs.Streams.{TakesSome};
    ghost use Rattle.vp_io.specs.Memory.{fails_next, after_call, after_fault, overflows};

    ghost told = { λ s. record { bytes = Some s.taken; faults = s.calls.faults } };

    /// It fails exactly at the listed calls and where it is full, and else takes as many bytes as there are, up to the
    /// step and the room.
    fn write(&mut self, piece: &[u8]) -> Result<usize, Failed>
        ensures bound { WritesAtMost result piece.now }
        ensures some { TakesSome result piece.now }
        ensures bytes { WriteAppends (Some self.old.taken) (Some self.new.taken) result piece.now }
        ensures cause { HasCause self.old.calls.faults self.new.calls.faults result }
        ensures fails { is_err result ≡ (fails_next self.old.calls || overflows self.old piece.now) }
        ensures count { IfOk result (λ n. n ≡ min self.old.calls.step (min (length piece.now) (self.old.size - length self.old.taken))) }
        ensures calls { self.new.calls ≡ (if is_err result then after_fault self.old.calls else after_call self.old.calls) }
        ensures size { self.new.size ≡ self.old.size }
    {
        let used = self.used;
        let is_full = used == self.room.len() && !piece.is_empty();
        if self.calls.fails_next() || is_full {
            self.calls.fail();
            return Err(Failed);
        }
        self.calls.pass();
        let room = self.room.len() - used;
        let count = self.calls.step().min(piece.len().min(room));
        self.room[used..used + count].copy_from_slice(&piece[..count]);
        self.used = used + count;
        Ok(count)
    }
}
