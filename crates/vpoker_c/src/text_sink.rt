//! A sink that keeps a text in memory of its own, up to a limit.

use std::alloc::{AllocError, Global};
use std::marker::Model;
use vp_io::{Failed, Sink};

/// Takes bytes up to a limit, at which a write fails. The memory for all of them is there from the start.
///
/// It tells its limit ahead of the bytes that it took: whoever is handed the sink and promises what it tells promises
/// that the limit is as before.
#[derive(Drop)]
pub(crate) struct TextSink {
    text: Vec<u8>,
    limit: usize,
    is_cut: bool,
}

impl Model for TextSink {
    ghost use Rattle.std.specs.Prelude.{vec_capacity};
    ghost use Rattle.vpoker_c.specs.Keeping.{IsKept, Kept};

    ghost Value = { Kept };

    ghost view = { λ s. record { limit = s.limit; text = s.text.items; is_cut = s.is_cut } };

    ghost invariant = { λ s. IsKept s.text.items s.limit (vec_capacity s.text) s.is_cut };
}

impl TextSink {
    ghost use Rattle.std.specs.Prelude.{◌≡◌, ◌≤◌, [], false, true, length, IfOk};

    /// A sink that has taken nothing.
    pub(crate) fn new(alloc: Global, limit: usize) -> Result<TextSink, AllocError>
        ensures { IfOk result (λ s. s ≡ record { limit = limit; text = []; is_cut = false }) }
    {
        let text = Vec::with_capacity(alloc, limit)?;
        Ok(TextSink {
            text,
            limit,
            is_cut: false,
        })
    }

    /// The bytes that were taken.
    pub(crate) fn text(&self) -> &[u8]
        ensures text { result.now ≡ self.now.text }
        ensures within { length self.now.text ≤ self.now.limit }
        // A write fails only where the limit is reached.
        ensures cut { self.now.is_cut ≡ true → length self.now.text ≡ self.now.limit }
    {
        &self.text
    }
}

impl Sink for TextSink {
    ghost use Rattle.std.specs.Prelude.{◌≡◌};
    ghost use Rattle.std.specs.Io.{WritesAtMost};
    ghost use Rattle.std.specs.Io.KnownBytes.{WriteAppends};
    ghost use Rattle.vp_io.specs.Causes.{HasCause};
    ghost use Rattle.vp_io.specs.Streams.{TakesSome};
    ghost use Rattle.vpoker_c.specs.Keeping.{told_by};

    ghost told = { told_by };

    /// It fails only at the limit.
    fn write(&mut self, piece: &[u8]) -> Result<usize, Failed>
        ensures bound { WritesAtMost result piece.now }
        ensures some { TakesSome result piece.now }
        ensures bytes { WriteAppends (told_by self.old).bytes (told_by self.new).bytes result piece.now }
        ensures cause { HasCause (told_by self.old).faults (told_by self.new).faults result }
    {
        let count = piece.len().min(self.limit - self.text.len());
        if count == 0 && !piece.is_empty() {
            self.is_cut = true;
            return Err(Failed);
        }
        match self.text.extend_from_slice(&piece[..count]) {
            Ok(()) => Ok(count),
            Err(_) => Err(Failed),
        }
    }
}
