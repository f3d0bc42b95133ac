//! A source over a reader of std.

ghost use Rattle.std.specs.Prelude.{◌≡◌};

use crate::{Failed, Source};
use std::io::Read;
use std::marker::Model;

/// Gives what a reader gives, and tells nothing of it. Each `Err` of the reader is a fault.
#[derive(Drop)]
pub struct RealSource<R: Read> {
    reader: R,
    faults: u64,
}

impl<R: Read> Model for RealSource<R> {
    ghost use Rattle.vp_io.specs.Streams.{Told};

    ghost Value = { Told };

    ghost view = { λ s. record { bytes = R.remaining s.reader; faults = s.faults } };
}

impl<R: Read> RealSource<R> {
    /// A source over this reader.
    pub fn new(reader: R) -> RealSource<R>
        ensures { result ≡ record { bytes = R.remaining reader; faults = 0 } }
    {
        RealSource { reader, faults: 0 }
    }
}

impl<R: Read> Source for RealSource<R> {
    ghost use Rattle.std.specs.Prelude.{◌≡◌, None, OnErr};
    ghost use Rattle.std.specs.Io.{ReadsAtMost};
    ghost use Rattle.std.specs.Io.KnownBytes.{ReadConsumes};
    ghost use Rattle.vp_io.specs.Causes.{HasCause, one_more};
    ghost use Rattle.vp_io.specs.Streams.{TellsEnd};

    ghost told = { λ s. record { bytes = None; faults = s.faults } };

    /// One read of the reader.
    fn read(&mut self, into: &mut [u8]) -> Result<usize, Failed>
        ensures bound { ReadsAtMost result into.new }
        ensures bytes { ReadConsumes None None result into.new }
        ensures end { TellsEnd None result into.new }
        ensures cause { HasCause self.old.faults self.new.faults result }
        ensures reader { ReadConsumes self.old.bytes self.new.bytes result into.new }
        ensures once { OnErr result (self.new.faults ≡ one_more self.old.faults) }
    {
        match self.reader.read(into) {
            Ok(count) => Ok(count),
            Err(_) => {
                self.faults = self.faults.saturating_add(1);
                Err(Failed)
            }
        }
    }
}
