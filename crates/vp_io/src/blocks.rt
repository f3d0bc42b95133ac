//! A sink that holds bytes back, and puts them to another sink block by block.

use crate::block::Block;
use crate::whole::put_front;
use crate::{Failed, Sink, WriteFault, put};
use std::marker::Model;

/// Takes bytes into a block of 64 KiB, and puts the block to the sink below when it is full. What was taken is what the
/// sink below took, and then what is held back. Its faults are those of the sink below.
///
/// A write fails only where the block is full and a write of the sink below fails. What the sink below took of the block
/// is then no longer held back, so a later write goes on behind it.
#[derive(Drop)]
pub struct Blocks<K: Sink> {
    sink: K,
    block: Block,
}

impl<K: Sink> Model for Blocks<K> {
    ghost use Rattle.vp_io.specs.Blocks.{HoldsBack};

    ghost Value = { HoldsBack };

    ghost view = { λ b. record { below = K.told b.sink; held = b.block } };
}

impl<K: Sink> Blocks<K> {
    ghost use Rattle.std.specs.Prelude.{◌≡◌, [], OnOk};
    ghost use Rattle.vp_io.specs.Blocks.{KeepsTaken};
    ghost use Rattle.vp_io.specs.Causes.{HasCause};
    ghost use Rattle.vp_io.specs.Puts.{Puts};

    /// Holds back nothing yet.
    pub fn new(sink: K) -> Blocks<K>
        ensures { result ≡ record { below = K.told sink; held = record { bytes = []; room = 65536 } } }
    {
        Blocks {
            sink,
            block: Block::new(),
        }
    }

    /// Puts what is held back, and gives the sink below. Where a write fails, what it did not take is lost.
    pub fn finish(self) -> (K, Result<(), WriteFault>)
        ensures { Puts self.below (K.told result.0) result.1 self.held.bytes }
    {
        let Blocks { mut sink, block } = self;
        let outcome = put(&mut sink, block.waiting());
        (sink, outcome)
    }

    /// The sink below. What is held back is lost.
    pub fn stop(self) -> K
        ensures { K.told result ≡ self.below }
    {
        self.sink
    }

    /// Puts what is held back.
    fn put_block(&mut self) -> Result<(), Failed>
        ensures same { KeepsTaken self.old self.new }
        ensures cause { HasCause self.old.below.faults self.new.below.faults result }
        ensures cleared { OnOk result (self.new.held ≡ record { bytes = []; room = 65536 }) }
    {
        match put_front(&mut self.sink, self.block.waiting()) {
            Ok(()) => {
                self.block.clear();
                Ok(())
            }
            Err(count) => {
                self.block.forget(count);
                Err(Failed)
            }
        }
    }
}

impl<K: Sink> Sink for Blocks<K> {
    ghost use Rattle.std.specs.Prelude.{◌≡◌, ◌<◌};
    ghost use Rattle.std.specs.Io.{WritesAtMost};
    ghost use Rattle.std.specs.Io.KnownBytes.{WriteAppends};
    ghost use Rattle.vp_io.specs.Blocks.{told_by};
    ghost use Rattle.vp_io.specs.Causes.{HasCause};
    ghost use Rattle.vp_io.specs.Streams.{TakesSome};

    ghost told = { told_by };

    /// Holds the first bytes of the piece back, up to the end of the block. Where the block is full it is put first.
    fn write(&mut self, piece: &[u8]) -> Result<usize, Failed>
        ensures bound { WritesAtMost result piece.now }
        ensures some { TakesSome result piece.now }
        ensures bytes { WriteAppends (told_by self.old).bytes (told_by self.new).bytes result piece.now }
        ensures cause { HasCause self.old.below.faults self.new.below.faults result }
        // The sink below is asked only where the block is full.
        ensures rarely { 0 < self.old.held.room → self.new.below ≡ self.old.below }
    {
        if self.block.is_full() {
            self.put_block()?;
        }
        Ok(self.block.append(piece))
    }
}
