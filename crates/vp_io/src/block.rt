//! A block of bytes that wait to be put.

use std::marker::Model;

/// The most bytes that wait: 64 KiB.
const SIZE: usize = 65_536;

/// Bytes that wait to be put, in the order in which they came. The block is filled from its front to its end, and has
/// room again when it is cleared.
#[derive(Drop)]
pub(crate) struct Block {
    bytes: [u8; SIZE],
    first: usize,
    used: usize,
}

impl Model for Block {
    ghost use Rattle.std.specs.Prelude.{◌≡◌, ◌≤◌, ◌-◌, length};
    ghost use Rattle.vp_io.specs.Blocks.{Waiting, waiting_in};

    ghost Value = { Waiting };

    ghost view = { λ b. record { bytes = waiting_in b.first b.used b.bytes; room = 65536 - b.used } };

    ghost invariant = { λ b. (b.first ≤ b.used) × (b.used ≤ 65536) × (length b.bytes ≡ 65536) };
}

impl Block {
    ghost use Rattle.std.specs.Prelude.{◌≡◌, ◌≤◌, ◌-◌, ◌++◌, ◌↔◌, [], IsTrue, length, min, take, drop};

    /// Nothing waits.
    pub(crate) fn new() -> Block
        ensures { result ≡ record { bytes = []; room = 65536 } }
    {
        Block {
            bytes: [0; SIZE],
            first: 0,
            used: 0,
        }
    }

    /// The bytes that wait.
    pub(crate) fn waiting(&self) -> &[u8]
        ensures { result.now ≡ self.now.bytes }
    {
        &self.bytes[self.first..self.used]
    }

    pub(crate) fn is_full(&self) -> bool
        ensures { IsTrue result ↔ (self.now.room ≡ 0) }
    {
        self.used == SIZE
    }

    /// Nothing waits any more.
    pub(crate) fn clear(&mut self)
        ensures { self.new ≡ record { bytes = []; room = 65536 } }
    {
        self.first = 0;
        self.used = 0;
    }

    /// The first bytes no longer wait.
    pub(crate) fn forget(&mut self, count: usize)
        requires { count ≤ length self.old.bytes }
        ensures bytes { self.new.bytes ≡ drop count self.old.bytes }
        ensures room { self.new.room ≡ self.old.room }
    {
        self.first += count;
    }

    /// The first bytes of the piece wait too, as many as there is room for: the answer is their number.
    pub(crate) fn append(&mut self, piece: &[u8]) -> usize
        ensures count { result ≡ min (length piece.now) self.old.room }
        ensures bytes { self.new.bytes ≡ self.old.bytes ++ take result piece.now }
        ensures room { self.new.room ≡ self.old.room - result }
    {
        let used = self.used;
        let count = piece.len().min(SIZE - used);
        self.bytes[used..used + count].copy_from_slice(&piece[..count]);
        self.used = used + count;
        count
    }
}
