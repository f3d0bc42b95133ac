//! A sink over room that the caller lends.

ghost use Rattle.std.specs.Prelude.{◌≡◌, ◌≤◌, length, true};

use vp_io::{Failed, Sink};

/// Fills the room from its front. A write fails only where the room is full.
///
/// It tells the name of its room and how large that is ahead of the bytes that it took: whoever is handed the sink and
/// promises what it tells promises that it is over the same room as before.
#[derive(Drop)]
pub(crate) struct RoomSink<'a> {
    pub(crate) room: &'a mut [u8],
    pub(crate) used: usize,
    pub(crate) is_cut: bool,
    ghost within: { used ≤ length room.now },
    ghost cut: { is_cut ≡ true → used ≡ length room.now },
}

impl<'a> RoomSink<'a> {
    ghost use Rattle.std.specs.Prelude.{◌≡◌, ◌≤◌, ◌++◌, ◌-◌, [], false, true, length, take, replicate};

    /// A sink that has taken nothing.
    pub(crate) fn new(room: &'a mut [u8]) -> RoomSink<'a>
        ensures same_room { result.room.ghost_name ≡ room.entry.ghost_name }
        ensures size { length result.room.now ≡ length room.old }
        ensures none { result.used ≡ 0 }
        ensures whole { result.is_cut ≡ false }
    {
        RoomSink {
            room,
            used: 0,
            is_cut: false,
        }
    }

    /// How many bytes were taken. All that is behind them becomes zero.
    pub(crate) fn finish(self) -> usize
        ensures count { result ≡ self.entry.used }
        ensures within { self.entry.used ≤ length self.entry.room.now }
        ensures cut { self.entry.is_cut ≡ true → self.entry.used ≡ length self.entry.room.now }
        ensures rest { self.exit.0.now ≡ take self.entry.used self.entry.room.now ++ replicate (length self.entry.room.now - self.entry.used) 0 }
    {
        let RoomSink {
            room,
            used,
            is_cut: _,
        } = self;
        room[used..].fill(0);
        used
    }
}

impl<'a> Sink for RoomSink<'a> {
    ghost use Rattle.vpoker_lent.specs.Keeping.{told_by};

    ghost told = { told_by };

    fn write(&mut self, piece: &[u8]) -> Result<usize, Failed> {
        let used = self.used;
        let count = piece.len().min(self.room.len() - used);
        if count == 0 && !piece.is_empty() {
            self.is_cut = true;
            return Err(Failed);
        }
        self.room[used..used + count].copy_from_slice(&piece[..count]);
        self.used = used + count;
        Ok(count)
    }
}
