//! The room for a line, where it stands.
use ports::{Failed, Sink};

/// Room of the host, which takes what fits to its front. A write fails when no byte of a piece fits, so only
/// when the room is full.
///
/// A run ends at the first write that fails, so a line that is longer than the room isn't measured: to know its length
/// takes a second call, which may as well bring the line.
#[derive(Drop)]
pub(crate) struct SliceSink<'a> {
    pub(crate) room: &'a mut [u8],
    pub(crate) count: usize,
    faults: u64,
    pub(crate) failed: bool,
    ghost fits: { count ≤ length room.now },
    ghost full: { failed ≡ true → count ≡ length room.now },
}

ghost use Rattle.std.specs.Prelude.{◌≡◌, ◌≤◌, true, false, length};

impl<'a> SliceSink<'a> {
    /// A sink that has taken nothing.
    pub(crate) fn new(room: &'a mut [u8]) -> SliceSink<'a>
        ensures same_room { result.room.ghost_name ≡ room.entry.ghost_name }
        ensures none { result.count ≡ 0 }
        ensures no_faults { result.faults ≡ 0 }
        ensures not_failed { result.failed ≡ false }
    {
        SliceSink {
            room,
            count: 0,
            faults: 0,
            failed: false,
        }
    }
}

impl Sink for SliceSink<'_> {
    ghost use Rattle.std.specs.Prelude.{Some, take};

    ghost taken = { λ s. Some (take s.count s.room.now) };

    ghost faults = { λ s. s.faults };

    ghost failed = { λ s. s.failed };

    ghost mark = { λ s. s.room.ghost_name };

    fn write(&mut self, piece: &[u8]) -> Result<usize, Failed> {
        let left = self.room.len() - self.count;
        if left == 0 && !piece.is_empty() {
            self.faults = self.faults.saturating_add(1);
            self.failed = true;
            return Err(Failed);
        }
        let count = left.min(piece.len());
        self.room[self.count..self.count + count].copy_from_slice(&piece[..count]);
        self.count += count;
        self.failed = false;
        Ok(count)
    }
}
