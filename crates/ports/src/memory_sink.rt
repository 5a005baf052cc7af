ghost use Rattle.std.specs.Prelude.{◌≡◌, ◌<◌, ◌-◌, length, min, [], true, false, IfOk, OnErr};
ghost use Rattle.std.specs.Prelude.{IsErr};
ghost use Rattle.ports.specs.Causes.{HasCause};
ghost use Rattle.ports.specs.Writes.{IsWrite};

use crate::{Failed, Sink};
use fractions::OutOfMemory;
use std::alloc::Global;
use std::marker::Model;

/// Memory of a fixed capacity, which takes what fits. A write to a full sink fails.
#[derive(Drop)]
pub struct MemorySink {
    bytes: Vec<u8>,
    capacity: usize,
    faults: u64,
    failed: bool,
}

impl Model for MemorySink {
    ghost use Rattle.std.specs.Prelude.{◌≤◌, vec_len, vec_capacity};
    ghost use Rattle.ports.specs.Taken.{Taken};

    ghost Value = { Taken };

    ghost view = { λ s. record { bytes = s.bytes.items; capacity = s.capacity; faults = s.faults; failed = s.failed } };

    ghost invariant = { λ s. (vec_len s.bytes ≤ s.capacity) × (s.capacity ≤ vec_capacity s.bytes) };
}

impl MemorySink {
    /// Makes an empty sink for at most `capacity` bytes. Its memory is taken now.
    pub fn new(alloc: Global, capacity: usize) -> Result<MemorySink, OutOfMemory>
        ensures { IfOk result (λ s. s ≡ record { bytes = []; capacity = capacity; faults = 0; failed = false }) }
    {
        let bytes = Vec::with_capacity(alloc, capacity)?;
        Ok(MemorySink {
            bytes,
            capacity,
            faults: 0,
            failed: false,
        })
    }

    /// Returns the bytes taken so far.
    pub fn taken(&self) -> &[u8]
        ensures { result.now ≡ self.now.bytes }
    {
        self.bytes.as_slice()
    }

    /// A failure, which is counted.
    pub(crate) fn fail(&mut self) -> Result<usize, Failed>
        ensures failed { IsErr result }
        ensures cause { HasCause self.old.faults self.new.faults result }
        ensures last { self.new.failed ≡ true }
        ensures same_bytes { self.new.bytes ≡ self.old.bytes }
        ensures same_capacity { self.new.capacity ≡ self.old.capacity }
    {
        self.faults = self.faults.saturating_add(1);
        self.failed = true;
        Err(Failed)
    }
}

impl Sink for MemorySink {
    ghost use Rattle.std.specs.Prelude.{Some};

    ghost taken = { λ s. Some s.bytes };

    ghost faults = { λ s. s.faults };

    ghost failed = { λ s. s.failed };

    /// Takes as many bytes of `piece` as fit. Fails exactly when none fits of a piece that isn't empty.
    fn write(&mut self, piece: &[u8]) -> Result<usize, Failed>
        ensures write { IsWrite (Some self.old.bytes) (Some self.new.bytes) self.old.faults self.new.faults
            self.new.failed result piece.now }
        ensures count { IfOk result (λ n. n ≡ min (self.old.capacity - length self.old.bytes) (length piece.now)) }
        ensures full { OnErr result ((length self.old.bytes ≡ self.old.capacity) × (0 < length piece.now)) }
        ensures same_capacity { self.new.capacity ≡ self.old.capacity }
    {
        let room = self.capacity - self.bytes.len();
        if room == 0 && !piece.is_empty() {
            return self.fail();
        }
        self.failed = false;
        let count = room.min(piece.len());
        match self.bytes.extend_from_slice(&piece[..count]) {
            Ok(()) => Ok(count),
            // What fits takes no memory.
            Err(_) => unreachable!(),
        }
    }
}
