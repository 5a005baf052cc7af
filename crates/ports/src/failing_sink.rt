ghost use Rattle.std.specs.Prelude.{◌≡◌, ◌⊎◌, ◌↔◌, IfOk, IsErr, IsTrue, false, length, []};
ghost use Rattle.std.specs.Prelude.{◌<◌, ◌≤◌, ◌-◌, min};
ghost use Rattle.ports.specs.Writes.{IsWrite};
ghost use Rattle.ports.specs.Failing.{is_chosen, after};

use crate::{Failed, MemorySink, Sink};
use fractions::OutOfMemory;
use std::alloc::Global;
use std::marker::Model;

/// Memory of a fixed capacity, which takes a few bytes at a time, with writes that fail. A write to a full sink fails
/// too.
#[derive(Drop)]
pub struct FailingSink {
    memory: MemorySink,
    piece: usize,
    fails: Vec<u64>,
    calls: u64,
}

impl Model for FailingSink {
    ghost use Rattle.std.specs.Prelude.{◌≤◌};
    ghost use Rattle.ports.specs.Failing.{Held};

    ghost Value = { Held };

    ghost view = { λ s. record {
      bytes = s.memory.bytes;
      capacity = s.memory.capacity;
      piece = s.piece;
      fails = s.fails.items;
      calls = s.calls;
      faults = s.memory.faults;
      failed = s.memory.failed;
    } };

    ghost invariant = { λ s. 1 ≤ s.piece };
}

impl FailingSink {
    /// Makes an empty sink for at most `capacity` bytes, which takes at most `piece` a call. Its memory is taken now.
    ///
    /// `fails` lists which calls fail and take nothing, counted from 0.
    pub fn new(
        alloc: Global,
        capacity: usize,
        piece: usize,
        fails: Vec<u64>,
    ) -> Result<FailingSink, OutOfMemory>
        requires { 1 ≤ piece }
        ensures { IfOk result (λ s. s ≡ record {
          bytes = [];
          capacity = capacity;
          piece = piece;
          fails = fails.items;
          calls = 0;
          faults = 0;
          failed = false;
        }) }
    {
        let memory = MemorySink::new(alloc, capacity)?;
        Ok(FailingSink {
            memory,
            piece,
            fails,
            calls: 0,
        })
    }

    /// Returns the bytes taken so far.
    pub fn taken(&self) -> &[u8]
        ensures { result.now ≡ self.now.bytes }
    {
        self.memory.taken()
    }
}

impl Sink for FailingSink {
    ghost use Rattle.std.specs.Prelude.{Some};

    ghost taken = { λ s. Some s.bytes };

    ghost faults = { λ s. s.faults };

    ghost failed = { λ s. s.failed };

    /// Takes as many bytes of `piece` as fit and are taken at once.
    ///
    /// Fails exactly at the chosen calls, and when no byte fits of a piece that isn't empty.
    fn write(&mut self, piece: &[u8]) -> Result<usize, Failed>
        ensures write { IsWrite (Some self.old.bytes) (Some self.new.bytes) self.old.faults self.new.faults
            self.new.failed result piece.now }
        ensures chosen { IsErr result ↔ IsTrue (is_chosen self.old.fails self.old.calls)
            ⊎ ((length self.old.bytes ≡ self.old.capacity) × (0 < length piece.now)) }
        ensures count { IfOk result
            (λ n. n ≡ min (self.old.capacity - length self.old.bytes) (min self.old.piece (length piece.now))) }
        ensures next { self.new.calls ≡ after self.old.calls }
        ensures same_capacity { self.new.capacity ≡ self.old.capacity }
        ensures same_piece { self.new.piece ≡ self.old.piece }
        ensures same_fails { self.new.fails ≡ self.old.fails }
    {
        let call = self.calls;
        self.calls = call.saturating_add(1);
        if self.fails.contains(&call) {
            return self.memory.fail();
        }
        self.memory.write(&piece[..self.piece.min(piece.len())])
    }
}
