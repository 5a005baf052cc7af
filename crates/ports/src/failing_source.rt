ghost use Rattle.std.specs.Prelude.{◌≡◌, ◌↔◌, ◌≤◌, length, min, take, false, IfOk, IsErr, IsTrue};
ghost use Rattle.std.specs.Prelude.{is_err};
ghost use Rattle.std.specs.Io.{ReadsAtMost};
ghost use Rattle.std.specs.Io.KnownBytes.{ReadConsumes};
ghost use Rattle.ports.specs.Causes.{HasCause};
ghost use Rattle.ports.specs.Failing.{is_chosen, after};

use crate::{Failed, Source};
use std::marker::Model;

/// Bytes in memory, given a few at a time, with reads that fail.
#[derive(Drop)]
pub struct FailingSource {
    bytes: Vec<u8>,
    at: usize,
    piece: usize,
    fails: Vec<u64>,
    calls: u64,
    faults: u64,
    failed: bool,
}

impl Model for FailingSource {
    ghost use Rattle.std.specs.Prelude.{drop, length, ◌≤◌};
    ghost use Rattle.ports.specs.Failing.{Remaining};

    ghost Value = { Remaining };

    ghost view = { λ s. record {
      left = drop s.at s.bytes.items;
      piece = s.piece;
      fails = s.fails.items;
      calls = s.calls;
      faults = s.faults;
      failed = s.failed;
    } };

    ghost invariant = { λ s. (s.at ≤ length s.bytes.items) × (1 ≤ s.piece) };
}

impl FailingSource {
    /// Makes a source that gives these bytes, at most `piece` a call, and then ends.
    ///
    /// `fails` lists which calls fail and give nothing, counted from 0.
    pub fn new(bytes: Vec<u8>, piece: usize, fails: Vec<u64>) -> FailingSource
        requires { 1 ≤ piece }
        ensures { result ≡ record {
          left = bytes.items;
          piece = piece;
          fails = fails.items;
          calls = 0;
          faults = 0;
          failed = false;
        } }
    {
        FailingSource {
            bytes,
            at: 0,
            piece,
            fails,
            calls: 0,
            faults: 0,
            failed: false,
        }
    }
}

impl Source for FailingSource {
    ghost use Rattle.std.specs.Prelude.{Some};

    ghost left = { λ s. Some s.left };

    ghost faults = { λ s. s.faults };

    ghost failed = { λ s. s.failed };

    /// Reads as many bytes as are left, fit into `buf` and are given at once. Fails exactly at the chosen calls.
    fn read(&mut self, buf: &mut [u8]) -> Result<usize, Failed>
        ensures bound { ReadsAtMost result buf.new }
        ensures bytes { ReadConsumes (Some self.old.left) (Some self.new.left) result buf.new }
        ensures cause { HasCause self.old.faults self.new.faults result }
        ensures last { self.new.failed ≡ is_err result }
        ensures chosen { IsErr result ↔ IsTrue (is_chosen self.old.fails self.old.calls) }
        ensures count { IfOk result (λ n. n ≡ min (length self.old.left) (min self.old.piece (length buf.old))) }
        ensures next { self.new.calls ≡ after self.old.calls }
        ensures same_piece { self.new.piece ≡ self.old.piece }
        ensures same_fails { self.new.fails ≡ self.old.fails }
    {
        let call = self.calls;
        self.calls = call.saturating_add(1);
        self.failed = self.fails.contains(&call);
        if self.failed {
            self.faults = self.faults.saturating_add(1);
            return Err(Failed);
        }
        let count = fill(&self.bytes[self.at..], self.piece, buf);
        self.at += count;
        Ok(count)
    }
}

// Copies what fits, and at most `piece` bytes, to the front of a buffer.
fn fill(from: &[u8], piece: usize, buf: &mut [u8]) -> usize
    ensures count { result ≡ min (length from.now) (min piece (length buf.old)) }
    ensures bytes { take result buf.new ≡ take result from.now }
{
    let count = from.len().min(piece.min(buf.len()));
    buf[..count].copy_from_slice(&from[..count]);
    count
}
