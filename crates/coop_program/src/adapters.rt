//! Standard input and output, which tell no content and count each failure.
use ports::{Failed, Sink, Source};
use std::io::{Read, Write};
use std::rt::{Stdin, Stdout};

/// Standard input.
#[derive(Drop)]
pub(crate) struct StdSource {
    input: Stdin,
    faults: u64,
    failed: bool,
}

impl StdSource {
    pub(crate) fn new(input: Stdin) -> StdSource {
        StdSource {
            input,
            faults: 0,
            failed: false,
        }
    }
}

impl Source for StdSource {
    ghost use Rattle.std.specs.Prelude.{None};

    ghost left = { λ _. None };

    ghost faults = { λ s. s.faults };

    ghost failed = { λ s. s.failed };

    fn read(&mut self, buf: &mut [u8]) -> Result<usize, Failed> {
        match self.input.read(buf) {
            Ok(count) => {
                self.failed = false;
                Ok(count)
            }
            Err(_) => {
                self.failed = true;
                self.faults = self.faults.saturating_add(1);
                Err(Failed)
            }
        }
    }
}

/// Standard output, flushed after each write. A write that takes nothing of a piece with bytes counts as a failure.
#[derive(Drop)]
pub(crate) struct StdSink {
    output: Stdout,
    faults: u64,
    failed: bool,
}

impl StdSink {
    pub(crate) fn new(output: Stdout) -> StdSink {
        StdSink {
            output,
            faults: 0,
            failed: false,
        }
    }
}

impl Sink for StdSink {
    ghost use Rattle.std.specs.Prelude.{None};

    ghost taken = { λ _. None };

    ghost faults = { λ s. s.faults };

    ghost failed = { λ s. s.failed };

    fn write(&mut self, piece: &[u8]) -> Result<usize, Failed> {
        match self.output.write(piece) {
            Ok(count) if (count > 0 || piece.is_empty()) && self.output.flush().is_ok() => {
                self.failed = false;
                Ok(count)
            }
            _ => {
                self.failed = true;
                self.faults = self.faults.saturating_add(1);
                Err(Failed)
            }
        }
    }
}
