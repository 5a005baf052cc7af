//! A sink that keeps what it takes.
use ports::{Failed, Sink};
use std::alloc::Global;

/// All that was written, with no limit but memory. A write fails if memory runs out.
#[derive(Drop)]
pub struct Printed {
    line: Vec<u8>,
    faults: u64,
    failed: bool,
}

impl Printed {
    ghost use Rattle.std.specs.Prelude.{◌≡◌, []};

    /// Makes a sink that has taken nothing.
    pub fn new(alloc: Global) -> Printed
        ensures { result.line.items ≡ [] }
    {
        Printed {
            line: Vec::new(alloc),
            faults: 0,
            failed: false,
        }
    }

    /// Returns what was taken.
    pub fn into_line(self) -> Vec<u8>
        ensures { result ≡ self.line }
    {
        let Printed { line, .. } = self;
        line
    }
}

impl Sink for Printed {
    ghost use Rattle.std.specs.Prelude.{Some};

    ghost taken = { λ s. Some s.line.items };

    ghost faults = { λ s. s.faults };

    ghost failed = { λ s. s.failed };

    fn write(&mut self, piece: &[u8]) -> Result<usize, Failed> {
        if self.line.extend_from_slice(piece).is_err() {
            self.faults = self.faults.saturating_add(1);
            self.failed = true;
            return Err(Failed);
        }
        self.failed = false;
        Ok(piece.len())
    }
}
