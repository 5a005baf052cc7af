//! Reading the input whole, and writing a line whole.
ghost use Rattle.std.specs.Prelude.{◌≡◌, true, IfOk, OnOk, OnErr};
ghost use Rattle.std.specs.Prelude.{◌+◌, ◌^◌, ◌<◌, ◌≤◌, ℕ};
ghost use Rattle.std.specs.Prelude.{length, take, vec_len};
ghost use Rattle.std.specs.Io.KnownBytes.{Appends, Consumes, IsAtEnd};
ghost use Rattle.ports.specs.Causes.{HasCause};
ghost use Rattle.coop.specs.Stops.{IsFaultOf};

use crate::status::Stop;
use ports::{Failed, Sink, Source};
use std::alloc::Global;

// How many bytes are asked for at once, at most.
const PIECE: usize = 4096;

/// The bytes up to the end of the source, or one byte more than the limit if there are that many. The first read that
/// fails is the last one.
pub(crate) fn read_input<S: Source>(
    alloc: Global,
    source: &mut S,
    limit: usize,
) -> Result<Vec<u8>, Stop>
    requires { limit < 2 ^ 40 }
    ensures bytes { IfOk result (λ v. Consumes (S.left source.old) (S.left source.new) v.items) }
    ensures most { IfOk result (λ v. vec_len v ≤ limit + 1) }
    ensures end { IfOk result (λ v. vec_len v ≤ limit → IsAtEnd (S.left source.new)) }
    ensures cause { IsFaultOf (S.faults source.old) (S.faults source.new) (S.failed source.new) result }
{
    let mut input = Vec::new(alloc);
    let mut buf = [0u8; PIECE];
    'reading: while input.len() <= limit {
        let room = PIECE.min(limit + 1 - input.len());
        let Ok(count) = source.read(&mut buf[..room]) else {
            return Err(Stop::Fault);
        };
        if count == 0 {
            return Ok(input);
        }
        input.extend_from_slice(&buf[..count])?;
    }
    Ok(input)
}

/// Writes the whole line; if a write fails, it was the last one, and the sink has taken a proper front of the line.
pub(crate) fn write_line<K: Sink>(sink: &mut K, line: &[u8]) -> Result<(), Failed>
    ensures ok { OnOk result (Appends (K.taken sink.old) (K.taken sink.new) line.now) }
    ensures err { OnErr result
        ((n : ℕ) × (n < length line.now) × Appends (K.taken sink.old) (K.taken sink.new) (take n line.now)) }
    ensures cause { HasCause (K.faults sink.old) (K.faults sink.new) result }
    ensures last { OnErr result (K.failed sink.new ≡ true) }
    ensures same_sink { K.mark sink.new ≡ K.mark sink.old }
{
    let mut at = 0;
    'writing: while at < line.len() {
        at += sink.write(&line[at..])?;
    }
    Ok(())
}
