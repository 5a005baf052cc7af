//! A run over memory of the host.
ghost use Rattle.std.specs.Prelude.{◌≡◌, ◌≢◌, ◌⊎◌, ◌≤◌, length, map, string_bytes, take};
ghost use Rattle.std.specs.Str.{IsUtf8};
ghost use Rattle.coop.specs.GeneratorRuns.{AsksForGame};
ghost use Rattle.coop.specs.Words.{IsNoCommand};
ghost use Rattle.coop_c.specs.Calls.{Asked, EndsOver, IsServed};

use crate::slice_sink::SliceSink;
use crate::slice_source::SliceSource;
use crate::typed::words_in;
use coop::{Status, run};
use std::alloc::Global;

/// The status of a run on the words of a text and on a document. The line goes to the front of `line`, and to `count`
/// how many bytes stand there.
pub(crate) fn called(
    alloc: Global,
    text: &[u8],
    document: &[u8],
    line: &mut [u8],
    count: &mut usize,
) -> Status
    ensures ends { Asked text.now (λ w. EndsOver w document.now (take count.new line.new) result) }
    ensures fits { count.new ≤ length line.new }
    ensures full { result ≡ Status.WriteFault → count.new ≡ length line.new }
    ensures no_read_fault { result ≢ Status.ReadFault }
    ensures complete { Asked text.now (λ w. IsServed w document.now → (result ≡ Status.Done)
        ⊎ (result ≡ Status.Negative) ⊎ (result ≡ Status.WriteFault) ⊎ (result ≡ Status.OutOfMemory)) }
    ensures other_words { Asked text.now (λ w. IsNoCommand w → (result ≡ Status.Usage)
        ⊎ (result ≡ Status.WriteFault) ⊎ (result ≡ Status.OutOfMemory)) }
    ensures no_text { ¬ IsUtf8 text.now → (result ≡ Status.Usage) ⊎ (result ≡ Status.WriteFault) }
    ensures generated { Asked text.now (λ w. AsksForGame w → (result ≡ Status.Done)
        ⊎ (result ≡ Status.WriteFault) ⊎ (result ≡ Status.OutOfMemory)) }
{
    let Ok(text) = str::from_utf8(text) else {
        return run_over(alloc, &[], document, line, count);
    };
    let Ok(words) = words_in(alloc, text) else {
        *count = 0;
        return Status::OutOfMemory;
    };
    run_over(alloc, &words, document, line, count)
}

// The status of a run on words and a document, likewise.
fn run_over(
    alloc: Global,
    words: &[String],
    document: &[u8],
    line: &mut [u8],
    count: &mut usize,
) -> Status
    ensures ends { EndsOver (map string_bytes words.now) document.now (take count.new line.new) result }
    ensures fits { count.new ≤ length line.new }
    ensures full { result ≡ Status.WriteFault → count.new ≡ length line.new }
    ensures no_read_fault { result ≢ Status.ReadFault }
    ensures complete { IsServed (map string_bytes words.now) document.now → (result ≡ Status.Done)
        ⊎ (result ≡ Status.Negative) ⊎ (result ≡ Status.WriteFault) ⊎ (result ≡ Status.OutOfMemory) }
    ensures other_words { IsNoCommand (map string_bytes words.now) → (result ≡ Status.Usage)
        ⊎ (result ≡ Status.WriteFault) }
    ensures generated { AsksForGame (map string_bytes words.now) → (result ≡ Status.Done)
        ⊎ (result ≡ Status.WriteFault) ⊎ (result ≡ Status.OutOfMemory) }
{
    let mut source = SliceSource::new(document);
    let mut sink = SliceSink::new(line);
    let status = run(alloc, words, &mut source, &mut sink);
    *count = sink.count;
    status
}
