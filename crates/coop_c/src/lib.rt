//! Solves cooperative games for a host: the words and the document are in its memory, and the line goes there.
#![tactic(auto)]

mod calling;
mod slice_sink;
mod slice_source;
mod typed;

ghost use Rattle.std.specs.Prelude.{◌≡◌, ◌≢◌, ◌⊎◌, ◌≤◌, length, take};
ghost use Rattle.std.specs.Str.{IsUtf8};
ghost use Rattle.coop.specs.GeneratorRuns.{AsksForGame};
ghost use Rattle.coop.specs.Words.{IsNoCommand};
ghost use Rattle.coop_c.specs.Calls.{Asked, EndsAs, IsServed};

use calling::called;
use std::alloc::Global;

// Neither document nor line is copied: it reads the one and writes the other where they are. The words are one text,
// since a proved call takes no pointers to pointers. The kit rules out null pointers, even for an empty slice, so
// `c/coop.c` replaces them.
/// Runs `coop` on words and a document. The words are UTF-8, with a zero byte between two; if they aren't UTF-8,
/// there are none, as in the program.
///
/// The line goes to the front of `line`, and its number of bytes there to `count`. Returns the number that the program
/// ends with: 0 and 1 after the positive and the negative answer, 2 after a usage, 3 after a refusal. After 6 the room
/// is full, and the line is longer than it. After 7 memory ran out, and nothing is written.
#[unsafe(no_mangle)]
pub extern "C" fn coop_run(
    alloc: Global,
    words: &[u8],
    document: &[u8],
    line: &mut [u8],
    count: &mut usize,
) -> u32
    // After an answer its whole line stands there, and it is right for the words and the bytes of the document.
    ensures ends { Asked words.now (λ w. EndsAs w document.now (take count.new line.new) result) }
    // No byte is written behind the room. A line is cut off only if the room is full.
    ensures fits { count.new ≤ length line.new }
    ensures full { result ≡ 6 → count.new ≡ length line.new }
    ensures no_read_fault { result ≢ 5 }
    // A document that its command serves has its answer, unless the line has no room or memory isn't found.
    ensures complete { Asked words.now (λ w. IsServed w document.now → (result ≡ 0) ⊎ (result ≡ 1)
        ⊎ (result ≡ 6) ⊎ (result ≡ 7)) }
    ensures other_words { Asked words.now (λ w. IsNoCommand w → (result ≡ 2) ⊎ (result ≡ 6) ⊎ (result ≡ 7)) }
    // If they aren't UTF-8, no memory is taken.
    ensures no_text { ¬ IsUtf8 words.now → (result ≡ 2) ⊎ (result ≡ 6) }
    ensures generated { Asked words.now (λ w. AsksForGame w → (result ≡ 0) ⊎ (result ≡ 6) ⊎ (result ≡ 7)) }
{
    let status = called(alloc, words, document, line, count);
    u32::from(status.number())
}
