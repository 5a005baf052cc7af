//! What `coop` prints for words and a document, kept in memory.
#![tactic(auto)]

mod printed;

ghost use Rattle.std.specs.Prelude.{ℕ, List, [], Option, Some, map, string_bytes};
ghost use Rattle.coop.specs.Outcome.{Ends};

use coop::{Status, run};
use ports::MemorySource;
use printed::Printed;
use std::alloc::Global;

/// Returns the status of `coop` on these words and this document, and what it prints.
pub fn answer(alloc: Global, words: &[String], document: Vec<u8>) -> (Status, Vec<u8>)
    ensures { (left : Option (List ℕ)) × Ends (map string_bytes words.now) (Some document.items) left (Some [])
        (Some result.1.items) result.0 }
{
    let mut source = MemorySource::new(document);
    let mut sink = Printed::new(alloc);
    let status = run(alloc, words, &mut source, &mut sink);
    (status, sink.into_line())
}
