//! The words of a command line, as a host gives them.
ghost use Rattle.std.specs.Prelude.{◌≡◌, ◌==◌, IfOk, map, string_bytes};
ghost use Rattle.coop_c.specs.Calls.{typed};

use std::alloc::{AllocError, Global};

/// The words, which stand behind one another with a zero byte between two.
pub(crate) fn words_in(alloc: Global, text: &str) -> Result<Vec<String>, AllocError>
    ensures { IfOk result (λ v. map string_bytes v.items ≡ typed text.now) }
{
    let pieces = pieces_of(alloc, text)?;
    let mut words = Vec::new(alloc);
    for word in &pieces {
        words.push(String::from_str(alloc, word)?)?;
    }
    Ok(words)
}

// The pieces between the zero bytes.
fn pieces_of(alloc: Global, text: &str) -> Result<Vec<&str>, AllocError>
    ensures { IfOk result (λ v. map (λ x. x.now) v.items ≡ typed text.now) }
{
    text.split('\0').collect(alloc)
}
