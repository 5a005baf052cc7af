//! Documents: what they say, and why they are refused. Each row of a table is a line of text, with what stands around
//! it said once.
mod certificates;
mod commands;
pub(crate) mod contents;
mod limits;
mod matrix_games;
mod shapes;
mod two_refusals;
mod versions;
mod votes;

use game_text::{Command, Refusal, TextFault, read_document};
use std::alloc::Global;
use std::process::Abort;
use std::test::Fail;

/// A document of its game alone.
pub(crate) const GAME: (&str, &str) = (r#"{"game":"#, "}");

/// A game with five shares.
pub(crate) const GAME_OF_FIVE: (&str, &str) = (r#"{"game":"#, r#","shares":[1,2,3,4,5]}"#);

/// Each line of each row, between this front and this end, is a document for the command, or is refused for the reason
/// of its row.
pub(crate) fn expect_each(
    rt: &impl Abort,
    alloc: Global,
    command: Command,
    around: (&str, &str),
    rows: &[(Option<Refusal>, &str)],
) -> Result<(), Fail> {
    let (front, end) = around;
    for &(refusal, lines) in rows {
        for line in lines.trim().lines() {
            let text = format!(in alloc; "{front}{}{end}", line.trim())?;
            let fault = read_document(alloc, text.as_bytes(), command).err();
            assert_eq!(rt;
                fault,
                refusal.map(TextFault::Refused),
                "{command:?} on {text}"
            );
        }
    }
    Ok(())
}
