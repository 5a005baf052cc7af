//! Runs over sources and sinks in memory.
//!
//! A table has a row for each run: the command and its document, `=>`, and what is said, the name of the status and the
//! line. A row goes on in each line that begins with two blanks. A line that begins with `#` says what is below it.
mod certificates;
mod convex_games;
mod cores;
mod failing_calls;
mod fractional_worths;
mod generated_games;
mod greatest_games;
mod hostile_documents;
mod markets;
mod networks_and_markets;
mod nucleolus;
mod other_words;
mod per_head;
mod prekernels;
mod proposals;
mod refusals;
mod shapley_shares;
mod statuses;
mod tables;
mod votes;

use coop::run;
use ports::{FailingSource, MemorySink, MemorySource, Source};
use std::alloc::Global;
use std::process::Abort;
use std::test::Fail;

// The commands that print a certificate.
const FAMILIES: &[&str] = &["nucleolus", "prenucleolus"];

// More bytes than a line of these tests has.
const ROOM: usize = 1_000_000;

// What a run on these words and this source says: the name of its status, a blank, and the line, which has to be whole.
fn said<S: Source>(alloc: Global, words: &[&str], source: &mut S) -> Result<String, Fail> {
    let mut list = Vec::new(alloc);
    for word in words {
        list.push(String::from_str(alloc, *word)?)?;
    }
    let mut sink = MemorySink::new(alloc, ROOM).ok().ok_or("memory")?;
    let status = run(alloc, &list, source, &mut sink);
    let text = String::from_utf8(sink.taken().to_vec(alloc)?)
        .ok()
        .ok_or("no text")?;
    let line = text.strip_suffix("\n").ok_or("no whole line")?;
    Ok(format!(in alloc; "{status:?} {line}")?)
}

// What a run of this command on this input says.
fn said_on(alloc: Global, command: &str, input: &[u8]) -> Result<String, Fail> {
    let mut source = MemorySource::new(input.to_vec(alloc)?);
    said(alloc, &[command], &mut source)
}

// What a run on these words says if no read succeeds.
fn said_unread(alloc: Global, words: &[&str]) -> Result<String, Fail> {
    let mut source = FailingSource::new(Vec::new(alloc), 1, [0].to_vec(alloc)?);
    said(alloc, words, &mut source)
}

// Each run of the table says what its row has.
fn expect_runs(rt: &impl Abort, alloc: Global, table: &str) -> Result<(), Fail> {
    let rows = table.replace(alloc, "\n  ", "")?;
    for row in rows.trim().split('\n') {
        if row.starts_with("#") {
            continue;
        }
        let (asked, wanted) = row.split_once("=> ").ok_or("no answer")?;
        let (command, input) = asked.split_once(" ").ok_or("no document")?;
        let found = said_on(alloc, command, input.as_bytes())?;
        assert_eq!(rt; found.as_str(), wanted, "{asked}");
    }
    Ok(())
}

// The line and its newline of this command on this input. To them `check` says yes.
fn checked(rt: &impl Abort, alloc: Global, command: &str, input: &[u8]) -> Result<String, Fail> {
    let found = said_on(alloc, command, input)?;
    let line = found.strip_prefix("Done ").ok_or("no shares")?;
    let printed = format!(in alloc; "{line}\n")?;
    let verdict = said_on(alloc, "check", printed.as_bytes())?;
    assert_eq!(rt; verdict.as_str(), r#"Done {"answer":"yes"}"#, "{command}");
    Ok(printed)
}

// Each of these commands, on each document of the table, prints the same line twice, and `check` says yes to it. The
// row has its front and its end, with `..` between.
fn expect_checked(
    rt: &impl Abort,
    alloc: Global,
    commands: &[&str],
    table: &str,
) -> Result<(), Fail> {
    let rows = table.replace(alloc, "\n  ", "")?;
    for row in rows.trim().split('\n') {
        let (input, wanted) = row.split_once("=> ").ok_or("no answer")?;
        let (front, end) = wanted.split_once("..").ok_or("no end")?;
        for command in commands {
            let line = checked(rt, alloc, *command, input.as_bytes())?;
            let again = checked(rt, alloc, *command, input.as_bytes())?;
            let is_so = line.starts_with(front) && line.trim_end().ends_with(end);
            assert!(rt; is_so && line == again, "{command} {row}");
        }
    }
    Ok(())
}
