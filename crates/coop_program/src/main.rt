//! Solves cooperative games: a command from the words, a document from standard input, a line to standard output.
#![tactic(auto)]

mod adapters;
mod behind_name;
mod stack;

use adapters::{StdSink, StdSource};
use behind_name::BehindName;
use coop::{Status, run};
use stack::use_stack;
use std::io::ErrorKind;
use std::process::ExitCode;
use std::{env, io};

// The words of the command line behind the program's name, which may be a path that isn't UTF-8.
fn arguments(rt: &HostRuntime) -> io::Result<Vec<String>> {
    let behind_name = (BehindName { rt }, rt.alloc());
    let arguments = env::args(&behind_name)?.collect(rt.alloc())?;
    Ok(arguments)
}

fn main(rt: HostRuntime) -> ExitCode {
    use_stack(&rt);
    let words = match arguments(&rt) {
        Ok(words) => words,
        Err(e) if e.kind() == ErrorKind::OutOfMemory => {
            return ExitCode::from(Status::OutOfMemory.number());
        }
        // One of them isn't UTF-8.
        Err(_) => Vec::new(rt.alloc()),
    };
    let mut source = StdSource::new(rt.stdin());
    let mut sink = StdSink::new(rt.stdout());
    let status = run(rt.alloc(), &words, &mut source, &mut sink);
    ExitCode::from(status.number())
}
