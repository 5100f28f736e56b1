//! The program: what an edit of policies changes, and which forbids fail open, from standard input to standard output.
#![tactic(auto)]

use byte_streams::{StdSink, StdSource};
use edit_service::{Status, run};
use std::process::ExitCode;
use std::{env, io};

// The words after the program's name.
fn words(rt: &HostRuntime) -> io::Result<Vec<String>> {
    let mut words = Vec::new(rt.alloc());
    for word in env::args(rt)?.skip(1) {
        words.push(word)?;
    }
    Ok(words)
}

fn main(rt: HostRuntime) -> ExitCode {
    let mut source = StdSource::new(rt.reader());
    let mut sink = StdSink::new(io::writer(&rt));
    let status = match words(&rt) {
        Ok(words) => run(rt.alloc(), &words, &mut source, &mut sink),
        Err(e) => {
            if e.kind() == io::ErrorKind::OutOfMemory {
                Status::OutOfMemory
            } else {
                // A word that is no text: it is in no command, as no words are.
                run(rt.alloc(), &Vec::new(rt.alloc()), &mut source, &mut sink)
            }
        }
    };
    ExitCode::from(status.code())
}
