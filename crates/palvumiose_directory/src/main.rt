//! The program: entities and decisions of a file, by standard input and output.
#![tactic(auto)]

use byte_streams::{StdSink, StdSource};
use directory_service::{Status, run};
use sqlite::Unknown;
use std::fs::File;
use std::process::ExitCode;
use std::{env, io};

// The words after the program's name.
fn words(rt: &HostRuntime) -> io::Result<Vec<String>> {
    let mut words = Vec::new(rt.alloc());
    for word in env::args(rt)?.skip(1) {
        words.push(word)?;
    }
    Ok(words)
}

// The document that a third word names, where `decide` asks for it and it can be opened.
fn document(rt: &HostRuntime, words: &Vec<String>) -> Option<StdSource<File>> {
    match words.as_slice() {
        [command, _, path] => {
            if command.as_str() != "decide" {
                return None;
            }
            match File::open(rt, path.as_str()) {
                Ok(file) => Some(StdSource::new(file)),
                Err(_) => None,
            }
        }
        _ => None,
    }
}

fn main(rt: HostRuntime) -> ExitCode {
    let source = StdSource::new(rt.reader());
    let mut sink = StdSink::new(io::writer(&rt));
    let status = match words(&rt) {
        Ok(words) => {
            let given = document(&rt, &words);
            run(&rt, &words, Unknown, source, given, &mut sink)
        }
        Err(e) => {
            if e.kind() == io::ErrorKind::OutOfMemory {
                Status::OutOfMemory
            } else {
                // A word that is no text: it is in no command, as no words are.
                let none: Option<StdSource<File>> = None;
                run(&rt, &Vec::new(rt.alloc()), Unknown, source, none, &mut sink)
            }
        }
    };
    ExitCode::from(status.code())
}
