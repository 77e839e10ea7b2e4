//! The program: reads an image, runs it on the chip and prints its trace or its release list; or reads two images, and
//! prints how their runs compare.
#![tactic(auto)]

use bench_io::{FileShelf, StdSink};
use std::alloc::Global;
use std::io::ErrorKind;
use std::process::ExitCode;
use std::{env, io};

mod commands;
mod comparisons;
mod pairs;
mod releases;
mod runs;
mod statuses;
#[cfg(test)]
mod tests;
mod trace;
mod whole_files;

pub use commands::capsule;
pub use pairs::pair;
pub use runs::{release, run};
pub use statuses::Status;

/// The words after the program's name.
fn read_words(rt: &HostRuntime, alloc: Global) -> io::Result<Vec<String>> {
    let mut words = Vec::new(alloc);
    for word in env::args(rt)?.skip(1) {
        words.push(word)?;
    }
    Ok(words)
}

/// Calls `capsule` over the machine's files and standard output.
fn call(rt: &HostRuntime) -> Status {
    let alloc = rt.alloc();
    let words = match read_words(rt, alloc) {
        Ok(words) => words,
        // A word that isn't UTF-8 is none that the program knows.
        Err(error) if error.kind() == ErrorKind::InvalidData => return Status::Usage,
        Err(_) => return Status::NoMemory,
    };
    let Ok(mut shelf) = FileShelf::build(rt, alloc) else {
        return Status::NoMemory;
    };
    let Ok(mut out) = StdSink::build(rt, alloc) else {
        return Status::NoMemory;
    };
    capsule(alloc, words.as_slice(), &mut shelf, &mut out)
}

fn main(rt: HostRuntime) -> ExitCode {
    let status = call(&rt);
    // Done and Differ are told by what was written.
    if status != Status::Done && status != Status::Differ {
        // Where standard error is gone, the exit number alone tells.
        let _ = eprintln!(rt; "capsule: {status}");
    }
    ExitCode::from(status.exit_number())
}
