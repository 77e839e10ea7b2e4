ghost use Rattle.std.specs.Prelude.{◌≡◌, ◌↔◌, map, string_bytes};
ghost use Rattle.bench_io.specs.WholeFiles.{shelf_view};
ghost use Rattle.capsule.specs.Call.{IsCall};
ghost use Rattle.capsule.specs.Words.{NoCommand, request_of, request_of_command};
ghost use Rattle.capsule.specs.Written.{sink_view};

use crate::pairs::pair;
use crate::runs::{release, run};
use crate::statuses::Status;
use bench_io::{Shelf, Sink};
use std::alloc::Global;

/// What the words ask for.
#[derive(Clone, Copy, Debug, PartialEq, Eq)]
enum Command<'a> {
    /// `run IMAGE`, or `run IMAGE BENCH`.
    Run(&'a str, Option<&'a str>),
    /// `release IMAGE BENCH`.
    Release(&'a str, &'a str),
    /// `pair IMAGE IMAGE BENCH`.
    Pair(&'a str, &'a str, &'a str),
}

/// Reads the words.
fn read_command(words: &[String]) -> Option<Command<'_>>
    ensures { request_of_command result ≡ request_of (map string_bytes words.now) }
{
    match words {
        [command, image] => {
            if command.as_str() == "run" {
                Some(Command::Run(image.as_str(), None))
            } else {
                None
            }
        }
        [command, image, bench] => {
            if command.as_str() == "run" {
                Some(Command::Run(image.as_str(), Some(bench.as_str())))
            } else if command.as_str() == "release" {
                Some(Command::Release(image.as_str(), bench.as_str()))
            } else {
                None
            }
        }
        [command, one, other, bench] => {
            if command.as_str() == "pair" {
                Some(Command::Pair(one.as_str(), other.as_str(), bench.as_str()))
            } else {
                None
            }
        }
        _ => None,
    }
}

/// The program: does what the words ask for, with the files of a shelf, and writes its text to a sink.
///
/// Usage comes for the words. Then each image decides in turn, and then the bench: Absent and ReadFault at its
/// find, ReadFault and TooLong at its reads, and Image or Bench for what it is. NoMemory may come before
/// the first byte is written, and WriteFault once writing has begun. Differ comes of a comparison alone.
pub fn capsule<S: Shelf, K: Sink>(
    alloc: Global,
    words: &[String],
    shelf: &mut S,
    out: &mut K,
) -> Status
    ensures usage { (result ≡ Status.Usage)
        ↔ (request_of (map string_bytes words.now) ≡ NoCommand) }
    ensures call { IsCall (request_of (map string_bytes words.now))
        (shelf_view (S.files shelf.old) (S.finds shelf.old) (S.faults shelf.old))
        (shelf_view (S.files shelf.new) (S.finds shelf.new) (S.faults shelf.new))
        (sink_view (K.written out.old) (K.faults out.old))
        (sink_view (K.written out.new) (K.faults out.new)) result }
{
    match read_command(words) {
        Some(Command::Run(image, bench)) => run(alloc, image, bench, shelf, out),
        Some(Command::Release(image, bench)) => release(alloc, image, bench, shelf, out),
        Some(Command::Pair(one, other, bench)) => pair(alloc, one, other, bench, shelf, out),
        None => Status::Usage,
    }
}
