//! What the machine's answers mean, as functions of these answers.
//!
//! `OpenFiles` and `WriterSink` make a system call, and what they say of it is decided here.
ghost use Rattle.std.specs.Prelude.{◌≡◌, ◌≤◌};
ghost use Rattle.bench_io.specs.Edge.{got_of, faults_after_read, took_of, faults_after_write, found_of, faults_after_find};
ghost use Rattle.bench_io.specs.Faults.{raised};

use crate::shelves::{Found, Got};
use crate::sinks::Took;
use std::io;
use std::io::ErrorKind;

/// Counts one more fault. The count stays at the greatest `u64`.
pub fn count_fault(faults: &mut u64)
    ensures counted { faults.new ≡ raised faults.old }
    ensures later { faults.old ≤ faults.new }
{
    *faults = faults.saturating_add(1);
}

/// What a read answered. One that failed counts as a fault.
pub fn answer_to_read(read: io::Result<usize>, faults: &mut u64) -> Got
    ensures got { result ≡ got_of read }
    ensures counted { faults.new ≡ faults_after_read result faults.old }
    ensures later { faults.old ≤ faults.new }
{
    match read {
        Ok(n) => Got::Count(n),
        Err(_) => {
            count_fault(faults);
            Got::Failed
        }
    }
}

/// What a write of a piece of `size` bytes answered.
///
/// One that failed counts as a fault, and so does one that took none of a piece that has bytes.
pub fn answer_to_write(written: io::Result<usize>, size: usize, faults: &mut u64) -> Took
    ensures took { result ≡ took_of written }
    ensures counted { faults.new ≡ faults_after_write size result faults.old }
    ensures later { faults.old ≤ faults.new }
{
    match written {
        Ok(n) => {
            if n == 0 && size > 0 {
                count_fault(faults);
            }
            Took::Count(n)
        }
        Err(_) => {
            count_fault(faults);
            Took::Failed
        }
    }
}

/// What an error of opening a file means.
///
/// A file in the place of a folder and a right that lacks are faults.
pub fn answer_to_error(kind: ErrorKind, faults: &mut u64) -> Found
    ensures found { result ≡ found_of kind }
    ensures counted { faults.new ≡ faults_after_find result faults.old }
    ensures later { faults.old ≤ faults.new }
{
    match kind {
        ErrorKind::NotFound => Found::Absent,
        ErrorKind::OutOfMemory => Found::NoMemory,
        _ => {
            count_fault(faults);
            Found::Failed
        }
    }
}
