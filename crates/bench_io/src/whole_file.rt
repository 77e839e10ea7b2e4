ghost use Rattle.std.specs.Prelude.{◌≡◌, ◌+◌, ◌^◌, ◌<◌, ◌≤◌, [], length, take, IfOk, IfErr, IsTrue, IfSome};
ghost use Rattle.bench_io.specs.Faults.{Rose};
ghost use Rattle.bench_io.specs.WholeFiles.{IsRead, IsRefused, shelf_view};
ghost use Rattle.bench_io.specs.Shelves.{is_given, moved, rest_of, IfCount, IfNoBytes};

use crate::shelves::{Found, Got, Shelf};
use std::alloc::Global;
use std::error::Error;
use std::fmt;

/// How many bytes a read asks for at most.
const PIECE: usize = 4096;

/// Why a file wasn't read whole.
#[derive(Clone, Copy, Debug, PartialEq, Eq)]
pub enum FileRefused {
    /// The shelf has no file of this name.
    Absent,
    /// The shelf failed to find the file, or to read it.
    ReadFault,
    /// The file is longer than the limit.
    TooLong,
    /// There was no memory for the find or for the bytes.
    NoMemory,
}

impl fmt::Display for FileRefused {
    fn fmt<W: fmt::Write>(&self, f: &mut fmt::Formatter<W>) -> fmt::Result {
        f.write_str(match self {
            FileRefused::Absent => "there is no such file",
            FileRefused::ReadFault => "the file can't be read",
            FileRefused::TooLong => "the file is too long",
            FileRefused::NoMemory => "no memory",
        })
    }
}

impl Error for FileRefused {}

/// Reads a whole file of at most `limit` bytes. No more than one byte past the limit is read, and nothing
/// more is asked of the shelf behind a call that failed.
pub fn read_file<S: Shelf>(
    alloc: Global,
    shelf: &mut S,
    name: &str,
    limit: usize,
) -> Result<Vec<u8>, FileRefused>
    requires { limit < 2 ^ 32 }
    ensures later { S.faults shelf.old ≤ S.faults shelf.new }
    ensures read { IfOk result (λ bytes. IsRead
        (shelf_view (S.files shelf.old) (S.finds shelf.old) (S.faults shelf.old))
        (shelf_view (S.files shelf.new) (S.finds shelf.new) (S.faults shelf.new))
        name.now limit bytes.items) }
    ensures ended { IfErr result (λ refused. IsRefused
        (shelf_view (S.files shelf.old) (S.finds shelf.old) (S.faults shelf.old))
        (shelf_view (S.files shelf.new) (S.finds shelf.new) (S.faults shelf.new))
        name.now limit refused) }
{
    let id = match shelf.find(name) {
        Found::Here(id) => id,
        Found::Absent => return Err(FileRefused::Absent),
        Found::Failed => return Err(FileRefused::ReadFault),
        Found::NoMemory => return Err(FileRefused::NoMemory),
    };
    let mut bytes = Vec::new(alloc);
    let mut piece = [0u8; PIECE];
    'pieces: loop {
        let n = match read_piece(shelf, id, &mut piece, limit + 1 - bytes.len()) {
            Got::Failed => return Err(FileRefused::ReadFault),
            Got::Count(n) => n,
        };
        if n == 0 {
            return Ok(bytes);
        }
        // Before the bytes grow, so that want of memory hides no file that is too long.
        if n > limit - bytes.len() {
            return Err(FileRefused::TooLong);
        }
        match bytes.extend_from_slice(&piece[..n]) {
            Ok(()) => {}
            Err(_) => return Err(FileRefused::NoMemory),
        }
    }
}

/// Reads at most `most` bytes into the front of a piece.
fn read_piece<S: Shelf>(shelf: &mut S, id: u32, piece: &mut [u8; PIECE], most: usize) -> Got
    requires given { IsTrue (is_given id (S.finds shelf.old)) }
    requires some { 0 < most }
    ensures files { S.files shelf.new ≡ S.files shelf.old }
    ensures later { S.faults shelf.old ≤ S.faults shelf.new }
    ensures len { length piece.new ≡ PIECE }

    ensures within { IfCount result (λ n. (n ≤ most) × (n ≤ PIECE)) }
    ensures moved { IfCount result (λ n. S.finds shelf.new ≡ moved id n (S.finds shelf.old)) }
    ensures told { IfCount result (λ n.
        IfSome (rest_of (S.files shelf.old) (S.finds shelf.old) id)
        (λ rest. take n piece.new ≡ take n rest)) }
    ensures end { IfCount result (λ n. n ≡ 0 →
        IfSome (rest_of (S.files shelf.old) (S.finds shelf.old) id) (λ rest. rest ≡ [])) }

    ensures failed { IfNoBytes result (Rose (S.faults shelf.old) (S.faults shelf.new)) }
    ensures unmoved { IfNoBytes result (S.finds shelf.new ≡ S.finds shelf.old) }
    ensures uncounted { IfCount result (λ n. S.faults shelf.new ≡ S.faults shelf.old) }
{
    if most < PIECE {
        shelf.read(id, &mut piece[..most])
    } else {
        shelf.read(id, piece)
    }
}
