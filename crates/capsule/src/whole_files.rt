ghost use Rattle.std.specs.Prelude.{◌^◌, ◌<◌, IfOk, IfErr};
ghost use Rattle.bench_io.specs.WholeFiles.{IsRead, shelf_view};
ghost use Rattle.capsule.specs.Call.{IsNotRead};

use crate::statuses::Status;
use bench_io::{FileRefused, Shelf, read_file};
use std::alloc::Global;

/// Reads a whole file of at most `limit` bytes. A file that isn't read ends the call with its status.
pub fn read_whole<S: Shelf>(
    alloc: Global,
    shelf: &mut S,
    name: &str,
    limit: usize,
) -> Result<Vec<u8>, Status>
    requires { limit < 2 ^ 32 }
    ensures read { IfOk result (λ bytes. IsRead
        (shelf_view (S.files shelf.old) (S.finds shelf.old) (S.faults shelf.old))
        (shelf_view (S.files shelf.new) (S.finds shelf.new) (S.faults shelf.new))
        name.now limit bytes.items) }
    ensures ended { IfErr result (λ status. IsNotRead
        (shelf_view (S.files shelf.old) (S.finds shelf.old) (S.faults shelf.old))
        (shelf_view (S.files shelf.new) (S.finds shelf.new) (S.faults shelf.new))
        name.now limit status) }
{
    match read_file(alloc, shelf, name, limit) {
        Ok(bytes) => Ok(bytes),
        Err(FileRefused::Absent) => Err(Status::Absent),
        Err(FileRefused::ReadFault) => Err(Status::ReadFault),
        Err(FileRefused::TooLong) => Err(Status::TooLong),
        Err(FileRefused::NoMemory) => Err(Status::NoMemory),
    }
}
