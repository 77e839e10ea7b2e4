ghost use Rattle.std.specs.Prelude.{◌≡◌, ◌≢◌};
ghost use Rattle.bench_io.specs.WholeFiles.{shelf_view};
ghost use Rattle.capsule.specs.Call.{IsCall, IsFollowed};
ghost use Rattle.capsule.specs.Output.{compared_under, image_in_file, pair_of_files};
ghost use Rattle.capsule.specs.Words.{PairImages};
ghost use Rattle.capsule.specs.Written.{sink_view};

use crate::comparisons::compare;
use crate::runs::{IMAGE_LIMIT, load_bench};
use crate::statuses::Status;
use crate::whole_files::read_whole;
use bench_io::{Shelf, Sink};
use elf_image::{Image, read_image};
use std::alloc::Global;

/// Compares the runs of two images under the bench in a file.
fn pair_under<S: Shelf, K: Sink>(
    alloc: Global,
    one: &Image<'_>,
    other: &Image<'_>,
    bench: &str,
    shelf: &mut S,
    out: &mut K,
) -> Status
    ensures { IsFollowed (compared_under bench.now one.now other.now)
        (shelf_view (S.files shelf.old) (S.finds shelf.old) (S.faults shelf.old))
        (shelf_view (S.files shelf.new) (S.finds shelf.new) (S.faults shelf.new))
        (sink_view (K.written out.old) (K.faults out.old))
        (sink_view (K.written out.new) (K.faults out.new)) result }
{
    match load_bench(alloc, shelf, bench) {
        Ok(bench) => compare(alloc, one, other, &bench, out),
        Err(status) => status,
    }
}

/// Compares the run of an image with that of the image in a file.
fn pair_with<S: Shelf, K: Sink>(
    alloc: Global,
    one: &Image<'_>,
    other: &str,
    bench: &str,
    shelf: &mut S,
    out: &mut K,
) -> Status
    ensures { IsFollowed (image_in_file other.now (λ second. compared_under bench.now one.now second))
        (shelf_view (S.files shelf.old) (S.finds shelf.old) (S.faults shelf.old))
        (shelf_view (S.files shelf.new) (S.finds shelf.new) (S.faults shelf.new))
        (sink_view (K.written out.old) (K.faults out.old))
        (sink_view (K.written out.new) (K.faults out.new)) result }
{
    let bytes = match read_whole(alloc, shelf, other, IMAGE_LIMIT) {
        Ok(bytes) => bytes,
        Err(status) => return status,
    };
    match read_image(bytes.as_slice()) {
        Ok(second) => pair_under(alloc, one, &second, bench, shelf, out),
        Err(refusal) => Status::Image(refusal),
    }
}

/// Compares the runs of the images in two files under the bench in a third.
fn pair_files<S: Shelf, K: Sink>(
    alloc: Global,
    one: &str,
    other: &str,
    bench: &str,
    shelf: &mut S,
    out: &mut K,
) -> Status
    ensures { IsFollowed (pair_of_files one.now other.now bench.now)
        (shelf_view (S.files shelf.old) (S.finds shelf.old) (S.faults shelf.old))
        (shelf_view (S.files shelf.new) (S.finds shelf.new) (S.faults shelf.new))
        (sink_view (K.written out.old) (K.faults out.old))
        (sink_view (K.written out.new) (K.faults out.new)) result }
{
    let bytes = match read_whole(alloc, shelf, one, IMAGE_LIMIT) {
        Ok(bytes) => bytes,
        Err(status) => return status,
    };
    match read_image(bytes.as_slice()) {
        Ok(first) => pair_with(alloc, &first, other, bench, shelf, out),
        Err(refusal) => Status::Image(refusal),
    }
}

/// `pair IMAGE IMAGE BENCH`: reads two images and a bench, runs both images under the bench as long as what leaves their
/// seals is the same, and writes the trace of these ticks, which is one trace, and how the images compare.
///
/// The images decide first, in their order, and then the bench: of each its finding, its reading and what it is. Both
/// images may have one name.
pub fn pair<S: Shelf, K: Sink>(
    alloc: Global,
    one: &str,
    other: &str,
    bench: &str,
    shelf: &mut S,
    out: &mut K,
) -> Status
    ensures usage { result ≢ Status.Usage }
    ensures call { IsCall (PairImages one.now other.now bench.now)
        (shelf_view (S.files shelf.old) (S.finds shelf.old) (S.faults shelf.old))
        (shelf_view (S.files shelf.new) (S.finds shelf.new) (S.faults shelf.new))
        (sink_view (K.written out.old) (K.faults out.old))
        (sink_view (K.written out.new) (K.faults out.new)) result }
{
    pair_files(alloc, one, other, bench, shelf, out)
}
