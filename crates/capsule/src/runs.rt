ghost use Rattle.std.specs.Prelude.{◌≡◌, ◌≢◌, ◌≤◌, IfErr, IfOk, Ok, OnErr, OnOk};
ghost use Rattle.bench_io.specs.Faults.{Rose};
ghost use Rattle.bench_io.specs.Sinks.{AppendsFront, appended};
ghost use Rattle.std.specs.Option.{option_copied};
ghost use Rattle.stimulus.specs.Stimulus.{Stimulus, bench_of_file};
ghost use Rattle.bench_io.specs.WholeFiles.{shelf_view};
ghost use Rattle.capsule.specs.Call.{IsBenchRead, IsCall, IsFollowed, IsNoBench};
ghost use Rattle.capsule.specs.Output.{bench_in_file, image_judged, Plan, report_of, report_text, run_of_file};
ghost use Rattle.capsule.specs.Words.{ReleaseImage, RunImage};
ghost use Rattle.capsule.specs.Written.{IsWritten, sink_view, SinkView};

use crate::releases::write_releases;
use crate::statuses::Status;
use crate::trace::write_trace;
use crate::whole_files::read_whole;
use bench_io::{PutFailed, Shelf, Sink};
use chip_core::Chip;
use elf_image::{Image, read_image};
use std::alloc::Global;
use stimulus::{Bench, BenchError, read_bench};

/// How many bytes an image has at most.
pub const IMAGE_LIMIT: usize = 4_194_304;

/// How many bytes a bench has at most.
pub const BENCH_LIMIT: usize = 1_048_576;

/// How many ticks a run without a bench has.
pub const DEFAULT_END: u32 = 1000;

/// What a run writes.
#[derive(Clone, Copy, Debug, PartialEq, Eq)]
enum Report {
    /// What the pins, the debugger and the resets show.
    Trace,
    /// What leaves the seal.
    Releases,
}

/// Runs a chip under a bench up to the tick `end`, and writes what is asked for.
fn write_report<K: Sink>(
    report: Report,
    chip: &mut Chip,
    bench: &Bench,
    end: u32,
    out: &mut K,
) -> Result<(), PutFailed>
    requires first { (chip.old).tick ≡ 0 }
    requires last { end ≤ 10000000 }
    ensures whole { OnOk result (K.written out.new
        ≡ appended (K.written out.old) (report_text report end bench.now chip.old)) }
    ensures uncounted { OnOk result (K.faults out.new ≡ K.faults out.old) }
    ensures fault { OnErr result (Rose (K.faults out.old) (K.faults out.new)) }
    ensures front { OnErr result (AppendsFront
        (K.written out.old) (K.written out.new) (report_text report end bench.now chip.old)) }
{
    match report {
        Report::Trace => write_trace(chip, bench, end, out),
        Report::Releases => write_releases(chip, bench, end, out),
    }
}

/// Runs an image under a bench, and writes what is asked for.
#[tactic(auto, using(crate::proofs::Texts::report_of_first))]
fn run_chip<K: Sink>(
    alloc: Global,
    report: Report,
    image: &Image<'_>,
    bench: &Bench,
    out: &mut K,
) -> Status
    ensures { IsWritten
        (sink_view (K.written out.old) (K.faults out.old))
        (sink_view (K.written out.new) (K.faults out.new))
        (report_of report bench.now image.now) result }
{
    let mut chip = match Chip::build(alloc, image, bench) {
        Ok(chip) => chip,
        Err(_) => return Status::NoMemory,
    };
    match write_report(report, &mut chip, bench, bench.end(), out) {
        Ok(()) => Status::Done,
        Err(_) => Status::WriteFault,
    }
}

/// Reads a bench from the bytes of its file.
fn parse_bench(alloc: Global, bytes: &[u8]) -> Result<Bench, Status>
    ensures bench { IfOk result (λ bench. bench_of_file bytes.now ≡ Ok bench) }
    ensures refused { IfErr result (λ status. IsNoBench (bench_of_file bytes.now) status) }
{
    match read_bench(alloc, bytes) {
        Ok(bench) => Ok(bench),
        Err(BenchError::Refused(refusal)) => Err(Status::Bench(refusal)),
        Err(BenchError::NoMemory) => Err(Status::NoMemory),
    }
}

/// Reads the bench in a file. Where it is none, the call ends, whatever would come behind it.
pub fn load_bench<S: Shelf>(alloc: Global, shelf: &mut S, name: &str) -> Result<Bench, Status>
    ensures read { IfOk result (λ bench. IsBenchRead
        (shelf_view (S.files shelf.old) (S.finds shelf.old) (S.faults shelf.old))
        (shelf_view (S.files shelf.new) (S.finds shelf.new) (S.faults shelf.new))
        name.now bench) }
    ensures ended { IfErr result (λ status. (next : Stimulus → Plan) → (sink : SinkView) →
        IsFollowed (bench_in_file name.now next)
        (shelf_view (S.files shelf.old) (S.finds shelf.old) (S.faults shelf.old))
        (shelf_view (S.files shelf.new) (S.finds shelf.new) (S.faults shelf.new))
        sink sink status) }
{
    let bytes = match read_whole(alloc, shelf, name, BENCH_LIMIT) {
        Ok(bytes) => bytes,
        Err(status) => return Err(status),
    };
    match parse_bench(alloc, bytes.as_slice()) {
        Ok(bench) => Ok(bench),
        Err(status) => Err(status),
    }
}

/// Runs the image in a file's bytes under the bench that is named, or for 1,000 ticks without one.
fn run_image<S: Shelf, K: Sink>(
    alloc: Global,
    report: Report,
    bytes: &[u8],
    bench: Option<&str>,
    shelf: &mut S,
    out: &mut K,
) -> Status
    ensures { IsFollowed (image_judged (report_of report) bytes.now (option_copied bench.entry))
        (shelf_view (S.files shelf.old) (S.finds shelf.old) (S.faults shelf.old))
        (shelf_view (S.files shelf.new) (S.finds shelf.new) (S.faults shelf.new))
        (sink_view (K.written out.old) (K.faults out.old))
        (sink_view (K.written out.new) (K.faults out.new)) result }
{
    let image = match read_image(bytes) {
        Ok(image) => image,
        Err(refusal) => return Status::Image(refusal),
    };
    match bench {
        Some(name) => match load_bench(alloc, shelf, name) {
            Ok(bench) => run_chip(alloc, report, &image, &bench, out),
            Err(status) => status,
        },
        None => match Bench::plain(alloc, DEFAULT_END, 0, &[]) {
            Ok(bench) => run_chip(alloc, report, &image, &bench, out),
            Err(_) => Status::NoMemory,
        },
    }
}

/// Runs the image in a file under the bench that is named, or for 1,000 ticks without one.
fn run_file<S: Shelf, K: Sink>(
    alloc: Global,
    report: Report,
    image: &str,
    bench: Option<&str>,
    shelf: &mut S,
    out: &mut K,
) -> Status
    ensures usage { result ≢ Status.Usage }
    ensures course { IsFollowed
        (run_of_file (report_of report) image.now (option_copied bench.entry))
        (shelf_view (S.files shelf.old) (S.finds shelf.old) (S.faults shelf.old))
        (shelf_view (S.files shelf.new) (S.finds shelf.new) (S.faults shelf.new))
        (sink_view (K.written out.old) (K.faults out.old))
        (sink_view (K.written out.new) (K.faults out.new)) result }
{
    let bytes = match read_whole(alloc, shelf, image, IMAGE_LIMIT) {
        Ok(bytes) => bytes,
        Err(status) => return status,
    };
    run_image(alloc, report, bytes.as_slice(), bench, shelf, out)
}

/// `run IMAGE` and `run IMAGE BENCH`: reads an image and a bench, runs the image under the bench, or for
/// 1,000 ticks without one, and writes its trace.
///
/// The image decides first, and then the bench: of each its finding, its reading and what it is.
pub fn run<S: Shelf, K: Sink>(
    alloc: Global,
    image: &str,
    bench: Option<&str>,
    shelf: &mut S,
    out: &mut K,
) -> Status
    ensures usage { result ≢ Status.Usage }
    ensures call { IsCall (RunImage image.now (option_copied bench.entry))
        (shelf_view (S.files shelf.old) (S.finds shelf.old) (S.faults shelf.old))
        (shelf_view (S.files shelf.new) (S.finds shelf.new) (S.faults shelf.new))
        (sink_view (K.written out.old) (K.faults out.old))
        (sink_view (K.written out.new) (K.faults out.new)) result }
{
    run_file(alloc, Report::Trace, image, bench, shelf, out)
}

/// `release IMAGE BENCH`: reads an image and a bench, runs the image under the bench, and writes its release list: what
/// left the seal, tick by tick.
///
/// The image decides first, and then the bench: of each its finding, its reading and what it is.
pub fn release<S: Shelf, K: Sink>(
    alloc: Global,
    image: &str,
    bench: &str,
    shelf: &mut S,
    out: &mut K,
) -> Status
    ensures usage { result ≢ Status.Usage }
    ensures call { IsCall (ReleaseImage image.now bench.now)
        (shelf_view (S.files shelf.old) (S.finds shelf.old) (S.faults shelf.old))
        (shelf_view (S.files shelf.new) (S.finds shelf.new) (S.faults shelf.new))
        (sink_view (K.written out.old) (K.faults out.old))
        (sink_view (K.written out.new) (K.faults out.new)) result }
{
    run_file(alloc, Report::Releases, image, Some(bench), shelf, out)
}
