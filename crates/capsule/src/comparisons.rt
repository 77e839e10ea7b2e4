ghost use Rattle.std.specs.Prelude.{◌≡◌, ◌≢◌, ◌↔◌, ◌<◌, IfErr, IfOk, IfSome, IsTrue, None, ℕ, false, slice_index, true};
ghost use Rattle.bench_io.specs.Faults.{Rose};
ghost use Rattle.bench_io.specs.Sinks.{AppendsFront, appended};
ghost use Rattle.chip_words.specs.Map.{is_fram as is_of_fram};
ghost use Rattle.chip_words.specs.Seals.{is_in};
ghost use Rattle.chip_core.specs.FirstState.{first_state};
ghost use Rattle.stage_laws.specs.TwoRuns.{first_of, ImagesAgree};
ghost use Rattle.stage_laws.specs.Verdicts.{ImagesDiffer, IsVerdict, RunsCompare};
ghost use Rattle.trace_print.specs.declared.verdicts.Verdict.{Verdict as TheVerdict};
ghost use Rattle.trace_print.specs.Verdicts.{IsTellable};
ghost use Rattle.capsule.specs.Pairs.{lines_before, pair_text};
ghost use Rattle.capsule.specs.Written.{IsCompared, ending_of, sink_view};

use crate::statuses::Status;
use crate::trace::{put_line, put_lines};
use bench_io::{PutFailed, Sink, put_all};
use boot_code::image_seal;
use chip_core::{Chip, Items, Lines};
use chip_words::Seal;
use elf_image::Image;
use ip_encap::holds;
use memory_map::is_fram;
use release_log::same_items;
use std::alloc::Global;
use stimulus::Bench;
use trace_print::{TraceItem, Verdict, verdict_line};

/// The address behind FRAM.
const FRAM_END: u32 = 0x14000;

/// The least address of FRAM outside a seal at which two chips hold different bytes.
fn first_outside(seal: Seal, a: &Chip, b: &Chip) -> Option<u32>
    ensures differ { IfSome result (λ at. (is_of_fram at ≡ true) × (is_in seal at ≡ false)
        × (slice_index (a.now).bus.memory at ≢ slice_index (b.now).bus.memory at)) }
    ensures least { IfSome result (λ at. (lower : ℕ) → lower < at →
        is_of_fram lower ≡ true → is_in seal lower ≡ false →
        slice_index (a.now).bus.memory lower ≡ slice_index (b.now).bus.memory lower) }
    ensures none { result ≡ None → (at : ℕ) → is_of_fram at ≡ true → is_in seal at ≡ false →
        slice_index (a.now).bus.memory at ≡ slice_index (b.now).bus.memory at }
{
    for at in 0..FRAM_END {
        if is_fram(at) && !holds(seal, at) && a.byte(at) != b.byte(at) {
            return Some(at);
        }
    }
    None
}

/// Whether two seals are the same.
fn are_same(seal: Seal, other: Seal) -> bool
    ensures { IsTrue result ↔ (seal ≡ other) }
{
    seal == other
}

/// How two images differ, by the chips that they give before the first tick: first in what their first boots seal, and
/// else in FRAM outside the seal.
fn compare_images(
    one: &Image<'_>,
    other: &Image<'_>,
    bench: &Bench,
    a: &Chip,
    b: &Chip,
) -> Option<Verdict>
    requires first_a { a.now ≡ first_of bench.now one.now }
    requires first_b { b.now ≡ first_of bench.now other.now }
    ensures differ { IfSome result (λ verdict. ImagesDiffer one.now other.now verdict) }
    ensures agree { result ≡ None → ImagesAgree one.now other.now }
    ensures tellable { IfSome result IsTellable }
{
    let seal = image_seal(one);
    if !are_same(seal, image_seal(other)) {
        return Some(Verdict::Seal);
    }
    match first_outside(seal, a, b) {
        Some(at) => Some(Verdict::Outside(at)),
        None => None,
    }
}

/// Runs two chips side by side under a bench for as long as the items of both agree, and writes the lines of each tick
/// once its items were compared.
fn run_both<K: Sink>(
    a: &mut Chip,
    b: &mut Chip,
    bench: &Bench,
    out: &mut K,
) -> Result<Verdict, PutFailed>
    requires first_a { (a.old).tick ≡ 0 }
    requires first_b { (b.old).tick ≡ 0 }
    ensures due { IfOk result (λ verdict. RunsCompare bench.now a.old b.old verdict) }
    ensures lines { IfOk result (λ verdict. K.written out.new
        ≡ appended (K.written out.old) (lines_before verdict bench.now a.old)) }
    ensures uncounted { IfOk result (λ verdict. K.faults out.new ≡ K.faults out.old) }
    ensures fault { IfErr result (λ e. Rose (K.faults out.old) (K.faults out.new)) }
    ensures front { IfErr result (λ e. (verdict : TheVerdict) → RunsCompare bench.now a.old b.old verdict →
        AppendsFront (K.written out.old) (K.written out.new) (lines_before verdict bench.now a.old)) }
{
    let (mut lines, mut other_lines) = (Lines::new(), Lines::new());
    let (mut items, mut other_items) = (Items::new(), Items::new());
    let end = bench.end();
    for n in 0..end {
        a.tick(bench, &mut lines, &mut items);
        b.tick(bench, &mut other_lines, &mut other_items);
        if !same_items(&items, a, &other_items, b) {
            return Ok(Verdict::Release(n));
        }
        match put_lines(n, lines.as_slice(), out) {
            Ok(()) => {}
            Err(e) => return Err(e),
        }
    }
    match put_line(end, &TraceItem::End, out) {
        Ok(()) => Ok(Verdict::Same),
        Err(e) => Err(e),
    }
}

/// Compares two images and their runs under a bench, and writes the lines of both and the verdict.
fn put_comparison<K: Sink>(
    one: &Image<'_>,
    other: &Image<'_>,
    bench: &Bench,
    a: &mut Chip,
    b: &mut Chip,
    out: &mut K,
) -> Result<Verdict, PutFailed>
    requires first_a { a.old ≡ first_of bench.now one.now }
    requires first_b { b.old ≡ first_of bench.now other.now }
    ensures due { IfOk result (λ verdict. IsVerdict bench.now one.now other.now verdict) }
    ensures whole { IfOk result (λ verdict. K.written out.new
        ≡ appended (K.written out.old) (pair_text verdict bench.now one.now)) }
    ensures uncounted { IfOk result (λ verdict. K.faults out.new ≡ K.faults out.old) }
    ensures fault { IfErr result (λ e. Rose (K.faults out.old) (K.faults out.new)) }
    ensures front { IfErr result (λ e.
        (verdict : TheVerdict) → IsVerdict bench.now one.now other.now verdict →
        AppendsFront (K.written out.old) (K.written out.new) (pair_text verdict bench.now one.now)) }
{
    let verdict = match compare_images(one, other, bench, a, b) {
        Some(verdict) => verdict,
        None => match run_both(a, b, bench, out) {
            Ok(verdict) => verdict,
            Err(e) => return Err(e),
        },
    };
    match put_all(out, verdict_line(verdict).as_slice()) {
        Ok(()) => Ok(verdict),
        Err(e) => Err(e),
    }
}

/// The status that a verdict gives.
fn ending(verdict: Verdict) -> Status
    ensures { result ≡ ending_of verdict }
{
    match verdict {
        Verdict::Same => Status::Done,
        Verdict::Seal | Verdict::Outside(_) | Verdict::Release(_) => Status::Differ,
    }
}

/// Runs two images under one bench, and writes how they compare. All memory is taken before the first byte is written.
pub fn compare<K: Sink>(
    alloc: Global,
    one: &Image<'_>,
    other: &Image<'_>,
    bench: &Bench,
    out: &mut K,
) -> Status
    ensures { IsCompared bench.now one.now other.now
        (sink_view (K.written out.old) (K.faults out.old))
        (sink_view (K.written out.new) (K.faults out.new)) result }
{
    let mut a = match Chip::build(alloc, one, bench) {
        Ok(chip) => chip,
        Err(_) => return Status::NoMemory,
    };
    let mut b = match Chip::build(alloc, other, bench) {
        Ok(chip) => chip,
        Err(_) => return Status::NoMemory,
    };
    match put_comparison(one, other, bench, &mut a, &mut b, out) {
        Ok(verdict) => ending(verdict),
        Err(_) => Status::WriteFault,
    }
}
