ghost use Rattle.std.specs.Prelude.{◌≡◌, ◌+◌, ◌-◌, ◌*◌, ◌/◌, ◌≤◌, ◌<◌, All, OnErr, OnOk, slice_index};
ghost use Rattle.bench_io.specs.Faults.{Rose};
ghost use Rattle.bench_io.specs.Sinks.{AppendsFront, appended};
ghost use Rattle.chip_words.specs.Seals.{BEHIND_MAIN_FRAM};
ghost use Rattle.chip_words.specs.Segments.{MAIN_FRAM};
ghost use Rattle.chip_core.specs.Items.{IsItem};
ghost use Rattle.ip_encap.specs.Opened.{LiesInMainFram};
ghost use Rattle.trace_print.specs.Releases.{open_line_of};
ghost use Rattle.capsule.specs.Releases.{releases_text, row_of as row_at, text_of_item, text_of_items, text_of_rows};

use crate::trace::put_line;
use bench_io::{PutFailed, Sink, put_all};
use chip_core::{Chip, Items, Lines};
use stimulus::Bench;
use trace_print::{Item, TraceItem, open_line, release_line};

/// How many bytes a line of opened bytes has.
const ROW: u32 = 16;

/// One byte of a row of main FRAM.
#[tactic(auto, using(release_log::proofs::MainFram::main_has_bytes))]
fn byte_of_row(chip: &Chip, at: u32, place: u32) -> u8
    requires low { MAIN_FRAM ≤ at }
    requires high { at + 16 ≤ BEHIND_MAIN_FRAM }
    requires place { place < 16 }
    ensures byte { result ≡ slice_index (chip.now).bus.memory (at + place) }
{
    chip.byte(at + place)
}

/// The bytes of a row of main FRAM.
#[tactic(auto, unfolding(crate::specs::Releases::row_of))]
fn row_of(chip: &Chip, at: u32) -> [u8; 16]
    requires low { MAIN_FRAM ≤ at }
    requires high { at + 16 ≤ BEHIND_MAIN_FRAM }
    ensures bytes { result ≡ row_at (chip.now).bus.memory at }
{
    [
        byte_of_row(chip, at, 0),
        byte_of_row(chip, at, 1),
        byte_of_row(chip, at, 2),
        byte_of_row(chip, at, 3),
        byte_of_row(chip, at, 4),
        byte_of_row(chip, at, 5),
        byte_of_row(chip, at, 6),
        byte_of_row(chip, at, 7),
        byte_of_row(chip, at, 8),
        byte_of_row(chip, at, 9),
        byte_of_row(chip, at, 10),
        byte_of_row(chip, at, 11),
        byte_of_row(chip, at, 12),
        byte_of_row(chip, at, 13),
        byte_of_row(chip, at, 14),
        byte_of_row(chip, at, 15),
    ]
}

/// Writes the line of one row.
fn put_row<K: Sink>(chip: &Chip, tick: u32, at: u32, out: &mut K) -> Result<(), PutFailed>
    requires low { MAIN_FRAM ≤ at }
    requires high { at + 16 ≤ BEHIND_MAIN_FRAM }
    ensures whole { OnOk result (K.written out.new ≡ appended
        (K.written out.old) (open_line_of tick at (row_at (chip.now).bus.memory at))) }
    ensures uncounted { OnOk result (K.faults out.new ≡ K.faults out.old) }
    ensures fault { OnErr result (Rose (K.faults out.old) (K.faults out.new)) }
    ensures front { OnErr result (AppendsFront (K.written out.old) (K.written out.new)
        (open_line_of tick at (row_at (chip.now).bus.memory at))) }
{
    let bytes = row_of(chip, at);
    put_all(out, open_line(tick, at, &bytes).as_slice())
}

/// Writes the lines of so many rows, the first of them at an address.
fn put_rows<K: Sink>(
    chip: &Chip,
    tick: u32,
    low: u32,
    count: u32,
    out: &mut K,
) -> Result<(), PutFailed>
    requires low { MAIN_FRAM ≤ low }
    requires high { low + 16 * count ≤ BEHIND_MAIN_FRAM }
    ensures whole { OnOk result (K.written out.new ≡ appended
        (K.written out.old) (text_of_rows tick (chip.now).bus.memory count low)) }
    ensures uncounted { OnOk result (K.faults out.new ≡ K.faults out.old) }
    ensures fault { OnErr result (Rose (K.faults out.old) (K.faults out.new)) }
    ensures front { OnErr result (AppendsFront (K.written out.old) (K.written out.new)
        (text_of_rows tick (chip.now).bus.memory count low)) }
{
    for n in 0..count {
        match put_row(chip, tick, low + ROW * n, out) {
            Ok(()) => {}
            Err(e) => return Err(e),
        }
    }
    Ok(())
}

/// Writes the lines of one item.
fn put_item<K: Sink>(chip: &Chip, tick: u32, item: &Item, out: &mut K) -> Result<(), PutFailed>
    requires given { IsItem item.now }
    ensures whole { OnOk result (K.written out.new ≡ appended
        (K.written out.old) (text_of_item tick (chip.now).bus.memory item.now)) }
    ensures uncounted { OnOk result (K.faults out.new ≡ K.faults out.old) }
    ensures fault { OnErr result (Rose (K.faults out.old) (K.faults out.new)) }
    ensures front { OnErr result (AppendsFront (K.written out.old) (K.written out.new)
        (text_of_item tick (chip.now).bus.memory item.now)) }
{
    match item {
        Item::Opened(low, high) => put_rows(chip, tick, *low, (*high - *low) / ROW, out),
        _ => put_all(out, release_line(tick, item).as_slice()),
    }
}

/// Writes the lines of the items of one tick.
fn put_items<K: Sink>(chip: &Chip, tick: u32, items: &[Item], out: &mut K) -> Result<(), PutFailed>
    requires given { All IsItem items.now }
    ensures whole { OnOk result (K.written out.new ≡ appended
        (K.written out.old) (text_of_items tick (chip.now).bus.memory items.now)) }
    ensures uncounted { OnOk result (K.faults out.new ≡ K.faults out.old) }
    ensures fault { OnErr result (Rose (K.faults out.old) (K.faults out.new)) }
    ensures front { OnErr result (AppendsFront (K.written out.old) (K.written out.new)
        (text_of_items tick (chip.now).bus.memory items.now)) }
{
    for item in items {
        match put_item(chip, tick, item, out) {
            Ok(()) => {}
            Err(e) => return Err(e),
        }
    }
    Ok(())
}

/// Runs a chip under a bench up to the tick `end`, and writes the release list as it comes.
pub fn write_releases<K: Sink>(
    chip: &mut Chip,
    bench: &Bench,
    end: u32,
    out: &mut K,
) -> Result<(), PutFailed>
    requires first { (chip.old).tick ≡ 0 }
    requires last { end ≤ 10000000 }
    ensures whole { OnOk result
        (K.written out.new ≡ appended (K.written out.old) (releases_text end bench.now chip.old)) }
    ensures uncounted { OnOk result (K.faults out.new ≡ K.faults out.old) }
    ensures fault { OnErr result (Rose (K.faults out.old) (K.faults out.new)) }
    ensures front { OnErr result (AppendsFront
        (K.written out.old) (K.written out.new) (releases_text end bench.now chip.old)) }
{
    let mut lines = Lines::new();
    let mut items = Items::new();
    let mut tick = 0;
    while tick < end {
        tick += chip.run(bench, end, &mut lines, &mut items);
        match put_items(chip, tick - 1, items.as_slice(), out) {
            Ok(()) => {}
            Err(e) => return Err(e),
        }
    }
    put_line(end, &TraceItem::End, out)
}
