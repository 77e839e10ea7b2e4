ghost use Rattle.std.specs.Prelude.{◌≡◌, ◌+◌, ◌≤◌, ◌<◌, All, OnErr, OnOk};
ghost use Rattle.bench_io.specs.Faults.{Rose};
ghost use Rattle.bench_io.specs.Sinks.{AppendsFront, appended};
ghost use Rattle.trace_print.specs.Lines.{IsPrintable, line_of};
ghost use Rattle.capsule.specs.Trace.{run_text, text_of_lines};

use bench_io::{PutFailed, Sink, put_all};
use chip_core::{Chip, Items, Lines};
use stimulus::Bench;
use trace_print::{TraceItem, trace_line};

/// Writes one line.
pub fn put_line<K: Sink>(tick: u32, item: &TraceItem, out: &mut K) -> Result<(), PutFailed>
    requires { IsPrintable item.now }
    ensures whole { OnOk result
        (K.written out.new ≡ appended (K.written out.old) (line_of tick item.now)) }
    ensures uncounted { OnOk result (K.faults out.new ≡ K.faults out.old) }
    ensures fault { OnErr result (Rose (K.faults out.old) (K.faults out.new)) }
    ensures front { OnErr result
        (AppendsFront (K.written out.old) (K.written out.new) (line_of tick item.now)) }
{
    put_all(out, trace_line(tick, item).as_slice())
}

/// Writes the lines of one tick.
pub fn put_lines<K: Sink>(tick: u32, items: &[TraceItem], out: &mut K) -> Result<(), PutFailed>
    requires { All IsPrintable items.now }
    ensures whole { OnOk result
        (K.written out.new ≡ appended (K.written out.old) (text_of_lines tick items.now)) }
    ensures uncounted { OnOk result (K.faults out.new ≡ K.faults out.old) }
    ensures fault { OnErr result (Rose (K.faults out.old) (K.faults out.new)) }
    ensures front { OnErr result
        (AppendsFront (K.written out.old) (K.written out.new) (text_of_lines tick items.now)) }
{
    for item in items {
        match put_line(tick, item, out) {
            Ok(()) => {}
            Err(e) => return Err(e),
        }
    }
    Ok(())
}

/// Runs a chip under a bench up to the tick `end`, and writes the trace as it comes.
pub fn write_trace<K: Sink>(
    chip: &mut Chip,
    bench: &Bench,
    end: u32,
    out: &mut K,
) -> Result<(), PutFailed>
    requires first { (chip.old).tick ≡ 0 }
    requires last { end ≤ 10000000 }
    ensures whole { OnOk result
        (K.written out.new ≡ appended (K.written out.old) (run_text end bench.now chip.old)) }
    ensures uncounted { OnOk result (K.faults out.new ≡ K.faults out.old) }
    ensures fault { OnErr result (Rose (K.faults out.old) (K.faults out.new)) }
    ensures front { OnErr result
        (AppendsFront (K.written out.old) (K.written out.new) (run_text end bench.now chip.old)) }
{
    let mut lines = Lines::new();
    let mut items = Items::new();
    let mut tick = 0;
    while tick < end {
        tick += chip.run(bench, end, &mut lines, &mut items);
        match put_lines(tick - 1, lines.as_slice(), out) {
            Ok(()) => {}
            Err(e) => return Err(e),
        }
    }
    put_line(end, &TraceItem::End, out)
}
