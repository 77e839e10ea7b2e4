ghost use Rattle.std.specs.Prelude.{◌≡◌, ◌<◌, ◌≤◌, ◌++◌, ◌+◌, All};
ghost use Rattle.arrayvec.specs.ArrayVec.{array_vec_len};
ghost use Rattle.trace_print.specs.Lines.{IsPrintable};
ghost use Rattle.chip_core.specs.Pins.{pin_lines, port_line};

use crate::Lines;
use port_unit::Pins;
use trace_print::TraceItem;

/// Adds the lines of the ports whose levels changed. Mostly none did.
#[inline(always)]
#[tactic(auto, using(crate::proofs::SamePins::no_lines))]
pub fn tell_changes(before: Pins, now: Pins, lines: &mut Lines)
    requires room { array_vec_len lines.old ≤ 28 }
    requires printable { All IsPrintable lines.old.items }
    ensures lines { lines.new.items ≡ lines.old.items ++ pin_lines before now }
    ensures printable { All IsPrintable lines.new.items }
{
    if before != now {
        tell_ports(before, now, lines);
    }
}

/// Adds the lines of the ports, of which some pin changed.
#[inline(never)]
fn tell_ports(before: Pins, now: Pins, lines: &mut Lines)
    requires room { array_vec_len lines.old ≤ 28 }
    requires printable { All IsPrintable lines.old.items }
    ensures lines { lines.new.items ≡ lines.old.items ++ pin_lines before now }
    ensures printable { All IsPrintable lines.new.items }
{
    tell_port(1, before, now, lines);
    tell_port(2, before, now, lines);
    tell_port(3, before, now, lines);
    tell_port(4, before, now, lines);
}

/// Adds the line of a port, where its levels changed.
#[tactic(auto, using(crate::proofs::Printable::with_line), unfolding(crate::specs::Pins::port_line))]
fn tell_port(port: u8, before: Pins, now: Pins, lines: &mut Lines)
    requires port { (1 ≤ port) × (port ≤ 4) }
    requires room { array_vec_len lines.old ≤ 31 }
    requires printable { All IsPrintable lines.old.items }
    ensures lines { lines.new.items ≡ lines.old.items ++ port_line port before now }
    ensures count { array_vec_len lines.new ≤ array_vec_len lines.old + 1 }
    ensures printable { All IsPrintable lines.new.items }
{
    if !before.has_same_levels(&now, port) {
        lines.push(TraceItem::Pin(port, now.levels(port)));
    }
}
