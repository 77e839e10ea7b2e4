ghost use Rattle.std.specs.Prelude.{◌≡◌, ◌+◌, ◌≤◌, ◌++◌, codes, decimal};
ghost use Rattle.arrayvec.specs.ArrayVec.{array_vec_len};
ghost use Rattle.trace_print.specs.Levels.{letters_of};
ghost use Rattle.trace_print.specs.Lines.{IsPrintable, boot_text, line_of, text_of};

use crate::debug_lines::push_debug;
use crate::items::TraceItem;
use crate::levels::letter;
use crate::pieces::{push_decimal, push_hex, push_text};
use arrayvec::ArrayVec;
use port_unit::Level;

/// A line of a trace, with its line feed.
pub(crate) type Line = ArrayVec<u8, 160>;

/// The line of an item, with the number of its tick.
#[tactic(auto, unfolding(crate::specs::Lines::line_of))]
pub fn trace_line(tick: u32, item: &TraceItem) -> ArrayVec<u8, 160>
    requires { IsPrintable item.now }
    ensures { result.items ≡ line_of tick item.now }
{
    let mut line = begin_line(tick);
    push_item(&mut line, item);
    line.push(b'\n');
    line
}

/// A line up to its text: the number of its tick and a space.
pub(crate) fn begin_line(tick: u32) -> Line
    ensures text { result.items ≡ decimal tick ++ codes " " }
    ensures len { array_vec_len result ≤ 11 }
{
    let mut line = ArrayVec::new();
    push_decimal(&mut line, tick);
    line.push(b' ');
    line
}

/// Appends what stands behind the tick.
fn push_item(line: &mut Line, item: &TraceItem)
    requires printable { IsPrintable item.now }
    requires room { array_vec_len line.old ≤ 11 }
    ensures text { line.new.items ≡ line.old.items ++ text_of item.now }
    ensures len { array_vec_len line.new ≤ 100 }
{
    match item {
        TraceItem::On => push_text(line, b"ON"),
        TraceItem::Debug(command, answer) => push_debug(line, command, answer),
        TraceItem::Halt(pc) => push_halt(line, *pc),
        TraceItem::Erase => push_text(line, b"ERASE"),
        TraceItem::Boot(control, first_border, second_border) => {
            push_boot(line, *control, *first_border, *second_border)
        }
        TraceItem::Reset(cause) => push_reset(line, *cause),
        TraceItem::Dead => push_text(line, b"DEAD"),
        TraceItem::Cut => push_text(line, b"CUT"),
        TraceItem::Pin(port, levels) => push_pin(line, *port, levels),
        TraceItem::End => push_text(line, b"END"),
    }
}

/// Appends that the processor was halted.
fn push_halt(line: &mut Line, pc: u32)
    requires { array_vec_len line.old ≤ 11 }
    ensures text { line.new.items ≡ line.old.items ++ text_of (TraceItem.Halt pc) }
    ensures len { array_vec_len line.new ≤ 40 }
{
    push_text(line, b"HALT ");
    push_hex(line, 5, pc);
}

/// Appends the end of a boot.
fn push_boot(line: &mut Line, control: u8, first_border: u32, second_border: u32)
    requires { array_vec_len line.old ≤ 11 }
    ensures text { line.new.items ≡ line.old.items ++ boot_text control first_border second_border }
    ensures len { array_vec_len line.new ≤ 40 }
{
    push_text(line, b"BOOT ");
    push_hex(line, 2, control.into());
    line.push(b' ');
    push_hex(line, 5, first_border);
    line.push(b' ');
    push_hex(line, 5, second_border);
}

/// Appends a reset.
fn push_reset(line: &mut Line, cause: u8)
    requires { array_vec_len line.old ≤ 11 }
    ensures text { line.new.items ≡ line.old.items ++ text_of (TraceItem.Reset cause) }
    ensures len { array_vec_len line.new ≤ 40 }
{
    push_text(line, b"RST ");
    push_hex(line, 2, cause.into());
}

/// Appends the levels of a port.
fn push_pin(line: &mut Line, port: u8, levels: &[Level; 8])
    requires { array_vec_len line.old ≤ 11 }
    ensures text { line.new.items ≡ line.old.items ++ text_of (TraceItem.Pin port levels.now) }
    ensures len { array_vec_len line.new ≤ 40 }
{
    push_text(line, b"PIN P");
    push_decimal(line, port);
    line.push(b' ');
    push_levels(line, levels);
}

/// Appends the letters of a port's levels, bit 7 first.
fn push_levels(line: &mut Line, levels: &[Level; 8])
    requires { array_vec_len line.old ≤ 32 }
    ensures text { line.new.items ≡ line.old.items ++ letters_of levels.now }
    ensures len { array_vec_len line.new ≡ array_vec_len line.old + 8 }
{
    for level in levels.iter().rev() {
        line.push(letter(*level));
    }
}
