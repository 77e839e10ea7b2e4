ghost use Rattle.std.specs.Prelude.{◌≡◌, ◌+◌, ◌*◌, ◌≤◌, ◌++◌, decimal, length};
ghost use Rattle.arrayvec.specs.ArrayVec.{array_vec_len};
ghost use Rattle.trace_print.specs.Digits.{hex_digits};
ghost use Rattle.trace_print.specs.Releases.{IsReleasable, access_text, open_line_of, registers_text, release_line_of, release_text, value_text};

use crate::lines::{Line, begin_line};
use crate::pieces::{push_bytes, push_decimal, push_hex, push_text};
use crate::releases::Item;
use arrayvec::ArrayVec;
use chip_words::Size;

/// The line of an item of a release list, with the number of its tick.
///
/// An interval that was opened has no line of its own: each row of its bytes has one, by `open_line`.
#[tactic(auto, unfolding(crate::specs::Releases::release_line_of))]
pub fn release_line(tick: u32, item: &Item) -> ArrayVec<u8, 160>
    requires { IsReleasable item.now }
    ensures line { result.items ≡ release_line_of tick item.now }
{
    let mut line = begin_line(tick);
    push_release(&mut line, item);
    line.push(b'\n');
    line
}

/// The line of a row of opened bytes, with the number of its tick and the address of the first byte.
#[tactic(auto, unfolding(crate::specs::Releases::open_line_of))]
pub fn open_line(tick: u32, at: u32, bytes: &[u8; 16]) -> ArrayVec<u8, 160>
    ensures line { result.items ≡ open_line_of tick at bytes.now }
{
    let mut line = begin_line(tick);
    push_number(&mut line, b"OPEN ", 5, at);
    line.push(b' ');
    push_bytes(&mut line, bytes);
    line.push(b'\n');
    line
}

/// Appends what stands behind the tick.
fn push_release(line: &mut Line, item: &Item)
    requires releasable { IsReleasable item.now }
    requires room { array_vec_len line.old ≤ 11 }
    ensures text { line.new.items ≡ line.old.items ++ release_text item.now }
    ensures len { array_vec_len line.new ≤ 132 }
{
    match item {
        Item::Entry(vector) => push_number(line, b"ENTRY ", 5, *vector),
        Item::Fetch(at) => push_number(line, b"F ", 5, *at),
        Item::Read(at, size) => push_access(line, b"R ", *at, *size),
        Item::Write(at, size, value) => push_write(line, *at, *size, *value),
        Item::Flags(bits) => push_number(line, b"FLAGS ", 2, (*bits).into()),
        Item::Reset(cause) => push_number(line, b"RESET ", 2, (*cause).into()),
        Item::Power(bits) => push_number(line, b"POWER ", 2, (*bits).into()),
        Item::Struct(index, word) => push_struct(line, *index, *word),
        Item::Opened(..) => unreachable!(),
        Item::Exit(registers, busy) => push_exit(line, registers, *busy),
    }
}

/// Appends a name, and a number in so many hexadecimal digits.
fn push_number(line: &mut Line, name: &[u8], count: u32, value: u32)
    requires room { array_vec_len line.old ≤ 11 }
    requires short { length name.now ≤ 6 }
    requires width { count ≤ 5 }
    ensures text { line.new.items ≡ line.old.items ++ name.now ++ hex_digits count value }
    ensures len { array_vec_len line.new ≤ 22 }
{
    push_text(line, name);
    push_hex(line, count, value);
}

/// Appends an access: its letter, its address and its width.
fn push_access(line: &mut Line, letter: &[u8], at: u32, size: Size)
    requires room { array_vec_len line.old ≤ 11 }
    requires short { length letter.now ≤ 6 }
    ensures text { line.new.items ≡ line.old.items ++ letter.now ++ access_text at size }
    ensures len { array_vec_len line.new ≤ 24 }
{
    push_number(line, letter, 5, at);
    line.push(b' ');
    line.push(match size {
        Size::Byte => b'b',
        Size::Word | Size::Addr => b'w',
    });
}

/// Appends a write.
fn push_write(line: &mut Line, at: u32, size: Size, value: u32)
    requires { array_vec_len line.old ≤ 11 }
    ensures text { line.new.items ≡ line.old.items ++ release_text (Item.Write at size value) }
    ensures len { array_vec_len line.new ≤ 29 }
{
    push_access(line, b"W ", at, size);
    line.push(b' ');
    push_value(line, size, value);
}

/// Appends a value of a width.
fn push_value(line: &mut Line, size: Size, value: u32)
    requires { array_vec_len line.old ≤ 25 }
    ensures text { line.new.items ≡ line.old.items ++ value_text size value }
    ensures len { array_vec_len line.new ≤ 29 }
{
    match size {
        Size::Byte => push_hex(line, 2, value),
        Size::Word | Size::Addr => push_hex(line, 4, value),
    }
}

/// Appends a word of the structure.
fn push_struct(line: &mut Line, index: u8, word: u16)
    requires { array_vec_len line.old ≤ 11 }
    ensures text { line.new.items ≡ line.old.items ++ release_text (Item.Struct index word) }
    ensures len { array_vec_len line.new ≤ 26 }
{
    push_text(line, b"STRUCT ");
    push_decimal(line, index);
    line.push(b' ');
    push_hex(line, 4, word.into());
}

/// Appends how the processor goes on in public phase.
fn push_exit(line: &mut Line, registers: &[u32; 16], busy: u64)
    requires { array_vec_len line.old ≤ 11 }
    ensures text { line.new.items ≡ line.old.items ++ release_text (Item.Exit registers.now busy) }
    ensures len { array_vec_len line.new ≤ 132 }
{
    push_text(line, b"EXIT ");
    push_decimal(line, busy);
    push_registers(line, registers);
}

/// Appends the registers, R0 first, each behind a space.
fn push_registers(line: &mut Line, registers: &[u32; 16])
    requires { array_vec_len line.old ≤ 36 }
    ensures text { line.new.items ≡ line.old.items ++ registers_text registers.now }
    ensures len { array_vec_len line.new ≡ array_vec_len line.old + 96 }
{
    for register in registers {
        line.push(b' ');
        push_hex(line, 5, *register);
    }
}
