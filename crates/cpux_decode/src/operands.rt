ghost use Rattle.std.specs.Prelude.{◌≡◌, ◌<◌, ◌≤◌};
ghost use Rattle.chip_words.specs.Bits.{has_bit};
ghost use Rattle.cpux_decode.specs.Ranges.{IsCount, IsDestination, IsPlace};
ghost use Rattle.cpux_decode.specs.Operands.{bits, destination_place, long_size_of, once as once_of, rep_of, sign_extended as sign_extended_of, size_of, source_place, source_words as source_words_of, wide as wide_of};

use crate::instructions::{Count, Rep};
use crate::places::Place;
use chip_words::{CG, PC, SR, Size};

/// Bit B/W of an instruction word: the operands are bytes.
const B_W: u32 = 6;
/// Bit A/L of an extension word: the width is that of the instruction word, and not 20 bits.
const A_L: u32 = 6;
/// Bit # of an extension word: the repeats are counted by a register.
const COUNT_IN_REGISTER: u32 = 7;
/// Bit ZC of an extension word: the carry that goes in is 0.
const ZC: u32 = 8;

/// Bits 11:8.
pub fn field_11_8(word: u16) -> u8
    ensures { result ≡ bits word 11 8 }
{
    ((word >> 8) & 0xF) as u8
}

/// Bits 10:7.
pub fn field_10_7(word: u16) -> u8
    ensures { result ≡ bits word 10 7 }
{
    ((word >> 7) & 0xF) as u8
}

/// Bits 7:4.
pub fn field_7_4(word: u16) -> u8
    ensures { result ≡ bits word 7 4 }
{
    ((word >> 4) & 0xF) as u8
}

/// Bits 3:0.
pub fn field_3_0(word: u16) -> u8
    ensures { result ≡ bits word 3 0 }
{
    (word & 0xF) as u8
}

/// Bits 5:4, the addressing mode of a source.
pub fn source_mode(word: u16) -> u8
    ensures { result ≡ bits word 5 4 }
{
    ((word >> 4) & 3) as u8
}

/// Bit 7, the addressing mode of a destination.
pub fn destination_mode(word: u16) -> u8
    ensures { result ≡ bits word 7 7 }
{
    ((word >> 7) & 1) as u8
}

/// Says whether a bit is set.
pub fn is_set(word: u16, place: u32) -> bool
    requires { place < 16 }
    ensures { result ≡ has_bit word place }
{
    (word >> place) & 1 == 1
}

/// 20 bits from their upper four and a word.
pub fn wide(high: u8, low: u16) -> u32
    requires { high < 16 }
    ensures value { result ≡ wide_of high low }
    ensures range { result < 0x100000 }
{
    (high as u32) << 16 | low as u32
}

/// A number below `from` as a signed one, below `to`: its highest bit stands in all bits above it. Both are powers of
/// two, as the widths have them.
pub fn sign_extended(from: u32, to: u32, x: u32) -> u32
    requires wider { from ≤ to }
    requires x { x < from }
    ensures value { result ≡ sign_extended_of from to x }
    ensures range { result < to }
{
    if x < from / 2 { x } else { to - from + x }
}

/// An index word as a signed number, at 20 bits.
pub fn signed_index(word: u16) -> u32
    ensures value { result ≡ sign_extended_of 0x10000 0x100000 word }
    ensures range { result < 0x100000 }
{
    sign_extended(0x10000, 0x100000, word as u32)
}

/// A source by its addressing mode and register. `x` is the word that may belong to it, and `high` has its
/// bits 19:16.
#[tactic(auto, unfolding(crate::specs::Operands::source_place))]
pub fn source(long: bool, high: u8, mode: u8, r: u8, x: u16) -> Place
    requires high { high < 16 }
    requires mode { mode < 4 }
    requires register { r < 16 }
    ensures place { result ≡ source_place long high mode r x }
    ensures range { IsPlace result }
{
    match (mode, r) {
        (0, CG) => Place::Const(0),
        (0, _) => Place::Reg(r),
        (1, SR) => Place::Absolute(wide(high, x)),
        (1, CG) => Place::Const(1),
        (1, _) if long => Place::Far(r, wide(high, x)),
        (1, _) => Place::Near(r, x),
        (2, SR) => Place::Const(4),
        (2, CG) => Place::Const(2),
        (2, _) => Place::At(r),
        (_, PC) => Place::Imm(wide(high, x)),
        (_, SR) => Place::Const(8),
        (_, CG) => Place::Const(0xFFFFF),
        _ => Place::AtPlus(r),
    }
}

/// How many words belong to a source.
#[tactic(auto, unfolding(crate::specs::Operands::source_words))]
pub fn source_words(mode: u8, r: u8) -> u8
    ensures count { result ≡ source_words_of mode r }
    ensures most { result ≤ 1 }
{
    match (mode, r) {
        (1, CG) => 0,
        (1, _) | (3, PC) => 1,
        _ => 0,
    }
}

/// A destination by its addressing mode and register. `x` is the word that may belong to it, and `high` has
/// its bits 19:16.
#[tactic(auto, unfolding(crate::specs::Operands::destination_place))]
pub fn destination(long: bool, high: u8, mode: u8, r: u8, x: u16) -> Place
    requires high { high < 16 }
    requires register { r < 16 }
    ensures place { result ≡ destination_place long high mode r x }
    ensures range { IsDestination result }
{
    match (mode, r) {
        (0, _) => Place::Reg(r),
        (_, SR) => Place::Absolute(wide(high, x)),
        _ if long => Place::Far(r, wide(high, x)),
        _ => Place::Near(r, x),
    }
}

/// The width of an instruction word without an extension word.
pub fn size(word: u16) -> Size
    ensures { result ≡ size_of word }
{
    if is_set(word, B_W) {
        Size::Byte
    } else {
        Size::Word
    }
}

/// The width of an instruction word behind an extension word.
pub fn long_size(extension: u16, word: u16) -> Size
    ensures { result ≡ long_size_of extension word }
{
    if is_set(extension, A_L) {
        size(word)
    } else {
        Size::Addr
    }
}

/// No repeats, and the carry as it is.
pub fn once() -> Rep
    ensures rep { result ≡ once_of }
    ensures range { IsCount result.count }
{
    Rep {
        zero_carry: false,
        count: Count::Fixed(1),
    }
}

/// What an extension word says of repeats, which counts for a register form alone.
#[tactic(auto, unfolding(crate::specs::Operands::rep_of))]
pub fn rep(repeated: bool, extension: u16) -> Rep
    ensures rep { result ≡ rep_of repeated extension }
    ensures range { IsCount result.count }
{
    if !repeated {
        return once();
    }
    let low = field_3_0(extension);
    let count = if is_set(extension, COUNT_IN_REGISTER) {
        Count::InReg(low)
    } else {
        Count::Fixed(low + 1)
    };
    Rep {
        zero_carry: is_set(extension, ZC),
        count,
    }
}
