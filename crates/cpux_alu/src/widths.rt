ghost use Rattle.std.specs.Prelude.{◌≡◌, ℕ, ◌+◌, ◌-◌, ◌*◌, ◌%◌, ◌<◌, bit_and, bit_or};
ghost use Rattle.chip_words.specs.Sizes.{span};
ghost use Rattle.cpux_alu.specs.Effects.{complement as complement_of, extended_byte as extended_byte_of, is_negative as is_negative_of};

use cpux_decode::{Size, sign_extended};

/// The bits of a width.
pub fn mask(size: Size) -> u32
    ensures value { result ≡ span size - 1 }
    ensures masks { (x : ℕ) → bit_and x result ≡ x % span size }
{
    match size {
        Size::Byte => 0xFF,
        Size::Word => 0xFFFF,
        Size::Addr => 0xFFFFF,
    }
}

/// The highest bit of a width.
pub fn top(size: Size) -> u32
    ensures value { 2 * result ≡ span size }
    ensures joins { (x : ℕ) → x < result → bit_or x result ≡ x + result }
{
    match size {
        Size::Byte => 0x80,
        Size::Word => 0x8000,
        Size::Addr => 0x80000,
    }
}

/// Says whether the highest bit is set.
pub fn is_negative(size: Size, x: u32) -> bool
    requires { x < span size }
    ensures { result ≡ is_negative_of (span size) x }
{
    x >= top(size)
}

/// Each bit of a width turned.
pub fn complement(size: Size, x: u32) -> u32
    requires { x < span size }
    ensures { result ≡ complement_of (span size) x }
{
    !x & mask(size)
}

/// The lowest byte as a signed number.
pub fn extended_byte(size: Size, x: u32) -> u32
    ensures value { result ≡ extended_byte_of (span size) x }
    ensures range { result < span size }
{
    sign_extended(0x100, mask(size) + 1, x & 0xFF)
}
