ghost use Rattle.std.specs.Prelude.{◌≡◌, ◌<◌};
ghost use Rattle.chip_words.specs.Sizes.{span};
ghost use Rattle.cpux_alu.specs.Effects.{flag_bits, status_after, with_flags as with_flags_of, with_logic_flags as with_logic_flags_of, without_flags as without_flags_of};

use crate::widths::is_negative;
use cpux_decode::Size;

/// The flags that operations set.
#[derive(Clone, Copy)]
pub struct Flags {
    pub carry: bool,
    pub zero: bool,
    pub negative: bool,
    pub overflow: bool,
}

/// What an operation gives.
#[derive(Clone, Copy)]
pub struct Effect {
    pub value: u32,
    /// None where the operation leaves the flags as they are.
    pub flags: Option<Flags>,
}

/// The place of the carry in the status register.
pub const C: u32 = 0;
/// The place of the bit that says that a result was 0.
pub const Z: u32 = 1;
/// The place of the bit that says that a result was negative.
pub const N: u32 = 2;
/// The place of the overflow.
pub const V: u32 = 8;

/// The bits C, Z, N and V.
const FLAGS: u16 = 0x107;

impl Flags {
    /// The flags at their places in the status register.
    fn bits(self) -> u16
        ensures value { result ≡ flag_bits self }
    {
        (self.carry as u16) << C
            | (self.zero as u16) << Z
            | (self.negative as u16) << N
            | (self.overflow as u16) << V
    }
}

/// The status register after an operation.
#[tactic(auto, using(crate::proofs::Status::flags_join))]
pub fn status(sr: u16, flags: Option<Flags>) -> u16
    ensures { result ≡ status_after sr flags }
{
    match flags {
        None => sr,
        Some(flags) => sr & !FLAGS | flags.bits(),
    }
}

/// A result with its carry and its overflow, and the flags that tell of the result itself.
pub fn with_flags(size: Size, value: u32, carry: bool, overflow: bool) -> Effect
    requires { value < span size }
    ensures { result ≡ with_flags_of (span size) value carry overflow }
{
    let flags = Flags {
        carry,
        zero: value == 0,
        negative: is_negative(size, value),
        overflow,
    };
    Effect {
        value,
        flags: Some(flags),
    }
}

/// The result of a logical operation: the carry says that it isn't 0.
pub fn with_logic_flags(size: Size, value: u32, overflow: bool) -> Effect
    requires { value < span size }
    ensures { result ≡ with_logic_flags_of (span size) value overflow }
{
    with_flags(size, value, value != 0, overflow)
}

/// A result of an operation that leaves the flags as they are.
pub fn without_flags(value: u32) -> Effect
    ensures { result ≡ without_flags_of value }
{
    Effect { value, flags: None }
}
