//! Results and flags of the operations of the processor, and the address that a register and an index word give.
//!
//! Operands are taken modulo 2^width. The status register keeps its bits that are no flags.
#![tactic(auto)]

ghost use Rattle.std.specs.Prelude.{◌≡◌, ◌<◌, ◌≤◌};
ghost use Rattle.chip_words.specs.Sizes.{span};
ghost use Rattle.cpux_alu.specs.Addresses.{near_address};
ghost use Rattle.cpux_alu.specs.Operations.{GivesResult, addr_status, addr_value, one_effect, one_status, one_value, shift_status, shift_value, two_effect, two_status, two_value};

mod effects;
mod laws;
mod shifts;
mod sums;
#[cfg(test)]
mod tests;
mod widths;

use cpux_decode::{Op1, Op2, OpA, OpS, Size, sign_extended};
pub use effects::{C, N, V, Z};
use effects::{Effect, status, with_logic_flags, without_flags};
pub use laws::{complement_subtracts, decimal_sum_is_exact, shifts_scale, signed_sum_is_exact};
use shifts::{Shifted, shift_once, shift_places, shift_result};
use sums::{decimal_sum, sum};
use widths::{complement, extended_byte, is_negative, mask};

/// Bit C of the status register.
const CARRY: u16 = 1;

/// The result of an operation of two operands, and the status register after it.
///
/// CMP and BIT have a result too, which their instructions don't write. An operation that takes a carry takes it from
/// `sr`: where that is to be 0, clear it there, but for operations that leave the flags.
#[inline(always)]
#[tactic(auto, unfolding(crate::specs::Operations::two_status, crate::specs::Operations::two_value))]
pub fn two(op: Op2, size: Size, src: u32, dst: u32, sr: u16) -> (u32, u16)
    ensures value { result.0 ≡ two_value op size src dst sr }
    ensures status { result.1 ≡ two_status op size src dst sr }
    ensures range { result.0 < span size }
{
    let (src, dst) = (src & mask(size), dst & mask(size));
    let effect = two_operands(op, size, src, dst, sr & CARRY != 0);
    (effect.value, status(sr, effect.flags))
}

#[inline(always)]
#[tactic(auto, using(crate::proofs::InWidth::or_in_width, crate::proofs::InWidth::xor_in_width), unfolding(crate::specs::Operations::two_effect))]
fn two_operands(op: Op2, size: Size, src: u32, dst: u32, carry: bool) -> Effect
    requires source { src < span size }
    requires destination { dst < span size }
    ensures effect { result ≡ two_effect op size src dst carry }
    ensures range { result.value < span size }
{
    match op {
        Op2::Mov => without_flags(src),
        Op2::Add => sum(size, dst, src, false),
        Op2::Addc => sum(size, dst, src, carry),
        Op2::Subc => sum(size, dst, complement(size, src), carry),
        Op2::Sub | Op2::Cmp => sum(size, dst, complement(size, src), true),
        Op2::Dadd => decimal_sum(size, dst, src, carry),
        Op2::Bit | Op2::And => with_logic_flags(size, dst & src, false),
        Op2::Bic => without_flags(dst & complement(size, src)),
        Op2::Bis => without_flags(dst | src),
        Op2::Xor => {
            let negative = is_negative(size, dst) & is_negative(size, src);
            with_logic_flags(size, dst ^ src, negative)
        }
    }
}

/// The result of RRC, SWPB, RRA or SXT, and the status register after it.
#[tactic(auto, unfolding(crate::specs::Operations::one_status, crate::specs::Operations::one_value))]
pub fn one(op: Op1, size: Size, x: u32, sr: u16) -> (u32, u16)
    requires { GivesResult op }
    ensures value { result.0 ≡ one_value op size x sr }
    ensures status { result.1 ≡ one_status op size x sr }
    ensures range { result.0 < span size }
{
    let effect = one_operand(op, size, x & mask(size), sr & CARRY != 0);
    (effect.value, status(sr, effect.flags))
}

#[tactic(auto, unfolding(crate::specs::Operations::one_effect))]
fn one_operand(op: Op1, size: Size, x: u32, carry: bool) -> Effect
    requires operation { GivesResult op }
    requires operand { x < span size }
    ensures effect { result ≡ one_effect op (span size) x carry }
    ensures range { result.value < span size }
{
    let from = Shifted { value: x, carry };
    match op {
        Op1::Rrc => shift_result(size, shift_once(OpS::Rrc, size, from)),
        Op1::Swpb => without_flags(((x & 0xFF) << 8 | (x >> 8) & 0xFF) & mask(size)),
        Op1::Rra => shift_result(size, shift_once(OpS::Rra, size, from)),
        Op1::Sxt => with_logic_flags(size, extended_byte(size, x), false),
        Op1::Push | Op1::Call => unreachable!(),
    }
}

/// The result of RRCM, RRAM, RLAM or RRUM by `count` places, and the status register after it.
#[tactic(auto, unfolding(crate::specs::Operations::shift_status, crate::specs::Operations::shift_value))]
pub fn shift_many(op: OpS, size: Size, count: u8, x: u32, sr: u16) -> (u32, u16)
    requires { 1 ≤ count }
    ensures value { result.0 ≡ shift_value op size count x sr }
    ensures status { result.1 ≡ shift_status op size count x sr }
    ensures range { result.0 < span size }
{
    let from = Shifted {
        value: x & mask(size),
        carry: sr & CARRY != 0,
    };
    let shifted = shift_places(op, size, count, from);
    let effect = shift_result(size, shifted);
    (effect.value, status(sr, effect.flags))
}

/// The result of CMPA, ADDA or SUBA, and the status register after it.
#[tactic(auto, unfolding(crate::specs::Operations::addr_status, crate::specs::Operations::addr_value))]
pub fn addr(op: OpA, src: u32, dst: u32, sr: u16) -> (u32, u16)
    ensures value { result.0 ≡ addr_value op src dst sr }
    ensures status { result.1 ≡ addr_status op src dst sr }
    ensures range { result.0 < 0x100000 }
{
    let op = match op {
        OpA::Cmp => Op2::Cmp,
        OpA::Add => Op2::Add,
        OpA::Sub => Op2::Sub,
    };
    two(op, Size::Addr, src, dst, sr)
}

/// The address that a register and a 16-bit index give. From the lower 64 KB it doesn't lead out of them.
#[tactic(auto, unfolding(crate::specs::Addresses::near_address))]
pub fn near(reg: u32, index: u16) -> u32
    ensures address { result ≡ near_address reg index }
    ensures range { result < 0x100000 }
{
    if reg < 0x10000 {
        return (reg + index as u32) & 0xFFFF;
    }
    let index = sign_extended(0x10000, 0x100000, index as u32);
    ((reg & 0xFFFFF) + index) & 0xFFFFF
}
