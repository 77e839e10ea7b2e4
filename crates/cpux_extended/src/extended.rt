ghost use Rattle.std.specs.Prelude.{◌≡◌, ◌<◌, ◌≤◌, IsTrue, false, length};
ghost use Rattle.cpux_decode.specs.Ranges.{IsCount, IsDestination, IsInRange, IsPlace};
ghost use Rattle.cpux_execute.specs.Execution.{IsShort};
ghost use Rattle.cpux_execute.specs.Steps.{AddsAtMost, CpuRuns};
ghost use Rattle.cycle_table.specs.Cycles.{IsInstruction};
ghost use Rattle.cpux_extended.specs.Extended.{extended, extended_one, extended_two, is_long as is_long_row, is_short as is_short_row, is_short_width as is_short_width_of, repeats as repeats_of};

use crate::address_instructions::{compute_address, move_address, shift};
use crate::register_form::{count, repeat_one, repeat_two};
use crate::stack::{call_address, pop_many, push_many};
use chip_words::{Bus, Regs, Size};
use cpux_decode::{Decoded, Op1, Op2, Place, Rep};
use cpux_execute::{perform_one, perform_two};

/// Says whether a row is one of the MSP430, or a reserved word.
#[tactic(auto, unfolding(crate::specs::Extended::is_short))]
pub fn is_short(d: &Decoded) -> bool
    ensures value { result ≡ is_short_row d.now }
    ensures short { IsTrue result → IsShort d.now }
    ensures other { result ≡ false → IsInstruction d.now }
{
    match *d {
        Decoded::Reserved | Decoded::Reti | Decoded::Jump { .. } => true,
        Decoded::Two { size, long, .. } => is_short_width(long, size),
        Decoded::One { size, long, .. } => is_short_width(long, size),
        _ => false,
    }
}

fn is_short_width(long: bool, size: Size) -> bool
    ensures { result ≡ is_short_width_of long size }
{
    match size {
        Size::Byte | Size::Word => !long,
        Size::Addr => false,
    }
}

/// Says whether an extension word stands before the instruction word.
#[tactic(auto, unfolding(crate::specs::Extended::is_long))]
pub fn is_long(d: &Decoded) -> bool
    ensures { result ≡ is_long_row d.now }
{
    match *d {
        Decoded::Two { long, .. } | Decoded::One { long, .. } => long,
        _ => false,
    }
}

/// How many times an instruction is done, 1 to 16. PC in the registers is the next address.
#[tactic(auto, unfolding(crate::specs::Extended::repeats))]
pub fn repeats(d: &Decoded, regs: &Regs) -> u8
    requires { IsInRange d.now }
    ensures value { result ≡ repeats_of d.now regs.now }
    ensures least { 1 ≤ result }
    ensures most { result ≤ 16 }
{
    match *d {
        Decoded::Two { rep, .. } | Decoded::One { rep, .. } => count(rep.count, regs),
        _ => 1,
    }
}

/// Does an operation of two operands behind an extension word.
#[tactic(auto, unfolding(crate::specs::Extended::extended_two))]
fn perform_extended_two<B: Bus>(
    regs: &mut Regs,
    bus: &mut B,
    ia: u32,
    pc: u32,
    op: Op2,
    size: Size,
    from: Place,
    to: Place,
    rep: Rep,
)
    requires from { IsPlace from }
    requires to { IsDestination to }
    requires rep { IsCount rep.count }
    requires pc { pc < 0x100000 }
    requires room { length (B.part bus.old).accesses ≤ 4 }
    ensures steps { CpuRuns ia (extended_two op size from to rep pc regs.old)
        (B.part bus.old) regs.new (B.part bus.new) }
    ensures count { AddsAtMost 6 (B.part bus.old) (B.part bus.new) }
{
    match to {
        Place::Reg(to) if from.is_register_source() => repeat_two(
            regs, pc, op, size, from, to, rep,
        ),
        _ => perform_two(regs, bus, ia, pc, op, size, from, to),
    }
}

/// Does an operation of one operand behind an extension word.
#[tactic(auto, unfolding(crate::specs::Extended::extended_one))]
fn perform_extended_one<B: Bus>(
    regs: &mut Regs,
    bus: &mut B,
    ia: u32,
    pc: u32,
    op: Op1,
    size: Size,
    place: Place,
    rep: Rep,
)
    requires place { IsPlace place }
    requires rep { IsCount rep.count }
    requires pc { pc < 0x100000 }
    requires room { length (B.part bus.old).accesses ≤ 4 }
    ensures steps { CpuRuns ia (extended_one op size place rep pc regs.old)
        (B.part bus.old) regs.new (B.part bus.new) }
    ensures count { AddsAtMost 4 (B.part bus.old) (B.part bus.new) }
{
    match (op, place) {
        (Op1::Push | Op1::Call, _) => perform_one(regs, bus, ia, pc, op, size, place),
        (_, Place::Reg(r)) => repeat_one(regs, op, size, r, rep),
        _ => perform_one(regs, bus, ia, pc, op, size, place),
    }
}

/// Does an instruction of the MSP430X whose words were fetched. `pc` is behind the instruction word, and PC in the
/// registers is the next address. It makes at most 32 accesses.
#[tactic(auto, unfolding(crate::specs::Extended::extended))]
pub fn perform_extended<B: Bus>(regs: &mut Regs, bus: &mut B, ia: u32, pc: u32, d: &Decoded)
    requires range { IsInRange d.now }
    requires pc { pc < 0x100000 }
    requires room { length (B.part bus.old).accesses ≤ 4 }
    ensures steps { CpuRuns ia (extended d.now pc regs.old)
        (B.part bus.old) regs.new (B.part bus.new) }
    ensures count { AddsAtMost 32 (B.part bus.old) (B.part bus.new) }
{
    match *d {
        Decoded::Two {
            op,
            size,
            from,
            to,
            rep,
            ..
        } => perform_extended_two(regs, bus, ia, pc, op, size, from, to, rep),
        Decoded::One {
            op,
            size,
            place,
            rep,
            ..
        } => perform_extended_one(regs, bus, ia, pc, op, size, place, rep),
        Decoded::Move { from, to } => move_address(regs, bus, ia, pc, from, to),
        Decoded::Addr { op, from, to } => compute_address(regs, bus, ia, pc, op, from, to),
        Decoded::Shift {
            op,
            size,
            count,
            reg,
        } => shift(regs, op, size, count, reg),
        Decoded::PushMany { size, count, reg } => push_many(regs, bus, ia, size, count, reg),
        Decoded::PopMany { size, count, reg } => pop_many(regs, bus, ia, size, count, reg),
        Decoded::CallA { to } => call_address(regs, bus, ia, pc, to),
        Decoded::Reserved | Decoded::Reti | Decoded::Jump { .. } => {}
    }
}
