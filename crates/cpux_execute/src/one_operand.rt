ghost use Rattle.std.specs.Prelude.{◌≡◌, ◌*◌, ◌<◌, length};
ghost use Rattle.chip_words.specs.Sizes.{span};
ghost use Rattle.cpux_decode.specs.Ranges.{IsPlace};
ghost use Rattle.cpux_alu.specs.Operations.{GivesResult};
ghost use Rattle.cpux_execute.specs.Execution.{one_operand};
ghost use Rattle.cpux_execute.specs.Operands.{accesses_of};
ghost use Rattle.cpux_execute.specs.OneOperand.{below as below_of, call as call_of, changed, lowered, kept, push as push_of, pushed, put_down as put_down_of, return_from_interrupt as return_of, width_of};
ghost use Rattle.cpux_execute.specs.Steps.{AddsAtMost, CpuRuns};

use crate::operands::{above, address, before, flag, increase, read_source, store};
use chip_words::{Agent, Bus, Regs, Size, wrap20};
use cpux_alu::one;
use cpux_decode::{Op1, PC, Place, SP, SR};

/// The width at which an operation of one operand computes: that of its operand, but SXT is 20 bits wide in a register.
#[tactic(auto, unfolding(crate::specs::OneOperand::width_of))]
pub fn width(op: Op1, size: Size, place: Place) -> Size
    ensures { result ≡ width_of op size place }
{
    match (op, place) {
        (Op1::Sxt, Place::Reg(_)) => Size::Addr,
        _ => size,
    }
}

/// SP behind a push: 2 bytes lower, or 4 for 20 bits, modulo 2^20.
#[tactic(auto, unfolding(crate::specs::OneOperand::below))]
pub fn below(size: Size, sp: u32) -> u32
    requires { sp < 0x100000 }
    ensures value { result ≡ below_of size sp }
    ensures small { result < 0x100000 }
{
    match size {
        Size::Byte | Size::Word => before(sp),
        Size::Addr => before(before(sp)),
    }
}

/// Lowers SP for a value.
fn lower(regs: &mut Regs, size: Size)
    ensures { regs.new ≡ lowered size regs.old }
{
    let sp = below(size, regs.get(SP));
    regs.set(SP, sp);
}

/// What a width keeps of a value: its lower 8, 16 or 20 bits.
pub fn keep(size: Size, value: u32) -> u32
    ensures value { result ≡ kept size value }
    ensures fits { result < span size }
{
    match size {
        Size::Byte => value & 0xFF,
        Size::Word => value & 0xFFFF,
        Size::Addr => value & 0xFFFFF,
    }
}

/// Writes a value in memory for the instruction at `ia`, as a push does it: a byte, a word, or the two words of 20 bits
/// with the higher one first.
#[tactic(auto, unfolding(crate::specs::OneOperand::put_down))]
pub fn put_down<B: Bus>(bus: &mut B, ia: u32, at: u32, size: Size, value: u32)
    requires at { at < 0x100000 }
    requires fits { value < span size }
    requires room { length (B.part bus.old).accesses < 63 }
    ensures steps { CpuRuns ia (put_down_of at size value) (B.part bus.old) tt (B.part bus.new) }
    ensures count { AddsAtMost (accesses_of size) (B.part bus.old) (B.part bus.new) }
{
    let who = Agent::Cpu(ia);
    match size {
        Size::Byte | Size::Word => bus.write(who, at, size, value),
        Size::Addr => {
            bus.write(who, above(at), Size::Word, value >> 16);
            bus.write(who, at, Size::Word, value & 0xFFFF);
        }
    }
}

/// Lowers SP by 2, or by 4 for 20 bits, and writes a value there for the instruction at `ia`.
#[tactic(auto, using(chip_words::proofs::Runs::run_then), unfolding(crate::specs::OneOperand::pushed))]
pub fn push_value<B: Bus>(regs: &mut Regs, bus: &mut B, ia: u32, size: Size, value: u32)
    requires fits { value < span size }
    requires room { length (B.part bus.old).accesses < 63 }
    ensures steps { CpuRuns ia (pushed size value (lowered size regs.old))
        (B.part bus.old) regs.new (B.part bus.new) }
    ensures count { AddsAtMost (accesses_of size) (B.part bus.old) (B.part bus.new) }
{
    lower(regs, size);
    put_down(bus, ia, regs.get(SP), size, value);
}

/// Does PUSH. `pc` is behind the instruction word.
#[tactic(auto, using(chip_words::proofs::Runs::run_then), unfolding(crate::specs::OneOperand::push))]
fn push<B: Bus>(regs: &mut Regs, bus: &mut B, ia: u32, pc: u32, size: Size, place: Place)
    requires place { IsPlace place }
    requires pc { pc < 0x100000 }
    requires room { length (B.part bus.old).accesses < 61 }
    ensures steps { CpuRuns ia (push_of size place pc regs.old)
        (B.part bus.old) regs.new (B.part bus.new) }
    ensures count { AddsAtMost (2 * accesses_of size) (B.part bus.old) (B.part bus.new) }
{
    let value = read_source(regs, bus, ia, pc, size, place);
    increase(regs, size, place);
    push_value(regs, bus, ia, size, keep(size, value));
}

/// Does CALL. `pc` is behind the instruction word, and PC in the registers is the next address.
#[tactic(auto, using(chip_words::proofs::Runs::run_then), unfolding(crate::specs::OneOperand::call))]
fn call<B: Bus>(regs: &mut Regs, bus: &mut B, ia: u32, pc: u32, place: Place)
    requires place { IsPlace place }
    requires pc { pc < 0x100000 }
    requires room { length (B.part bus.old).accesses < 61 }
    ensures steps { CpuRuns ia (call_of place pc regs.old)
        (B.part bus.old) regs.new (B.part bus.new) }
    ensures count { AddsAtMost 2 (B.part bus.old) (B.part bus.new) }
{
    let next = regs.get(PC);
    let target = read_source(regs, bus, ia, pc, Size::Word, place);
    increase(regs, Size::Word, place);
    push_value(regs, bus, ia, Size::Word, keep(Size::Word, next));
    regs.set(PC, keep(Size::Word, target));
}

/// Does RETI.
#[tactic(auto, unfolding(crate::specs::OneOperand::return_from_interrupt))]
pub fn return_from_interrupt<B: Bus>(regs: &mut Regs, bus: &mut B, ia: u32)
    requires room { length (B.part bus.old).accesses < 62 }
    ensures steps { CpuRuns ia (return_of regs.old) (B.part bus.old) regs.new (B.part bus.new) }
    ensures count { AddsAtMost 2 (B.part bus.old) (B.part bus.new) }
{
    let who = Agent::Cpu(ia);
    let sp = regs.get(SP);
    let status = bus.read(who, sp, Size::Word);
    let low = bus.read(who, above(sp), Size::Word);
    regs.set(SP, wrap20(sp as u64 + 4));
    regs.set(SR, status);
    regs.set(PC, status / 0x1000 * 0x10000 + low);
}

/// Does RRC, SWPB, RRA or SXT. `pc` is behind the instruction word.
#[tactic(auto, using(chip_words::proofs::Runs::run_then), unfolding(crate::specs::OneOperand::changed))]
fn change<B: Bus>(regs: &mut Regs, bus: &mut B, ia: u32, pc: u32, op: Op1, size: Size, place: Place)
    requires operation { GivesResult op }
    requires place { IsPlace place }
    requires pc { pc < 0x100000 }
    requires room { length (B.part bus.old).accesses < 61 }
    ensures steps { CpuRuns ia (changed op size place pc regs.old)
        (B.part bus.old) regs.new (B.part bus.new) }
    ensures count { AddsAtMost (2 * accesses_of size) (B.part bus.old) (B.part bus.new) }
{
    let sr = regs.get(SR) as u16;
    let at = address(regs, pc, place);
    let x = read_source(regs, bus, ia, pc, size, place);
    increase(regs, size, place);
    let (value, status) = one(op, width(op, size, place), x, sr);
    store(regs, bus, ia, at, size, place, value);
    flag(regs, true, place, status);
}

/// Does an instruction of one operand whose words were fetched, at any width: RRC, SWPB, RRA, SXT, PUSH or CALL.
///
/// `ia` is the address of its first word, and `pc` that behind the instruction word. PC in the registers is the next
/// address. CALL has 16 bits at each width. It makes at most two accesses of bytes or words, and four for 20 bits.
#[tactic(auto, unfolding(crate::specs::Execution::one_operand))]
pub fn perform_one<B: Bus>(
    regs: &mut Regs,
    bus: &mut B,
    ia: u32,
    pc: u32,
    op: Op1,
    size: Size,
    place: Place,
)
    requires place { IsPlace place }
    requires pc { pc < 0x100000 }
    requires room { length (B.part bus.old).accesses < 61 }
    ensures steps { CpuRuns ia (one_operand op size place pc regs.old)
        (B.part bus.old) regs.new (B.part bus.new) }
    ensures count { AddsAtMost (2 * accesses_of size) (B.part bus.old) (B.part bus.new) }
{
    match op {
        Op1::Push => push(regs, bus, ia, pc, size, place),
        Op1::Call => call(regs, bus, ia, pc, place),
        Op1::Rrc | Op1::Swpb | Op1::Rra | Op1::Sxt => {
            change(regs, bus, ia, pc, op, size, place);
        }
    }
}
