ghost use Rattle.std.specs.Prelude.{◌≡◌, ◌*◌, ◌<◌, ℕ, length};
ghost use Rattle.chip_words.specs.Script.{Return};
ghost use Rattle.chip_words.specs.Sizes.{span};
ghost use Rattle.cpux_decode.specs.Ranges.{IsDestination, IsPlace};
ghost use Rattle.cpux_execute.specs.Operands.{accesses_of};
ghost use Rattle.cpux_execute.specs.Steps.{AddsAtMost, CpuRuns};
ghost use Rattle.cpux_execute.specs.TwoOperands.{two_operands, two_rest, two_store, two_target};

use crate::operands::{address, before, flag, increase, read_source, read_target, store};
use chip_words::{Bus, Regs, Size};
use cpux_alu::two;
use cpux_decode::{Op2, PC, Place, SR};

/// Reads the destination, unless the operation doesn't.
#[inline(always)]
#[tactic(auto, unfolding(crate::specs::TwoOperands::two_target))]
fn read_destination<B: Bus>(
    regs: &Regs,
    bus: &mut B,
    ia: u32,
    op: Op2,
    size: Size,
    at: u32,
    to: Place,
) -> u32
    requires place { IsDestination to }
    requires at { at < 0x100000 }
    requires room { length (B.part bus.old).accesses < 63 }
    ensures steps { CpuRuns ia (two_target op size regs.now at to)
        (B.part bus.old) result (B.part bus.new) }
    ensures count { AddsAtMost (accesses_of size) (B.part bus.old) (B.part bus.new) }
{
    if op.reads_destination() {
        read_target(regs, bus, ia, at, size, to)
    } else {
        0
    }
}

/// Writes the result, unless the operation doesn't.
#[inline(always)]
#[tactic(auto, unfolding(crate::specs::TwoOperands::two_store))]
fn write_destination<B: Bus>(
    regs: &mut Regs,
    bus: &mut B,
    ia: u32,
    op: Op2,
    size: Size,
    at: u32,
    to: Place,
    value: u32,
)
    requires place { IsDestination to }
    requires at { at < 0x100000 }
    requires fits { value < span size }
    requires room { length (B.part bus.old).accesses < 63 }
    ensures steps { CpuRuns ia (two_store op size regs.old at to value)
        (B.part bus.old) regs.new (B.part bus.new) }
    ensures count { AddsAtMost (accesses_of size) (B.part bus.old) (B.part bus.new) }
{
    if op.writes_destination() {
        store(regs, bus, ia, at, size, to, value);
    }
}

/// What follows the source: the destination at an address, the result and the flags.
#[inline(always)]
#[tactic(auto, using(chip_words::proofs::Runs::run_then))]
fn finish<B: Bus>(
    regs: &mut Regs,
    bus: &mut B,
    ia: u32,
    op: Op2,
    size: Size,
    to: Place,
    at: u32,
    status: u16,
    source: u32,
)
    requires place { IsDestination to }
    requires at { at < 0x100000 }
    requires room { length (B.part bus.old).accesses < 61 }
    ensures steps { CpuRuns ia (two_rest op size to at status source regs.old)
        (B.part bus.old) regs.new (B.part bus.new) }
    ensures count { AddsAtMost (2 * accesses_of size) (B.part bus.old) (B.part bus.new) }
{
    let target = read_destination(regs, bus, ia, op, size, at, to);
    let (value, after) = two(op, size, source, target, status);
    write_destination(regs, bus, ia, op, size, at, to, value);
    flag(regs, op.writes_destination(), to, after);
}

/// What follows the source where the destination is a register: as `finish`, but it makes no access.
///
/// Most instructions have such a destination. For them no address is worked out, and what is done with the place isn't
/// asked anew at each part.
#[inline(always)]
#[tactic(auto, unfolding(crate::specs::TwoOperands::two_target, crate::specs::TwoOperands::two_store, crate::specs::Operands::target, crate::specs::Operands::stored_to))]
fn finish_in_register(regs: &mut Regs, op: Op2, size: Size, r: u8, status: u16, source: u32)
    requires { r < 16 }
    ensures { (at : ℕ) → two_rest op size (Place.Reg r) at status source regs.old ≡ Return regs.new }
{
    let target = if op.reads_destination() {
        regs.get(r)
    } else {
        0
    };
    let (value, after) = two(op, size, source, target, status);
    let written = op.writes_destination();
    if written {
        regs.set(r, value);
    }
    flag(regs, written, Place::Reg(r), after);
}

/// Does an instruction of two operands whose words were fetched, at any width.
///
/// `ia` is the address of its first word, and `pc` that behind the instruction word. PC in the registers is the next
/// address. It makes at most three accesses of bytes or words, and six for 20 bits.
#[inline(always)]
#[tactic(auto, using(chip_words::proofs::Runs::run_then), unfolding(crate::specs::TwoOperands::two_operands))]
pub fn perform_two<B: Bus>(
    regs: &mut Regs,
    bus: &mut B,
    ia: u32,
    pc: u32,
    op: Op2,
    size: Size,
    from: Place,
    to: Place,
)
    requires from { IsPlace from }
    requires to { IsDestination to }
    requires pc { pc < 0x100000 }
    requires room { length (B.part bus.old).accesses < 59 }
    ensures steps { CpuRuns ia (two_operands op size from to pc regs.old)
        (B.part bus.old) regs.new (B.part bus.new) }
    ensures count { AddsAtMost (3 * accesses_of size) (B.part bus.old) (B.part bus.new) }
{
    let status = regs.get(SR) as u16;
    let next = regs.get(PC);
    let source = read_source(regs, bus, ia, pc, size, from);
    increase(regs, size, from);
    if let Place::Reg(r) = to {
        finish_in_register(regs, op, size, r, status, source);
    } else {
        let at = address(regs, before(next), to);
        finish(regs, bus, ia, op, size, to, at, status, source);
    }
}
