ghost use Rattle.std.specs.Prelude.{◌≡◌, ◌<◌, ◌≤◌, length};
ghost use Rattle.cpux_decode.specs.Ranges.{IsDestination, IsPlace};
ghost use Rattle.cpux_execute.specs.Steps.{AddsAtMost, CpuRuns};
ghost use Rattle.cpux_extended.specs.AddressInstructions.{addressed, computed, moved, shifted, writes_result as writes_result_of};

use chip_words::{Bus, Regs, Size};
use cpux_alu::{addr, shift_many};
use cpux_decode::{OpA, OpS, PC, Place, SR};
use cpux_execute::{address, before, flag, increase, read_source, store};

/// Does MOVA. `pc` is behind its first word, and PC in the registers is the next address.
#[tactic(auto, using(chip_words::proofs::Runs::run_then), unfolding(crate::specs::AddressInstructions::moved))]
pub fn move_address<B: Bus>(regs: &mut Regs, bus: &mut B, ia: u32, pc: u32, from: Place, to: Place)
    requires from { IsPlace from }
    requires to { IsDestination to }
    requires pc { pc < 0x100000 }
    requires room { length (B.part bus.old).accesses ≤ 4 }
    ensures steps { CpuRuns ia (moved from to pc regs.old)
        (B.part bus.old) regs.new (B.part bus.new) }
    ensures count { AddsAtMost 4 (B.part bus.old) (B.part bus.new) }
{
    let next = regs.get(PC);
    let value = read_source(regs, bus, ia, pc, Size::Addr, from);
    increase(regs, Size::Addr, from);
    let at = address(regs, before(next), to);
    store(regs, bus, ia, at, Size::Addr, to, value);
}

/// Says whether an operation writes its result.
#[tactic(auto, unfolding(crate::specs::AddressInstructions::writes_result))]
fn writes_result(op: OpA) -> bool
    ensures { result ≡ writes_result_of op }
{
    !matches!(op, OpA::Cmp)
}

/// Does CMPA, ADDA or SUBA with the value of its source.
#[tactic(auto, unfolding(crate::specs::AddressInstructions::computed))]
fn compute(regs: &mut Regs, op: OpA, source: u32, to: u8)
    requires { to < 16 }
    ensures { regs.new ≡ computed op source to regs.old }
{
    let (value, after) = addr(op, source, regs.get(to), regs.get(SR) as u16);
    if writes_result(op) {
        regs.set(to, value);
    }
    flag(regs, writes_result(op), Place::Reg(to), after);
}

/// Does CMPA, ADDA or SUBA. `pc` is behind its first word.
#[tactic(auto, using(chip_words::proofs::Runs::run_then), unfolding(crate::specs::AddressInstructions::addressed))]
pub fn compute_address<B: Bus>(
    regs: &mut Regs,
    bus: &mut B,
    ia: u32,
    pc: u32,
    op: OpA,
    from: Place,
    to: u8,
)
    requires from { IsPlace from }
    requires to { to < 16 }
    requires pc { pc < 0x100000 }
    requires room { length (B.part bus.old).accesses ≤ 4 }
    ensures steps { CpuRuns ia (addressed op from to pc regs.old)
        (B.part bus.old) regs.new (B.part bus.new) }
    ensures count { AddsAtMost 2 (B.part bus.old) (B.part bus.new) }
{
    let source = read_source(regs, bus, ia, pc, Size::Addr, from);
    compute(regs, op, source, to);
}

/// Does RRCM, RRAM, RLAM or RRUM.
#[tactic(auto, unfolding(crate::specs::AddressInstructions::shifted))]
pub fn shift(regs: &mut Regs, op: OpS, size: Size, count: u8, r: u8)
    requires count { 1 ≤ count }
    requires register { r < 16 }
    ensures { regs.new ≡ shifted op size count r regs.old }
{
    let (value, after) = shift_many(op, size, count, regs.get(r), regs.get(SR) as u16);
    regs.set(r, value);
    flag(regs, true, Place::Reg(r), after);
}
