ghost use Rattle.std.specs.Prelude.{◌≡◌, ◌*◌, ◌<◌, ◌≤◌, length};
ghost use Rattle.cpux_decode.specs.Ranges.{IsPlace};
ghost use Rattle.cpux_execute.specs.Operands.{accesses_of};
ghost use Rattle.cpux_execute.specs.Steps.{AddsAtMost, CpuRuns};
ghost use Rattle.cpux_extended.specs.Stack.{raised as raised_of, called, popped_many, pushed_many};

use chip_words::{Bus, Regs, Size};
use cpux_decode::{PC, Place, SP};
use cpux_execute::{above, below, increase, keep, load, push_value, put_down, read_source};

/// Does PUSHM: pushes `count` registers, `reg` first and then those below it, numbered modulo 16, for the instruction
/// at `ia` (SLAU367, chapter CPUX, PUSHM).
///
/// PC in the registers is the next address. Each register is pushed as the instruction found it, SP too.
#[tactic(auto, using(crate::proofs::StackRuns::run_pushed), unfolding(crate::specs::Stack::pushed_below))]
pub fn push_many<B: Bus>(regs: &mut Regs, bus: &mut B, ia: u32, size: Size, count: u8, reg: u8)
    requires count { count ≤ 16 }
    requires register { reg < 16 }
    requires room { length (B.part bus.old).accesses ≤ 4 }
    ensures steps { CpuRuns ia (pushed_many size count reg regs.old)
        (B.part bus.old) regs.new (B.part bus.new) }
    ensures count { AddsAtMost (count * accesses_of size) (B.part bus.old) (B.part bus.new) }
{
    let mut sp = regs.get(SP);
    let mut r = reg;
    for _ in 0..count {
        sp = below(size, sp);
        put_down(bus, ia, sp, size, keep(size, regs.get(r)));
        r = (r + 15) % 16;
    }
    regs.set(SP, sp);
}

/// The address behind a value on the stack: 2 bytes higher, or 4 for 20 bits, modulo 2^20.
#[tactic(auto, unfolding(crate::specs::Stack::raised))]
fn raise(size: Size, at: u32) -> u32
    requires { at < 0x100000 }
    ensures value { result ≡ raised_of size at }
    ensures small { result < 0x100000 }
{
    match size {
        Size::Byte | Size::Word => above(at),
        Size::Addr => above(above(at)),
    }
}

/// Does POPM: pops `count` registers, `reg` first and then those above it, numbered modulo 16, for the instruction at
/// `ia` (SLAU367, chapter CPUX, POPM).
///
/// It reads from SP upward whatever is popped into SP, which is set behind the last value at the end.
#[tactic(auto, using(crate::proofs::StackRuns::run_popped), unfolding(crate::specs::Stack::popped_from))]
pub fn pop_many<B: Bus>(regs: &mut Regs, bus: &mut B, ia: u32, size: Size, count: u8, reg: u8)
    requires count { count ≤ 16 }
    requires register { reg < 16 }
    requires room { length (B.part bus.old).accesses ≤ 4 }
    ensures steps { CpuRuns ia (popped_many size count reg regs.old)
        (B.part bus.old) regs.new (B.part bus.new) }
    ensures count { AddsAtMost (count * accesses_of size) (B.part bus.old) (B.part bus.new) }
{
    let mut at = regs.get(SP);
    let mut r = reg;
    for _ in 0..count {
        let value = load(bus, ia, at, size);
        regs.set(r, value);
        at = raise(size, at);
        r = (r + 1) % 16;
    }
    regs.set(SP, at);
}

/// Does CALLA for the instruction at `ia` (SLAU367, chapter CPUX, CALLA). `pc` is behind the instruction word, and PC
/// in the registers is the next address.
///
/// `CALLA @PC+` moves the next address, and pushes what it then is.
#[tactic(auto, using(chip_words::proofs::Runs::run_then), unfolding(crate::specs::Stack::called))]
pub fn call_address<B: Bus>(regs: &mut Regs, bus: &mut B, ia: u32, pc: u32, place: Place)
    requires place { IsPlace place }
    requires pc { pc < 0x100000 }
    requires room { length (B.part bus.old).accesses ≤ 4 }
    ensures steps { CpuRuns ia (called place pc regs.old)
        (B.part bus.old) regs.new (B.part bus.new) }
    ensures count { AddsAtMost 4 (B.part bus.old) (B.part bus.new) }
{
    let target = read_source(regs, bus, ia, pc, Size::Addr, place);
    increase(regs, Size::Addr, place);
    let next = regs.get(PC);
    push_value(regs, bus, ia, Size::Addr, next);
    regs.set(PC, target);
}
