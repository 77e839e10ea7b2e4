//! The instructions of the MSP430 over any bus: their accesses, the registers that they leave, and their cycles.
//!
//! Operands are read, written and pushed at each width, so that the instructions of 20 bits are made of the same parts.
#![tactic(auto)]

ghost use Rattle.std.specs.Prelude.{◌≡◌, ℕ, ◌<◌, ◌≤◌, length};
ghost use Rattle.cpux_decode.specs.Ranges.{IsInRange};
ghost use Rattle.cycle_table.specs.Cycles.{IsInstruction, cycles_of};
ghost use Rattle.cpux_execute.specs.Execution.{IsShort, executed, performed};
ghost use Rattle.cpux_execute.specs.Steps.{AddsAtMost, CpuRuns, CpuSteps};

use chip_words::{Bus, Regs};
use cpux_decode::{Decoded, PC, SR};
use cycle_table::cycles;

mod jumps;
mod one_operand;
mod operands;
mod outcomes;
mod two_operands;

pub use one_operand::{below, keep, perform_one, push_value, put_down, width};
pub use operands::{
    above, address, before, flag, increase, load, put, read_source, read_target, register, store,
};
pub use outcomes::Outcome;
pub use two_operands::perform_two;

/// Does an instruction whose words were fetched. `pc` is behind its first word, and PC in the registers is the next
/// address. A reserved word does nothing.
#[inline(always)]
#[tactic(auto, unfolding(crate::specs::Execution::performed))]
fn perform<B: Bus>(regs: &mut Regs, bus: &mut B, ia: u32, pc: u32, d: &Decoded)
    requires row { IsShort d.now }
    requires range { IsInRange d.now }
    requires pc { pc < 0x100000 }
    requires room { length (B.part bus.old).accesses ≤ 4 }
    ensures steps { CpuRuns ia (performed d.now pc regs.old)
        (B.part bus.old) regs.new (B.part bus.new) }
    ensures count { AddsAtMost 3 (B.part bus.old) (B.part bus.new) }
{
    match *d {
        Decoded::Reserved => {}
        Decoded::Reti => one_operand::return_from_interrupt(regs, bus, ia),
        Decoded::Two {
            op,
            size,
            from,
            to,
            ..
        } => perform_two(regs, bus, ia, pc, op, size, from, to),
        Decoded::One {
            op,
            size,
            place,
            ..
        } => perform_one(regs, bus, ia, pc, op, size, place),
        Decoded::Jump { cond, offset } => {
            let address = jumps::jump(cond, offset, regs.get(SR) as u16, regs.get(PC));
            regs.set(PC, address);
        }
        _ => unreachable!(),
    }
}

/// Does an instruction of the MSP430 whose words were fetched and whose cycles are known, and says that it took them.
///
/// The cycles are those without waits. `ia` is the address of its first word, and `next` that behind its words, to which
/// PC is set first. It makes at most three accesses.
#[inline(always)]
#[tactic(auto, using(chip_words::proofs::Runs::run_then), unfolding(crate::specs::Execution::executed))]
pub fn execute_timed<B: Bus>(
    regs: &mut Regs,
    bus: &mut B,
    ia: u32,
    next: u32,
    d: &Decoded,
    cycles: u32,
) -> Outcome
    requires row { IsShort d.now }
    requires instruction { IsInstruction d.now }
    requires range { IsInRange d.now }
    requires place { ia < 0x100000 }
    requires next { next < 0x100000 }
    requires cycles { cycles ≡ cycles_of d.now 1 0 }
    requires room { length (B.part bus.old).accesses ≤ 4 }
    ensures steps { CpuSteps ia (executed d.now ia next regs.old)
        (B.part bus.old) regs.new result (B.part bus.new) }
    ensures count { AddsAtMost 3 (B.part bus.old) (B.part bus.new) }
    ensures cycles { result ≡ Outcome.Cycles cycles }
{
    regs.set(PC, next);
    perform(regs, bus, ia, above(ia), d);
    Outcome::Cycles(cycles)
}

/// Does an instruction of the MSP430 whose words were fetched, and says how it ended.
///
/// `ia` is the address of its first word, and `next` that behind its words, to which PC is set first. It makes at most
/// three accesses. A reserved word leaves the registers, PC too, and makes none.
#[tactic(auto, unfolding(crate::specs::Execution::executed))]
pub fn execute<B: Bus>(regs: &mut Regs, bus: &mut B, ia: u32, next: u32, d: &Decoded) -> Outcome
    requires row { IsShort d.now }
    requires range { IsInRange d.now }
    requires place { ia < 0x100000 }
    requires next { next < 0x100000 }
    requires room { length (B.part bus.old).accesses ≤ 4 }
    ensures steps { CpuSteps ia (executed d.now ia next regs.old)
        (B.part bus.old) regs.new result (B.part bus.new) }
    ensures count { AddsAtMost 3 (B.part bus.old) (B.part bus.new) }
    ensures cycles { (n : ℕ) → result ≡ Outcome.Cycles n → 1 ≤ n }
{
    if let Decoded::Reserved = *d {
        return Outcome::Reserved;
    }
    execute_timed(regs, bus, ia, next, d, cycles(d, 1, 0))
}
