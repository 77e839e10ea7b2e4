//! How many cycles an instruction takes.
#![tactic(auto)]

ghost use Rattle.std.specs.Prelude.{◌≡◌, ◌+◌, ◌≤◌};
ghost use Rattle.cpux_decode.specs.Ranges.{IsInRange};
ghost use Rattle.cycle_table.specs.Cycles.{IsInstruction, cycles_of, instruction_cycles as instruction_cycles_of};

mod addresses;
mod operands;
#[cfg(test)]
mod tests;

use addresses::{addr_cycles, calla_cycles, many_cycles, move_cycles};
use cpux_decode::Decoded;
use operands::{one_cycles, two_cycles};

/// The cycles of an instruction.
///
/// `reps` is how many times it is done, 1 to 16, and counts where it stands behind an extension word with register
/// operands. `waits` is the sum of all waits for memory.
#[inline(always)]
#[tactic(auto, unfolding(crate::specs::Cycles::cycles_of))]
pub fn cycles(d: &Decoded, reps: u32, waits: u32) -> u32
    requires instruction { IsInstruction d.now }
    requires reps_low { 1 ≤ reps }
    requires reps_high { reps ≤ 16 }
    requires waits { waits ≤ 1000 }
    ensures cycles { result ≡ cycles_of d.now reps waits }
    ensures least { IsInRange d.now → 1 ≤ result }
    ensures most { IsInRange d.now → result ≤ 34 + waits }
{
    instruction_cycles(d, reps) + waits
}

/// The cycles of an instruction without waits.
#[inline(always)]
#[tactic(auto, unfolding(crate::specs::Cycles::instruction_cycles))]
fn instruction_cycles(d: &Decoded, reps: u32) -> u32
    requires instruction { IsInstruction d.now }
    requires reps_low { 1 ≤ reps }
    requires reps_high { reps ≤ 16 }
    ensures cycles { result ≡ instruction_cycles_of d.now reps }
    ensures least { IsInRange d.now → 1 ≤ result }
    ensures most { IsInRange d.now → result ≤ 34 }
    ensures any { result ≤ 512 }
{
    match *d {
        Decoded::Reserved => unreachable!(),
        Decoded::Reti => 5,
        Decoded::Two {
            op,
            size,
            from,
            to,
            long,
            ..
        } => two_cycles(op, size, from, to, long, reps),
        Decoded::One {
            op,
            size,
            place,
            long,
            ..
        } => one_cycles(op, size, place, long, reps),
        Decoded::Jump { .. } => 2,
        Decoded::Move { from, to } => move_cycles(from, to),
        Decoded::Addr { op, from, to } => addr_cycles(op, from, to),
        Decoded::Shift { count, .. } => count as u32,
        Decoded::PushMany { size, count, .. } | Decoded::PopMany { size, count, .. } => {
            many_cycles(size, count)
        }
        Decoded::CallA { to } => calla_cycles(to),
    }
}
