ghost use Rattle.std.specs.Prelude.{◌≡◌, ◌<◌, ◌≤◌};
ghost use Rattle.arrayvec.specs.ArrayVec.{array_vec_len};
ghost use Rattle.chip_words.specs.Script.{run};
ghost use Rattle.debug_port.specs.Commands.{CommandRuns, IsAnswer, IsCommand, bytes_from, carried_out, most_bytes, needs_halt as needs_halt_of, refusal_of, run_of};

use crate::answers::{Answer, Dump};
use crate::commands::Command;
use crate::states::{Debug, DebugView};
use arrayvec::ArrayVec;
use chip_words::{Agent, Bus, Regs, Size, wrap20};

/// Carries out a command of the debugger, or refuses it.
///
/// After a refusal nothing has changed. A write is accepted also where the chip refuses the access, or its power is cut
/// before it. A halt, a reset and an erase are only asked for: the chip does them.
#[tactic(auto, unfolding(crate::specs::Commands::commanded))]
pub fn command<B: Bus>(
    d: &mut Debug,
    c: &Command,
    view: DebugView,
    regs: &mut Regs,
    bus: &mut B,
) -> Answer
    requires range { IsCommand c.now }
    ensures answer { result ≡ (run_of c.now view d.old regs.old (B.part bus.old)).value.answer }
    ensures debug { d.new ≡ (run_of c.now view d.old regs.old (B.part bus.old)).value.debug }
    ensures registers { regs.new
        ≡ (run_of c.now view d.old regs.old (B.part bus.old)).value.registers }
    ensures part { B.part bus.new ≡ (run_of c.now view d.old regs.old (B.part bus.old)).part }
    ensures fits { IsAnswer result }
{
    match refusal(c, view, d) {
        Some(refused) => refused,
        None => carry_out(d, *c, regs, bus),
    }
}

/// Why a command is refused, if it is: the first cause decides.
fn refusal(c: &Command, view: DebugView, d: &Debug) -> Option<Answer>
    ensures { result ≡ refusal_of c.now view d.now }
{
    if !view.up {
        Some(Answer::Booting)
    } else if view.closed {
        Some(Answer::Closed)
    } else if needs_halt(c) && !d.halted {
        Some(Answer::Running)
    } else {
        None
    }
}

/// Whether a command is for a halted processor alone.
fn needs_halt(c: &Command) -> bool
    ensures { result ≡ needs_halt_of c.now }
{
    matches!(*c, Command::Reg(_) | Command::SetReg(_, _))
}

/// Carries out a command that isn't refused.
#[tactic(auto, using(chip_words::proofs::Runs::run_then))]
fn carry_out<B: Bus>(d: &mut Debug, c: Command, regs: &mut Regs, bus: &mut B) -> Answer
    requires { IsCommand c }
    ensures runs { CommandRuns (carried_out c d.old regs.old) (B.part bus.old)
        result d.new regs.new (B.part bus.new) }
    ensures fits { IsAnswer result }
{
    match c {
        Command::Read(at) => Answer::Value(bus.read(Agent::Debug, at, Size::Word) as u16),
        Command::Write(at, value) => {
            bus.write(Agent::Debug, at, Size::Word, value.into());
            Answer::Accepted
        }
        Command::Dump(at, count) => Answer::Bytes(Dump::new(read_bytes(bus, at, count))),
        Command::Reg(n) => Answer::Register(regs.get(n)),
        Command::SetReg(n, value) => {
            regs.set(n, value);
            Answer::Accepted
        }
        Command::Halt => {
            d.ask_halt();
            Answer::Accepted
        }
        Command::Go => {
            d.go_on();
            Answer::Accepted
        }
        Command::Reset => {
            d.ask_reset();
            Answer::Accepted
        }
        Command::Erase => {
            d.ask_erase();
            Answer::Accepted
        }
    }
}

/// Reads so many bytes, one after another from an address on and modulo 2^20.
#[tactic(auto, using(crate::proofs::ByteRuns::run_bytes, crate::proofs::ByteRuns::run_bytes_part), unfolding(crate::specs::Commands::bytes_from))]
fn read_bytes<B: Bus>(bus: &mut B, at: u32, count: u8) -> ArrayVec<u8, 32>
    requires place { at < 0x100000 }
    requires count { count ≤ most_bytes }
    ensures bytes { result.items ≡ (run Agent.Debug (bytes_from count at) (B.part bus.old)).value }
    ensures part { B.part bus.new ≡ (run Agent.Debug (bytes_from count at) (B.part bus.old)).part }
    ensures few { array_vec_len result ≤ most_bytes }
{
    let mut bytes = ArrayVec::new();
    let mut next = at;
    for _ in 0..count {
        bytes.push(bus.read(Agent::Debug, next, Size::Byte) as u8);
        next = wrap20(next as u64 + 1);
    }
    bytes
}
