ghost use Rattle.std.specs.Prelude.{◌≡◌, [], ◌<◌, ◌≤◌, length};
ghost use Rattle.chip_words.specs.Script.{run};
ghost use Rattle.chip_core.specs.Entry.{entry};

use chip_words::{Agent, Bus, PC, Regs, SP, SR, Size};
use cpux_execute::before;

/// SCG0 of SR, which an entry leaves.
const SCG0: u32 = 0x40;

/// Enters the interrupt of a vector: saves PC and SR on the stack, and goes to the vector's word.
#[tactic(auto, unfolding(crate::specs::Entry::entry))]
pub fn enter<B: Bus>(regs: &mut Regs, bus: &mut B, vector: u32)
    requires empty { (B.part bus.old).accesses ≡ [] }
    requires place { vector < 0x100000 }
    ensures registers { regs.new ≡ (run Agent.Entry (entry vector regs.old) (B.part bus.old)).value }
    ensures part { B.part bus.new ≡ (run Agent.Entry (entry vector regs.old) (B.part bus.old)).part }
    ensures count { length (B.part bus.new).accesses ≤ 3 }
{
    let pc = regs.get(PC);
    let status = regs.get(SR);
    let first = before(regs.get(SP));
    let second = before(first);
    bus.write(Agent::Entry, first, Size::Word, pc & 0xFFFF);
    bus.write(
        Agent::Entry,
        second,
        Size::Word,
        status + (pc >> 16) * 0x1000,
    );
    let word = bus.read(Agent::Entry, vector, Size::Word);
    regs.set(SP, second);
    regs.set(SR, status & SCG0);
    regs.set(PC, word);
}
