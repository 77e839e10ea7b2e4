ghost use Rattle.std.specs.Prelude.{◌≡◌, []};
ghost use Rattle.chip_words.specs.Script.{run};
ghost use Rattle.dma_unit.specs.Moves.{IsMove, transfer};

use crate::transfers::Move;
use chip_words::{Agent, Bus, Size};

/// Makes the two accesses of a transfer: the read, and the write of what was read.
#[tactic(auto, unfolding(crate::specs::Moves::transfer))]
pub fn make<B: Bus>(step: Move, bus: &mut B)
    requires empty { (B.part bus.old).accesses ≡ [] }
    requires range { IsMove step }
    ensures { B.part bus.new ≡ (run Agent.Dma (transfer step) (B.part bus.old)).part }
{
    let value = bus.read(Agent::Dma, step.from, step.read);
    let written = match step.write {
        Size::Byte => value & 0xFF,
        Size::Word | Size::Addr => value,
    };
    bus.write(Agent::Dma, step.to, step.write, written);
}
