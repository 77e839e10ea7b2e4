//! The steps of the boot, and the words besides FRAM that outlast a loss of power.

ghost use Rattle.std.specs.Prelude.{◌≡◌};
ghost use Rattle.chip_core.specs.Boot.{acted, at_reset_vector, boot_run, ended_unless_cut, with_borders, with_keep};
ghost use Rattle.chip_core.specs.Turns.{boot_turn};

use crate::chips::Chip;
use boot_code::{Act, Boot, BootStep, Keep};
use chip_words::PC;
use ip_encap::Borders;

/// The word of a vector that was never written.
const NO_VECTOR: u32 = 0xFFFF;

impl Chip {
    /// One step of the boot.
    #[tactic(auto, unfolding(crate::specs::Boot::boot_run, crate::specs::Turns::boot_turn))]
    pub(crate) fn step_boot(&mut self, boot: Boot) -> BootStep
        ensures chip { self.new ≡ boot_turn boot self.old }
        ensures step { result ≡ (boot_run boot self.old).value.step }
    {
        let mut boot = boot;
        self.fabric.begin_step();
        let step = boot_code::step(&mut boot, self.keep, &mut self.fabric);
        self.boot = Some(boot);
        match step {
            BootStep::Going(act) => self.act(act),
            BootStep::Done(borders) => self.end_boot(borders),
        }
        step
    }

    /// Does what a step of the boot asks for.
    fn act(&mut self, act: Act)
        ensures chip { self.new ≡ acted act self.old }
    {
        match act {
            Act::Mark(mark) => self.set_keep(Keep { mark, ..self.keep }),
            Act::Ptr(ptr) => self.set_keep(Keep { ptr, ..self.keep }),
            Act::Nothing | Act::Struct(_, _) | Act::Wipe(_) => {}
        }
    }

    /// Writes mark and pointer, where this write of the tick is present.
    pub(crate) fn set_keep(&mut self, keep: Keep)
        ensures chip { self.new ≡ with_keep keep self.old }
    {
        if self.fabric.number() {
            self.keep = keep;
        }
    }

    /// Ends the boot, unless power is cut in this tick.
    fn end_boot(&mut self, borders: Borders)
        ensures chip { self.new ≡ ended_unless_cut (self.old).bus.budget borders self.old }
    {
        if self.fabric.is_cut() {
            return;
        }
        self.install(borders);
        self.load_vector();
        self.boot = None;
    }

    /// Puts borders into force, whose seal is then what stays secret.
    fn install(&mut self, borders: Borders)
        ensures chip { self.new ≡ with_borders borders self.old }
    {
        self.fabric.encap.install(borders);
        let seal = self.fabric.encap.seal();
        self.fabric.keep(seal);
    }

    /// PC is the reset vector, and where there is none the processor is dead.
    pub(crate) fn load_vector(&mut self)
        ensures chip { self.new ≡ at_reset_vector self.old }
    {
        let vector = self.fabric.reset_vector();
        self.regs.set(PC, vector);
        self.dead = vector == NO_VECTOR;
    }
}
