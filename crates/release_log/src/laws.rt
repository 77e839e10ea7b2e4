ghost use Rattle.release_log.specs.Boots.{BootInstalls, BootKeepsKept};
ghost use Rattle.release_log.specs.Erasing.{EraseIsAlone};
ghost use Rattle.release_log.specs.Lasting.{SealComesBack, SealLasts};
ghost use Rattle.release_log.specs.Locked.{LockOutlastsSteps};
ghost use Rattle.release_log.specs.Puts.{CutHoldsFirst};
ghost use Rattle.release_log.specs.Registers.{EntriesLeaveRegisters, InstructionsLeaveRegisters};
ghost use Rattle.release_log.specs.RunFacts.{RunKeepsFacts, RunLosesPowerByCuts, TickKeepsFacts};
ghost use Rattle.release_log.specs.Sound.{DebuggerComesFirst, StepsKeepFacts};
ghost use Rattle.release_log.specs.Writes.{StepsHoldFirst, StepsLeaveMissed};

/// Whatever step is made, by whomever, memory keeps its size, fill and budget stay, requests only join and none is
/// below the debugger's, and the kept set keeps its borders and, where it is the seal, stays it. The end of a step
/// keeps all that too, and leaves nothing noted.
#[tactic(auto, using(crate::proofs::Steady::steps_keep_facts))]
pub fn steps_keep_facts()
    ensures { StepsKeepFacts }
{}

/// The debugger's reset is the least cause that is asked for: where it stands it is the one that is taken.
#[tactic(auto, using(crate::proofs::Requests::debugger_comes_first))]
pub fn debugger_comes_first()
    ensures { DebuggerComesFirst }
{}

/// With MPUIPLOCK set no step changes the registers of the encapsulation or the addresses that stay secret, whatever
/// it writes. Its end leaves them, and memory, in any case.
#[tactic(auto, using(crate::proofs::Locked::lock_outlasts_steps))]
pub fn lock_outlasts_steps()
    ensures { LockOutlastsSteps }
{}

/// Whatever its accesses are answered, an instruction leaves registers of their kind: PC is even, SR has nine bits,
/// R3 is 0, and all have 20 bits.
#[tactic(auto, using(crate::proofs::Registers::instructions_leave_registers))]
pub fn instructions_leave_registers()
    ensures { InstructionsLeaveRegisters }
{}

/// So does the entry into an interrupt, by whatever vector.
#[tactic(auto, using(crate::proofs::Registers::entries_leave_registers))]
pub fn entries_leave_registers()
    ensures { EntriesLeaveRegisters }
{}

/// A step of a tick whose power is cut leaves in memory exactly the first of its writes, as many as the budget left,
/// each whole, as far as it was allowed when it was made.
pub fn steps_hold_first()
    ensures { StepsHoldFirst }
{}

/// A step leaves each byte that none of its allowed writes is to.
pub fn steps_leave_missed()
    ensures { StepsLeaveMissed }
{}

/// Each tick keeps what holds of a chip between two ticks, whatever its power is and whatever a bench brings in it.
#[tactic(auto, using(crate::proofs::Kept::tick_keeps_facts))]
pub fn tick_keeps_facts()
    ensures { TickKeepsFacts }
{}

/// So it holds of every chip of a run, whatever the image and the bench are.
#[tactic(auto, using(crate::proofs::Begins::run_keeps_facts))]
pub fn run_keeps_facts()
    ensures { RunKeepsFacts }
{}

/// A tick of a run that is without power finds power off: it was cut before.
#[tactic(auto, using(crate::proofs::Begins::run_loses_power_by_cuts))]
pub fn run_loses_power_by_cuts()
    ensures { RunLosesPowerByCuts }
{}

/// A boot that ends with its pointer saved installs the borders of the structure that stands in FRAM at that
/// pointer, whose check is good; any other boot that ends installs none. What stays secret is the seal then.
#[tactic(auto, using(crate::proofs::Installs::boot_installs))]
pub fn boot_installs()
    ensures { BootInstalls }
{}

/// As long as no boot comes to its end the same bytes stay secret: while a boot goes on, where power is cut in it,
/// even at its last step, and while there is no power.
#[tactic(auto, using(crate::proofs::Stands::boot_keeps_kept))]
pub fn boot_keeps_kept()
    ensures { BootKeepsKept }
{}

/// A tick whose power is cut leaves in FRAM, mark and pointer exactly the first of its writes, as many as the cut says,
/// each whole, as far as it was allowed when it was made: those of the debugger, and then those of the boot, DMA or the
/// processor. SRAM holds the fill.
#[tactic(auto, using(crate::proofs::Shorts::cut_holds_first))]
pub fn cut_holds_first()
    ensures { CutHoldsFirst }
{}

/// From the chip whose mark says that an erase has begun, until one whose FRAM is blank, the boot acts and nothing else
/// does, whatever cuts come: there is no instruction, no entry and no transfer of DMA, and each command of the debugger
/// is answered that the boot isn't done.
pub fn erase_is_alone()
    ensures { EraseIsAlone }
{}

/// An image whose structure lies in the seal that it gives has this seal behind every boot, whatever cuts of power,
/// resets, DMA, commands of the debugger and code from outside come, as long as each step in private phase leaves the
/// structure as it was, and no erase is accepted. At all times the seal's addresses stay secret.
pub fn seal_comes_back()
    ensures { SealComesBack }
{}

/// So it is where the code in private phase never writes its structure: no allowed write of its steps is to one of the
/// eight bytes.
pub fn seal_lasts()
    ensures { SealLasts }
{}
