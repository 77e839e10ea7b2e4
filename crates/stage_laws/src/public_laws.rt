ghost use Rattle.stage_laws.specs.Beginnings.{BeginningsSeePublic};
ghost use Rattle.stage_laws.specs.BootSteps.{BootStepsSeePublic};
ghost use Rattle.stage_laws.specs.Openings.{IntervalsTellAll};
ghost use Rattle.stage_laws.specs.PublicTurns.{PublicTurnsSeePublic};
ghost use Rattle.stage_laws.specs.Transfers.{TransfersSeePublic};

/// Power, the stimulus and the timers of a tick go by what is public alone, and show and change the same in two chips of
/// which the same is public, whatever the bench brings: no command of the debugger reaches a byte of the seal, or a
/// register in private phase.
pub fn beginnings_see_public()
    ensures { BeginningsSeePublic }
{}

/// In public phase the processor's turn goes by what is public alone, and shows and changes the same in two chips of
/// which the same is public. Registers and busy cycles are equal behind it too, also where the phase became private.
pub fn public_turns_see_public()
    ensures { PublicTurnsSeePublic }
{}

/// A tick that DMA owns goes by what is public alone, and shows and changes the same in two chips of which the same is
/// public, also where the phase is private: no transfer reaches a byte of the seal.
pub fn transfers_see_public()
    ensures { TransfersSeePublic }
{}

/// A step of the boot goes by what is public and by what its items tell: the word of a structure that it reads, and the
/// bytes that stay secret no longer behind the end of the boot.
pub fn boot_steps_see_public()
    ensures { BootStepsSeePublic }
{}

/// The intervals of the addresses that stay secret no longer leave none of them out: equal bytes in each interval are
/// equal bytes at each address that is opened.
pub fn intervals_tell_all()
    ensures { IntervalsTellAll }
{}
