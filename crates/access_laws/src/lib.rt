//! Laws of accesses and of steps around a seal, from their definitions alone: what code outside the seal sees and
//! changes, what code inside it does to the rest of the chip, and what of that its releases tell.
//!
//! The contract of each function is a law. The functions do nothing.
#![tactic(auto)]

ghost use Rattle.access_laws.specs.Boots.{BootSeesPublic, OpenedTellsAll};
ghost use Rattle.access_laws.specs.Locality.{InsideIsHidden, InsideSeesPublic, OutsideSeesPublic};
ghost use Rattle.access_laws.specs.Replay.{PrivateStepIsReplayed};
ghost use Rattle.access_laws.specs.Steps.{PublicStepKeepsBytes, PublicStepSeesPublic, StepKeepsSeal};

/// What an access by an entry, DMA, the debugger or code outside the seal answers and changes goes by the public part
/// alone: no byte of the seal reaches it.
#[tactic(auto, using(crate::proofs::Outside::outside_sees_public))]
pub fn outside_sees_public()
    ensures { OutsideSeesPublic }
{}

/// What an access by an entry or by code inside the seal to an address outside it answers and changes goes by the
/// public part alone, wherever in the seal the code stands.
#[tactic(auto, using(crate::proofs::Inside::inside_sees_public))]
pub fn inside_sees_public()
    ensures { InsideSeesPublic }
{}

/// An access by an entry or by code inside the seal to an address of the seal changes nothing that is public.
#[tactic(auto, using(crate::proofs::Inside::inside_is_hidden))]
pub fn inside_is_hidden()
    ensures { InsideIsHidden }
{}

/// A step from inside the seal changes of the public part what its released accesses change where they are made again.
#[tactic(auto, using(crate::proofs::Replaying::private_step_is_replayed))]
pub fn private_step_is_replayed()
    ensures { PrivateStepIsReplayed }
{}

/// What a step from outside the seal ends in, which accesses it makes and what it changes go by the public part alone.
#[tactic(auto, using(crate::proofs::Stepping::public_step_sees_public))]
pub fn public_step_sees_public()
    ensures { PublicStepSeesPublic }
{}

/// A step from outside the seal, by code there, an entry, DMA or the debugger, leaves each byte of the seal as it was.
#[tactic(auto, using(crate::proofs::Guarding::public_step_keeps_bytes))]
pub fn public_step_keeps_bytes()
    ensures { PublicStepKeepsBytes }
{}

/// With power on and the boot done no step makes the addresses that stay secret others than those of the seal.
#[tactic(auto, using(crate::proofs::Settling::step_keeps_seal))]
pub fn step_keeps_seal()
    ensures { StepKeepsSeal }
{}

/// What an access of the boot changes goes by the public part alone, and so does its answer where it isn't one of the
/// bytes that stay secret.
pub fn boot_sees_public()
    ensures { BootSeesPublic }
{}

/// Where other addresses stay secret, what was shown and the bytes that are opened tell all that is shown then.
#[tactic(auto, using(crate::proofs::Opening::opened_tells_all))]
pub fn opened_tells_all()
    ensures { OpenedTellsAll }
{}
