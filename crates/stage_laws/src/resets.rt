ghost use Rattle.stage_laws.specs.Resets.{PrivateTicksEndAlike, PublicPartsAreLeft, PublicTicksEndAlike};

/// In private phase the reset behind the turn, and the way out that the items tell, leave equal what is public, and show
/// the same.
#[tactic(auto, using(crate::proofs::Resetting::private_ticks_end_alike))]
pub fn private_ticks_end_alike()
    ensures { PrivateTicksEndAlike }
{}

/// Equal public parts are equal in all that a turn in private phase leaves equal, so the reset behind a turn of DMA in
/// private phase is told too.
#[tactic(auto, using(crate::proofs::Resetting::public_parts_are_left))]
pub fn public_parts_are_left()
    ensures { PublicPartsAreLeft }
{}

/// In public phase the reset behind the turn leaves equal what is public, and shows the same.
pub fn public_ticks_end_alike()
    ensures { PublicTicksEndAlike }
{}
