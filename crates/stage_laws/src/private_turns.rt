ghost use Rattle.stage_laws.specs.PrivateTurns.{PrivateTurnShowsNothing, PrivateTurnsAgree};

/// A turn of the processor in private phase does to what is public what the items of its tick tell: where they are equal,
/// it leaves equal what was equal.
pub fn private_turns_agree()
    ensures { PrivateTurnsAgree }
{}

/// Such a turn gives no line.
#[tactic(auto, using(crate::proofs::PrivateTurning::private_turn_shows_nothing))]
pub fn private_turn_shows_nothing()
    ensures { PrivateTurnShowsNothing }
{}
