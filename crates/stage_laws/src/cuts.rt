ghost use Rattle.stage_laws.specs.Cuts.{CutTurnsAgree, CutsEndAlike, PublicPartsLast};

/// In a tick that is cut a turn of the processor in private phase does to what outlasts what the items of the tick tell:
/// where they are equal, it leaves equal what was equal.
pub fn cut_turns_agree()
    ensures { CutTurnsAgree }
{}

/// What outlasts a cut decides what is public behind it, whoever owned the bus.
pub fn cuts_end_alike()
    ensures { CutsEndAlike }
{}

/// Equal public parts are equal in what outlasts a cut, so a cut behind a turn that leaves them equal is told too.
#[tactic(auto, using(crate::proofs::Cutting::public_parts_last))]
pub fn public_parts_last()
    ensures { PublicPartsLast }
{}
