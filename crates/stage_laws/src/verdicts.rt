ghost use Rattle.stage_laws.specs.Verdicts.{VerdictIsDue, VerdictIsOne};

/// Of two images under one bench at most one verdict is due: where two are, they are the same.
#[tactic(auto, using(crate::proofs::Due::verdict_is_one))]
pub fn verdict_is_one()
    ensures { VerdictIsOne }
{}

/// Of two images under one bench a verdict is due, whatever they are.
#[tactic(auto, using(crate::proofs::Deciding::verdict_is_due))]
pub fn verdict_is_due()
    ensures { VerdictIsDue }
{}
