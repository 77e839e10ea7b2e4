ghost use Rattle.cpux_decode.specs.Reasons.{ReservedForReasons};
ghost use Rattle.cpux_decode.specs.Table.{EachPairMeetsOneRow};

/// Each pair of words meets one row of the table.
#[tactic(auto, using(crate::proofs::OneRow::each_pair_meets_one_row))]
pub fn each_pair_meets_one_row()
    ensures { EachPairMeetsOneRow }
{}

/// The reserved rows of the table name the words that the rules reserve.
#[tactic(auto, using(crate::proofs::ReasonsLemmas::reserved_for_reasons))]
pub fn reserved_for_reasons()
    ensures { ReservedForReasons }
{}
