ghost use Rattle.cpux_alu.specs.Laws.{ComplementSubtracts, DecimalSumIsExact, ShiftsScale, SignedSumIsExact};

/// Where V is 0, a sum is that of the signed values and the carry.
#[tactic(auto, using(crate::proofs::Exact::signed_sum_is_exact))]
pub fn signed_sum_is_exact()
    ensures { SignedSumIsExact }
{}

/// The sum with the complement and 1 is a difference, with C where nothing is borrowed, and V where the difference of
/// the signed values leaves the range.
#[tactic(auto, using(crate::proofs::Exact::complement_subtracts))]
pub fn complement_subtracts()
    ensures { ComplementSubtracts }
{}

/// On decimal digits a decimal sum with its carry is the sum of the numbers that they say.
#[tactic(auto, using(crate::proofs::Exact::decimal_sum_is_exact))]
pub fn decimal_sum_is_exact()
    ensures { DecimalSumIsExact }
{}

/// RLAM by several places is a product with a power of two, modulo 2^width, and RRUM a quotient.
pub fn shifts_scale()
    ensures { ShiftsScale }
{}
