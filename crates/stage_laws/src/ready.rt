ghost use Rattle.stage_laws.specs.Ready.{TicksHaveBudgets, TicksMakeReady};

/// When the owner of the bus acts, the facts of the chip that hold between two ticks still hold as far as the turn needs
/// them.
pub fn ticks_make_ready()
    ensures { TicksMakeReady }
{}

/// When the owner of the bus acts, the tick has the budget of its power.
#[tactic(auto, using(crate::proofs::Readying::ticks_have_budgets))]
pub fn ticks_have_budgets()
    ensures { TicksHaveBudgets }
{}
