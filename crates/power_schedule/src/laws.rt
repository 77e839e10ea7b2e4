//! Laws of the cuts and of the power of a run, from their definitions alone.
//!
//! The contract of each function is a law. The functions do nothing.

ghost use Rattle.power_schedule.specs.Laws.{EachCutIsDone, FirstTickIsNotOff, OffNeverFollowsOn, OrderedCutsAreTaken, OutsideIsOn};

/// A tick without power never follows one with power on: a tick that is cut stands between. This takes no order of
/// the cuts.
#[tactic(auto, using(crate::proofs::Unpowered::off_never_follows_on))]
pub fn off_never_follows_on()
    ensures { OffNeverFollowsOn }
{}

/// The first tick of a run is on or cut.
#[tactic(auto, using(crate::proofs::Unpowered::first_tick_is_not_off))]
pub fn first_tick_is_not_off()
    ensures { FirstTickIsNotOff }
{}

/// Cuts whose stretches stand one behind another are a schedule: none of them is refused.
#[tactic(auto, using(crate::proofs::Order::ordered_cuts_are_taken))]
pub fn ordered_cuts_are_taken()
    ensures { OrderedCutsAreTaken }
{}

/// Of cuts in order each is done: its tick is cut behind its writes, and its length behind it is off. So no cut hides
/// another.
pub fn each_cut_is_done()
    ensures { EachCutIsDone }
{}

/// All other ticks have power: also the one behind the stretch of a cut, where no other cut has it.
#[tactic(auto, using(crate::proofs::Done::outside_is_on))]
pub fn outside_is_on()
    ensures { OutsideIsOn }
{}
