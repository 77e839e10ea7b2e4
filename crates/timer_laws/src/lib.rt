//! Laws of a timer, from the definitions of its steps and edges alone: how long the periods of its modes are, how many
//! edges make a step, and which flags a step sets.
//!
//! The contract of each function is a law. The functions do nothing.
#![tactic(auto)]

ghost use Rattle.timer_laws.specs.Edges.{DivisorsAreSmall, EdgesMakeSteps, HeldEdgesMakeAStep, OtherClockIsIdle, PinIsIdle, StoppedIsIdle};
ghost use Rattle.timer_laws.specs.Flags.{EqualRegistersAreFlagged, OverflowsSetTaifg, TicksSetTheFlags};
ghost use Rattle.timer_laws.specs.Periods.{ContinuousPeriods, PeriodsRepeat, UpDownPeriods, UpDownPeriodsByOne, UpPeriods, ZeroCompareStandsStill};
ghost use Rattle.timer_laws.specs.Steps.{StepsKeepTheRest};

/// Steps change R, the direction, TAIFG and CCTLs, and nothing else.
pub fn steps_keep_the_rest()
    ensures { StepsKeepTheRest }
{}

/// A period comes again and again, and sets TAIFG once each time.
pub fn periods_repeat()
    ensures { PeriodsRepeat }
{}

/// In up mode R counts from 0 to CCR0 and then is 0 again: a period has CCR0 + 1 steps, of which the last alone sets
/// TAIFG.
pub fn up_periods()
    ensures { UpPeriods }
{}

/// In continuous mode a period has 65,536 steps, of which the last alone sets TAIFG.
pub fn continuous_periods()
    ensures { ContinuousPeriods }
{}

/// In up/down mode R counts from 0 up to CCR0 and down to 0 again: where CCR0 is 2 or more, a period has twice CCR0
/// steps, of which the last alone sets TAIFG.
pub fn up_down_periods()
    ensures { UpDownPeriods }
{}

/// Where CCR0 is 1, a period of up/down mode has 3 steps: to 1, to 0 downward, and to 0 upward, which sets TAIFG.
pub fn up_down_periods_by_one()
    ensures { UpDownPeriodsByOne }
{}

/// Where CCR0 is 0, steps of up and of up/down mode do nothing.
#[tactic(auto, using(crate::proofs::Cycles::zero_compare_stands_still))]
pub fn zero_compare_stands_still()
    ensures { ZeroCompareStandsStill }
{}

/// A step takes from 1 to 64 edges.
pub fn divisors_are_small()
    ensures { DivisorsAreSmall }
{}

/// A timer takes a step for each divisor of the edges of its clock, and the prescaler is what is left of them.
pub fn edges_make_steps()
    ensures { EdgesMakeSteps }
{}

/// An edge makes a step where the prescaler holds all but one of those that it takes, or more.
pub fn held_edges_make_a_step()
    ensures { HeldEdgesMakeAStep }
{}

/// No tick changes a timer that is stopped.
pub fn stopped_is_idle()
    ensures { StoppedIsIdle }
{}

/// No tick changes a timer that takes its edges from a pin of the part.
pub fn pin_is_idle()
    ensures { PinIsIdle }
{}

/// A tick without an edge of its clock doesn't change a timer.
#[tactic(auto, using(crate::proofs::Divided::other_clock_is_idle))]
pub fn other_clock_is_idle()
    ensures { OtherClockIsIdle }
{}

/// A step that does something sets CCIFG of exactly those CCTLs whose CCR is equal to R behind it.
#[tactic(auto, using(crate::proofs::Flagged::equal_registers_are_flagged))]
pub fn equal_registers_are_flagged()
    ensures { EqualRegistersAreFlagged }
{}

/// A tick sets CCIFG of exactly those CCTLs of which `sets_flag` says so.
#[tactic(auto, using(crate::proofs::Flagged::ticks_set_the_flags))]
pub fn ticks_set_the_flags()
    ensures { TicksSetTheFlags }
{}

/// Steps set TAIFG where one of them overflows, and never clear it.
#[tactic(auto, using(crate::proofs::Flagged::overflows_set_taifg))]
pub fn overflows_set_taifg()
    ensures { OverflowsSetTaifg }
{}
