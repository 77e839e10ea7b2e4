//! Laws of runs, from the definitions of accesses, steps and ticks alone: what every step keeps, what holds of
//! every chip of a run, what a cut keeps, what an erase lets happen, and how a seal lasts. And a comparison:
//! whether two ticks give away the same.
//!
//! The contract of each function in `laws` is a law. The functions do nothing.
#![tactic(auto)]

mod comparing;
mod laws;
#[cfg(test)]
mod tests;

pub use comparing::same_items;
pub use laws::{
    boot_installs, boot_keeps_kept, cut_holds_first, debugger_comes_first, entries_leave_registers,
    erase_is_alone, instructions_leave_registers, lock_outlasts_steps, run_keeps_facts,
    run_loses_power_by_cuts, seal_comes_back, seal_lasts, steps_hold_first, steps_keep_facts,
    steps_leave_missed, tick_keeps_facts,
};
