//! The timers of the chip, of which the watchdog is built.
#![tactic(auto)]

#[cfg(test)]
mod tests;
mod timer;
mod timers;
mod watchdog;

pub use chip_words::Fired;
pub use timers::Timers;
