//! The registers of the system unit, the causes of resets that are requested, and the interrupt that is
//! accepted.
#![tactic(auto)]

mod causes;
mod interrupts;
mod system;
#[cfg(test)]
mod tests;

pub use causes::Causes;
pub use interrupts::best;
pub use system::Sys;
