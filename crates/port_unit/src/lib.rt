//! The ports P1 to P4: their registers, the external levels of their pins, and what the outside sees.
#![tactic(auto)]

mod levels;
mod pairs;
mod pins;
mod ports;
#[cfg(test)]
mod tests;

pub use levels::Level;
pub use pins::Pins;
pub use ports::Ports;
