//! The bus of the chip: memory, the peripherals, and what an access to either does.
#![tactic(auto)]

mod accesses;
mod fabric;
mod memory;
mod peripherals;
#[cfg(test)]
mod tests;

pub use fabric::Fabric;

// What an access gives away of the seal: laws of the definition that the bus is proved to follow.
pub use access_laws::{inside_is_hidden, inside_sees_public, outside_sees_public};
