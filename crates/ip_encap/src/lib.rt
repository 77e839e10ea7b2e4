//! IP Encapsulation: the registers that bound an area of main FRAM, who may do what there, the seal, and which addresses
//! leave one seal for another.
#![tactic(auto)]

mod areas;
mod encap;
mod intervals;
#[cfg(test)]
mod tests;

pub use areas::holds;
pub use encap::{Borders, Bounds, Encap};
pub use intervals::{Interval, opened};
