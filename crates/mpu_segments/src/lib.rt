//! The segments of the memory protection unit: their registers, the rights that they give, and what a
//! violation asks for.
#![tactic(auto)]

mod noted;
mod places;
mod segments;
#[cfg(test)]
mod tests;

pub use noted::Noted;
pub use segments::MpuSegments;
