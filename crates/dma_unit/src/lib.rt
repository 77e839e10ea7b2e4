//! The three channels of DMA: their registers, what triggers them, and their transfers.
#![tactic(auto)]

mod channel;
mod channels;
mod moves;
#[cfg(test)]
mod tests;
mod transfers;

pub use channels::DmaUnit;
pub use moves::make;
pub use transfers::Move;
