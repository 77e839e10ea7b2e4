//! The boot: its steps, one a tick, and the seal that the first one gives an image.
#![tactic(auto)]

mod boots;
pub mod laws;
mod places;
mod seals;
#[cfg(test)]
mod tests;

pub use boots::{Act, BootStep, ERASING, Keep, step};
pub use places::{Boot, start};
pub use seals::image_seal;
