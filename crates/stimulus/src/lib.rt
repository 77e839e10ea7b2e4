//! The bench that a firmware writer gives: how long a run is, what SRAM is filled with, what comes
//! to the pins and from the debugger at which tick, and where power is cut.
//!
//! A bench is a TOML document of the format in `docs/BENCH.md`.
#![tactic(auto)]

mod benches;
mod commands;
mod cuts;
mod events;
mod reading;
mod refusals;
#[cfg(test)]
mod tests;
mod trees;

pub use benches::Bench;
pub use events::{Event, EventAct};
pub use reading::read_bench;
pub use refusals::{BenchError, BenchRefused, RootField};

/// The longest run, in ticks. A bench has an end from 1 up to this.
pub const MAX_END: u32 = 10_000_000;
/// The most events that a bench has.
pub const MAX_EVENTS: usize = 10_000;
/// The most events that come in one tick.
pub const EVENTS_PER_TICK: usize = 8;

/// The most cuts that a bench has.
pub const MAX_CUTS: usize = 1_000;

/// The most writes of a cut.
pub const MAX_WRITES: u32 = 64;

/// The most ticks without power behind a cut.
pub const MAX_OFF: u32 = 10_000_000;
