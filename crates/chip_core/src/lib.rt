//! The chip: what one tick does to it, and the lines of the trace that the tick gives.
#![tactic(auto)]

use arrayvec::ArrayVec;
use trace_print::{Item, TraceItem};

mod boots;
mod chips;
mod debugger;
mod entries;
mod images;
mod items;
mod lines;
mod owners;
mod pin_lines;
mod runs;
mod steps;
mod turns;
mod views;

pub use chips::Chip;
pub use views::View;

/// The lines of one tick, in their order.
pub type Lines = ArrayVec<TraceItem, 32>;

/// The items of one tick, in their order.
pub type Items = ArrayVec<Item, 64>;
