//! The lines of a trace, of a release list and of a comparison: what one tick of the chip shows, what leaves the seal in
//! it, and how two images compare, each as the text of its line.
#![tactic(auto)]

mod debug_lines;
mod items;
mod levels;
mod lines;
mod pieces;
mod release_lines;
#[cfg(test)]
mod release_tests;
mod releases;
#[cfg(test)]
mod tests;
mod verdict_lines;
mod verdicts;

pub use items::TraceItem;
pub use lines::trace_line;
pub use release_lines::{open_line, release_line};
pub use releases::Item;
pub use verdict_lines::verdict_line;
pub use verdicts::Verdict;
