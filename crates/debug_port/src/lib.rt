//! The debug port: the commands of a debugger, and what each of them answers and does.
#![tactic(auto)]

mod answers;
mod commands;
mod debugger;
mod states;
#[cfg(test)]
mod tests;

pub use answers::{Answer, Dump};
pub use commands::Command;
pub use debugger::command;
pub use states::{Debug, DebugView};
