//! The power of a run: in which ticks it is cut, and in which there is none.
#![tactic(auto)]

mod cuts;
pub mod laws;
mod powers;
mod refusals;
mod schedules;
#[cfg(test)]
mod tests;

pub use cuts::Cut;
pub use powers::Power;
pub use refusals::ScheduleRefused;
pub use schedules::Schedule;
