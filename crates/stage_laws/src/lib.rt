//! Laws of the stages of a tick, over two chips that have the same public part: what each stage leaves of it, where what
//! it gives away is the same.
//!
//! The contract of each function is a law. The functions do nothing.
#![tactic(auto)]

mod cuts;
mod one_tick;
mod private_turns;
mod public_laws;
mod ready;
mod resets;
mod two_runs;
mod verdicts;

pub use cuts::{cut_turns_agree, cuts_end_alike, public_parts_last};
pub use one_tick::one_tick_agrees;
pub use private_turns::{private_turn_shows_nothing, private_turns_agree};
pub use public_laws::{
    beginnings_see_public, boot_steps_see_public, intervals_tell_all, public_turns_see_public,
    transfers_see_public,
};
pub use ready::{ticks_have_budgets, ticks_make_ready};
pub use resets::{private_ticks_end_alike, public_parts_are_left, public_ticks_end_alike};
pub use two_runs::runs_agree;
pub use verdicts::{verdict_is_due, verdict_is_one};
