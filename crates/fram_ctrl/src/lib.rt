//! The FRAM controller: the password of its registers, and the wait states of accesses to FRAM.
#![tactic(auto)]

mod fram;
#[cfg(test)]
mod tests;

pub use fram::FramCtrl;
