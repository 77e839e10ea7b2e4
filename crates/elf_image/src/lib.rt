//! Reads a program for the MSP430 from a 32-bit ELF file, as tool chains write it.
//!
//! What the program headers of type 1 load decides alone: sections, symbols, virtual addresses and
//! debugging data are passed over, and so are bytes that go to other addresses than FRAM.
#![tactic(auto)]

mod headers;
mod images;
mod refusals;
mod segments;
#[cfg(test)]
mod tests;

pub use images::{Image, read_image};
pub use refusals::ImageRefused;
