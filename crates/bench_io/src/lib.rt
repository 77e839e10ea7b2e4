//! The outside of the program: where its files come from and where its text goes.
//!
//! Both are traits, over memory and over the machine. Each answer's contract says when it comes.
#![tactic(auto)]

mod edge;
mod file_map;
mod file_shelf;
mod find_list;
mod mem_shelf;
mod mem_sink;
mod memory;
mod open_files;
mod shelves;
mod sinks;
#[cfg(test)]
mod tests;
mod whole_file;
mod whole_text;
mod writer_sink;

pub use file_shelf::FileShelf;
pub use find_list::MOST_FINDS;
pub use mem_shelf::MemShelf;
pub use mem_sink::MemSink;
pub use memory::NoMemory;
pub use shelves::{Found, Got, Shelf};
pub use sinks::{Sink, Took};
pub use whole_file::{FileRefused, read_file};
pub use whole_text::{PutFailed, put_all};
pub use writer_sink::{StdSink, WriterSink};
