//! What scripts and traces are read by: the lines of a text, the words of a line, and numbers.
#![tactic(auto)]

mod memory;
mod pieces;

pub use memory::NoMemory;
pub use pieces::{Lines, MOST_NUMBER, Words, number};
