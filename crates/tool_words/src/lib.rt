//! The words after the program's name, and the command that they ask for.
#![tactic(auto)]

mod commands;
mod reading;
mod verbs;
mod words;

pub use commands::Command;
pub use reading::read_command;
