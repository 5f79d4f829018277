//! Tests of the cells, of the queue of tickets over them, and of lines that are relayed through it.
#![tactic(auto)]

#[cfg(test)]
mod cell_tests;
#[cfg(test)]
mod relay_tests;
#[cfg(test)]
mod ticket_tests;
