//! Tests of what scripts and traces say, and of what is read and written.
#![tactic(auto)]

#[cfg(test)]
mod edge_tests;
#[cfg(test)]
mod line_tests;
#[cfg(test)]
mod script_tests;
#[cfg(test)]
mod trace_tests;
