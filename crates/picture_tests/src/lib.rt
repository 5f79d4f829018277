//! Tests of the picture of a replay, from marks to what the program writes.
#![tactic(auto)]

#[cfg(test)]
mod line_tests;
#[cfg(test)]
mod mark_tests;
#[cfg(test)]
mod report_tests;
#[cfg(test)]
mod run_tests;
#[cfg(test)]
mod svg_tests;
#[cfg(test)]
mod xml_tests;
