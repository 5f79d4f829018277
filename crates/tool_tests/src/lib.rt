//! Tests of the tool: its words, its commands on fakes of the streams, and the runs and reports below them.
#![tactic(auto)]

#[cfg(test)]
mod handed_tests;
#[cfg(test)]
mod play_tests;
#[cfg(test)]
mod report_tests;
#[cfg(test)]
mod round_tests;
#[cfg(test)]
mod rounds_text_tests;
#[cfg(test)]
mod runs;
#[cfg(test)]
mod script_tests;
#[cfg(test)]
mod takes_tests;
#[cfg(test)]
mod trace_tests;
#[cfg(test)]
mod word_tests;
